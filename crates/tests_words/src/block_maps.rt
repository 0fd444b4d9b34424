// Records and maps against values from outside.
use crate::asserts::check;
use map_join::{BlockMap, Live, MapRefusal, Newest, Record, RecordFault};
use std::alloc::Global;
use std::process::Abort;

fn record_of(block: u32, version: u32, hop: u16, place: u16) -> Record {
    Record {
        block,
        version,
        hop,
        place,
    }
}

fn record(version: u32, hop: u16, place: u16) -> Record {
    record_of(3, version, hop, place)
}

// The first write of a block, into the slot before the block's number.
fn first_of(block: u16) -> Record {
    record_of(u32::from(block), 1, 0, block.saturating_sub(1))
}

// The map that took these records in their order.
fn map_of(rt: &impl Abort, alloc: Global, records: &[Record]) -> BlockMap {
    let mut map = BlockMap::new(alloc);
    for record in records {
        check!(rt; record.version > 0);
        check!(rt; map.take(alloc, *record).is_ok());
    }
    map
}

// Whether the map lists exactly these records.
fn lists(alloc: Global, map: &BlockMap, expected: &[Record]) -> bool {
    match map.to_list(alloc) {
        Ok(list) => list.as_slice() == expected,
        Err(_) => false,
    }
}

#[test]
fn a_key_orders_by_version_then_hop_then_place(rt: HostRuntime) {
    check!(rt; record(1, 0, 0).key() == 4_294_967_296);
    check!(rt; record(1, 1, 128).key() == 4_295_032_960);
    check!(rt; record(2, 0, 5).key() == 8_589_934_597);
    check!(rt; record(1, 65_535, 65_535).key() == 8_589_934_591);
    check!(rt; Record::of_key(3, 4_295_032_960) == Some(record(1, 1, 128)));
    check!(rt; Record::of_key(3, 4_294_967_295) == None);
}

#[test]
fn twelve_bytes_spell_a_record_and_no_others_do(rt: HostRuntime) {
    let bytes = [0u8, 0, 0, 3, 0, 0, 0, 2, 0, 0, 0, 5];
    check!(rt; record(2, 0, 5).to_bytes() == bytes);
    check!(rt; Record::of_bytes(&bytes) == Ok(record(2, 0, 5)));
    for length in 0..12usize {
        check!(rt; Record::of_bytes(&bytes[..length]) == Err(RecordFault::Length));
    }
    check!(rt; Record::of_bytes(&[1u8; 13]) == Err(RecordFault::Length));
    let unwritten = [0u8, 0, 0, 3, 0, 0, 0, 0, 0, 0, 0, 0];
    check!(rt; Record::of_bytes(&unwritten) == Err(RecordFault::ZeroVersion));
}

#[test]
fn three_records_in_any_order_and_twice_leave_the_newest(rt: HostRuntime) {
    let (one, two, three) = (record(1, 0, 0), record(1, 1, 128), record(2, 0, 5));
    let orders = [
        [one, two, three],
        [one, three, two],
        [two, one, three],
        [two, three, one],
        [three, one, two],
        [three, two, one],
    ];
    for [a, b, c] in &orders {
        let map = map_of(&rt, rt.alloc(), &[*a, *a, *b, *b, *c, *c]);
        check!(rt; map.get(3) == Some(three));
        check!(rt; map.get(4) == None);
    }
}

#[test]
fn a_write_is_newer_than_the_last_move_before_it(rt: HostRuntime) {
    let moved = record(1, 65_535, 65_535);
    let written = record(2, 0, 0);
    check!(rt; written.key() == 8_589_934_592);
    for (first, second) in [(moved, written), (written, moved)] {
        let map = map_of(&rt, rt.alloc(), &[first, second]);
        check!(rt; map.get(3) == Some(written));
    }
}

#[test]
fn the_older_of_two_maps_differs_and_is_covered(rt: HostRuntime) {
    let newer = map_of(&rt, rt.alloc(), &[record(2, 0, 5), record(1, 0, 0)]);
    let older = map_of(&rt, rt.alloc(), &[record(1, 0, 0)]);
    check!(rt; older.lowest_difference(&newer) == Some(3));
    check!(rt; newer.lowest_difference(&older) == Some(3));
    check!(rt; !older.agrees(&newer));
    check!(rt; newer.covers(&older) && !older.covers(&newer));
}

#[test]
fn two_maps_agree_once_the_older_one_is_merged(rt: HostRuntime) {
    let newer = map_of(&rt, rt.alloc(), &[record(2, 0, 5), record(1, 0, 0)]);
    let mut older = map_of(&rt, rt.alloc(), &[record(1, 0, 0)]);
    check!(rt; older.merge(rt.alloc(), &newer).is_ok());
    check!(rt; older.get(3) == Some(record(2, 0, 5)));
    check!(rt; older.lowest_difference(&newer) == None);
    check!(rt; older.agrees(&newer));
    check!(rt; newer.covers(&older) && older.covers(&newer));
}

#[test]
fn a_map_without_blocks_is_covered_by_each(rt: HostRuntime) {
    let one = map_of(&rt, rt.alloc(), &[record(1, 0, 0)]);
    let mut none = BlockMap::new(rt.alloc());
    let other = BlockMap::new(rt.alloc());
    check!(rt; none.merge(rt.alloc(), &other).is_ok());
    check!(rt; lists(rt.alloc(), &none, &[]));
    check!(rt; one.covers(&none) && !none.agrees(&one));
}

#[test]
fn a_table_of_keys_is_made_a_map(rt: HostRuntime) {
    let keys = [0, 0x2_0001_0082, 0, 0x1_0000_0007];
    let Ok(map) = BlockMap::of_table(rt.alloc(), &keys) else {
        rt.panic("no map")
    };
    let expected = [record_of(1, 2, 1, 130), record(1, 0, 7)];
    check!(rt; lists(rt.alloc(), &map, &expected));
    check!(rt; map.get(4) == None);
}

// Whether the blocks up to `last` that the map has are the first ones.
fn has_the_first(map: &BlockMap, last: u32) -> bool {
    let mut ended = false;
    for block in 1..=last {
        if map.get(block).is_none() {
            ended = true;
        } else if ended {
            return false;
        }
    }
    true
}

// A run may fail one of these allocations. Then the first blocks are merged, and a second merge merges the others.
#[test]
fn a_refused_merge_has_the_first_blocks_and_goes_on(rt: HostRuntime) {
    for blocks in [2u16, 100] {
        let mut from = BlockMap::new(rt.alloc());
        for block in 1..=blocks {
            let taken = first_of(block);
            check!(rt; taken.version > 0);
            if from.take(rt.alloc(), taken) == Err(MapRefusal::Memory) {
                check!(rt; from.get(taken.block) == None);
                check!(rt; from.take(rt.alloc(), taken).is_ok());
            }
        }
        let mut to = BlockMap::new(rt.alloc());
        if to.merge(rt.alloc(), &from) == Err(MapRefusal::Memory) {
            check!(rt; has_the_first(&to, u32::from(blocks)));
            check!(rt; !to.covers(&from) && from.covers(&to));
            check!(rt; to.merge(rt.alloc(), &from).is_ok());
        }
        check!(rt; to.get(1) == Some(first_of(1)));
        check!(rt; to.get(u32::from(blocks)) == Some(first_of(blocks)));
        check!(rt; to.agrees(&from));
    }
}

#[test]
fn a_list_is_in_block_order_and_a_copy_has_the_same(rt: HostRuntime) {
    let (two, five, nine) = (
        record_of(2, 1, 0, 7),
        record_of(5, 1, 0, 7),
        record_of(9, 1, 0, 7),
    );
    let map = map_of(&rt, rt.alloc(), &[nine, two, five]);
    let Ok(copy) = map.copied(rt.alloc()) else {
        rt.panic("no copy")
    };
    check!(rt; lists(rt.alloc(), &copy, &[two, five, nine]));
}

#[test]
fn the_newest_records_alone_report_which_slots_are_live(rt: HostRuntime) {
    let records = [record(1, 0, 5), record(1, 1, 130), record_of(9, 1, 0, 5)];
    let map = map_of(&rt, rt.alloc(), &records);
    check!(rt; map.newest(3) == Some(record(1, 1, 130)));
    check!(rt; map.newest(4) == None);
    check!(rt; map.block_at(5) == Some(9));
    check!(rt; map.block_at(130) == Some(3));
    check!(rt; map.block_at(2) == None);
    check!(rt; map.count_live(0, 5) == 0);
    check!(rt; map.count_live(0, 6) == 1);
    check!(rt; map.count_live(1, 128) == 1);
    check!(rt; map.count_live(2, 128) == 0);
}
