// Maps of three ranges of groups that make up all of them: merged in any order they are the map of all.
use crate::asserts::check;
use crate::rig::{Rig, record};
use header_scan::{scan, scan_groups};
use map_join::BlockMap;
use std::alloc::Global;
use std::process::Abort;
use step_core::Class;

/// Each order of three maps.
const ORDERS: [[usize; 3]; 6] = [
    [0, 1, 2],
    [0, 2, 1],
    [1, 0, 2],
    [1, 2, 0],
    [2, 0, 1],
    [2, 1, 0],
];

// Groups 0 and 1 are mirrored, 2 and 3 have parity. Block 3 moves from group 0 to 2, block 9 from 1 to 3 and on to 2, block 11
// from 0 to 3; block 5 is written in group 1 and then in 0; block 7 is written in group 1 and trimmed in 0.
fn moved(rt: &impl Abort, alloc: Global) -> Rig {
    let mut rig = Rig::new(rt, alloc, 4);
    check!(rt; rig.make(rt, Class::Mirrored, [0, 1, 2], 1) == 1);
    check!(rt; rig.make(rt, Class::Parity, [1, 2, 3], 2) == 2);
    check!(rt; rig.make(rt, Class::Parity, [0, 1, 3], 3) == 3);
    check!(rt; rig.write(rt, 0, 3, 0x11) == record(3, 1, 0, 0));
    check!(rt; rig.carry(rt, 258, 3) == record(3, 1, 1, 258));
    check!(rt; rig.write(rt, 130, 9, 0x22) == record(9, 1, 0, 130));
    check!(rt; rig.carry(rt, 385, 9) == record(9, 1, 1, 385));
    check!(rt; rig.carry(rt, 259, 9) == record(9, 1, 2, 259));
    check!(rt; rig.write(rt, 2, 11, 0x33) == record(11, 1, 0, 2));
    check!(rt; rig.carry(rt, 387, 11) == record(11, 1, 1, 387));
    check!(rt; rig.write(rt, 129, 5, 0x44) == record(5, 1, 0, 129));
    check!(rt; rig.write(rt, 4, 5, 0x55) == record(5, 2, 0, 4));
    check!(rt; rig.write(rt, 131, 7, 0x66) == record(7, 1, 0, 131));
    check!(rt; rig.drop_block(rt, 1, 7) == record(7, 2, 0, 1));
    check!(rt; rig.write(rt, 133, 14, 0x77) == record(14, 1, 0, 133));
    rig
}

// The map of all groups, which has exactly the newest records.
fn whole(rt: &impl Abort, rig: &mut Rig) -> BlockMap {
    let Ok(map) = scan(rig.alloc, &mut rig.array) else {
        rt.panic("no map")
    };
    let newest = [
        record(3, 1, 1, 258),
        record(5, 2, 0, 4),
        record(7, 2, 0, 1),
        record(9, 1, 2, 259),
        record(11, 1, 1, 387),
        record(14, 1, 0, 133),
    ];
    let Ok(list) = map.to_list(rig.alloc) else {
        rt.panic("no list")
    };
    check!(rt; list.as_slice() == newest.as_slice());
    map
}

// The map of the groups from one on, before another.
fn part(rt: &impl Abort, rig: &mut Rig, first: u16, end: u16) -> BlockMap {
    check!(rt; first <= end && end <= 512);
    let Ok(map) = scan_groups(rig.alloc, &mut rig.array, first, end) else {
        rt.panic("no part")
    };
    map
}

// The merge of three maps in an order.
fn merged(rt: &impl Abort, alloc: Global, parts: &[BlockMap; 3], order: [usize; 3]) -> BlockMap {
    let mut map = BlockMap::new(alloc);
    for at in order {
        check!(rt; at < 3);
        check!(rt; map.merge(alloc, &parts[at]).is_ok());
    }
    map
}

// Whether the maps of the groups before one, of those on to another, and of the rest merge to this map in each order.
fn merge_to(rt: &impl Abort, rig: &mut Rig, one: u16, other: u16, whole: &BlockMap) -> bool {
    let parts = [
        part(rt, rig, 0, one),
        part(rt, rig, one, other),
        part(rt, rig, other, 512),
    ];
    for order in ORDERS {
        let map = merged(rt, rig.alloc, &parts, order);
        if !map.agrees(whole) || map.lowest_difference(whole).is_some() {
            return false;
        }
    }
    true
}

// Whether that is so wherever the ranges end: among the four groups, or past them.
fn all_merge(rt: &impl Abort, rig: &mut Rig) -> bool {
    let whole = whole(rt, rig);
    for one in 0..6u16 {
        for other in one..6u16 {
            if !merge_to(rt, rig, one, other, &whole) {
                return false;
            }
        }
    }
    merge_to(rt, rig, 3, 512, &whole)
}

#[test]
fn the_maps_of_three_ranges_merge_to_the_whole_in_each_order(rt: HostRuntime) {
    let mut rig = moved(&rt, rt.alloc());
    check!(rt; all_merge(&rt, &mut rig));
    rig.lose(&rt, 1);
    check!(rt; all_merge(&rt, &mut rig));
}
