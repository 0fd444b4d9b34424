// What is seen at the places of records, and payloads read, in both classes: with all drives there, one lost, and two.
use crate::asserts::check;
use crate::rig::{Rig, is_of, record};
use extents::Kind;
use flat_machine::Refusal;
use map_join::Record;
use std::alloc::Global;
use std::process::Abort;
use unit_store::Sight;

/// Slots 0 to 5 are mirrored, slots 128 to 135 have parity. Block 5 is at slot 4 with nines, blocks 3 and 7 at slots 130 and
/// 134 with eights, which slot 1 holds without a record. Slot 131 holds sixes without one. Slots 2 and 133 hold units that a
/// seven names, which begin with no header. A number names bytes by the first of them, as in `Rig`.
fn filled(rt: &impl Abort, alloc: Global) -> Rig {
    let mut rig = Rig::grouped(rt, alloc);
    rig.put(rt, 4, 9);
    rig.put(rt, 1, 8);
    rig.put(rt, 131, 6);
    let carried = [
        (4, record(5, 2, 0, 4)),
        (1, record(3, 1, 1, 130)),
        (130, record(7, 1, 1, 134)),
    ];
    rig.carry_all(rt, &carried);
    rig.writes(rt, 2, 7);
    rig.writes(rt, 133, 7);
    rig
}

/// Whether exactly this record lies at its place, with the payload that this byte names.
fn sees(rt: &impl Abort, rig: &mut Rig, asked: Record, byte: u8) -> bool {
    rig.payload = [0; 24];
    rig.see(rt, asked) == Ok(Sight::Here(Kind::Data)) && is_of(&rig.payload, byte)
}

/// Whether another record lies at its place, or none.
fn is_stale(rt: &impl Abort, rig: &mut Rig, asked: Record, found: Option<Record>) -> bool {
    rig.see(rt, asked) == Ok(Sight::Stale(found))
}

/// Whether a slot's payload is what this byte names.
fn reads(rt: &impl Abort, rig: &mut Rig, slot: u16, byte: u8) -> bool {
    rig.payload = [1; 24];
    rig.take_payload(rt, slot) == Ok(Kind::Data) && is_of(&rig.payload, byte)
}

/// Whether a slot is refused as gone, both by a lookup of this record there and by a read of its payload.
fn is_gone(rt: &impl Abort, rig: &mut Rig, asked: Record) -> bool {
    let gone = Refusal::Gone(asked.place);
    rig.see(rt, asked) == Err(gone) && rig.take_payload(rt, asked.place) == Err(gone)
}

/// Looks for records that are there, for older ones of the same block and place, and where no record is.
fn see_all(rt: &impl Abort, rig: &mut Rig) {
    check!(rt; sees(rt, rig, record(5, 2, 0, 4), 9));
    check!(rt; sees(rt, rig, record(3, 1, 1, 130), 8));
    let stale = [
        (record(5, 1, 0, 4), Some(record(5, 2, 0, 4))),
        (record(3, 1, 0, 130), Some(record(3, 1, 1, 130))),
        (record(6, 1, 0, 1), None),
        (record(6, 1, 1, 131), None),
        (record(6, 1, 0, 2), None),
        (record(6, 1, 1, 133), None),
    ];
    for (asked, found) in &stale {
        check!(rt; is_stale(rt, rig, *asked, *found));
    }
}

/// Reads the payloads of both classes, under any header or none.
fn read_all(rt: &impl Abort, rig: &mut Rig) {
    // After the 32 bytes of a header the bytes that a seven names go on with 7 + 29 * 32, which is 167 and whole 256s.
    let payloads = [(1, 8), (2, 167), (4, 9), (130, 8), (131, 6), (133, 167)];
    for (slot, byte) in &payloads {
        check!(rt; reads(rt, rig, *slot, *byte));
    }
}

#[test]
fn what_lies_at_a_place_is_seen_with_a_drive_lost_too(rt: HostRuntime) {
    let mut rig = filled(&rt, rt.alloc());
    see_all(&rt, &mut rig);
    rig.lose(&rt, 2);
    see_all(&rt, &mut rig);
    read_all(&rt, &mut rig);
}

#[test]
fn a_slot_whose_two_drives_are_lost_is_gone_and_others_are_seen(rt: HostRuntime) {
    let mut rig = filled(&rt, rt.alloc());
    read_all(&rt, &mut rig);
    rig.lose(&rt, 1);
    read_all(&rt, &mut rig);
    rig.fuse(&rt, 2, 1);
    check!(rt; is_gone(&rt, &mut rig, record(5, 2, 0, 4)));
    check!(rt; is_gone(&rt, &mut rig, record(3, 1, 1, 130)));
    check!(rt; sees(&rt, &mut rig, record(7, 1, 1, 134), 8));
    check!(rt; reads(&rt, &mut rig, 1, 8));
}
