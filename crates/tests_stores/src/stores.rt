// Both stores, with one drive lost at any call and a second one lost before or not.
use crate::asserts::check;
use crate::rig::{Rig, SIZE, is_slot};
use crate::slow::{holds, peek};
use extent_groups::{Class, GroupTable, Member, SLOTS, StoreRefusal};
use extents::{Drive, HEADER_BYTES, MemDrive};
use parity_store::xor_into;
use std::alloc::Global;
use std::process::Abort;
use std::test::Fail;

/// The byte that the tests write over what slots were given.
const NEW: u8 = 200;

/// The unit that a slot is given before a loss: every byte depends on the slot, in header and payload.
fn given(slot: u16, at: usize) -> u8 {
    (slot % 101) as u8 ^ (at % 97) as u8 ^ (slot / SLOTS % 2) as u8 * 128
}

fn give(unit: &mut [u8], slot: u16) {
    for (at, byte) in unit.iter_mut().enumerate() {
        *byte = given(slot, at);
    }
}

fn is_given(unit: &[u8], slot: u16) -> bool {
    unit.iter()
        .enumerate()
        .all(|(at, byte)| *byte == given(slot, at))
}

fn is_all(unit: &[u8], expected: u8) -> bool {
    unit.iter().all(|byte| *byte == expected)
}

/// Two groups of a class over `drives` drives, where there is memory for them.
fn rig_of(rt: &impl Abort, alloc: Global, class: Class, drives: u8, segments: u32) -> Rig {
    let Ok(rig) = Rig::new(rt, alloc, class, drives, segments) else {
        rt.panic("no memory")
    };
    rig
}

/// Writes a different unit to each slot of both groups.
fn fill(rt: &impl Abort, rig: &mut Rig) {
    for slot in 0..2 * SLOTS {
        if rig.has(slot) {
            give(&mut rig.unit, slot);
            check!(rt; rig.write(rt, slot).is_ok());
        }
    }
}

/// A store under a loss: which slot is written, and which drive is lost at which of its calls, or before all.
#[derive(Clone, Copy)]
struct Case {
    class: Class,
    drives: u8,
    segments: u32,
    slot: u16,
    fused: usize,
    call: u64,
    lost: Option<usize>,
}

/// Writes a slot, and reads it and its header, while a drive is lost. Returns the groups and drives after it, whether the write
/// succeeded, and whether both reads did.
fn run(rt: &impl Abort, alloc: Global, case: &Case) -> (Rig, bool, bool) {
    let mut rig = rig_of(rt, alloc, case.class, case.drives, case.segments);
    fill(rt, &mut rig);
    if let Some(drive) = case.lost {
        rig.lose(rt, drive);
    }
    rig.fuse(rt, case.fused, case.call);
    let wrote = rig.write_all(rt, case.slot, NEW);
    check!(rt; wrote.is_ok() || wrote == Err(StoreRefusal::Gone(case.slot)));
    let read = rig.read(rt, case.slot);
    check!(rt;
        if read.is_ok() {
            is_all(&rig.unit, NEW)
        } else {
            read == Err(StoreRefusal::Gone(case.slot))
        }
    );
    let mut header = [0; HEADER_BYTES];
    let front = rig.read_header(rt, case.slot, &mut header);
    check!(rt;
        if front.is_ok() {
            read.is_ok() && is_all(&header, NEW)
        } else {
            front == Err(StoreRefusal::Gone(case.slot))
        }
    );
    rig.fuse(rt, case.fused, 1000000);
    (rig, wrote.is_ok(), read.is_ok() && front.is_ok())
}

/// Asserts that each slot but the written one has its first unit, or is lost with a second drive. Returns whether the written
/// one has its new unit.
fn stand(
    rt: &impl Abort,
    case: &Case,
    groups: &GroupTable,
    drives: &mut [MemDrive],
    unit: &mut [u8],
    part: &mut [u8],
) -> bool {
    let mut found = false;
    for slot in 0..2 * SLOTS {
        if is_slot(groups, case.class, slot) {
            let there = holds(rt, groups, drives, case.class, slot, unit, part);
            if slot == case.slot {
                check!(rt; !there || is_all(unit, NEW));
                found = there;
            } else {
                check!(rt;
                    if there {
                        is_given(unit, slot)
                    } else {
                        case.lost.is_some()
                    }
                );
            }
        }
    }
    found
}

/// Whether the written slot has a unit on the drives alone.
fn matches(rt: &impl Abort, case: &Case, rig: Rig) -> bool {
    let (groups, mut drives) = rig.open();
    let mut unit = [0; SIZE];
    let mut part = [0; SIZE];
    stand(rt, case, &groups, &mut drives, &mut unit, &mut part)
}

/// Asserts that a write or a read is refused only where another drive was lost before, and the slot's unit is lost.
fn swept(rt: &impl Abort, alloc: Global, case: &Case) {
    let (rig, wrote, read) = run(rt, alloc, case);
    let there = matches(rt, case, rig);
    check!(rt; case.lost.is_some() || wrote && read && there);
    check!(rt; wrote && read || !there);
}

/// Every drive lost at each of its calls, and at its second one with one of the first two lost before.
fn sweep(rt: &impl Abort, alloc: Global, class: Class, drives: u8, segments: u32, last: u16) {
    for fused in 0..drives as usize {
        for call in 1..6 {
            swept(
                rt,
                alloc,
                &Case {
                    class,
                    drives,
                    segments,
                    slot: last,
                    fused,
                    call,
                    lost: None,
                },
            );
        }
        for lost in 0..2 {
            swept(
                rt,
                alloc,
                &Case {
                    class,
                    drives,
                    segments,
                    slot: 0,
                    fused,
                    call: 2,
                    lost: Some(lost),
                },
            );
        }
    }
}

#[test]
fn one_drive_lost_at_any_call_changes_no_answer(rt: HostRuntime) {
    for drives in [3u8, 4, 8] {
        for segments in 1..4u32 {
            let pairs = drives as u16 * segments as u16 / 2;
            sweep(
                &rt,
                rt.alloc(),
                Class::Mirrored,
                drives,
                segments,
                2 * pairs - 1,
            );
            let units = 2 * segments as u16 * (drives as u16 - 1);
            sweep(&rt, rt.alloc(), Class::Parity, drives, segments, units - 1);
        }
    }
}

#[test]
fn the_exclusive_or_by_lanes_is_that_of_each_byte(rt: HostRuntime) -> Result<(), Fail> {
    for size in [0usize, 1, 31, 32, 33, 65, 65568] {
        let mut into = vec![in rt.alloc(); 0; size]?;
        let mut from = vec![in rt.alloc(); 0; size]?;
        for (at, byte) in into.iter_mut().enumerate() {
            *byte = (at % 251) as u8;
        }
        for (at, byte) in from.iter_mut().enumerate() {
            *byte = (at / 7 % 256) as u8;
        }
        check!(rt; into.len() == from.len());
        xor_into(&mut into, &from);
        let same = into.iter().enumerate().all(|(at, byte)| *byte
            == (at % 251) as u8 ^ (at / 7 % 256) as u8);
        check!(rt; same);
    }
    Ok(())
}

/// Writes a unit of one byte throughout, which is not refused.
fn writes(rt: &impl Abort, rig: &mut Rig, slot: u16, byte: u8) {
    check!(rt; rig.write_all(rt, slot, byte).is_ok());
}

/// Whether a slot's unit is of this byte.
fn reads(rt: &impl Abort, rig: &mut Rig, slot: u16, byte: u8) -> bool {
    rig.read(rt, slot).is_ok() && is_all(&rig.unit, byte)
}

/// Whether the parity at an offset of the second group is read as this byte.
fn reads_parity(rt: &impl Abort, rig: &mut Rig, offset: u16, byte: u8) -> bool {
    rig.read_parity(rt, 1, offset) && is_all(&rig.unit, byte)
}

/// Parity groups of three drives, with two units of the second one's first row written.
fn two_written(rt: &impl Abort, alloc: Global) -> Rig {
    let mut rig = rig_of(rt, alloc, Class::Parity, 3, 2);
    writes(rt, &mut rig, 128, 0x5a);
    writes(rt, &mut rig, 130, 0xc3);
    rig
}

/// Whether the parity of the lowest units of the second group of three drives is this byte throughout.
fn has_parity(rt: &impl Abort, rig: Rig, expected: u8) -> bool {
    let (groups, mut drives) = rig.open();
    let mut unit = [0; SIZE];
    check!(rt; groups.members(1).len() > 2);
    check!(rt; groups.shape().extent_units() > 0);
    let parity = groups.place(1, 2, 0);
    peek(rt, &mut drives, parity, &mut unit) && is_all(&unit, expected)
}

#[test]
fn the_parity_is_of_header_and_payload(rt: HostRuntime) {
    let mut one = rig_of(&rt, rt.alloc(), Class::Parity, 3, 2);
    writes(&rt, &mut one, 128, 0x5a);
    check!(rt; has_parity(&rt, one, 0x5a));
    check!(rt; has_parity(&rt, two_written(&rt, rt.alloc()), 0x99));
}

#[test]
fn a_lost_neighbour_stays_over_a_write(rt: HostRuntime) {
    let mut rig = two_written(&rt, rt.alloc());
    rig.lose(&rt, 1);
    writes(&rt, &mut rig, 128, 0xc3);
    check!(rt; reads(&rt, &mut rig, 130, 0xc3));
}

/// Whether no drive is lost.
fn are_there(rig: Rig) -> bool {
    let (_groups, drives) = rig.open();
    drives.iter().all(|drive| !drive.is_lost())
}

#[test]
fn a_write_in_a_sound_group_reaches_two_drives_alone(rt: HostRuntime) {
    let mut rig = rig_of(&rt, rt.alloc(), Class::Parity, 8, 1);
    for drive in 1..7 {
        rig.fuse(&rt, drive, 1);
    }
    // The first slot is on drive 0 and its parity on drive 7.
    rig.fuse(&rt, 0, 3);
    rig.fuse(&rt, 7, 3);
    writes(&rt, &mut rig, 0, 7);
    check!(rt; are_there(rig));
}

#[test]
fn a_mirrored_write_is_one_call_of_each_of_its_two_drives(rt: HostRuntime) {
    let mut rig = rig_of(&rt, rt.alloc(), Class::Mirrored, 3, 1);
    // Both slots lie on drives 0 and 1. The first is written whole, the second in two pieces.
    rig.fuse(&rt, 0, 3);
    rig.fuse(&rt, 1, 3);
    rig.fuse(&rt, 2, 1);
    writes(&rt, &mut rig, 0, 7);
    writes(&rt, &mut rig, 1, 7);
    check!(rt; are_there(rig));
}

#[test]
fn the_parity_is_read_or_had_from_the_others(rt: HostRuntime) {
    let mut rig = two_written(&rt, rt.alloc());
    check!(rt; reads_parity(&rt, &mut rig, 0, 0x99));
    check!(rt; reads_parity(&rt, &mut rig, 1, 0));
    // The parity of the first offset is on the last drive.
    rig.lose(&rt, 2);
    check!(rt; reads_parity(&rt, &mut rig, 0, 0x99));
    rig.lose(&rt, 0);
    check!(rt; !rig.read_parity(&rt, 1, 0));
}

/// Writes the buffered unit over an extent of the second group.
fn wipe(rt: &impl Abort, rig: &mut Rig, drive: u8) -> bool {
    rig.wipe(rt, Member { drive, extent: 1 })
}

#[test]
fn an_extent_is_wiped_to_its_end(rt: HostRuntime) {
    let mut rig = rig_of(&rt, rt.alloc(), Class::Mirrored, 3, 2);
    fill(&rt, &mut rig);
    rig.unit.fill(NEW);
    check!(rt; wipe(&rt, &mut rig, 0));
    check!(rt; wipe(&rt, &mut rig, 1));
    // The last pair of the group lies at the end of the extents of drives 1 and 2, the first on 0 and 1.
    check!(rt; reads(&rt, &mut rig, 133, NEW));
    check!(rt; reads(&rt, &mut rig, 128, NEW));
    check!(rt; rig.read(&rt, 5).is_ok() && is_given(&rig.unit, 5));
    rig.lose(&rt, 0);
    check!(rt; !wipe(&rt, &mut rig, 0));
}

/// Reads the header of slot 0 into a buffer, and returns whether drive 0 is lost then.
fn burns_at_header(rt: &impl Abort, rig: &mut Rig, header: &mut [u8]) -> bool {
    check!(rt; rig.read_header(rt, 0, header).is_ok());
    rig.is_lost(rt, 0)
}

#[test]
fn a_header_is_read_by_one_call_of_its_drive(rt: HostRuntime) {
    for class in [Class::Mirrored, Class::Parity] {
        let mut rig = rig_of(&rt, rt.alloc(), class, 3, 1);
        fill(&rt, &mut rig);
        let mut header = [0; HEADER_BYTES];
        // Slot 0 lies on drive 0; its copy, or the two others of its row, on drives 1 and 2.
        rig.fuse(&rt, 0, 2);
        check!(rt; !burns_at_header(&rt, &mut rig, &mut header));
        check!(rt; burns_at_header(&rt, &mut rig, &mut header));
        check!(rt; is_given(&header, 0));
    }
}
