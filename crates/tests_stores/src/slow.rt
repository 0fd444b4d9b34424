// What a slot holds, computed from reads of the present drives alone.
ghost use Rattle.std.specs.Prelude.{◌≡◌};

use crate::asserts::check;
use crate::rig::is_slot;
use extent_groups::{Class, GroupTable, Place, SLOTS};
use extents::{Drive, MemDrive};
use std::process::Abort;

/// Reads a place into the unit, if its drive is present.
pub(crate) fn peek(
    rt: &impl Abort,
    drives: &mut [MemDrive],
    place: Place,
    unit: &mut [u8],
) -> bool {
    check!(rt; (place.drive as usize) < drives.len());
    let drive = &mut drives[place.drive as usize];
    check!(rt; place.address < drive.units());
    check!(rt; unit.len() == drive.unit_bytes());
    !drive.is_lost() && drive.read_unit(place.address, unit).is_ok()
}

/// Puts the exclusive or of both into the first, byte by byte.
fn add(unit: &mut [u8], part: &[u8]) {
    for (byte, other) in unit.iter_mut().zip(part) {
        *byte ^= *other;
    }
}

/// The unit of a mirrored slot: what its present copies hold, which must be equal.
fn copies_hold(
    rt: &impl Abort,
    groups: &GroupTable,
    drives: &mut [MemDrive],
    slot: u16,
    unit: &mut [u8],
    part: &mut [u8],
) -> bool {
    check!(rt; is_slot(groups, Class::Mirrored, slot));
    check!(rt; unit.len() == part.len());
    let (first, second) = groups.pair_of(slot);
    let one = peek(rt, drives, first, part);
    if !peek(rt, drives, second, unit) {
        unit.copy_from_slice(part);
        return one;
    }
    if one {
        check!(rt; unit.iter().zip(part.iter()).all(|(a, b)| *a == *b));
    }
    true
}

/// The exclusive or of all members but one at an offset, if their drives are present.
fn others_hold(
    rt: &impl Abort,
    groups: &GroupTable,
    drives: &mut [MemDrive],
    group: u16,
    but: u8,
    offset: u16,
    unit: &mut [u8],
    part: &mut [u8],
) -> bool {
    unit.fill(0);
    for member in 0..groups.members(group).len() as u8 {
        if member != but {
            check!(rt; (member as usize) < groups.members(group).len());
            check!(rt; (offset as u32) < groups.shape().extent_units());
            if !peek(rt, drives, groups.place(group, member, offset), part) {
                return false;
            }
            add(unit, part);
        }
    }
    true
}

/// The unit of a parity slot: its own, or the exclusive or of all other members' at its offset.
fn stripe_holds(
    rt: &impl Abort,
    groups: &GroupTable,
    drives: &mut [MemDrive],
    slot: u16,
    unit: &mut [u8],
    part: &mut [u8],
) -> bool {
    check!(rt; is_slot(groups, Class::Parity, slot));
    let at = groups.stripe_of(slot / SLOTS, slot % SLOTS);
    peek(
        rt,
        drives,
        groups.place(slot / SLOTS, at.member, at.offset),
        unit,
    ) || others_hold(
        rt,
        groups,
        drives,
        slot / SLOTS,
        at.member,
        at.offset,
        unit,
        part,
    )
}

/// Puts a slot's unit into the buffer, where it has one.
pub(crate) fn holds(
    rt: &impl Abort,
    groups: &GroupTable,
    drives: &mut [MemDrive],
    class: Class,
    slot: u16,
    unit: &mut [u8],
    part: &mut [u8],
) -> bool {
    match class {
        Class::Mirrored => copies_hold(rt, groups, drives, slot, unit, part),
        Class::Parity => stripe_holds(rt, groups, drives, slot, unit, part),
    }
}
