// The units of a drive, computed from those of the others.
ghost use Rattle.std.specs.Prelude.{◌≡◌, ◌<◌, ◌*◌, Some};
ghost use Rattle.extent_groups.specs.Groups.{class_in, group_at};
ghost use Rattle.extent_groups.specs.declared.class.Class.TheVariants.{Mirrored, Parity};

use extent_groups::{Class, GROUPS, GroupTable, Place, SLOTS};
use extents::{Drive, MemDrive};
use parity_store::xor_into;

// Reads the unit at a place; false where there is none of this length.
fn read(drives: &mut [MemDrive], place: Place, unit: &mut [u8]) -> bool {
    let number = place.drive as usize;
    if number >= drives.len() {
        return false;
    }
    let drive = &mut drives[number];
    if place.address >= drive.units() || unit.len() != drive.unit_bytes() {
        return false;
    }
    drive.read_unit(place.address, unit).is_ok()
}

// Writes the unit at a place; false where there is none of this length.
fn write(drives: &mut [MemDrive], place: Place, unit: &[u8]) -> bool {
    let number = place.drive as usize;
    if number >= drives.len() {
        return false;
    }
    let drive = &mut drives[number];
    if place.address >= drive.units() || unit.len() != drive.unit_bytes() {
        return false;
    }
    drive.write_unit(place.address, unit).is_ok()
}

// Computes the drive's copies of a mirrored group's slots: each is the other copy.
fn copy_group(
    groups: &GroupTable,
    drives: &mut [MemDrive],
    group: u16,
    number: u8,
    unit: &mut [u8],
) -> bool
    requires { class_in (group_at groups.now group) ≡ Some Mirrored }
{
    for index in 0..groups.slots_of(group) {
        let copies = groups.copies(group, index);
        let first = groups.place(group, copies.first.member, copies.first.offset);
        let second = groups.place(group, copies.second.member, copies.second.offset);
        let (from, to) = if first.drive == number {
            (second, first)
        } else {
            (first, second)
        };
        if to.drive == number && !(read(drives, from, unit) && write(drives, to, unit)) {
            return false;
        }
    }
    true
}

// The exclusive or of the units at an offset of all members but those on the drive. Takes a buffer for each of them.
fn add_others(
    groups: &GroupTable,
    drives: &mut [MemDrive],
    group: u16,
    offset: u16,
    number: u8,
    sum: &mut [u8],
    part: &mut [u8],
) -> bool
    requires offset { offset < 2 * groups.now.segments }
{
    sum.fill(0);
    for member in 0..groups.members(group).len() as u8 {
        let place = groups.place(group, member, offset);
        if place.drive == number {
            continue;
        }
        if part.len() != sum.len() || !read(drives, place, part) {
            return false;
        }
        xor_into(sum, part);
    }
    true
}

// Computes the drive's units of a parity group: each is the exclusive or of the row's others.
fn add_group(
    groups: &GroupTable,
    drives: &mut [MemDrive],
    group: u16,
    number: u8,
    sum: &mut [u8],
    part: &mut [u8],
) -> bool {
    let count = groups.shape().extent_units() as u16;
    for member in 0..groups.members(group).len() as u8 {
        for offset in 0..count {
            let place = groups.place(group, member, offset);
            if place.drive != number {
                continue;
            }
            if !add_others(groups, drives, group, offset, number, sum, part) {
                return false;
            }
            if !write(drives, place, sum) {
                return false;
            }
        }
    }
    true
}

/// Computes the units of a drive from those of the others. Units of no group stay. False where the sizes don't fit. Takes two buffers
/// of a unit's length.
pub(crate) fn compute(
    groups: &GroupTable,
    drives: &mut [MemDrive],
    number: u8,
    sum: &mut [u8],
    part: &mut [u8],
) -> bool {
    for group in 0..GROUPS as u16 {
        let done = match groups.class_of(group) {
            Some(Class::Mirrored) => copy_group(groups, drives, group, number, sum),
            Some(Class::Parity) => add_group(groups, drives, group, number, sum, part),
            None => true,
        };
        if !done {
            return false;
        }
    }
    true
}
