// Rotten units, computed from those that aren't.
ghost use Rattle.std.specs.Prelude.{◌≡◌, ◌<◌, ◌*◌, Some, true, length};
ghost use Rattle.extent_groups.specs.Calls.{KeepsDrives, NoPlace, Only};
ghost use Rattle.extent_groups.specs.Cells.{cells, held};
ghost use Rattle.extent_groups.specs.Groups.{class_in, group_at, members_of};
ghost use Rattle.extent_groups.specs.declared.class.Class.TheVariants.{Mirrored};
ghost use Rattle.vault.specs.Marks.{Has};

use extent_groups::{Class, GROUPS, GroupTable, Place};
use extents::Drive;
use parity_store::xor_into;
use vault::Places;

/// Reads the unit at a place; false where there is none of this length.
pub(crate) fn read<D: Drive>(drives: &mut [D], place: Place, unit: &mut [u8]) -> bool
    ensures read { result ≡ true → held (cells D.units D.lost drives.new) place ≡ Some unit.new }
    ensures drives { KeepsDrives D.units D.lost D.failures NoPlace drives.old drives.new }
{
    let Place { drive, address } = place;
    let number = drive as usize;
    if number >= drives.len() {
        return false;
    }
    if address >= drives[number].units() {
        return false;
    }
    if unit.len() != drives[number].unit_bytes() {
        return false;
    }
    drives[number].read_unit(address, unit).is_ok()
}

// Writes the unit at a place; false where there is none of this length.
fn write<D: Drive>(drives: &mut [D], place: Place, unit: &[u8]) -> bool
    ensures { KeepsDrives D.units D.lost D.failures (Only place) drives.old drives.new }
{
    let Place { drive, address } = place;
    let number = drive as usize;
    if number >= drives.len() {
        return false;
    }
    if address >= drives[number].units() {
        return false;
    }
    if unit.len() != drives[number].unit_bytes() {
        return false;
    }
    drives[number].write_unit(address, unit).is_ok()
}

// Computes a copy that is rotten: it is the other one.
fn copy<D: Drive>(
    drives: &mut [D],
    rotten: &Places,
    from: Place,
    to: Place,
    unit: &mut [u8],
) -> bool
    ensures { KeepsDrives D.units D.lost D.failures (Has rotten.now.marks.items) drives.old drives.new }
{
    if !rotten.has(to) {
        return true;
    }
    if !read(drives, from, unit) {
        return false;
    }
    write(drives, to, unit)
}

// Computes the copies of a mirrored group's slots that are rotten.
fn copy_group<D: Drive>(
    groups: &GroupTable,
    drives: &mut [D],
    rotten: &Places,
    group: u16,
    unit: &mut [u8],
) -> bool
    requires { class_in (group_at groups.now group) ≡ Some Mirrored }
    ensures { KeepsDrives D.units D.lost D.failures (Has rotten.now.marks.items) drives.old drives.new }
{
    for index in 0..groups.slots_of(group) {
        let copies = groups.copies(group, index);
        let first = groups.place(group, copies.first.member, copies.first.offset);
        let second = groups.place(group, copies.second.member, copies.second.offset);
        if !copy(drives, rotten, second, first, unit) {
            return false;
        }
        if !copy(drives, rotten, first, second, unit) {
            return false;
        }
    }
    true
}

// Adds the unit at a place to a sum; false where there is none of the sum's length. Takes a buffer for it.
fn add_unit<D: Drive>(drives: &mut [D], place: Place, sum: &mut [u8], part: &mut [u8]) -> bool
    ensures { KeepsDrives D.units D.lost D.failures NoPlace drives.old drives.new }
{
    if part.len() != sum.len() {
        return false;
    }
    if !read(drives, place, part) {
        return false;
    }
    xor_into(sum, part);
    true
}

// The exclusive or of the units at an offset of all members. Takes a buffer for each of them.
fn add_row<D: Drive>(
    groups: &GroupTable,
    drives: &mut [D],
    group: u16,
    offset: u16,
    sum: &mut [u8],
    part: &mut [u8],
) -> bool
    requires offset { offset < 2 * groups.now.segments }
    ensures { KeepsDrives D.units D.lost D.failures NoPlace drives.old drives.new }
{
    sum.fill(0);
    for member in 0..groups.members(group).len() as u8 {
        let place = groups.place(group, member, offset);
        if !add_unit(drives, place, sum, part) {
            return false;
        }
    }
    true
}

// Computes a unit of a row that is rotten: as it is zeros in memory, the exclusive or of the row is that of the others.
fn add_others<D: Drive>(
    groups: &GroupTable,
    drives: &mut [D],
    rotten: &Places,
    group: u16,
    member: u8,
    offset: u16,
    sum: &mut [u8],
    part: &mut [u8],
) -> bool
    requires member { member < length (members_of groups.now group) }
    requires offset { offset < 2 * groups.now.segments }
    ensures { KeepsDrives D.units D.lost D.failures (Has rotten.now.marks.items) drives.old drives.new }
{
    let place = groups.place(group, member, offset);
    if !rotten.has(place) {
        return true;
    }
    if !add_row(groups, drives, group, offset, sum, part) {
        return false;
    }
    write(drives, place, sum)
}

// Computes the units of a parity group that are rotten.
fn add_group<D: Drive>(
    groups: &GroupTable,
    drives: &mut [D],
    rotten: &Places,
    group: u16,
    sum: &mut [u8],
    part: &mut [u8],
) -> bool
    ensures { KeepsDrives D.units D.lost D.failures (Has rotten.now.marks.items) drives.old drives.new }
{
    let count = groups.shape().extent_units() as u16;
    for member in 0..groups.members(group).len() as u8 {
        for offset in 0..count {
            if !add_others(groups, drives, rotten, group, member, offset, sum, part) {
                return false;
            }
        }
    }
    true
}

// Computes the units of a group that are rotten.
fn compute_group<D: Drive>(
    groups: &GroupTable,
    drives: &mut [D],
    rotten: &Places,
    group: u16,
    sum: &mut [u8],
    part: &mut [u8],
) -> bool
    ensures { KeepsDrives D.units D.lost D.failures (Has rotten.now.marks.items) drives.old drives.new }
{
    match groups.class_of(group) {
        Some(Class::Mirrored) => copy_group(groups, drives, rotten, group, sum),
        Some(Class::Parity) => add_group(groups, drives, rotten, group, sum, part),
        None => true,
    }
}

/// Computes the units that are rotten, and zeros, from the others of their pairs and rows. All others stay as they are, and those of no
/// group. False where the sizes don't fit. Takes two buffers of a unit's length.
pub fn compute_rotten<D: Drive>(
    groups: &GroupTable,
    drives: &mut [D],
    rotten: &Places,
    sum: &mut [u8],
    part: &mut [u8],
) -> bool
    ensures { KeepsDrives D.units D.lost D.failures (Has rotten.now.marks.items) drives.old drives.new }
{
    for group in 0..GROUPS as u16 {
        if !compute_group(groups, drives, rotten, group, sum, part) {
            return false;
        }
    }
    true
}
