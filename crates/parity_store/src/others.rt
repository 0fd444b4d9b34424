// The exclusive or of the other members of a row.
ghost use Rattle.std.specs.Prelude.{◌≡◌, ◌<◌, length};
ghost use Rattle.std.specs.Bool.{MatchBool};
ghost use Rattle.extent_groups.specs.Groups.{members_of};
ghost use Rattle.extent_groups.specs.Cells.{cells, front_units};
ghost use Rattle.extent_groups.specs.Calls.{HaveRoom, NoPlace, SameBut, KeepsDrives};
ghost use Rattle.extent_groups.specs.Stores.{HasMemberOn};
ghost use Rattle.parity_store.specs.Ways.{row_at, IsReadableRow, Added, AddedOne, Missed};

use crate::xor_into;
use extent_groups::{GroupTable, read_front};
use extents::Drive;

/// All members of a group at an offset but two, or but one that is named twice.
#[derive(Clone, Copy)]
pub(crate) struct Others {
    pub(crate) group: u16,
    pub(crate) offset: u16,
    pub(crate) first: u8,
    pub(crate) second: u8,
}

/// Adds the first bytes of a member's unit to a sum, `sum.len()` of them, unless the member is one of the two that are left out.
/// Takes a buffer for them, and one of a unit's length or, for whole units, an empty one. False where the member is lost.
fn add_member<D: Drive>(
    groups: &GroupTable,
    drives: &mut [D],
    others: Others,
    number: u8,
    sum: &mut [u8],
    part: &mut [u8],
    scratch: &mut [u8],
) -> bool
    requires number { number < length (members_of groups.now others.group) }
    requires readable { IsReadableRow D.units groups.now others.group others.offset (length sum.old) drives.old }
    requires part { length part.old ≡ length sum.old }
    requires scratch { HaveRoom D.units (length sum.old) (length scratch.old) drives.old }
    ensures outcome { MatchBool result
        (AddedOne (length sum.old) (cells (front_units (length sum.old) D.units) D.lost drives.old)
        (cells (front_units (length sum.old) D.units) D.lost drives.new)
        (row_at groups.now others.group others.offset) others.first others.second number sum.old sum.new)
        (Missed (cells (front_units (length sum.old) D.units) D.lost drives.old) (cells (front_units (length sum.old) D.units) D.lost drives.new)
        (row_at groups.now others.group others.offset) others.first others.second) }
    ensures touched { KeepsDrives D.units D.lost D.failures NoPlace drives.old drives.new }
    ensures elsewhere { SameBut (HasMemberOn groups.now others.group) drives.old drives.new }
{
    if number == others.first {
        return true;
    }
    if number == others.second {
        return true;
    }
    let place = groups.place(others.group, number, others.offset);
    if !read_front(drives, place, part, scratch) {
        return false;
    }
    xor_into(sum, part);
    true
}

/// Adds the first bytes of the others' units to a sum, `sum.len()` of them, with a buffer for each and one of a unit's length
/// or, for whole units, an empty one; false where one of them is lost. Kept out of line, since it runs only where a drive is
/// lost.
#[inline(never)]
pub(crate) fn add_others<D: Drive>(
    groups: &GroupTable,
    drives: &mut [D],
    others: Others,
    sum: &mut [u8],
    part: &mut [u8],
    scratch: &mut [u8],
) -> bool
    requires readable { IsReadableRow D.units groups.now others.group others.offset (length sum.old) drives.old }
    requires part { length part.old ≡ length sum.old }
    requires scratch { HaveRoom D.units (length sum.old) (length scratch.old) drives.old }
    ensures outcome { MatchBool result
        (Added (length sum.old) (cells (front_units (length sum.old) D.units) D.lost drives.old)
        (cells (front_units (length sum.old) D.units) D.lost drives.new)
        (row_at groups.now others.group others.offset) others.first others.second sum.old sum.new)
        (Missed (cells (front_units (length sum.old) D.units) D.lost drives.old) (cells (front_units (length sum.old) D.units) D.lost drives.new)
        (row_at groups.now others.group others.offset) others.first others.second) }
    ensures touched { KeepsDrives D.units D.lost D.failures NoPlace drives.old drives.new }
    ensures elsewhere { SameBut (HasMemberOn groups.now others.group) drives.old drives.new }
{
    let members = groups.members(others.group).len() as u8;
    for number in 0..members {
        if !add_member(groups, drives, others, number, sum, part, scratch) {
            return false;
        }
    }
    true
}
