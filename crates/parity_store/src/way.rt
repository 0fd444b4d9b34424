// What a write of a member of a stripe needs to know, read before the first write.
ghost use Rattle.std.specs.Prelude.{◌≡◌, None, length};
ghost use Rattle.extent_groups.specs.Cells.{cells, held};
ghost use Rattle.extent_groups.specs.Calls.{NoPlace, SameBut, KeepsDrives};
ghost use Rattle.extent_groups.specs.Stores.{HasMemberOn};
ghost use Rattle.parity_store.specs.Targets.{IsAccessible};
ghost use Rattle.parity_store.specs.Drafts.{IsDraftOf};

use crate::exclusive_or::xor_both_into;
use crate::others::{Others, add_others};
use crate::target::Target;
use extent_groups::{GroupTable, Place, is_there, read_place};
use extents::Drive;

/// The ways in which a unit of a stripe can be written.
#[derive(Clone, Copy, Debug, PartialEq, Eq)]
pub enum Way {
    /// The unit, and the parity by difference.
    Both,
    /// The unit alone, the parity's drive being lost.
    Alone,
    /// The parity alone, the unit's drive being lost.
    Parity,
    /// No way was found.
    Missed,
}

// Finds the way of a unit whose drive was found lost: the parity is computed from all other members. Kept out of line, since it
// runs only where a drive is lost.
#[inline(never)]
fn find_without<D: Drive>(
    groups: &GroupTable,
    drives: &mut [D],
    target: &Target,
    unit: &[u8],
    part: &mut [u8],
    sum: &mut [u8],
) -> Way
    requires target { IsAccessible D.units groups.now target.now (length unit.now) drives.old }
    requires lost { held (cells D.units D.lost drives.old) target.now.home ≡ None }
    requires part { length part.old ≡ length unit.now }
    requires sum { length sum.old ≡ length unit.now }
    ensures draft { IsDraftOf groups.now (cells D.units D.lost drives.new) target.now unit.now sum.new result }
    ensures touched { KeepsDrives D.units D.lost D.failures NoPlace drives.old drives.new }
    ensures elsewhere { SameBut (HasMemberOn groups.now target.now.group) drives.old drives.new }
{
    let others = Others {
        group: target.group,
        offset: target.at.offset,
        first: target.at.member,
        second: target.at.parity,
    };
    // The new unit and all units that stay add up to the new parity, so the old one isn't read.
    sum.copy_from_slice(unit);
    if !add_others(groups, drives, others, sum, part, &mut []) {
        return Way::Missed;
    }
    // No read has asked the parity's drive, so whether it is lost is tested here.
    if is_there(drives, target.parity) {
        Way::Parity
    } else {
        Way::Missed
    }
}

/// Finds out, by reads alone, in which way a unit of a stripe can be written, and what the parity will be then, with a buffer
/// for each unit that is read. Inlined, as the two reads of the main way are short.
#[inline(always)]
pub(crate) fn find_way<D: Drive>(
    groups: &GroupTable,
    drives: &mut [D],
    target: &Target,
    unit: &[u8],
    part: &mut [u8],
    sum: &mut [u8],
) -> Way
    requires target { IsAccessible D.units groups.now target.now (length unit.now) drives.old }
    requires part { length part.old ≡ length unit.now }
    requires sum { length sum.old ≡ length unit.now }
    ensures draft { IsDraftOf groups.now (cells D.units D.lost drives.new) target.now unit.now sum.new result }
    ensures touched { KeepsDrives D.units D.lost D.failures NoPlace drives.old drives.new }
    ensures elsewhere { SameBut (HasMemberOn groups.now target.now.group) drives.old drives.new }
{
    if !read_place(drives, target.home, part) {
        return find_without(groups, drives, target, unit, part, sum);
    }
    if !read_place(drives, target.parity, sum) {
        // No other member is asked, because with its own unit the slot isn't gone.
        return Way::Alone;
    }
    xor_both_into(sum, part, unit);
    Way::Both
}
