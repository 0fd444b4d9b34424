// A write of a member of a stripe: drafted by reads, then carried out.
ghost use Rattle.std.specs.Prelude.{◌≡◌, length};
ghost use Rattle.extent_groups.specs.Cells.{cells};
ghost use Rattle.extent_groups.specs.Calls.{AreSized, IsPlace, KeepsDrives};
ghost use Rattle.extent_groups.specs.Units.{Pair};
ghost use Rattle.extent_groups.specs.Stores.{IsOwn};
ghost use Rattle.parity_store.specs.declared.way.Way.{Way};
ghost use Rattle.parity_store.specs.Targets.{IsAccessible, site_to};
ghost use Rattle.parity_store.specs.Drafts.{IsWrittenByWay, Tried, Ends};

use crate::target::Target;
use crate::way::{Way, find_way};
use extent_groups::{GroupTable, Place, write_place};
use extents::Drive;

// Makes the writes of a way in their order; false where the first of them was refused, or there is none.
#[inline(always)]
fn write_way<D: Drive>(
    drives: &mut [D],
    home: Place,
    parity: Place,
    unit: &[u8],
    sum: &[u8],
    way: Way,
) -> bool
    requires home { IsPlace D.units drives.old home }
    requires parity { IsPlace D.units drives.old parity }
    requires size { AreSized D.units (length unit.now) drives.old }
    requires sum { length sum.now ≡ length unit.now }
    ensures carried { IsWrittenByWay (cells D.units D.lost drives.old) (cells D.units D.lost drives.new) home parity unit.now sum.now way result }
    ensures touched { KeepsDrives D.units D.lost D.failures (IsOwn (Pair home parity)) drives.old drives.new }
{
    match way {
        Way::Both => {
            // First the unit, because after its failure the parity is computed from the other members, not by difference.
            if !write_place(drives, home, unit) {
                return false;
            }
            // Where this one fails the parity's drive is lost, and the unit is there without it.
            let _kept = write_place(drives, parity, sum);
            true
        }
        Way::Alone => write_place(drives, home, unit),
        Way::Parity => write_place(drives, parity, sum),
        Way::Missed => false,
    }
}

// Writes a unit whose drive was lost in its first write. Kept out of line, since it runs only then.
#[inline(never)]
fn write_again<D: Drive>(
    groups: &GroupTable,
    drives: &mut [D],
    target: &Target,
    unit: &[u8],
    part: &mut [u8],
    sum: &mut [u8],
) -> bool
    requires target { IsAccessible D.units groups.now target.now (length unit.now) drives.old }
    requires part { length part.old ≡ length unit.now }
    requires sum { length sum.old ≡ length unit.now }
    ensures tried { (way : Way)
        × Tried groups.now (cells D.units D.lost drives.old) (cells D.units D.lost drives.new) target.now unit.now way result }
    ensures touched { KeepsDrives D.units D.lost D.failures (IsOwn (Pair target.now.home target.now.parity)) drives.old drives.new }
{
    let way = find_way(groups, drives, target, unit, part, sum);
    write_way(drives, target.home, target.parity, unit, sum, way)
}

/// Writes a unit of a stripe in the way that its draft finds; false, with nothing written, where there is none.
#[inline(always)]
pub(crate) fn write_stripe<D: Drive>(
    groups: &GroupTable,
    drives: &mut [D],
    target: &Target,
    unit: &[u8],
    part: &mut [u8],
    sum: &mut [u8],
) -> bool
    requires target { IsAccessible D.units groups.now target.now (length unit.now) drives.old }
    requires part { length part.old ≡ length unit.now }
    requires sum { length sum.old ≡ length unit.now }
    ensures ends { Ends groups.now (cells D.units D.lost drives.old) (cells D.units D.lost drives.new) target.now unit.now result }
    ensures touched { KeepsDrives D.units D.lost D.failures (IsOwn (site_to groups.now target.now)) drives.old drives.new }
{
    let way = find_way(groups, drives, target, unit, part, sum);
    let done = write_way(drives, target.home, target.parity, unit, sum, way);
    if done {
        return true;
    }
    // Any other way had one drive left to write to, so without it the slot is gone.
    if way != Way::Both {
        return false;
    }
    // The unit's drive was lost in its write, and nothing is written: it is drafted again, without that drive.
    write_again(groups, drives, target, unit, part, sum)
}
