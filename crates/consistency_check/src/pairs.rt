// The two copies of a mirrored slot.
ghost use Rattle.std.specs.Prelude.{◌≡◌, ◌↔◌, IsTrue, length};
ghost use Rattle.extent_groups.specs.Cells.{cells};
ghost use Rattle.extent_groups.specs.Calls.{AreSized, IsPlace, NoPlace, KeepsDrives};
ghost use Rattle.extent_groups.specs.Units.{Pair, IsSoundAt};

use extent_groups::{Place, read_place};
use extents::Drive;

// Whether the units at two places are equal, or the drive of one of them is lost. Takes a buffer for each.
pub(crate) fn is_pair_sound<D: Drive>(
    drives: &mut [D],
    first: Place,
    second: Place,
    unit: &mut [u8],
    other: &mut [u8],
) -> bool
    requires first { IsPlace D.units drives.old first }
    requires second { IsPlace D.units drives.old second }
    requires size { AreSized D.units (length unit.old) drives.old }
    requires other { length other.old ≡ length unit.old }
    ensures sound { IsTrue result ↔ IsSoundAt (length unit.old) (cells D.units D.lost drives.new) (Pair first second) }
    ensures touched { KeepsDrives D.units D.lost D.failures NoPlace drives.old drives.new }
{
    // A copy whose drive is lost can't differ from the other, so the pair is sound.
    if !read_place(drives, first, unit) {
        return true;
    }
    if !read_place(drives, second, other) {
        return true;
    }
    *unit == *other
}
