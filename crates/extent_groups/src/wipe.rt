// A whole extent written with the same bytes, before a group takes it: zeros, so that its rows add up to zero and its headers
// are blank.
ghost use Rattle.std.specs.Prelude.{◌≡◌, ◌<◌, true, false, IsTrue, length};
ghost use Rattle.extents.specs.Sizes.{extent_units};
ghost use Rattle.extent_groups.specs.Cells.{cells};
ghost use Rattle.extent_groups.specs.Calls.{AreSized, SameBut, KeepsDrives};
ghost use Rattle.extent_groups.specs.Missing.{missing_of};
ghost use Rattle.extent_groups.specs.Units.{place_of};
ghost use Rattle.extent_groups.specs.Wiping.{HasExtent, IsInExtent, HoldBelow};

use crate::{Member, Place, write_place};
use extents::{Drive, Shape};

/// The place at an offset of an extent.
fn place_in(shape: &Shape, member: Member, offset: u16) -> Place
    requires { offset < extent_units shape.now.segments }
    ensures { result ≡ place_of shape.now.segments offset member }
{
    Place {
        drive: member.drive,
        address: shape.unit_address(member.extent, offset),
    }
}

/// Writes zeros over each unit of an extent; false, with the rest unwritten, where its drive is lost.
pub fn wipe_extent<D: Drive>(drives: &mut [D], shape: &Shape, member: Member, zeros: &[u8]) -> bool
    requires there { HasExtent D.units shape.now.segments drives.old member }
    requires size { AreSized D.units (length zeros.now) drives.old }
    ensures wiped { IsTrue result → HoldBelow shape.now.segments member zeros.now (extent_units shape.now.segments) (cells D.units D.lost drives.new) }
    ensures lost { result ≡ false → missing_of D.lost drives.new member.drive ≡ true }
    ensures others { SameBut (λ d. d ≡ member.drive) drives.old drives.new }
    ensures touched { KeepsDrives D.units D.lost D.failures (IsInExtent shape.now.segments member) drives.old drives.new }
{
    for offset in 0..shape.extent_units() as u16 {
        if !write_place(drives, place_in(shape, member, offset), zeros) {
            return false;
        }
    }
    true
}
