// The parity unit of an offset, for a caller that moves a member onto another extent.
ghost use Rattle.std.specs.Prelude.{◌≡◌, ◌*◌, ◌<◌, length, Some};
ghost use Rattle.extents.specs.Sizes.{extent_units};
ghost use Rattle.extent_groups.specs.declared.class.Class.TheVariants.{Parity};
ghost use Rattle.extent_groups.specs.Groups.{class_in, group_at};
ghost use Rattle.extent_groups.specs.Cells.{cells};
ghost use Rattle.extent_groups.specs.Calls.{if_ok, NoPlace, SameBut, KeepsDrives};
ghost use Rattle.extent_groups.specs.Stores.{unit_bytes, AreSound, AreDrives, KeepsUnits, HasMemberOn};
ghost use Rattle.parity_store.specs.Ways.{parity_unit};

use crate::stripe::read_stripe;
use extent_groups::{GroupTable, Stripe};
use extents::Drive;

/// Reads the parity unit at an offset of a group, or adds up all other members' where its drive is lost, with two buffers of a
/// unit's length; false where another member is lost too.
pub fn read_parity<D: Drive>(
    groups: &GroupTable,
    drives: &mut [D],
    group: u16,
    offset: u16,
    unit: &mut [u8],
    scratch: &mut [u8],
) -> bool
    requires group { class_in (group_at groups.now group) ≡ Some Parity }
    requires offset { offset < extent_units groups.now.segments }
    requires drives { AreDrives D.units groups.now drives.old }
    requires unit { length unit.old ≡ unit_bytes groups.now }
    requires scratch { length scratch.old ≡ 2 * unit_bytes groups.now }
    ensures reported { parity_unit groups.now (cells D.units D.lost drives.new) group offset ≡ if_ok result unit.new }
    ensures units { AreSound groups.now (cells D.units D.lost drives.old)
        → KeepsUnits groups.now (cells D.units D.lost drives.old) (cells D.units D.lost drives.new) }
    ensures sound { AreSound groups.now (cells D.units D.lost drives.old) → AreSound groups.now (cells D.units D.lost drives.new) }
    ensures touched { KeepsDrives D.units D.lost D.failures NoPlace drives.old drives.new }
    ensures elsewhere { SameBut (HasMemberOn groups.now group) drives.old drives.new }
    ensures drives { AreDrives D.units groups.now drives.new }
{
    let parity = groups.parity_member(group, offset);
    // The parity is read as a unit of its own member, because it too is the sum of all others in its row.
    let at = Stripe {
        stripe: (offset / 2) as u8,
        member: parity,
        offset,
        parity,
    };
    let size = unit.len();
    read_stripe(
        groups,
        groups.members(group),
        drives,
        group,
        &at,
        unit,
        &mut scratch[..size],
        &mut [],
    )
}
