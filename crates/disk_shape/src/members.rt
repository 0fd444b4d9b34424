// Which extents a group has.
ghost use Rattle.std.specs.Prelude.{◌≡◌, ◌+◌, ◌*◌, ◌/◌, ◌%◌, ◌<◌, ◌≤◌};
ghost use Rattle.extent_groups.specs.declared.class.Class.TheVariants.{Mirrored, Parity};

use crate::Plan;
use extent_groups::{Class, Member};

/// The class of a group.
pub fn class_of(plan: &Plan, group: u16) -> Class
    ensures mirrored { group < plan.now.mirrored → result ≡ Mirrored }
    ensures parity { plan.now.mirrored ≤ group → result ≡ Parity }
{
    if group < plan.mirrored {
        Class::Mirrored
    } else {
        Class::Parity
    }
}

/// The extent that a group has as its member of an index: the extents of all drives are dealt out in turn. So no drive has two
/// members of a group, since a group has no more members than there are drives.
pub fn member_at(plan: &Plan, group: u16, index: u8) -> Member
    requires group { group < plan.now.groups }
    requires index { index < plan.now.members }
    ensures drive { result.drive ≡ (group * plan.now.members + index) % plan.now.drives }
    ensures extent { result.extent ≡ (group * plan.now.members + index) / plan.now.drives }
    ensures inside { result.extent < plan.now.shape.extents }
{
    let number = u32::from(group) * u32::from(plan.members) + u32::from(index);
    Member {
        drive: (number % u32::from(plan.drives)) as u8,
        extent: (number / u32::from(plan.drives)) as u16,
    }
}
