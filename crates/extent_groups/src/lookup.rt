// From a unit of a group back to its slot.
ghost use Rattle.std.specs.Prelude.{◌≡◌, ◌<◌, ◌≤◌, length};
ghost use Rattle.extents.specs.Sizes.{extent_units};
ghost use Rattle.extent_groups.specs.Groups.{group_at, members_of};
ghost use Rattle.extent_groups.specs.Roles.{mirrored_role, parity_role, IsRoleIn};

use crate::geometry::parity_at;
use crate::{Class, GroupTable, Role};

/// What lies at an offset of a member of a mirrored group of `slots` slots.
fn mirrored_role(members: u8, slots: u16, member: u8, offset: u16) -> Role
    requires few { members ≤ 8 }
    requires member { member < members }
    requires offset { offset < 16 }
    ensures { result ≡ mirrored_role members slots member offset }
{
    let position = offset / 2 * members as u16 + member as u16;
    let index = 2 * (position / 2) + offset % 2;
    // If the number of positions is odd, the last one has no partner, so it has no slot.
    if index < slots {
        Role::Slot(index)
    } else {
        Role::Unused
    }
}

/// What lies at an offset of a member of a parity group.
fn parity_role(members: u8, member: u8, offset: u16) -> Role
    requires few { members ≤ 8 }
    requires member { member < members }
    requires offset { offset < 16 }
    ensures { result ≡ parity_role members member offset }
{
    let row = offset / 2;
    let parity = parity_at(members, row as u8);
    if member == parity {
        return Role::ParityUnit;
    }
    let before = if member < parity { member } else { member - 1 };
    Role::Slot(2 * (row * (members as u16 - 1) + before as u16) + offset % 2)
}

impl GroupTable {
    /// What lies at an offset of a member of a group.
    pub fn role(&self, group: u16, member: u8, offset: u16) -> Role
        requires member { member < length (members_of self.now group) }
        requires offset { offset < extent_units self.now.segments }
        ensures { IsRoleIn (group_at self.now group) self.now.segments member offset result }
    {
        let slots = self.slots_of(group);
        let members = self.members(group).len() as u8;
        match self.class_of(group) {
            Some(Class::Mirrored) => mirrored_role(members, slots, member, offset),
            Some(Class::Parity) => parity_role(members, member, offset),
            None => Role::Unused,
        }
    }
}
