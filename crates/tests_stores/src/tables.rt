// Tables of groups and owners, and changes of them that assert the conditions of each call first.
ghost use Rattle.std.specs.Prelude.{IfOk};
ghost use Rattle.extents.specs.Shapes.{IsShapeOf};
ghost use Rattle.extent_groups.specs.Groups.{Agree};

use crate::asserts::check;
use extent_groups::{Class, GroupRefusal, GroupTable, Member, are_there};
use extents::{ExtentTable, Shape};
use std::alloc::{AllocError, Global};
use std::process::Abort;

/// Groups and the owners of extents.
#[derive(Drop)]
pub(crate) struct Tables {
    pub(crate) groups: GroupTable,
    pub(crate) extents: ExtentTable,
}

pub(crate) fn on(drive: u8, extent: u16) -> Member {
    Member { drive, extent }
}

/// The shape of `extents` extents of `segments` segments, with payloads of 8 bytes and 16 blocks.
pub(crate) fn shape_of(rt: &impl Abort, extents: u32, segments: u32) -> Shape
    ensures { IsShapeOf result extents segments 8 16 }
{
    let Ok(shape) = Shape::new(extents, segments, 8, 16) else {
        rt.panic("no shape");
    };
    shape
}

impl Tables {
    /// `drives` drives without groups.
    pub(crate) fn new(
        rt: &impl Abort,
        alloc: Global,
        drives: u8,
        segments: u32,
    ) -> Result<Tables, AllocError>
        ensures { IfOk result (λ t. Agree t.groups t.extents) }
    {
        Tables::of(alloc, drives, &shape_of(rt, 8, segments))
    }

    /// `drives` drives of a shape, without groups.
    pub(crate) fn of(alloc: Global, drives: u8, shape: &Shape) -> Result<Tables, AllocError>
        ensures { IfOk result (λ t. Agree t.groups t.extents) }
    {
        let groups = GroupTable::new(alloc, shape)?;
        let extents = ExtentTable::new(alloc, drives, shape)?;
        Ok(Tables { groups, extents })
    }

    /// Makes a group of members, after asserting that there are such extents.
    pub(crate) fn put(
        &mut self,
        rt: &impl Abort,
        alloc: Global,
        group: u16,
        class: Class,
        members: &[Member],
    ) -> Result<(), GroupRefusal>
        requires { Agree self.old.groups self.old.extents }
        ensures { Agree self.new.groups self.new.extents }
    {
        check!(rt; are_there(&self.extents, members));
        check!(rt; self.groups.is_free(group));
        self.groups
            .put_group(alloc, &mut self.extents, group, class, members)
    }

    /// Dissolves a group.
    pub(crate) fn take(&mut self, group: u16) -> Result<(), GroupRefusal>
        requires { Agree self.old.groups self.old.extents }
        ensures { Agree self.new.groups self.new.extents }
    {
        self.groups.take_group(&mut self.extents, group)
    }

    /// Swaps a member of a group for an extent, after asserting that there is such an extent.
    pub(crate) fn swap(
        &mut self,
        rt: &impl Abort,
        group: u16,
        member: u8,
        to: Member,
    ) -> Result<(), GroupRefusal>
        requires { Agree self.old.groups self.old.extents }
        ensures { Agree self.new.groups self.new.extents }
    {
        check!(rt; self.extents.has_extent(to.drive, to.extent));
        check!(rt; (member as usize) < self.groups.members(group).len());
        self.groups
            .swap_member(&mut self.extents, group, member, to)
    }

    /// Adds a drive.
    pub(crate) fn add_drive(&mut self, alloc: Global) -> Result<(), AllocError>
        requires { Agree self.old.groups self.old.extents }
        ensures { Agree self.new.groups self.new.extents }
    {
        self.extents.add_drive(alloc)?;
        Ok(())
    }

    /// Whether there is such an extent, and it is the group's, or free for none.
    pub(crate) fn is_owned_by(&self, member: Member, group: Option<u16>) -> bool {
        self.extents.has_extent(member.drive, member.extent)
            && self.extents.owner(member.drive, member.extent) == group
    }
}
