// What a write of a slot is to reach.
ghost use Rattle.std.specs.Prelude.{◌≡◌, ◌<◌, ◌≤◌, ◌/◌, Some, length};
ghost use Rattle.extents.specs.Sizes.{extent_units};
ghost use Rattle.extent_groups.specs.declared.class.Class.TheVariants.{Parity};
ghost use Rattle.extent_groups.specs.Groups.{AreGroups, members_of};
ghost use Rattle.extent_groups.specs.Stores.{IsSlotOf};
ghost use Rattle.extent_groups.specs.Units.{site_of};
ghost use Rattle.parity_store.specs.Targets.{IsHome, row_to, site_to};

use extent_groups::{GroupTable, Place, SLOTS, Stripe};

/// A unit of a parity group's stripe, with its place and that of its parity.
#[derive(Clone, Copy)]
pub(crate) struct Target {
    pub(crate) group: u16,
    pub(crate) at: Stripe,
    pub(crate) home: Place,
    pub(crate) parity: Place,
}

impl Target {
    /// The unit of a slot.
    #[inline(always)]
    pub(crate) fn of_slot(groups: &GroupTable, slot: u16) -> Target
        requires slot { IsSlotOf Parity groups.now slot }
        ensures site { site_of groups.now slot ≡ Some (site_to groups.now result) }
        ensures home { IsHome (row_to groups.now result) result.at.parity result.at.member result.home result.parity }
        ensures inside { (result.at.offset < extent_units groups.now.segments) × (length (members_of groups.now result.group) ≤ 8) }
        ensures group { result.group ≡ slot / 128 }
        ensures groups { AreGroups groups.now }
    {
        let group = slot / SLOTS;
        let at = groups.row_of(slot);
        Target {
            group,
            at,
            home: groups.place(group, at.member, at.offset),
            parity: groups.place(group, at.parity, at.offset),
        }
    }
}
