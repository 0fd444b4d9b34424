// Where the next block may be appended.
ghost use Rattle.std.specs.Prelude.{◌≡◌, ◌↔◌, ◌/◌, ◌%◌, ◌<◌, IsTrue, IfOk, Some};
ghost use Rattle.map_join.specs.Lists.{Lists};
ghost use Rattle.migrator.specs.Slots.{IsDeadGroup, IsTailSlot, IsFresh, AreAppendSlots};
ghost use Rattle.migrator.specs.Picking.{IsFreeFrom, IsOtherIdle};

use crate::LogEnd;
use crate::slots::{Picks, count_of, picked_in, picked_slots};
use extent_groups::{Class, GroupTable, SLOTS};
use map_join::Live;
use std::alloc::{AllocError, Global};

// The slots of the write group from the next index on that aren't live.
#[derive(Drop)]
pub(crate) struct GoingOn<'a, L> {
    pub(crate) end: &'a LogEnd,
    pub(crate) live: &'a L,
}

impl<'a, L: Live> Picks for GoingOn<'a, L> {
    ghost group_is = { λ p group. p.end.now.group ≡ Some group };

    ghost slot_is = { λ p slot. IsFreeFrom p.end.now.next (L.keys p.live.now) slot };

    fn picks_group(&self, group: u16) -> bool {
        self.end.group() == Some(group)
    }

    fn picks_slot(&self, slot: u16) -> bool {
        slot % SLOTS >= self.end.next() && self.live.block_at(slot).is_none()
    }
}

// The slots of the other groups that have no live slot.
#[derive(Drop)]
pub(crate) struct Fresh<'a, L> {
    pub(crate) end: &'a LogEnd,
    pub(crate) groups: &'a GroupTable,
    pub(crate) live: &'a L,
}

impl<'a, L: Live> Picks for Fresh<'a, L> {
    ghost group_is = { λ p group. IsOtherIdle p.end.now p.groups.now (L.keys p.live.now) group };

    ghost slot_is = { λ p slot. Unit {0} };

    fn picks_group(&self, group: u16) -> bool {
        self.end.group() != Some(group) && is_idle(self.groups, self.live, group)
    }

    fn picks_slot(&self, slot: u16) -> bool {
        true
    }
}

// Whether no slot of a parity group is live; other groups have none to look at.
fn is_idle<L: Live>(groups: &GroupTable, live: &L, group: u16) -> bool
    requires { group < 512 }
    ensures { IsTrue result ↔ IsDeadGroup groups.now (L.keys live.now) group }
{
    let slots = count_of(groups, Class::Parity, group);
    slots == 0 || live.count_live(group, slots) == 0
}

/// The slots where the log goes on: those of the write group from the next index on that aren't live, then all of each
/// other parity group without live slots, both ascending.
pub fn append_slots<L: Live>(
    alloc: Global,
    end: &LogEnd,
    groups: &GroupTable,
    live: &L,
) -> Result<Vec<u16>, AllocError>
    ensures { IfOk result (λ slots. AreAppendSlots end.now groups.now (L.keys live.now) slots.items) }
{
    let mut slots = slots_following(alloc, end, groups, live)?;
    let mut fresh = fresh_slots(alloc, end, groups, live)?;
    slots.append(&mut fresh)?;
    Ok(slots)
}

// The slots where the log goes on in the write group.
fn slots_following<L: Live>(
    alloc: Global,
    end: &LogEnd,
    groups: &GroupTable,
    live: &L,
) -> Result<Vec<u16>, AllocError>
    ensures { IfOk result (λ slots. Lists (IsTailSlot end.now groups.now (L.keys live.now)) slots.items) }
{
    picked_in(
        alloc,
        groups,
        Class::Parity,
        end.group(),
        &GoingOn { end, live },
    )
}

// The slots of the groups where the log can start over.
fn fresh_slots<L: Live>(
    alloc: Global,
    end: &LogEnd,
    groups: &GroupTable,
    live: &L,
) -> Result<Vec<u16>, AllocError>
    ensures { IfOk result (λ slots. Lists (IsFresh end.now groups.now (L.keys live.now)) slots.items) }
{
    picked_slots(alloc, groups, Class::Parity, &Fresh { end, groups, live })
}
