// What the plans ask of an array, answered by its tables, and which slots are free.
ghost use Rattle.std.specs.Prelude.{true};
ghost use Rattle.std.specs.Prelude.{◌↔◌, ◌<◌, ◌≤◌, IsTrue};
ghost use Rattle.slot_tables.specs.Views.{key_at};
ghost use Rattle.extent_groups.specs.declared.class.Class.TheVariants.{Mirrored, Parity};
ghost use Rattle.extent_groups.specs.Stores.{IsSlotOf};
ghost use Rattle.map_join.specs.Live.{IsLive, IsLiveCount};
ghost use Rattle.tiered_array.specs.Inside.{IsFreeHere, IsThereHere};
ghost use Rattle.unit_store.specs.Views.{IsLost};

use extent_groups::{Class, GroupTable, SLOTS};
use map_join::Live;
use migrator::{Free, PicksBlocks};
use step_core::{Array, Drive, Hold, World, is_mirror};

// The tables of an array.
#[derive(Drop)]
pub(crate) struct Running<'a, D: Drive, C: Hold> {
    pub(crate) array: &'a Array<D, C>,
}

impl<'a, D: Drive, C: Hold> Live for Running<'a, D, C> {
    ghost keys = { λ r. key_at r.array.now };

    fn block_at(&self, slot: u16) -> Option<u32> {
        self.array.block_at(slot)
    }

    fn count_live(&self, group: u16, slots: u16) -> u16 {
        count_live(self.array, group, slots)
    }
}

// How many of a group's first `slots` slots are newest places of an array's blocks. A table has the count of all of a group's
// slots, so that needs no search. Fewer slots are read one after another.
fn count_live<D: Drive, C: Hold>(array: &Array<D, C>, group: u16, slots: u16) -> u16
    requires group { group < 512 }
    requires slots { slots ≤ 128 }
    ensures { IsLiveCount (key_at array.now) group slots result }
{
    if slots >= array.groups().slots_of(group) {
        return array.live_count(group);
    }
    count_among(array, group, slots)
}

// How many of a group's first `slots` slots are newest places, by a lookup of each slot.
fn count_among<D: Drive, C: Hold>(array: &Array<D, C>, group: u16, slots: u16) -> u16
    requires group { group < 512 }
    requires slots { slots ≤ 128 }
    ensures { IsLiveCount (key_at array.now) group slots result }
{
    let mut count = 0;
    for index in 0..slots {
        if is_live(array, SLOTS * group + index) {
            count += 1;
        }
    }
    count
}

// Whether the slot is the newest place of a block.
fn is_live<D: Drive, C: Hold>(array: &Array<D, C>, slot: u16) -> bool
    ensures { IsTrue result ↔ IsLive (key_at array.now) slot }
{
    array.block_at(slot).is_some()
}

// The slots that nobody holds in a world.
#[derive(Drop)]
pub(crate) struct Unheld<'a, D: Drive> {
    pub(crate) world: &'a World<D>,
}

impl<'a, D: Drive> Free for Unheld<'a, D> {
    ghost free = { λ u slot. IsFreeHere u.world.now slot };

    fn is_free(&self, slot: u16) -> bool {
        self.world.is_free(slot)
    }
}

// The slots that nobody holds in a world and that aren't gone. A copy into one that is gone would be refused.
#[derive(Drop)]
pub(crate) struct Open<'a, D: Drive> {
    pub(crate) world: &'a World<D>,
}

impl<'a, D: Drive> Free for Open<'a, D> {
    ghost free = { λ o slot. IsFreeHere o.world.now slot × (IsLost o.world.now.array.parts slot → ⊥) };

    fn is_free(&self, slot: u16) -> bool {
        self.world.is_free(slot) && !self.world.array().is_gone(slot)
    }
}

// The blocks of an array whose newest place isn't gone. A copy of another would be refused.
#[derive(Drop)]
pub(crate) struct Readable<'a, D: Drive, C: Hold> {
    pub(crate) array: &'a Array<D, C>,
}

impl<'a, D: Drive, C: Hold> PicksBlocks for Readable<'a, D, C> {
    ghost picked = { λ r block. IsThereHere r.array.now block };

    fn is_picked(&self, block: u32) -> bool {
        // `newest` requires a block of the array, and `is_picked` is asked for any number.
        if block >= self.array.shape().blocks {
            return false;
        }
        match self.array.newest(block) {
            Some(record) => !self.array.is_gone(record.place),
            None => false,
        }
    }
}

// The free slots of mirrored groups.
#[derive(Drop)]
pub(crate) struct Mirrors<'a, D: Drive> {
    pub(crate) world: &'a World<D>,
}

impl<'a, D: Drive> Free for Mirrors<'a, D> {
    ghost free = { λ m slot. IsSlotOf Mirrored m.world.now.array.parts.groups slot × IsFreeHere m.world.now slot };

    fn is_free(&self, slot: u16) -> bool {
        is_mirror(self.world.array().groups(), slot) && self.world.is_free(slot)
    }
}

// The free slots of parity groups.
#[derive(Drop)]
pub(crate) struct Holes<'a, D: Drive> {
    pub(crate) world: &'a World<D>,
}

impl<'a, D: Drive> Free for Holes<'a, D> {
    ghost free = { λ h slot. IsSlotOf Parity h.world.now.array.parts.groups slot × IsFreeHere h.world.now slot };

    fn is_free(&self, slot: u16) -> bool {
        is_parity(self.world.array().groups(), slot) && self.world.is_free(slot)
    }
}

// Whether the slot is one of a parity group. `members` is called for its clause, which says that these are groups.
pub(crate) fn is_parity(groups: &GroupTable, slot: u16) -> bool
    ensures { IsTrue result ↔ IsSlotOf Parity groups.now slot }
{
    let _members = groups.members(slot / SLOTS);
    groups.class_of(slot / SLOTS) == Some(Class::Parity)
        && slot % SLOTS < groups.slots_of(slot / SLOTS)
}

/// Every slot, held or not.
pub struct Any;

impl Free for Any {
    ghost free = { λ any slot. Unit {0} };

    fn is_free(&self, _slot: u16) -> bool {
        true
    }
}
