// A block goes into a slot that nobody holds.
ghost use Rattle.std.specs.Prelude.{◌≡◌, ◌↔◌, ℕ, ◌<◌, IsTrue, Option, true};
ghost use Rattle.extent_groups.specs.declared.class.Class.TheVariants.{Mirrored};
ghost use Rattle.extent_groups.specs.Stores.{IsSlotOf};
ghost use Rattle.map_join.specs.declared.records.Record.{Record};
ghost use Rattle.flat_machine.specs.Flat.{Flat};
ghost use Rattle.slot_tables.specs.Changes.{IsPlaceOf};
ghost use Rattle.slot_tables.specs.Represents.{Represents};
ghost use Rattle.slot_tables.specs.Views.{SameSizes, hand_at, has_no_holder, kept_at};
ghost use Rattle.step_core.specs.Placing as what;
ghost use Rattle.step_core.specs.Placing.{IsLevelFor, IsSizedFor, Places, PlacesFree, record_slot, put_of};

use crate::claimed::{What, fresh_fault, put_and_finish};
use crate::world::World;
use disk_array::Done;
use extent_groups::{Class, GroupTable, SLOTS};
use extents::Drive;
use flat_machine::Refusal;
use map_join::Record;
use slot_tables::Plain;
use std::alloc::Global;

/// What is given to be written: a payload, or a trim.
#[derive(Clone, Copy)]
pub enum Given<'a> {
    Payload(&'a [u8]),
    Trim,
}

/// A block that was put into a slot.
#[derive(Clone, Copy, Debug)]
pub struct Placed {
    /// The record that was emitted, the block's newest.
    pub newest: Record,
    /// The slot where the block was before, if it was anywhere. It is free now.
    pub left: Option<u16>,
}

/// Why a block wasn't put into a slot. No slot is held then that was free before.
#[derive(Clone, Copy, Debug)]
pub enum NotPlaced {
    /// Somebody holds the slot.
    Taken,
    /// The array refused to fill the slot, to copy into it, or to commit it. `Memory` where an allocation failed.
    Refused(Refusal),
}

impl<D: Drive> World<D> {
    /// Puts a block into a slot that nobody holds: what is given, else a copy of the block's last write. All steps are done in one
    /// call, so no worker has the slot in hand; they are those of any worker that claims the slot, fills it or copies into it,
    /// commits it, and releases the block's old place.
    pub fn place(
        &mut self,
        alloc: Global,
        slot: u16,
        block: u32,
        given: Option<Given>,
    ) -> Result<Placed, NotPlaced>
        requires block { block < self.old.array.parts.groups.blocks }
        requires given { IsSizedFor self.old.array.parts.groups.payload given }
        ensures flat { (F : Flat) (w : ℕ) → Represents self.old F
            → (G : Flat) × Places F w slot block (put_of given.entry) result G × Represents self.new G }
        ensures room { SameSizes self.old.array self.new.array }
    {
        // Tested first, because anyone can make a plain claim, also of a slot that is held.
        if !self.is_free(slot) {
            return Err(NotPlaced::Taken);
        }
        if let Some(refusal) = fresh_fault(&self.array, slot, what_of(block, given)) {
            return Err(NotPlaced::Refused(refusal));
        }
        match self.place_free(alloc, slot, block, given) {
            Ok(placed) => Ok(placed),
            Err(refusal) => Err(NotPlaced::Refused(refusal)),
        }
    }

    /// `place` for a caller that has found the slot free, as `is_free` says, and of a mirrored group if something is given
    /// (`is_mirror`): neither is asked again. Refused as the fill or the copy, or the commit, is.
    pub fn place_free(
        &mut self,
        alloc: Global,
        slot: u16,
        block: u32,
        given: Option<Given>,
    ) -> Result<Placed, Refusal>
        requires free { has_no_holder (kept_at self.old.array slot) (hand_at self.old.hands slot) ≡ true }
        requires level { IsLevelFor given self.old.array.parts.groups slot }
        requires block { block < self.old.array.parts.groups.blocks }
        requires given { IsSizedFor self.old.array.parts.groups.payload given }
        ensures flat { (F : Flat) (w : ℕ) → Represents self.old F
            → (G : Flat) × PlacesFree F w slot block (put_of given.entry) result G × Represents self.new G }
        ensures room { SameSizes self.old.array self.new.array }
    {
        let done = match put_and_finish(
            &mut self.array,
            alloc,
            Plain { slot },
            what_of(block, given),
            block,
        ) {
            Ok(done) => done,
            Err(denied) => return Err(denied.refusal),
        };
        Ok(placed_by(done))
    }
}

/// Whether the slot is one of a mirrored group, where payloads and trims go.
pub fn is_mirror(groups: &GroupTable, slot: u16) -> bool
    ensures { IsTrue result ↔ IsSlotOf Mirrored groups.now slot }
{
    // Called for its clause, which says that these are groups.
    let _members = groups.members(slot / SLOTS);
    groups.class_of(slot / SLOTS) == Some(Class::Mirrored)
        && slot % SLOTS < groups.slots_of(slot / SLOTS)
}

// What is given, else a copy of the block's last write.
fn what_of<'a>(block: u32, given: Option<Given<'a>>) -> What<'a>
    ensures { result ≡ what.what_of given.entry block }
{
    match given {
        Some(given) => What::Fresh(given),
        None => What::CopyOf(block),
    }
}

// What a commit did; the claim of the old place ends.
fn placed_by(done: Done<Plain>) -> Placed
    ensures newest { result.newest ≡ done.emitted }
    ensures left { (old : Option Record) → IsPlaceOf Plain.slot done.old old → result.left ≡ record_slot old }
{
    let newest = done.emitted.record();
    let left = match done.old {
        Some(claim) => Some(claim.slot),
        None => None,
    };
    Placed { newest, left }
}
