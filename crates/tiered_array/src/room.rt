//! Writing while there is room at all: a block that has to leave the mirrored level goes into a hole where the log goes on nowhere.
ghost use Rattle.std.specs.Prelude.{◌≡◌, ℕ, ◌<◌, IfOk, IfSome, OnErr, List, Option, Some};
ghost use Rattle.extent_groups.specs.declared.class.Class.TheVariants.{Mirrored, Parity};
ghost use Rattle.slot_tables.specs.Views.{SameSizes};
ghost use Rattle.flat_machine.specs.declared.refusal.Refusal.TheVariants.{Gone};
ghost use Rattle.flat_machine.specs.Flat.{IsUnheld};
ghost use Rattle.migrator.specs.Ages.{IsOldest};
ghost use Rattle.migrator.specs.First.{IsFirst, IsFirstAppend};
ghost use Rattle.migrator.specs.Slots.{IsMirrored};
ghost use Rattle.tiered_array.specs.Inside.{IsFreeOf};
ghost use Rattle.tiered_array.specs.Placing.{Fresh, IsGivenFor, content_of};
ghost use Rattle.tiered_array.specs.Matches.{RepresentsTiers};
ghost use Rattle.tiered_array.specs.Steps.{IsFreeMirror, PutStops};
ghost use Rattle.tiered_array.specs.Room.{RoomCase, RoomStops, SpareCase, SpareStops, AlwaysCase, AlwaysStops, WritesAgain};
ghost use Rattle.tiered_array.specs.Room.{HasNoneGone, IsDue, IsNextOpen, IsFirstOf, IsHole, IsOpenHole, IsOpenMirror, HasSpareSlots, IsFull, IsStuck, LosesNoSlot};
ghost use Rattle.tiered_array.specs.Tiered.{Tiered};
ghost use Rattle.tiered_array.specs.declared.outcome.Outcome.TheVariants.{NoRoom, Refused};

use crate::asks::{Holes, Open};
use crate::{Outcome, Tiers};
use extents::Drive;
use migrator::{first_mirror, first_parity};
use std::alloc::{AllocError, Global};
use step_core::Given;

impl<D: Drive> Tiers<D> {
    /// Copies the block that was written longest ago, of those in mirrored groups that can be read, to the first free slot where
    /// the write log goes on that can be written; where there is none, into the lowest free slot of all parity groups that can be
    /// written, and the log's end stays. Where no block can be read, the oldest is tried, and where no slot can be written, the
    /// lowest free one. `Nothing` where no block is in a mirrored group, `NoRoom` where no slot of a parity group is free.
    pub fn make_room(&mut self, alloc: Global) -> Result<Outcome, AllocError>
        ensures ok { (w : ℕ) → IfOk result (λ outcome. (T : Tiered) → RepresentsTiers self.old T
            → (U : Tiered) × RoomCase T w outcome U × RepresentsTiers self.new U) }
        ensures err { (w : ℕ) → OnErr result ((T : Tiered) → RepresentsTiers self.old T → (U : Tiered) × RoomStops T w U × RepresentsTiers self.new U) }
        ensures room { SameSizes self.old.world.array self.new.world.array }
    {
        let array = self.world.array();
        // Before the slot: without a block the answer is `Nothing`, also where there is no room.
        let Some(block) = self.planner.due(array) else {
            return Ok(Outcome::Nothing)
        };
        let open = Open { world: &self.world };
        if let Some(slot) = self.planner.next_append(array, &open) {
            return self.append(alloc, block, slot);
        }
        let Some(slot) = self.any_hole() else {
            return Ok(Outcome::NoRoom)
        };
        // By `put`, not `append`: the log goes on nowhere, so its end stays.
        self.put(alloc, slot, block, None)
    }

    /// Keeps one mirrored slot free that can be written: where none is, makes room. `Nothing` where one is. For a caller that has
    /// nothing else to do: the write after it then needs no demotion.
    pub fn make_spare(&mut self, alloc: Global) -> Result<Outcome, AllocError>
        ensures ok { (w : ℕ) → IfOk result (λ outcome. (T : Tiered) → RepresentsTiers self.old T
            → (U : Tiered) × SpareCase T w outcome U × RepresentsTiers self.new U) }
        ensures err { (w : ℕ) → OnErr result ((T : Tiered) → RepresentsTiers self.old T → (U : Tiered) × SpareStops T w U × RepresentsTiers self.new U) }
        ensures room { SameSizes self.old.world.array self.new.world.array }
    {
        match self.open_mirror() {
            Some(_) => Ok(Outcome::Nothing),
            None => self.make_room(alloc),
        }
    }

    /// Writes what is given, a payload or a trim, as the block's next version into the lowest free slot of mirrored groups that
    /// can be written, and notes the write. Where there is none, one block makes room first; where that is refused, this is the
    /// outcome. `NoRoom` only where no mirrored slot is free, and either no block is in a mirrored group or no parity slot is
    /// free: never while more slots are made than the array has blocks, one of them mirrored, and only blocks hold them. Refused
    /// with `Gone` only where no block or no slot is left that can be read or written, or where a slot was lost in this call.
    pub fn write_always(
        &mut self,
        alloc: Global,
        block: u32,
        given: Given,
    ) -> Result<Outcome, AllocError>
        requires block { block < self.old.world.array.parts.groups.blocks }
        requires given { IsGivenFor self.old.world.array.parts.groups.payload given }
        ensures ok { (w : ℕ) → IfOk result (λ outcome. (T : Tiered) → RepresentsTiers self.old T
            → (U : Tiered) × AlwaysCase T w block (content_of given.entry) outcome U × RepresentsTiers self.new U) }
        ensures err { (w : ℕ) → OnErr result ((T : Tiered) → RepresentsTiers self.old T
            → (U : Tiered) × AlwaysStops T w block (content_of given.entry) U × RepresentsTiers self.new U) }
        ensures full { IfOk result (λ outcome. (T : Tiered) → RepresentsTiers self.old T → outcome ≡ NoRoom → IsFull T) }
        ensures finds { IfOk result (λ outcome. (T : Tiered) (slots : List ℕ) → RepresentsTiers self.old T → HasSpareSlots T slots → outcome ≡ NoRoom → ⊥) }
        ensures gone { IfOk result (λ outcome. (T : Tiered) (slot : ℕ) → RepresentsTiers self.old T → outcome ≡ Refused (Gone slot)
            → LosesNoSlot self.old.world self.new.world → IsStuck T) }
        ensures room { SameSizes self.old.world.array self.new.world.array }
    {
        if let Some(slot) = self.open_mirror() {
            return self.put(alloc, slot, block, Some(given));
        }
        match self.make_room(alloc) {
            Ok(Outcome::Refused(refusal)) => Ok(Outcome::Refused(refusal)),
            Ok(_) => self.write_again(alloc, block, given),
            Err(_) => Err(AllocError),
        }
    }

    // Looks for a slot once more: the lowest that can be written, else the lowest free one.
    fn write_again(
        &mut self,
        alloc: Global,
        block: u32,
        given: Given,
    ) -> Result<Outcome, AllocError>
        requires block { block < self.old.world.array.parts.groups.blocks }
        requires given { IsGivenFor self.old.world.array.parts.groups.payload given }
        ensures ok { (w : ℕ) → IfOk result (λ outcome. (T : Tiered) → RepresentsTiers self.old T
            → (U : Tiered) × WritesAgain T w block (content_of given.entry) outcome U × RepresentsTiers self.new U) }
        ensures err { (w : ℕ) → OnErr result ((T : Tiered) → RepresentsTiers self.old T
            → (slot : ℕ) × IsFirstOf (IsFreeMirror T.flat) (IsOpenMirror T) (Some slot)
            × ((U : Tiered) × PutStops T w (Fresh (content_of given.entry)) block slot U × RepresentsTiers self.new U)) }
        ensures room { SameSizes self.old.world.array self.new.world.array }
    {
        match self.any_mirror() {
            Some(slot) => self.put(alloc, slot, block, Some(given)),
            None => Ok(Outcome::NoRoom),
        }
    }

    // The lowest free slot of mirrored groups that can be written; where none can, the lowest free one. The latter is tried so
    // that the refusal names a slot.
    fn any_mirror(&mut self) -> Option<u16>
        ensures first { (T : Tiered) → RepresentsTiers self.old T → IsFirstOf (IsFreeMirror T.flat) (IsOpenMirror T) result × RepresentsTiers self.new T }
        ensures found { IfSome result (IsFreeOf Mirrored self.new.world) }
        ensures same { self.new.world ≡ self.old.world }
    {
        match self.open_mirror() {
            Some(slot) => Some(slot),
            None => self.free_mirror(),
        }
    }

    // The lowest free slot of mirrored groups that can be written. Where the lowest free one is gone, all are looked at. The
    // hints are asked first, because with no drive lost the lowest free slot is the answer.
    fn open_mirror(&mut self) -> Option<u16>
        ensures first { (T : Tiered) → RepresentsTiers self.old T → IsFirst (IsOpenMirror T) result × RepresentsTiers self.new T }
        ensures found { IfSome result (IsFreeOf Mirrored self.new.world) }
        ensures same { self.new.world ≡ self.old.world }
    {
        let Some(lowest) = self.free_mirror() else {
            return None
        };
        if !self.world.array().is_gone(lowest) {
            return Some(lowest);
        }
        first_mirror(self.world.array().groups(), &Open { world: &self.world })
    }

    // The lowest free slot of parity groups that can be written; where none can, the lowest free one. The latter is tried so
    // that the refusal names a slot.
    fn any_hole(&mut self) -> Option<u16>
        ensures first { (T : Tiered) → RepresentsTiers self.old T → IsFirstOf (IsHole T) (IsOpenHole T) result × RepresentsTiers self.new T }
        ensures found { IfSome result (IsFreeOf Parity self.new.world) }
        ensures same { self.new.world ≡ self.old.world }
    {
        match self.open_hole() {
            Some(slot) => Some(slot),
            None => self.free_hole(),
        }
    }

    // The lowest free slot of parity groups that can be written. Where the lowest free one is gone, all are looked at. The
    // hints are asked first, because with no drive lost the lowest free slot is the answer.
    fn open_hole(&mut self) -> Option<u16>
        ensures first { (T : Tiered) → RepresentsTiers self.old T → IsFirst (IsOpenHole T) result × RepresentsTiers self.new T }
        ensures found { IfSome result (IsFreeOf Parity self.new.world) }
        ensures same { self.new.world ≡ self.old.world }
    {
        let Some(lowest) = self.free_hole() else {
            return None
        };
        if !self.world.array().is_gone(lowest) {
            return Some(lowest);
        }
        first_parity(self.world.array().groups(), &Open { world: &self.world })
    }

    // The lowest free slot of parity groups.
    fn free_hole(&mut self) -> Option<u16>
        ensures first { (T : Tiered) → RepresentsTiers self.old T → IsFirst (IsHole T) result × RepresentsTiers self.new T }
        ensures found { IfSome result (IsFreeOf Parity self.new.world) }
        ensures same { self.new.world ≡ self.old.world }
    {
        let holes = Holes { world: &self.world };
        self.holes.first(&holes)
    }
}

/// Where no slot is gone, none is skipped: the block that makes room is the oldest in mirrored groups, it goes to the first free
/// slot where the log goes on, or into the lowest hole, and a write goes into the lowest free slot of mirrored groups.
pub fn skip_law()
    ensures due { (T : Tiered) (keys : ℕ → ℕ) (block : Option ℕ) → HasNoneGone T → IsDue T keys block → IsOldest T.order (IsMirrored T.flat.groups keys) block }
    ensures next { (T : Tiered) (keys : ℕ → ℕ) (slot : Option ℕ) → HasNoneGone T → IsNextOpen T keys slot
        → IsFirstAppend T.end T.flat.groups keys (IsUnheld T.flat) slot }
    ensures hole { (T : Tiered) (slot : Option ℕ) → HasNoneGone T → IsFirstOf (IsHole T) (IsOpenHole T) slot → IsFirst (IsHole T) slot }
    ensures mirror { (T : Tiered) (slot : Option ℕ) → HasNoneGone T → IsFirst (IsOpenMirror T) slot → IsFirst (IsFreeMirror T.flat) slot }
{
    // The law is the contract: there is nothing to do.
}
