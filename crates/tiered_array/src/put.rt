// Putting a block into a slot, and updating what is kept next to the world.
ghost use Rattle.std.specs.Prelude.{◌<◌, IfOk, OnErr, ℕ};
ghost use Rattle.slot_tables.specs.Views.{SameSizes};
ghost use Rattle.tiered_array.specs.Marking.{PutsAt};
ghost use Rattle.tiered_array.specs.Inside.{IsFreeHere};
ghost use Rattle.tiered_array.specs.Placing.{Again, IsLevelFor, IsSizedFor, put_of};
ghost use Rattle.tiered_array.specs.Matches.{RepresentsTiers};
ghost use Rattle.tiered_array.specs.Steps.{PutStops};
ghost use Rattle.tiered_array.specs.Tiered.{Tiered};

use crate::hints::hint_left;
use crate::{Outcome, Tiers};
use std::alloc::{AllocError, Global};
use step_core::{Drive, Given, unless_memory};

impl<D: Drive> Tiers<D> {
    // Puts the block into a slot that nobody holds: what is given, else a copy of the block's last write. Its commit is noted, and its
    // old place hinted. Who chose the slot has asked whether it is free, and nobody asks again.
    pub(crate) fn put(
        &mut self,
        alloc: Global,
        slot: u16,
        block: u32,
        given: Option<Given>,
    ) -> Result<Outcome, AllocError>
        requires free { IsFreeHere self.old.world slot }
        requires level { IsLevelFor given self.old.world.array.parts.groups slot }
        requires block { block < self.old.world.array.parts.groups.blocks }
        requires given { IsSizedFor self.old.world.array.parts.groups.payload given }
        ensures ok { (w : ℕ) → IfOk result (λ outcome. (T : Tiered) → RepresentsTiers self.old T
            → (U : Tiered) × PutsAt T w block (put_of given.entry) slot outcome U × RepresentsTiers self.new U) }
        ensures err { (w : ℕ) → OnErr result ((T : Tiered) → RepresentsTiers self.old T
            → (U : Tiered) × PutStops T w (put_of given.entry) block slot U × RepresentsTiers self.new U) }
        ensures room { SameSizes self.old.world.array self.new.world.array }
    {
        match self.world.place_free(alloc, slot, block, given) {
            Ok(placed) => {
                // In both tables, because nobody asks for the class of the place that was left.
                hint_left(&mut self.hints, placed.left);
                hint_left(&mut self.holes, placed.left);
                self.planner.note(self.world.array(), placed.newest);
                Ok(Outcome::Placed(placed.newest))
            }
            Err(refusal) => Ok(Outcome::Refused(unless_memory(refusal)?)),
        }
    }

    // Copies the block into the slot that a plan chose. `NoRoom` where somebody holds it, because plans follow the map and not each
    // short claim.
    pub(crate) fn copy_if_free(
        &mut self,
        alloc: Global,
        block: u32,
        slot: u16,
    ) -> Result<Outcome, AllocError>
        requires { block < self.old.world.array.parts.groups.blocks }
        ensures ok { (w : ℕ) → IfOk result (λ outcome. (T : Tiered) → RepresentsTiers self.old T
            → (U : Tiered) × PutsAt T w block Again slot outcome U × RepresentsTiers self.new U) }
        ensures err { (w : ℕ) → OnErr result ((T : Tiered) → RepresentsTiers self.old T
            → (U : Tiered) × PutStops T w Again block slot U × RepresentsTiers self.new U) }
        ensures room { SameSizes self.old.world.array self.new.world.array }
    {
        if !self.world.is_free(slot) {
            return Ok(Outcome::NoRoom);
        }
        self.put(alloc, slot, block, None)
    }
}
