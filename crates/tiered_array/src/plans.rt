//! Moving blocks to the parity level, or from one place in it to another.
ghost use Rattle.std.specs.Prelude.{◌<◌, IfOk, OnErr, ℕ};
ghost use Rattle.slot_tables.specs.Views.{SameSizes};
ghost use Rattle.tiered_array.specs.Inside.{IsFreeHere};
ghost use Rattle.tiered_array.specs.Placing.{Again};
ghost use Rattle.tiered_array.specs.Matches.{RepresentsTiers};
ghost use Rattle.tiered_array.specs.Steps.{AppendsAt, PutStops, TierCase, TierStops};
ghost use Rattle.tiered_array.specs.Steps as t;
ghost use Rattle.tiered_array.specs.Tiered.{Tiered};

use crate::asks::Unheld;
use crate::{Outcome, Tiers};
use std::alloc::{AllocError, Global};
use step_core::Drive;

impl<D: Drive> Tiers<D> {
    /// Copies the block that was written longest ago, of those in mirrored groups, to the first free slot where the write log
    /// goes on. `Nothing` where no block is in a mirrored group, `NoRoom` where no slot is free there.
    pub fn demote(&mut self, alloc: Global) -> Result<Outcome, AllocError>
        ensures ok { (w : ℕ) → IfOk result (λ outcome. (T : Tiered) → RepresentsTiers self.old T
            → (U : Tiered) × TierCase T (t.Demote w) outcome U × RepresentsTiers self.new U) }
        ensures err { (w : ℕ) → OnErr result ((T : Tiered) → RepresentsTiers self.old T → (U : Tiered) × TierStops T (t.Demote w) U × RepresentsTiers self.new U) }
        ensures room { SameSizes self.old.world.array self.new.world.array }
    {
        let array = self.world.array();
        // Before the slot: without a block the answer is `Nothing`, also where there is no room.
        let Some(block) = self.planner.oldest_mirrored(array) else {
            return Ok(Outcome::Nothing)
        };
        let free = Unheld { world: &self.world };
        let Some(slot) = self.planner.next_append(array, &free) else {
            return Ok(Outcome::NoRoom)
        };
        self.append(alloc, block, slot)
    }

    /// Copies a block into the lowest hole of the fullest parity group that has one, from the group that is soonest empty.
    /// `Nothing` where there is no such plan, `NoRoom` where the hole is held.
    pub fn plug(&mut self, alloc: Global) -> Result<Outcome, AllocError>
        ensures ok { (w : ℕ) → IfOk result (λ outcome. (T : Tiered) → RepresentsTiers self.old T
            → (U : Tiered) × TierCase T (t.Plug w) outcome U × RepresentsTiers self.new U) }
        ensures err { (w : ℕ) → OnErr result ((T : Tiered) → RepresentsTiers self.old T → (U : Tiered) × TierStops T (t.Plug w) U × RepresentsTiers self.new U) }
        ensures room { SameSizes self.old.world.array self.new.world.array }
    {
        match self.planner.plug(self.world.array()) {
            // By `copy_if_free`, not `append`: a plug's target is never the write group, so the log's end stays.
            Some(plan) => self.copy_if_free(alloc, plan.block, plan.to),
            None => Ok(Outcome::Nothing),
        }
    }

    /// Where nothing can be plugged, copies a block of the parity group of fewest live slots to where the write log goes on.
    /// `Nothing` where there is no such plan, `NoRoom` where the slot there is held.
    pub fn clean(&mut self, alloc: Global) -> Result<Outcome, AllocError>
        ensures ok { (w : ℕ) → IfOk result (λ outcome. (T : Tiered) → RepresentsTiers self.old T
            → (U : Tiered) × TierCase T (t.Clean w) outcome U × RepresentsTiers self.new U) }
        ensures err { (w : ℕ) → OnErr result ((T : Tiered) → RepresentsTiers self.old T → (U : Tiered) × TierStops T (t.Clean w) U × RepresentsTiers self.new U) }
        ensures room { SameSizes self.old.world.array self.new.world.array }
    {
        match self.planner.clean(self.world.array()) {
            Some(plan) => {
                if !self.world.is_free(plan.to) {
                    return Ok(Outcome::NoRoom);
                }
                self.append(alloc, plan.block, plan.to)
            }
            None => Ok(Outcome::Nothing),
        }
    }

    // Copies the block into a slot that nobody holds, after which the log goes on.
    pub(crate) fn append(
        &mut self,
        alloc: Global,
        block: u32,
        slot: u16,
    ) -> Result<Outcome, AllocError>
        requires free { IsFreeHere self.old.world slot }
        requires block { block < self.old.world.array.parts.groups.blocks }
        ensures ok { (w : ℕ) → IfOk result (λ outcome. (T : Tiered) → RepresentsTiers self.old T
            → (U : Tiered) × AppendsAt T w block slot outcome U × RepresentsTiers self.new U) }
        ensures err { (w : ℕ) → OnErr result ((T : Tiered) → RepresentsTiers self.old T
            → (U : Tiered) × PutStops T w Again block slot U × RepresentsTiers self.new U) }
        ensures room { SameSizes self.old.world.array self.new.world.array }
    {
        match self.put(alloc, slot, block, None) {
            Ok(Outcome::Placed(record)) => {
                // Only after the commit: the slot of a refused copy is free again, and the log goes on at it.
                self.planner.appended(slot);
                Ok(Outcome::Placed(record))
            }
            Ok(other) => Ok(other),
            Err(_) => Err(AllocError),
        }
    }
}
