//! Blocks that are written into the mirrored level.
ghost use Rattle.std.specs.Prelude.{◌≡◌, ℕ, ◌<◌, IfOk, IfSome, OnErr};
ghost use Rattle.extent_groups.specs.declared.class.Class.TheVariants.{Mirrored};
ghost use Rattle.slot_tables.specs.Views.{SameSizes};
ghost use Rattle.migrator.specs.First.{IsFirst};
ghost use Rattle.tiered_array.specs.Inside.{IsFreeOf};
ghost use Rattle.tiered_array.specs.Placing.{IsGivenFor, content_of};
ghost use Rattle.tiered_array.specs.Matches.{RepresentsTiers};
ghost use Rattle.tiered_array.specs.Steps.{IsFreeMirror, TierCase, TierStops};
ghost use Rattle.tiered_array.specs.Steps as t;
ghost use Rattle.tiered_array.specs.Tiered.{Tiered};

use crate::asks::Mirrors;
use crate::{Outcome, Tiers};
use std::alloc::{AllocError, Global};
use step_core::{Drive, Given};

impl<D: Drive> Tiers<D> {
    /// Writes what is given, a payload or a trim, as the block's next version into the lowest free slot of mirrored groups, and
    /// notes the write. After a trim the block holds nothing. Where no slot is free there, one block is demoted first; `NoRoom`
    /// where that frees none.
    pub fn write(&mut self, alloc: Global, block: u32, given: Given) -> Result<Outcome, AllocError>
        requires block { block < self.old.world.array.parts.groups.blocks }
        requires given { IsGivenFor self.old.world.array.parts.groups.payload given }
        ensures ok { (w : ℕ) → IfOk result (λ outcome. (T : Tiered) → RepresentsTiers self.old T
            → (U : Tiered) × TierCase T (t.Write w block (content_of given.entry)) outcome U × RepresentsTiers self.new U) }
        ensures err { (w : ℕ) → OnErr result ((T : Tiered) → RepresentsTiers self.old T
            → (U : Tiered) × TierStops T (t.Write w block (content_of given.entry)) U × RepresentsTiers self.new U) }
        ensures room { SameSizes self.old.world.array self.new.world.array }
    {
        if let Some(slot) = self.free_mirror() {
            return self.put(alloc, slot, block, Some(given));
        }
        match self.demote(alloc) {
            // Also after `NoRoom`, `Nothing` or a refusal: the demotion then freed no slot, and the second look says so.
            Ok(_) => match self.free_mirror() {
                Some(slot) => self.put(alloc, slot, block, Some(given)),
                None => Ok(Outcome::NoRoom),
            },
            Err(_) => Err(AllocError),
        }
    }

    // The lowest free slot of mirrored groups.
    pub(crate) fn free_mirror(&mut self) -> Option<u16>
        ensures first { (T : Tiered) → RepresentsTiers self.old T → IsFirst (IsFreeMirror T.flat) result × RepresentsTiers self.new T }
        ensures found { IfSome result (IsFreeOf Mirrored self.new.world) }
        ensures same { self.new.world ≡ self.old.world }
    {
        let mirrors = Mirrors { world: &self.world };
        self.hints.first(&mirrors)
    }
}
