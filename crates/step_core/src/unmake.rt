// Dissolving a group whose slots a worker holds.
ghost use Rattle.std.specs.Prelude.{◌≡◌, ℕ, ◌<◌, ◌≤◌, length, true, IfOk, OnErr, MatchOption};
ghost use Rattle.flat_machine.specs.Steps as say;
ghost use Rattle.flat_machine.specs.Flat.{Flat};
ghost use Rattle.flat_machine.specs.Cases.{Case, IsAllocating};
ghost use Rattle.slot_tables.specs.Represents.{Represents, is_claim};
ghost use Rattle.slot_tables.specs.Views.{hand_at, SameSizes};
ghost use Rattle.slot_tables.specs.Claims.{how_many};
ghost use Rattle.slot_tables.specs.Shut.{one_of, IsFirstNotHeld, hand_emptied};
ghost use Rattle.step_core.specs.Reported.{flat_answer};

use crate::step::Answer;
use crate::world::{World, refused};
use disk_array::Hands;
use extent_groups::SLOTS;
use extents::Drive;
use flat_machine::Refusal;
use slot_tables::Plain;
use std::alloc::{AllocError, Global};

impl<D: Drive> World<D> {
    /// Dissolves a group of which the worker holds all slots. Allocates a list of its claims.
    pub fn unmake(&mut self, alloc: Global, worker: u8, group: u16) -> Result<Answer, AllocError>
        ensures ok { IfOk result (λ answer. (F : Flat) → Represents self.old F
            → (G : Flat) × Case F (say.Unmake worker group) (flat_answer answer) G × Represents self.new G) }
        ensures err { OnErr result (self.new ≡ self.old) }
        ensures needs { OnErr result ((F : Flat) → Represents self.old F → IsAllocating F (say.Unmake worker group)) }
        ensures room { SameSizes self.old.array self.new.array }
    {
        let Some(count) = self.array.slots_in(group) else {
            return Ok(Answer::Refused(Refusal::NoGroup));
        };
        if let Some(slot) = self.first_not_held(worker, group, count) {
            return Ok(Answer::Refused(Refusal::SlotsHeld(slot)));
        }
        // After the checks, so that out of memory stops only a step that passes them.
        let claims = claims_of(alloc, group, count)?;
        match self.array.unmake_group(group, claims) {
            Ok(()) => {
                empty_first(&mut self.hands, group, count);
                Ok(Answer::Unmade(group))
            }
            Err((refusal, _claims)) => refused(refusal),
        }
    }

    // The lowest of the first `count` slots of a group of which the worker has no claim.
    fn first_not_held(&self, worker: u8, group: u16, count: u16) -> Option<u16>
        requires group { group < 512 }
        requires count { count ≤ 128 }
        ensures { MatchOption result ((slot : ℕ) → 0 < one_of group count slot → is_claim (hand_at self.now.hands slot) worker ≡ true)
            (IsFirstNotHeld self.now.hands worker group count) }
    {
        for index in 0..count {
            let slot = SLOTS * group + index;
            if !self.holds(worker, slot) {
                return Some(slot);
            }
        }
        None
    }
}

// A claim of each of the first `count` slots of a group.
fn claims_of(alloc: Global, group: u16, count: u16) -> Result<Vec<Plain>, AllocError>
    requires group { group < 512 }
    requires count { count ≤ 128 }
    ensures { IfOk result (λ claims. (slot : ℕ) → how_many Plain.slot claims.items slot ≡ one_of group count slot) }
{
    let mut claims = Vec::with_capacity(alloc, usize::from(count))?;
    for index in 0..count {
        claims.push_reserved(Plain {
            slot: SLOTS * group + index,
        });
    }
    Ok(claims)
}

// Takes the first `count` slots of a group out of the workers' hands.
fn empty_first(hands: &mut Hands, group: u16, count: u16)
    requires group { group < 512 }
    requires count { count ≤ 128 }
    requires many { length hands.old ≡ 65536 }
    ensures value { (slot : ℕ) → hand_at hands.new slot ≡ hand_emptied group count slot (hand_at hands.old slot) }
    ensures many { length hands.new ≡ 65536 }
{
    for index in 0..count {
        hands.clear(SLOTS * group + index);
    }
}
