// What a claim is, and why one is refused.
ghost use Rattle.std.specs.Prelude.{◌≡◌, ◌<◌, ◌≤◌, [], ◌∷◌};
ghost use Rattle.slot_words.specs.Places.{table_slots};
ghost use Rattle.slot_words.specs.Refused.{number_of};

use crate::naming::Naming;
use crate::rule::Sitting;
use std::marker::{Model, PhantomData};

/// A slot of the table N that is held at this generation, and by no other claim. It can't be dropped, only released, so that
/// no slot stays held by a claim that was lost.
pub struct Claim<N: Naming> {
    pub(crate) slot: u16,
    pub(crate) generation: u64,
    pub(crate) seat: Sitting,
    pub(crate) of: PhantomData<N>,
}

impl<N: Naming> Model for Claim<N> {
    ghost use Rattle.std.specs.Prelude.{◌≡◌, ◌<◌, ◌≤◌, ◌^◌, [], ◌∷◌, Contains};
    ghost use Rattle.slot_words.specs.declared.view.Held.{Held};
    ghost use Rattle.slot_words.specs.ClaimRule.{held_pair, no_sight};
    ghost use Rattle.slot_words.specs.Places.{table_slots};

    ghost Value = { Held };

    ghost view = { λ c. held_pair c.slot c.generation };

    ghost invariant = { λ c. (c.slot < table_slots N.table) × (0 < c.generation) × (c.generation ≤ 2 ^ 62) × (c.seat.table_id ≡ N.table)
        × (c.seat.me.0.pairs ≡ held_pair c.slot c.generation ∷ []) × (c.seat.me.1 ≡ []) × Contains c.seat.me.0.won (held_pair c.slot c.generation)
        × (c.seat.me.0.sight ≡ no_sight) × (c.seat.me.0.steps ≡ []) × (c.seat.me.0.shares ≡ []) };
}

impl<N: Naming> Claim<N> {
    /// The slot's number.
    pub fn slot(&self) -> u16
        ensures same { result ≡ self.now.slot }
        ensures below { result < table_slots N.table }
    {
        self.slot
    }

    /// How often the slot has been claimed, this claim counted.
    pub fn generation(&self) -> u64
        ensures { result ≡ self.now.generation }
    {
        self.generation
    }
}

/// Why a slot was not claimed.
#[derive(Clone, Copy, PartialEq, Eq, Debug)]
pub enum ClaimRefusal {
    /// The slot was held when this word was read there.
    Taken(u64),
    /// The slot is free at its last generation, 2^62, and is never claimed again, so that no generation of it comes twice.
    Spent,
    /// When this word was read there, the slot was free, but at another generation than the load before had found.
    Moved(u64),
}

impl ClaimRefusal {
    /// The refusal's number, 1 to 3 in the order above.
    pub fn number(&self) -> u8
        ensures { result ≡ number_of self.now }
    {
        match self {
            ClaimRefusal::Taken(_) => 1,
            ClaimRefusal::Spent => 2,
            ClaimRefusal::Moved(_) => 3,
        }
    }
}

/// No listed slot could be claimed: the refusal of the last try, or none where the list is empty.
#[derive(Clone, Copy, PartialEq, Eq, Debug)]
pub struct NoneFree(pub Option<ClaimRefusal>);
