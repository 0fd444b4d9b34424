// The rule of the table, and what holds for each kind of step.
ghost use Rattle.slot_words.specs.ClaimRule.{blank, opening, ClaimRule};
ghost use Rattle.slot_words.specs.Steps.{Sat, Looked, Taken, Freed, Differed, both_pairs, pair_part, step_part, kept_half, given_half};

use crate::view::View;
use atomic_table::{Join, Play, Seat, Split, Table, TableRule};
use std::alloc::Global;

/// A table of words that has no place for values, under the rule of claims.
pub type Words = Table<u8, View, u64, OnceHeld, Global>;

/// A seat of such a table.
pub type Sitting = Seat<u8, View>;

/// The rule: a slot is held at most once, at the generation of its word.
pub struct OnceHeld;

impl TableRule<u8, View, u64> for OnceHeld {
    ghost holds = { λ slots s. ClaimRule slots s.words s.views };

    ghost first = { λ _. opening };
}

/// A load that makes an empty seat.
pub struct Sits;

impl Play<u8, View> for Sits {
    ghost then = { Sat };
}

/// The load of a look.
pub struct Looks;

impl Play<u8, View> for Looks {
    ghost then = { Looked };
}

/// The exchange of a claim.
pub struct Takes;

impl Play<u8, View> for Takes {
    ghost then = { Taken };
}

/// The store of a release.
pub struct Frees;

impl Play<u8, View> for Frees {
    ghost then = { Freed };
}

/// A load by a seat that has the pairs of two claims.
pub struct Differs;

impl Play<u8, View> for Differs {
    ghost then = { Differed };
}

/// Two seats made one.
pub struct Both;

impl Join<View> for Both {
    ghost both = { both_pairs };

    ghost spent = { blank };
}

/// One seat cut in two, of which the claim gets the first.
pub struct Parts;

impl Split<View> for Parts {
    ghost left = { pair_part };

    ghost right = { step_part };
}

/// A share cut in two.
pub struct Halves;

impl Split<View> for Halves {
    ghost left = { kept_half };

    ghost right = { given_half };
}
