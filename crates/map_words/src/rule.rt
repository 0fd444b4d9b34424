// The rule of the table, and what holds for each kind of step.
ghost use Rattle.map_words.specs.TakeRule.{knows, opening, whole, TakeRule};
ghost use Rattle.map_words.specs.Steps.{IsTakeStep, Saw, Closed, Weighed, kept_half, given_half, both_views};
ghost use Rattle.std.specs.Prelude.{[]};

use crate::view::View;
use atomic_table::{Join, Play, Seat, Split, Table, TableRule};
use std::alloc::Global;

/// A table of words that has no place for values, under the rule of taking.
pub type Words = Table<u8, View, u64, Greatest, Global>;

/// A seat of such a table.
pub type Sitting = Seat<u8, View>;

/// The rule: each word is the greatest key taken of its block.
pub struct Greatest;

impl TableRule<u8, View, u64> for Greatest {
    ghost holds = { λ blocks s. TakeRule blocks s.words s.views };

    ghost first = { λ _. opening };
}

/// The fetch-max of a call of `take`.
pub struct Takes;

impl Play<u8, View> for Takes {
    ghost then = { IsTakeStep };
}

/// The load of a call of `find`.
pub struct Sees;

impl Play<u8, View> for Sees {
    ghost then = { Saw };
}

/// A load by the seat that has the whole share.
pub struct Closes;

impl Play<u8, View> for Closes {
    ghost then = { Closed };
}

/// A load that shows how large a share can be.
pub struct Weighs;

impl Play<u8, View> for Weighs {
    ghost then = { Weighed };
}

/// A share cut in two.
pub struct Halves;

impl Split<View> for Halves {
    ghost left = { kept_half };

    ghost right = { given_half };
}

/// Two Takers made one.
pub struct Both;

impl Join<View> for Both {
    ghost both = { both_views };

    ghost spent = { knows 0 [] [] };
}
