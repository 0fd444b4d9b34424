// The token with which a thread claims and releases.
ghost use Rattle.std.specs.Prelude.{◌≡◌, []};

use crate::naming::Naming;
use crate::rule::Sitting;
use std::marker::{Model, PhantomData};

/// Lets its holder make steps on the words of the table N. It has no bytes. A contract sees its last look and its last step,
/// all the steps that it made, a list of won claims, and its shares of the right to step. A claim takes that list along, and
/// adds it to the list of the Pass that releases it.
#[derive(Drop)]
pub struct Pass<N: Naming> {
    pub(crate) seat: Sitting,
    pub(crate) of: PhantomData<N>,
}

impl<N: Naming> Model for Pass<N> {
    ghost use Rattle.slot_words.specs.declared.view.View.{View};
    ghost use Rattle.slot_words.specs.Idle.{IsIdleSeat};

    ghost Value = { View };

    ghost view = { λ p. p.seat.me.0 };

    ghost invariant = { λ p. IsIdleSeat N.table p.seat };
}
