// The rule, and the kinds of steps.
use crate::view::View;
use atomic_table::{Join, Play, Seat, Split, Table, TableRule};
use std::alloc::Global;
use std::marker::{Brand, PhantomData};

/// A table of words that has no place for values, under the rule of one history.
pub type Words<E> = Table<u8, View<E>, u64, OneHistory<E>, Global>;

/// A seat of such a table.
pub type Sitting<E> = Seat<u8, View<E>>;

/// The rule: all seats know of one history.
pub struct OneHistory<E>(PhantomData<E>);

impl<E> TableRule<u8, View<E>, u64> for OneHistory<E> {
    ghost use Rattle.std.specs.Prelude.{[]};
    ghost use Rattle.history.specs.Rule.{IsOne, keeper};

    ghost holds = { λ _ s. IsOne s.views };

    ghost first = { λ _. keeper 0 [] };
}

/// The keeper's seat takes in a hand's.
pub struct Lends;

impl<E> Join<View<E>> for Lends {
    ghost use Rattle.history.specs.Rule.{lent, nobody};

    ghost both = { lent };

    ghost spent = { nobody };
}

/// The keeper's seat is cut in two, the keeper's part and the hand's.
pub struct Returns;

impl<E> Split<View<E>> for Returns {
    ghost use Rattle.history.specs.Rule.{kept_part, hand_part};

    ghost left = { kept_part };

    ghost right = { hand_part };
}

/// A new hand's seat is cut from the keeper's.
pub struct Hires;

impl<E> Split<View<E>> for Hires {
    ghost use Rattle.history.specs.Rule.{hirer, hired_hand};

    ghost left = { hirer };

    ghost right = { hired_hand };
}

/// A load that makes an empty seat.
pub struct Sits;

impl<E> Play<u8, View<E>> for Sits {
    ghost use Rattle.history.specs.Rule.{Sat};

    ghost then = { Sat };
}

/// What an entry says of a value: it may be any data of a proof.
pub trait Says<X, E> {
    ghost what: { X → E };
}

// What a step appends, which its caller picks.
pub trait Picked<E> {
    ghost use Rattle.std.specs.Prelude.{Option};

    ghost what: { Option E };
}

impl<E> Picked<E> for Brand {
    ghost use Rattle.std.specs.Prelude.{None};

    ghost what = { None };
}

/// A load by a seat with both parts, which appends an entry of the hand.
pub struct Appends<E, P: Picked<E>>(PhantomData<(E, P)>);

impl<E, P: Picked<E>> Play<u8, View<E>> for Appends<E, P> {
    ghost use Rattle.history.specs.Rule.{EntryAppended};

    ghost then = { EntryAppended P.what };
}

/// A load by a seat with both parts, which compares the history with the hand's entries.
pub struct Checks;

impl<E> Play<u8, View<E>> for Checks {
    ghost use Rattle.history.specs.Rule.{Checked};

    ghost then = { Checked };
}
