// What lies under the lock next to the value.
ghost use Rattle.std.specs.Prelude.{◌≡◌, ◌+◌, ◌^◌, ◌++◌, ◌∷◌, [], IfSome, IfNone};
ghost use Rattle.history.specs.Entries.{entry, Extends, IsCoherent};

use crate::hand::Hand;
use crate::naming::{Chronicle, History};
use crate::rule::{Says, Sitting};
use crate::steps::{hire_in, look_in, note_in};
use std::marker::{Brand, Model, PhantomData};

/// The keeper of a history. A contract sees all its entries, and how many hands were hired.
#[derive(Drop)]
pub struct Keeper<N: Chronicle, E> {
    pub(crate) hired: u64,
    pub(crate) seat: Sitting<E>,
    pub(crate) of: PhantomData<N>,
}

impl<N: Chronicle, E> Model for Keeper<N, E> {
    ghost use Rattle.std.specs.Prelude.{◌≡◌, []};
    ghost use Rattle.history.specs.Entries.{Course};
    ghost use Rattle.history.specs.Rule.{keeper};

    ghost Value = { Course E };

    ghost view = { λ k. record { hired = k.hired; log = k.seat.me.0.log } };

    ghost invariant = { λ k. (k.seat.table_id ≡ N.chronicle) × (k.seat.me ≡ (keeper k.hired k.seat.me.0.log, [])) };
}

impl<N: Chronicle, E> Keeper<N, E> {
    /// One hand more, with the next number. None where no number is left.
    pub fn hire(&mut self, history: &History<N, E>) -> Option<Hand<N, E>>
        ensures hand { IfSome result (λ h. h ≡ record { number = self.old.hired; seen = self.old.log; mine = [] }) }
        ensures hired { IfSome result (λ h. self.new ≡ record { hired = self.old.hired + 1; log = self.old.log }) }
        ensures none { IfNone result ((self.new ≡ self.old) × (self.old.hired + 1 ≡ 2 ^ 64)) }
    {
        let number = self.hired;
        // First, so that without a number left nothing has changed.
        let more = number.checked_add(1)?;
        let seat = hire_in(&history.table, &mut self.seat, number);
        self.hired = more;
        Some(Hand {
            number,
            seat,
            of: PhantomData,
        })
    }

    /// How many hands were hired.
    pub fn hired(&self) -> u64
        ensures { result ≡ self.now.hired }
    {
        self.hired
    }

    /// Adds an entry of this hand: what `C` says of the value.
    pub fn note<X, C: Says<X, E>>(
        &mut self,
        history: &History<N, E>,
        me: &mut Hand<N, E>,
        about: &X,
    )
        ensures log { self.new ≡ record { hired = self.old.hired; log = self.old.log ++ entry me.old.number (C.what about.now) ∷ [] } }
        ensures seen { me.new.seen ≡ self.new.log }
        ensures noted { Extends me.old (C.what about.now) me.new }
    {
        note_in::<X, E, C, Brand>(
            &history.table,
            &mut self.seat,
            &mut me.seat,
            me.number,
            about,
        );
    }

    /// A law that changes nothing: the hand's entries in the history are exactly those that it made, in its order, and no entry is
    /// of a hand that wasn't hired.
    pub fn check(&mut self, history: &History<N, E>, me: &mut Hand<N, E>)
        ensures same { (self.new ≡ self.old) × (me.new ≡ me.old) }
        ensures whole { IsCoherent self.old me.old }
    {
        look_in(&history.table, &mut self.seat, &mut me.seat, me.number);
    }
}
