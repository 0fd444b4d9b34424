// What a thread carries.
ghost use Rattle.std.specs.Prelude.{◌≡◌};

use crate::naming::Chronicle;
use crate::rule::Sitting;
use std::marker::{Model, PhantomData};

/// One who does something. A contract sees its number, the history up to its last entry, and its own entries.
#[derive(Drop)]
pub struct Hand<N: Chronicle, E> {
    pub(crate) number: u64,
    pub(crate) seat: Sitting<E>,
    pub(crate) of: PhantomData<N>,
}

impl<N: Chronicle, E> Model for Hand<N, E> {
    ghost use Rattle.std.specs.Prelude.{◌≡◌, []};
    ghost use Rattle.history.specs.Entries.{Carried};
    ghost use Rattle.history.specs.Rule.{hand};

    ghost Value = { Carried E };

    ghost view = { λ h. record { number = h.number; seen = h.seat.me.0.seen; mine = h.seat.me.0.mine } };

    ghost invariant = { λ h. (h.seat.table_id ≡ N.chronicle) × (h.seat.me ≡ (hand h.number h.seat.me.0.seen h.seat.me.0.mine, [])) };
}

impl<N: Chronicle, E> Hand<N, E> {
    /// The hand's number: 0 for the first that was hired.
    pub fn number(&self) -> u64
        ensures { result ≡ self.now.number }
    {
        self.number
    }
}
