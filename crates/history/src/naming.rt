// Which history a value is of.
ghost use Rattle.std.specs.Prelude.{◌≡◌, ◌<◌, []};
ghost use Rattle.history.specs.Rule.{keeper};

use crate::hand::Hand;
use crate::keeper::Keeper;
use crate::rule::{Sitting, Words};
use crate::steps::hire_in;
use atomic_table::Table;
use std::alloc::{AllocError, Global};
use std::marker::{Brand, Model, PhantomData};

/// Names one history, so that its keeper and its hands are known by their type.
pub trait Chronicle {
    ghost use Rattle.atomic_table.specs.Seated.{TableId};

    ghost chronicle: { TableId };
}

impl Chronicle for Brand {
    ghost use Rattle.history.specs.Rule.{no_table};

    ghost chronicle = { no_table };
}

/// One history, which all threads share. It has one word, which never changes, because only what its seats know matters.
#[derive(Drop)]
pub struct History<N: Chronicle, E> {
    pub(crate) table: Words<E>,
    of: PhantomData<N>,
    pub(crate) ghost named: { table.shared.table_id ≡ N.chronicle },
    pub(crate) ghost room: { 0 < N.chronicle.words },
}

/// A history without a name, with its keeper's seat.
#[derive(Drop)]
pub struct Opened<E> {
    table: Words<E>,
    seat: Sitting<E>,
}

impl<E> Model for Opened<E> {
    ghost use Rattle.std.specs.Prelude.{◌≡◌, ◌<◌, []};
    ghost use Rattle.atomic_table.specs.Seated.{TableId};
    ghost use Rattle.history.specs.Rule.{keeper};

    ghost Value = { TableId };

    ghost view = { λ t. t.table.shared.table_id };

    ghost invariant = { λ t. (0 < t.table.shared.table_id.words) × (t.seat.table_id ≡ t.table.shared.table_id) × (t.seat.me ≡ (keeper 0 [], [])) };
}

impl<E> Opened<E> {
    /// A history without a name, and its keeper. Allocates one word.
    #[tactic(auto, using(crate::proofs::Moves::begins))]
    pub fn new(alloc: Global) -> Result<Opened<E>, AllocError> {
        let (table, seat) = Table::of_words(alloc, &[0], &0)?;
        Ok(Opened { table, seat })
    }

    /// The history by its name, without entries, its keeper, and the first hand.
    pub fn named<N: Chronicle>(self) -> (History<N, E>, Keeper<N, E>, Hand<N, E>)
        requires { self ≡ N.chronicle }
        ensures keeper { result.1 ≡ record { hired = 1; log = [] } }
        ensures hand { result.2 ≡ record { number = 0; seen = []; mine = [] } }
    {
        let Opened { table, mut seat } = self;
        let first = hire_in(&table, &mut seat, 0);
        let history = History {
            table,
            of: PhantomData,
        };
        let keeper = Keeper {
            hired: 1,
            seat,
            of: PhantomData,
        };
        let hand = Hand {
            number: 0,
            seat: first,
            of: PhantomData,
        };
        (history, keeper, hand)
    }
}
