// A Taker, and why its calls are refused.
ghost use Rattle.std.specs.Prelude.{◌≡◌};
ghost use Rattle.map_words.specs.Refused.{number_of};

use crate::naming::Naming;
use crate::rule::Sitting;
use std::marker::{Model, PhantomData};

/// A share of the table N, by which a thread takes records and finds them. A contract sees the share, and all that was taken
/// and found by it.
#[derive(Drop)]
pub struct Taker<N: Naming> {
    pub(crate) share: u32,
    pub(crate) seat: Sitting,
    pub(crate) of: PhantomData<N>,
}

impl<N: Naming> Model for Taker<N> {
    ghost use Rattle.std.specs.Prelude.{◌≡◌, ◌<◌, ◌≤◌, [], All};
    ghost use Rattle.map_words.specs.declared.view.View.{View};
    ghost use Rattle.map_words.specs.Places.{blocks_of};

    ghost Value = { View };

    ghost view = { λ t. t.seat.me.0 };

    ghost invariant = { λ t. (t.seat.me.0.share ≡ t.share) × (0 < t.share) × (t.share ≤ 65536) × All (λ r. r.block < blocks_of N.table) t.seat.me.0.taken
        × All (λ f. f.block < blocks_of N.table) t.seat.me.0.found × (t.seat.table_id ≡ N.table) × (t.seat.me.1 ≡ []) };
}

/// Why a Taker was not split.
#[derive(Clone, Copy, Debug, PartialEq, Eq)]
pub enum SplitRefusal {
    /// Its share is 1.
    NoShare = 1,
}

impl SplitRefusal {
    /// The refusal's number, 1.
    pub fn number(self) -> u8
        ensures { result ≡ 1 }
    {
        self as u8
    }
}

/// Why a table was not closed.
#[derive(Clone, Copy, Debug, PartialEq, Eq)]
pub enum CloseRefusal {
    /// The Taker has this share, and not the whole.
    NotWhole(u32),
    /// Out of memory for the map.
    Memory,
}

impl CloseRefusal {
    /// The refusal's number, 1 or 2 in the order above.
    pub fn number(&self) -> u8
        ensures { result ≡ number_of self.now }
    {
        match self {
            CloseRefusal::NotWhole(_) => 1,
            CloseRefusal::Memory => 2,
        }
    }
}
