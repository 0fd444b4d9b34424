// What the groups are chosen by: how many of each group's slots are live, and how many it has as a parity group.
ghost use Rattle.std.specs.Prelude.{◌≡◌, ℕ, ◌<◌, length};
ghost use Rattle.cleaner.specs.Offered.{holed_count, source_count, inverted_rank};
ghost use Rattle.cleaner.specs.Choosing.{IsRankRow};

use crate::choice::Ranks;
use crate::lanes::{keep_holed, keep_parity, keep_up_to, row_of, turn};
use extent_groups::GROUPS;
use std::simd::prelude::*;

/// The fullest group with a hole is the greatest: the rank is its count.
#[derive(Drop)]
pub(crate) struct Fullest<'a> {
    pub(crate) slots: &'a [u16],
    pub(crate) counts: &'a [u16; GROUPS],
}

impl<'a> Ranks for Fullest<'a> {
    ghost whole = { λ f. length f.slots.now ≡ 512 };

    ghost rank = { λ f group. holed_count f.slots.now f.counts.now group };

    #[inline(always)]
    fn row(&self, row: u16) -> u16x16 {
        let counts = self.counts;
        let slots = self.slots;
        keep_holed(row_of(counts, row), row_of(slots, row))
    }
}

/// The emptiest group with a hole is the greatest.
#[derive(Drop)]
pub(crate) struct Emptiest<'a> {
    pub(crate) slots: &'a [u16],
    pub(crate) counts: &'a [u16; GROUPS],
}

impl<'a> Ranks for Emptiest<'a> {
    ghost whole = { λ e. length e.slots.now ≡ 512 };

    ghost rank = { λ e group. inverted_rank (holed_count e.slots.now e.counts.now group) };

    #[inline(always)]
    fn row(&self, row: u16) -> u16x16 {
        let counts = self.counts;
        let slots = self.slots;
        turn(keep_holed(row_of(counts, row), row_of(slots, row)))
    }
}

/// The emptiest parity group with no more live slots than this is the greatest.
#[derive(Drop)]
pub(crate) struct Sources<'a> {
    pub(crate) slots: &'a [u16],
    pub(crate) counts: &'a [u16; GROUPS],
    pub(crate) most: u16,
}

impl<'a> Ranks for Sources<'a> {
    ghost whole = { λ s. length s.slots.now ≡ 512 };

    ghost rank = { λ s group. inverted_rank (source_count s.slots.now s.counts.now s.most group) };

    #[inline(always)]
    fn row(&self, row: u16) -> u16x16 {
        let counts = self.counts;
        let slots = self.slots;
        let parity = keep_parity(row_of(counts, row), row_of(slots, row));
        turn(keep_up_to(parity, self.most))
    }
}
