// The group of greatest rank, of those that a plan may choose from.
ghost use Rattle.std.specs.Prelude.{◌≡◌, ℕ, ◌+◌, ◌*◌, ◌<◌};
ghost use Rattle.cleaner.specs.Choosing.{IsRankRow, IsBestTo, IsBetter, IsChoice};

use crate::lanes::{LANES, are_within};
use extent_groups::GROUPS;
use std::simd::prelude::*;

/// A group, and its rank.
#[derive(Clone, Copy)]
pub(crate) struct Ranked {
    pub(crate) group: u16,
    pub(crate) rank: u16,
}

/// Says how a plan ranks the groups.
pub(crate) trait Ranks {
    /// The tables that are looked into have all groups.
    ghost whole: { Self → Type 0 };

    /// The rank of each group, 0 where the plan can't choose it; the group that is left out may have any.
    ghost rank: { Self → ℕ → ℕ };

    /// The ranks of sixteen groups in turn.
    fn row(&self, row: u16) -> u16x16
        requires low { row < 32 }
        requires whole { whole self.now }
        ensures { IsRankRow (rank self.now) row result };
}

// Of all groups but the one that is left out the one of greatest rank, at least 1, and of several such the lowest.
pub(crate) fn greatest<R: Ranks>(ranks: &R, left_out: Option<u16>) -> Option<Ranked>
    requires { R.whole ranks.now }
    ensures { IsChoice (R.rank ranks.now) left_out result }
{
    let mut best = Ranked { group: 0, rank: 0 };
    for row in 0..GROUPS as u16 / LANES {
        best = after_row(ranks, left_out, row, best);
    }
    if best.rank == 0 { None } else { Some(best) }
}

// The best of the groups up to the end of a row, by the best of those before it.
fn after_row<R: Ranks>(ranks: &R, left_out: Option<u16>, row: u16, best: Ranked) -> Ranked
    requires whole { R.whole ranks.now }
    requires low { row < 32 }
    requires best { IsBestTo (R.rank ranks.now) left_out (16 * row) best.group best.rank }
    ensures { IsBestTo (R.rank ranks.now) left_out (16 * (row + 1)) result.group result.rank }
{
    let lanes = ranks.row(row);
    // One comparison, so that sixteen groups of which none is better aren't looked at one by one.
    if are_within(lanes, best.rank) {
        return best;
    }
    let values = lanes.to_array();
    let mut best = best;
    for lane in 0..LANES {
        let group = LANES * row + lane;
        best = better(left_out, group, values[usize::from(lane)], best);
    }
    best
}

// The group, where its rank is greater and it isn't left out, or else the best so far.
fn better(left_out: Option<u16>, group: u16, rank: u16, best: Ranked) -> Ranked
    ensures { IsBetter left_out group rank best result }
{
    // Only a greater rank, so that of equals the lower number stays.
    if rank > best.rank && left_out != Some(group) {
        Ranked { group, rank }
    } else {
        best
    }
}
