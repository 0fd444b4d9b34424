// Numbers of sixteen groups at once.
ghost use Rattle.std.specs.Prelude.{◌≡◌, ◌↔◌, ◌*◌, ◌<◌, ◌≤◌, length, map, IsTrue};
ghost use Rattle.std.specs.Simd.Lanes.{Each1, zip2, chunk};
ghost use Rattle.cleaner.specs.Offered.{holed, in_parity, up_to, inverted_rank};

use std::simd::prelude::*;

/// How many groups a row has.
pub(crate) const LANES: u16 = 16;

// A row of a table of the groups.
#[inline(always)]
pub(crate) fn row_of(table: &[u16], row: u16) -> u16x16
    requires whole { length table.now ≡ 512 }
    requires low { row < 32 }
    ensures { result ≡ chunk (16 * row) 16 table.now }
{
    u16x16::from_slice(&table[usize::from(LANES * row)..])
}

// Whether no lane is above the rank.
#[inline(always)]
pub(crate) fn are_within(lanes: u16x16, rank: u16) -> bool
    ensures { IsTrue result ↔ Each1 (λ lane. lane ≤ rank) lanes }
{
    !lanes.simd_gt(u16x16::splat(rank)).any()
}

// The counts of groups that have more slots, and else 0.
#[inline(always)]
pub(crate) fn keep_holed(counts: u16x16, slots: u16x16) -> u16x16
    ensures { result ≡ zip2 holed counts slots }
{
    counts.simd_lt(slots).select(counts, u16x16::splat(0))
}

// The counts of groups that have slots, and else 0.
#[inline(always)]
pub(crate) fn keep_parity(counts: u16x16, slots: u16x16) -> u16x16
    ensures { result ≡ zip2 in_parity counts slots }
{
    // Else `slots`, because that is 0 there.
    slots.simd_gt(u16x16::splat(0)).select(counts, slots)
}

// The counts that are at most `most`, and else 0.
#[inline(always)]
pub(crate) fn keep_up_to(counts: u16x16, most: u16) -> u16x16
    ensures { result ≡ map (λ count. up_to most count) counts }
{
    counts
        .simd_le(u16x16::splat(most))
        .select(counts, u16x16::splat(0))
}

// The lower a count the higher its rank, but 0 stays 0, because the subtraction wraps.
#[inline(always)]
pub(crate) fn turn(counts: u16x16) -> u16x16
    ensures { result ≡ map inverted_rank counts }
{
    u16x16::splat(0) - counts
}
