// Rebalancing the drives' loads.
ghost use Rattle.std.specs.Prelude.{◌≡◌, ℕ, ◌↔◌, ◌+◌, ◌*◌, ◌<◌, ◌≤◌, IsTrue, IfSome, IfNone};
ghost use Rattle.extents.specs.Owners.{Owners};
ghost use Rattle.extent_groups.specs.Groups.{Agree, IsMove};
ghost use Rattle.rebalancer.specs.Balancing.{IsBalance, MayGive, PairBefore, Evens};
ghost use Rattle.rebalancer.specs.Choosing.{AreDrivesInRange, Beats, MayBeChoice, IsBestOf};

use crate::Shift;
use crate::drives::is_present;
use crate::groups::{Carrier, first_to_give};
use extent_groups::{GroupTable, Member};
use extents::{DRIVES, ExtentTable};

/// Two drives, of which the one may give an extent to the other.
#[derive(Clone, Copy)]
struct Pair {
    from: u8,
    to: u8,
}

/// A pair of drives, and the lowest group with a member that can move from the one to the other.
#[derive(Clone, Copy)]
struct Choice {
    pair: Pair,
    carrier: Carrier,
}

/// The next extent to move to rebalance the loads; a drive's load is its number of extents in groups. A pair of present drives
/// is allowed if their loads differ by at least two, a group is on the fuller drive and not on the other, and the other has a
/// free extent. Of the allowed pairs: from the greatest load to the least; of equals the lowest drive, and the lowest group.
/// None where no pair is allowed.
pub fn balance_plan(
    extents: &ExtentTable,
    groups: &GroupTable,
    lost: &[bool; DRIVES],
) -> Option<Shift>
    ensures plan { IsBalance extents.now groups.now lost.now result }
    ensures evens { Agree groups.now extents.now → IfSome result (Evens groups.now extents.now) }
{
    let choice = best_choice(extents, groups, lost)?;
    let extent = extents.lowest_free(choice.pair.to)?;
    Some(Shift {
        group: choice.carrier.group,
        member: choice.carrier.member,
        to: Member {
            drive: choice.pair.to,
            extent,
        },
    })
}

// The best choice of all pairs.
fn best_choice(extents: &ExtentTable, groups: &GroupTable, lost: &[bool; DRIVES]) -> Option<Choice>
    ensures choice { MayBeChoice extents.now groups.now lost.now result }
    ensures best { IsBestOf extents.now groups.now lost.now 256 result }
{
    let mut best = None;
    for from in 0..DRIVES as u8 {
        for to in 0..DRIVES as u8 {
            best = better(extents, groups, lost, best, Pair { from, to });
        }
    }
    best
}

// The best choice so far, or that of the next pair where it comes before.
fn better(
    extents: &ExtentTable,
    groups: &GroupTable,
    lost: &[bool; DRIVES],
    best: Option<Choice>,
    pair: Pair,
) -> Option<Choice>
    requires from { pair.from < 16 }
    requires to { pair.to < 16 }
    requires choice { MayBeChoice extents.now groups.now lost.now best }
    ensures choice { MayBeChoice extents.now groups.now lost.now result }
    ensures best { IsBestOf extents.now groups.now lost.now (16 * pair.from + pair.to) best
        → IsBestOf extents.now groups.now lost.now (16 * pair.from + pair.to + 1) result }
{
    // The search for a group is last, because it walks all of them.
    if !may_give(extents, lost, pair) || !beats(extents, pair, best) {
        return best;
    }
    match first_to_give(groups, pair.from, pair.to) {
        Some(carrier) => Some(Choice { pair, carrier }),
        None => best,
    }
}

// Whether the first drive may give an extent to the second.
fn may_give(extents: &ExtentTable, lost: &[bool; DRIVES], pair: Pair) -> bool
    requires from { pair.from < 16 }
    requires to { pair.to < 16 }
    ensures { IsTrue result ↔ MayGive extents.now lost.now pair.from pair.to }
{
    if !is_present(extents, lost, pair.from) || !is_present(extents, lost, pair.to) {
        return false;
    }
    let (gives, takes) = (extents.load(pair.from), extents.load(pair.to));
    // By two at least, because a move at a difference of one would only exchange the loads.
    gives.saturating_sub(takes) >= 2 && extents.lowest_free(pair.to).is_some()
}

// Whether the pair comes before that of the best choice so far, if there is one.
fn beats(extents: &ExtentTable, pair: Pair, best: Option<Choice>) -> bool
    requires there { AreDrivesInRange extents.now pair }
    requires others { IfSome best (λ choice. AreDrivesInRange extents.now choice.pair) }
    ensures { IsTrue result ↔ Beats extents.now pair best }
{
    match best {
        Some(choice) => comes_before(extents, pair, choice.pair),
        None => true,
    }
}

// Whether the pair comes before the other.
fn comes_before(extents: &ExtentTable, pair: Pair, other: Pair) -> bool
    requires there { AreDrivesInRange extents.now pair }
    requires others { AreDrivesInRange extents.now other }
    ensures { IsTrue result ↔ PairBefore extents.now pair.from pair.to other.from other.to }
{
    let (given, gives) = (extents.load(pair.from), extents.load(other.from));
    if given != gives {
        return given > gives;
    }
    let (taken, takes) = (extents.load(pair.to), extents.load(other.to));
    if taken != takes {
        return taken < takes;
    }
    if pair.from != other.from {
        return pair.from < other.from;
    }
    pair.to < other.to
}
