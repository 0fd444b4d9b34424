// Where nothing can be plugged, the emptiest group is cleaned; a group without live slots is empty.
ghost use Rattle.std.specs.Prelude.{◌↔◌, ◌<◌, IsTrue, None};
ghost use Rattle.cleaner.specs.Counts.{AreLiveCounts};
ghost use Rattle.cleaner.specs.Plans.{IsPlugPlan, IsCleanPlan, IsReclaimable, IsEmptyGroup};

use crate::choice::greatest;
use crate::counts::{counts_of, live_of};
use crate::ranks::Emptiest;
use crate::slots::lowest_live;
use crate::{Move, plug_plan_counted};
use extent_groups::{GROUPS, GroupTable, SLOTS};
use map_join::Live;

/// The move of a block to `append`, where the log goes on, out of the emptiest parity group with a live slot and a hole, the
/// write group aside. None if something can be plugged, there is no such group, or `append` is none or in that group.
pub fn clean_plan<L: Live>(
    groups: &GroupTable,
    live: &L,
    write: Option<u16>,
    append: Option<u16>,
) -> Option<Move>
    ensures { IsCleanPlan groups.now (L.keys live.now) write append result }
{
    clean_plan_counted(groups, live, &counts_of(groups, live), write, append)
}

/// The plan of `clean_plan`. `counts` has each parity group's number of live slots, so only the slots of the chosen groups are
/// read.
pub fn clean_plan_counted<L: Live>(
    groups: &GroupTable,
    live: &L,
    counts: &[u16; GROUPS],
    write: Option<u16>,
    append: Option<u16>,
) -> Option<Move>
    requires { AreLiveCounts groups.now (L.keys live.now) counts.now }
    ensures { IsCleanPlan groups.now (L.keys live.now) write append result }
{
    match plug_plan_counted(groups, live, counts, write) {
        Some(_) => None,
        None => clean_plan_unplugged(groups, live, counts, write, append),
    }
}

/// The plan of `clean_plan`, for a caller that has found that nothing can be plugged. `counts` has each parity group's number
/// of live slots.
pub fn clean_plan_unplugged<L: Live>(
    groups: &GroupTable,
    live: &L,
    counts: &[u16; GROUPS],
    write: Option<u16>,
    append: Option<u16>,
) -> Option<Move>
    requires counts { AreLiveCounts groups.now (L.keys live.now) counts.now }
    requires no_plug { IsPlugPlan groups.now (L.keys live.now) write None }
    ensures { IsCleanPlan groups.now (L.keys live.now) write append result }
{
    let slots = groups.parity_slots();
    let Some(cleaned) = greatest(&Emptiest { slots, counts }, write) else {
        return None;
    };
    let Some(to) = append else {
        return None;
    };
    // A move within the group would empty nothing, so it is no plan.
    if to / SLOTS == cleaned.group {
        return None;
    }
    let Some((from, block)) = lowest_live(groups, live, cleaned.group) else {
        return None;
    };
    Some(Move { block, from, to })
}

/// The lowest parity group without live slots that isn't the write group.
pub fn empty_group<L: Live>(groups: &GroupTable, live: &L, write: Option<u16>) -> Option<u16>
    ensures { IsEmptyGroup groups.now (L.keys live.now) write result }
{
    // Nothing is read: by this call's clause the table has 512 numbers, so that the walk sees all groups.
    let _members = groups.members(0);
    for group in 0..GROUPS as u16 {
        if is_empty(groups, live, write, group) {
            return Some(group);
        }
    }
    None
}

// Whether the group is a parity group without live slots, and not the write group.
fn is_empty<L: Live>(groups: &GroupTable, live: &L, write: Option<u16>, group: u16) -> bool
    requires { group < 512 }
    ensures { IsTrue result ↔ IsReclaimable groups.now (L.keys live.now) write group }
{
    if write == Some(group) {
        return false;
    }
    match live_of(groups, live, group) {
        Some(count) => count == 0,
        None => false,
    }
}
