// A hole of the fullest group is plugged from the emptiest.
ghost use Rattle.cleaner.specs.Counts.{AreLiveCounts};
ghost use Rattle.cleaner.specs.Plans.{IsPlugPlan};

use crate::Move;
use crate::choice::greatest;
use crate::counts::counts_of;
use crate::ranks::{Fullest, Sources};
use crate::slots::{lowest_hole, lowest_live};
use extent_groups::{GROUPS, GroupTable};
use map_join::Live;

/// The move that plugs the lowest hole of the fullest parity group with a live slot and a hole, the write group aside, from the
/// emptiest other parity group with a live slot. None if there is no such group, or no other that is as empty or emptier.
pub fn plug_plan<L: Live>(groups: &GroupTable, live: &L, write: Option<u16>) -> Option<Move>
    ensures { IsPlugPlan groups.now (L.keys live.now) write result }
{
    plug_plan_counted(groups, live, &counts_of(groups, live), write)
}

/// The plan of `plug_plan`. `counts` has each parity group's number of live slots, so only the slots of the two chosen groups
/// are read.
pub fn plug_plan_counted<L: Live>(
    groups: &GroupTable,
    live: &L,
    counts: &[u16; GROUPS],
    write: Option<u16>,
) -> Option<Move>
    requires { AreLiveCounts groups.now (L.keys live.now) counts.now }
    ensures { IsPlugPlan groups.now (L.keys live.now) write result }
{
    let slots = groups.parity_slots();
    let Some(target) = greatest(&Fullest { slots, counts }, write) else {
        return None;
    };
    // A source has no more live slots than the target, so that blocks gather in the fuller group.
    let most = target.rank;
    let sources = Sources {
        slots,
        counts,
        most,
    };
    let Some(source) = greatest(&sources, Some(target.group)) else {
        return None;
    };
    let Some((from, block)) = lowest_live(groups, live, source.group) else {
        return None;
    };
    let Some(to) = lowest_hole(groups, live, target.group) else {
        return None;
    };
    Some(Move { block, from, to })
}
