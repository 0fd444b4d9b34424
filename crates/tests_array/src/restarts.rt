// An array taken apart and rebuilt: its map, its log, its claims, and what each block reads.
use crate::asserts::check;
use crate::rig::{Memory, Rig, record};
use header_scan::restart;
use std::alloc::Global;
use std::process::Abort;
use step_core::{Class, Plain, World};

/// More calls of one drive than the restart below makes.
const CALLS: u64 = 30;

/// Slots 0 to 5 are mirrored on drives 0 to 2, slots 128 to 135 have parity on drives 1 to 3. Block 3 was written at slot 0
/// and again at slot 2, block 5 at slot 1 and copied to slot 130, block 0 at slot 4.
pub(crate) fn written(rt: &impl Abort, alloc: Global) -> Rig {
    let mut rig = Rig::new(rt, alloc, 4);
    check!(rt; rig.make(rt, Class::Parity, [1, 2, 3], 1) == 1);
    check!(rt; rig.write(rt, 0, 3, 0x11) == record(3, 1, 0, 0));
    check!(rt; rig.write(rt, 1, 5, 0x22) == record(5, 1, 0, 1));
    check!(rt; rig.write(rt, 2, 3, 0x33) == record(3, 2, 0, 2));
    check!(rt; rig.carry(rt, 130, 5) == record(5, 1, 1, 130));
    check!(rt; rig.write(rt, 4, 0, 0x44) == record(0, 1, 0, 4));
    rig
}

// Whether the blocks read as `written` left them.
fn reads_as_written(rt: &impl Abort, rig: &mut Rig) -> bool {
    rig.reads(rt, 0, 1, 0x44) && rig.reads(rt, 3, 2, 0x33) && rig.reads(rt, 5, 1, 0x22)
}

// Whether the array's log is the list of the newest records that `written` left.
fn lists_newest(rig: &Rig) -> bool {
    let newest = [record(0, 1, 0, 4), record(3, 2, 0, 2), record(5, 1, 1, 130)];
    match rig.array.records_from(rig.alloc, 0) {
        Ok(log) => log.as_slice() == newest.as_slice(),
        Err(_) => false,
    }
}

// Whether the array holds the newest places that `written` left, and no other slot of its groups.
fn holds_newest(array: &Memory) -> bool {
    for slot in 0..256u16 {
        if array.is_held(slot) != (slot == 2 || slot == 4 || slot == 130) {
            return false;
        }
    }
    true
}

/// Whether the rebuilt array holds what `written` left, and no more.
pub(crate) fn is_as_written(rt: &impl Abort, rig: &mut Rig) -> bool {
    lists_newest(rig) && holds_newest(&rig.array) && reads_as_written(rt, rig)
}

// Whether the claims are of these slots, one of each.
fn are_of(claims: &[Plain], slots: &[u16]) -> bool {
    for slot in slots {
        if !claims.contains(&Plain { slot: *slot }) {
            return false;
        }
    }
    claims.len() == slots.len()
}

// Takes the array apart, which held these slots, and rebuilds it with claims of some others in addition: the array, and the
// claims that it doesn't take.
fn restarted(rt: &impl Abort, rig: Rig, held: &[u16], nearby: &[u16]) -> (Rig, Vec<Plain>) {
    let Rig { array, alloc } = rig;
    let Ok((parts, mut claims)) = array.into_parts(alloc) else {
        rt.panic("not taken apart")
    };
    check!(rt; are_of(&claims, held));
    for slot in nearby {
        check!(rt; claims.push(Plain { slot: *slot }).is_ok());
    }
    let Ok((array, others)) = restart(alloc, parts, claims) else {
        rt.panic("not made anew")
    };
    (Rig { array, alloc }, others)
}

#[test]
fn a_restart_forgets_tickets_and_old_places(rt: HostRuntime) {
    let mut rig = written(&rt, rt.alloc());
    check!(rt; rig.fill(&rt, 3, 0x55).is_ok());
    check!(rt; rig.array.is_held(3));
    rig.lose(&rt, 1);
    let (mut afresh, others) = restarted(&rt, rig, &[2, 3, 4, 130], &[0, 129]);
    check!(rt; are_of(&others, &[0, 3, 129]));
    check!(rt; afresh.array.is_lost(1) && !afresh.array.is_lost(0));
    check!(rt; afresh.array.record_count() == 3 && is_as_written(&rt, &mut afresh));
}

#[test]
fn writes_go_on_after_a_restart(rt: HostRuntime) {
    let (mut afresh, others) = restarted(&rt, written(&rt, rt.alloc()), &[2, 4, 130], &[]);
    check!(rt; others.is_empty());
    check!(rt; afresh.write(&rt, 0, 3, 0x66) == record(3, 3, 0, 0));
    check!(rt; afresh.carry(&rt, 1, 5) == record(5, 1, 2, 1));
    check!(rt; afresh.write(&rt, 2, 7, 0x77) == record(7, 1, 0, 2));
    check!(rt; afresh.array.record_count() == 6);
}

// A world of an array, whose workers' hands are empty.
fn world_of(rt: &impl Abort, alloc: Global, array: Memory) -> World {
    let Ok(world) = World::of(alloc, array) else {
        rt.panic("no world")
    };
    world
}

// The array as `written` left it, with a drive fused as a world fuses it.
fn fused(rt: &impl Abort, alloc: Global, drive: u8, call: u64) -> Rig {
    let mut world = world_of(rt, alloc, written(rt, alloc).array);
    check!(rt; drive < world.array().drive_count() && call > 0);
    world.fuse(drive, call);
    Rig {
        array: world.into_array(),
        alloc,
    }
}

// Whether a drive is lost at a call of a restart.
fn burns(rt: &impl Abort, alloc: Global, drive: u8, call: u64) -> bool {
    let rig = fused(rt, alloc, drive, call);
    let (mut afresh, others) = restarted(rt, rig, &[2, 4, 130], &[]);
    let burnt = afresh.array.is_lost(drive);
    check!(rt; others.is_empty() && is_as_written(rt, &mut afresh));
    burnt
}

// Loses the drive at its first call, at each of the next ones, and at one that never comes.
fn burns_until_its_last(rt: &impl Abort, alloc: Global, drive: u8) -> bool {
    let mut burnt = burns(rt, alloc, drive, 1);
    check!(rt; burnt);
    for call in 2..CALLS {
        burnt = burns(rt, alloc, drive, call);
    }
    !burnt
}

#[test]
fn a_restart_reports_the_same_whichever_drive_is_lost_at_whichever_call(rt: HostRuntime) {
    for drive in 0..4u8 {
        check!(rt; burns_until_its_last(&rt, rt.alloc(), drive));
    }
}
