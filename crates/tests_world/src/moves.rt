// Members that go onto other extents: what is refused in which order, and each drive lost at each call of a move.
use crate::asserts::check;
use crate::script::{
    Reported, Script, answers, fuse, grouped, push, push_move, push_read, push_write,
};
use std::alloc::Global;
use std::process::Abort;
use step_core::{Member, Refusal, Step, World};

/// More calls of one drive than the move below makes.
const CALLS: u64 = 12;

fn push_shift(
    rt: &impl Abort,
    script: &mut Script,
    group: u16,
    member: u8,
    to: (u8, u16),
    expected: Reported,
) {
    let (drive, extent) = to;
    let to = Member { drive, extent };
    push(rt, script, Step::MoveExtent { group, member, to }, expected);
}

fn push_lose(rt: &impl Abort, script: &mut Script, drive: u8) {
    push(rt, script, Step::Lose { drive }, Reported::Other);
}

// Block 3 is written to slot 0 and moves to slot 128, and block 6 to slot 2.
fn push_blocks(rt: &impl Abort, alloc: Global, script: &mut Script) {
    push_write(rt, alloc, script, 0, 3, 1);
    push_write(rt, alloc, script, 2, 6, 2);
    push_move(rt, script, 3, 128, 1);
}

fn push_reads(rt: &impl Abort, script: &mut Script) {
    push_read(rt, script, 3, 1);
    push_read(rt, script, 6, 2);
}

fn refused(refusal: Refusal) -> Reported {
    Reported::Refused(refusal)
}

// A move of each that is refused, and drive 3 is lost before the last one.
fn refusals(rt: &impl Abort, alloc: Global) -> Script {
    let mut script = Vec::new(alloc);
    push_blocks(rt, alloc, &mut script);
    push_shift(rt, &mut script, 2, 0, (9, 9), refused(Refusal::NoGroup));
    push_shift(rt, &mut script, 0, 3, (9, 9), refused(Refusal::NoGroup));
    push_shift(rt, &mut script, 0, 1, (4, 0), refused(Refusal::BadMember));
    push_shift(rt, &mut script, 0, 1, (3, 8), refused(Refusal::BadMember));
    push_shift(rt, &mut script, 1, 0, (2, 1), refused(Refusal::SameDrive));
    push_shift(rt, &mut script, 0, 1, (3, 1), refused(Refusal::ExtentTaken));
    push_lose(rt, &mut script, 3);
    push_shift(rt, &mut script, 0, 1, (3, 1), refused(Refusal::ExtentTaken));
    push_shift(
        rt,
        &mut script,
        0,
        1,
        (3, 2),
        refused(Refusal::DriveLost(3)),
    );
    push_reads(rt, &mut script);
    script
}

#[test]
fn a_move_is_refused_in_its_order(rt: HostRuntime) {
    let alloc = rt.alloc();
    let mut world = grouped(&rt, alloc);
    let script = refusals(&rt, alloc);
    check!(rt; answers(&rt, alloc, &mut world, &script));
}

// A member of the parity group goes onto drive 0, and all blocks are read; a second one where it was lost is refused.
fn moved(rt: &impl Abort, alloc: Global, is_refused: bool) -> Script {
    let mut script = Vec::new(alloc);
    let expected = if is_refused {
        Reported::Refused(Refusal::DriveLost(0))
    } else {
        Reported::Shifted
    };
    push_shift(rt, &mut script, 1, 0, (0, 2), expected);
    push_reads(rt, &mut script);
    script
}

fn written(rt: &impl Abort, alloc: Global) -> World {
    let mut world = grouped(rt, alloc);
    let mut script = Vec::new(alloc);
    push_blocks(rt, alloc, &mut script);
    check!(rt; answers(rt, alloc, &mut world, &script));
    world
}

// A segment has two units, and an extent two segments: the target is called four times in the move.
fn moves_with(rt: &impl Abort, alloc: Global, drive: u8, call: u64) {
    let mut world = written(rt, alloc);
    fuse(rt, &mut world, drive, call);
    let script = moved(rt, alloc, drive == 0 && call <= 4);
    check!(rt; answers(rt, alloc, &mut world, &script));
}

#[test]
fn each_drive_is_lost_at_each_call_of_a_move(rt: HostRuntime) {
    let alloc = rt.alloc();
    for drive in 0..4u8 {
        for call in 1..CALLS {
            moves_with(&rt, alloc, drive, call);
        }
    }
}

// A drive is added, a lost one's members go onto it, and then another may be lost; with two more lost slot 130, which is on
// drive 2, is the lowest that is gone: slots 128 and 129 are on drive 4.
fn rebuilt(rt: &impl Abort, alloc: Global) -> Script {
    let mut script = Vec::new(alloc);
    push_blocks(rt, alloc, &mut script);
    push_lose(rt, &mut script, 1);
    push(rt, &mut script, Step::AddDrive, Reported::Added(4));
    push_shift(rt, &mut script, 0, 1, (4, 0), Reported::Shifted);
    push_shift(rt, &mut script, 1, 0, (4, 1), Reported::Shifted);
    push_reads(rt, &mut script);
    push_lose(rt, &mut script, 2);
    push_reads(rt, &mut script);
    push_lose(rt, &mut script, 3);
    push_shift(rt, &mut script, 1, 1, (0, 7), refused(Refusal::Gone(130)));
    script
}

#[test]
fn a_lost_drive_is_rebuilt_on_a_new_one(rt: HostRuntime) {
    let alloc = rt.alloc();
    let mut world = grouped(&rt, alloc);
    let script = rebuilt(&rt, alloc);
    check!(rt; answers(&rt, alloc, &mut world, &script));
}
