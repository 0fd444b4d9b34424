// Every drive lost at every call of a run, a second one after it, and what is answered then.
use crate::asserts::check;
use crate::script::{
    Reported, Script, answers, fuse, grouped, is_lost, list_on, lose, push, push_fill, push_move,
    push_read, push_write, record_of,
};
use std::alloc::Global;
use std::process::Abort;
use step_core::{Class, Refusal, Step, World};

/// More calls of one drive than the run below makes.
const CALLS: u64 = 80;

// The drives other than this one.
fn others(drive: u8) -> [u8; 3] {
    match drive {
        0 => [1, 2, 3],
        1 => [0, 2, 3],
        2 => [0, 1, 3],
        _ => [0, 1, 2],
    }
}

// A group is made on the drives other than this one.
fn push_make(rt: &impl Abort, alloc: Global, script: &mut Script, drive: u8) {
    let members = list_on(rt, alloc, others(drive), 2);
    let class = Class::Parity;
    push(rt, script, Step::Make { class, members }, Reported::Made(2));
}

// Blocks 3, 4 and 6 are written, and a payload is given up.
fn push_writes(rt: &impl Abort, alloc: Global, script: &mut Script) {
    push_write(rt, alloc, script, 0, 3, 1);
    push_write(rt, alloc, script, 1, 4, 2);
    push_write(rt, alloc, script, 2, 6, 3);
    push_fill(rt, alloc, script, 2, 5, 9);
    let discard = Step::Discard { worker: 2, slot: 5 };
    push(rt, script, discard, Reported::Discarded(5));
}

// A place of a block is read.
fn push_read_at(rt: &impl Abort, script: &mut Script, block: u32, hop: u16, place: u16, byte: u8) {
    let record = record_of(block, hop, place);
    push(
        rt,
        script,
        Step::ReadAt { record },
        Reported::Data(Some(byte)),
    );
}

// Blocks 3, 4 and 6 are written, a payload is given up, a group is made without a drive, blocks 3 and 4 move, and
// the places of blocks 3 and 6 are read, and the first place of block 3.
fn run_without(rt: &impl Abort, alloc: Global, drive: u8) -> Script {
    let mut script = Vec::new(alloc);
    push_writes(rt, alloc, &mut script);
    push_make(rt, alloc, &mut script, drive);
    push_move(rt, &mut script, 3, 128, 1);
    push_move(rt, &mut script, 4, 131, 2);
    push_read_at(rt, &mut script, 3, 1, 128, 1);
    push_read_at(rt, &mut script, 3, 0, 0, 1);
    push_read_at(rt, &mut script, 6, 0, 2, 3);
    script
}

// A block is read, or its slot is gone.
fn push_look(rt: &impl Abort, script: &mut Script, block: u32, slot: u16, byte: u8, is_gone: bool) {
    if is_gone {
        let gone = Reported::Refused(Refusal::Gone(slot));
        push(rt, script, Step::Read { block }, gone);
    } else {
        push_read(rt, script, block, byte);
    }
}

// The reads of all blocks once two drives are lost. Blocks 3 and 4 lie on drives 1 and 2 of a parity group on
// drives 1 to 3, block 6 on drives 2 and 0.
fn reads_without(rt: &impl Abort, alloc: Global, one: u8, other: u8) -> Script {
    let no_0 = one == 0 || other == 0;
    let no_1 = one == 1 || other == 1;
    let no_2 = one == 2 || other == 2;
    let mut script = Vec::new(alloc);
    push_look(rt, &mut script, 3, 128, 1, no_1 & !no_0);
    push_look(rt, &mut script, 4, 131, 2, no_2 & !no_0);
    push_look(rt, &mut script, 6, 2, 3, no_2 & no_0);
    script
}

// Carries out the run with the drive failing at its `call`-th read or write.
fn run(rt: &impl Abort, alloc: Global, world: &mut World, drive: u8, call: u64) {
    fuse(rt, world, drive, call);
    let script = run_without(rt, alloc, drive);
    check!(rt; answers(rt, alloc, world, &script));
}

// Loses two drives, and reads all blocks.
fn lose_two(rt: &impl Abort, alloc: Global, world: &mut World, one: u8, other: u8) {
    lose(world, one);
    lose(world, other);
    let script = reads_without(rt, alloc, one, other);
    check!(rt; answers(rt, alloc, world, &script));
}

// Whether the drive is lost at a call of the run. The number of the call decides which drive is lost after it.
fn burns(rt: &impl Abort, alloc: Global, drive: u8, call: u64) -> bool {
    check!(rt; drive < 4);
    let mut world = grouped(rt, alloc);
    run(rt, alloc, &mut world, drive, call);
    let burnt = is_lost(&world, drive);
    let other = (drive + 1 + (call % 3) as u8) % 4;
    lose_two(rt, alloc, &mut world, drive, other);
    burnt
}

// Loses the drive at its first call, at each of the next ones, and at one that never comes.
fn burns_until_its_last(rt: &impl Abort, alloc: Global, drive: u8) -> bool {
    let mut burnt = burns(rt, alloc, drive, 1);
    check!(rt; burnt);
    for call in 2..CALLS {
        burnt = burns(rt, alloc, drive, call);
    }
    !burnt
}

#[test]
fn a_run_answers_alike_whichever_drive_is_lost_at_whichever_call(rt: HostRuntime) {
    for drive in 0..4u8 {
        check!(rt; burns_until_its_last(&rt, rt.alloc(), drive));
    }
}
