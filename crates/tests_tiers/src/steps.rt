// The twelve steps that need no action from outside, over drives of any kind. The answers are those of another program to the same
// commands of a script; those of `Trim` and `MoveExtent`, for which a script has no command, are what the rules of these steps say.
use crate::asserts::check;
use crate::rig::is_record;
use extents::Drive;
use map_join::Record;
use std::alloc::Global;
use std::process::Abort;
use step_core::{Answer, At, Class, Member, Step, World, run_fixed};

/// Adds a step to a list.
pub(crate) fn push(rt: &impl Abort, steps: &mut Vec<Step>, step: Step) {
    let pushed = steps.push(step).is_ok();
    check!(rt; pushed);
}

/// Makes a group on these drives, on the same extent of each.
pub(crate) fn make(
    rt: &impl Abort,
    alloc: Global,
    steps: &mut Vec<Step>,
    class: Class,
    drives: [u8; 3],
    extent: u16,
) {
    let Ok(members) = Vec::from_array(alloc, drives.map(|drive| Member { drive, extent })) else {
        rt.panic("no memory")
    };
    push(rt, steps, Step::Make { class, members });
}

/// A worker claims a slot and fills it.
pub(crate) fn fill(
    rt: &impl Abort,
    alloc: Global,
    steps: &mut Vec<Step>,
    worker: u8,
    slot: u16,
    payload: [u8; 8],
) {
    push(rt, steps, Step::Claim { worker, slot });
    let Ok(payload) = Vec::from_array(alloc, payload) else {
        rt.panic("no memory")
    };
    push(
        rt,
        steps,
        Step::Fill {
            worker,
            slot,
            payload,
        },
    );
}

const PAYLOAD: [u8; 8] = [9, 1, 2, 3, 4, 5, 6, 7];

// The record of block 3 after it was written once and moved once.
const MOVED: Record = Record {
    block: 3,
    version: 1,
    hop: 1,
    place: 128,
};

// Block 3 is written, and copied to a parity group.
fn write_and_copy(rt: &impl Abort, alloc: Global, steps: &mut Vec<Step>) {
    make(rt, alloc, steps, Class::Mirrored, [0, 1, 2], 0);
    make(rt, alloc, steps, Class::Parity, [1, 2, 3], 1);
    fill(rt, alloc, steps, 2, 4, PAYLOAD);
    let (worker, block) = (2, 3);
    push(
        rt,
        steps,
        Step::Commit {
            worker,
            slot: 4,
            block,
        },
    );
    let (worker, slot) = (5, 128);
    push(rt, steps, Step::Claim { worker, slot });
    push(
        rt,
        steps,
        Step::Copy {
            worker,
            slot,
            block,
        },
    );
    push(
        rt,
        steps,
        Step::Commit {
            worker,
            slot,
            block,
        },
    );
}

fn is_written_and_copied(answers: &[Answer]) -> bool {
    let [
        Answer::Made(0),
        Answer::Made(1),
        Answer::Claimed(4),
        Answer::Filled(4),
        Answer::Committed(written),
        Answer::Claimed(128),
        Answer::Copied(128),
        Answer::Committed(copied),
    ] = answers
    else {
        return false;
    };
    is_record(*written, 3, 1, 0, 4) && *copied == MOVED
}

// Block 5 is trimmed, and a copy of block 3 is given up.
fn trim_and_discard(rt: &impl Abort, steps: &mut Vec<Step>) {
    let (worker, slot) = (2, 0);
    push(rt, steps, Step::Claim { worker, slot });
    push(rt, steps, Step::Trim { worker, slot });
    push(
        rt,
        steps,
        Step::Commit {
            worker,
            slot,
            block: 5,
        },
    );
    let (worker, slot) = (1, 1);
    push(rt, steps, Step::Claim { worker, slot });
    push(
        rt,
        steps,
        Step::Copy {
            worker,
            slot,
            block: 3,
        },
    );
    push(rt, steps, Step::Discard { worker, slot });
    push(rt, steps, Step::Release { worker, slot });
}

fn is_trimmed_and_discarded(answers: &[Answer]) -> bool {
    let [
        Answer::Claimed(0),
        Answer::Filled(0),
        Answer::Committed(trimmed),
        Answer::Claimed(1),
        Answer::Copied(1),
        Answer::Discarded(1),
        Answer::Released(1),
    ] = answers
    else {
        return false;
    };
    is_record(*trimmed, 5, 1, 0, 0)
}

// The parity group's first member moves to a drive that has none of it; a group that worker 7 holds is unmade.
fn regroup(rt: &impl Abort, alloc: Global, steps: &mut Vec<Step>) {
    push(
        rt,
        steps,
        Step::MoveExtent {
            group: 1,
            member: 0,
            to: Member {
                drive: 0,
                extent: 1,
            },
        },
    );
    make(rt, alloc, steps, Class::Mirrored, [0, 1, 3], 2);
    let worker = 7;
    for slot in 256..262 {
        push(rt, steps, Step::Claim { worker, slot });
    }
    push(rt, steps, Step::Unmake { worker, group: 2 });
}

fn is_regrouped(answers: &[Answer]) -> bool {
    matches!(
        answers,
        [
            Answer::Shifted,
            Answer::Made(2),
            Answer::Claimed(256),
            Answer::Claimed(257),
            Answer::Claimed(258),
            Answer::Claimed(259),
            Answer::Claimed(260),
            Answer::Claimed(261),
            Answer::Unmade(2)
        ]
    )
}

fn read(rt: &impl Abort, steps: &mut Vec<Step>) {
    push(rt, steps, Step::Read { block: 3 });
    push(rt, steps, Step::Read { block: 5 });
    push(rt, steps, Step::ReadAt { record: MOVED });
}

fn are_read(answers: &[Answer]) -> bool {
    match answers {
        [
            Answer::Read(Some((1, read))),
            Answer::Read(None),
            Answer::Found(At::Data(found)),
        ] => read[..] == PAYLOAD[..] && found[..] == PAYLOAD[..],
        _ => false,
    }
}

/// Runs all twelve over a world without groups.
pub(crate) fn run_all<D: Drive + Drop>(rt: &impl Abort, alloc: Global, world: World<D>) {
    let mut steps = Vec::new(alloc);
    write_and_copy(rt, alloc, &mut steps);
    trim_and_discard(rt, &mut steps);
    regroup(rt, alloc, &mut steps);
    read(rt, &mut steps);
    check!(rt; steps.iter().all(|step| world.fits(step)));
    check!(rt; steps.iter().all(|step| step.swaps_no_drive()));
    let Ok(run) = run_fixed(alloc, world, &steps) else {
        rt.panic("stopped")
    };
    are_as_expected(rt, &run.answers);
}

fn are_as_expected(rt: &impl Abort, answers: &[Answer]) {
    check!(rt; answers.len() == 27);
    check!(rt; is_written_and_copied(&answers[..8]));
    check!(rt; is_trimmed_and_discarded(&answers[8..15]));
    check!(rt; is_regrouped(&answers[15..24]));
    check!(rt; are_read(&answers[24..]));
}
