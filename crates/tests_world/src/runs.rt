// Runs of many steps: no count of them, and no length of the log, ends one.
use crate::asserts::check;
use crate::script::{is_lost, list_on, new_world, payload_of, records_from};
use std::alloc::Global;
use std::process::Abort;
use step_core::{Answer, Class, Run, Step, World, run_steps};

/// More commits than a log of 4,096 records takes.
const WRITES: u16 = 4_200;

fn push(rt: &impl Abort, steps: &mut Vec<Step>, step: Step) {
    check!(rt; steps.push(step).is_ok());
}

// A group is made.
fn push_make(rt: &impl Abort, alloc: Global, steps: &mut Vec<Step>) {
    let members = list_on(rt, alloc, [0, 1, 2], 0);
    let class = Class::Mirrored;
    push(rt, steps, Step::Make { class, members });
}

// A write of block 3 through a slot, and the release of the other slot, where the block was before.
fn push_write(rt: &impl Abort, alloc: Global, steps: &mut Vec<Step>, slot: u16) {
    let worker = 0;
    push(rt, steps, Step::Claim { worker, slot });
    let payload = payload_of(rt, alloc, 0x11);
    let fill = Step::Fill {
        worker,
        slot,
        payload,
    };
    push(rt, steps, fill);
    let block = 3;
    let commit = Step::Commit {
        worker,
        slot,
        block,
    };
    push(rt, steps, commit);
    let slot = 1 - slot % 2;
    push(rt, steps, Step::Release { worker, slot });
}

fn writes(rt: &impl Abort, alloc: Global) -> Vec<Step> {
    let mut steps = Vec::new(alloc);
    push_make(rt, alloc, &mut steps);
    for write in 0..WRITES {
        push_write(rt, alloc, &mut steps, write % 2);
    }
    steps
}

// Runs a world over steps to their end.
fn run(rt: &impl Abort, alloc: Global, world: World, steps: &[Step]) -> Run {
    check!(rt; steps.iter().all(|step| world.fits(step)));
    let Ok(run) = run_steps(alloc, world, steps) else {
        rt.panic("stopped")
    };
    run
}

#[test]
fn thousands_of_steps_run_to_their_end(rt: HostRuntime) {
    let alloc = rt.alloc();
    let steps = writes(&rt, alloc);
    let run = run(&rt, alloc, new_world(&rt, alloc), &steps);
    check!(rt; run.answers.len() == steps.len());
    check!(rt; records_from(&rt, alloc, &run.world, 0).len() == usize::from(WRITES));
    check!(rt; matches!(run.answers.last(), Some(Answer::Released(0))));
    for drive in 0..4u8 {
        check!(rt; !is_lost(&run.world, drive));
    }
}
