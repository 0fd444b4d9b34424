// What workers have in hand, where a world is made of an array that another world had.
use crate::asserts::check;
use crate::script::{Reported, Script, answers, grouped, push, push_fill};
use std::alloc::Global;
use std::process::Abort;
use step_core::{Refusal, Step, World};

// The array of this world, in a new world.
fn afresh(rt: &impl Abort, alloc: Global, world: World) -> World {
    let Ok(world) = World::of(alloc, world.into_array()) else {
        rt.panic("no world")
    };
    world
}

fn push_claim(rt: &impl Abort, script: &mut Script, worker: u8, slot: u16, expected: Reported) {
    push(rt, script, Step::Claim { worker, slot }, expected);
}

// Worker 6 claims slot 5, and fills slot 3.
fn before(rt: &impl Abort, alloc: Global) -> Script {
    let mut script = Vec::new(alloc);
    push_claim(rt, &mut script, 6, 5, Reported::Claimed(5));
    push_fill(rt, alloc, &mut script, 6, 3, 0x55);
    script
}

// What worker 6 had in hand isn't held then, but what it filled is.
fn following(rt: &impl Abort, alloc: Global) -> Script {
    let mut script = Vec::new(alloc);
    let release = Step::Release { worker: 6, slot: 5 };
    push(rt, &mut script, release, Reported::NotHeld(5));
    let discard = Step::Discard { worker: 6, slot: 3 };
    push(
        rt,
        &mut script,
        discard,
        Reported::Refused(Refusal::NoTicket),
    );
    push_claim(rt, &mut script, 1, 5, Reported::Claimed(5));
    push_claim(rt, &mut script, 1, 3, Reported::Taken(3));
    script
}

#[test]
fn a_world_of_an_array_has_empty_hands(rt: HostRuntime) {
    let alloc = rt.alloc();
    let mut world = grouped(&rt, alloc);
    check!(rt; answers(&rt, alloc, &mut world, &before(&rt, alloc)));
    let mut world = afresh(&rt, alloc, world);
    check!(rt; answers(&rt, alloc, &mut world, &following(&rt, alloc)));
}
