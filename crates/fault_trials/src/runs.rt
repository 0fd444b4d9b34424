// Runs of a world over steps, each of which must be answered as expected.
use crate::answers::are_answers;
use crate::trouble::Trouble;
use crate::words::Words;
use std::alloc::Global;
use step_core::{Run, Step, Stopped, World, run_steps};

/// Runs a world over steps that fit it.
pub(crate) fn run_once(
    alloc: Global,
    world: World,
    steps: &[Step],
) -> Result<Result<Run, Stopped>, Trouble> {
    if !steps.iter().all(|step| world.fits(step)) {
        return Err(Trouble::Input);
    }
    Ok(run_steps(alloc, world, steps))
}

/// The world after the steps. An error unless each step is answered as expected.
pub(crate) fn run(
    alloc: Global,
    world: World,
    steps: &[Step],
    expected: &[Words<'_>],
) -> Result<World, Trouble> {
    match run_once(alloc, world, steps)? {
        Ok(run) => answered(run, expected),
        Err(_) => Err(Trouble::Memory),
    }
}

/// The world of a run. An error unless its answers are the expected ones.
pub(crate) fn answered(run: Run, expected: &[Words<'_>]) -> Result<World, Trouble> {
    if are_answers(expected, &run.answers) {
        Ok(run.world)
    } else {
        Err(Trouble::Wrong)
    }
}
