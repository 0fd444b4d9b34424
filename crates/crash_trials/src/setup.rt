// An array that is built step by step.
use crate::difference::agree;
use crate::reported::answer_text;
use crate::steps::step_of;
use crate::trouble::Trouble;
use crate::words::{byte, verb_of};
use std::alloc::Global;
use step_core::{Array, MemDrive, Plain, Refusal, Shape, Step, World};

/// An array of drives in memory.
pub(crate) type Memory = Array<MemDrive, Plain>;

/// A step, and its expected answer.
#[derive(Drop)]
struct Answered {
    step: Step,
    answer: String,
}

/// The sizes of an array, and the steps that build it.
#[derive(Drop)]
pub(crate) struct Setup {
    pub(crate) drives: u8,
    pub(crate) shape: Shape,
    steps: Vec<Answered>,
}

/// Reads a setup: `array` and its sizes, then lines of a step and its answer with ` > ` between them. `file` is its name.
pub(crate) fn read_setup(alloc: Global, file: &str, text: &str) -> Result<Setup, Trouble> {
    let first = text.lines().next().unwrap_or("");
    let mut setup = match sizes_of(alloc, first) {
        Ok(setup) => setup,
        Err(trouble) => return Err(trouble.located(alloc, file, 1)),
    };
    let world = setup.world(alloc)?;
    read_steps(alloc, file, text, &world, &mut setup.steps)?;
    Ok(setup)
}

// Reads the lines after the first.
fn read_steps(
    alloc: Global,
    file: &str,
    text: &str,
    world: &World,
    steps: &mut Vec<Answered>,
) -> Result<(), Trouble> {
    for (at, line) in text.lines().enumerate().skip(1) {
        match step_in(alloc, world, line) {
            Ok(step) => steps.push(step)?,
            Err(trouble) => return Err(trouble.located(alloc, file, at.saturating_add(1))),
        }
    }
    Ok(())
}

// A setup of these sizes, without a step.
fn sizes_of(alloc: Global, line: &str) -> Result<Setup, Trouble> {
    let (verb, numbers) = verb_of(alloc, line)?;
    let (drives, shape) = sizes_in(verb, &numbers)?;
    Ok(Setup {
        drives,
        shape,
        steps: Vec::new(alloc),
    })
}

// How many drives a setup has, and its shape.
fn sizes_in(verb: &str, numbers: &[u32]) -> Result<(u8, Shape), Trouble> {
    let [drives, extents, segments, payload, blocks] = numbers else {
        return Err(Trouble::Form);
    };
    let drives = byte(*drives)?;
    if verb != "array" || drives < 3 || drives > 16 {
        return Err(Trouble::Form);
    }
    match Shape::new(*extents, *segments, *payload, *blocks) {
        Ok(shape) => Ok((drives, shape)),
        Err(_) => Err(Trouble::Form),
    }
}

// Tests that an answer has the form of one.
fn test_form(alloc: Global, answer: &str) -> Result<(), Trouble> {
    let _form = verb_of(alloc, answer)?;
    Ok(())
}

// The step of a line with its answer, which a world of the setup's sizes has to fit. `fits` is tested while lines are read, so
// that a wrong one is named.
fn step_in(alloc: Global, world: &World, line: &str) -> Result<Answered, Trouble> {
    let Some((asked, answer)) = line.split_once(" > ") else {
        return Err(Trouble::Form);
    };
    test_form(alloc, answer)?;
    let step = step_of(alloc, asked, world.array().shape().payload)?;
    if !world.fits(&step) {
        return Err(Trouble::Form);
    }
    Ok(Answered {
        step,
        answer: String::from_str(alloc, answer)?,
    })
}

// The result of a call that is refused only if out of memory, or that error.
fn unless_refused<T: Drop>(made: Result<T, Refusal>) -> Result<T, Trouble> {
    made.ok().ok_or(Trouble::Memory)
}

impl Setup {
    // A new world of these sizes.
    fn world(&self, alloc: Global) -> Result<World, Trouble> {
        if self.drives < 3 || self.drives > 16 {
            return Err(Trouble::Form);
        }
        unless_refused(World::new(alloc, self.shape, self.drives))
    }

    /// The array after the steps, with what waits in its slots. Returns an error unless each step is answered as expected.
    /// Each row builds its own, because a stop takes the array apart.
    pub(crate) fn built(&self, alloc: Global) -> Result<Memory, Trouble> {
        let mut world = self.world(alloc)?;
        match take_steps(alloc, &mut world, &self.steps) {
            Ok(()) => Ok(world.into_array()),
            Err(trouble) => Err(trouble),
        }
    }
}

// Takes the steps. Returns an error unless each is answered as expected.
fn take_steps(alloc: Global, world: &mut World, steps: &[Answered]) -> Result<(), Trouble> {
    for answered in steps {
        take_step(alloc, world, answered)?;
    }
    Ok(())
}

fn take_step(alloc: Global, world: &mut World, answered: &Answered) -> Result<(), Trouble> {
    if !world.fits(&answered.step) {
        return Err(Trouble::Form);
    }
    let reported = world.step(alloc, &answered.step)?;
    let found = answer_text(alloc, &reported)?;
    agree(alloc, "setup", answered.answer.as_str(), found.as_str())
}
