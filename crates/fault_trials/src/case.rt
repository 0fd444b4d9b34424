// A file of steps with their answers.
use crate::steps::step;
use crate::trouble::Trouble;
use crate::words::{Words, byte, words_of};
use std::alloc::Global;
use step_core::{Shape, Step, World};

/// Steps, each with its expected answer.
#[derive(Drop)]
pub(crate) struct Part<'a> {
    pub(crate) steps: Vec<Step>,
    pub(crate) expected: Vec<Words<'a>>,
}

/// The steps before the line at which a trial begins, and those after it.
#[derive(Drop)]
pub(crate) struct Case<'a> {
    /// Drives, extents of each, segments, bytes of a payload, and blocks.
    sizes: Words<'a>,
    pub(crate) before: Part<'a>,
    pub(crate) following: Part<'a>,
}

/// Reads a file: `array` and its sizes, then lines of a step and its answer with ` > ` between them, and maybe between
/// those lines a line `--`, at which the trial begins.
pub(crate) fn read_case(alloc: Global, text: &str) -> Result<Case<'_>, Trouble> {
    let (sizes, lines) = text.split_once('\n').ok_or(Trouble::Input)?;
    let (before, following) = lines.split_once("--\n").unwrap_or(("", lines));
    Ok(Case {
        sizes: words_of(sizes)?,
        before: steps_of(alloc, before, '\n')?,
        following: steps_of(alloc, following, '\n')?,
    })
}

/// The steps of a text, each with its answer, separated by this character. Empty pieces are skipped.
pub(crate) fn steps_of(alloc: Global, text: &str, end: char) -> Result<Part<'_>, Trouble> {
    let mut part = Part {
        steps: Vec::new(alloc),
        expected: Vec::new(alloc),
    };
    for line in text.split(end) {
        if line != "" {
            push(alloc, &mut part, line)?;
        }
    }
    Ok(part)
}

fn push<'a>(alloc: Global, part: &mut Part<'a>, line: &'a str) -> Result<(), Trouble> {
    let (asked, expected) = line.split_once(" > ").ok_or(Trouble::Input)?;
    part.steps.push(step(alloc, &words_of(asked)?)?)?;
    part.expected.push(words_of(expected)?)?;
    Ok(())
}

impl Case<'_> {
    /// A new world of the case's sizes.
    pub(crate) fn world(&self, alloc: Global) -> Result<World, Trouble> {
        let [drives, extents, segments, payload, blocks, _, _, _] = self.sizes.numbers;
        let drives = byte(drives)?;
        if drives < 3 || drives > 16 {
            return Err(Trouble::Input);
        }
        let Ok(shape) = Shape::new(extents, segments, payload, blocks) else {
            return Err(Trouble::Input);
        };
        World::new(alloc, shape, drives).ok().ok_or(Trouble::Memory)
    }
}
