//! Hostile use of the array and of its script: each line of standard input names a trial, and is answered by its counts.
#![tactic(auto)]

mod allocations;
mod answers;
mod case;
mod chunks;
mod edges;
mod fuses;
mod headers;
mod mutants;
mod noise;
mod payloads;
mod rows;
mod runs;
mod slots;
mod spellings;
mod steps;
mod trial;
mod trouble;
mod walk;
mod words;

use std::process::ExitCode;
use trial::answer;
use trouble::Trouble;

fn main(rt: HostRuntime) -> ExitCode {
    match answer_all(&rt) {
        Ok(()) => ExitCode::SUCCESS,
        Err(trouble) => ExitCode::from(trouble.status()),
    }
}

// Answers each line, and stops at the first trial that goes wrong.
fn answer_all(rt: &HostRuntime) -> Result<(), Trouble> {
    for line in rt.lines(rt.alloc()) {
        let line = line?;
        answer(rt, line.as_str())?;
    }
    Ok(())
}
