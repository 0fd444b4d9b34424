//! Carries out tables of stops inside a step, row by row. Without a folder it prints what a restart finds after stops in
//! one step.
#![tactic(auto)]

mod cells;
mod copies;
mod difference;
mod folder;
mod intents;
mod note_rows;
mod payloads;
mod plan_rows;
mod reported;
mod seen;
mod setup;
mod steps;
mod stop_rows;
mod stopped;
mod story;
mod table;
mod trouble;
mod words;

use folder::run_folder;
use std::process::ExitCode;
use std::{env, io};
use story::report_story;
use trouble::Trouble;

fn main(rt: HostRuntime) -> ExitCode {
    let status = match carry_out(&rt) {
        Ok(true) => 0,
        Ok(false) => 1,
        Err(trouble) => {
            // Nothing is left to do where standard error can't be written.
            let _ = trouble.report(&rt);
            trouble.status()
        }
    };
    ExitCode::from(status)
}

// Does what the command line asks for; false where a row doesn't agree.
fn carry_out(rt: &HostRuntime) -> Result<bool, Trouble> {
    let words = words_of(rt)?;
    match words.as_slice() {
        [] => {
            report_story(rt)?;
            Ok(true)
        }
        [folder] if !folder.as_str().starts_with("-") && folder.as_str() != "" => {
            run_folder(rt, folder.as_str())
        }
        _ => Err(Trouble::Words),
    }
}

// The words of the command line after the program's name.
fn words_of(rt: &HostRuntime) -> Result<Vec<String>, Trouble> {
    match args_of(rt) {
        Ok(words) => Ok(words),
        Err(error) => match error.kind() {
            io::ErrorKind::OutOfMemory => Err(Trouble::Memory),
            _ => Err(Trouble::Words),
        },
    }
}

fn args_of(rt: &HostRuntime) -> io::Result<Vec<String>> {
    let mut words = Vec::new(rt.alloc());
    for word in env::args(rt)?.skip(1) {
        words.push(word)?;
    }
    Ok(words)
}
