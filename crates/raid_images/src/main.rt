//! Keeps an array's drives as images in files, and recovers blocks, map and picture from them.
#![tactic(auto)]

mod blame;
mod choice;
mod digest;
mod drives;
mod explain;
mod names;
mod plan;
mod recover;
mod salvage;
mod save;
mod slots;
mod store;
mod table;
mod tasks;
mod trouble;
mod witness;
mod words;

use clap::ArgMatches;
use std::process::ExitCode;
use std::{env, io};
use trouble::Trouble;
use words::{Files, files_of, matches_of};

/// The status of a wrong command line.
const WRONG_WORDS: u8 = 2;

fn main(rt: HostRuntime) -> ExitCode {
    let words = match words_of(&rt) {
        Ok(words) => words,
        Err(trouble) => return ended(&rt, Err(trouble), None),
    };
    match matches_of(rt.alloc(), &words) {
        Ok(matches) => run(&rt, &matches),
        Err(error) => refused(&rt, &error),
    }
}

// Prints what clap says of the words, and ends with its status.
fn refused(rt: &HostRuntime, error: &clap::Error) -> ExitCode {
    if error.kind() == clap::error::ErrorKind::OutOfMemory {
        return ended(rt, Err(Trouble::Memory), None);
    }
    // Nothing is left to do where the text can't be written.
    let _ = error.print(rt);
    ExitCode::from(if error.use_stderr() { WRONG_WORDS } else { 0 })
}

// Ends with a status, or says what is wrong and ends with its status.
fn ended(rt: &HostRuntime, done: Result<u8, Trouble>, files: Option<Files<'_, '_>>) -> ExitCode {
    match done {
        Ok(status) => ExitCode::from(status),
        Err(trouble) => {
            // Nothing is left to do where standard error can't be written.
            let _ = trouble.report(rt, files);
            ExitCode::from(trouble.status())
        }
    }
}

// Does what the words ask for. clap lets no other words through.
fn run<'w>(rt: &HostRuntime, matches: &ArgMatches<'w>) -> ExitCode {
    let Some((verb, given)) = matches.subcommand() else {
        return ExitCode::from(WRONG_WORDS);
    };
    let Some(files) = files_of(given) else {
        return ended(rt, explain::explain(rt), None);
    };
    let done = match verb {
        "save" => save::save(rt, files),
        "check" => tasks::check(rt, files),
        "map" => tasks::map(rt, files),
        "salvage" => salvage::salvage(rt, files),
        "picture" => tasks::picture(rt, files),
        _ => tasks::block(rt, files, given.get_one::<u32>("block")),
    };
    ended(rt, done, Some(files))
}

// The words of the command line after the program's name.
fn words_of(rt: &HostRuntime) -> Result<Vec<String>, Trouble> {
    match args_of(rt) {
        Ok(words) => Ok(words),
        Err(error) => match error.kind() {
            io::ErrorKind::OutOfMemory => Err(Trouble::Memory),
            _ => Err(Trouble::Input(error)),
        },
    }
}

fn args_of(rt: &HostRuntime) -> io::Result<Vec<String>> {
    let mut words = Vec::new(rt.alloc());
    for word in env::args(rt)?.skip(1) {
        words.push(word)?;
    }
    Ok(words)
}
