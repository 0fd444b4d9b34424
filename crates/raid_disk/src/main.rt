//! A disk on files: made in a folder, served to an NBD client on standard input and output, described, tested and mended.
#![tactic(auto)]

mod add;
mod any_vault;
mod create;
mod disk_files;
mod disk_vault;
mod drawing;
mod drives;
mod folder;
mod identity;
mod mending;
mod notes;
mod opened;
mod pair_files;
mod pairs;
mod places;
mod progress;
mod remains;
mod remove;
mod replace;
mod resting;
mod scrub;
mod serve;
mod status;
mod table;
mod texts;
mod trouble;

use clap::ArgMatches;
use disk_commands::{matches_of, size_in};
use folder::Folder;
use std::process::ExitCode;
use std::{env, io};
use trouble::Trouble;

/// The status of a wrong command line.
const WRONG_WORDS: u8 = 2;

fn main(rt: HostRuntime) -> ExitCode {
    let words = match words_of(&rt) {
        Ok(words) => words,
        Err(error) => return ended(&rt, Err(Trouble::of_words(error)), named("")),
    };
    match matches_of(rt.alloc(), &words) {
        Ok(matches) => run(&rt, &matches),
        Err(error) => refused(&rt, &error),
    }
}

// Prints what clap says of the words, and ends with its status.
fn refused(rt: &HostRuntime, error: &clap::Error) -> ExitCode {
    if error.kind() == clap::error::ErrorKind::OutOfMemory {
        return ended(rt, Err(Trouble::Memory), named(""));
    }
    let printed = error.print(rt);
    if error.use_stderr() {
        // Nothing is left to do where standard error can't be written.
        return ExitCode::from(WRONG_WORDS);
    }
    match printed {
        Ok(()) => ExitCode::from(0),
        Err(why) => ended(rt, Err(Trouble::Output(why)), named("")),
    }
}

// A folder of which nothing but the name is known.
fn named(name: &str) -> Folder<'_> {
    Folder {
        name,
        places: &[],
        others: &[],
        without: None,
    }
}

// Ends with a status, or says what is wrong and ends with its status.
fn ended(rt: &HostRuntime, done: Result<u8, Trouble>, folder: Folder<'_>) -> ExitCode {
    match done {
        Ok(status) => ExitCode::from(status),
        Err(trouble) => {
            // Nothing is left to do where standard error can't be written.
            let _ = trouble.report(rt, folder);
            ExitCode::from(trouble.status())
        }
    }
}

// Does what the words ask for. clap lets no other words through.
fn run<'w>(rt: &HostRuntime, matches: &ArgMatches<'w>) -> ExitCode {
    let Some((verb, given)) = matches.subcommand() else {
        return ExitCode::from(WRONG_WORDS);
    };
    let Some(name) = given.get_str("folder") else {
        return ExitCode::from(WRONG_WORDS);
    };
    match places::owned(rt, given.get_strs("drive")) {
        Ok(paths) => run_placed(rt, verb, given, name, &paths),
        Err(trouble) => ended(rt, Err(trouble), named(name)),
    }
}

// Does what the words ask for, with these paths of drives' files.
fn run_placed<'w>(
    rt: &HostRuntime,
    verb: &str,
    given: &ArgMatches<'w>,
    name: &str,
    paths: &[String],
) -> ExitCode {
    let found = match verb {
        "create" => places::places_from(rt, paths),
        _ => places::read_places(rt, named(name)),
    };
    let places = match found {
        Ok(places) => places,
        Err(trouble) => return ended(rt, Err(trouble), named(name)),
    };
    let folder = Folder {
        name,
        places: &places,
        others: paths,
        without: None,
    };
    ended(rt, carry_out(rt, verb, given, folder), folder)
}

// Carries out a command. Where a drive's file fails while it is read, the command is tried once more without that drive.
fn carry_out<'w>(
    rt: &HostRuntime,
    verb: &str,
    given: &ArgMatches<'w>,
    folder: Folder<'_>,
) -> Result<u8, Trouble> {
    let done = carry_out_once(rt, verb, given, folder);
    let failed = match &done {
        Err(trouble) => trouble.failed_drive(),
        Ok(_) => None,
    };
    let number = given.get_one::<u8>("number");
    match verb {
        "create" => done,
        "replace" if failed != number => done,
        _ if failed.is_some() => carry_out_once(rt, verb, given, folder.without(failed)),
        _ => done,
    }
}

// Carries out a command.
fn carry_out_once<'w>(
    rt: &HostRuntime,
    verb: &str,
    given: &ArgMatches<'w>,
    folder: Folder<'_>,
) -> Result<u8, Trouble> {
    match verb {
        "create" => create_from(rt, given, folder),
        "serve" => serve_from(rt, given, folder),
        "replace" => replace_from(rt, given, folder),
        "add" => add::add(rt, folder, given.get_str("path")),
        "remove" => remove_from(rt, given, folder),
        "scrub" => scrub::scrub(rt, folder, given.get_flag("json"), given.get_flag("accept")),
        "picture" => drawing::print_picture(rt, folder),
        _ => status::show(rt, folder, given.get_flag("json")),
    }
}

// The bytes that an argument names.
fn size_of<'w>(given: &ArgMatches<'w>, name: &str) -> Option<u64> {
    size_in(given.get_str(name)?)
}

// Makes the disk that the words describe.
fn create_from<'w>(
    rt: &HostRuntime,
    given: &ArgMatches<'w>,
    folder: Folder<'_>,
) -> Result<u8, Trouble> {
    let Some(size) = size_of(given, "size") else {
        return Err(Trouble::Size);
    };
    let block = given.get_one::<u32>("block").unwrap_or(4096);
    let drives = given.get_one::<u8>("drives").unwrap_or(6);
    create::create_disk(rt, folder, size, block, drives)
}

// Serves the disk that the words name.
fn serve_from<'w>(
    rt: &HostRuntime,
    given: &ArgMatches<'w>,
    folder: Folder<'_>,
) -> Result<u8, Trouble> {
    match size_of(given, "journal") {
        Some(journal) => serve::serve_disk(rt, folder, journal),
        None => Err(Trouble::Size),
    }
}

// Replaces the drive that the words name.
fn replace_from<'w>(
    rt: &HostRuntime,
    given: &ArgMatches<'w>,
    folder: Folder<'_>,
) -> Result<u8, Trouble> {
    match given.get_one::<u8>("number") {
        Some(number) => replace::replace(rt, folder, number, given.get_str("path")),
        None => Ok(WRONG_WORDS),
    }
}

// Removes the drive that the words name.
fn remove_from<'w>(
    rt: &HostRuntime,
    given: &ArgMatches<'w>,
    folder: Folder<'_>,
) -> Result<u8, Trouble> {
    match given.get_one::<u8>("number") {
        Some(number) => remove::remove(rt, folder, number),
        None => Ok(WRONG_WORDS),
    }
}

// The words of the command line after the program's name.
fn words_of(rt: &HostRuntime) -> io::Result<Vec<String>> {
    let mut words = Vec::new(rt.alloc());
    for word in env::args(rt)?.skip(1) {
        words.push(word)?;
    }
    Ok(words)
}
