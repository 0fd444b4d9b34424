//! The command line.
use clap::{Arg, ArgAction, ArgMatches, Command, Error, value_parser};
use std::alloc::{AllocError, Global};

// The folder that a command names.
fn folder<'a>(alloc: Global) -> Arg<'a> {
    Arg::new(alloc, "folder")
        .value_name("FOLDER")
        .required(true)
        .help("the disk's folder, with its table and a file for each drive")
}

// Paths of drives' files.
fn drive<'a>(alloc: Global, help: &'a str) -> Arg<'a> {
    Arg::new(alloc, "drive")
        .long("drive")
        .value_name("PATH")
        .action(ArgAction::Append)
        .help(help)
}

// Where to look besides for the drives' files.
fn others<'a>(alloc: Global) -> Arg<'a> {
    drive(
        alloc,
        "another path where a drive's file may be; may be given more than once",
    )
}

fn create<'a>(alloc: Global) -> Result<Command<'a>, AllocError> {
    let size = Arg::new(alloc, "size")
        .long("size")
        .value_name("SIZE")
        .required(true)
        .help("bytes of the disk; with K, M or G in units of 1,024, 1,048,576 or 1,073,741,824");
    let block = Arg::new(alloc, "block")
        .long("block")
        .value_name("BYTES")
        .default_value("4096")
        .value_parser(value_parser!(u32))
        .help("bytes of a block: 8 to 65,536, a multiple of 8");
    let drives = Arg::new(alloc, "drives")
        .long("drives")
        .value_name("N")
        .default_value("6")
        .value_parser(value_parser!(u8))
        .help("drives, 3 to 16: any one of them may be lost");
    Command::new(alloc, "create")
        .about("makes a disk of zeros in a folder, which is made if it isn't there")
        .arg(folder(alloc))?
        .arg(size)?
        .arg(block)?
        .arg(drives)?
        .arg(drive(
            alloc,
            "the file of drive 0, then that of drive 1, ..; the others' are in the folder",
        ))
}

// The drive that a command names.
fn number<'a>(alloc: Global, help: &'a str) -> Arg<'a> {
    Arg::new(alloc, "number")
        .value_name("NUMBER")
        .required(true)
        .value_parser(value_parser!(u8))
        .help(help)
}

// A command that has to do with one drive.
fn for_drive<'a>(
    alloc: Global,
    name: &'a str,
    about: &'a str,
    help: &'a str,
) -> Result<Command<'a>, AllocError> {
    Command::new(alloc, name)
        .about(about)
        .arg(folder(alloc))?
        .arg(number(alloc, help))?
        .arg(others(alloc))
}

// Where a drive's new file is to be.
fn path<'a>(alloc: Global, help: &'a str) -> Arg<'a> {
    Arg::new(alloc, "path").value_name("PATH").help(help)
}

fn replace<'a>(alloc: Global) -> Result<Command<'a>, AllocError> {
    for_drive(
        alloc,
        "replace",
        "makes the file of a lost drive again, with its units, from the other drives",
        "the lost drive's number, 0 for drive0",
    )?
    .arg(path(
        alloc,
        "the drive's file from now on; at the drive's own place unless it is given",
    ))
}

fn remove<'a>(alloc: Global) -> Result<Command<'a>, AllocError> {
    for_drive(
        alloc,
        "remove",
        "moves what the last drive has to the others, and deletes its file",
        "the last drive's number: 5 of six drives",
    )
}

fn add<'a>(alloc: Global) -> Result<Command<'a>, AllocError> {
    let path = path(
        alloc,
        "the new drive's file; in the folder unless it is given",
    );
    Command::new(alloc, "add")
        .about("adds a drive, and spreads what the others have over all of them")
        .arg(folder(alloc))?
        .arg(path)?
        .arg(others(alloc))
}

// A command that prints what a disk has.
fn looks<'a>(alloc: Global, name: &'a str, about: &'a str) -> Result<Command<'a>, AllocError> {
    let json = Arg::new(alloc, "json")
        .long("json")
        .action(ArgAction::SetTrue)
        .help("prints one JSON object");
    Command::new(alloc, name)
        .about(about)
        .arg(folder(alloc))?
        .arg(json)?
        .arg(others(alloc))
}

fn serve<'a>(alloc: Global) -> Result<Command<'a>, AllocError> {
    let journal = Arg::new(alloc, "journal")
        .long("journal")
        .value_name("SIZE")
        .default_value("64M")
        .help("bytes of units in the journal from which on they are written to their places");
    Command::new(alloc, "serve")
        .about("serves the disk to one NBD client, on standard input and output")
        .arg(folder(alloc))?
        .arg(journal)?
        .arg(others(alloc))
}

fn scrub<'a>(alloc: Global) -> Result<Command<'a>, AllocError> {
    let accept = Arg::new(alloc, "accept")
        .long("accept")
        .action(ArgAction::SetTrue)
        .help("takes units that aren't as their digests say, and can't be computed, as they are");
    looks(
        alloc,
        "scrub",
        "compares every unit with its digest, writes those again that differ, and compares copies, parity and headers",
    )?
    .arg(accept)
}

fn status<'a>(alloc: Global) -> Result<Command<'a>, AllocError> {
    looks(
        alloc,
        "status",
        "prints drives, groups, and how full the two levels are",
    )
}

fn picture<'a>(alloc: Global) -> Result<Command<'a>, AllocError> {
    Command::new(alloc, "picture")
        .about("draws the drives with their groups and units, in SVG")
        .arg(folder(alloc))?
        .arg(others(alloc))
}

// The commands that change which drives a disk has.
fn with_changes<'a>(alloc: Global, program: Command<'a>) -> Result<Command<'a>, AllocError> {
    program
        .subcommand(replace(alloc)?)?
        .subcommand(add(alloc)?)?
        .subcommand(remove(alloc)?)
}

// Those that only tell of it, or mend it.
fn with_looks<'a>(alloc: Global, program: Command<'a>) -> Result<Command<'a>, AllocError> {
    program
        .subcommand(scrub(alloc)?)?
        .subcommand(status(alloc)?)?
        .subcommand(picture(alloc)?)
}

/// What the words ask for, as clap reads them. Words that are no command line, and those that ask for help, are an error, which
/// has the text to print.
pub fn matches_of<'a>(alloc: Global, words: &'a [String]) -> Result<ArgMatches<'a>, Error> {
    let program = Command::new(alloc, "raid_disk")
        .about("A disk on files, which reads as before when one of them is lost.")
        .no_binary_name(true)
        .disable_help_subcommand(true)
        .subcommand_required(true)
        .subcommand(create(alloc)?)?
        .subcommand(serve(alloc)?)?;
    let program = with_changes(alloc, program)?;
    let program = with_looks(alloc, program)?;
    program.try_get_matches_from(words)
}
