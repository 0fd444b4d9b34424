//! What the command line asks for.
use crate::trouble::Name;
use clap::{Arg, ArgAction, ArgMatches, Command, Error, value_parser};
use std::alloc::{AllocError, Global};

/// The word for a lost drive.
pub(crate) const LOST: &str = "-";

/// What a file's name has at its end until all files of a save are written.
pub(crate) const FRESH: &str = ".new";

/// The files that are asked about.
#[derive(Clone, Copy)]
pub(crate) struct Files<'m, 'w> {
    /// The table's file.
    pub(crate) table: &'w str,
    /// The images' files, in the drives' order; `-` for a lost drive.
    pub(crate) images: &'m [&'w str],
}

impl<'m, 'w> Files<'m, 'w> {
    /// The file of a number: 0 is the table, 1 the first image.
    pub(crate) fn name(&self, number: usize) -> &'w str {
        if number == 0 {
            return self.table;
        }
        match self.images.get(number - 1) {
            Some(image) => image,
            None => "",
        }
    }

    /// A name in two parts: the word of the command line, and what is appended to it.
    pub(crate) fn spelled(&self, name: Name) -> (&'w str, &'static str) {
        match name {
            Name::Kept(number) => (self.name(number), ""),
            Name::Fresh(number) => (self.name(number), FRESH),
        }
    }

    /// A name as one text.
    pub(crate) fn text_of(&self, alloc: Global, name: Name) -> Result<String, AllocError> {
        let (word, end) = self.spelled(name);
        let mut text = String::new(alloc);
        text.push_str(word)?;
        text.push_str(end)?;
        Ok(text)
    }
}

// A command over a table and images.
fn over_files<'a>(alloc: Global, verb: &'a str, about: &'a str) -> Result<Command<'a>, AllocError> {
    let table = Arg::new(alloc, "table")
        .value_name("TABLE")
        .required(true)
        .help("the file with sizes and groups of the array, and the images' digests");
    let images = Arg::new(alloc, "images")
        .value_name("IMAGE")
        .required(true)
        .num_args(1..)
        .action(ArgAction::Append)
        .help("a file for each drive, in the drives' order; `-` for a lost one");
    Command::new(alloc, verb)
        .about(about)
        .arg(table)?
        .arg(images)
}

// The command that reads a block. Not by `over_files`, because BLOCK comes first.
fn over_block<'a>(alloc: Global) -> Result<Command<'a>, AllocError> {
    let block = Arg::new(alloc, "block")
        .value_name("BLOCK")
        .required(true)
        .value_parser(value_parser!(u32))
        .help("the block's number, from 0 on");
    let table = Arg::new(alloc, "table")
        .value_name("TABLE")
        .required(true)
        .help("the file with sizes and groups of the array, and the images' digests");
    let images = Arg::new(alloc, "images")
        .value_name("IMAGE")
        .required(true)
        .num_args(1..)
        .action(ArgAction::Append)
        .help("a file for each drive, in the drives' order; `-` for a lost one");
    Command::new(alloc, "block")
        .about("prints the bytes of a block")
        .arg(block)?
        .arg(table)?
        .arg(images)
}

/// What the words ask for, as clap reads them.
pub(crate) fn matches_of<'a>(alloc: Global, words: &'a [String]) -> Result<ArgMatches<'a>, Error> {
    let program = Command::new(alloc, "raid_images")
        .about("Keeps an array's drives as images in files, and recovers the array from them.")
        .no_binary_name(true)
        .disable_help_subcommand(true)
        .subcommand_required(true)
        .subcommand(over_files(
            alloc,
            "save",
            "runs the script on standard input, and writes the images of its array",
        )?)?
        .subcommand(over_files(
            alloc,
            "check",
            "compares images, copies and rows, and reads all headers",
        )?)?
        .subcommand(over_files(alloc, "map", "prints the map of all blocks")?)?
        .subcommand(over_block(alloc)?)?
        .subcommand(over_files(
            alloc,
            "salvage",
            "prints what can be read of an array that isn't sound",
        )?)?
        .subcommand(over_files(alloc, "picture", "draws the array, in SVG")?)?
        .subcommand(Command::new(alloc, "explain").about(
            "says what is wrong with the script on standard input",
        ))?;
    program.try_get_matches_from(words)
}

/// The files that a command names.
pub(crate) fn files_of<'m, 'w>(given: &'m ArgMatches<'w>) -> Option<Files<'m, 'w>> {
    match (given.get_str("table"), given.get_strs("images")) {
        (Some(table), Some(images)) => Some(Files { table, images }),
        _ => None,
    }
}
