//! Why the program ends early.
use crate::words::Files;
use script_exec::put;
use std::alloc::{AllocError, AllocFailed, Global};
use std::io;

/// A name of the command line by its number from 0, the table's first; or that name with `.new` appended.
#[derive(Clone, Copy, Debug, PartialEq, Eq)]
pub(crate) enum Name {
    Kept(usize),
    Fresh(usize),
}

/// Why a command ended early. `save` may have answered its script before, and put its table in place.
#[derive(Debug, Drop)]
pub(crate) enum Trouble {
    Memory,
    /// Two of the names to be written are of one file.
    OneFile(Name, Name),
    /// A name to be written is the word for a lost drive.
    Dash,
    /// A name to be written is that of a folder, or of something else than a file.
    NoFile(Name),
    /// The file with `.new` holds a drive of the table's save, at another place than its name has on the command line.
    Order(usize),
    /// This line of the table, counted from 1, isn't of its form, or its group can't be entered.
    Line(usize),
    /// The table's text isn't that of its digest, or it hasn't one digest a drive.
    Sum,
    /// The number of the table's drives, in a `save` of those of the script's array; and the number of images.
    Count(usize, usize),
    /// The table's groups don't fit one another.
    Misfit,
    /// The file's number, the bytes in it, and those of an image of this array.
    Length(usize, usize, usize),
    /// The file with this number is given for a drive that was lost when the array was saved.
    WasLost(usize),
    /// A block past the array's last, and the array's number of blocks.
    Block(u32, u32),
    Read(Name, io::Error),
    Write(Name, io::Error),
    /// Standard input can't be read.
    Input(io::Error),
    /// Standard output can't be written.
    Output(io::Error),
}

impl Trouble {
    /// The exit status: 2 for a command line or a file that is wrong, 4 for out of memory, 5 for a read or write that
    /// failed.
    pub(crate) fn status(&self) -> u8 {
        match self {
            Trouble::Memory => 4,
            Trouble::Read(_, _) | Trouble::Write(_, _) | Trouble::Input(_) | Trouble::Output(_) =>
                5,
            _ => 2,
        }
    }

    /// Says on standard error what is wrong, in one line.
    pub(crate) fn report(&self, rt: &HostRuntime, files: Option<Files<'_, '_>>) -> io::Result<()> {
        match files {
            Some(files) => self.report_of(rt, files),
            None => self.report_alone(rt),
        }
    }

    // Says what is wrong where no file is concerned.
    fn report_alone(&self, rt: &HostRuntime) -> io::Result<()> {
        match self {
            Trouble::Memory => eprintln!(rt; "out of memory"),
            Trouble::Input(error) => eprintln!(rt; "standard input can't be read: {error}"),
            Trouble::Output(error) => eprintln!(rt; "standard output can't be written: {error}"),
            Trouble::Dash => eprintln!(rt; "`-` is no name that can be written"),
            Trouble::Block(block, blocks) => {
                eprintln!(rt; "there is no block {block}: the array has {blocks}, from 0 on")
            }
            _ => Ok(()),
        }
    }

    // Says what is wrong with the files.
    fn report_of(&self, rt: &HostRuntime, files: Files<'_, '_>) -> io::Result<()> {
        let table = files.table;
        match self {
            Trouble::OneFile(one, other) => {
                let (one, more) = files.spelled(*one);
                let (other, end) = files.spelled(*other);
                eprintln!(rt; "{one}{more} and {other}{end} are one file: nothing was written")
            }
            Trouble::NoFile(name) => {
                let (name, end) = files.spelled(*name);
                eprintln!(rt; "{name}{end} is no file that can be written")
            }
            Trouble::Order(file) => {
                let name = files.name(*file);
                eprintln!(rt;
                    "{name}.new holds a drive of the save in {table} that was cut short: give the names in that save's order, or remove it"
                )
            }
            Trouble::Line(line) => {
                eprintln!(rt; "{table}: line {line} isn't a table's, or its group can't be entered")
            }
            Trouble::Sum => {
                eprintln!(rt; "{table} isn't as it was saved: its last line names another digest")
            }
            Trouble::Count(drives, images) => {
                eprintln!(rt; "{table} has {drives} drives, and {images} images are named")
            }
            Trouble::Misfit => eprintln!(rt; "{table}: the groups don't fit one another"),
            _ => self.report_file(rt, files),
        }
    }

    // Says what is wrong with one file.
    fn report_file(&self, rt: &HostRuntime, files: Files<'_, '_>) -> io::Result<()> {
        match self {
            Trouble::Length(file, has, needs) => {
                let name = files.name(*file);
                eprintln!(rt;
                    "{name} has {has} bytes, and an image of this array {needs}: give `-` in its place to leave it out"
                )
            }
            Trouble::WasLost(file) => {
                let name = files.name(*file);
                let drive = file.saturating_sub(1);
                eprintln!(rt;
                    "{name}: drive {drive} was lost when the array was saved: give `-` in its place"
                )
            }
            Trouble::Read(name, error) => {
                let (name, end) = files.spelled(*name);
                eprintln!(rt; "{name}{end} can't be read: {error}")
            }
            Trouble::Write(name, error) => {
                let (name, end) = files.spelled(*name);
                eprintln!(rt; "{name}{end} can't be written: {error}")
            }
            _ => self.report_alone(rt),
        }
    }
}

/// The trouble of a file that can't be read.
pub(crate) fn unread(error: io::Error, name: Name) -> Trouble {
    match error.kind() {
        io::ErrorKind::OutOfMemory => Trouble::Memory,
        _ => Trouble::Read(name, error),
    }
}

/// The trouble of a file that can't be written.
pub(crate) fn unwritten(error: io::Error, name: Name) -> Trouble {
    match error.kind() {
        io::ErrorKind::OutOfMemory => Trouble::Memory,
        _ => Trouble::Write(name, error),
    }
}

impl From<AllocError> for Trouble {
    fn from(_: AllocError) -> Trouble {
        Trouble::Memory
    }
}

impl<T: Drop> From<AllocFailed<T>> for Trouble {
    fn from(_: AllocFailed<T>) -> Trouble {
        Trouble::Memory
    }
}
