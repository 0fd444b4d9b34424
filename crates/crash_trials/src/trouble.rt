// Why the program ends early.
use crate::difference::Difference;
use std::alloc::{AllocError, AllocFailed, Global};
use std::io;

/// Why a row, or the whole run, ends before its end.
#[derive(Drop)]
pub(crate) enum Trouble {
    /// A row's cell isn't what is found.
    Differs(Difference),
    /// The command line asks for nothing that the program does.
    Words,
    /// A text isn't of the form that is asked for.
    Form,
    /// The file and the line, from 1, whose text isn't of the form.
    Line(String, usize),
    /// The file that can't be read.
    File(String),
    Memory,
    /// Standard output can't be written.
    Output,
}

impl Trouble {
    /// The status that the program ends with.
    pub(crate) fn status(&self) -> u8 {
        match self {
            Trouble::Differs(_) => 1,
            Trouble::Words => 2,
            Trouble::File(_) => 3,
            Trouble::Form => 4,
            Trouble::Line(_, _) => 4,
            Trouble::Memory => 5,
            Trouble::Output => 5,
        }
    }

    /// Says on standard error what is wrong.
    pub(crate) fn report(&self, rt: &HostRuntime) -> io::Result<()> {
        match self {
            Trouble::Differs(_) => eprintln!(rt; "a step isn't answered as it should be"),
            Trouble::Words => eprintln!(rt; "crash_trials takes a folder, or nothing"),
            Trouble::File(file) => eprintln!(rt; "{file} can't be read"),
            Trouble::Form => eprintln!(rt; "a row can't be parsed"),
            Trouble::Line(file, line) => eprintln!(rt; "{file}: line {line} can't be parsed"),
            Trouble::Memory => eprintln!(rt; "out of memory"),
            Trouble::Output => eprintln!(rt; "standard output can't be written"),
        }
    }

    /// The trouble with a file and one of its lines, counted from 1: where the text isn't of the form, it names both.
    pub(crate) fn located(self, alloc: Global, file: &str, line: usize) -> Trouble {
        match self {
            Trouble::Form => match String::from_str(alloc, file) {
                Ok(file) => Trouble::Line(file, line),
                Err(_) => Trouble::Memory,
            },
            _ => self,
        }
    }
}

impl From<AllocError> for Trouble {
    fn from(_: AllocError) -> Trouble {
        Trouble::Memory
    }
}

impl<T: Drop> From<AllocFailed<T>> for Trouble {
    fn from(_: AllocFailed<T>) -> Trouble {
        Trouble::Memory
    }
}

// Only standard output's errors come by `?`: those of files are read with their names.
impl From<io::Error> for Trouble {
    fn from(error: io::Error) -> Trouble {
        match error.kind() {
            io::ErrorKind::OutOfMemory => Trouble::Memory,
            _ => Trouble::Output,
        }
    }
}
