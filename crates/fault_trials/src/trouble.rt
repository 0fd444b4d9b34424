// Why a trial ends before its end.
use map_join::MapRefusal;
use std::alloc::{AllocError, AllocFailed};
use std::io;
use std::io::ErrorKind;

/// Why a trial ends before its end.
#[derive(Drop)]
pub(crate) enum Trouble {
    /// An answer isn't the expected one.
    Wrong,
    /// A line that says no trial, step or answer, a file that can't be read, or standard output that can't be written.
    Input,
    /// Out of memory outside of what is tried.
    Memory,
}

impl Trouble {
    /// The status that the program ends with.
    pub(crate) fn status(self) -> u8 {
        match self {
            Trouble::Wrong => 1,
            Trouble::Input => 2,
            Trouble::Memory => 4,
        }
    }
}

impl From<AllocError> for Trouble {
    fn from(_: AllocError) -> Trouble {
        Trouble::Memory
    }
}

impl<T: Drop> From<AllocFailed<T>> for Trouble {
    fn from(_: AllocFailed<T>) -> Trouble {
        Trouble::Memory
    }
}

impl From<MapRefusal> for Trouble {
    fn from(_: MapRefusal) -> Trouble {
        Trouble::Memory
    }
}

impl From<io::Error> for Trouble {
    fn from(error: io::Error) -> Trouble {
        match error.kind() {
            ErrorKind::OutOfMemory => Trouble::Memory,
            _ => Trouble::Input,
        }
    }
}
