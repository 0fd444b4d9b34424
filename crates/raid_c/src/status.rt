// The status that a call returns.
ghost use Rattle.std.specs.Prelude.{◌≡◌};
ghost use Rattle.raid_c.specs.declared.status.Status.TheVariants.{Memory};
ghost use Rattle.raid_c.specs.Status.{number_of};

use map_join::MapRefusal;
use std::alloc::AllocError;

/// How a call ended. A call returns the number; `behkuna.h` has the numbers too.
#[derive(Clone, Copy)]
pub enum Status {
    /// The call did what it is for.
    Done = 0,
    /// The bytes don't have the length that the call requires.
    Length = 1,
    /// A line of the script is wrong: the buffer has the answers before it, and then its fault.
    Fault = 2,
    /// The buffer is too short: the count says how many bytes are needed.
    Room = 3,
    /// Out of memory.
    Memory = 4,
    /// A record has version 0.
    Version = 5,
    /// The bytes are no header.
    NoHeader = 6,
    /// Two lists of records have different maps.
    Differs = 7,
    /// A number is out of its range.
    Range = 8,
    /// No record of the list has the block.
    Absent = 9,
}

impl Status {
    /// The status as a call returns it, 0 to 9.
    pub fn number(self) -> u32
        ensures { result ≡ number_of self }
    {
        self as u32
    }
}

impl From<AllocError> for Status {
    ghost from_gives = { λ _ status. status ≡ Memory };

    fn from(_: AllocError) -> Status {
        Status::Memory
    }
}

impl From<MapRefusal> for Status {
    ghost from_gives = { λ _ status. status ≡ Memory };

    fn from(_: MapRefusal) -> Status {
        Status::Memory
    }
}
