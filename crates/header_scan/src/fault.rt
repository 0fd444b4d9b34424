// Why headers give no map.
ghost use Rattle.std.specs.Prelude.{◌≡◌};
ghost use Rattle.header_scan.specs.declared.fault.ScanFault.TheVariants.{Memory};
ghost use Rattle.header_scan.specs.Numbers.{number_of};

use map_join::MapRefusal;
use std::alloc::AllocError;
use thiserror::Error;

/// Why no map is rebuilt from the headers.
#[derive(Clone, Copy, Debug, PartialEq, Eq, Error)]
pub enum ScanFault {
    #[error("no memory")]
    Memory,
    /// The slot whose header is neither blank nor a record of one of the array's blocks.
    #[error("the header of slot {0} is bad")]
    BadHeader(u16),
    /// A slot, and the slot that its header names.
    #[error("the header of slot {0} tells slot {1}")]
    WrongSlot(u16, u16),
    /// A block whose newest version and hop are at two slots.
    #[error("block {0} stands at slots {1} and {2}")]
    Twice(u32, u16, u16),
    /// The slot that is gone: lost drives leave it no unit.
    #[error("the unit of slot {0} is gone")]
    Gone(u16),
    /// The slot of a block's newest place, without its claim.
    #[error("there is no claim of slot {0}")]
    NoClaim(u16),
    /// The slot of a note that can't be finished.
    #[error("the note of slot {0} is bad")]
    BadNote(u16),
}

impl ScanFault {
    /// The fault's number, 1 to 7 in the order above.
    pub fn number(&self) -> u8
        ensures { result ≡ number_of self.now }
    {
        match self {
            ScanFault::Memory => 1,
            ScanFault::BadHeader(_) => 2,
            ScanFault::WrongSlot(_, _) => 3,
            ScanFault::Twice(_, _, _) => 4,
            ScanFault::Gone(_) => 5,
            ScanFault::NoClaim(_) => 6,
            ScanFault::BadNote(_) => 7,
        }
    }
}

impl From<AllocError> for ScanFault {
    ghost from_gives = { λ _ fault. fault ≡ Memory };

    fn from(_: AllocError) -> ScanFault {
        ScanFault::Memory
    }
}

impl From<MapRefusal> for ScanFault {
    ghost from_gives = { λ _ fault. fault ≡ Memory };

    fn from(_: MapRefusal) -> ScanFault {
        ScanFault::Memory
    }
}
