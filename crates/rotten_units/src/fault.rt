// Why units aren't read or mended.
ghost use Rattle.std.specs.Prelude.{◌≡◌};
ghost use Rattle.rotten_units.specs.declared.fault.MendFault.TheVariants.{Vault};

use std::alloc::{AllocError, AllocFailed};
use vault::VaultError;

/// Why the units of drives aren't read.
#[derive(Clone, Copy, Debug, PartialEq, Eq)]
pub enum ReadFault {
    /// Out of memory.
    Memory,
    /// A call of the vault failed.
    Vault(VaultError),
    /// A drive that isn't lost has no unit of the right length at this address.
    Missing { drive: u8, address: u32 },
}

impl From<AllocError> for ReadFault {
    fn from(_: AllocError) -> ReadFault {
        ReadFault::Memory
    }
}

impl<T: Drop> From<AllocFailed<T>> for ReadFault {
    fn from(_: AllocFailed<T>) -> ReadFault {
        ReadFault::Memory
    }
}

impl From<VaultError> for ReadFault {
    fn from(error: VaultError) -> ReadFault {
        ReadFault::Vault(error)
    }
}

/// Why rotten units aren't mended. Units that weren't rotten are as they were.
#[derive(Clone, Copy, Debug, PartialEq, Eq)]
pub enum MendFault {
    /// Out of memory.
    Memory,
    /// A call of the vault failed.
    Vault(VaultError),
    /// A drive has no unit of the right length at this address.
    Missing { drive: u8, address: u32 },
    /// The sizes don't fit one another.
    Misfit,
    /// Of this slot's copies, or of its row, two units are rotten. Nothing was written.
    Gone(u16),
    /// This unit was written, and is rotten again.
    Rotten { drive: u8, address: u32 },
    /// This slot isn't sound: its units, as they are read or computed, don't go together. It is tested before a computed one is written.
    Unsound(u16),
}

impl From<AllocError> for MendFault {
    fn from(_: AllocError) -> MendFault {
        MendFault::Memory
    }
}

impl<T: Drop> From<AllocFailed<T>> for MendFault {
    fn from(_: AllocFailed<T>) -> MendFault {
        MendFault::Memory
    }
}

impl From<VaultError> for MendFault {
    ghost from_gives = { λ error e. e ≡ Vault error };

    fn from(error: VaultError) -> MendFault {
        MendFault::Vault(error)
    }
}

impl From<ReadFault> for MendFault {
    fn from(fault: ReadFault) -> MendFault {
        match fault {
            ReadFault::Memory => MendFault::Memory,
            ReadFault::Vault(error) => MendFault::Vault(error),
            ReadFault::Missing { drive, address } => MendFault::Missing { drive, address },
        }
    }
}
