// Why an array isn't opened.
ghost use Rattle.std.specs.Prelude.{◌≡◌};
ghost use Rattle.array_recovery.specs.declared.fault.RecoveryFault.TheVariants.{Memory, Vault};

use rotten_units::ReadFault;
use std::alloc::{AllocError, AllocFailed};
use vault::VaultError;

/// Why an array isn't opened. The vault is as it was.
#[derive(Clone, Copy, Debug, PartialEq, Eq)]
pub enum RecoveryFault {
    /// Out of memory.
    Memory,
    /// A call of the vault failed.
    Vault(VaultError),
    /// A drive that isn't lost has no unit of the right length at this address, or the journal brings it one of another length.
    Missing { drive: u8, address: u32 },
    /// This unit isn't as its digest says, and the journal doesn't write it. The table's is that of drive 16.
    Rotten { drive: u8, address: u32 },
    /// There are no marks of lost drives.
    NoTable,
    /// The parts don't fit one another, or the headers hold no map.
    Unsound,
    /// The slot of which the drives that are lost leave no unit.
    Gone(u16),
}

impl From<AllocError> for RecoveryFault {
    ghost from_gives = { λ _ e. e ≡ Memory };

    fn from(_: AllocError) -> RecoveryFault {
        RecoveryFault::Memory
    }
}

impl<T: Drop> From<AllocFailed<T>> for RecoveryFault {
    ghost from_gives = { λ _ e. e ≡ Memory };

    fn from(_: AllocFailed<T>) -> RecoveryFault {
        RecoveryFault::Memory
    }
}

impl From<VaultError> for RecoveryFault {
    ghost from_gives = { λ error e. e ≡ Vault error };

    fn from(error: VaultError) -> RecoveryFault {
        RecoveryFault::Vault(error)
    }
}

impl From<ReadFault> for RecoveryFault {
    fn from(fault: ReadFault) -> RecoveryFault {
        match fault {
            ReadFault::Memory => RecoveryFault::Memory,
            ReadFault::Vault(error) => RecoveryFault::Vault(error),
            ReadFault::Missing { drive, address } => RecoveryFault::Missing { drive, address },
        }
    }
}
