// Why an array makes no batch.
use array_recovery::RecoveryFault;
use std::alloc::{AllocError, AllocFailed};
use vault::VaultError;

/// Why an array in memory makes no batch. The vault is as it was.
#[derive(Clone, Copy, Debug, PartialEq, Eq)]
pub enum BatchFault {
    /// Out of memory.
    Memory,
    /// A call of the vault failed.
    Vault(VaultError),
    /// This drive is lost in memory, or the table marks it as lost.
    Lost(u8),
    /// The vault has no unit of the right length at one of a drive's places.
    Misfit,
    /// The table's marks can't be read.
    Recovery(RecoveryFault),
}

impl From<AllocError> for BatchFault {
    fn from(_: AllocError) -> BatchFault {
        BatchFault::Memory
    }
}

impl<T: Drop> From<AllocFailed<T>> for BatchFault {
    fn from(_: AllocFailed<T>) -> BatchFault {
        BatchFault::Memory
    }
}

impl From<VaultError> for BatchFault {
    fn from(error: VaultError) -> BatchFault {
        BatchFault::Vault(error)
    }
}

impl From<RecoveryFault> for BatchFault {
    fn from(fault: RecoveryFault) -> BatchFault {
        BatchFault::Recovery(fault)
    }
}
