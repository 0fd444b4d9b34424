// Why no drive is removed.
use array_batch::BatchFault;
use array_recovery::RecoveryFault;
use drive_evacuation::EvacuationFault;
use std::alloc::AllocError;
use step_core::Refusal;
use vault::VaultError;

/// Why no drive is removed. The array is as it was, but after a call of the vault that failed: then it may be without the drive.
#[derive(Clone, Copy, Debug, PartialEq, Eq)]
pub enum RemovalFault {
    /// Out of memory.
    Memory,
    /// A call of the vault failed.
    Vault(VaultError),
    /// Fewer than three drives would be left.
    Few,
    /// The table marks this drive as lost, which isn't the one to be removed, or it was lost in memory.
    Lost(u8),
    /// An extent of the drive has no drive to go to: each other one is full, or has a member of its group.
    Stuck,
    /// The sizes don't fit one another, or a drive has no unit of the right length at one of its places.
    Misfit,
    /// An extent can't be rebuilt.
    Refused(Refusal),
    /// The units can't be read, or there is no array in them.
    Recovery(RecoveryFault),
}

impl From<AllocError> for RemovalFault {
    fn from(_: AllocError) -> RemovalFault {
        RemovalFault::Memory
    }
}

impl From<VaultError> for RemovalFault {
    fn from(error: VaultError) -> RemovalFault {
        RemovalFault::Vault(error)
    }
}

impl From<RecoveryFault> for RemovalFault {
    fn from(fault: RecoveryFault) -> RemovalFault {
        RemovalFault::Recovery(fault)
    }
}

impl From<EvacuationFault> for RemovalFault {
    fn from(fault: EvacuationFault) -> RemovalFault {
        match fault {
            EvacuationFault::Memory => RemovalFault::Memory,
            // It is lost in memory before.
            EvacuationFault::Present => RemovalFault::Misfit,
            EvacuationFault::Stuck => RemovalFault::Stuck,
            EvacuationFault::Refused(refusal) => RemovalFault::Refused(refusal),
        }
    }
}

impl From<BatchFault> for RemovalFault {
    fn from(fault: BatchFault) -> RemovalFault {
        match fault {
            BatchFault::Memory => RemovalFault::Memory,
            BatchFault::Vault(error) => RemovalFault::Vault(error),
            BatchFault::Lost(drive) => RemovalFault::Lost(drive),
            BatchFault::Misfit => RemovalFault::Misfit,
            BatchFault::Recovery(fault) => RemovalFault::Recovery(fault),
        }
    }
}
