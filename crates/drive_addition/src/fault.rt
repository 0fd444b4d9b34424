// Why no drive is added.
use array_batch::BatchFault;
use array_expansion::ExpansionFault;
use array_recovery::RecoveryFault;
use step_core::Refusal;
use vault::VaultError;

/// Why no drive is added. The array is as it was, but after a call of the vault that failed: then it may have the drive.
#[derive(Clone, Copy, Debug, PartialEq, Eq)]
pub enum AdditionFault {
    /// Out of memory.
    Memory,
    /// A call of the vault failed.
    Vault(VaultError),
    /// There are 16 drives.
    Full,
    /// The table marks this drive as lost, or it was lost in memory.
    Lost(u8),
    /// The sizes don't fit one another, or the new drive has no unit of the right length at one of its places.
    Misfit,
    /// An extent can't be moved.
    Refused(Refusal),
    /// The units can't be read, or there is no array in them.
    Recovery(RecoveryFault),
}

impl From<VaultError> for AdditionFault {
    fn from(error: VaultError) -> AdditionFault {
        AdditionFault::Vault(error)
    }
}

impl From<RecoveryFault> for AdditionFault {
    fn from(fault: RecoveryFault) -> AdditionFault {
        AdditionFault::Recovery(fault)
    }
}

impl From<ExpansionFault> for AdditionFault {
    fn from(fault: ExpansionFault) -> AdditionFault {
        match fault {
            ExpansionFault::Memory => AdditionFault::Memory,
            ExpansionFault::Full => AdditionFault::Full,
            ExpansionFault::Refused(refusal) => AdditionFault::Refused(refusal),
        }
    }
}

impl From<BatchFault> for AdditionFault {
    fn from(fault: BatchFault) -> AdditionFault {
        match fault {
            BatchFault::Memory => AdditionFault::Memory,
            BatchFault::Vault(error) => AdditionFault::Vault(error),
            BatchFault::Lost(drive) => AdditionFault::Lost(drive),
            BatchFault::Misfit => AdditionFault::Misfit,
            BatchFault::Recovery(fault) => AdditionFault::Recovery(fault),
        }
    }
}
