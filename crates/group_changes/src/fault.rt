// Why the groups aren't changed.
ghost use Rattle.std.specs.Prelude.{◌≡◌};
ghost use Rattle.group_changes.specs.declared.fault.GroupChangeFault.TheVariants.{Vault};
ghost use Rattle.group_changes.specs.Refused.{number_of};

use array_batch::BatchFault;
use array_recovery::RecoveryFault;
use std::alloc::AllocError;
use step_core::Refusal;
use vault::VaultError;

/// Why the groups aren't changed. The array is as it was, but after a call of the vault that failed: then it may have the new groups.
#[derive(Clone, Copy, Debug, PartialEq, Eq)]
pub enum GroupChangeFault {
    /// Out of memory.
    Memory,
    /// A call of the vault failed.
    Vault(VaultError),
    /// The table marks this drive as lost, or it was lost in memory.
    Lost(u8),
    /// The sizes don't fit one another, or a drive has no unit of the right length at one of its places.
    Misfit,
    /// A group would be made under this number, the lowest free one, and not under the one that was asked for.
    Number(u16),
    /// The array refuses the change, as `World::make`, `World::unmake` and `World::move_extent` do.
    Refused(Refusal),
    /// The units can't be read, or there is no array in them.
    Recovery(RecoveryFault),
}

impl GroupChangeFault {
    /// The fault's number, 1 to 7 in the order above.
    pub fn number(&self) -> u8
        ensures { result ≡ number_of self.now }
    {
        match self {
            GroupChangeFault::Memory => 1,
            GroupChangeFault::Vault(_) => 2,
            GroupChangeFault::Lost(_) => 3,
            GroupChangeFault::Misfit => 4,
            GroupChangeFault::Number(_) => 5,
            GroupChangeFault::Refused(_) => 6,
            GroupChangeFault::Recovery(_) => 7,
        }
    }
}

impl From<AllocError> for GroupChangeFault {
    fn from(_: AllocError) -> GroupChangeFault {
        GroupChangeFault::Memory
    }
}

impl From<VaultError> for GroupChangeFault {
    ghost from_gives = { λ error e. e ≡ Vault error };

    fn from(error: VaultError) -> GroupChangeFault {
        GroupChangeFault::Vault(error)
    }
}

impl From<RecoveryFault> for GroupChangeFault {
    fn from(fault: RecoveryFault) -> GroupChangeFault {
        GroupChangeFault::Recovery(fault)
    }
}

impl From<Refusal> for GroupChangeFault {
    fn from(refusal: Refusal) -> GroupChangeFault {
        match refusal {
            Refusal::Memory => GroupChangeFault::Memory,
            _ => GroupChangeFault::Refused(refusal),
        }
    }
}

impl From<BatchFault> for GroupChangeFault {
    fn from(fault: BatchFault) -> GroupChangeFault {
        match fault {
            BatchFault::Memory => GroupChangeFault::Memory,
            BatchFault::Vault(error) => GroupChangeFault::Vault(error),
            BatchFault::Lost(drive) => GroupChangeFault::Lost(drive),
            BatchFault::Misfit => GroupChangeFault::Misfit,
            BatchFault::Recovery(fault) => GroupChangeFault::Recovery(fault),
        }
    }
}
