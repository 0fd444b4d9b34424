// Why a drive isn't replaced.
ghost use Rattle.std.specs.Prelude.{◌≡◌};
ghost use Rattle.drive_rebuild.specs.declared.fault.RebuildFault.TheVariants.{Memory};

use array_recovery::RecoveryFault;
use std::alloc::{AllocError, AllocFailed};
use vault::VaultError;

/// Why a drive isn't replaced. Its mark stays, but after a call of the vault that failed last of all.
#[derive(Clone, Copy, Debug, PartialEq, Eq)]
pub enum RebuildFault {
    /// Out of memory.
    Memory,
    /// A call of the vault failed.
    Vault(VaultError),
    /// The units can't be read.
    Recovery(RecoveryFault),
    /// There is no such drive, or it isn't marked as lost.
    NotLost,
    /// This drive is marked as lost, too.
    OtherLost(u8),
    /// The sizes don't fit one another.
    Misfit,
    /// This slot isn't sound: what was written is not what its other units ask for, or it wasn't sound before.
    Unsound(u16),
}

impl From<AllocError> for RebuildFault {
    ghost from_gives = { λ _ e. e ≡ Memory };

    fn from(_: AllocError) -> RebuildFault {
        RebuildFault::Memory
    }
}

impl<T: Drop> From<AllocFailed<T>> for RebuildFault {
    ghost from_gives = { λ _ e. e ≡ Memory };

    fn from(_: AllocFailed<T>) -> RebuildFault {
        RebuildFault::Memory
    }
}

impl From<VaultError> for RebuildFault {
    fn from(error: VaultError) -> RebuildFault {
        RebuildFault::Vault(error)
    }
}

impl From<RecoveryFault> for RebuildFault {
    fn from(fault: RecoveryFault) -> RebuildFault {
        RebuildFault::Recovery(fault)
    }
}
