// Why a table has no groups.
ghost use Rattle.std.specs.Prelude.{◌≡◌};
ghost use Rattle.group_form.specs.declared.fault.FormFault.TheVariants.{Memory, Vault};

use std::alloc::{AllocError, AllocFailed};
use vault::VaultError;

/// Why the groups of a table aren't read.
#[derive(Clone, Copy, Debug, PartialEq, Eq)]
pub enum FormFault {
    /// Out of memory.
    Memory,
    /// A call of the vault failed.
    Vault(VaultError),
    /// A unit of the table isn't there, has another length, or is rotten and not written by the journal.
    Missing,
    /// The units spell no groups of these sizes.
    Misfit,
}

impl From<AllocError> for FormFault {
    ghost from_gives = { λ _ e. e ≡ Memory };

    fn from(_: AllocError) -> FormFault {
        FormFault::Memory
    }
}

impl<T: Drop> From<AllocFailed<T>> for FormFault {
    ghost from_gives = { λ _ e. e ≡ Memory };

    fn from(_: AllocFailed<T>) -> FormFault {
        FormFault::Memory
    }
}

impl From<VaultError> for FormFault {
    ghost from_gives = { λ error e. e ≡ Vault error };

    fn from(error: VaultError) -> FormFault {
        FormFault::Vault(error)
    }
}
