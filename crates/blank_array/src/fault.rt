// Why no array is made.
use std::alloc::{AllocError, AllocFailed};
use vault::VaultError;

/// Why no array is made in a vault.
#[derive(Clone, Copy, Debug, PartialEq, Eq)]
pub enum BlankFault {
    /// Out of memory.
    Memory,
    /// A call of the vault failed.
    Vault(VaultError),
    /// The groups aren't those of an array of so many drives. The vault is as it was.
    Unsound,
}

impl From<AllocError> for BlankFault {
    fn from(_: AllocError) -> BlankFault {
        BlankFault::Memory
    }
}

impl<T: Drop> From<AllocFailed<T>> for BlankFault {
    fn from(_: AllocFailed<T>) -> BlankFault {
        BlankFault::Memory
    }
}

impl From<VaultError> for BlankFault {
    fn from(error: VaultError) -> BlankFault {
        BlankFault::Vault(error)
    }
}
