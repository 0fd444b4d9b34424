// Calls of a vault, without their contracts: nothing here is proved of them, and over types that are spelled out each contract takes seconds.
use crate::asserts::check;
use crate::story::layout;
use extents::DRIVES;
use file_vault::{FileVault, MemFiles};
use std::alloc::Global;
use std::process::Abort;
use vault::{Batch, Vault, VaultError, add, flush, settle};

/// The vault that files have.
pub(crate) fn opened(rt: &impl Abort, alloc: Global, files: MemFiles) -> FileVault<MemFiles> {
    match FileVault::open(alloc, files, layout()) {
        Ok(vault) => vault,
        Err(_) => rt.panic("not opened"),
    }
}

/// Appends a batch.
pub(crate) fn append(rt: &impl Abort, vault: &mut impl Vault, batch: &Batch) {
    check!(rt; vault.append(batch).is_ok());
}

/// How many batches a vault has.
pub(crate) fn count(rt: &impl Abort, vault: &mut impl Vault) -> usize {
    match vault.batches() {
        Ok(count) => count,
        Err(_) => rt.panic("no count"),
    }
}

/// Reads a batch.
pub(crate) fn read(rt: &impl Abort, vault: &mut impl Vault, index: usize, batch: &mut Batch) {
    check!(rt; vault.read_batch(index, batch).is_ok());
}

/// Adds a batch.
pub(crate) fn add_batch(rt: &impl Abort, vault: &mut impl Vault, batch: &Batch) {
    check!(rt; add(vault, batch).is_ok());
}

/// Makes what was added durable.
pub(crate) fn flush_all(rt: &impl Abort, vault: &mut impl Vault) {
    check!(rt; flush(vault).is_ok());
}

/// Writes what the journal has to its places.
pub(crate) fn settle_all(
    vault: &mut impl Vault,
    room: &mut Batch,
    lost: &[bool; DRIVES],
) -> Result<(), VaultError> {
    settle(vault, room, lost)
}
