//! The vault of a disk.
ghost use Rattle.std.specs.Prelude.{None, []};

use crate::any_vault::{VaultFault, open_file_vault};
use crate::pair_files::PairFiles;
use crate::trouble::Trouble;
use extent_groups::Place;
use extents::DRIVES;
use file_vault::{FileVault, Layout, StampedFiles};
use std::alloc::Global;
use vault::{Batch, UnitRead, Vault, VaultError};

/// The vault over a disk's files, as a type with a name of its own. Of a process's files no contract says what they keep, so its
/// clauses say nothing; spelled out, its type is eight deep, and each function over it would take minutes to check.
#[derive(Drop)]
pub(crate) struct DiskVault {
    vault: FileVault<StampedFiles<PairFiles>>,
}

impl DiskVault {
    /// The vault that files have.
    pub(crate) fn open(
        alloc: Global,
        files: PairFiles,
        layout: Layout,
    ) -> Result<DiskVault, Trouble> {
        match open_file_vault(alloc, files, layout) {
            Ok(vault) => Ok(DiskVault { vault }),
            Err(VaultFault::NoGeneration) => Err(Trouble::NoState),
            Err(VaultFault::Vault(error)) => Err(Trouble::Vault(error)),
        }
    }
}

impl Vault for DiskVault {
    ghost known = { λ _. ⊥ };

    ghost seen = { λ _. record { cells = λ _ _. None; journal = [] } };

    ghost attested = { λ _ place. ⊥ };

    ghost may_leave = { λ _ stop i. ⊥ };

    ghost moment = { λ _. 0 };

    ghost left_since = { λ _ stop t i. ⊥ };

    ghost faults = { λ _. 0 };

    ghost counts_now = { λ _ known stop t i le now. now };

    ghost only_now = { λ _ known stop i left. left };

    fn write_unit(&mut self, place: Place, unit: &[u8]) -> Result<(), VaultError> {
        write_unit(&mut self.vault, place, unit)
    }

    fn sync_units(&mut self, lost: &[bool; DRIVES]) -> Result<(), VaultError> {
        sync_units(&mut self.vault, lost)
    }

    fn read_unit(&mut self, place: Place, out: &mut [u8]) -> Result<UnitRead, VaultError> {
        read_unit(&mut self.vault, place, out)
    }

    fn append(&mut self, batch: &Batch) -> Result<(), VaultError> {
        append(&mut self.vault, batch)
    }

    fn sync_journal(&mut self) -> Result<(), VaultError> {
        sync_journal(&mut self.vault)
    }

    fn clear(&mut self) -> Result<(), VaultError> {
        clear(&mut self.vault)
    }

    fn batches(&mut self) -> Result<usize, VaultError> {
        batches(&mut self.vault)
    }

    fn read_batch(&mut self, index: usize, batch: &mut Batch) -> Result<(), VaultError> {
        read_batch(&mut self.vault, index, batch)
    }
}

// Calls of any vault, without their contracts.

fn write_unit<V: Vault>(vault: &mut V, place: Place, unit: &[u8]) -> Result<(), VaultError> {
    vault.write_unit(place, unit)
}

fn sync_units<V: Vault>(vault: &mut V, lost: &[bool; DRIVES]) -> Result<(), VaultError> {
    vault.sync_units(lost)
}

fn read_unit<V: Vault>(
    vault: &mut V,
    place: Place,
    out: &mut [u8],
) -> Result<UnitRead, VaultError> {
    vault.read_unit(place, out)
}

fn append<V: Vault>(vault: &mut V, batch: &Batch) -> Result<(), VaultError> {
    vault.append(batch)
}

fn sync_journal<V: Vault>(vault: &mut V) -> Result<(), VaultError> {
    vault.sync_journal()
}

fn clear<V: Vault>(vault: &mut V) -> Result<(), VaultError> {
    vault.clear()
}

fn batches<V: Vault>(vault: &mut V) -> Result<usize, VaultError> {
    vault.batches()
}

fn read_batch<V: Vault>(vault: &mut V, index: usize, batch: &mut Batch) -> Result<(), VaultError> {
    vault.read_batch(index, batch)
}
