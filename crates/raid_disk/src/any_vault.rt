//! Calls of the libraries, over any vault. Their contracts say what a vault has of the array at any moment. Of the files of a process no
//! contract says what they keep, so nothing here builds on that; spelled out for the vault of a disk, which is five types deep, each of
//! these contracts would take minutes to check.
ghost use Rattle.std.specs.Prelude.{◌≡◌};

use array_recovery::{Found, RecoveryFault, find, open_store};
use blank_array::{BlankFault, make_disk};
use byte_store::StoreFault;
use cached_drive::Saved;
use drive_addition::{AdditionFault, add_drive};
use drive_rebuild::{RebuildFault, Scrubbed, Watch, replace_drive, scrub_vault};
use drive_removal::{RemovalFault, remove_drive};
use extent_groups::GroupTable;
use extents::{DRIVES, ExtentTable, Shape};
use file_vault::{FileVault, Files, Layout, StampedFiles};
use group_form::{FormFault, Spelled, find_groups};
use history::{Chronicle, Opened};
use journaled_store::{JournaledStore, ScrubPosition};
use std::alloc::Global;
use std::io::{Read, Write};
use unit_repair::{MendFault, mend};
use vault::{Vault, VaultError};
use vault_server::{Served, serve_vault};
use watched_store::Sees;

/// Why a vault isn't opened.
pub(crate) enum VaultFault {
    /// The files don't say which batch was settled last.
    NoGeneration,
    Vault(VaultError),
}

/// The vault that files have.
pub(crate) fn open_file_vault<F: Files + Drop>(
    alloc: Global,
    files: F,
    layout: Layout,
) -> Result<FileVault<StampedFiles<F>>, VaultFault> {
    let Ok(files) = StampedFiles::open(files) else {
        return Err(VaultFault::NoGeneration);
    };
    match FileVault::open(alloc, files, layout) {
        Ok(vault) => Ok(vault),
        Err((error, _files)) => Err(VaultFault::Vault(error)),
    }
}

/// Makes an array of zeros in the files of a new disk. None where the files don't say which batch was settled last.
pub(crate) fn make_zero_array<F: Files + Drop>(
    alloc: Global,
    files: F,
    groups: &GroupTable,
    extents: &ExtentTable,
    drives: u8,
) -> Option<Result<(), BlankFault>> {
    let Ok(files) = StampedFiles::open(files) else {
        return None;
    };
    match make_disk(alloc, files, groups, extents, drives) {
        Ok(_vault) => Some(Ok(())),
        Err(fault) => Some(Err(fault)),
    }
}

/// The groups that a vault has.
pub(crate) fn groups_of_vault<V: Vault>(
    alloc: Global,
    vault: &mut V,
    shape: &Shape,
) -> Result<Spelled, FormFault> {
    find_groups(alloc, vault, shape)
}

/// What a vault has of an array's drives.
pub(crate) fn find_drives<V: Vault>(
    alloc: Global,
    vault: &mut V,
    shape: &Shape,
    drives: u8,
    absent: &[bool; DRIVES],
) -> Result<Found, RecoveryFault> {
    find(alloc, vault, shape, drives, absent)
}

/// Tests the slots of the array that a vault has.
pub(crate) fn scrub_in<V: Vault>(
    alloc: Global,
    vault: &mut V,
    shape: &Shape,
    spelled: Spelled,
    absent: &[bool; DRIVES],
) -> Result<Scrubbed, RebuildFault> {
    let Spelled {
        groups,
        extents,
        drives,
    } = spelled;
    scrub_vault(alloc, vault, shape, groups, extents, drives, absent)
}

/// Opens the array that a vault has.
pub(crate) fn open_array_of<N: Chronicle, V: Vault + Drop>(
    alloc: Global,
    vault: V,
    opened: Opened<Saved>,
    shape: &Shape,
    spelled: Spelled,
    size: u64,
    absent: &[bool; DRIVES],
    settle_at: u64,
) -> Result<JournaledStore<N, V>, (RecoveryFault, V)>
    requires { opened ≡ N.chronicle }
{
    let Spelled {
        groups,
        extents,
        drives,
    } = spelled;
    open_store::<N, V>(
        alloc, vault, opened, shape, groups, extents, drives, size, absent, settle_at,
    )
}

/// Writes what the journal has to its places.
pub(crate) fn settle_store<N: Chronicle, V: Vault + Drop>(
    store: &mut JournaledStore<N, V>,
) -> Result<(), StoreFault> {
    store.settle()
}

/// Serves the array that a vault has to a client.
pub(crate) fn serve_array<
    N: Chronicle,
    V: Vault + Drop,
    W: Sees<JournaledStore<N, V>> + Drop,
    R: Read,
    O: Write,
>(
    alloc: Global,
    vault: V,
    opened: Opened<Saved>,
    shape: &Shape,
    spelled: Spelled,
    size: u64,
    absent: &[bool; DRIVES],
    settle_at: u64,
    scrub_at: ScrubPosition,
    watch: W,
    reader: &mut R,
    writer: &mut O,
) -> Result<Served<N, V, W>, (RecoveryFault, V)>
    requires { opened ≡ N.chronicle }
{
    let Spelled {
        groups,
        extents,
        drives,
    } = spelled;
    serve_vault::<N, V, W, R, O>(
        alloc, vault, opened, shape, groups, extents, drives, size, absent, settle_at, scrub_at,
        watch, reader, writer,
    )
}

/// Adds a drive to the array that a vault has.
pub(crate) fn add_to<V: Vault>(
    alloc: Global,
    vault: &mut V,
    shape: &Shape,
    spelled: Spelled,
) -> Result<(), AdditionFault> {
    let Spelled {
        groups,
        extents,
        drives,
    } = spelled;
    add_drive(alloc, vault, shape, groups, extents, drives)
}

/// Takes the last drive out of the array that a vault has.
pub(crate) fn remove_from<V: Vault>(
    alloc: Global,
    vault: &mut V,
    shape: &Shape,
    spelled: Spelled,
) -> Result<(), RemovalFault> {
    let Spelled {
        groups,
        extents,
        drives,
    } = spelled;
    remove_drive(alloc, vault, shape, groups, extents, drives)
}

/// Gives a lost drive of the array that a vault has its units again.
pub(crate) fn replace_in<V: Vault, W: Watch>(
    alloc: Global,
    vault: &mut V,
    watch: &mut W,
    shape: &Shape,
    spelled: Spelled,
    number: u8,
) -> Result<(), RebuildFault> {
    let Spelled {
        groups,
        extents,
        drives,
    } = spelled;
    replace_drive(alloc, vault, watch, shape, groups, extents, drives, number)
}

/// Writes the units of the array that a vault has again that aren't as their digests say.
pub(crate) fn mend_in<V: Vault>(
    alloc: Global,
    vault: &mut V,
    shape: &Shape,
    spelled: Spelled,
) -> Result<u32, MendFault> {
    let Spelled {
        groups,
        extents,
        drives,
    } = spelled;
    mend(alloc, vault, shape, groups, extents, drives)
}
