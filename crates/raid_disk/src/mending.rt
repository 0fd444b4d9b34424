//! Units that aren't as their digests say are computed from the others, and written again.
ghost use Rattle.extent_groups.specs.declared.class.Class.TheVariants.{Mirrored, Parity};
ghost use Rattle.extent_groups.specs.Stores.{IsSlotOf};

use crate::any_vault::mend_in;
use crate::folder::{Folder, Name};
use crate::opened::{OpenFiles, Use, groups_in, open_disk_files, trouble_of};
use crate::table::Table;
use crate::trouble::Trouble;
use array_recovery::{lost_drives, read_marks};
use extent_groups::{Class, GROUPS, GroupTable, Place, SLOTS};
use extents::DRIVES;
use std::alloc::Global;
use std::io;
use unit_repair::MendFault;
use vault::{Batch, UnitRead, Vault, VaultError, add, flush, settle};

// Which drives are lost.
fn lost_of<V: Vault + Drop>(
    files: &mut OpenFiles<V>,
    batch: &mut Batch,
) -> Result<[bool; DRIVES], Trouble> {
    match read_marks(&mut files.vault, batch) {
        Ok(marks) => Ok(lost_drives(&marks, &files.drives.absent())),
        Err(fault) => Err(trouble_of(fault)),
    }
}

// Refuses to mend where one of the drives is lost: what it shares with others can't be computed, and its own units may be old.
fn test_none_lost<V: Vault + Drop>(
    files: &mut OpenFiles<V>,
    batch: &mut Batch,
    drives: u8,
) -> Result<(), Trouble> {
    let lost = lost_of(files, batch)?;
    for drive in 0..drives {
        if lost[usize::from(drive % 16)] {
            return Err(Trouble::RottenAndLost(drive));
        }
    }
    Ok(())
}

// Why units aren't mended.
fn trouble_of_mending(fault: MendFault) -> Trouble {
    match fault {
        MendFault::Memory => Trouble::Memory,
        MendFault::Vault(error) => Trouble::Vault(error),
        // A drive that doesn't return what was written a moment ago fails.
        MendFault::Missing { drive, .. } | MendFault::Rotten { drive, .. } => {
            Trouble::Unread(drive)
        }
        MendFault::Gone(slot) => Trouble::RottenTwice(slot),
        MendFault::Unsound(slot) => Trouble::RottenAndUnsound(slot),
        MendFault::Misfit => Trouble::Unsound,
    }
}

fn warn_mended(rt: &HostRuntime, folder: Folder<'_>, count: u32) -> io::Result<()> {
    let path = folder.path(rt.alloc(), Name::Folder)?;
    eprintln!(rt;
        "raid_disk: {path}: {count} units weren't as their digests say, and are written again"
    )
}

// Mends the units of a disk that is open.
fn mend_opened<V: Vault + Drop>(
    rt: &HostRuntime,
    folder: Folder<'_>,
    files: OpenFiles<V>,
) -> Result<u32, Trouble> {
    let mut files = files;
    let mut batch = Batch::new(rt.alloc());
    let table = files.table;
    let spelled = groups_in(rt.alloc(), &mut files.vault, &table)?;
    test_none_lost(&mut files, &mut batch, spelled.drives)?;
    // What the journal has isn't rotten once it is at its place.
    if let Err(error) = settle(&mut files.vault, &mut batch, &[false; DRIVES]) {
        return Err(Trouble::Vault(error));
    }
    let vault = &mut files.vault;
    match mend_in(rt.alloc(), vault, &table.plan.shape, spelled) {
        Ok(count) => {
            if count > 0 {
                // Nothing is left to do where standard error can't be written.
                let _ = warn_mended(rt, folder, count);
            }
            Ok(count)
        }
        Err(fault) => Err(trouble_of_mending(fault)),
    }
}

/// Mends the units of a disk of which no drive is lost. Returns how many.
pub(crate) fn mend_disk(rt: &HostRuntime, folder: Folder<'_>) -> Result<u32, Trouble> {
    let (_lock, files) = open_disk_files(rt, folder, Use::Serves)?;
    mend_opened(rt, folder, files)
}

// Puts the unit at a place into a batch, if it is rotten: with its own bytes, whose digest it gets then. Takes a buffer of a unit's length.
fn accept_unit<V: Vault>(
    vault: &mut V,
    batch: &mut Batch,
    place: Place,
    unit: &mut [u8],
) -> Result<(), VaultError> {
    // Of a rotten unit's bytes a vault promises nothing: not another unit's, if it gives none.
    unit.fill(0);
    if vault.read_unit(place, unit)? == UnitRead::Rotten {
        batch.push(place, unit)?;
    }
    Ok(())
}

// Does so with each unit of a drive.
fn accept_drive<V: Vault>(
    vault: &mut V,
    batch: &mut Batch,
    drive: u8,
    units: u32,
    unit: &mut [u8],
) -> Result<(), VaultError> {
    for address in 0..units {
        accept_unit(vault, batch, Place { drive, address }, unit)?;
    }
    Ok(())
}

// Does so with both copies of a mirrored slot.
fn accept_pair<V: Vault>(
    vault: &mut V,
    batch: &mut Batch,
    groups: &GroupTable,
    slot: u16,
    unit: &mut [u8],
) -> Result<(), VaultError>
    requires { IsSlotOf Mirrored groups.now slot }
{
    let (first, second) = groups.pair_of(slot);
    accept_unit(vault, batch, first, unit)?;
    accept_unit(vault, batch, second, unit)
}

// Does so with each unit of a parity slot's row.
fn accept_row<V: Vault>(
    vault: &mut V,
    batch: &mut Batch,
    groups: &GroupTable,
    slot: u16,
    unit: &mut [u8],
) -> Result<(), VaultError>
    requires { IsSlotOf Parity groups.now slot }
{
    let at = groups.row_of(slot);
    for member in 0..groups.members(slot / SLOTS).len() as u8 {
        let place = groups.place(slot / SLOTS, member, at.offset);
        accept_unit(vault, batch, place, unit)?;
    }
    Ok(())
}

// Does so with a slot's copies, or the units of its row.
fn accept_slot<V: Vault>(
    vault: &mut V,
    batch: &mut Batch,
    groups: &GroupTable,
    slot: u16,
    unit: &mut [u8],
) -> Result<(), VaultError> {
    if slot % SLOTS >= groups.slots_of(slot / SLOTS) {
        return Ok(());
    }
    match groups.class_of(slot / SLOTS) {
        Some(Class::Mirrored) => accept_pair(vault, batch, groups, slot, unit),
        Some(Class::Parity) => accept_row(vault, batch, groups, slot, unit),
        None => Ok(()),
    }
}

// How many units a batch has.
fn count_of(batch: &Batch) -> u32 {
    u32::try_from(batch.len()).unwrap_or(u32::MAX)
}

// Writes the units of a batch: all of them or, where it is stopped, none, since units that are computed later would build on some of them.
fn write_accepted<V: Vault>(
    vault: &mut V,
    batch: &mut Batch,
    lost: &[bool; DRIVES],
) -> Result<(), VaultError> {
    if batch.is_empty() {
        return Ok(());
    }
    add(vault, batch)?;
    flush(vault)?;
    settle(vault, batch, lost)
}

// Puts all rotten units of the drives that aren't lost into a batch.
fn accept_units<V: Vault>(
    alloc: Global,
    vault: &mut V,
    batch: &mut Batch,
    table: &Table,
    lost: &[bool; DRIVES],
) -> Result<(), VaultError> {
    let units = table.plan.shape.drive_units();
    let mut unit = vec![in alloc; 0u8; table.plan.shape.unit_bytes()]?;
    for drive in 0..table.drives {
        if !lost[usize::from(drive % 16)] {
            accept_drive(vault, batch, drive, units, &mut unit)?;
        }
    }
    Ok(())
}

// Takes all rotten units as they are, of a vault that is settled. Takes an empty batch.
fn accept_all<V: Vault>(
    alloc: Global,
    vault: &mut V,
    batch: &mut Batch,
    table: &Table,
    lost: &[bool; DRIVES],
) -> Result<u32, VaultError> {
    batch.clear();
    accept_units(alloc, vault, batch, table, lost)?;
    let count = count_of(batch);
    write_accepted(vault, batch, lost)?;
    Ok(count)
}

// Takes the rotten units of a disk that is open as they are.
fn accept_opened<V: Vault + Drop>(alloc: Global, files: OpenFiles<V>) -> Result<u32, Trouble> {
    let mut files = files;
    let mut batch = Batch::new(alloc);
    let table = files.table;
    let lost = lost_of(&mut files, &mut batch)?;
    if let Err(error) = settle(&mut files.vault, &mut batch, &lost) {
        return Err(Trouble::Vault(error));
    }
    match accept_all(alloc, &mut files.vault, &mut batch, &table, &lost) {
        Ok(count) => Ok(count),
        Err(error) => Err(Trouble::Vault(error)),
    }
}

// Puts the rotten units of a slot's row into a batch.
fn accept_row_of<V: Vault>(
    alloc: Global,
    vault: &mut V,
    batch: &mut Batch,
    table: &Table,
    slot: u16,
) -> Result<(), Trouble> {
    let spelled = groups_in(alloc, vault, table)?;
    let mut unit = vec![in alloc; 0u8; table.plan.shape.unit_bytes()]?;
    match accept_slot(vault, batch, &spelled.groups, slot, &mut unit) {
        Ok(()) => Ok(()),
        Err(error) => Err(Trouble::Vault(error)),
    }
}

// Takes the rotten units of a slot's row as they are, of a disk that is open and settled, and of which no drive is lost.
fn accept_slot_opened<V: Vault + Drop>(
    alloc: Global,
    files: OpenFiles<V>,
    slot: u16,
) -> Result<u32, Trouble> {
    let mut files = files;
    let mut batch = Batch::new(alloc);
    let table = files.table;
    accept_row_of(alloc, &mut files.vault, &mut batch, &table, slot)?;
    let count = count_of(&batch);
    match write_accepted(&mut files.vault, &mut batch, &[false; DRIVES]) {
        Ok(()) => Ok(count),
        Err(error) => Err(Trouble::Vault(error)),
    }
}

// Takes the rotten units of a slot's row as they are, after `mend_disk` refused for them: it has settled the disk.
fn accept_slot_of_disk(rt: &HostRuntime, folder: Folder<'_>, slot: u16) -> Result<u32, Trouble> {
    let (_lock, files) = open_disk_files(rt, folder, Use::Serves)?;
    accept_slot_opened(rt.alloc(), files, slot)
}

// Takes all units that aren't as their digests say as they are. Returns how many.
fn accept_disk(rt: &HostRuntime, folder: Folder<'_>) -> Result<u32, Trouble> {
    let (_lock, files) = open_disk_files(rt, folder, Use::Serves)?;
    accept_opened(rt.alloc(), files)
}

/// Units that were mended, and that were taken as they are.
#[derive(Clone, Copy)]
pub(crate) struct Mended {
    pub(crate) computed: u32,
    pub(crate) accepted: u32,
}

// How many units of a drive aren't as their digests say. Takes a buffer of a unit's length.
fn count_drive<V: Vault>(
    vault: &mut V,
    drive: u8,
    units: u32,
    unit: &mut [u8],
) -> Result<u32, VaultError> {
    let mut count = 0u32;
    for address in 0..units {
        if vault.read_unit(Place { drive, address }, unit)? == UnitRead::Rotten {
            count = count.saturating_add(1);
        }
    }
    Ok(count)
}

// How many units of a disk that is open aren't as their digests say.
fn count_opened<V: Vault + Drop>(alloc: Global, files: OpenFiles<V>) -> Result<u32, Trouble> {
    let mut files = files;
    let plan = files.table.plan;
    let mut unit = vec![in alloc; 0u8; plan.shape.unit_bytes()]?;
    let mut count = 0u32;
    for drive in 0..files.table.drives {
        match count_drive(&mut files.vault, drive, plan.shape.drive_units(), &mut unit) {
            Ok(more) => count = count.saturating_add(more),
            Err(error) => return Err(Trouble::Vault(error)),
        }
    }
    Ok(count)
}

fn count_rotten(rt: &HostRuntime, folder: Folder<'_>) -> Result<u32, Trouble> {
    let (_lock, files) = open_disk_files(rt, folder, Use::Serves)?;
    count_opened(rt.alloc(), files)
}

// Mends the units of a disk after `mend_disk` refused to, and takes the units of those rows as they are for which it does.
fn accept_rows(rt: &HostRuntime, folder: Folder<'_>) -> Result<Mended, Trouble> {
    let rotten = count_rotten(rt, folder)?;
    let mut accepted = 0u32;
    // A row is accepted at each turn.
    for _turn in 0..GROUPS as u32 * SLOTS as u32 {
        match mend_disk(rt, folder) {
            Err(Trouble::RottenTwice(slot)) => {
                let more = accept_slot_of_disk(rt, folder, slot)?;
                if more == 0 {
                    return Err(Trouble::RottenTwice(slot));
                }
                accepted = accepted.saturating_add(more);
            }
            // What could be computed is written; rows that were accepted may contradict themselves.
            Ok(_) | Err(Trouble::RottenAndUnsound(_)) => {
                return Ok(Mended {
                    computed: rotten.saturating_sub(accepted),
                    accepted,
                });
            }
            Err(trouble) => return Err(trouble),
        }
    }
    Err(Trouble::Unsound)
}

/// Mends the units of a disk, and takes those as they are that can't be computed: two or more of one row, or any if a drive is lost.
pub(crate) fn mend_or_accept(rt: &HostRuntime, folder: Folder<'_>) -> Result<Mended, Trouble> {
    match mend_disk(rt, folder) {
        Err(Trouble::RottenTwice(_)) => accept_rows(rt, folder),
        Err(Trouble::RottenAndLost(_)) => Ok(Mended {
            computed: 0,
            accepted: accept_disk(rt, folder)?,
        }),
        mended => Ok(Mended {
            computed: mended?,
            accepted: 0,
        }),
    }
}
