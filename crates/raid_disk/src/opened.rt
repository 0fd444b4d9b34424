//! A disk whose files are open.
ghost use Rattle.std.specs.Prelude.{◌≡◌, ◌<◌};
ghost use Rattle.extent_groups.specs.Groups.{Agree};

use crate::any_vault::{find_drives, groups_of_vault, open_array_of};
use crate::disk_files::DiskFiles;
use crate::disk_vault::DiskVault;
use crate::drives::{Drives, open_drives};
use crate::folder::{Folder, Name};
use crate::notes::{note_drives, note_marked};
use crate::pairs::{Pairs, open_pairs};
use crate::table::{Table, table_in};
use crate::trouble::{Trouble, unread};
use array_recovery::RecoveryFault;
use blank_array::layout_for;
use cached_drive::Saved;
use disk_shape::{Plan, class_of, member_at};
use extent_groups::{GroupRefusal, GroupTable, Member, Place, are_there};
use extents::ExtentTable;
use file_vault::{Files, Header, Layout, RealFiles, TABLE_SECOND, Verdict, judge, read_generation};
use group_form::{FormFault, Spelled};
use history::{Chronicle, Opened};
use journaled_store::JournaledStore;
use std::alloc::{AllocError, Global};
use std::fs::{File, OpenOptions, TryLockError};
use std::io;
use std::io::Read;
use vault::{TABLE, Vault};

/// What a command does with a disk.
#[derive(Clone, Copy, Debug, PartialEq, Eq)]
pub(crate) enum Use {
    /// It reads, and nothing is changed. Others may read as well.
    Looks,
    /// It writes. No other process has the disk.
    Serves,
}

/// A disk that is open.
#[derive(Drop)]
pub(crate) struct Disk<N: Chronicle, V: Vault + Drop> {
    pub(crate) table: Table,
    pub(crate) store: JournaledStore<N, V>,
    /// What was found of the drives' files.
    pub(crate) drives: Drives,
    /// What was found of the state's files, and of the journal's.
    pub(crate) pairs: Pairs,
}

/// Where units lie in the files of a disk of so many drives.
pub(crate) fn layout_of(plan: &Plan, drives: u8) -> Layout {
    layout_for(&plan.shape, drives)
}

/// Bytes of a new disk's file.
pub(crate) fn file_bytes(layout: &Layout, number: u8) -> u64 {
    let past = Place {
        drive: number,
        address: layout.count(number),
    };
    // No file is as long as one without an offset.
    layout.offset(past).unwrap_or(u64::MAX)
}

// Opens the folder, and locks it: a lock on a file would go with the file.
fn lock_folder(rt: &HostRuntime, folder: Folder<'_>, usage: Use) -> Result<File, Trouble> {
    let file = match folder.open(rt) {
        Ok(file) => file,
        Err(error) if error.kind() == io::ErrorKind::NotFound => return Err(Trouble::NoDisk),
        Err(error) => return Err(unread(error, Name::Folder)),
    };
    let locked = match usage {
        Use::Serves => file.try_lock(),
        Use::Looks => file.try_lock_shared(),
    };
    match locked {
        Ok(()) => Ok(file),
        Err(TryLockError::WouldBlock) => Err(Trouble::Busy),
        Err(TryLockError::Error(error)) => Err(unread(error, Name::Folder)),
    }
}

// Reads one of the table's files.
fn read_one(rt: &HostRuntime, folder: Folder<'_>, name: Name) -> Result<Table, Trouble> {
    let Some(mut file) = open_file(rt, folder, name, Use::Looks)? else {
        return Err(Trouble::NoDisk);
    };
    let mut text = String::new(rt.alloc());
    match file.read_to_string(&mut text) {
        Ok(_) => table_in(rt.alloc(), &text),
        Err(error) if error.kind() == io::ErrorKind::InvalidData => Err(Trouble::NoTable),
        Err(error) => Err(unread(error, name)),
    }
}

// Reads the table, or its copy where the table is missing, isn't one, or can't be read.
fn read_table(rt: &HostRuntime, folder: Folder<'_>) -> Result<Table, Trouble> {
    match read_one(rt, folder, Name::Table) {
        Err(trouble @ (Trouble::NoDisk | Trouble::NoTable | Trouble::Read(_, _))) => {
            match read_one(rt, folder, Name::TableCopy) {
                Ok(table) => Ok(table),
                Err(_) => Err(trouble),
            }
        }
        read => read,
    }
}

/// Opens a file; none where there is no such file.
pub(crate) fn open_file(
    rt: &HostRuntime,
    folder: Folder<'_>,
    name: Name,
    usage: Use,
) -> Result<Option<File>, Trouble> {
    let path = folder.path(rt.alloc(), name)?;
    let opened = OpenOptions::new()
        .read(true)
        .write(usage == Use::Serves)
        .open(rt, &path);
    match opened {
        Ok(file) => Ok(Some(file)),
        Err(error) if error.kind() == io::ErrorKind::NotFound => Ok(None),
        Err(error) => Err(unread(error, name)),
    }
}

// Opens the files of a disk's drives. Says what was found of them.
fn open_files(
    rt: &HostRuntime,
    folder: Folder<'_>,
    table: &Table,
    layout: &Layout,
    usage: Use,
) -> Result<(DiskFiles, Drives), Trouble> {
    let looks = usage == Use::Looks;
    let mut files = DiskFiles::over(rt.alloc(), RealFiles::new(rt.alloc()), looks);
    let drives = open_drives(rt, folder, &mut files, layout, table)?;
    Ok((files, drives))
}

/// What a file of a disk says of itself.
pub(crate) fn header_of(layout: &Layout, number: u8, identity: [u8; 16]) -> Header {
    // Both files of the state have the same.
    let like = if number == TABLE_SECOND {
        TABLE
    } else {
        number
    };
    Header {
        identity,
        number,
        unit_bytes: layout.size(like),
        count: layout.count(like),
    }
}

// Notes which drives' files are older copies.
fn note_old<F: Files>(
    files: &mut F,
    layout: &Layout,
    table: &Table,
    drives: &mut Drives,
) -> Result<(), Trouble> {
    let Ok(Some(generation)) = read_generation(files, TABLE) else {
        return Err(Trouble::NoState);
    };
    for drive in 0..table.drives {
        if drives.is_there(drive) {
            let expected = header_of(layout, drive, table.identity);
            match judge(files, &expected, generation) {
                Ok(verdict) => drives.set_old(drive, verdict != Verdict::Good),
                Err(_) => return Err(Trouble::Unread(drive)),
            }
        }
    }
    Ok(())
}

// The extents of a group.
fn members_of(alloc: Global, plan: &Plan, group: u16) -> Result<Vec<Member>, AllocError>
    requires { group < plan.now.groups }
{
    let mut members = Vec::new(alloc);
    for index in 0..plan.members {
        members.push(member_at(plan, group, index))?;
    }
    Ok(members)
}

// Enters a group of a plan.
fn enter(
    alloc: Global,
    plan: &Plan,
    group: u16,
    groups: &mut GroupTable,
    extents: &mut ExtentTable,
) -> Result<(), Trouble>
    requires group { group < plan.now.groups }
    requires agree { Agree groups.old extents.old }
    ensures agree { Agree groups.new extents.new }
{
    let members = members_of(alloc, plan, group)?;
    if !are_there(extents, &members) || !groups.is_free(group) {
        return Err(Trouble::Unsound);
    }
    match groups.put_group(alloc, extents, group, class_of(plan, group), &members) {
        Ok(()) => Ok(()),
        Err(GroupRefusal::Memory) => Err(Trouble::Memory),
        Err(_) => Err(Trouble::Unsound),
    }
}

/// The groups of a new disk, by its plan, and the owners of the extents.
pub(crate) fn groups_of(alloc: Global, plan: &Plan) -> Result<(GroupTable, ExtentTable), Trouble> {
    let mut groups = GroupTable::new(alloc, &plan.shape)?;
    let mut extents = ExtentTable::new(alloc, plan.drives, &plan.shape)?;
    if !groups.agrees(&extents) {
        return Err(Trouble::Unsound);
    }
    for group in 0..plan.groups {
        enter(alloc, plan, group, &mut groups, &mut extents)?;
    }
    Ok((groups, extents))
}

/// The groups that a disk's vault has, the owners of the extents, and how many drives the array has: those of the text, or one less
/// where the addition or the removal of the last one was stopped.
pub(crate) fn groups_in<V: Vault>(
    alloc: Global,
    vault: &mut V,
    table: &Table,
) -> Result<Spelled, Trouble> {
    match groups_of_vault(alloc, vault, &table.plan.shape) {
        Ok(found) if found.drives == table.drives => Ok(found),
        Ok(found) if found.drives == table.drives.saturating_sub(1) => Ok(found),
        Ok(_) | Err(FormFault::Misfit) => Err(Trouble::Unsound),
        Err(FormFault::Memory) => Err(Trouble::Memory),
        Err(FormFault::Vault(error)) => Err(Trouble::Vault(error)),
        Err(FormFault::Missing) => Err(Trouble::Unread(TABLE)),
    }
}

/// Why a disk can't be opened.
pub(crate) fn trouble_of(fault: RecoveryFault) -> Trouble {
    match fault {
        RecoveryFault::Memory => Trouble::Memory,
        RecoveryFault::Vault(error) => Trouble::Vault(error),
        RecoveryFault::Missing { drive, .. } => Trouble::Unread(drive),
        RecoveryFault::Rotten { drive, address } => Trouble::Rotten(drive, address),
        RecoveryFault::Gone(slot) => Trouble::Gone(slot),
        _ => Trouble::Unsound,
    }
}

/// A disk's files, and nothing more.
#[derive(Drop)]
pub(crate) struct OpenFiles<V: Vault + Drop> {
    pub(crate) table: Table,
    pub(crate) vault: V,
    /// What was found of the drives' files.
    pub(crate) drives: Drives,
    pub(crate) pairs: Pairs,
}

// Locks a disk, and reads its table. The folder is locked as long as the file is open.
fn open_table(rt: &HostRuntime, folder: Folder<'_>, usage: Use) -> Result<(File, Table), Trouble> {
    let file = lock_folder(rt, folder, usage)?;
    let table = read_table(rt, folder)?;
    Ok((file, table))
}

/// Opens the other files of a disk, whose folder is locked. A drive may have none.
pub(crate) fn open_vault(
    rt: &HostRuntime,
    folder: Folder<'_>,
    usage: Use,
    table: Table,
) -> Result<OpenFiles<DiskVault>, Trouble> {
    let layout = layout_of(&table.plan, table.drives);
    let (files, mut drives) = open_files(rt, folder, &table, &layout, usage)?;
    // Nothing is left to do where standard error can't be written.
    let _ = note_drives(rt, folder, &drives, table.drives);
    let (mut files, pairs) = open_pairs(rt, folder, files, &layout, &table, usage)?;
    note_old(&mut files, &layout, &table, &mut drives)?;
    let vault = DiskVault::open(rt.alloc(), files, layout)?;
    Ok(OpenFiles {
        table,
        vault,
        drives,
        pairs,
    })
}

// Names the drives whose files are there and that are marked as lost, of a disk that can't be opened.
fn name_marked<V: Vault + Drop>(
    rt: &HostRuntime,
    folder: Folder<'_>,
    vault: V,
    plan: &Plan,
    count: u8,
    drives: &Drives,
) -> Result<(), Trouble> {
    let mut vault = vault;
    let absent = drives.absent();
    let found = match find_drives(rt.alloc(), &mut vault, &plan.shape, count, &absent) {
        Ok(found) => found,
        Err(fault) => return Err(trouble_of(fault)),
    };
    for drive in 0..count {
        let spot = usize::from(drive % 16);
        if found.lost[spot] && drives.is_there(drive) {
            // Nothing is left to do where standard error can't be written.
            let _ = note_marked(rt, folder, drive);
        }
    }
    Ok(())
}

/// Why a disk isn't opened. Where a slot's units are gone, the drives that are marked are named.
pub(crate) fn unopened<V: Vault + Drop>(
    rt: &HostRuntime,
    folder: Folder<'_>,
    fault: RecoveryFault,
    vault: V,
    plan: &Plan,
    count: u8,
    drives: &Drives,
) -> Trouble {
    let RecoveryFault::Gone(slot) = fault else {
        return trouble_of(fault);
    };
    match name_marked(rt, folder, vault, plan, count, drives) {
        Ok(()) => Trouble::Gone(slot),
        Err(trouble) => trouble,
    }
}

/// How many units so many bytes are; at least one.
pub(crate) fn units_in(bytes: u64, plan: &Plan) -> u64 {
    bytes
        .checked_div(plan.shape.unit_bytes() as u64)
        .unwrap_or(1)
        .max(1)
}

/// Opens a disk whose files are open, with all that its journal has, which is settled from so many bytes of units on. A drive without
/// a file is lost.
pub(crate) fn open_array<N: Chronicle, V: Vault + Drop>(
    rt: &HostRuntime,
    folder: Folder<'_>,
    files: OpenFiles<V>,
    journal: u64,
    opened: Opened<Saved>,
) -> Result<Disk<N, V>, Trouble>
    requires { opened ≡ N.chronicle }
{
    let alloc = rt.alloc();
    let table = files.table;
    let plan = table.plan;
    let mut vault = files.vault;
    let spelled = groups_in(alloc, &mut vault, &table)?;
    let count = spelled.drives;
    let units = units_in(journal, &plan);
    let store = open_array_of::<N, V>(
        alloc,
        vault,
        opened,
        &plan.shape,
        spelled,
        plan.size,
        &files.drives.absent(),
        units,
    );
    match store {
        Ok(store) => Ok(Disk {
            table,
            store,
            drives: files.drives,
            pairs: files.pairs,
        }),
        Err((fault, vault)) => Err(unopened(rt, folder, fault, vault, &plan, count, &files.drives)),
    }
}

/// Opens the files of a disk. The folder is locked as long as the file is open.
pub(crate) fn open_disk_files(
    rt: &HostRuntime,
    folder: Folder<'_>,
    usage: Use,
) -> Result<(File, OpenFiles<DiskVault>), Trouble> {
    let (file, table) = open_table(rt, folder, usage)?;
    let files = open_vault(rt, folder, usage, table)?;
    Ok((file, files))
}
