//! A new disk.
use crate::any_vault::make_zero_array;
use crate::disk_files::DiskFiles;
use crate::folder::{Folder, Name};
use crate::identity::new_identity;
use crate::opened::{file_bytes, groups_of, header_of, layout_of};
use crate::pair_files::PairFiles;
use crate::pairs::{Pair, Pairs, join_pairs};
use crate::places::test_names;
use crate::table::Table;
use crate::texts::{write_places, write_table};
use crate::trouble::{Trouble, unwritten};
use blank_array::BlankFault;
use disk_shape::{Plan, plan_disk};
use file_vault::{Layout, RealFiles, TABLE_FILE, TABLE_SECOND, Twin, write_header};
use std::fs::{self, File, OpenOptions};
use std::io;
use std::io::Write;
use uuid::Uuid;
use vault::TABLE;

// Opens a file that isn't there, for reading too.
fn make_file(rt: &HostRuntime, folder: Folder<'_>, name: Name) -> Result<File, Trouble> {
    let path = folder.path(rt.alloc(), name)?;
    match OpenOptions::new()
        .read(true)
        .write(true)
        .create_new(true)
        .open(rt, &path)
    {
        Ok(file) => Ok(file),
        Err(error) if error.kind() == io::ErrorKind::AlreadyExists => Err(Trouble::Exists(name)),
        Err(error) => Err(unwritten(error, name)),
    }
}

// Makes a file of zeros, over which a vault writes blank units, no lost drives, and an empty journal.
fn make_zeros(
    rt: &HostRuntime,
    folder: Folder<'_>,
    name: Name,
    bytes: u64,
) -> Result<File, Trouble> {
    let mut file = make_file(rt, folder, name)?;
    match write_zeros(&mut file, bytes) {
        Ok(()) => Ok(file),
        Err(error) => Err(unwritten(error, name)),
    }
}

/// Writes zeros, and makes them durable, so that the system has room for all bytes of the file from the start.
pub(crate) fn write_zeros(file: &mut File, bytes: u64) -> io::Result<()> {
    let zeros = [0u8; 4096];
    for _piece in 0..bytes / 4096 {
        file.write_all(&zeros)?;
    }
    file.write_all(&zeros[..(bytes % 4096) as usize])?;
    file.sync_all()
}

/// Writes a text, and makes it durable.
pub(crate) fn write_text(file: &mut File, text: &str) -> io::Result<()> {
    file.write_all(text.as_bytes())?;
    file.sync_all()
}

// Makes the folder, if it isn't there.
fn make_folder(rt: &HostRuntime, folder: Folder<'_>) -> Result<(), Trouble> {
    match fs::create_dir(rt, folder.name) {
        Ok(()) => Ok(()),
        Err(error) if error.kind() == io::ErrorKind::AlreadyExists => Ok(()),
        Err(error) => Err(unwritten(error, Name::Folder)),
    }
}

/// Whether a file is there.
pub(crate) fn is_there(rt: &HostRuntime, folder: Folder<'_>, name: Name) -> Result<bool, Trouble> {
    let path = folder.path(rt.alloc(), name)?;
    match fs::exists(rt, &path) {
        Ok(is_there) => Ok(is_there),
        Err(error) => Err(unwritten(error, name)),
    }
}

// Refuses a folder that has a file of a disk.
fn look(rt: &HostRuntime, folder: Folder<'_>, drives: u8) -> Result<(), Trouble> {
    for name in [
        Name::Places,
        Name::Table,
        Name::TableCopy,
        Name::Fresh,
        Name::OneState,
        Name::State(Twin::First),
        Name::State(Twin::Second),
        Name::OneJournal,
        Name::Journal(Twin::First),
        Name::Journal(Twin::Second),
    ] {
        if is_there(rt, folder, name)? {
            return Err(Trouble::Exists(name));
        }
    }
    for drive in 0..drives {
        if is_there(rt, folder, Name::Drive(drive))? {
            return Err(Trouble::Exists(Name::Drive(drive)));
        }
    }
    Ok(())
}

// Makes the files of the drives, and both of the state and of the journal.
fn make_files(
    rt: &HostRuntime,
    folder: Folder<'_>,
    layout: &Layout,
    plan: &Plan,
) -> Result<RealFiles, Trouble> {
    let mut files = RealFiles::new(rt.alloc());
    for drive in 0..plan.drives {
        let bytes = file_bytes(layout, drive);
        files.put(drive, make_zeros(rt, folder, Name::Drive(drive), bytes)?)?;
    }
    for pair in [Pair::State, Pair::Journal] {
        let bytes = match pair {
            Pair::State => TABLE_FILE,
            Pair::Journal => file_bytes(layout, pair.number(Twin::First)),
        };
        for twin in [Twin::First, Twin::Second] {
            let file = make_zeros(rt, folder, pair.name(twin), bytes)?;
            files.put(pair.number(twin), file)?;
        }
    }
    Ok(files)
}

// Writes into each file what it is.
fn mark_files(
    files: &mut DiskFiles,
    layout: &Layout,
    identity: Uuid,
    drives: u8,
) -> Result<(), Trouble> {
    for number in 0..TABLE_SECOND + 1 {
        if number < drives || number >= TABLE {
            if write_header(files, &header_of(layout, number, identity.into_bytes())).is_err() {
                return Err(Trouble::Unwritten(number));
            }
        }
    }
    Ok(())
}

// Makes the entries of the folders durable in which the drives' files are.
fn sync_places(rt: &HostRuntime, folder: Folder<'_>, drives: u8) -> Result<(), Trouble> {
    for drive in 0..drives {
        if let Err(error) = folder.sync_above(rt, Name::Drive(drive)) {
            return Err(unwritten(error, Name::Drive(drive)));
        }
    }
    Ok(())
}

// Why no array is made in a new disk's files.
fn trouble_of_blank(fault: BlankFault) -> Trouble {
    match fault {
        BlankFault::Memory => Trouble::Memory,
        BlankFault::Vault(error) => Trouble::Vault(error),
        BlankFault::Unsound => Trouble::Unsound,
    }
}

// Makes the files of a disk.
fn marked_files(
    rt: &HostRuntime,
    folder: Folder<'_>,
    layout: &Layout,
    plan: &Plan,
    identity: Uuid,
) -> Result<PairFiles, Trouble> {
    let files = make_files(rt, folder, layout, plan)?;
    let mut files = DiskFiles::over(rt.alloc(), files, false);
    mark_files(&mut files, layout, identity, plan.drives)?;
    let mut pairs = Pairs::new();
    join_pairs(files, &mut pairs)
}

// Makes an array of zeros in a new disk's files.
fn make_array(rt: &HostRuntime, files: PairFiles, plan: &Plan) -> Result<(), Trouble> {
    let (groups, extents) = groups_of(rt.alloc(), plan)?;
    match make_zero_array(rt.alloc(), files, &groups, &extents, plan.drives) {
        Some(Ok(())) => Ok(()),
        Some(Err(fault)) => Err(trouble_of_blank(fault)),
        None => Err(Trouble::NoState),
    }
}

/// Makes a disk of `size` bytes, all zero, in blocks of `block` bytes. What an attempt that failed or was stopped has made stays, and
/// is in the way of the next one.
pub(crate) fn create_disk(
    rt: &HostRuntime,
    folder: Folder<'_>,
    size: u64,
    block: u32,
    drives: u8,
) -> Result<u8, Trouble> {
    let plan = match plan_disk(size, block, drives) {
        Ok(plan) => plan,
        Err(fault) => return Err(Trouble::Shape(fault)),
    };
    if folder.places.len() > usize::from(drives) {
        return Err(Trouble::Places);
    }
    let number = new_identity(rt)?;
    let identity = Uuid::from_bytes(number);
    let layout = layout_of(&plan, plan.drives);
    make_folder(rt, folder)?;
    test_names(rt, folder, drives)?;
    look(rt, folder, drives)?;
    let files = marked_files(rt, folder, &layout, &plan, identity)?;
    make_array(rt, files, &plan)?;
    write_places(rt, folder)?;
    sync_places(rt, folder, drives)?;
    // The table comes last: a folder without one is no disk.
    if let Err(error) = folder.sync(rt) {
        return Err(unwritten(error, Name::Folder));
    }
    let table = Table {
        identity: number,
        plan,
        drives,
    };
    write_table(rt, folder, &table)?;
    Ok(0)
}
