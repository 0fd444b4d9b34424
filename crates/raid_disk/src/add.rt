//! A disk gets one more drive, and its extents are spread over all of them.
ghost use Rattle.std.specs.Prelude.{◌≡◌};

use crate::any_vault::{add_to, settle_store};
use crate::create::is_there;
use crate::disk_vault::DiskVault;
use crate::drives::Drives;
use crate::folder::{Folder, Name};
use crate::opened::{
    OpenFiles, Use, groups_in, header_of, layout_of, open_array, open_disk_files, open_file,
    open_vault, trouble_of,
};
use crate::places::{places_with, test_names};
use crate::progress;
use crate::remains::is_file;
use crate::replace::{make_fresh, rename};
use crate::table::Table;
use crate::texts::{write_places, write_table};
use crate::trouble::{Trouble, unwritten};
use cached_drive::Saved;
use drive_addition::AdditionFault;
use drive_places::Verdict;
use extent_groups::Place;
use extents::DRIVES;
use file_vault::{RealFiles, read_header};
use history::{Chronicle, Opened};
use journaled_store::JournaledStore;
use std::fs::File;
use std::io;
use std::marker::Brand;
use vault::Vault;

// Tests that no drive of the array is lost, but for one that may be.
fn test_whole<N: Chronicle, V: Vault + Drop>(
    store: &JournaledStore<N, V>,
    spare: Option<u8>,
) -> Result<(), Trouble> {
    let array = store.world().array();
    for drive in 0..array.drive_count() {
        if array.is_lost(drive) && Some(drive) != spare {
            return Err(Trouble::LostBeside(drive));
        }
    }
    Ok(())
}

// Settles an array of which no drive is lost, but for one that may be. Says how many drives it has.
fn settle_opened<N: Chronicle, V: Vault + Drop>(
    store: &mut JournaledStore<N, V>,
    spare: Option<u8>,
) -> Result<u8, Trouble> {
    test_whole(store, spare)?;
    if settle_store(store).is_err() {
        return Err(Trouble::Sync);
    }
    // A drive that failed in this run is lost since.
    test_whole(store, spare)?;
    Ok(store.world().array().drive_count())
}

// Refuses to take the last drive's place away while another drive's file is there, or one is at any place but its own.
fn test_places(drives: &Drives, count: u8) -> Result<(), Trouble> {
    for drive in 0..count {
        if drives.elsewhere(drive).is_some() {
            return Err(Trouble::Elsewhere(drive));
        }
    }
    Ok(())
}

// Settles a disk whose files are open.
fn settle_files<N: Chronicle, V: Vault + Drop>(
    rt: &HostRuntime,
    folder: Folder<'_>,
    files: OpenFiles<V>,
    spare: Option<u8>,
    opened: Opened<Saved>,
) -> Result<u8, Trouble>
    requires { opened ≡ N.chronicle }
{
    let mut disk = open_array::<N, V>(rt, folder, files, 0, opened)?;
    if spare.is_some() {
        test_places(&disk.drives, disk.table.drives)?;
    }
    settle_opened(&mut disk.store, spare)
}

/// Settles a disk of which no drive is lost, but for one that may be. Says how many drives its array has. Keeps the disk locked.
pub(crate) fn settle_whole<N: Chronicle>(
    rt: &HostRuntime,
    folder: Folder<'_>,
    spare: Option<u8>,
    opened: Opened<Saved>,
) -> Result<(File, Table, u8), Trouble>
    requires { opened ≡ N.chronicle }
{
    let (file, files) = open_disk_files(rt, folder, Use::Serves)?;
    let table = files.table;
    let drives = settle_files::<N, DiskVault>(rt, folder, files, spare, opened)?;
    Ok((file, table, drives))
}

/// Whether what is at a drive's place is a file of it, whole, as an addition that was stopped may have left it.
pub(crate) fn is_made(
    rt: &HostRuntime,
    folder: Folder<'_>,
    table: &Table,
    number: u8,
) -> Result<bool, Trouble> {
    let path = folder.path(rt.alloc(), Name::Drive(number))?;
    if !is_file(rt, &path) {
        return Ok(false);
    }
    let Some(file) = open_file(rt, folder, Name::Drive(number), Use::Looks)? else {
        return Ok(false);
    };
    let expected = header_of(
        &layout_of(&table.plan, table.drives),
        number,
        table.identity,
    );
    let mut one = RealFiles::new(rt.alloc());
    one.put(0, file)?;
    match read_header(&mut one, 0) {
        Ok(Some(header)) => Ok(header == expected),
        _ => Ok(false),
    }
}

// Makes the new drive's file, unless it is there. Nothing refers to it yet. Another file is never written over.
fn make_drive(
    rt: &HostRuntime,
    folder: Folder<'_>,
    table: &Table,
    number: u8,
    is_given: bool,
) -> Result<(), Trouble> {
    if is_made(rt, folder, table, number)? {
        return Ok(());
    }
    let name = Name::Drive(number);
    if is_there(rt, folder, name)? {
        return Err(if is_given {
            Trouble::PathThere
        } else {
            Trouble::Exists(name)
        });
    }
    make_fresh(rt, folder, table, number)?;
    rename(rt, folder, Name::FreshDrive(number), name)?;
    match folder.sync_above(rt, name) {
        Ok(()) => Ok(()),
        Err(error) => Err(unwritten(error, name)),
    }
}

// Writes blank units to all places of a drive.
fn blank<V: Vault>(
    rt: &HostRuntime,
    vault: &mut V,
    table: &Table,
    number: u8,
) -> Result<(), Trouble> {
    let unit = vec![in rt.alloc(); 0u8; table.plan.shape.unit_bytes()]?;
    for address in 0..table.plan.shape.drive_units() {
        let place = Place {
            drive: number,
            address,
        };
        if let Err(error) = vault.write_unit(place, &unit) {
            return Err(Trouble::Vault(error));
        }
    }
    Ok(())
}

// Why a drive isn't added.
fn trouble_of_addition(fault: AdditionFault) -> Trouble {
    match fault {
        AdditionFault::Memory => Trouble::Memory,
        AdditionFault::Vault(error) => Trouble::Vault(error),
        AdditionFault::Recovery(fault) => trouble_of(fault),
        AdditionFault::Lost(drive) => Trouble::LostBeside(drive),
        AdditionFault::Full => Trouble::Full,
        _ => Trouble::Unsound,
    }
}

// Gives the array of a disk that is open a drive that has a file.
fn add_opened<V: Vault + Drop>(
    rt: &HostRuntime,
    files: OpenFiles<V>,
    table: &Table,
    number: u8,
) -> Result<(), Trouble> {
    let mut files = files;
    if files.drives.verdict(number) != Verdict::Present {
        return Err(Trouble::Unread(number));
    }
    let spelled = groups_in(rt.alloc(), &mut files.vault, table)?;
    blank(rt, &mut files.vault, table, number)?;
    match add_to(rt.alloc(), &mut files.vault, &table.plan.shape, spelled) {
        Ok(()) => Ok(()),
        Err(fault) => Err(trouble_of_addition(fault)),
    }
}

// Gives the array a drive that has a file.
fn add_made(rt: &HostRuntime, folder: Folder<'_>, table: Table, number: u8) -> Result<(), Trouble> {
    let files = open_vault(rt, folder, Use::Serves, table)?;
    add_opened(rt, files, &table, number)
}

// Says for `status` what is under way. Nothing is left to do where that can't be said.
fn say(rt: &HostRuntime, folder: Folder<'_>, number: u8) {
    if let Ok(text) = format!(in rt.alloc(); "drive {number} is being added\n") {
        progress::say(rt, folder, &text);
    }
}

fn print_added(rt: &HostRuntime, number: u8) -> io::Result<()> {
    let drives = number.saturating_add(1);
    println!(rt; "drive{number} is added: the disk has {drives} drives")
}

/// Adds a drive to a disk of which none is lost: its file is made in the folder, or at a path, and extents of the other drives are moved
/// to it, until all have as many. The disk's size stays. Stopped at any moment, the disk has the bytes that it had, on the drives of before or
/// on all of them; in the first case the same command goes on.
pub(crate) fn add(rt: &HostRuntime, folder: Folder<'_>, path: Option<&str>) -> Result<u8, Trouble> {
    let opened = Opened::new(rt.alloc())?;
    // The folder is locked as long as it is open.
    let (_lock, table, number) = settle_whole::<Brand>(rt, folder, None, opened)?;
    if usize::from(number) >= DRIVES {
        return Err(Trouble::Full);
    }
    let places = places_with(rt, folder, number, path)?;
    let grown = Folder {
        name: folder.name,
        places: &places,
        others: folder.others,
        without: None,
    };
    let table = table.with_drives(number + 1);
    test_names(rt, grown, table.drives)?;
    say(rt, folder, number);
    let added = add_prepared(rt, grown, table, number, path.is_some());
    progress::end(rt, folder);
    added?;
    match print_added(rt, number) {
        Ok(()) => Ok(0),
        Err(error) => Err(Trouble::Output(error)),
    }
}

// Makes what the new drive needs, at a path that was given or at the drive's own place, and adds it.
fn add_prepared(
    rt: &HostRuntime,
    folder: Folder<'_>,
    table: Table,
    number: u8,
    is_given: bool,
) -> Result<(), Trouble> {
    make_drive(rt, folder, &table, number, is_given)?;
    // Before the vault has the drive. Until then the array has the drives of before.
    write_places(rt, folder)?;
    write_table(rt, folder, &table)?;
    add_made(rt, folder, table, number)
}
