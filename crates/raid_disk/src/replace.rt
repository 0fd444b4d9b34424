//! A lost drive's file is made again, and gets its units from the others'.
ghost use Rattle.std.specs.Prelude.{◌≡◌};

use crate::any_vault::{replace_in, settle_store};
use crate::create::write_zeros;
use crate::disk_files::DiskFiles;
use crate::disk_vault::DiskVault;
use crate::drives::Drives;
use crate::folder::{Folder, Name};
use crate::opened::{
    OpenFiles, Use, file_bytes, groups_in, header_of, layout_of, open_array, open_disk_files,
    open_vault,
};
use crate::places::{places_with, test_names};
use crate::progress;
use crate::remains::fresh_file;
use crate::table::Table;
use crate::texts::write_places;
use crate::trouble::{Trouble, unwritten, unwritten_at};
use cached_drive::Saved;
use drive_places::{Sight, Verdict};
use drive_rebuild::{RebuildFault, Watch};
use file_vault::{Files, RealFiles, write_header};
use history::{Chronicle, Opened};
use journaled_store::JournaledStore;
use std::alloc::AllocError;
use std::fs::{self, File};
use std::io;
use std::marker::Brand;
use vault::Vault;

// Says on standard error how many tenths are written.
#[derive(Drop)]
struct Progress<'a> {
    rt: &'a HostRuntime,
    folder: Folder<'a>,
    number: u8,
    tenths: u64,
}

// Writes for `status` how far the replacement is.
fn say_percent(progress: &Progress<'_>, percent: u64, units: u32) -> Result<(), AllocError> {
    let number = progress.number;
    let text = format!(in progress.rt.alloc();
        "drive {number} is being replaced: {percent} percent of {units} units are written\n"
    )?;
    progress::say(progress.rt, progress.folder, &text);
    Ok(())
}

impl<'a> Watch for Progress<'a> {
    fn wrote(&mut self, units: u32, of: u32) {
        let tenths = (10 * u64::from(units))
            .checked_div(u64::from(of))
            .unwrap_or(10);
        if tenths > self.tenths {
            self.tenths = tenths;
            let percent = tenths.saturating_mul(10);
            // Nothing is left to do where standard error can't be written.
            let _ = eprintln!(self.rt; "raid_disk: {percent} percent of {of} units are written");
            let _ = say_percent(self, percent, of);
        }
    }
}

// Tests that this drive is lost, and no other.
fn test_lost<N: Chronicle, V: Vault + Drop>(
    store: &JournaledStore<N, V>,
    number: u8,
) -> Result<(), Trouble> {
    let array = store.world().array();
    if number >= array.drive_count() {
        return Err(Trouble::NoDrive(number));
    }
    for drive in 0..array.drive_count() {
        if drive != number && array.is_lost(drive) {
            return Err(Trouble::OtherLost(drive));
        }
    }
    if !array.is_lost(number) {
        return Err(Trouble::NotLost(number));
    }
    Ok(())
}

// What is at the own place of a lost drive, where the new file may be put in its stead. That another drive's file isn't there, and none
// of this drive elsewhere, is tested.
fn own_place(drives: &Drives, number: u8) -> Result<Sight, Trouble> {
    if drives.verdict(number) == Verdict::Doubled {
        return Err(Trouble::Doubled(number));
    }
    if drives.elsewhere(number).is_some() {
        return Err(Trouble::Elsewhere(number));
    }
    match drives.sights.get(usize::from(number)) {
        Some(Sight::Drive(other)) if *other != number => Err(Trouble::Occupied(number, *other)),
        Some(Sight::Again) => Err(Trouble::Elsewhere(number)),
        Some(sight) => Ok(*sight),
        None => Ok(Sight::Absent),
    }
}

// Settles an array of which this drive alone is lost. Says what is at its place.
fn mark_opened<N: Chronicle, V: Vault + Drop>(
    store: &mut JournaledStore<N, V>,
    drives: &Drives,
    number: u8,
) -> Result<Sight, Trouble> {
    test_lost(store, number)?;
    let sight = own_place(drives, number)?;
    if settle_store(store).is_err() {
        return Err(Trouble::Sync);
    }
    // A drive that failed in this run is lost since.
    test_lost(store, number)?;
    Ok(sight)
}

// Settles a disk whose files are open.
fn mark_files<N: Chronicle, V: Vault + Drop>(
    rt: &HostRuntime,
    folder: Folder<'_>,
    files: OpenFiles<V>,
    number: u8,
    opened: Opened<Saved>,
) -> Result<Sight, Trouble>
    requires { opened ≡ N.chronicle }
{
    let mut disk = open_array::<N, V>(rt, folder, files, 0, opened)?;
    mark_opened(&mut disk.store, &disk.drives, number)
}

// Settles a disk of which this drive alone is lost: the table marks it then. Says what is at its place. Keeps the disk locked.
fn mark_lost<N: Chronicle>(
    rt: &HostRuntime,
    folder: Folder<'_>,
    number: u8,
    opened: Opened<Saved>,
) -> Result<(File, Table, Sight), Trouble>
    requires { opened ≡ N.chronicle }
{
    let (file, files) = open_disk_files(rt, folder, Use::Serves)?;
    let table = files.table;
    let sight = mark_files::<N, DiskVault>(rt, folder, files, number, opened)?;
    Ok((file, table, sight))
}

/// Makes a file of zeros with a drive's header, which isn't the drive's yet.
pub(crate) fn make_fresh(
    rt: &HostRuntime,
    folder: Folder<'_>,
    table: &Table,
    number: u8,
) -> Result<(), Trouble> {
    let layout = layout_of(&table.plan, table.drives);
    let header = header_of(&layout, number, table.identity);
    let path = folder.path(rt.alloc(), Name::FreshDrive(number))?;
    let mut file = fresh_file(rt, &path, &header)?;
    if let Err(error) = write_zeros(&mut file, file_bytes(&layout, number)) {
        return Err(unwritten_at(rt.alloc(), &path, error));
    }
    let mut files = DiskFiles::over(rt.alloc(), RealFiles::new(rt.alloc()), false);
    files.put(number, file)?;
    if write_header(&mut files, &header).is_err() || files.sync(number).is_err() {
        return Err(Trouble::Unwritten(number));
    }
    Ok(())
}

/// Renames a file.
pub(crate) fn rename(
    rt: &HostRuntime,
    folder: Folder<'_>,
    from: Name,
    to: Name,
) -> Result<(), Trouble> {
    let old = folder.path(rt.alloc(), from)?;
    let new = folder.path(rt.alloc(), to)?;
    match fs::rename(rt, &old, &new) {
        Ok(()) => Ok(()),
        Err(error) => Err(unwritten(error, to)),
    }
}

// Whether there is a file, or anything else, of this name.
fn is_there(rt: &HostRuntime, folder: Folder<'_>, name: Name) -> Result<bool, Trouble> {
    let path = folder.path(rt.alloc(), name)?;
    match fs::symlink_metadata(rt, &path) {
        Ok(_) => Ok(true),
        Err(error) if error.kind() == io::ErrorKind::NotFound => Ok(false),
        Err(error) => Err(unwritten(error, name)),
    }
}

fn warn_kept(rt: &HostRuntime, folder: Folder<'_>, number: u8) -> io::Result<()> {
    let drive = folder.path(rt.alloc(), Name::Drive(number))?;
    let old = folder.path(rt.alloc(), Name::OldDrive(number))?;
    eprintln!(rt; "raid_disk: what was at {drive} is kept as {old}")
}

// Keeps what is at a drive's place under another name, unless it is this drive's file, or nothing.
fn keep_old(rt: &HostRuntime, folder: Folder<'_>, number: u8, sight: Sight) -> Result<(), Trouble> {
    if sight == Sight::Drive(number) || !is_there(rt, folder, Name::Drive(number))? {
        return Ok(());
    }
    if is_there(rt, folder, Name::OldDrive(number))? {
        return Err(Trouble::OldThere(number));
    }
    rename(rt, folder, Name::Drive(number), Name::OldDrive(number))?;
    // Nothing is left to do where standard error can't be written.
    let _ = warn_kept(rt, folder, number);
    Ok(())
}

// Whether the place of a drive that is marked is to be another one, where nothing may be.
fn is_moved(
    rt: &HostRuntime,
    folder: Folder<'_>,
    placed: Folder<'_>,
    number: u8,
) -> Result<bool, Trouble> {
    let name = Name::Drive(number);
    let old = folder.path(rt.alloc(), name)?;
    let new = placed.path(rt.alloc(), name)?;
    if old.as_str() == new.as_str() {
        return Ok(false);
    }
    if is_there(rt, placed, name)? {
        return Err(Trouble::PathThere);
    }
    Ok(true)
}

// Gives a drive that is marked a file of zeros, in one piece, at its own place, or at another one, which is its own from then on.
fn put_fresh(
    rt: &HostRuntime,
    folder: Folder<'_>,
    table: &Table,
    number: u8,
    sight: Sight,
    is_moved: bool,
) -> Result<(), Trouble> {
    make_fresh(rt, folder, table, number)?;
    if is_moved {
        // Once a file can be made there: else the disk would have a place that can't be.
        write_places(rt, folder)?;
    } else {
        keep_old(rt, folder, number, sight)?;
    }
    rename(rt, folder, Name::FreshDrive(number), Name::Drive(number))?;
    match folder.sync_above(rt, Name::Drive(number)) {
        Ok(()) => Ok(()),
        Err(error) => Err(unwritten(error, Name::Folder)),
    }
}

// Tests that each drive has a file, also the one that is replaced.
fn test_files(drives: &Drives, count: u8, number: u8) -> Result<(), Trouble> {
    for drive in 0..count {
        // The new file has no generation yet: it gets one as it is made durable.
        let is_old = drive != number && drives.is_old(drive);
        if drives.verdict(drive) != Verdict::Present || is_old {
            return Err(if drive == number {
                Trouble::NewFails(drive)
            } else {
                Trouble::OtherLost(drive)
            });
        }
    }
    Ok(())
}

// The trouble of a drive that can't be replaced, whose file is there.
fn trouble_of(fault: RebuildFault, number: u8) -> Trouble {
    let trouble = Trouble::of_rebuild(fault);
    if trouble.failed_drive() == Some(number) {
        return Trouble::NewFails(number);
    }
    trouble
}

// Replaces a drive that is marked and has a file, of a disk that is open.
fn rebuild_opened<V: Vault + Drop>(
    rt: &HostRuntime,
    folder: Folder<'_>,
    files: OpenFiles<V>,
    table: &Table,
    number: u8,
) -> Result<(), Trouble> {
    let mut files = files;
    let plan = table.plan;
    let spelled = groups_in(rt.alloc(), &mut files.vault, table)?;
    test_files(&files.drives, spelled.drives, number)?;
    let mut progress = Progress {
        rt,
        folder,
        number,
        tenths: 0,
    };
    match replace_in(
        rt.alloc(),
        &mut files.vault,
        &mut progress,
        &plan.shape,
        spelled,
        number,
    ) {
        Ok(()) => Ok(()),
        Err(fault) => Err(trouble_of(fault, number)),
    }
}

// Replaces a drive that is marked and has a file.
fn rebuild(rt: &HostRuntime, folder: Folder<'_>, table: Table, number: u8) -> Result<(), Trouble> {
    let files = open_vault(rt, folder, Use::Serves, table)?;
    rebuild_opened(rt, folder, files, &table, number)
}

fn print_replaced(rt: &HostRuntime, number: u8) -> io::Result<()> {
    println!(rt; "drive{number} is replaced: no drive is missing")
}

/// Gives a lost drive a new file with its units, at its own place, or at a path, which is its place from then on. Stopped at any moment,
/// the disk has the bytes that it had, and the drive is lost until all is done.
pub(crate) fn replace(
    rt: &HostRuntime,
    folder: Folder<'_>,
    number: u8,
    path: Option<&str>,
) -> Result<u8, Trouble> {
    let opened = Opened::new(rt.alloc())?;
    // The folder is locked as long as it is open.
    let (_lock, table, sight) = mark_lost::<Brand>(rt, folder, number, opened)?;
    let places = places_with(rt, folder, number, path)?;
    let placed = Folder {
        name: folder.name,
        places: &places,
        others: folder.others,
        without: None,
    };
    test_names(rt, placed, table.drives)?;
    let is_moved = is_moved(rt, folder, placed, number)?;
    put_fresh(rt, placed, &table, number, sight, is_moved)?;
    let rebuilt = rebuild(rt, placed, table, number);
    progress::end(rt, folder);
    rebuilt?;
    match print_replaced(rt, number) {
        Ok(()) => Ok(0),
        Err(error) => Err(Trouble::Output(error)),
    }
}
