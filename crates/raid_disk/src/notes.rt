//! What is said on standard error of drives' files that aren't where they should be, or aren't drives'.
use crate::drives::{Drives, path_at};
use crate::folder::{Folder, Name};
use drive_places::{Choice, Sight, Verdict, choose};
use history::Chronicle;
use journaled_store::JournaledStore;
use std::alloc::AllocError;
use std::io;
use vault::Vault;

// What was seen at a path.
fn put_fact(text: &mut String, path: &str, sight: Sight) -> Result<(), AllocError> {
    match sight {
        Sight::Absent => write!(text, "{path} isn't there"),
        Sight::Unreadable(Some(code)) => {
            let error = io::Error::from_raw_os_error(code);
            write!(text, "{path} can't be opened or read: {error}")
        }
        Sight::Unreadable(None) => write!(text, "{path} can't be read"),
        Sight::Foreign => write!(text, "{path} isn't a file of this disk"),
        Sight::NoDrive => write!(text, "{path} is a file of this disk, but no drive's"),
        Sight::Resized(drive) => {
            write!(
                text,
                "{path} is drive {drive}'s file, but was cut or made longer"
            )
        }
        Sight::Again => write!(
            text,
            "{path} is another name of a file that has its own place"
        ),
        Sight::Drive(drive) => write!(text, "{path} is drive {drive}'s file"),
    }
}

// The first path from an index on that has a drive's file.
fn next_claim(sights: &[Sight], drive: u8, from: usize) -> usize {
    for index in from..sights.len() {
        if sights[index] == Sight::Drive(drive) {
            return index;
        }
    }
    sights.len()
}

// Names two paths that have a drive's file.
fn name_two(
    rt: &HostRuntime,
    folder: Folder<'_>,
    found: &Drives,
    drives: u8,
    drive: u8,
) -> io::Result<()> {
    let first = next_claim(&found.sights, drive, 0);
    let second = next_claim(&found.sights, drive, first.saturating_add(1));
    let one = path_at(rt.alloc(), folder, drives, first)?;
    let other = path_at(rt.alloc(), folder, drives, second)?;
    eprintln!(rt;
        "raid_disk: {one} and {other} are both drive {drive}'s file: drive {drive} is lost until one of them is taken away"
    )
}

// Names the path of a drive's file that isn't at the drive's own place.
fn name_moved(
    rt: &HostRuntime,
    folder: Folder<'_>,
    drives: u8,
    fact: &str,
    drive: u8,
    index: usize,
) -> io::Result<()> {
    let path = path_at(rt.alloc(), folder, drives, index)?;
    eprintln!(rt; "raid_disk: {fact}: {path} is used as drive {drive}")
}

// Says what is wrong with a drive's own place.
fn note_place(
    rt: &HostRuntime,
    folder: Folder<'_>,
    found: &Drives,
    drives: u8,
    drive: u8,
) -> io::Result<()> {
    let sight = match found.sights.get(usize::from(drive)) {
        Some(sight) => *sight,
        None => Sight::Absent,
    };
    let path = folder.path(rt.alloc(), Name::Drive(drive))?;
    let mut fact = String::new(rt.alloc());
    put_fact(&mut fact, &path, sight)?;
    match (found.verdict(drive), choose(&found.sights, drive)) {
        (Verdict::Doubled, _) => name_two(rt, folder, found, drives, drive),
        (Verdict::Present, _) if sight == Sight::Drive(drive) => Ok(()),
        (_, Choice::At(index)) => name_moved(rt, folder, drives, &fact, drive, index),
        _ => eprintln!(rt; "raid_disk: {fact}: drive {drive} is lost"),
    }
}

// Names another path that has no drive's file.
fn note_other(
    rt: &HostRuntime,
    folder: Folder<'_>,
    found: &Drives,
    drives: u8,
    index: usize,
) -> io::Result<()> {
    match found.sights.get(index) {
        Some(Sight::Drive(_) | Sight::Again) | None => Ok(()),
        Some(sight) => {
            let path = path_at(rt.alloc(), folder, drives, index)?;
            let mut fact = String::new(rt.alloc());
            put_fact(&mut fact, &path, *sight)?;
            eprintln!(rt; "raid_disk: {fact}: it isn't used")
        }
    }
}

/// Names each place of a drive that hasn't the drive's file, and each other path that has none.
pub(crate) fn note_drives(
    rt: &HostRuntime,
    folder: Folder<'_>,
    found: &Drives,
    drives: u8,
) -> io::Result<()> {
    for drive in 0..drives {
        note_place(rt, folder, found, drives, drive)?;
    }
    for index in usize::from(drives)..found.sights.len() {
        note_other(rt, folder, found, drives, index)?;
    }
    Ok(())
}

/// Names a drive whose file is there, and that is lost.
pub(crate) fn note_marked(rt: &HostRuntime, folder: Folder<'_>, drive: u8) -> io::Result<()> {
    let path = folder.path(rt.alloc(), Name::Drive(drive))?;
    eprintln!(rt;
        "raid_disk: {path} is an older copy, failed, or was lost before: drive {drive} is lost until it is replaced"
    )
}

/// Names the drives whose files are there and that are lost, on standard error.
pub(crate) fn name_lost<N: Chronicle, V: Vault + Drop>(
    rt: &HostRuntime,
    folder: Folder<'_>,
    store: &JournaledStore<N, V>,
    drives: &Drives,
) -> io::Result<()> {
    let array = store.world().array();
    for drive in 0..array.drive_count() {
        if array.is_lost(drive) && drives.verdict(drive) == Verdict::Present {
            note_marked(rt, folder, drive)?;
        }
    }
    Ok(())
}
