//! The files of a disk's drives: found by what they say of themselves, wherever they are, and opened.
use crate::disk_files::DiskFiles;
use crate::folder::{Folder, Name};
use crate::opened::{Use, file_bytes, header_of};
use crate::table::Table;
use crate::trouble::Trouble;
use drive_places::{Choice, Sight, Verdict, choose, verdict_of};
use extents::DRIVES;
use file_vault::{Files, Header, Layout, RealFiles, read_header};
use std::alloc::{AllocError, Global};
use std::fs::{self, File, Metadata, OpenOptions, TryLockError};
use std::io;
use std::os::unix::fs::MetadataExt;

/// The system's number for too many open files of all processes, and of this one.
const SYSTEM_FILES: i32 = 23;

const PROCESS_FILES: i32 = 24;

/// What was found of each drive.
#[derive(Drop)]
pub(crate) struct Drives {
    pub(crate) verdicts: [Verdict; DRIVES],
    /// Whether a drive's file is an older copy.
    pub(crate) old: [bool; DRIVES],
    /// What was seen at each path: the drives' own places, and then the others.
    pub(crate) sights: Vec<Sight>,
}

impl Drives {
    /// What was found of a drive.
    pub(crate) fn verdict(&self, drive: u8) -> Verdict {
        self.verdicts[usize::from(drive % 16)]
    }

    /// Whether a drive has a file.
    pub(crate) fn is_there(&self, drive: u8) -> bool {
        self.verdict(drive) == Verdict::Present
    }

    /// Whether a drive's file is an older copy.
    pub(crate) fn is_old(&self, drive: u8) -> bool {
        self.old[usize::from(drive % 16)]
    }

    /// Says whether a drive's file is an older copy.
    pub(crate) fn set_old(&mut self, drive: u8, old: bool) {
        self.old[usize::from(drive % 16)] = old;
    }

    /// Whether nothing is to be read from a drive.
    pub(crate) fn absent(&self) -> [bool; DRIVES] {
        let mut absent = [false; DRIVES];
        for drive in 0..DRIVES {
            absent[drive] = self.verdicts[drive] != Verdict::Present || self.old[drive];
        }
        absent
    }

    /// Where a drive's file is, if it isn't at the drive's own place.
    pub(crate) fn elsewhere(&self, drive: u8) -> Option<usize> {
        match choose(&self.sights, drive) {
            Choice::At(index) if index != usize::from(drive) => Some(index),
            _ => None,
        }
    }
}

/// The path of an index: the drives' own places come first.
pub(crate) fn path_at(
    alloc: Global,
    folder: Folder<'_>,
    drives: u8,
    index: usize,
) -> Result<String, AllocError> {
    if index < usize::from(drives) {
        return folder.path(alloc, Name::Drive(index as u8));
    }
    match folder.others.get(index - usize::from(drives)) {
        Some(path) => {
            let path: &str = path;
            String::from_str(alloc, path)
        }
        None => Ok(String::new(alloc)),
    }
}

// What an error says of a path. Out of memory, or of numbers for open files, it says nothing of it.
fn sight_of(error: io::Error) -> Result<Sight, Trouble> {
    match (error.kind(), error.raw_os_error()) {
        (io::ErrorKind::NotFound | io::ErrorKind::NotADirectory, _) => Ok(Sight::Absent),
        (io::ErrorKind::OutOfMemory, _) => Err(Trouble::Memory),
        (_, Some(SYSTEM_FILES | PROCESS_FILES)) => Err(Trouble::Read(Name::Folder, error)),
        (_, code) => Ok(Sight::Unreadable(code)),
    }
}

// Whether a file is one of a disk.
fn is_of(header: &Header, table: &Table) -> bool {
    let own = header.identity;
    let disk = table.identity;
    own == disk
}

// What a file says that it is.
fn sight_in(
    alloc: Global,
    file: File,
    length: u64,
    layout: &Layout,
    table: &Table,
) -> Result<Sight, Trouble> {
    let mut one = RealFiles::new(alloc);
    one.put(0, file)?;
    let header = match read_header(&mut one, 0) {
        Ok(Some(header)) => header,
        Ok(None) => return Ok(Sight::Foreign),
        Err(_) => return Ok(Sight::Unreadable(None)),
    };
    if !is_of(&header, table) {
        return Ok(Sight::Foreign);
    }
    if header.number >= table.drives {
        return Ok(Sight::NoDrive);
    }
    let expected = header_of(layout, header.number, table.identity);
    if header == expected && length == file_bytes(layout, header.number) {
        Ok(Sight::Drive(header.number))
    } else {
        Ok(Sight::Resized(header.number))
    }
}

// Whether a file was seen before; it is then seen.
fn is_seen(nodes: &mut Vec<(u64, u64)>, data: &Metadata) -> Result<bool, AllocError> {
    let node = (data.dev(), data.ino());
    for index in 0..nodes.len() {
        if nodes[index] == node {
            return Ok(true);
        }
    }
    nodes.push(node)?;
    Ok(false)
}

// What is at a path. Nothing but a file is opened.
fn look_at(
    rt: &HostRuntime,
    path: &str,
    nodes: &mut Vec<(u64, u64)>,
    layout: &Layout,
    table: &Table,
) -> Result<Sight, Trouble> {
    let data = match fs::metadata(rt, path) {
        Ok(data) => data,
        Err(error) => return sight_of(error),
    };
    if !data.is_file() {
        return Ok(Sight::Foreign);
    }
    if is_seen(nodes, &data)? {
        return Ok(Sight::Again);
    }
    match File::open(rt, path) {
        Ok(file) => sight_in(rt.alloc(), file, data.len(), layout, table),
        Err(error) => sight_of(error),
    }
}

// What is at each path where a drive's file may be.
fn look_around(
    rt: &HostRuntime,
    folder: Folder<'_>,
    layout: &Layout,
    table: &Table,
) -> Result<Vec<Sight>, Trouble> {
    let drives = table.drives;
    let mut nodes = Vec::new(rt.alloc());
    let mut sights = Vec::new(rt.alloc());
    for index in 0..usize::from(drives).saturating_add(folder.others.len()) {
        let path = path_at(rt.alloc(), folder, drives, index)?;
        sights.push(look_at(rt, &path, &mut nodes, layout, table)?)?;
    }
    Ok(sights)
}

// Opens a drive's file. A server locks it, and so do those that only look: a file may be in two disks' places.
fn open_path(rt: &HostRuntime, path: &str, usage: Use) -> Result<Result<File, Sight>, Trouble> {
    let opened = OpenOptions::new()
        .read(true)
        .write(usage == Use::Serves)
        .open(rt, path);
    let file = match opened {
        Ok(file) => file,
        Err(error) => return Ok(Err(sight_of(error)?)),
    };
    let locked = match usage {
        Use::Serves => file.try_lock(),
        Use::Looks => file.try_lock_shared(),
    };
    match locked {
        Err(TryLockError::WouldBlock) => Err(Trouble::Busy),
        // Where the system has no locks of files, the table's is enough for one folder.
        _ => Ok(Ok(file)),
    }
}

// Whether an open file is the drive's, and as long as it has to be.
fn is_drive(files: &mut DiskFiles, layout: &Layout, drive: u8, table: &Table) -> bool {
    let expected = header_of(layout, drive, table.identity);
    match (read_header(files, drive), files.length(drive)) {
        (Ok(Some(header)), Ok(length)) => {
            header == expected && length == file_bytes(layout, drive)
        }
        _ => false,
    }
}

// Opens the file that was chosen for a drive. What is seen of it then is returned.
fn open_drive(
    rt: &HostRuntime,
    path: &str,
    files: &mut DiskFiles,
    layout: &Layout,
    drive: u8,
    table: &Table,
) -> Result<Sight, Trouble> {
    let usage = if files.looks() {
        Use::Looks
    } else {
        Use::Serves
    };
    let file = match open_path(rt, path, usage)? {
        Ok(file) => file,
        Err(sight) => return Ok(sight),
    };
    files.put(drive, file)?;
    if is_drive(files, layout, drive, table) {
        return Ok(Sight::Drive(drive));
    }
    // It was another one a moment ago.
    files.leave_out(drive);
    Ok(Sight::Foreign)
}

/// Finds the drives' files, and opens those that are to be used: of each drive the only one that is its. What failed to be a drive's is
/// never written.
pub(crate) fn open_drives(
    rt: &HostRuntime,
    folder: Folder<'_>,
    files: &mut DiskFiles,
    layout: &Layout,
    table: &Table,
) -> Result<Drives, Trouble> {
    let drives = table.drives;
    let mut sights = look_around(rt, folder, layout, table)?;
    for drive in 0..drives {
        if let Choice::At(index) = choose(&sights, drive) {
            let sight = if folder.without == Some(drive) {
                Sight::Unreadable(None)
            } else {
                let path = path_at(rt.alloc(), folder, drives, index)?;
                open_drive(rt, &path, files, layout, drive, table)?
            };
            if index < sights.len() {
                sights[index] = sight;
            }
        }
    }
    let mut verdicts = [Verdict::Absent; DRIVES];
    for drive in 0..DRIVES {
        if drive < usize::from(drives) {
            verdicts[drive] = verdict_of(&sights, drive as u8);
        }
    }
    Ok(Drives {
        verdicts,
        old: [false; DRIVES],
        sights,
    })
}
