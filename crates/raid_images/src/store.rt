//! The files of a save.
//!
//! Each file is written under its name with `.new` appended, and synced, the table last. The table then takes its own name: from
//! that moment on the save is the new one. The images take theirs afterwards. A reader takes an image from either name, by the
//! digest in the table, and the next save first finishes one that was cut short. So a stop at any moment leaves the older save
//! whole, or the new one.
use crate::choice::{Choice, choose, owner_of};
use crate::digest::{Sum, sum_of};
use crate::names::{Node, Spot, find_aliases};
use crate::table::Table;
use crate::trouble::{Name, Trouble, unread, unwritten};
use crate::words::{Files, LOST};
use std::fs::{self, File, OpenOptions};
use std::io;
use std::os::unix::fs::{FileExt, MetadataExt};

/// The bytes of a file; none where there is no such file.
pub(crate) fn bytes_at(
    rt: &HostRuntime,
    files: Files<'_, '_>,
    name: Name,
) -> Result<Option<Vec<u8>>, Trouble> {
    let text = files.text_of(rt.alloc(), name)?;
    match fs::read(rt, &text) {
        Ok(bytes) => Ok(Some(bytes)),
        Err(error) if error.kind() == io::ErrorKind::NotFound => Ok(None),
        Err(error) => Err(unread(error, name)),
    }
}

/// The bytes of a file that has to be there.
pub(crate) fn bytes_of(
    rt: &HostRuntime,
    files: Files<'_, '_>,
    name: Name,
) -> Result<Vec<u8>, Trouble> {
    let text = files.text_of(rt.alloc(), name)?;
    match fs::read(rt, &text) {
        Ok(bytes) => Ok(bytes),
        Err(error) => Err(unread(error, name)),
    }
}

// The digest of a file; none where there is no such file.
fn sum_at(rt: &HostRuntime, files: Files<'_, '_>, name: Name) -> Result<Option<Sum>, Trouble> {
    match bytes_at(rt, files, name)? {
        Some(bytes) => Ok(Some(sum_of(&bytes))),
        None => Ok(None),
    }
}

// A name's folder and its last part.
fn cut_name(name: &str) -> (&str, &str) {
    match name.rsplit_once('/') {
        Some(("", last)) => ("/", last),
        Some((folder, last)) => (folder, last),
        None => (".", name),
    }
}

fn node_of(data: &fs::Metadata) -> Node {
    Node {
        device: data.dev(),
        number: data.ino(),
    }
}

// The file of a name, if one is there; refused where something else is.
fn node_at(rt: &HostRuntime, text: &str, name: Name) -> Result<Option<Node>, Trouble> {
    match fs::metadata(rt, text) {
        Ok(data) if data.is_file() => Ok(Some(node_of(&data))),
        Ok(_) => Err(Trouble::NoFile(name)),
        Err(error) if error.kind() == io::ErrorKind::NotFound => Ok(None),
        Err(error) => Err(unwritten(error, name)),
    }
}

// Where a name lies.
fn spot_of(rt: &HostRuntime, files: Files<'_, '_>, name: Name) -> Result<Spot, Trouble> {
    let text = files.text_of(rt.alloc(), name)?;
    let (folder, part) = cut_name(&text);
    let folder = match fs::metadata(rt, folder) {
        Ok(data) => node_of(&data),
        Err(error) => return Err(unwritten(error, name)),
    };
    if matches!(part, "" | "." | "..") {
        return Err(Trouble::NoFile(name));
    }
    let mut last = Vec::new(rt.alloc());
    last.extend_from_slice(part.as_bytes())?;
    let node = node_at(rt, &text, name)?;
    Ok(Spot { folder, last, node })
}

// The name of a number among all that a save writes: first those of the command line, then those with `.new`.
fn name_at(files: Files<'_, '_>, number: usize) -> Name {
    let count = files.images.len().saturating_add(1);
    if number < count {
        Name::Kept(number)
    } else {
        Name::Fresh(number - count)
    }
}

// Where all names lie that a save writes, in the order of `name_at`.
fn spots_of(rt: &HostRuntime, files: Files<'_, '_>) -> Result<Vec<Spot>, Trouble> {
    let count = files.images.len().saturating_add(1);
    let mut spots = Vec::new(rt.alloc());
    for number in 0..count.saturating_mul(2) {
        let name = name_at(files, number);
        spots.push(spot_of(rt, files, name)?)?;
    }
    Ok(spots)
}

// Opens a file that is there for writing, and changes nothing. Opened without `truncate`, so that a refusal of a later name
// leaves this file.
fn try_write(rt: &HostRuntime, files: Files<'_, '_>, file: usize) -> Result<(), Trouble> {
    match OpenOptions::new().write(true).open(rt, files.name(file)) {
        Ok(_file) => Ok(()),
        Err(error) if error.kind() == io::ErrorKind::NotFound => Ok(()),
        Err(error) => Err(unwritten(error, Name::Kept(file))),
    }
}

/// Refuses names that can't be written, and two that are of one file. Changes nothing. Returns where the names lie.
pub(crate) fn look(rt: &HostRuntime, files: Files<'_, '_>) -> Result<Vec<Spot>, Trouble> {
    if files.table == LOST || files.images.iter().any(|image| *image == LOST) {
        return Err(Trouble::Dash);
    }
    // Names with `.new` are compared too: an image with such a name of another file would be overwritten.
    let spots = spots_of(rt, files)?;
    if let Some((one, other)) = find_aliases(&spots) {
        return Err(Trouble::OneFile(name_at(files, one), name_at(files, other)));
    }
    for file in 0..files.images.len().saturating_add(1) {
        try_write(rt, files, file)?;
    }
    Ok(spots)
}

/// Makes the entries of a name's folder durable.
pub(crate) fn sync_folder(
    rt: &HostRuntime,
    files: Files<'_, '_>,
    file: usize,
) -> Result<(), Trouble> {
    let (folder, _last) = cut_name(files.name(file));
    match synced(rt, folder) {
        Ok(()) => Ok(()),
        Err(error) => Err(unwritten(error, Name::Kept(file))),
    }
}

fn synced(rt: &HostRuntime, folder: &str) -> io::Result<()> {
    File::open(rt, folder)?.sync_all()
}

/// Makes the entries of all folders durable, each once.
pub(crate) fn sync_folders(
    rt: &HostRuntime,
    files: Files<'_, '_>,
    spots: &[Spot],
) -> Result<(), Trouble> {
    let count = files.images.len().saturating_add(1);
    for file in 0..count.min(spots.len()) {
        let folder = spots[file].folder;
        let is_done = spots[..file].iter().any(|spot| spot.folder == folder);
        if !is_done {
            sync_folder(rt, files, file)?;
        }
    }
    Ok(())
}

/// Gives a file that was written its own name.
pub(crate) fn rename_file(
    rt: &HostRuntime,
    files: Files<'_, '_>,
    file: usize,
) -> Result<(), Trouble> {
    let fresh = files.text_of(rt.alloc(), Name::Fresh(file))?;
    match fs::rename(rt, &fresh, files.name(file)) {
        Ok(()) => Ok(()),
        Err(error) => Err(unwritten(error, Name::Kept(file))),
    }
}

// The digests in the table that is there; none where it is no table, or has none: what isn't a save has nothing to be
// finished.
fn older_sums(rt: &HostRuntime, files: Files<'_, '_>) -> Result<Vec<Option<Sum>>, Trouble> {
    let Some(text) = bytes_at(rt, files, Name::Kept(0))? else {
        return Ok(Vec::new(rt.alloc()));
    };
    match Table::parse(rt.alloc(), &text) {
        Ok(table) => {
            let Table { sums, .. } = table;
            Ok(sums)
        }
        Err(Trouble::Memory) => Err(Trouble::Memory),
        Err(_) => Ok(Vec::new(rt.alloc())),
    }
}

// Puts an image of the older save in its place, if it still waits there. The file with `.new` is read first, because mostly
// there is none. Refused where that is another drive's image: the names are in another order than in that save.
fn finish_file(
    rt: &HostRuntime,
    files: Files<'_, '_>,
    file: usize,
    sums: &[Option<Sum>],
    expected: &Sum,
) -> Result<(), Trouble> {
    let Some(fresh) = sum_at(rt, files, Name::Fresh(file))? else {
        return Ok(());
    };
    let kept = sum_at(rt, files, Name::Kept(file))?;
    match choose(expected, &kept, &Some(fresh)) {
        Choice::Kept => Ok(()),
        Choice::Fresh => rename_file(rt, files, file),
        Choice::Neither if owner_of(sums, &fresh).is_some() => Err(Trouble::Order(file)),
        Choice::Neither => Ok(()),
    }
}

/// Finishes an older save that was cut short after its table was put in place: each image that the table names takes its name.
/// Files with `.new` that the older save doesn't need are left, for `reserve` to remove.
pub(crate) fn finish(
    rt: &HostRuntime,
    files: Files<'_, '_>,
    spots: &[Spot],
) -> Result<(), Trouble> {
    let count = files.images.len().saturating_add(1);
    // Without a file with `.new` the older save is whole, and nothing has to be read.
    if !spots.iter().skip(count).any(|spot| spot.node.is_some()) {
        return Ok(());
    }
    // The table has to be durable before an image of the save before it is replaced.
    sync_folder(rt, files, 0)?;
    let sums = older_sums(rt, files)?;
    for (drive, sum) in sums.iter().enumerate() {
        let file = drive.saturating_add(1);
        if file < count {
            if let Some(expected) = sum {
                finish_file(rt, files, file, &sums, expected)?;
            }
        }
    }
    sync_folders(rt, files, spots)
}

// Removes what a save that was cut short left under a name with `.new`, a link too, but not what it leads to.
fn remove_fresh(rt: &HostRuntime, files: Files<'_, '_>, file: usize) -> Result<(), Trouble> {
    let name = Name::Fresh(file);
    let text = files.text_of(rt.alloc(), name)?;
    match fs::remove_file(rt, &text) {
        Ok(()) => Ok(()),
        Err(error) if error.kind() == io::ErrorKind::NotFound => Ok(()),
        Err(error) => Err(unwritten(error, name)),
    }
}

/// Removes all files with `.new`, as far as that can be done.
pub(crate) fn forget(rt: &HostRuntime, files: Files<'_, '_>) {
    for file in 0..files.images.len().saturating_add(1) {
        // What can't be removed is in nobody's way: the next save removes it, or says why not.
        let _ = remove_fresh(rt, files, file);
    }
}

// Makes an empty file with `.new`. A file or link of that name is never followed. Removed first and then created, since
// writing to a link would change the file that it leads to.
fn make_fresh(rt: &HostRuntime, files: Files<'_, '_>, file: usize) -> Result<(), Trouble> {
    remove_fresh(rt, files, file)?;
    let name = Name::Fresh(file);
    let text = files.text_of(rt.alloc(), name)?;
    match File::create_new(rt, &text) {
        Ok(_file) => Ok(()),
        Err(error) => Err(unwritten(error, name)),
    }
}

/// Makes all files with `.new`, empty, so that a name that can't be written is refused before a byte is written.
pub(crate) fn reserve(rt: &HostRuntime, files: Files<'_, '_>) -> Result<(), Trouble> {
    for file in 0..files.images.len().saturating_add(1) {
        make_fresh(rt, files, file)?;
    }
    Ok(())
}

// Writes all bytes of a file that is there, and syncs it. Synced before any rename, so that no name gets a file without its
// bytes.
fn put_file(rt: &HostRuntime, text: &str, bytes: &[u8]) -> io::Result<()> {
    let file = OpenOptions::new()
        .write(true)
        .truncate(true)
        .open(rt, text)?;
    file.write_all_at(bytes, 0)?;
    file.sync_all()
}

/// Writes and syncs a file under its name with `.new` appended.
pub(crate) fn write_fresh(
    rt: &HostRuntime,
    files: Files<'_, '_>,
    file: usize,
    bytes: &[u8],
) -> Result<(), Trouble> {
    let name = Name::Fresh(file);
    let text = files.text_of(rt.alloc(), name)?;
    match put_file(rt, &text, bytes) {
        Ok(()) => Ok(()),
        Err(error) => Err(unwritten(error, name)),
    }
}
