//! The disk's own text of the places of its drives' files, and that no two files of a disk have one name.
use crate::folder::{Folder, Name};
use crate::trouble::{Trouble, unread};
use drive_places::places_in;
use extents::DRIVES;
use file_vault::Twin;
use std::{fs, io};

// The names of a disk's own files in its folder.
const OWN: [Name; 13] = [
    Name::Table,
    Name::TableCopy,
    Name::Fresh,
    Name::State(Twin::First),
    Name::State(Twin::Second),
    Name::OneState,
    Name::Journal(Twin::First),
    Name::Journal(Twin::Second),
    Name::OneJournal,
    Name::Places,
    Name::Progress,
    Name::FreshProgress,
    Name::Scrub,
];

/// The places of drives' files: those of the folder's text, or none where it has no such text.
pub(crate) fn read_places(rt: &HostRuntime, folder: Folder<'_>) -> Result<Vec<String>, Trouble> {
    let path = folder.path(rt.alloc(), Name::Places)?;
    let text = match fs::read_to_string(rt, &path) {
        Ok(text) => text,
        Err(error) if error.kind() == io::ErrorKind::NotFound => return Ok(Vec::new(rt.alloc())),
        Err(error) if error.kind() == io::ErrorKind::InvalidData => return Err(Trouble::NoPlaces),
        Err(error) => return Err(unread(error, Name::Places)),
    };
    match places_in(rt.alloc(), &text, DRIVES as u8)? {
        Some(places) => Ok(places),
        None => Err(Trouble::NoPlaces),
    }
}

/// A path from the root on.
pub(crate) fn absolute(rt: &HostRuntime, path: &str) -> Result<String, Trouble> {
    if path.contains("\n") {
        return Err(Trouble::Path);
    }
    match std::path::absolute(rt, path) {
        Ok(place) => Ok(place.into_string()),
        Err(error) if error.kind() == io::ErrorKind::OutOfMemory => Err(Trouble::Memory),
        Err(_) => Err(Trouble::Path),
    }
}

/// The drives' own places, with a path for one of them where it is given.
pub(crate) fn places_with(
    rt: &HostRuntime,
    folder: Folder<'_>,
    number: u8,
    path: Option<&str>,
) -> Result<Vec<String>, Trouble> {
    let mut places = Vec::new(rt.alloc());
    let mut count = folder.places.len();
    if path.is_some() {
        count = count.max(usize::from(number) + 1);
    }
    for index in 0..count {
        let place: &str = match folder.places.get(index) {
            Some(place) => place,
            None => "",
        };
        match path {
            Some(path) if index == usize::from(number) => places.push(absolute(rt, path)?)?,
            _ => places.push(String::from_str(rt.alloc(), place)?)?,
        }
    }
    Ok(places)
}

/// The places for a new disk, one for each path that was given, as paths from the root on.
pub(crate) fn places_from(rt: &HostRuntime, paths: &[String]) -> Result<Vec<String>, Trouble> {
    let mut places = Vec::new(rt.alloc());
    for index in 0..paths.len() {
        places.push(absolute(rt, &paths[index])?)?;
    }
    Ok(places)
}

/// Paths that were given as words.
pub(crate) fn owned(rt: &HostRuntime, words: Option<&[&str]>) -> Result<Vec<String>, Trouble> {
    let mut paths = Vec::new(rt.alloc());
    let Some(words) = words else {
        return Ok(paths);
    };
    for index in 0..words.len() {
        paths.push(String::from_str(rt.alloc(), words[index])?)?;
    }
    Ok(paths)
}

// A path from the root on, without the links of its folder if that is there.
fn whole_path(rt: &HostRuntime, path: &str) -> Result<String, Trouble> {
    let path = absolute(rt, path)?;
    let found = match path.rsplit_once("/") {
        Some((above, own)) if !above.is_empty() => joined(rt, above, own)?,
        _ => None,
    };
    Ok(found.unwrap_or(path))
}

// A folder's path without links, with a name; none if there is no such folder.
fn joined(rt: &HostRuntime, above: &str, own: &str) -> Result<Option<String>, Trouble> {
    match fs::canonicalize(rt, above) {
        Ok(folder) => {
            let folder = folder.into_string();
            Ok(Some(format!(in rt.alloc(); "{folder}/{own}")?))
        }
        Err(error) if error.kind() == io::ErrorKind::OutOfMemory => Err(Trouble::Memory),
        Err(_) => Ok(None),
    }
}

// Adds a file's path to those of the other files. Refused where it is one of them.
fn take(
    rt: &HostRuntime,
    folder: Folder<'_>,
    taken: &mut Vec<String>,
    name: Name,
) -> Result<(), Trouble> {
    let named = folder.path(rt.alloc(), name)?;
    let path = whole_path(rt, &named)?;
    if taken.iter().any(|other| other.as_str() == path.as_str()) {
        return Err(Trouble::Taken(path));
    }
    taken.push(path)?;
    Ok(())
}

/// Tests that no two files of a disk would have one name, with what the file of a drive is called while it is made, and what was at its
/// place afterwards.
pub(crate) fn test_names(rt: &HostRuntime, folder: Folder<'_>, drives: u8) -> Result<(), Trouble> {
    let mut taken = Vec::new(rt.alloc());
    for name in OWN {
        take(rt, folder, &mut taken, name)?;
    }
    for drive in 0..drives {
        for name in [
            Name::Drive(drive),
            Name::FreshDrive(drive),
            Name::OldDrive(drive),
        ] {
            take(rt, folder, &mut taken, name)?;
        }
    }
    Ok(())
}
