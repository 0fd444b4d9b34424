// The text of the places of drives' files: a line for each that isn't in the disk's folder.
//
//     drive 1 /mnt/b/drive1
//
// An empty line says nothing. A path has no end of line in it.
use std::alloc::{AllocError, Global};

// The drive of a line, and the path after it.
fn line_in(line: &str) -> Option<(u8, &str)> {
    let rest = line.strip_prefix("drive ")?;
    let (number, path) = rest.split_once(" ")?;
    match number.parse::<u8>() {
        Ok(drive) if !path.is_empty() => Some((drive, path)),
        _ => None,
    }
}

// No places: an empty path for each drive.
fn no_places(alloc: Global, drives: u8) -> Result<Vec<String>, AllocError> {
    let mut paths = Vec::new(alloc);
    for _drive in 0..drives {
        paths.push(String::new(alloc))?;
    }
    Ok(paths)
}

// Puts a line's path to its drive. False where the line isn't a place, or its drive has one already.
fn put_line(alloc: Global, paths: &mut Vec<String>, line: &str) -> Result<bool, AllocError> {
    let Some((drive, path)) = line_in(line) else {
        return Ok(false);
    };
    let drive = usize::from(drive);
    if drive >= paths.len() || !paths[drive].is_empty() {
        return Ok(false);
    }
    paths[drive] = String::from_str(alloc, path)?;
    Ok(true)
}

/// The paths that a text says, for each drive one: empty where the text has none. None where some line isn't a place, or is a second
/// one of its drive.
pub fn places_in(alloc: Global, text: &str, drives: u8) -> Result<Option<Vec<String>>, AllocError> {
    let mut paths = no_places(alloc, drives)?;
    for line in text.split("\n") {
        if !line.is_empty() && !put_line(alloc, &mut paths, line)? {
            return Ok(None);
        }
    }
    Ok(Some(paths))
}

/// The text of places, of which an empty one isn't said.
pub fn text_of(alloc: Global, paths: &[String]) -> Result<String, AllocError> {
    let mut text = String::new(alloc);
    for drive in 0..paths.len() {
        let path: &str = &paths[drive];
        if !path.is_empty() {
            write!(text, "drive {drive} {path}\n")?;
        }
    }
    Ok(text)
}
