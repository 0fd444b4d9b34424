//! Where the units are compared next while the disk is served, and what was found. It is written now and then; what is lost of it is
//! compared once more.
use crate::folder::{Folder, Name};
use journaled_store::ScrubPosition;
use std::{fs, io};

/// The first unit of all.
const FIRST: ScrubPosition = ScrubPosition {
    drive: 0,
    address: 0,
};

// The position that a text has: drive NUMBER unit ADDRESS.
fn position_in(text: &str) -> Option<ScrubPosition> {
    let rest = text.strip_prefix("drive ")?;
    let (number, rest) = rest.split_once(" unit ")?;
    let (unit, _) = rest.split_once("\n")?;
    match (number.parse::<u8>(), unit.parse::<u32>()) {
        (Ok(drive), Ok(address)) => Some(ScrubPosition { drive, address }),
        _ => None,
    }
}

// The text of the position, if there is one.
fn read_text(rt: &HostRuntime, folder: Folder<'_>) -> io::Result<String> {
    let path = folder.path(rt.alloc(), Name::Scrub)?;
    fs::read_to_string(rt, &path)
}

/// Where a server before has stopped; the first unit where none says so.
pub(crate) fn read_position(rt: &HostRuntime, folder: Folder<'_>) -> ScrubPosition {
    match read_text(rt, folder) {
        Ok(text) => position_in(&text).unwrap_or(FIRST),
        Err(_) => FIRST,
    }
}

// Writes the position.
fn put_position(rt: &HostRuntime, folder: Folder<'_>, position: ScrubPosition) -> io::Result<()> {
    let path = folder.path(rt.alloc(), Name::Scrub)?;
    let drive = position.drive;
    let address = position.address;
    let text = format!(in rt.alloc(); "drive {drive} unit {address}\n")?;
    fs::write(rt, &path, &text)
}

/// Writes where the next server goes on. Nothing is left to do where that can't be written.
pub(crate) fn write_position(rt: &HostRuntime, folder: Folder<'_>, position: ScrubPosition) {
    let _ = put_position(rt, folder, position);
}
