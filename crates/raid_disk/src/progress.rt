//! What a command that has the disk for itself is doing, as a text that `status` prints meanwhile. Nothing else depends on it: what can't be
//! written is left out, and what a stop leaves is written over by the next such command.
use crate::folder::{Folder, Name};
use crate::trouble::{Trouble, unread};
use std::{fs, io};

/// The last line where nothing is wrong.
pub(crate) const FINE: &str = "no drive is lost\n";

// Puts a text in place of the one before, in one piece.
fn put_text(rt: &HostRuntime, folder: Folder<'_>, text: &str) -> io::Result<()> {
    let fresh = folder.path(rt.alloc(), Name::FreshProgress)?;
    let path = folder.path(rt.alloc(), Name::Progress)?;
    fs::write(rt, &fresh, text)?;
    fs::rename(rt, &fresh, &path)
}

// Takes the text away.
fn take_text(rt: &HostRuntime, folder: Folder<'_>) -> io::Result<()> {
    let path = folder.path(rt.alloc(), Name::Progress)?;
    fs::remove_file(rt, &path)
}

/// Says what is under way.
pub(crate) fn say(rt: &HostRuntime, folder: Folder<'_>, text: &str) {
    let _ = put_text(rt, folder, text);
}

/// Says that nothing is under way.
pub(crate) fn end(rt: &HostRuntime, folder: Folder<'_>) {
    let _ = take_text(rt, folder);
}

// The text, if there is one.
fn read_text(rt: &HostRuntime, folder: Folder<'_>) -> Result<Option<String>, Trouble> {
    let path = folder.path(rt.alloc(), Name::Progress)?;
    match fs::read_to_string(rt, &path) {
        Ok(text) => Ok(Some(text)),
        Err(error) if error.kind() == io::ErrorKind::NotFound => Ok(None),
        Err(error) => Err(unread(error, Name::Progress)),
    }
}

/// Prints what another process does with the disk. The status is 1 where something is wrong. Refused where it doesn't say.
pub(crate) fn show(rt: &HostRuntime, folder: Folder<'_>, json: bool) -> Result<u8, Trouble> {
    let Some(text) = read_text(rt, folder)? else {
        return Err(Trouble::Busy);
    };
    let printed = if json {
        println!(rt; "{{\"busy\":true}}")
    } else {
        print!(rt; "{text}")
    };
    match printed {
        Ok(()) => Ok(if text.ends_with(FINE) { 0 } else { 1 }),
        Err(error) => Err(Trouble::Output(error)),
    }
}
