//! The texts of a disk: its table, the table's copy, and the places of its drives' files.
use crate::create::write_text;
use crate::folder::{Folder, Name};
use crate::replace::rename;
use crate::table::{Table, text_of};
use crate::trouble::{Trouble, unwritten};
use std::fs::OpenOptions;
use uuid::Uuid;

// Puts a text in place of a file, in one piece, and makes it durable.
fn put_text(rt: &HostRuntime, folder: Folder<'_>, name: Name, text: &str) -> Result<(), Trouble> {
    let path = folder.path(rt.alloc(), Name::Fresh)?;
    let made = OpenOptions::new()
        .write(true)
        .create(true)
        .truncate(true)
        .open(rt, &path);
    let mut file = match made {
        Ok(file) => file,
        Err(error) => return Err(unwritten(error, Name::Fresh)),
    };
    if let Err(error) = write_text(&mut file, text) {
        return Err(unwritten(error, Name::Fresh));
    }
    rename(rt, folder, Name::Fresh, name)?;
    match folder.sync(rt) {
        Ok(()) => Ok(()),
        Err(error) => Err(unwritten(error, Name::Folder)),
    }
}

/// Writes the places of drives' files, if some are given.
pub(crate) fn write_places(rt: &HostRuntime, folder: Folder<'_>) -> Result<(), Trouble> {
    if folder.places.is_empty() {
        return Ok(());
    }
    let places = drive_places::text_of(rt.alloc(), folder.places)?;
    put_text(rt, folder, Name::Places, &places)
}

/// Writes the table's copy, and the table: either may be lost later.
pub(crate) fn write_table(
    rt: &HostRuntime,
    folder: Folder<'_>,
    table: &Table,
) -> Result<(), Trouble> {
    let identity = Uuid::from_bytes(table.identity);
    let text = text_of(rt.alloc(), identity, &table.plan, table.drives)?;
    put_text(rt, folder, Name::TableCopy, &text)?;
    put_text(rt, folder, Name::Table, &text)
}
