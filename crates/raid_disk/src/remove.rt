//! A disk goes on with one drive fewer.
use crate::add::{is_made, settle_whole};
use crate::any_vault::remove_from;
use crate::folder::{Folder, Name};
use crate::opened::{Use, groups_in, open_vault, trouble_of};
use crate::progress;
use crate::table::Table;
use crate::texts::{write_places, write_table};
use crate::trouble::{Trouble, unwritten};
use drive_removal::RemovalFault;
use history::Opened;
use std::alloc::Global;
use std::marker::Brand;
use std::{fs, io};
use step_core::Refusal;
use vault::Vault;

// Why a drive isn't removed.
fn trouble_of_removal(number: u8, fault: RemovalFault) -> Trouble {
    match fault {
        RemovalFault::Memory => Trouble::Memory,
        RemovalFault::Vault(error) => Trouble::Vault(error),
        RemovalFault::Recovery(fault) => trouble_of(fault),
        RemovalFault::Lost(drive) => Trouble::LostBeside(drive),
        RemovalFault::Few | RemovalFault::Stuck => Trouble::Needed(number),
        RemovalFault::Refused(Refusal::Gone(slot)) => Trouble::Gone(slot),
        _ => Trouble::Unsound,
    }
}

// Takes the last drive out of the array that a vault has, unless a removal that was stopped has done so.
fn empty_opened<V: Vault>(
    alloc: Global,
    vault: &mut V,
    table: &Table,
    number: u8,
) -> Result<(), Trouble> {
    let spelled = groups_in(alloc, vault, table)?;
    if spelled.drives != table.drives {
        return Ok(());
    }
    match remove_from(alloc, vault, &table.plan.shape, spelled) {
        Ok(()) => Ok(()),
        Err(fault) => Err(trouble_of_removal(number, fault)),
    }
}

// Takes the last drive out of the array.
fn empty_last(
    rt: &HostRuntime,
    folder: Folder<'_>,
    table: Table,
    number: u8,
) -> Result<(), Trouble> {
    let mut files = open_vault(rt, folder, Use::Serves, table)?;
    empty_opened(rt.alloc(), &mut files.vault, &table, number)
}

// The drives' own places, without the last drive's.
fn places_without(
    rt: &HostRuntime,
    folder: Folder<'_>,
    number: u8,
) -> Result<Vec<String>, Trouble> {
    let mut places = Vec::new(rt.alloc());
    for index in 0..folder.places.len() {
        if index < usize::from(number) {
            let place: &str = &folder.places[index];
            places.push(String::from_str(rt.alloc(), place)?)?;
        }
    }
    Ok(places)
}

// Deletes the file of a drive that the disk hasn't any more. Another file at its place stays.
fn delete_drive(
    rt: &HostRuntime,
    folder: Folder<'_>,
    table: &Table,
    number: u8,
) -> Result<(), Trouble> {
    if !is_made(rt, folder, table, number)? {
        return Ok(());
    }
    let name = Name::Drive(number);
    let path = folder.path(rt.alloc(), name)?;
    if let Err(error) = fs::remove_file(rt, &path) {
        return Err(unwritten(error, name));
    }
    match folder.sync_above(rt, name) {
        Ok(()) => Ok(()),
        Err(error) => Err(unwritten(error, name)),
    }
}

// Says for `status` what is under way. Nothing is left to do where that can't be said.
fn say(rt: &HostRuntime, folder: Folder<'_>, number: u8) {
    if let Ok(text) = format!(in rt.alloc(); "drive {number} is being removed\n") {
        progress::say(rt, folder, &text);
    }
}

fn print_removed(rt: &HostRuntime, number: u8) -> io::Result<()> {
    println!(rt; "drive{number} is removed: the disk has {number} drives")
}

// Removes the last drive, once the disk is settled.
fn remove_last(
    rt: &HostRuntime,
    folder: Folder<'_>,
    table: Table,
    number: u8,
) -> Result<(), Trouble> {
    empty_last(rt, folder, table, number)?;
    let places = places_without(rt, folder, number)?;
    let less = Folder {
        name: folder.name,
        places: &places,
        others: folder.others,
        without: None,
    };
    write_table(rt, folder, &table.with_drives(number))?;
    if !folder.places.is_empty() {
        write_places(rt, less)?;
    }
    delete_drive(rt, folder, &table, number)
}

/// Removes the last drive of a disk, of which no other may be lost: what it has is moved to the others, from their own units where it is
/// lost, and its file is deleted. The disk's size stays. Stopped at any moment, the disk has the bytes that it had, on the drives of
/// before or on those that stay; the same command goes on.
pub(crate) fn remove(rt: &HostRuntime, folder: Folder<'_>, number: u8) -> Result<u8, Trouble> {
    let opened = Opened::new(rt.alloc())?;
    // The folder is locked as long as it is open.
    let (_lock, table, _count) = settle_whole::<Brand>(rt, folder, Some(number), opened)?;
    let last = table.drives.saturating_sub(1);
    if number > last {
        return Err(Trouble::NoDrive(number));
    }
    if number < last {
        return Err(Trouble::NotLast(number, last));
    }
    say(rt, folder, number);
    let removed = remove_last(rt, folder, table, number);
    progress::end(rt, folder);
    removed?;
    match print_removed(rt, number) {
        Ok(()) => Ok(0),
        Err(error) => Err(Trouble::Output(error)),
    }
}
