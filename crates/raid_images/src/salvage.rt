//! What can be read of an array that isn't sound.
ghost use Rattle.raid_images.specs.Reading.{CanRead};

use crate::drives::{Loaded, Wrong, load_files};
use crate::slots::{Reader, has_slot};
use crate::tasks::{FINE, WRONG, put_map, say, say_compared};
use crate::trouble::Trouble;
use crate::words::Files;
use extent_groups::{GROUPS, SLOTS};
use extents::{Drive, MemDrive};
use header_scan::ScanFault;
use map_join::{BlockMap, Record};
use script_exec::{put, put_fault, put_number};
use std::alloc::{AllocError, Global};
use unit_store::Parts;

/// What was read so far.
#[derive(Drop)]
struct Found {
    /// The newest record of each block.
    map: BlockMap,
    /// Records that were found at a second slot with the stamp of the first, and that slot.
    twins: Vec<(Record, u16)>,
    /// The text of what was read.
    text: Vec<u8>,
    /// Whether all slots were read.
    is_whole: bool,
}

// Appends what was read of each drive.
fn put_drives(
    out: &mut Vec<u8>,
    parts: &Parts<MemDrive>,
    wrong: &[Wrong],
) -> Result<(), AllocError> {
    for (number, drive) in parts.drives.iter().enumerate() {
        put(out, b"drive ")?;
        put_number(out, number as u64)?;
        if drive.is_lost() {
            put(out, b": left out\n")?;
        } else if wrong.iter().any(|one| one.drive == number) {
            put(out, b": read, and not as it was saved\n")?;
        } else {
            put(out, b": read\n")?;
        }
    }
    Ok(())
}

// Notes a record: the map has the newest of its block, and a second slot with the same stamp is a twin.
fn note(alloc: Global, found: &mut Found, record: Record) -> Result<(), Trouble> {
    // Before the map takes the record, which may go over the older one.
    if let Some(older) = found.map.get(record.block) {
        let is_same = older.version == record.version && older.hop == record.hop;
        if is_same && older.place != record.place {
            found.twins.push((record, older.place))?;
        }
    }
    // `take` requires a version above 0, which a header's record always has.
    if record.version > 0 && found.map.take(alloc, record).is_err() {
        return Err(Trouble::Memory);
    }
    Ok(())
}

// Reads a group's slots, and appends how many could be read, and the first fault.
fn read_group(
    alloc: Global,
    found: &mut Found,
    reader: &mut Reader,
    group: u16,
) -> Result<(), Trouble>
    requires { CanRead reader.old }
    ensures { CanRead reader.new }
{
    let count = reader.parts.groups.slots_of(group);
    let mut read = 0u16;
    let mut first: Option<ScanFault> = None;
    for index in 0..count {
        let slot = (SLOTS * group).saturating_add(index);
        // The test never fails; `read` requires it.
        if !has_slot(&reader.parts.groups, slot) {
            continue;
        }
        match reader.read(slot) {
            Ok(reported) => {
                read = read.saturating_add(1);
                if let Some(record) = reported {
                    note(alloc, found, record)?;
                }
            }
            Err(fault) => {
                if first.is_none() {
                    first = Some(fault);
                }
            }
        }
    }
    put_group(&mut found.text, group, read, count, &first)?;
    if first.is_some() {
        found.is_whole = false;
    }
    Ok(())
}

// Appends how many of a group's slots were read, and the first fault.
fn put_group(
    out: &mut Vec<u8>,
    group: u16,
    read: u16,
    count: u16,
    first: &Option<ScanFault>,
) -> Result<(), AllocError> {
    put(out, b"group ")?;
    put_number(out, u64::from(group))?;
    put(out, b": ")?;
    put_number(out, u64::from(read))?;
    put(out, b" of ")?;
    put_number(out, u64::from(count))?;
    put(out, b" slots")?;
    if let Some(fault) = first {
        put(out, b", ")?;
        put_fault(out, fault)?;
    }
    put(out, b"\n")
}

// Appends each block whose newest stamp is at two slots. After all groups are read: a newer record may have come after the
// twin.
fn put_twins(found: &mut Found) -> Result<(), AllocError> {
    for (record, other) in &found.twins {
        let is_newest = match found.map.get(record.block) {
            Some(newest) => newest.version == record.version && newest.hop == record.hop,
            None => false,
        };
        if is_newest {
            let (low, high) = if *other < record.place {
                (*other, record.place)
            } else {
                (record.place, *other)
            };
            found.is_whole = false;
            put_fault(&mut found.text, &ScanFault::Twice(record.block, low, high))?;
            put(&mut found.text, b"\n")?;
        }
    }
    Ok(())
}

fn read_groups(alloc: Global, found: &mut Found, reader: &mut Reader) -> Result<(), Trouble>
    requires { CanRead reader.old }
    ensures { CanRead reader.new }
{
    for group in 0..GROUPS as u16 {
        if reader.parts.groups.class_of(group).is_some() {
            read_group(alloc, found, reader, group)?;
        }
    }
    Ok(())
}

// Prints what was found.
fn say_found(rt: &HostRuntime, found: &mut Found) -> Result<u8, Trouble> {
    put_twins(found)?;
    put_map(rt.alloc(), &mut found.text, &found.map)?;
    say(rt, &found.text)?;
    Ok(if found.is_whole { FINE } else { WRONG })
}

/// Prints what was read of each drive and each group, sound or not, and last the map of all records that were read. A block whose
/// newest place can't be read has an older record in the map, or none.
pub(crate) fn salvage(rt: &HostRuntime, files: Files<'_, '_>) -> Result<u8, Trouble> {
    let Loaded {
        parts,
        wrong,
        is_compared,
    } = load_files(rt, files)?;
    say_compared(rt, files, &wrong, is_compared);
    let mut found = Found {
        map: BlockMap::new(rt.alloc()),
        twins: Vec::new(rt.alloc()),
        text: Vec::new(rt.alloc()),
        is_whole: wrong.is_empty(),
    };
    put_drives(&mut found.text, &parts, &wrong)?;
    let Some(mut reader) = Reader::new(rt.alloc(), parts)? else {
        return Err(Trouble::Misfit);
    };
    read_groups(rt.alloc(), &mut found, &mut reader)?;
    say_found(rt, &mut found)
}
