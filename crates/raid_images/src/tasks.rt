//! What is answered of an array's files.
use crate::drives::{Loaded, Wrong, load_files};
use crate::recover::{Lacking, recover};
use crate::trouble::Trouble;
use crate::witness::{Witness, count_witnesses};
use crate::words::Files;
use extents::{Drive, MemDrive};
use header_scan::ScanFault;
use map_join::BlockMap;
use picture::draw;
use script_exec::{put, put_fault, put_listing, put_number};
use std::alloc::{AllocError, Global};
use std::io::{self, Write};
use step_core::{Array, Plain, Refusal};
use unit_store::Parts;

/// The status where all is as it should be.
pub(crate) const FINE: u8 = 0;

/// The status where an image isn't the saved one, the array isn't sound, or its headers have a fault.
pub(crate) const WRONG: u8 = 1;

/// Writes a text to standard output.
pub(crate) fn say(rt: &HostRuntime, text: &[u8]) -> Result<(), Trouble> {
    match rt.stdout().write_all(text) {
        Ok(()) => Ok(()),
        Err(error) => Err(Trouble::Output(error)),
    }
}

// Appends why there is no array, as a line.
fn put_lacking(out: &mut Vec<u8>, lacking: &Lacking) -> Result<(), Trouble> {
    match lacking {
        Lacking::Misfit => return Err(Trouble::Misfit),
        Lacking::Fault(ScanFault::Memory) => return Err(Trouble::Memory),
        Lacking::Unsound(slot) => {
            put(out, b"unsound ")?;
            put_number(out, u64::from(*slot))?;
        }
        Lacking::Fault(fault) => put_fault(out, fault)?,
    }
    put(out, b"\n")?;
    Ok(())
}

// Says on standard error why there is no array.
fn say_lacking(rt: &HostRuntime, lacking: &Lacking) -> Result<(), Trouble> {
    let mut out = Vec::new(rt.alloc());
    put_lacking(&mut out, lacking)?;
    // Nothing is left to do where standard error can't be written.
    let _ = rt.stderr().write_all(&out);
    Ok(())
}

// Says on standard error what is wrong with an image.
fn say_wrong(rt: &HostRuntime, files: Files<'_, '_>, wrong: Wrong) -> io::Result<()> {
    let Wrong { drive, owner } = wrong;
    let name = files.name(drive.saturating_add(1));
    let table = files.table;
    match owner {
        Some(owner) => eprintln!(rt; "{name} isn't drive {drive} of {table}: it is drive {owner}"),
        None => eprintln!(rt;
            "{name} isn't drive {drive} of {table} as it was saved: another array's, older, newer or damaged"
        ),
    }
}

/// Says on standard error which images aren't those that the table names, or that it names none.
pub(crate) fn say_compared(
    rt: &HostRuntime,
    files: Files<'_, '_>,
    wrong: &[Wrong],
    is_compared: bool,
) {
    // Nothing is left to do where standard error can't be written.
    for one in wrong {
        let _ = say_wrong(rt, files, *one);
    }
    if !is_compared {
        let table = files.table;
        let _ = eprintln!(rt; "{table} has no digests: the images weren't compared");
    }
}

/// Which drives are lost.
pub(crate) fn lost_drives(alloc: Global, parts: &Parts<MemDrive>) -> Result<Vec<bool>, AllocError> {
    let mut lost = Vec::new(alloc);
    for drive in &parts.drives {
        lost.push(drive.is_lost())?;
    }
    Ok(lost)
}

// Appends how many pairs and rows nothing compares, if any.
fn put_witness(out: &mut Vec<u8>, witness: &Witness) -> Result<(), AllocError> {
    if witness.lone_pairs == 0 && witness.lone_rows == 0 {
        return Ok(());
    }
    put(out, b"without a second witness: ")?;
    put_number(out, u64::from(witness.lone_pairs))?;
    put(out, b" of ")?;
    put_number(out, u64::from(witness.pairs))?;
    put(out, b" pairs, ")?;
    put_number(out, u64::from(witness.lone_rows))?;
    put(out, b" of ")?;
    put_number(out, u64::from(witness.rows))?;
    put(out, b" rows\n")
}

/// Says whether the array is sound: each image is the saved one, the copies of each slot are equal, each row adds up to its
/// parity, and a map can be read. Then says how many pairs and rows miss a drive.
pub(crate) fn check(rt: &HostRuntime, files: Files<'_, '_>) -> Result<u8, Trouble> {
    let Loaded {
        parts,
        wrong,
        is_compared,
    } = load_files(rt, files)?;
    say_compared(rt, files, &wrong, is_compared);
    let mut out = Vec::new(rt.alloc());
    // Written only once the array is recovered; the counts come before that, because `recover` takes the parts.
    put(&mut out, b"sound\n")?;
    let lost = lost_drives(rt.alloc(), &parts)?;
    put_witness(&mut out, &count_witnesses(&parts.groups, &lost))?;
    match recover(rt.alloc(), parts) {
        Ok(_array) if wrong.is_empty() => {
            say(rt, &out)?;
            Ok(FINE)
        }
        Ok(_array) => Ok(WRONG),
        Err(lacking) => {
            say_lacking(rt, &lacking)?;
            Ok(WRONG)
        }
    }
}

// The array of the files; none where an image isn't the saved one or the array can't be had, which is said on standard error.
fn array_of(
    rt: &HostRuntime,
    files: Files<'_, '_>,
) -> Result<Option<Array<MemDrive, Plain>>, Trouble> {
    let Loaded {
        parts,
        wrong,
        is_compared,
    } = load_files(rt, files)?;
    say_compared(rt, files, &wrong, is_compared);
    // Before `recover`, which with a drive left out can't find that an image is older.
    if !wrong.is_empty() {
        return Ok(None);
    }
    match recover(rt.alloc(), parts) {
        Ok(array) => Ok(Some(array)),
        Err(lacking) => {
            say_lacking(rt, &lacking)?;
            Ok(None)
        }
    }
}

/// Appends a map as a line, in the form of a script's `map`.
pub(crate) fn put_map(alloc: Global, out: &mut Vec<u8>, map: &BlockMap) -> Result<(), Trouble> {
    let Ok(list) = map.to_list(alloc) else {
        return Err(Trouble::Memory);
    };
    put_listing(out, b"map ", &list)?;
    put(out, b"\n")?;
    Ok(())
}

/// Prints the array's map.
pub(crate) fn map(rt: &HostRuntime, files: Files<'_, '_>) -> Result<u8, Trouble> {
    let Some(array) = array_of(rt, files)? else {
        return Ok(WRONG);
    };
    let Ok(map) = array.map(rt.alloc()) else {
        return Err(Trouble::Memory);
    };
    let mut out = Vec::new(rt.alloc());
    put_map(rt.alloc(), &mut out, &map)?;
    say(rt, &out)?;
    Ok(FINE)
}

// Prints the payload of a block; nothing where it was never written, or was trimmed.
fn say_block(rt: &HostRuntime, array: Array<MemDrive, Plain>, block: u32) -> Result<u8, Trouble> {
    let mut array = array;
    let blocks = array.shape().blocks;
    if block >= blocks {
        return Err(Trouble::Block(block, blocks));
    }
    match array.read(rt.alloc(), block) {
        Ok(Some((_version, payload))) => {
            say(rt, &payload)?;
            Ok(FINE)
        }
        Ok(None) => Ok(FINE),
        Err(Refusal::Memory) => Err(Trouble::Memory),
        Err(_) => Ok(WRONG),
    }
}

/// Prints the payload of a block; nothing where it was never written, or was trimmed.
pub(crate) fn block(
    rt: &HostRuntime,
    files: Files<'_, '_>,
    block: Option<u32>,
) -> Result<u8, Trouble> {
    match (array_of(rt, files)?, block) {
        (Some(array), Some(block)) => say_block(rt, array, block),
        _ => Ok(WRONG),
    }
}

/// Prints a picture of the array, in SVG.
pub(crate) fn picture(rt: &HostRuntime, files: Files<'_, '_>) -> Result<u8, Trouble> {
    let Some(array) = array_of(rt, files)? else {
        return Ok(WRONG);
    };
    let Ok(map) = array.map(rt.alloc()) else {
        return Err(Trouble::Memory);
    };
    let (groups, extents, lost) = (array.groups(), array.extents(), array.lost());
    let drawn = draw(rt.alloc(), groups, extents, &map, &lost, None)?;
    say(rt, drawn.as_bytes())?;
    Ok(FINE)
}
