//! A unit whose bytes, or whose digest's, a drive returns otherwise than written is found, and no other unit is taken for rotten.
use crate::asserts::check;
use crate::story::{empty_files, layout};
use extent_groups::Place;
use file_vault::{FileVault, Files, MemFiles};
use std::alloc::Global;
use std::process::Abort;
use std::test::Fail;
use vault::{Stop, UnitRead, Vault};

/// Bytes of a unit and its digest.
const SEALED: usize = 37;

/// The ways of damage: 0 to 36, a byte is another; 37, all are 0; 38 and 39, they are those of the next address, and of the next drive.
const WAYS: usize = 40;

fn place_of(number: u8) -> Place {
    Place {
        drive: number / 3,
        address: u32::from(number % 3),
    }
}

fn unit_of(number: u8) -> [u8; 5] {
    let seed = number % 10;
    [seed + 1, seed * 7, 2, 0, 255 - seed]
}

fn offset_of(rt: &impl Abort, number: u8) -> u64 {
    match layout().offset(place_of(number)) {
        Some(offset) => offset,
        None => rt.panic("no offset"),
    }
}

// Files with a unit at each place.
fn written(rt: &impl Abort, alloc: Global) -> Result<MemFiles, Fail> {
    let Ok(mut vault) = FileVault::create(alloc, empty_files(alloc, 18)?, layout()) else {
        rt.panic("not made");
    };
    for number in 0..9 {
        let written = vault.write_unit(place_of(number), &unit_of(number)).is_ok();
        check!(rt; written);
    }
    Ok(vault.into_files().left(Stop::Killed, 0)?)
}

// The bytes of a place's unit and digest.
fn sealed(rt: &impl Abort, files: &mut MemFiles, number: u8) -> [u8; SEALED] {
    let mut bytes = [0; SEALED];
    let read = files
        .read_at(place_of(number).drive, offset_of(rt, number), &mut bytes)
        .is_ok();
    check!(rt; read);
    bytes
}

// What a place has after damage.
fn damaged(rt: &impl Abort, files: &mut MemFiles, number: u8, way: usize) -> [u8; SEALED] {
    let mut bytes = sealed(rt, files, number);
    if way < SEALED {
        bytes[way] ^= 1;
        return bytes;
    }
    let number = number % 9;
    match way {
        SEALED => [0; SEALED],
        38 => sealed(rt, files, number / 3 * 3 + (number + 1) % 3),
        _ => sealed(rt, files, (number + 3) % 9),
    }
}

// Whether each unit is read as it was written, but for a rotten one.
fn all_but(rt: &impl Abort, vault: &mut FileVault<MemFiles>, rotten: u8) -> bool {
    for number in 0..9 {
        let mut unit = [0; 5];
        let Ok(read) = vault.read_unit(place_of(number), &mut unit) else {
            rt.panic("not read");
        };
        let is_whole = read == UnitRead::Whole && unit == unit_of(number);
        if is_whole == (number == rotten) || (number == rotten && read != UnitRead::Rotten) {
            return false;
        }
    }
    true
}

// Damages a unit, and reads all; then writes it again.
fn found(rt: &impl Abort, alloc: Global, number: u8, way: usize) -> Result<bool, Fail> {
    let mut files = written(rt, alloc)?;
    let bytes = damaged(rt, &mut files, number, way);
    let changed = files
        .write_at(place_of(number).drive, offset_of(rt, number), &bytes)
        .is_ok();
    check!(rt; changed);
    let Ok(mut vault) = FileVault::open(alloc, files, layout()) else {
        rt.panic("not opened");
    };
    if !all_but(rt, &mut vault, number) {
        return Ok(false);
    }
    let written = vault.write_unit(place_of(number), &unit_of(number)).is_ok();
    check!(rt; written);
    Ok(all_but(rt, &mut vault, 9))
}

#[test]
fn each_damaged_unit_is_found(rt: HostRuntime) -> Result<(), Fail> {
    let alloc = rt.alloc();
    for number in 0..9 {
        for way in 0..WAYS {
            check!(rt; found(&rt, alloc, number, way)?);
        }
    }
    Ok(())
}
