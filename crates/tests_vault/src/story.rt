//! A run of a vault over three drives, and the units that are there after each of its batches.
use extent_groups::Place;
use file_vault::{FileVault, Files, Layout, MemFiles};
use std::alloc::{AllocError, Global};
use std::test::Fail;
use vault::{Batch, TABLE, Vault, VaultError, add, flush, settle};

/// Units of each drive, and their bytes; the bytes of the table.
const UNITS: u32 = 3;

const UNIT: usize = 5;

const TABLE_BYTES: usize = 4;

/// Batches of a run.
pub(crate) const BATCHES: usize = 6;

pub(crate) fn layout() -> Layout {
    let mut counts = [0; 16];
    counts[0] = UNITS;
    counts[1] = UNITS;
    counts[2] = UNITS;
    Layout {
        unit_bytes: UNIT as u32,
        table_bytes: TABLE_BYTES as u32,
        counts,
    }
}

/// Files without bytes.
pub(crate) fn empty_files(alloc: Global, count: usize) -> Result<MemFiles, Fail> {
    let mut first = Vec::new(alloc);
    for _ in 0..count {
        first.push(Vec::new(alloc))?;
    }
    Ok(MemFiles::new(alloc, first))
}

/// What is there: ten places of units and the table, in their order.
#[derive(Drop)]
pub(crate) struct Units {
    pub(crate) bytes: Vec<u8>,
}

// The place of this number: three of each drive, and the table.
fn place_of(number: usize) -> Place {
    if number >= 9 {
        return Place {
            drive: TABLE,
            address: 0,
        };
    }
    Place {
        drive: (number / 3) as u8,
        address: (number % 3) as u32,
    }
}

// The bytes of a unit that a batch writes.
fn unit_of(batch: usize, number: usize) -> [u8; 5] {
    let seed = (batch % 10 * 16 + number % 10 + 1) as u8;
    [seed, seed ^ 0x55, 2, 1, seed.wrapping_mul(7)]
}

/// Puts the writes of a batch: a unit on two drives, one on another, and every second time the table.
pub(crate) fn fill(batch: &mut Batch, number: usize) -> Result<(), AllocError> {
    batch.clear();
    let first = number % 3;
    let unit = unit_of(number, first);
    batch.push(place_of(first), &unit)?;
    batch.push(place_of(3 + first), &unit)?;
    batch.push(place_of(6 + (number % 3 + 1) % 3), &unit_of(number, 7))?;
    if number % 2 == 1 {
        batch.push(place_of(9), &unit_of(number, 9)[..TABLE_BYTES])?;
    }
    Ok(())
}

/// The units after the first batches.
pub(crate) fn units_after(alloc: Global, batches: usize) -> Result<Units, Fail> {
    let mut bytes = Vec::new(alloc);
    bytes.resize(9 * UNIT + TABLE_BYTES, 0)?;
    let mut batch = Batch::new(alloc);
    for number in 0..batches {
        fill(&mut batch, number)?;
        for index in 0..batch.len() {
            let place = batch.place(index);
            let spot = if place.drive == TABLE {
                9 * UNIT
            } else {
                (place.drive as usize * 3 + place.address as usize) * UNIT
            };
            for (k, byte) in batch.unit(index).iter().enumerate() {
                if spot + k < bytes.len() {
                    bytes[spot + k] = *byte;
                }
            }
        }
    }
    Ok(Units { bytes })
}

/// Reads all units.
pub(crate) fn read_units<F: Files + Drop>(
    alloc: Global,
    vault: &mut FileVault<F>,
) -> Result<Units, VaultError> {
    let mut bytes = Vec::new(alloc);
    for number in 0..9 {
        let mut unit = [0; 5];
        vault.read_unit(place_of(number), &mut unit)?;
        bytes.extend_from_slice(&unit)?;
    }
    let mut table = [0; 4];
    vault.read_unit(place_of(9), &mut table)?;
    bytes.extend_from_slice(&table)?;
    Ok(Units { bytes })
}

/// How far a run came: batches that were begun, that were added, and that were flushed.
#[derive(Clone, Copy, Debug, PartialEq, Eq)]
pub(crate) struct Reached {
    pub(crate) begun: usize,
    pub(crate) added: usize,
    pub(crate) flushed: usize,
}

/// Adds all batches. Flushes after batches 1, 2 and 5, and settles after 3.
pub(crate) fn run<F: Files + Drop>(
    alloc: Global,
    vault: &mut FileVault<F>,
    reached: &mut Reached,
) -> Result<(), VaultError> {
    let mut batch = Batch::new(alloc);
    let mut room = Batch::new(alloc);
    for number in 0..BATCHES {
        fill(&mut batch, number)?;
        reached.begun = number + 1;
        add(vault, &batch)?;
        reached.added = number + 1;
        if number == 1 || number == 2 || number == 3 || number == 5 {
            flush(vault)?;
            reached.flushed = number + 1;
        }
        if number == 3 {
            settle(vault, &mut room, &[false; 16])?;
        }
    }
    Ok(())
}

/// Files after a recovery, and the units if it came to its end.
#[derive(Drop)]
pub(crate) struct Recovered {
    pub(crate) files: MemFiles,
    pub(crate) units: Option<Units>,
}

impl Recovered {
    pub(crate) fn into_units(self) -> Option<Units> {
        let Recovered { files, units } = self;
        drop(files);
        units
    }
}

/// Opens files that a stop left, settles, and reads all units.
pub(crate) fn recover(alloc: Global, files: MemFiles) -> Recovered {
    match FileVault::open(alloc, files, layout()) {
        Ok(mut vault) => {
            let units = settled(alloc, &mut vault).ok();
            Recovered {
                files: vault.into_files(),
                units,
            }
        }
        Err((_, files)) => Recovered { files, units: None },
    }
}

/// Settles, and reads all units.
pub(crate) fn settled<F: Files + Drop>(
    alloc: Global,
    vault: &mut FileVault<F>,
) -> Result<Units, VaultError> {
    let mut room = Batch::new(alloc);
    settle(vault, &mut room, &[false; 16])?;
    read_units(alloc, vault)
}
