// Restarts over units that are written manually, in both layouts.
use crate::allocations::map_of;
use crate::answers::is_answer;
use crate::case::steps_of;
use crate::payloads::payload_of;
use crate::runs::run;
use crate::slots::Slots;
use crate::spellings::header_of;
use crate::trouble::Trouble;
use crate::words::{NUMBERS, Words, byte, short, words_of};
use header_scan::ScanFault;
use hex::FromHex;
use map_join::Record;
use std::alloc::Global;
use step_core::{Step, World};

/// The number that represents a trim among contents.
const TRIMMED: u32 = 999;

/// How many restarts ended as their rows say, how many of them with a fault, and the first row that differs.
#[derive(Drop)]
pub(crate) struct Restarts {
    pub(crate) rows: u64,
    pub(crate) faults: u64,
    pub(crate) differs: Option<u64>,
}

/// Carries out each row. It has, with commas between: a number; units to write, as slot, header and the payload's number;
/// drives to lose; `fault` and its numbers, or each block's record and content; steps with their answers; and slots with
/// the bytes of their units at the end. Semicolons separate the items of a field, spaces the drives, and `-` is none.
/// The first line names the fields.
pub(crate) fn restart_all(alloc: Global, text: &str) -> Result<Restarts, Trouble> {
    let mut counts = Restarts {
        rows: 0,
        faults: 0,
        differs: None,
    };
    for row in text.lines().skip(1) {
        match restart_row(alloc, row) {
            Ok(is_fault) => counts.faults = counts.faults.saturating_add(u64::from(is_fault)),
            Err(Trouble::Wrong) => {
                counts.differs = Some(counts.rows.saturating_add(1));
                return Ok(counts);
            }
            Err(trouble) => return Err(trouble),
        }
        counts.rows = counts.rows.saturating_add(1);
    }
    Ok(counts)
}

// The items of a field, in one text; empty if it is `-`.
fn items(field: &str) -> &str {
    if field == "-" { "" } else { field }
}

// Whether the row's restart returned a fault.
fn restart_row(alloc: Global, row: &str) -> Result<bool, Trouble> {
    let mut fields = row.split(',').skip(1);
    let mut next = || fields.next().ok_or(Trouble::Input);
    let (units, drives, answer) = (next()?, next()?, next()?);
    let (steps, left) = (next()?, next()?);
    match written(alloc, items(units), items(drives))?.restart(alloc)? {
        Err(fault) if is_fault(fault, answer)? => Ok(true),
        Err(_) => Err(Trouble::Wrong),
        Ok(world) => {
            go_on(alloc, world, answer, items(steps), items(left))?;
            Ok(false)
        }
    }
}

// Reads what a restart found, carries out the steps, and compares what they leave.
fn go_on(
    alloc: Global,
    world: World,
    answer: &str,
    steps: &str,
    left: &str,
) -> Result<(), Trouble> {
    let world = found(alloc, world, answer)?;
    let part = steps_of(alloc, steps, ';')?;
    let world = run(alloc, world, &part.steps, &part.expected)?;
    are_left(alloc, world, left)
}

// The two groups with these units, after which these drives are lost.
fn written(alloc: Global, units: &str, drives: &str) -> Result<Slots, Trouble> {
    let mut slots = Slots::new(alloc)?;
    write_all(&mut slots, units, drives)?;
    Ok(slots)
}

fn write_all(slots: &mut Slots, units: &str, drives: &str) -> Result<(), Trouble> {
    for unit in units.split(';') {
        write(slots, unit)?;
    }
    for drive in drives.split(' ') {
        if drive != "" {
            slots.lose(byte(number(drive)?)?)?;
        }
    }
    Ok(())
}

fn write(slots: &mut Slots, unit: &str) -> Result<(), Trouble> {
    let (slot, rest) = unit.split_once(' ').ok_or(Trouble::Input)?;
    let (header, content) = rest.split_once(' ').ok_or(Trouble::Input)?;
    let payload = payload_of(byte(number(content)?)?);
    slots.put_at(short(number(slot)?)?, header_of(header)?, payload)
}

fn number(word: &str) -> Result<u32, Trouble> {
    word.parse::<u32>().ok().ok_or(Trouble::Input)
}

// Whether the fault is the expected one.
fn is_fault(fault: ScanFault, expected: &str) -> Result<bool, Trouble> {
    let reported: [u32; 4] = match fault {
        ScanFault::BadHeader(slot) => [2, u32::from(slot), 0, 0],
        ScanFault::WrongSlot(slot, reported) => [3, u32::from(slot), u32::from(reported), 0],
        ScanFault::Twice(block, slot, other) => [4, block, u32::from(slot), u32::from(other)],
        ScanFault::Gone(slot) => [5, u32::from(slot), 0, 0],
        ScanFault::NoClaim(slot) => [6, u32::from(slot), 0, 0],
        ScanFault::BadNote(slot) => [7, u32::from(slot), 0, 0],
        ScanFault::Memory => return Err(Trouble::Memory),
    };
    let words = words_of(expected)?;
    Ok(words.verb == "fault" && &words.numbers[..4] == &reported[..])
}

// The world, whose map has these records, and whose blocks read as these contents.
fn found(alloc: Global, world: World, expected: &str) -> Result<World, Trouble> {
    let mut world = world;
    let mut records = Vec::new(alloc);
    read_blocks(alloc, &mut world, expected, &mut records)?;
    has_map(alloc, &world, &records)?;
    Ok(world)
}

fn read_blocks(
    alloc: Global,
    world: &mut World,
    expected: &str,
    records: &mut Vec<Record>,
) -> Result<(), Trouble> {
    for block in expected.split(';') {
        records.push(read_block(alloc, world, block)?)?;
    }
    Ok(())
}

fn has_map(alloc: Global, world: &World, records: &[Record]) -> Result<(), Trouble> {
    let list = map_of(alloc, world.array())?.to_list(alloc)?;
    if list.as_slice() == records {
        Ok(())
    } else {
        Err(Trouble::Wrong)
    }
}

// The record that a block's numbers spell; the block reads as the content after them.
fn read_block(alloc: Global, world: &mut World, expected: &str) -> Result<Record, Trouble> {
    let (block, rest) = expected.split_once(' ').ok_or(Trouble::Input)?;
    let block = number(block)?;
    let mut words = rest.split(' ');
    let mut next = || match words.next() {
        Some(word) => number(word),
        None => Err(Trouble::Input),
    };
    let record = Record {
        block,
        version: next()?,
        hop: short(next()?)?,
        place: short(next()?)?,
    };
    let step = Step::Read { block };
    if !world.fits(&step) {
        return Err(Trouble::Input);
    }
    let answer = world.step(alloc, &step)?;
    if is_answer(&content(record.version, next()?), &answer) {
        Ok(record)
    } else {
        Err(Trouble::Wrong)
    }
}

// The answer of a read of a block of this version and content.
fn content(version: u32, content: u32) -> Words<'static> {
    if content == TRIMMED {
        return Words {
            verb: "none",
            numbers: [0; NUMBERS],
        };
    }
    Words {
        verb: "data",
        numbers: [version, content, 0, 0, 0, 0, 0, 0],
    }
}

// Whether the slots have these units: 32 bytes of a header, and the payload that its first byte names, or zeros.
fn are_left(alloc: Global, world: World, units: &str) -> Result<(), Trouble> {
    let mut slots = Slots::of(alloc, world)?;
    each_is_left(&mut slots, units)
}

fn each_is_left(slots: &mut Slots, units: &str) -> Result<(), Trouble> {
    for unit in units.split(';') {
        if unit != "" {
            is_left(slots, unit)?;
        }
    }
    Ok(())
}

fn is_left(slots: &mut Slots, unit: &str) -> Result<(), Trouble> {
    let (slot, digits) = unit.split_once(' ').ok_or(Trouble::Input)?;
    let mut expected = <[u8; 40] as FromHex>::from_hex(digits)
        .ok()
        .ok_or(Trouble::Input)?;
    if expected[32] != 0 {
        let payload = payload_of(expected[32]);
        expected[32..].copy_from_slice(&payload);
    }
    if slots.unit(short(number(slot)?)?)? == expected {
        Ok(())
    } else {
        Err(Trouble::Wrong)
    }
}
