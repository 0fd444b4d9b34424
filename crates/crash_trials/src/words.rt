// Numbers, records and lists as the tables spell them.
use crate::trouble::Trouble;
use map_join::Record;
use std::alloc::{AllocError, Global};

/// The cells of a line.
pub(crate) fn cells_of(alloc: Global, line: &str) -> Result<Vec<&str>, AllocError> {
    let mut cells = Vec::new(alloc);
    for cell in line.split(',') {
        cells.push(cell)?;
    }
    Ok(cells)
}

/// The number that a word spells in decimal digits, without a sign or a zero too many. Else two spellings of one number would
/// differ as cells.
pub(crate) fn number(word: &str) -> Result<u32, Trouble> {
    if word.starts_with("+") || word.starts_with("0") && word != "0" {
        return Err(Trouble::Form);
    }
    match word.parse::<u32>() {
        Ok(number) => Ok(number),
        Err(_) => Err(Trouble::Form),
    }
}

/// The number as a drive, a worker or a payload's byte.
pub(crate) fn byte(number: u32) -> Result<u8, Trouble> {
    match u8::try_from(number) {
        Ok(byte) => Ok(byte),
        Err(_) => Err(Trouble::Form),
    }
}

/// The number as a slot, an extent or a hop.
pub(crate) fn short(number: u32) -> Result<u16, Trouble> {
    match u16::try_from(number) {
        Ok(short) => Ok(short),
        Err(_) => Err(Trouble::Form),
    }
}

/// The numbers of a text, with one space between each two; an empty text has none.
pub(crate) fn numbers_of(alloc: Global, text: &str) -> Result<Vec<u32>, Trouble> {
    let mut numbers = Vec::new(alloc);
    if text != "" {
        push_numbers(text, &mut numbers)?;
    }
    Ok(numbers)
}

fn push_numbers(text: &str, numbers: &mut Vec<u32>) -> Result<(), Trouble> {
    for word in text.split(' ') {
        numbers.push(number(word)?)?;
    }
    Ok(())
}

/// The first word of a text, and the numbers after it.
pub(crate) fn verb_of(alloc: Global, text: &str) -> Result<(&str, Vec<u32>), Trouble> {
    match text.split_once(' ') {
        Some((verb, rest)) if rest != "" => Ok((verb, numbers_of(alloc, rest)?)),
        Some(_) => Err(Trouble::Form),
        None => Ok((text, Vec::new(alloc))),
    }
}

/// The drives of a cell, of which an array has `count`.
pub(crate) fn drives_of(alloc: Global, cell: &str, count: u8) -> Result<Vec<u8>, Trouble> {
    let mut drives = Vec::new(alloc);
    if cell != "-" {
        push_drives(cell, count, &mut drives)?;
    }
    Ok(drives)
}

fn push_drives(cell: &str, count: u8, drives: &mut Vec<u8>) -> Result<(), Trouble> {
    for word in cell.split(' ') {
        let drive = byte(number(word)?)?;
        if drive >= count {
            return Err(Trouble::Form);
        }
        drives.push(drive)?;
    }
    Ok(())
}

/// The record that four numbers spell, of one of `blocks` blocks.
pub(crate) fn record_of(numbers: &[u32], blocks: u32) -> Result<Record, Trouble> {
    match numbers {
        [block, version, hop, place] if *block < blocks => Ok(Record {
            block: *block,
            version: *version,
            hop: short(*hop)?,
            place: short(*place)?,
        }),
        _ => Err(Trouble::Form),
    }
}
