// Cells with the expected results of a row. Each is checked for its form, and kept as it is spelled. So results are compared
// as texts.
use crate::trouble::Trouble;
use crate::words::{byte, numbers_of, record_of, verb_of};
use map_join::Record;
use std::alloc::Global;

/// What represents a trim among contents.
const TRIM: u32 = 999;

// An entry of a map: a record of one of `blocks` blocks, and its content.
fn is_entry(alloc: Global, entry: &str, blocks: u32) -> Result<(), Trouble> {
    let numbers = numbers_of(alloc, entry)?;
    let [block, version, hop, place, content] = numbers.as_slice() else {
        return Err(Trouble::Form);
    };
    let _reported = record_of(&[*block, *version, *hop, *place], blocks)?;
    if *content != TRIM {
        let _named = byte(*content)?;
    }
    Ok(())
}

/// A map: each block's newest record with its content.
pub(crate) fn map_of(alloc: Global, cell: &str, blocks: u32) -> Result<String, Trouble> {
    if cell != "-" {
        for entry in cell.split(';') {
            is_entry(alloc, entry, blocks)?;
        }
    }
    Ok(String::from_str(alloc, cell)?)
}

/// A plan's answer: a list, or a refusal with what it names.
pub(crate) fn answer_of(alloc: Global, cell: &str) -> Result<String, Trouble> {
    let (verb, numbers) = verb_of(alloc, cell)?;
    match (verb, numbers.as_slice()) {
        ("list", []) => Ok(String::from_str(alloc, cell)?),
        ("refused", [_, ..]) => Ok(String::from_str(alloc, cell)?),
        _ => Err(Trouble::Form),
    }
}

/// What a restart over a note finds: a bad note with its slot, or the map.
pub(crate) fn found_of(alloc: Global, cell: &str, blocks: u32) -> Result<String, Trouble> {
    if !cell.starts_with("badnote") {
        return map_of(alloc, cell, blocks);
    }
    let (verb, numbers) = verb_of(alloc, cell)?;
    match (verb, numbers.as_slice()) {
        ("badnote", [_]) => Ok(String::from_str(alloc, cell)?),
        _ => Err(Trouble::Form),
    }
}

// What lies at a record's place: a payload, a trim, another record or none, or a refusal.
fn is_seen(alloc: Global, answer: &str) -> Result<(), Trouble> {
    let (verb, numbers) = verb_of(alloc, answer)?;
    match (verb, numbers.as_slice()) {
        ("data", [_]) => Ok(()),
        ("trimmed", []) => Ok(()),
        ("stale", []) => Ok(()),
        ("stale", [_, _, _, _]) => Ok(()),
        ("refused", [_, ..]) => Ok(()),
        _ => Err(Trouble::Form),
    }
}

/// The records of a cell, each with what lies at its place after ` > `.
pub(crate) fn records_of(alloc: Global, cell: &str, blocks: u32) -> Result<Vec<Record>, Trouble> {
    let mut records = Vec::new(alloc);
    if cell == "-" {
        return Ok(records);
    }
    for entry in cell.split(';') {
        let Some((reported, answer)) = entry.split_once(" > ") else {
            return Err(Trouble::Form);
        };
        is_seen(alloc, answer)?;
        records.push(record_of(&numbers_of(alloc, reported)?, blocks)?)?;
    }
    Ok(records)
}
