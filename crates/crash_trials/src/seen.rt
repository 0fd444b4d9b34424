// What an array shows of its blocks.
use crate::difference::agree;
use crate::payloads::content_of;
use crate::reported::{at_text, record_text, refusal_text};
use crate::setup::Memory;
use crate::trouble::Trouble;
use flat_machine::Refusal;
use map_join::Record;
use std::alloc::Global;
use step_core::At;

/// What lies at the record's place.
pub(crate) fn look(
    alloc: Global,
    array: &mut Memory,
    reported: Record,
) -> Result<Result<At, Refusal>, Trouble> {
    if reported.block >= array.shape().blocks {
        return Err(Trouble::Form);
    }
    match array.read_at(alloc, reported) {
        Err(Refusal::Memory) => Err(Trouble::Memory),
        found => Ok(found),
    }
}

/// The content of a block, as a read of it finds it.
pub(crate) fn content(alloc: Global, array: &mut Memory, block: u32) -> Result<String, Trouble> {
    if block >= array.shape().blocks {
        return Err(Trouble::Form);
    }
    Ok(match array.read(alloc, block) {
        Ok(Some((_version, payload))) => content_of(alloc, Some(&payload))?,
        Ok(None) => content_of(alloc, None)?,
        Err(Refusal::Memory) => return Err(Trouble::Memory),
        Err(refusal) => refusal_text(alloc, &refusal)?,
    })
}

// The content at a record's place.
fn content_at(alloc: Global, array: &mut Memory, reported: Record) -> Result<String, Trouble> {
    let found = look(alloc, array, reported)?;
    Ok(match &found {
        Ok(At::Data(payload)) => content_of(alloc, Some(payload))?,
        Ok(At::Trimmed) => content_of(alloc, None)?,
        _ => at_text(alloc, &found)?,
    })
}

// The newest record of a block with its content, by a read of the block and by one at the record's place.
fn block_text(alloc: Global, array: &mut Memory, reported: Record) -> Result<String, Trouble> {
    let read = content(alloc, array, reported.block)?;
    let found = content_at(alloc, array, reported)?;
    agree(alloc, "read", read.as_str(), found.as_str())?;
    let reported = record_text(alloc, reported)?;
    Ok(format!(in alloc; "{reported} {found}")?)
}

/// The newest record of each block with its content; `-` where no block has one.
pub(crate) fn map_text(alloc: Global, array: &mut Memory) -> Result<String, Trouble> {
    let mut text = String::new(alloc);
    for block in 0..array.shape().blocks {
        // The test never fails; `newest` requires it.
        if block < array.shape().blocks {
            if let Some(reported) = array.newest(block) {
                let entry = block_text(alloc, array, reported)?;
                join(&mut text, entry.as_str())?;
            }
        }
    }
    or_none(text)
}

/// Adds an entry to those of a cell.
pub(crate) fn join(text: &mut String, entry: &str) -> Result<(), Trouble> {
    if !text.is_empty() {
        text.push_str(";")?;
    }
    text.push_str(entry)?;
    Ok(())
}

/// The text of a cell, `-` where it has no entry.
pub(crate) fn or_none(text: String) -> Result<String, Trouble> {
    let mut text = text;
    if text.is_empty() {
        text.push_str("-")?;
    }
    Ok(text)
}
