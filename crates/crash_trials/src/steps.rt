// Steps of a setup as lines.
use crate::payloads::payload_of;
use crate::trouble::Trouble;
use crate::words::{byte, short, verb_of};
use std::alloc::Global;
use step_core::{Class, Member, Step};

/// The step that a line spells, with payloads of `length` bytes.
pub(crate) fn step_of(alloc: Global, line: &str, length: u32) -> Result<Step, Trouble> {
    let (verb, numbers) = verb_of(alloc, line)?;
    match verb {
        "mirrored" => make(alloc, Class::Mirrored, &numbers),
        "parity" => make(alloc, Class::Parity, &numbers),
        "lose" => loss(&numbers),
        _ => work(alloc, verb, &numbers, length),
    }
}

// A step of a worker at a slot, with a payload's byte or a block.
fn work(alloc: Global, verb: &str, numbers: &[u32], length: u32) -> Result<Step, Trouble> {
    match numbers {
        [worker, slot] => short_work(verb, byte(*worker)?, short(*slot)?),
        [worker, slot, last] => {
            let worker = byte(*worker)?;
            let slot = short(*slot)?;
            match verb {
                "fill" => Ok(Step::Fill {
                    worker,
                    slot,
                    payload: payload_of(alloc, byte(*last)?, length)?,
                }),
                "copy" => Ok(Step::Copy {
                    worker,
                    slot,
                    block: *last,
                }),
                "commit" => Ok(Step::Commit {
                    worker,
                    slot,
                    block: *last,
                }),
                _ => Err(Trouble::Form),
            }
        }
        _ => Err(Trouble::Form),
    }
}

// A step of a worker at a slot.
fn short_work(verb: &str, worker: u8, slot: u16) -> Result<Step, Trouble> {
    match verb {
        "claim" => Ok(Step::Claim { worker, slot }),
        "release" => Ok(Step::Release { worker, slot }),
        "trim" => Ok(Step::Trim { worker, slot }),
        _ => Err(Trouble::Form),
    }
}

fn loss(numbers: &[u32]) -> Result<Step, Trouble> {
    match numbers {
        [drive] => Ok(Step::Lose {
            drive: byte(*drive)?,
        }),
        _ => Err(Trouble::Form),
    }
}

// A group of members, each by its drive and its extent.
fn make(alloc: Global, class: Class, numbers: &[u32]) -> Result<Step, Trouble> {
    let mut members = Vec::new(alloc);
    for pair in numbers.chunks(2) {
        members.push(member(pair)?)?;
    }
    Ok(Step::Make { class, members })
}

fn member(pair: &[u32]) -> Result<Member, Trouble> {
    match pair {
        [drive, extent] => Ok(Member {
            drive: byte(*drive)?,
            extent: short(*extent)?,
        }),
        _ => Err(Trouble::Form),
    }
}
