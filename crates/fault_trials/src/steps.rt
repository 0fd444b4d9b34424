// Steps of a world as lines. A payload has eight bytes, and is named by a number.
use crate::payloads::payload_of;
use crate::trouble::Trouble;
use crate::words::{Words, byte, short};
use map_join::Record;
use std::alloc::{AllocError, Global};
use step_core::{Class, Member, Step};

/// The step that a line spells.
pub(crate) fn step(alloc: Global, line: &Words<'_>) -> Result<Step, Trouble> {
    match line.verb {
        "claim" | "release" | "fill" | "trim" | "copy" | "commit" | "discard" | "unmake" => work(
            alloc, line,
        ),
        "read" => Ok(Step::Read {
            block: line.numbers[0],
        }),
        "at" => found(line),
        "lose" => loss(line),
        "add" => Ok(Step::AddDrive),
        "move" => relocation(line),
        "mirrored" => make(alloc, Class::Mirrored, line),
        "parity" => make(alloc, Class::Parity, line),
        _ => Err(Trouble::Input),
    }
}

// A step of a worker at a slot or a group, followed by a payload's byte or a block.
fn work(alloc: Global, line: &Words<'_>) -> Result<Step, Trouble> {
    let [worker, slot, block, _, _, _, _, _] = line.numbers;
    let worker = byte(worker)?;
    let slot = short(slot)?;
    match line.verb {
        "claim" => Ok(Step::Claim { worker, slot }),
        "release" => Ok(Step::Release { worker, slot }),
        "fill" => Ok(Step::Fill {
            worker,
            slot,
            payload: payload(alloc, byte(block)?)?,
        }),
        "trim" => Ok(Step::Trim { worker, slot }),
        "copy" => Ok(Step::Copy {
            worker,
            slot,
            block,
        }),
        "commit" => Ok(Step::Commit {
            worker,
            slot,
            block,
        }),
        "unmake" => Ok(Step::Unmake {
            worker,
            group: slot,
        }),
        _ => Ok(Step::Discard { worker, slot }),
    }
}

fn payload(alloc: Global, number: u8) -> Result<Vec<u8>, AllocError> {
    payload_of(number).to_vec(alloc)
}

fn found(line: &Words<'_>) -> Result<Step, Trouble> {
    let [block, version, hop, place, _, _, _, _] = line.numbers;
    Ok(Step::ReadAt {
        record: Record {
            block,
            version,
            hop: short(hop)?,
            place: short(place)?,
        },
    })
}

fn loss(line: &Words<'_>) -> Result<Step, Trouble> {
    Ok(Step::Lose {
        drive: byte(line.numbers[0])?,
    })
}

fn member(drive: u32, extent: u32) -> Result<Member, Trouble> {
    Ok(Member {
        drive: byte(drive)?,
        extent: short(extent)?,
    })
}

fn relocation(line: &Words<'_>) -> Result<Step, Trouble> {
    let [group, moved, drive, extent, _, _, _, _] = line.numbers;
    Ok(Step::MoveExtent {
        group: short(group)?,
        member: byte(moved)?,
        to: member(drive, extent)?,
    })
}

// A group of three members.
fn make(alloc: Global, class: Class, line: &Words<'_>) -> Result<Step, Trouble> {
    let [d0, e0, d1, e1, d2, e2, _, _] = line.numbers;
    let members = [member(d0, e0)?, member(d1, e1)?, member(d2, e2)?];
    Ok(Step::Make {
        class,
        members: members.to_vec(alloc)?,
    })
}
