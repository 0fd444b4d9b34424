// The story of a step that is stopped: the commit of a block to a parity slot, with its note and without.
use crate::intents::planned;
use crate::payloads::is_named;
use crate::setup::{Memory, Setup, read_setup};
use crate::stopped::{Stopped, lose, restarted_whole, run, stopped};
use crate::trouble::Trouble;
use crash_points::{Intent, Unfinished, stop_after};
use flat_machine::Refusal;
use header_scan::ScanFault;
use std::alloc::Global;
use unit_store::Micro;

/// Block 3 is in the mirrored group and waits at slot 128, a copy; block 4 is at slot 130, in the same row.
const STEPS: &str = "\
    array 4 8 2 8 16\n\
    mirrored 0 0 1 0 2 0 > made 0\n\
    parity 1 1 2 1 3 1 > made 1\n\
    claim 0 0 > claimed 0\n\
    fill 0 0 17 > filled 0\n\
    commit 0 0 3 > record 3 1 0 0\n\
    claim 0 1 > claimed 1\n\
    fill 0 1 68 > filled 1\n\
    commit 0 1 4 > record 4 1 0 1\n\
    claim 0 130 > claimed 130\n\
    copy 0 130 4 > copied 130\n\
    commit 0 130 4 > record 4 1 1 130\n\
    claim 0 128 > claimed 128\n\
    copy 0 128 3 > copied 128\n\
";

/// The block that is committed, its payload's byte, and the slots of before and after.
const MOVED: u32 = 3;

const MOVED_BYTE: u8 = 17;

const OLD_SLOT: u16 = 0;

const NEW_SLOT: u16 = 128;

/// A block in the same row that the commit doesn't write, its payload's byte and its slot.
const OTHER: u32 = 4;

const OTHER_BYTE: u8 = 68;

const OTHER_SLOT: u16 = 130;

/// Prints what a restart finds after each stop in the commit, with its note and without.
pub(crate) fn report_story(rt: &HostRuntime) -> Result<(), Trouble> {
    let setup = read_setup(rt.alloc(), "the story", STEPS)?;
    println!(rt;
        "commit of block 3 to slot 128: set the note, write unit and parity, clear the note"
    )?;
    // The list has four entries: a stop before the first, and after each.
    for entries in 0..5 {
        report_stops(rt, &setup, entries, true)?;
    }
    println!(rt; "the same commit without its note: write unit and parity")?;
    // Without the note there are two.
    for entries in 0..3 {
        report_stops(rt, &setup, entries, false)?;
    }
    Ok(())
}

// Stops after some entries, and loses no drive or one of the four.
fn report_stops(
    rt: &HostRuntime,
    setup: &Setup,
    entries: usize,
    is_noted: bool,
) -> Result<(), Trouble> {
    let said = said_of(rt.alloc(), setup, entries, &[], is_noted)?;
    println!(rt; "stop after {entries}, no drive lost: {said}")?;
    for drive in 0..4 {
        let said = said_of(rt.alloc(), setup, entries, &[drive], is_noted)?;
        println!(rt; "stop after {entries}, drive {drive} lost: {said}")?;
    }
    Ok(())
}

// What a restart finds after the stop and the losses.
fn said_of(
    alloc: Global,
    setup: &Setup,
    entries: usize,
    lost: &[u8],
    is_noted: bool,
) -> Result<&'static str, Trouble> {
    let mut array = setup.built(alloc)?;
    if is_noted && lost.is_empty() {
        return cut_short(alloc, array, entries);
    }
    let list = commit_list(alloc, &mut array, is_noted)?;
    let mut parts = stopped(alloc, array)?;
    run(&mut parts, list, entries)?;
    lose(&mut parts, lost)?;
    found(alloc, parts)
}

// What is found after `stop_after`, the library's one call for a stop and a restart. No drive is lost. It has a note always
// and loses no drive, so the other stops put the calls together themselves.
fn cut_short(alloc: Global, array: Memory, entries: usize) -> Result<&'static str, Trouble> {
    if MOVED >= array.shape().blocks {
        return Err(Trouble::Form);
    }
    let intent = Intent::Commit {
        slot: NEW_SLOT,
        block: MOVED,
    };
    match stop_after(alloc, array, &intent, entries) {
        Ok((mut array, _others)) => reported(alloc, &mut array),
        Err(Unfinished::NotBegun(Refusal::Memory, _)) => Err(Trouble::Memory),
        Err(Unfinished::NotRestarted(ScanFault::Memory, _, _)) => Err(Trouble::Memory),
        Err(_) => Ok("no array"),
    }
}

// The list of the commit, or its writes alone. Without its note the list is what an array writes that sets none.
fn commit_list(alloc: Global, array: &mut Memory, is_noted: bool) -> Result<Vec<Micro>, Trouble> {
    let intent = Intent::Commit {
        slot: NEW_SLOT,
        block: MOVED,
    };
    let Ok(list) = planned(alloc, array, &intent)? else {
        return Err(Trouble::Form);
    };
    if is_noted {
        return Ok(list);
    }
    let mut writes = Vec::new(alloc);
    for micro in list {
        if matches!(&micro, Micro::Write { .. }) {
            writes.push(micro)?;
        }
    }
    Ok(writes)
}

// What a restart of the parts finds.
fn found(alloc: Global, parts: Stopped) -> Result<&'static str, Trouble> {
    let mut array = match restarted_whole(alloc, parts)? {
        Ok(array) => array,
        Err((ScanFault::BadHeader(OTHER_SLOT), _, _)) => return Ok("block 4 is garbled"),
        Err(_) => return Ok("no array"),
    };
    reported(alloc, &mut array)
}

// Where block 3 is, if both blocks read correctly; else which block doesn't.
fn reported(alloc: Global, array: &mut Memory) -> Result<&'static str, Trouble> {
    // First the block that the commit doesn't write: that it is intact is what the note is for.
    if !reads(alloc, array, OTHER, OTHER_BYTE)? {
        return Ok("block 4 is garbled");
    }
    if !reads(alloc, array, MOVED, MOVED_BYTE)? {
        return Ok("block 3 is garbled");
    }
    Ok(match slot_of(array) {
        Some(OLD_SLOT) => "old, blocks 3 and 4 read right",
        Some(NEW_SLOT) => "new, blocks 3 and 4 read right",
        _ => "block 3 is somewhere else",
    })
}

// The slot of the newest record of the block that is committed.
fn slot_of(array: &Memory) -> Option<u16> {
    if MOVED >= array.shape().blocks {
        return None;
    }
    Some(array.newest(MOVED)?.place)
}

// Whether a block reads as the payload that the byte names.
fn reads(alloc: Global, array: &mut Memory, block: u32, byte: u8) -> Result<bool, Trouble> {
    if block >= array.shape().blocks {
        return Ok(false);
    }
    match array.read(alloc, block) {
        Ok(Some((_version, payload))) => Ok(is_named(&payload, byte)),
        Err(Refusal::Memory) => Err(Trouble::Memory),
        _ => Ok(false),
    }
}
