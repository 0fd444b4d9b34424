// Calls of a worker that need no proof from the caller: what a call requires is tested when it is made.
ghost use Rattle.std.specs.Prelude.{◌≡◌, ◌<◌, length, IsTrue};

use array_book::{Controller, Gate, Migration, NoGate, Sizes, WorkFault, Worker};
use map_join::Record;
use std::alloc::Global;
use std::sync::Wait;
use std::sync::atomic::AtomicU64;
use std::sync::atomic::Ordering::SeqCst;
use std::thread::yield_now;
use step_core::{MemDrive, Reading};

pub(crate) fn record(block: u32, version: u32, hop: u16, place: u16) -> Record {
    Record {
        block,
        version,
        hop,
        place,
    }
}

/// A payload of 40 bytes, all different, that begins with this one.
pub(crate) fn payload(first: u8) -> [u8; 40]
    ensures { length result ≡ 40 }
{
    let mut bytes = [0; 40];
    for at in 0..40u8 {
        bytes[usize::from(at)] = first.wrapping_add(at);
    }
    bytes
}

// Whether the worker's Book has this block, and payloads of 40 bytes.
fn has<N: slot_words::Naming + Sizes, A: map_words::Naming, B: map_words::Naming>(
    worker: &Worker<'_, MemDrive, N, A, B>,
    block: u32,
) -> bool
    ensures { IsTrue result → (block < worker.now.book.now.blocks) × (worker.now.book.now.payload ≡ 40) }
{
    block < worker.blocks() && worker.payload() == 40
}

/// Writes the payload that begins with this byte. Memory where the Book has no such block.
pub(crate) fn write_by<
    N: slot_words::Naming + Sizes,
    A: map_words::Naming,
    B: map_words::Naming,
    G: Gate,
    R: Wait,
>(
    rt: &R,
    alloc: Global,
    worker: &mut Worker<'_, MemDrive, N, A, B>,
    block: u32,
    first: u8,
    gate: &G,
) -> Result<Record, WorkFault> {
    if !has(worker, block) {
        return Err(WorkFault::Memory);
    }
    let emitted = worker.write(rt, alloc, block, &payload(first), gate)?;
    Ok(emitted.record())
}

/// Writes the payload that begins with this byte, without waiting at a gate.
pub(crate) fn write<
    N: slot_words::Naming + Sizes,
    A: map_words::Naming,
    B: map_words::Naming,
    R: Wait,
>(
    rt: &R,
    alloc: Global,
    worker: &mut Worker<'_, MemDrive, N, A, B>,
    block: u32,
    first: u8,
) -> Result<Record, WorkFault> {
    write_by(rt, alloc, worker, block, first, &NoGate)
}

/// Trims a block. Memory where the Book has no such block.
pub(crate) fn trim_by<
    N: slot_words::Naming + Sizes,
    A: map_words::Naming,
    B: map_words::Naming,
    G: Gate,
    R: Wait,
>(
    rt: &R,
    alloc: Global,
    worker: &mut Worker<'_, MemDrive, N, A, B>,
    block: u32,
    gate: &G,
) -> Result<Record, WorkFault> {
    if !has(worker, block) {
        return Err(WorkFault::Memory);
    }
    let emitted = worker.trim(rt, alloc, block, gate)?;
    Ok(emitted.record())
}

/// Trims a block, without waiting at a gate.
pub(crate) fn trim<
    N: slot_words::Naming + Sizes,
    A: map_words::Naming,
    B: map_words::Naming,
    R: Wait,
>(
    rt: &R,
    alloc: Global,
    worker: &mut Worker<'_, MemDrive, N, A, B>,
    block: u32,
) -> Result<Record, WorkFault> {
    trim_by(rt, alloc, worker, block, &NoGate)
}

/// The record with which a block was moved, if one was.
pub(crate) fn moved(migrated: Result<Migration, WorkFault>) -> Option<Record> {
    match migrated {
        Ok(Migration::Moved(emitted)) => Some(emitted.record()),
        _ => None,
    }
}

/// What a controller reads of a block. Memory where the Book has no such block.
pub(crate) fn read<
    N: slot_words::Naming + Sizes,
    A: map_words::Naming,
    B: map_words::Naming,
    R: Wait,
>(
    rt: &R,
    alloc: Global,
    worker: &mut Worker<'_, MemDrive, N, A, B>,
    controller: Controller,
    block: u32,
) -> Result<Option<Reading>, WorkFault> {
    if !has(worker, block) {
        return Err(WorkFault::Memory);
    }
    worker.read(rt, alloc, controller, block)
}

/// Whether a controller reads the block of this record as exactly this record, with the payload that begins with this byte.
pub(crate) fn reads<
    N: slot_words::Naming + Sizes,
    A: map_words::Naming,
    B: map_words::Naming,
    R: Wait,
>(
    rt: &R,
    alloc: Global,
    worker: &mut Worker<'_, MemDrive, N, A, B>,
    controller: Controller,
    newest: Record,
    first: u8,
) -> bool {
    match read(rt, alloc, worker, controller, newest.block) {
        Ok(Some(reading)) => {
            reading.record() == newest && reading.payload() == Some(payload(first).as_slice())
        }
        _ => false,
    }
}

/// Whether a controller reads the block of this record as exactly this record, which is of a trim.
pub(crate) fn reads_trim<
    N: slot_words::Naming + Sizes,
    A: map_words::Naming,
    B: map_words::Naming,
    R: Wait,
>(
    rt: &R,
    alloc: Global,
    worker: &mut Worker<'_, MemDrive, N, A, B>,
    controller: Controller,
    newest: Record,
) -> bool {
    match read(rt, alloc, worker, controller, newest.block) {
        Ok(Some(reading)) => reading.record() == newest && reading.payload().is_none(),
        _ => false,
    }
}

/// Whether a controller has no record of a block.
pub(crate) fn reads_none<
    N: slot_words::Naming + Sizes,
    A: map_words::Naming,
    B: map_words::Naming,
    R: Wait,
>(
    rt: &R,
    alloc: Global,
    worker: &mut Worker<'_, MemDrive, N, A, B>,
    controller: Controller,
    block: u32,
) -> bool {
    matches!(read(rt, alloc, worker, controller, block), Ok(None))
}

/// Waits until the number is at least `expected`, for a billion loads at most. Returns whether it is.
pub(crate) fn comes_to(number: &AtomicU64, expected: u64) -> bool {
    for _look in 0..1_000_000_000u32 {
        if number.load(SeqCst) >= expected {
            return true;
        }
        yield_now();
    }
    false
}
