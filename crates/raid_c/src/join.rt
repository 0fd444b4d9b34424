// Joins of lists of records, twelve bytes each.
ghost use Rattle.std.specs.Prelude.{◌≡◌, ◌<◌, ◌/◌, length, IfOk, IfErr};
ghost use Rattle.map_join.specs.Record.{Spells};
ghost use Rattle.raid_c.specs.declared.status.Status.TheVariants.{Version};
ghost use Rattle.map_join.specs.Maps.{at};
ghost use Rattle.raid_c.specs.Status.{Returns};
ghost use Rattle.raid_c.specs.Lists.{AreRecords, AreWritten, Compares, HasVersionZero, IsJoinOf, IsMapOfBytes, Joins, Refuses, piece};

use crate::bytes::put_out;
use crate::status::Status;
use map_join::{BlockMap, Record};
use std::alloc::{AllocError, Global};

/// Bytes of a record.
pub(crate) const RECORD: usize = 12;

// The record of this number in a list.
pub(crate) fn record_at(records: &[u8], index: usize) -> Result<Record, Status>
    requires { index < length records.now / RECORD }
    ensures ok { IfOk result (λ r. Spells (piece records.now index) r × (0 < r.version)) }
    ensures err { IfErr result (λ status. (status ≡ Version) × HasVersionZero records.now) }
{
    match Record::of_bytes(&records[RECORD * index..RECORD * index + RECORD]) {
        Ok(record) => Ok(record),
        Err(_) => Err(Status::Version),
    }
}

// The map of a list of records.
fn map_of(alloc: Global, records: &[u8]) -> Result<BlockMap, Status>
    ensures ok { IfOk result (λ map. IsMapOfBytes records.now (at map)) }
    ensures err { IfErr result (λ status. Refuses status records.now) }
{
    if records.len() % RECORD != 0 {
        return Err(Status::Length);
    }
    let mut map = BlockMap::new(alloc);
    for index in 0..records.len() / RECORD {
        map.take(alloc, record_at(records, index)?)?;
    }
    Ok(map)
}

// The bytes of a list of records.
fn bytes_of(alloc: Global, records: &[Record]) -> Result<Vec<u8>, AllocError>
    requires { AreWritten records.now }
    ensures { IfOk result (λ bytes. AreRecords bytes.items records.now) }
{
    let mut bytes = Vec::new(alloc);
    for record in records {
        bytes.extend_from_slice(&record.to_bytes())?;
    }
    Ok(bytes)
}

// The join of a list of records.
fn joined_of(alloc: Global, records: &[u8]) -> Result<Vec<u8>, Status>
    ensures ok { IfOk result (λ joined. IsJoinOf records.now joined.items) }
    ensures err { IfErr result (λ status. Refuses status records.now) }
{
    let list = map_of(alloc, records)?.to_list(alloc)?;
    Ok(bytes_of(alloc, &list)?)
}

/// Writes the newest record of each block of a list, in the blocks' order, to the start of a buffer, and counts the bytes.
/// Length if the list's length is no multiple of 12; Version if one of its records has version 0; Memory if out of memory; Room
/// if the buffer is too short, and then the count is the number of bytes needed. Only Done changes the buffer. With Length,
/// Version and Memory the count is 0.
#[unsafe(no_mangle)]
pub extern "C" fn behkuna_join(
    alloc: Global,
    records: &[u8],
    joined: &mut [u8],
    count: &mut usize,
) -> u32
    ensures { Returns result (λ status. Joins status records.now joined.old joined.new count.new) }
{
    // Before anything may fail: a caller that doesn't look at the status then takes no bytes for an answer.
    *count = 0;
    match joined_of(alloc, records) {
        Ok(bytes) => put_out(&bytes, joined, count).number(),
        Err(status) => status.number(),
    }
}

/// Whether two lists of records have the same map. Differs if they don't: then `block` is the lowest block of which their maps
/// have different keys. Length, Version and Memory as of `behkuna_join`, for the first list before the second. Only Differs
/// changes `block`.
#[unsafe(no_mangle)]
pub extern "C" fn behkuna_agree(alloc: Global, ours: &[u8], theirs: &[u8], block: &mut u32) -> u32
    ensures { Returns result (λ status. Compares status ours.now theirs.now block.old block.new) }
{
    let ours = match map_of(alloc, ours) {
        Ok(map) => map,
        Err(status) => return status.number(),
    };
    let theirs = match map_of(alloc, theirs) {
        Ok(map) => map,
        Err(status) => return status.number(),
    };
    let Some(lowest) = ours.lowest_difference(&theirs) else {
        return Status::Done.number();
    };
    *block = lowest;
    Status::Differs.number()
}
