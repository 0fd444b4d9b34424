// A plain walk over headers as bytes: the fault that a scan of them returns, or the newest record of each block. It shares no
// code with the scan, which is compared with it.
use header_scan::ScanFault;
use map_join::Record;
use std::alloc::Global;

/// A slot and the header that lies there.
pub(crate) type Placed = (u16, [u8; 32]);

/// What the headers of some slots hold, which are listed by number; it allocates as a scan does.
pub(crate) fn walk(
    alloc: Global,
    placed: &[Placed],
    blocks: u32,
) -> Result<Vec<Record>, ScanFault> {
    let records = reported_by(alloc, placed, blocks)?;
    let mut newest = Vec::new(alloc);
    for block in 0..blocks {
        if let Some(record) = newest_of(block, &records)? {
            push(&mut newest, record)?;
        }
    }
    Ok(newest)
}

fn reported_by(alloc: Global, placed: &[Placed], blocks: u32) -> Result<Vec<Record>, ScanFault> {
    let mut records = Vec::new(alloc);
    for (slot, header) in placed {
        if let Some(record) = reported(*slot, header, blocks)? {
            push(&mut records, record)?;
        }
    }
    Ok(records)
}

fn push(records: &mut Vec<Record>, record: Record) -> Result<(), ScanFault> {
    records.push(record).ok().ok_or(ScanFault::Memory)
}

// The record in a slot's header, none in a blank one, or what is wrong with it.
fn reported(slot: u16, header: &[u8; 32], blocks: u32) -> Result<Option<Record>, ScanFault> {
    if *header == [0; 32] {
        return Ok(None);
    }
    let record = spelled(header).ok_or(ScanFault::BadHeader(slot))?;
    if record.block >= blocks {
        return Err(ScanFault::BadHeader(slot));
    }
    if record.place != slot {
        return Err(ScanFault::WrongSlot(slot, record.place));
    }
    Ok(Some(record))
}

// The record that a header spells: a mark, the record's numbers, in the second layout a kind, and zeros.
fn spelled(header: &[u8; 32]) -> Option<Record> {
    let is_first = header[..4] == [0x52, 0x42, 0x48, 0x31] && header[16] == 0;
    let is_second = header[..4] == [0x52, 0x42, 0x48, 0x32] && header[16] <= 1;
    let is_ours = (is_first || is_second) && header[17..] == [0; 15];
    let version = u32::from_be_bytes([header[8], header[9], header[10], header[11]]);
    if !is_ours || version == 0 {
        return None;
    }
    Some(Record {
        block: u32::from_be_bytes([header[4], header[5], header[6], header[7]]),
        version,
        hop: u16::from_be_bytes([header[12], header[13]]),
        place: u16::from_be_bytes([header[14], header[15]]),
    })
}

// The block's record of the greatest version and hop; where two have it, a fault with their two lowest slots.
fn newest_of(block: u32, records: &[Record]) -> Result<Option<Record>, ScanFault> {
    let mut newest: Option<Record> = None;
    let mut twin: Option<u16> = None;
    for record in records {
        if record.block != block {
            continue;
        }
        match newest {
            Some(other) if stamp(record) < stamp(&other) => {}
            Some(other) if stamp(record) == stamp(&other) => {
                twin = twin.or(Some(record.place));
            }
            _ => {
                newest = Some(*record);
                twin = None;
            }
        }
    }
    match (newest, twin) {
        (Some(first), Some(second)) => Err(ScanFault::Twice(block, first.place, second)),
        _ => Ok(newest),
    }
}

fn stamp(record: &Record) -> (u32, u16) {
    (record.version, record.hop)
}
