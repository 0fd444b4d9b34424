//! The slots of an array's parts, read one by one.
ghost use Rattle.std.specs.Prelude.{◌≡◌, IsTrue, IfOk, IfSome};
ghost use Rattle.unit_store.specs.Slots.{IsSlot};
ghost use Rattle.raid_images.specs.Reading.{CanRead};

use extent_groups::{GroupTable, SLOTS};
use extents::{HEADER_BYTES, Header, MemDrive};
use header_scan::ScanFault;
use map_join::Record;
use std::alloc::{AllocError, Global};
use unit_store::Parts;

/// Parts that fit one another, and a buffer to read their slots with.
#[derive(Drop)]
pub(crate) struct Reader {
    pub(crate) parts: Parts<MemDrive>,
    scratch: Vec<u8>,
}

/// Whether a slot is one of a group.
pub(crate) fn has_slot(groups: &GroupTable, slot: u16) -> bool
    ensures { IsTrue result → IsSlot groups.now slot }
{
    slot % SLOTS < groups.slots_of(slot / SLOTS)
}

// The record of a header at a slot, none where it is blank. The faults come in the order in which a scan tests them.
fn record_of(
    header: &[u8; HEADER_BYTES],
    slot: u16,
    blocks: u32,
) -> Result<Option<Record>, ScanFault> {
    let Ok(header) = Header::decode(header) else {
        return Err(ScanFault::BadHeader(slot));
    };
    let Some(record) = header.record() else {
        return Ok(None);
    };
    if record.block >= blocks {
        return Err(ScanFault::BadHeader(slot));
    }
    if record.place != slot {
        return Err(ScanFault::WrongSlot(slot, record.place));
    }
    Ok(Some(record))
}

impl Reader {
    /// A reader of these parts; none where they don't fit one another.
    pub(crate) fn new(alloc: Global, parts: Parts<MemDrive>) -> Result<Option<Reader>, AllocError>
        ensures { IfOk result (λ made. IfSome made CanRead) }
    {
        if !parts.is_fit() {
            return Ok(None);
        }
        let size = parts.groups.shape().unit_bytes();
        let scratch = vec![in alloc; 0u8; 2 * size]?;
        Ok(Some(Reader { parts, scratch }))
    }

    /// The record at a slot, none where its header is blank; refused where the slot is gone, or its header bad.
    pub(crate) fn read(&mut self, slot: u16) -> Result<Option<Record>, ScanFault>
        requires ready { CanRead self.old }
        requires slot { IsSlot self.old.parts.groups slot }
        ensures ready { CanRead self.new }
        ensures groups { self.new.parts.groups ≡ self.old.parts.groups }
    {
        let mut header = [0; HEADER_BYTES];
        let read = self.parts.read_header(slot, &mut header, &mut self.scratch);
        if read.is_err() {
            return Err(ScanFault::Gone(slot));
        }
        record_of(&header, slot, self.parts.groups.shape().blocks)
    }
}
