// What a header holds at its slot.
ghost use Rattle.std.specs.Prelude.{◌≡◌, IfOk, IfErr, Ok, Some};
ghost use Rattle.extents.specs.declared.shape.TheConstants.{HEADER_BYTES};
ghost use Rattle.extents.specs.declared.header.Header.{Header};
ghost use Rattle.extents.specs.Header.{Spells, record_in};
ghost use Rattle.extent_groups.specs.Cells.{front};
ghost use Rattle.header_scan.specs.Faults.{SlotUnits, IsFine, IsRanged, Reports, IsFaultAt, IsSlotFault};

use crate::ScanFault;
use extents::{HEADER_BYTES, Header, HeaderFault};
use map_join::Record;

/// The record in a header, none where that is blank.
fn reported_by(header: &[u8; HEADER_BYTES]) -> Result<Option<Record>, HeaderFault>
    ensures ok { IfOk result (λ o. (h : Header) × Spells header.now h × (record_in h ≡ o)) }
    ensures only { (h : Header) → Spells header.now h → result ≡ Ok (record_in h) }
    ensures ranges { IfOk result IsRanged }
{
    Ok(Header::decode(header)?.record())
}

/// What a header holds at a slot, refused where that isn't one of the array's blocks in this very slot.
fn judge(
    reported: Result<Option<Record>, HeaderFault>,
    slot: u16,
    blocks: u32,
) -> Result<Option<Record>, ScanFault>
    ensures ok { IfOk result (λ o. (reported ≡ Ok o) × IsFine blocks slot o) }
    ensures err { IfErr result (IsSlotFault reported blocks slot) }
{
    let Ok(reported) = reported else {
        return Err(ScanFault::BadHeader(slot));
    };
    let Some(record) = reported else {
        return Ok(None);
    };
    if record.block >= blocks {
        return Err(ScanFault::BadHeader(slot));
    }
    if record.place != slot {
        return Err(ScanFault::WrongSlot(slot, record.place));
    }
    Ok(Some(record))
}

/// What the header of a slot holds, refused where that isn't one of the array's blocks in this very slot. The clauses hold of
/// any units whose slot begins with these bytes.
pub(crate) fn look(
    header: &[u8; HEADER_BYTES],
    slot: u16,
    blocks: u32,
) -> Result<Option<Record>, ScanFault>
    ensures ok { (bytes : SlotUnits) → front HEADER_BYTES (bytes slot) ≡ Some header.now → IfOk result (Reports blocks bytes slot) }
    ensures err { (bytes left : SlotUnits) → front HEADER_BYTES (bytes slot) ≡ Some header.now → IfErr result (IsFaultAt blocks bytes left slot) }
    ensures inside { IfOk result (IsFine blocks slot) }
    ensures ranges { IfOk result IsRanged }
{
    judge(reported_by(header), slot, blocks)
}
