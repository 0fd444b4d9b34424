// Units in memory: as they are read of a slot, and as a step makes them.
ghost use Rattle.std.specs.Prelude.{◌≡◌, ◌⊎◌, ◌++◌, ◌+◌, ◌-◌, ◌≤◌, Some, length, replicate, drop, IfOk, IfErr};
ghost use Rattle.extents.specs.declared.shape.TheConstants.{HEADER_BYTES};
ghost use Rattle.extents.specs.Header.{header_bytes};
ghost use Rattle.extent_groups.specs.Stores.{unit_bytes, unit_of};
ghost use Rattle.flat_machine.specs.Flat.{Stored, content_in, waiting_unit};
ghost use Rattle.flat_machine.specs.declared.refusal.Refusal.TheVariants as refusal;
ghost use Rattle.unit_store.specs.Shows.{IsUnit};
ghost use Rattle.unit_store.specs.Slots.{IsSlot};
ghost use Rattle.unit_store.specs.Views.{drive_cells, FoundGone};
ghost use Rattle.disk_array.specs.Refused.{OnlyLoses};

use extents::{Drive, HEADER_BYTES, Header, Kind};
use flat_machine::Refusal;
use std::alloc::Global;
use step_core::{Array, Hold, Units};

// A unit of zeros.
pub(crate) fn blank_unit<D: Drive, C: Hold>(
    alloc: Global,
    array: &Array<D, C>,
) -> Result<Vec<u8>, Refusal>
    ensures ok { IfOk result (λ unit. unit.items ≡ replicate (unit_bytes array.now.parts.groups) 0) }
    ensures err { IfErr result (λ e. e ≡ refusal.Memory) }
{
    match vec![in alloc; 0; array.shape().unit_bytes()] {
        Ok(unit) => Ok(unit),
        Err(_) => Err(Refusal::Memory),
    }
}

// A unit of this payload under a blank header.
pub(crate) fn unit_with<D: Drive, C: Hold>(
    alloc: Global,
    array: &Array<D, C>,
    payload: &[u8],
) -> Result<Vec<u8>, Refusal>
    requires { length payload.now ≡ array.now.parts.groups.payload }
    ensures ok { IfOk result (λ unit. unit.items ≡ replicate HEADER_BYTES 0 ++ payload.now) }
    ensures err { IfErr result (λ e. e ≡ refusal.Memory) }
{
    let mut unit = blank_unit(alloc, array)?;
    join(&mut unit, &[0; HEADER_BYTES], payload);
    Ok(unit)
}

// The unit of a slot, header and payload.
pub(crate) fn read_unit<D: Drive, C: Hold>(
    alloc: Global,
    array: &mut Array<D, C>,
    slot: u16,
) -> Result<Vec<u8>, Refusal>
    requires { IsSlot array.old.parts.groups slot }
    ensures ok { IfOk result (λ unit. unit_of array.new.parts.groups (drive_cells array.new.parts) slot ≡ Some unit.items) }
    ensures long { IfOk result (λ unit. length unit.items ≡ unit_bytes array.new.parts.groups) }
    ensures err { IfErr result (λ e. ((e ≡ refusal.Memory) × (array.new ≡ array.old)) ⊎ FoundGone array.old.parts array.new.parts slot e) }
    ensures loses { OnlyLoses array.old array.new }
{
    let bytes = array.shape().unit_bytes();
    // Both buffers before the read, so that Memory comes before any drive call.
    let mut unit = blank_unit(alloc, array)?;
    let Ok(mut scratch) = vec![in alloc; 0; 2 * bytes] else {
        return Err(Refusal::Memory);
    };
    let read = array.unit(slot, &mut unit, &mut scratch);
    // For the proof alone: nothing is done.
    array.whole();
    match read {
        Ok(()) => Ok(unit),
        Err(refusal) => Err(refusal),
    }
}

// Puts a header before the payload that is there.
pub(crate) fn set_header(unit: &mut [u8], header: Header)
    requires { HEADER_BYTES ≤ length unit.old }
    ensures { unit.new ≡ header_bytes header ++ drop HEADER_BYTES unit.old }
{
    unit[..HEADER_BYTES].copy_from_slice(&header.encode());
}

// Turns the unit into one that waits: a blank header, and zeros as the payload if it was a trim.
pub(crate) fn set_waiting(unit: &mut [u8])
    requires { HEADER_BYTES ≤ length unit.old }
    ensures { (u : Stored) → IsUnit unit.old u → IsUnit unit.new (waiting_unit (length unit.old - HEADER_BYTES) (content_in u)) }
{
    match Header::kind_at_front(unit) {
        Kind::Data => set_header(unit, Header::Blank),
        Kind::Trim => clear(unit),
    }
}

// Puts two pieces into a buffer, one after the other.
fn join(unit: &mut [u8], front: &[u8], rest: &[u8])
    requires { length unit.old ≡ length front.now + length rest.now }
    ensures { unit.new ≡ front.now ++ rest.now }
{
    unit[..front.len()].copy_from_slice(front);
    unit[front.len()..].copy_from_slice(rest);
}

// Makes all bytes zero.
fn clear(unit: &mut [u8])
    ensures { unit.new ≡ replicate (length unit.old) 0 }
{
    unit.fill(0);
}
