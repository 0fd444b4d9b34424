// The bytes of a unit: a header of 32 bytes, and the payload after it.
ghost use Rattle.std.specs.Prelude.{◌≡◌, ◌+◌, ◌-◌, ◌≤◌, ◌++◌, length, take, drop, replicate};
ghost use Rattle.extents.specs.Header.{header_bytes, kind_in};
ghost use Rattle.extents.specs.declared.shape.TheConstants.{HEADER_BYTES};
ghost use Rattle.map_join.specs.Record.{IsRecord};
ghost use Rattle.unit_store.specs.Shows.{IsUnit};
ghost use Rattle.unit_store.specs.Views.{placed_unit};
ghost use Rattle.flat_machine.specs.Flat.{Stored, content_in, waiting_unit};

use extents::{HEADER_BYTES, Header, Kind};
use map_join::Record;

// Puts a header before the payload that is there.
pub(crate) fn put_header(unit: &mut [u8], header: &Header)
    requires { HEADER_BYTES ≤ length unit.old }
    ensures { unit.new ≡ header_bytes header.now ++ drop HEADER_BYTES unit.old }
{
    unit[..HEADER_BYTES].copy_from_slice(&header.encode());
}

// Puts two pieces into a buffer, one after the other.
pub(crate) fn join(unit: &mut [u8], front: &[u8], rest: &[u8])
    requires { length unit.old ≡ length front.now + length rest.now }
    ensures { unit.new ≡ front.now ++ rest.now }
{
    unit[..front.len()].copy_from_slice(front);
    unit[front.len()..].copy_from_slice(rest);
}

// The header of the unit, a blank one where the bytes spell none.
pub(crate) fn header_in(unit: &[u8]) -> Header
    requires { HEADER_BYTES ≤ length unit.now }
    ensures { (u : Stored) → IsUnit unit.now u → result ≡ u.header }
{
    let mut header = [0; HEADER_BYTES];
    header.copy_from_slice(&unit[..HEADER_BYTES]);
    match Header::decode(&header) {
        Ok(header) => header,
        Err(_) => Header::Blank,
    }
}

// Turns the unit into one that waits: a blank header, and zeros as the payload if it was a trim. Blank, because a scan would
// find the old record in a wrong slot. Returns the kind that it had.
pub(crate) fn make_wait(unit: &mut [u8]) -> Kind
    requires { HEADER_BYTES ≤ length unit.old }
    ensures front { take HEADER_BYTES unit.new ≡ header_bytes Header.Blank }
    ensures unit { (u : Stored) → IsUnit unit.old u → (result ≡ kind_in u.header) × IsUnit unit.new (waiting_unit (length unit.old - HEADER_BYTES) (content_in u)) }
{
    let kind = Header::kind_at_front(unit);
    match kind {
        Kind::Data => put_header(unit, &Header::Blank),
        Kind::Trim => clear(unit),
    }
    kind
}

// Turns the unit into one that was committed under the record: that record's header, and zeros as the payload if it was a trim.
// Returns the kind that it had.
pub(crate) fn make_placed(unit: &mut [u8], stamp: Record) -> Kind
    requires unit { HEADER_BYTES ≤ length unit.old }
    requires stamp { IsRecord stamp }
    ensures front { take HEADER_BYTES unit.new ≡ header_bytes (Header.Is stamp result) }
    ensures unit { (u : Stored) → IsUnit unit.old u
        → (result ≡ kind_in u.header) × IsUnit unit.new (placed_unit stamp (length unit.old - HEADER_BYTES) (content_in u)) }
{
    let kind = Header::kind_at_front(unit);
    match kind {
        Kind::Data => put_header(unit, &Header::Is(stamp, Kind::Data)),
        Kind::Trim => {
            clear(unit);
            put_header(unit, &Header::Is(stamp, Kind::Trim));
        }
    }
    kind
}

// Makes all bytes zero.
pub(crate) fn clear(unit: &mut [u8])
    ensures { unit.new ≡ replicate (length unit.old) 0 }
{
    unit.fill(0);
}
