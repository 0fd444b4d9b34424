// What lies in a slot: its payload and kind, or what its header says of a record.
ghost use Rattle.std.specs.Prelude.{◌≡◌, ◌*◌, length, IfOk, IfErr};
ghost use Rattle.extent_groups.specs.Stores.{unit_bytes};
ghost use Rattle.flat_machine.specs.Flat.{content_under};
ghost use Rattle.unit_store.specs.Fit.{IsFit};
ghost use Rattle.unit_store.specs.Slots.{IsSlot};
ghost use Rattle.unit_store.specs.Views.{view_of, seen_of, FoundGone, WasRead, SawUnit};

use crate::Parts;
use crate::unit::header_in;
use extents::{Drive, HEADER_BYTES, Header, Kind};
use flat_machine::Refusal;
use map_join::Record;

/// What is seen at a record's place.
#[derive(Clone, Copy, Debug, PartialEq, Eq)]
pub enum Sight {
    /// Exactly that record is in the header, of this kind.
    Here(Kind),
    /// The record in the header, none in a blank one.
    Stale(Option<Record>),
}

impl<D: Drive> Parts<D> {
    /// Reads the kind and the payload of what a slot holds. Takes a buffer of a unit's length and one of two units'. Where the
    /// header's bytes spell no header the kind is that of its byte 16.
    pub fn payload(
        &mut self,
        slot: u16,
        payload: &mut [u8],
        unit: &mut [u8],
        scratch: &mut [u8],
    ) -> Result<Kind, Refusal>
        requires fit { IsFit D.units self.old }
        requires slot { IsSlot self.old.groups slot }
        requires payload { length payload.old ≡ self.old.groups.payload }
        requires unit { length unit.old ≡ unit_bytes self.old.groups }
        requires scratch { length scratch.old ≡ 2 * unit_bytes self.old.groups }
        ensures ok { IfOk result (λ kind. WasRead (view_of D.units D.lost D.failures self.old) (view_of D.units D.lost D.failures self.new) slot
            (content_under kind payload.new)) }
        ensures err { IfErr result (FoundGone (view_of D.units D.lost D.failures self.old) (view_of D.units D.lost D.failures self.new) slot) }
        ensures fit { IsFit D.units self.new }
    {
        if let Err(refusal) = self.read(slot, unit, scratch) {
            return Err(refusal);
        }
        payload.copy_from_slice(&unit[HEADER_BYTES..]);
        Ok(Header::kind_at_front(unit))
    }

    /// Looks for a record at its place, and reads the payload where it is there, with a buffer of a
    /// unit's length and one of two units'. Header bytes that decode to no header count as a blank one.
    pub fn see(
        &mut self,
        asked: &Record,
        payload: &mut [u8],
        unit: &mut [u8],
        scratch: &mut [u8],
    ) -> Result<Sight, Refusal>
        requires fit { IsFit D.units self.old }
        requires slot { IsSlot self.old.groups asked.now.place }
        requires payload { length payload.old ≡ self.old.groups.payload }
        requires unit { length unit.old ≡ unit_bytes self.old.groups }
        requires scratch { length scratch.old ≡ 2 * unit_bytes self.old.groups }
        ensures ok { IfOk result (λ sight. SawUnit (view_of D.units D.lost D.failures self.old) (view_of D.units D.lost D.failures self.new) asked.now
            (seen_of sight payload.new)) }
        ensures err { IfErr result (FoundGone (view_of D.units D.lost D.failures self.old) (view_of D.units D.lost D.failures self.new) asked.now.place) }
        ensures fit { IsFit D.units self.new }
    {
        if let Err(refusal) = self.read(asked.place, unit, scratch) {
            return Err(refusal);
        }
        let header = header_in(unit);
        let found = header.record();
        // Before the payload is copied, because it is then of another record.
        if found != Some(*asked) {
            return Ok(Sight::Stale(found));
        }
        payload.copy_from_slice(&unit[HEADER_BYTES..]);
        Ok(Sight::Here(header.kind()))
    }
}
