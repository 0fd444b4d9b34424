// Writing a slot's unit: a payload or a trim, under a blank header or under that of its commit.
ghost use Rattle.std.specs.Prelude.{◌≡◌, ◌*◌, length, replicate, OnOk, IfErr};
ghost use Rattle.extents.specs.Header.{IsHeader};
ghost use Rattle.map_join.specs.Record.{IsRecord};
ghost use Rattle.extent_groups.specs.Stores.{unit_bytes};
ghost use Rattle.flat_machine.specs.Flat.{IsSized, Payload, Trim, content_under, waiting_unit};
ghost use Rattle.unit_store.specs.Fit.{IsFit};
ghost use Rattle.unit_store.specs.Slots.{IsSlot};
ghost use Rattle.unit_store.specs.Views.{view_of, placed_unit, FoundGone, WasPut};

use crate::Parts;
use crate::unit::{clear, join, put_header};
use extent_groups::{Class, SLOTS};
use extents::{Drive, Header, Kind};
use flat_machine::Refusal;
use map_join::Record;

impl<D: Drive> Parts<D> {
    /// Writes a payload under a blank header into a slot of either class. Blank, so that a scan takes it for no commit. Takes
    /// a buffer of a unit's length and one of two units'.
    pub fn put(
        &mut self,
        slot: u16,
        payload: &[u8],
        unit: &mut [u8],
        scratch: &mut [u8],
    ) -> Result<(), Refusal>
        requires fit { IsFit D.units self.old }
        requires slot { IsSlot self.old.groups slot }
        requires payload { length payload.now ≡ self.old.groups.payload }
        requires unit { length unit.old ≡ unit_bytes self.old.groups }
        requires scratch { length scratch.old ≡ 2 * unit_bytes self.old.groups }
        ensures ok { OnOk result (WasPut (view_of D.units D.lost D.failures self.old) (view_of D.units D.lost D.failures self.new) slot
            (waiting_unit self.old.groups.payload (Payload payload.now))) }
        ensures err { IfErr result (FoundGone (view_of D.units D.lost D.failures self.old) (view_of D.units D.lost D.failures self.new) slot) }
        ensures fit { IsFit D.units self.new }
    {
        self.put_under(slot, &Header::Blank, payload, unit, scratch)
    }

    // Writes a payload under a header. Inlined, so that `put` has its blank header as a constant.
    #[inline(always)]
    fn put_under(
        &mut self,
        slot: u16,
        header: &Header,
        payload: &[u8],
        unit: &mut [u8],
        scratch: &mut [u8],
    ) -> Result<(), Refusal>
        requires fit { IsFit D.units self.old }
        requires slot { IsSlot self.old.groups slot }
        requires header { IsHeader header.now }
        requires payload { length payload.now ≡ self.old.groups.payload }
        requires unit { length unit.old ≡ unit_bytes self.old.groups }
        requires scratch { length scratch.old ≡ 2 * unit_bytes self.old.groups }
        ensures ok { OnOk result (WasPut (view_of D.units D.lost D.failures self.old) (view_of D.units D.lost D.failures self.new) slot
            (record { header = header.now; payload = payload.now })) }
        ensures err { IfErr result (FoundGone (view_of D.units D.lost D.failures self.old) (view_of D.units D.lost D.failures self.new) slot) }
        ensures fit { IsFit D.units self.new }
    {
        let header = header.encode();
        // Two copies are written from where the bytes lie; a parity needs the unit in one piece, because it is added up.
        if let Some(Class::Mirrored) = self.groups.class_of(slot / SLOTS) {
            let drives: &mut [D] = &mut self.drives;
            return mirrored_store::write_gathered(
                &self.groups,
                drives,
                slot,
                &header,
                payload,
                unit,
            ).ok()
                .ok_or(Refusal::Gone(slot));
        }
        join(unit, &header, payload);
        self.write(slot, unit, scratch)
    }

    /// Writes a unit that waits to be a trim: a blank header and a payload of zeros. Takes a buffer of a unit's length and one
    /// of two units'.
    pub fn put_trim(
        &mut self,
        slot: u16,
        unit: &mut [u8],
        scratch: &mut [u8],
    ) -> Result<(), Refusal>
        requires fit { IsFit D.units self.old }
        requires slot { IsSlot self.old.groups slot }
        requires unit { length unit.old ≡ unit_bytes self.old.groups }
        requires scratch { length scratch.old ≡ 2 * unit_bytes self.old.groups }
        ensures ok { OnOk result (WasPut (view_of D.units D.lost D.failures self.old) (view_of D.units D.lost D.failures self.new) slot
            (waiting_unit self.old.groups.payload Trim)) }
        ensures err { IfErr result (FoundGone (view_of D.units D.lost D.failures self.old) (view_of D.units D.lost D.failures self.new) slot) }
        ensures fit { IsFit D.units self.new }
    {
        clear(unit);
        self.write(slot, unit, scratch)
    }

    // Writes a payload of zeros under a header.
    fn put_zeros_under(
        &mut self,
        slot: u16,
        header: &Header,
        unit: &mut [u8],
        scratch: &mut [u8],
    ) -> Result<(), Refusal>
        requires fit { IsFit D.units self.old }
        requires slot { IsSlot self.old.groups slot }
        requires header { IsHeader header.now }
        requires unit { length unit.old ≡ unit_bytes self.old.groups }
        requires scratch { length scratch.old ≡ 2 * unit_bytes self.old.groups }
        ensures ok { OnOk result (WasPut (view_of D.units D.lost D.failures self.old) (view_of D.units D.lost D.failures self.new) slot
            (record { header = header.now; payload = replicate self.old.groups.payload 0 })) }
        ensures err { IfErr result (FoundGone (view_of D.units D.lost D.failures self.old) (view_of D.units D.lost D.failures self.new) slot) }
        ensures fit { IsFit D.units self.new }
    {
        clear(unit);
        put_header(unit, header);
        self.write(slot, unit, scratch)
    }

    /// Writes a payload, or zeros for a trim, under the record of its commit: what `put` or `put_trim` and then `carry` with
    /// that header leave, in one write. A trim's payload isn't looked at. Takes a buffer of a unit's length and one of two
    /// units'.
    pub fn put_placed(
        &mut self,
        slot: u16,
        stamp: Record,
        kind: Kind,
        payload: &[u8],
        unit: &mut [u8],
        scratch: &mut [u8],
    ) -> Result<(), Refusal>
        requires fit { IsFit D.units self.old }
        requires slot { IsSlot self.old.groups slot }
        requires stamp { IsRecord stamp }
        requires payload { IsSized self.old.groups.payload (content_under kind payload.now) }
        requires unit { length unit.old ≡ unit_bytes self.old.groups }
        requires scratch { length scratch.old ≡ 2 * unit_bytes self.old.groups }
        ensures ok { OnOk result (WasPut (view_of D.units D.lost D.failures self.old) (view_of D.units D.lost D.failures self.new) slot
            (placed_unit stamp self.old.groups.payload (content_under kind payload.now))) }
        ensures err { IfErr result (FoundGone (view_of D.units D.lost D.failures self.old) (view_of D.units D.lost D.failures self.new) slot) }
        ensures fit { IsFit D.units self.new }
    {
        let header = Header::Is(stamp, kind);
        match kind {
            Kind::Data => self.put_under(slot, &header, payload, unit, scratch),
            Kind::Trim => self.put_zeros_under(slot, &header, unit, scratch),
        }
    }
}
