// Writing a slot's unit from the unit of a slot, under another header.
ghost use Rattle.std.specs.Prelude.{◌≡◌, ◌*◌, length, OnOk, IfOk, IfErr};
ghost use Rattle.extents.specs.Header.{IsHeader};
ghost use Rattle.map_join.specs.Record.{IsRecord};
ghost use Rattle.extent_groups.specs.Stores.{unit_bytes};
ghost use Rattle.unit_store.specs.Fit.{IsFit};
ghost use Rattle.unit_store.specs.Slots.{IsSlot};
ghost use Rattle.unit_store.specs.Views.{view_of, WasCopied, WasMoved, WasCarried, WasNotCarried};

use crate::Parts;
use crate::unit::{make_placed, make_wait, put_header};
use extent_groups::{Class, SLOTS};
use extents::{Drive, HEADER_BYTES, Header, Kind};
use flat_machine::Refusal;
use map_join::Record;

impl<D: Drive> Parts<D> {
    /// Writes what a slot holds into another slot, where it waits under a blank header, and returns its kind. Takes a buffer
    /// of a unit's length and one of two units'.
    pub fn copy(
        &mut self,
        from: u16,
        to: u16,
        unit: &mut [u8],
        scratch: &mut [u8],
    ) -> Result<Kind, Refusal>
        requires fit { IsFit D.units self.old }
        requires from { IsSlot self.old.groups from }
        requires to { IsSlot self.old.groups to }
        requires unit { length unit.old ≡ unit_bytes self.old.groups }
        requires scratch { length scratch.old ≡ 2 * unit_bytes self.old.groups }
        ensures ok { IfOk result (WasCopied (view_of D.units D.lost D.failures self.old) (view_of D.units D.lost D.failures self.new) from to) }
        ensures err { IfErr result (WasNotCarried (view_of D.units D.lost D.failures self.old) (view_of D.units D.lost D.failures self.new) from to) }
        ensures fit { IsFit D.units self.new }
    {
        if let Err(refusal) = self.read(from, unit, scratch) {
            return Err(refusal);
        }
        let kind = make_wait(unit);
        match self.write(to, unit, scratch) {
            Ok(()) => Ok(kind),
            Err(refusal) => Err(refusal),
        }
    }

    /// Writes what a slot holds into another slot under the record of its commit, and returns its kind. Takes a buffer of a unit's
    /// length and one of two units'.
    pub fn copy_under(
        &mut self,
        from: u16,
        to: u16,
        stamp: Record,
        unit: &mut [u8],
        scratch: &mut [u8],
    ) -> Result<Kind, Refusal>
        requires fit { IsFit D.units self.old }
        requires from { IsSlot self.old.groups from }
        requires to { IsSlot self.old.groups to }
        requires stamp { IsRecord stamp }
        requires unit { length unit.old ≡ unit_bytes self.old.groups }
        requires scratch { length scratch.old ≡ 2 * unit_bytes self.old.groups }
        ensures ok { IfOk result (WasMoved stamp (view_of D.units D.lost D.failures self.old) (view_of D.units D.lost D.failures self.new) from to) }
        ensures err { IfErr result (WasNotCarried (view_of D.units D.lost D.failures self.old) (view_of D.units D.lost D.failures self.new) from to) }
        ensures fit { IsFit D.units self.new }
    {
        if let Err(refusal) = self.read(from, unit, scratch) {
            return Err(refusal);
        }
        let kind = make_placed(unit, stamp);
        match self.write(to, unit, scratch) {
            Ok(()) => Ok(kind),
            Err(refusal) => Err(refusal),
        }
    }

    /// Writes what the slot `from` holds into the slot `to`, under the given header. Takes a buffer of a unit's length and
    /// one of two units'.
    pub fn carry(
        &mut self,
        from: u16,
        to: u16,
        header: &Header,
        unit: &mut [u8],
        scratch: &mut [u8],
    ) -> Result<(), Refusal>
        requires fit { IsFit D.units self.old }
        requires from { IsSlot self.old.groups from }
        requires to { IsSlot self.old.groups to }
        requires header { IsHeader header.now }
        requires unit { length unit.old ≡ unit_bytes self.old.groups }
        requires scratch { length scratch.old ≡ 2 * unit_bytes self.old.groups }
        ensures ok { OnOk result (WasCarried (view_of D.units D.lost D.failures self.old) (view_of D.units D.lost D.failures self.new) from to header.now) }
        ensures err { IfErr result (WasNotCarried (view_of D.units D.lost D.failures self.old) (view_of D.units D.lost D.failures self.new) from to) }
        ensures fit { IsFit D.units self.new }
    {
        if let Err(refusal) = self.read(from, unit, scratch) {
            return Err(refusal);
        }
        // Two copies are written from where the bytes lie; a parity needs the unit in one piece, because it is added up.
        if let Some(Class::Mirrored) = self.groups.class_of(to / SLOTS) {
            let header = header.encode();
            let (whole, _part) = scratch.split_at_mut(unit.len());
            let drives: &mut [D] = &mut self.drives;
            return mirrored_store::write_gathered(
                &self.groups,
                drives,
                to,
                &header,
                &unit[HEADER_BYTES..],
                whole,
            )
            .ok()
            .ok_or(Refusal::Gone(to));
        }
        put_header(unit, header);
        self.write(to, unit, scratch)
    }
}
