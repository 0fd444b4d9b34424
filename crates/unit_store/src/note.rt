// The write that a step is in the middle of, and how a restart finishes it.
ghost use Rattle.std.specs.Prelude.{◌≡◌, ◌↔◌, ◌%◌, ◌/◌, IsTrue, MatchOption, None, Some, length, option_map};
ghost use Rattle.extent_groups.specs.declared.class.Class.TheVariants.{Mirrored, Parity};
ghost use Rattle.extent_groups.specs.declared.place.Place.{Place};
ghost use Rattle.extent_groups.specs.Cells.{cells};
ghost use Rattle.extent_groups.specs.Calls.{DidWrite, IsPlace, KeepsDrives};
ghost use Rattle.extent_groups.specs.Missing.{missing_of};
ghost use Rattle.extent_groups.specs.Planned.{IsFinished};
ghost use Rattle.extent_groups.specs.Stores.{unit_bytes, AreDrives, IsOwnOf, IsSlotOf};
ghost use Rattle.extent_groups.specs.Units.{Pair, site_of};
ghost use Rattle.unit_store.specs.Fit.{IsFit};
ghost use Rattle.unit_store.specs.Notes.{note_view, noted_unit, unit_noted, IsGoodNote, IsParityFor, IsBadNote, IsFineNote, IsNoteWritten, WasFinished};
ghost use Rattle.unit_store.specs.Slots.{IsSlot, missing_in};

use crate::Parts;
use crate::gone::is_lost;
use extent_groups::{Class, GroupTable, Place, SLOTS, write_place};
use extents::Drive;

/// The write that a step is in the middle of: whole units, so that finishing it gives the same result however much of it was
/// made. Firmware keeps it in durable memory, and writes it in one piece.
#[derive(Debug, Drop)]
pub struct Note {
    pub slot: u16,
    /// The slot's unit, header and payload.
    pub unit: Vec<u8>,
    /// The parity's unit, of a parity slot whose parity's drive isn't lost when the write is planned.
    pub parity: Option<Vec<u8>>,
}

// Whether a made group has the slot.
fn has_slot(groups: &GroupTable, slot: u16) -> bool
    ensures { IsTrue result ↔ IsSlot groups.now slot }
{
    slot % SLOTS < groups.slots_of(slot / SLOTS)
}

// Whether the parity's unit of a note is as a parity slot asks: of a unit's length, or none where the parity's drive is lost.
fn is_parity_for<D: Drive>(
    groups: &GroupTable,
    drives: &[D],
    slot: u16,
    parity: &Option<Vec<u8>>,
) -> bool
    requires slot { IsSlotOf Parity groups.now slot }
    requires drives { AreDrives D.units groups.now drives.now }
    ensures { IsTrue result ↔ IsParityFor (unit_bytes groups.now) (missing_of D.lost drives.now) (site_of groups.now slot)
        (option_map (λ v. v.items) parity.now) }
{
    match parity {
        Some(sum) => sum.len() == groups.shape().unit_bytes(),
        // Only without its drive: else finishing would leave the old parity with the new unit.
        None => {
            let at = groups.row_of(slot);
            let home = groups.place(slot / SLOTS, at.parity, at.offset);
            is_lost(drives, home.drive)
        }
    }
}

// Whether a note can be finished.
fn is_good<D: Drive>(groups: &GroupTable, drives: &[D], note: &Note) -> bool
    requires drives { AreDrives D.units groups.now drives.now }
    ensures { IsTrue result ↔ IsGoodNote groups.now (missing_of D.lost drives.now) (note_view note.now) }
{
    if !has_slot(groups, note.slot) || note.unit.len() != groups.shape().unit_bytes() {
        return false;
    }
    match groups.class_of(note.slot / SLOTS) {
        Some(Class::Mirrored) => note.parity.is_none(),
        _ => is_parity_for(groups, drives, note.slot, &note.parity),
    }
}

// Writes a unit to a place of a slot.
fn write_own<D: Drive>(
    groups: &GroupTable,
    drives: &mut [D],
    slot: u16,
    place: Place,
    unit: &[u8],
) -> bool
    requires drives { AreDrives D.units groups.now drives.old }
    requires place { IsPlace D.units drives.old place }
    requires own { IsOwnOf groups.now slot place }
    requires unit { length unit.now ≡ unit_bytes groups.now }
    ensures written { DidWrite (cells D.units D.lost drives.old) (cells D.units D.lost drives.new) place unit.now result }
    ensures touched { KeepsDrives D.units D.lost D.failures (IsOwnOf groups.now slot) drives.old drives.new }
    ensures drives { AreDrives D.units groups.now drives.new }
{
    write_place(drives, place, unit)
}

// Writes a unit to both copies of a mirrored slot, as far as their drives aren't lost.
fn finish_pair<D: Drive>(groups: &GroupTable, drives: &mut [D], slot: u16, unit: &[u8])
    requires slot { IsSlotOf Mirrored groups.now slot }
    requires drives { AreDrives D.units groups.now drives.old }
    requires unit { length unit.now ≡ unit_bytes groups.now }
    ensures finished { IsFinished groups.now (cells D.units D.lost drives.old) (cells D.units D.lost drives.new) slot (λ x. unit.now) }
    ensures touched { KeepsDrives D.units D.lost D.failures (IsOwnOf groups.now slot) drives.old drives.new }
    ensures site { (first : Place) × (second : Place) × (site_of groups.now slot ≡ Some (Pair first second)) }
{
    let (first, second) = groups.pair_of(slot);
    // Both, because a stop may have left any bytes at either.
    let _first = write_own(groups, drives, slot, first, unit);
    let _second = write_own(groups, drives, slot, second, unit);
}

// Writes the unit of a parity slot, and its parity where one is given, as far as their drives aren't lost.
fn finish_stripe<D: Drive>(
    groups: &GroupTable,
    drives: &mut [D],
    slot: u16,
    unit: &[u8],
    parity: &Option<Vec<u8>>,
)
    requires slot { IsSlotOf Parity groups.now slot }
    requires drives { AreDrives D.units groups.now drives.old }
    requires unit { length unit.now ≡ unit_bytes groups.now }
    requires parity { IsParityFor (unit_bytes groups.now) (missing_of D.lost drives.old) (site_of groups.now slot) (option_map (λ v. v.items) parity.now) }
    ensures finished { IsFinished groups.now (cells D.units D.lost drives.old) (cells D.units D.lost drives.new) slot
        (unit_noted (site_of groups.now slot) unit.now (option_map (λ v. v.items) parity.now)) }
    ensures touched { KeepsDrives D.units D.lost D.failures (IsOwnOf groups.now slot) drives.old drives.new }
{
    let at = groups.row_of(slot);
    let home = groups.place(slot / SLOTS, at.member, at.offset);
    let second = groups.place(slot / SLOTS, at.parity, at.offset);
    // Both whole, because a difference would depend on how much of the write was made.
    let _home = write_own(groups, drives, slot, home, unit);
    if let Some(sum) = parity {
        let _parity = write_own(groups, drives, slot, second, sum);
    }
}

// Writes the units of a note to the places of its slot, as far as their drives aren't lost.
fn finish<D: Drive>(groups: &GroupTable, drives: &mut [D], note: &Note)
    requires drives { AreDrives D.units groups.now drives.old }
    requires good { IsGoodNote groups.now (missing_of D.lost drives.old) (note_view note.now) }
    ensures finished { IsFinished groups.now (cells D.units D.lost drives.old) (cells D.units D.lost drives.new) note.now.slot
        (noted_unit (site_of groups.now note.now.slot) (note_view note.now)) }
    ensures touched { KeepsDrives D.units D.lost D.failures (IsOwnOf groups.now note.now.slot) drives.old drives.new }
{
    match groups.class_of(note.slot / SLOTS) {
        Some(Class::Mirrored) => finish_pair(groups, drives, note.slot, &note.unit),
        _ => finish_stripe(groups, drives, note.slot, &note.unit, &note.parity),
    }
}

impl<D: Drive> Parts<D> {
    /// The slot of a note that can't be finished. Then no made group has the slot, or a unit isn't of a unit's length; or a
    /// mirrored slot's note has a parity, or a parity slot's has none while the parity's drive isn't lost. None where there
    /// is no note, or a good one.
    pub fn bad_note(&self) -> Option<u16>
        requires { IsFit D.units self.now }
        ensures { MatchOption result (IsFineNote self.now.groups (missing_in D.lost self.now) self.now.note)
            (λ slot. IsBadNote self.now.groups (missing_in D.lost self.now) self.now.note × (option_map (λ n. n.slot) self.now.note ≡ Some slot)) }
    {
        match &self.note {
            Some(note) if !is_good(&self.groups, &self.drives, note) => Some(note.slot),
            _ => None,
        }
    }

    /// Finishes the write of the note, if there is a good one, and clears the note. The unit goes to each copy, or the unit
    /// and the parity to their places, on the drives that aren't lost. However much of the write was made before, the slot
    /// then has the note's unit.
    pub fn finish(&mut self)
        requires fit { IsFit D.units self.old }
        requires good { IsFineNote self.old.groups (missing_in D.lost self.old) self.old.note }
        ensures finished { WasFinished D.units D.lost D.failures self.old self.new }
        ensures fit { IsFit D.units self.new }
    {
        self.write_noted();
        // Last: a stop before this finds the note, and finishing starts over.
        self.note = None;
    }

    // Writes the units of the note, if there is one, and keeps the note.
    fn write_noted(&mut self)
        requires fit { IsFit D.units self.old }
        requires good { IsFineNote self.old.groups (missing_in D.lost self.old) self.old.note }
        ensures written { IsNoteWritten D.units D.lost D.failures self.old self.new }
        ensures fit { IsFit D.units self.new }
    {
        if let Some(note) = &self.note {
            let drives: &mut [D] = &mut self.drives;
            finish(&self.groups, drives, note);
        }
    }
}
