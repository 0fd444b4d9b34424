// The parts of an array: its shape, its groups, the owners of its extents, its drives and its note.
ghost use Rattle.std.specs.Prelude.{◌≡◌, ◌+◌, ◌*◌, ◌<◌, ◌≤◌, ◌↔◌, ℕ, length, slice_get, Some, None, OnOk, IfErr, IsTrue};
ghost use Rattle.extents.specs.Shapes.{IsShapeOf};
ghost use Rattle.extents.specs.declared.shape.TheConstants.{HEADER_BYTES};
ghost use Rattle.extent_groups.specs.Groups.{group_at, slots_in};
ghost use Rattle.extent_groups.specs.Calls.{AreSized};
ghost use Rattle.extent_groups.specs.Missing.{IsGone};
ghost use Rattle.extent_groups.specs.Stores.{unit_bytes, unit_of, header_of, AreHeaders, AreSound, KeepsUnits, WroteSlot};
ghost use Rattle.unit_store.specs.Fit.{IsFit, HaveUnitCount};
ghost use Rattle.unit_store.specs.Kept.{LeavesOthers};
ghost use Rattle.unit_store.specs.Losses.{AllFare, KeepsTables, LosesOnly};
ghost use Rattle.unit_store.specs.Slots.{IsSlot, cells_in, missing_in, HoldsUnit, ReportsGone};

use crate::note::Note;
use crate::slots::{read_group_headers, read_slot, read_slot_header};
use extent_groups::{Class, GroupTable, SLOTS, sync_drives};
use extents::{Drive, ExtentTable, HEADER_BYTES, Shape};
use flat_machine::Refusal;

/// The parts of an array. A recovery program may put them together from what it finds.
#[derive(Drop)]
pub struct Parts<D> {
    pub shape: Shape,
    pub groups: GroupTable,
    /// The group that owns each extent of each drive.
    pub extents: ExtentTable,
    pub drives: Vec<D>,
    /// The write that a stop may have left half made; none where nothing was begun.
    pub note: Option<Note>,
}

/// Whether the shape is that of the groups.
fn is_shape_of(shape: &Shape, groups: &GroupTable) -> bool
    ensures { IsTrue result ↔ IsShapeOf shape.now groups.now.extents groups.now.segments groups.now.payload groups.now.blocks }
{
    let other = groups.shape();
    shape.extents == other.extents
        && shape.segments == other.segments
        && shape.payload == other.payload
        && shape.blocks == other.blocks
}

/// Whether each drive has `units` units.
fn have_units<D: Drive>(drives: &[D], units: u32) -> bool
    ensures { IsTrue result ↔ HaveUnitCount D.units drives.now units }
{
    drives.iter().all(|drive| drive.units() == units)
}

// Whether each unit of each drive has `bytes` bytes. Each drive has at least one unit.
fn have_unit_bytes<D: Drive>(drives: &[D], bytes: usize) -> bool
    requires { (d : ℕ) (x : D) → slice_get drives.now d ≡ Some x → 1 ≤ length (D.units x) }
    ensures { IsTrue result ↔ AreSized D.units bytes drives.now }
{
    drives.iter().all(|drive| drive.unit_bytes() == bytes)
}

impl<D: Drive> Parts<D> {
    /// Whether the parts fit one another: 3 to 16 drives with the units that the sizes ask for, groups and owners of extents
    /// that agree.
    pub fn is_fit(&self) -> bool
        ensures { IsTrue result ↔ IsFit D.units self.now }
    {
        // Nothing is read: this call's clause says what is true of every group table, so it isn't tested.
        let _groups = self.groups.members(0);
        let count = self.drives.len();
        if count < 3 || count > 16 || self.extents.drives() != count {
            return false;
        }
        if !is_shape_of(&self.shape, &self.groups) {
            return false;
        }
        // After the count, so that there is a drive 0. All rows are of one length, so one is enough.
        if self.extents.owners(0).len() != self.shape.extents as usize {
            return false;
        }
        // Before the length of a unit, because a drive without units has none.
        if !have_units(&self.drives, self.shape.drive_units()) {
            return false;
        }
        have_unit_bytes(&self.drives, self.shape.unit_bytes()) && self.groups.agrees(&self.extents)
    }

    /// Reads the effective unit of a slot, with a buffer of two units' length.
    pub fn read(&mut self, slot: u16, unit: &mut [u8], scratch: &mut [u8]) -> Result<(), Refusal>
        requires fit { IsFit D.units self.old }
        requires slot { IsSlot self.old.groups slot }
        requires unit { length unit.old ≡ unit_bytes self.old.groups }
        requires scratch { length scratch.old ≡ 2 * unit_bytes self.old.groups }
        ensures ok { OnOk result (unit_of self.new.groups (cells_in D.units D.lost self.new) slot ≡ Some unit.new) }
        ensures there { OnOk result (IsGone self.new.groups (missing_in D.lost self.new) slot → ⊥) }
        ensures gone { IfErr result (ReportsGone D.units D.lost self.new slot) }

        // No unit changes: if all slots were sound they stay so, and each unit that exists afterwards is what it was.
        ensures units { AreSound self.old.groups (cells_in D.units D.lost self.old)
            → KeepsUnits self.old.groups (cells_in D.units D.lost self.old) (cells_in D.units D.lost self.new) }
        ensures sound { AreSound self.old.groups (cells_in D.units D.lost self.old) → AreSound self.new.groups (cells_in D.units D.lost self.new) }
        ensures only { LosesOnly D.units D.lost D.failures self.old self.new }
        ensures fares { AllFare D.lost D.failures self.old.drives.items self.new.drives.items }
        ensures fit { IsFit D.units self.new }
    {
        let drives: &mut [D] = &mut self.drives;
        read_slot(&self.groups, drives, slot, unit, scratch)
            .ok()
            .ok_or(Refusal::Gone(slot))
    }

    /// Reads only the header of a slot's effective unit, with a buffer of two units' length. Refused as `read` is.
    pub fn read_header(
        &mut self,
        slot: u16,
        header: &mut [u8],
        scratch: &mut [u8],
    ) -> Result<(), Refusal>
        requires fit { IsFit D.units self.old }
        requires slot { IsSlot self.old.groups slot }
        requires header { length header.old ≡ HEADER_BYTES }
        requires scratch { length scratch.old ≡ 2 * unit_bytes self.old.groups }
        ensures ok { OnOk result (header_of self.new.groups (cells_in D.units D.lost self.new) slot ≡ Some header.new) }
        ensures there { OnOk result (IsGone self.new.groups (missing_in D.lost self.new) slot → ⊥) }
        ensures gone { IfErr result (ReportsGone D.units D.lost self.new slot) }
        ensures units { AreSound self.old.groups (cells_in D.units D.lost self.old)
            → KeepsUnits self.old.groups (cells_in D.units D.lost self.old) (cells_in D.units D.lost self.new) }
        ensures sound { AreSound self.old.groups (cells_in D.units D.lost self.old) → AreSound self.new.groups (cells_in D.units D.lost self.new) }
        ensures only { LosesOnly D.units D.lost D.failures self.old self.new }
        ensures fares { AllFare D.lost D.failures self.old.drives.items self.new.drives.items }
        ensures fit { IsFit D.units self.new }
    {
        let drives: &mut [D] = &mut self.drives;
        read_slot_header(&self.groups, drives, slot, header, scratch)
            .ok()
            .ok_or(Refusal::Gone(slot))
    }

    /// Reads the headers of a group's slots in ascending order, that of index i into `headers[i]`, with a buffer of two
    /// units' length. Takes a group's number, 0 to 511, and one header buffer for each of its slots. Returns the index of the
    /// first slot that is gone, or the count of slots. The headers below that index are those of before the call, if all
    /// slots were sound.
    pub fn read_headers(
        &mut self,
        group: u16,
        headers: &mut [[u8; HEADER_BYTES]],
        scratch: &mut [u8],
    ) -> u16
        requires fit { IsFit D.units self.old }
        requires group { group < 512 }
        requires many { length headers.old ≡ slots_in self.old.groups.segments (group_at self.old.groups group) }
        requires scratch { length scratch.old ≡ 2 * unit_bytes self.old.groups }
        ensures read { AreSound self.old.groups (cells_in D.units D.lost self.old)
            → AreHeaders self.old.groups (cells_in D.units D.lost self.old) group result headers.new }
        ensures gone { result < length headers.old → unit_of self.new.groups (cells_in D.units D.lost self.new) (128 * group + result) ≡ None }
        ensures within { result ≤ length headers.old }
        ensures units { AreSound self.old.groups (cells_in D.units D.lost self.old)
            → KeepsUnits self.old.groups (cells_in D.units D.lost self.old) (cells_in D.units D.lost self.new) }
        ensures sound { AreSound self.old.groups (cells_in D.units D.lost self.old) → AreSound self.new.groups (cells_in D.units D.lost self.new) }
        ensures only { LosesOnly D.units D.lost D.failures self.old self.new }
        ensures fares { AllFare D.lost D.failures self.old.drives.items self.new.drives.items }
        ensures fit { IsFit D.units self.new }
    {
        let drives: &mut [D] = &mut self.drives;
        read_group_headers(&self.groups, drives, group, headers, scratch)
    }

    /// Writes the unit of a slot, with a buffer of two units' length.
    pub fn write(&mut self, slot: u16, unit: &[u8], scratch: &mut [u8]) -> Result<(), Refusal>
        requires fit { IsFit D.units self.old }
        requires slot { IsSlot self.old.groups slot }
        requires unit { length unit.now ≡ unit_bytes self.old.groups }
        requires scratch { length scratch.old ≡ 2 * unit_bytes self.old.groups }
        ensures ok { OnOk result (HoldsUnit D.units D.lost self.new slot unit.now) }
        ensures gone { IfErr result (ReportsGone D.units D.lost self.new slot) }
        ensures wrote { WroteSlot self.old.groups (cells_in D.units D.lost self.old) (cells_in D.units D.lost self.new) slot unit.now }
        ensures drives { LeavesOthers D.units D.lost D.failures slot self.old self.new }
        ensures tables { KeepsTables self.old self.new }
        ensures fit { IsFit D.units self.new }
    {
        let drives: &mut [D] = &mut self.drives;
        if let Some(Class::Mirrored) = self.groups.class_of(slot / SLOTS) {
            return mirrored_store::write(&self.groups, drives, slot, unit, scratch)
                .ok()
                .ok_or(Refusal::Gone(slot));
        }
        parity_store::write(&self.groups, drives, slot, unit, scratch)
            .ok()
            .ok_or(Refusal::Gone(slot))
    }

    /// Makes all writes that were Ok durable: syncs each drive that isn't lost, in ascending order. One whose sync fails is lost.
    pub fn sync(&mut self)
        requires fit { IsFit D.units self.old }
        ensures units { AreSound self.old.groups (cells_in D.units D.lost self.old)
            → KeepsUnits self.old.groups (cells_in D.units D.lost self.old) (cells_in D.units D.lost self.new) }
        ensures sound { AreSound self.old.groups (cells_in D.units D.lost self.old) → AreSound self.new.groups (cells_in D.units D.lost self.new) }
        ensures only { LosesOnly D.units D.lost D.failures self.old self.new }
        ensures fares { AllFare D.lost D.failures self.old.drives.items self.new.drives.items }
        ensures fit { IsFit D.units self.new }
    {
        let drives: &mut [D] = &mut self.drives;
        sync_drives(drives);
    }
}
