// The array's calls of its drives for a slot or a group's slots, and for making a group. Only its parts change, and what it
// keeps of the slots of a group's number that is made.
ghost use Rattle.std.specs.Prelude.{◌≡◌, ◌⊎◌, ◌+◌, ◌*◌, ◌<◌, ◌≤◌, length, vec_len, vec_capacity, OnOk, OnErr, IfOk, IfErr, Some, None};
ghost use Rattle.extents.specs.declared.shape.TheConstants.{HEADER_BYTES};
ghost use Rattle.extent_groups.specs.Faults.{put_fault};
ghost use Rattle.extent_groups.specs.Groups.{AreThere, group_at, slots_in};
ghost use Rattle.extent_groups.specs.Stores.{unit_bytes, unit_of, header_of, AreHeaders, AreSound, KeepsUnits};
ghost use Rattle.flat_machine.specs.Flat.{Flat, content_under};
ghost use Rattle.flat_machine.specs.Cases.{Leaves};
ghost use Rattle.flat_machine.specs.Groups.{IsLowestFree};
ghost use Rattle.unit_store.specs.Slots.{IsSlot};
ghost use Rattle.disk_array.specs.Refused.{OnlyLoses};
ghost use Rattle.unit_store.specs.Views.{drive_cells, FoundGone, WasRead, Entered, FoundLost};
ghost use Rattle.slot_tables.specs.Views.{with_parts, IsWhole};
ghost use Rattle.slot_tables.specs.Making.{IsMakeReason};
ghost use Rattle.slot_tables.specs.Changes.{opened_view, IsOpened};
ghost use Rattle.slot_tables.specs.Represents.{ShowsArray};
ghost use Rattle.slot_tables.specs.Shut.{AreShutOf};

use crate::array::Array;
use extent_groups::{Class, Member};
use extents::{Drive, HEADER_BYTES, Kind};
use flat_machine::Refusal;
use map_join::Record;
use slot_tables::{Hold, grow_to, open_number};
use unit_store::Sight;

impl<D: Drive, C: Hold> Array<D, C> {
    // Reads what a slot holds: its kind, and the payload.
    pub(crate) fn payload_at(&mut self, slot: u16, payload: &mut [u8]) -> Result<Kind, Refusal>
        requires slot { IsSlot self.old.parts.groups slot }
        requires payload { length payload.old ≡ self.old.parts.groups.payload }
        ensures ok { IfOk result (λ kind. WasRead self.old.parts self.new.parts slot (content_under kind payload.new)) }
        ensures err { IfErr result (FoundGone self.old.parts self.new.parts slot) }
        ensures rest { self.new ≡ with_parts self.old self.new.parts }
        ensures whole { IsWhole self.old }
    {
        let unit: &mut [u8] = &mut self.unit;
        let scratch: &mut [u8] = &mut self.scratch;
        self.parts.payload(slot, payload, unit, scratch)
    }

    // Makes a group under a free number, of members that pass every check, and takes out the claims that were kept of that
    // number. If out of memory for its places, nothing has changed.
    pub(crate) fn enter(
        &mut self,
        number: u16,
        class: Class,
        members: Vec<Member>,
        claims: &mut Vec<C>,
    ) -> Result<(), Refusal>
        requires free { IsLowestFree self.old.parts.groups number }
        requires there { AreThere self.old.parts.owners members.items }
        requires fine { put_fault self.old.parts.owners members.items ≡ None }
        requires reason { IsMakeReason self.old members.items None }
        requires none { vec_len claims.old ≡ 0 }
        requires room { 128 ≤ vec_capacity claims.old }
        ensures ok { OnOk result (Entered self.old.parts number class members.items self.new.parts) }
        ensures opened { OnOk result ((self.new ≡ opened_view self.old self.new.parts self.new.kept) × IsOpened number self.old.kept self.new.kept
            × AreShutOf C.names self.old number claims.new.items) }
        ensures err { IfErr result (λ refusal. ((refusal ≡ Refusal.Memory) × (self.new.parts ≡ self.old.parts))
            ⊎ (FoundLost self.old.parts members.items self.new.parts refusal)) }
        ensures rest { OnErr result ((self.new ≡ with_parts self.old self.new.parts) × (claims.new ≡ claims.old)) }
        ensures whole { IsWhole self.old }
    {
        // First, because an allocation that fails must leave no group. Longer places alone change nothing.
        let Ok(()) = grow_to(&mut self.places, number) else {
            return Err(Refusal::Memory);
        };
        match self.parts.enter(number, class, members, &mut self.unit) {
            Ok(()) => {
                // Only once the group is made, so that a lost drive leaves the claims in their places.
                open_number(&mut self.places, number, claims);
                Ok(())
            }
            Err(refusal) => Err(refusal),
        }
    }

    // Reads a slot's effective unit into a buffer of the caller's.
    pub(crate) fn unit_at(&mut self, slot: u16, unit: &mut [u8]) -> Result<(), Refusal>
        requires slot { IsSlot self.old.parts.groups slot }
        requires unit { length unit.old ≡ unit_bytes self.old.parts.groups }
        ensures ok { OnOk result (unit_of self.new.parts.groups (drive_cells self.new.parts) slot ≡ Some unit.new) }
        ensures gone { IfErr result (λ e. (e ≡ Refusal.Gone slot) × (unit_of self.new.parts.groups (drive_cells self.new.parts) slot ≡ None)) }
        ensures units { AreSound self.old.parts.groups (drive_cells self.old.parts)
            → KeepsUnits self.old.parts.groups (drive_cells self.old.parts) (drive_cells self.new.parts) }
        ensures sound { AreSound self.old.parts.groups (drive_cells self.old.parts) → AreSound self.new.parts.groups (drive_cells self.new.parts) }
        ensures loses { OnlyLoses self.old self.new }
    {
        let scratch: &mut [u8] = &mut self.scratch;
        self.parts.read(slot, unit, scratch)
    }

    // Reads the header of a slot's effective unit into a buffer of the caller's.
    pub(crate) fn header_at(&mut self, slot: u16, header: &mut [u8]) -> Result<(), Refusal>
        requires slot { IsSlot self.old.parts.groups slot }
        requires header { length header.old ≡ HEADER_BYTES }
        ensures ok { OnOk result (header_of self.new.parts.groups (drive_cells self.new.parts) slot ≡ Some header.new) }
        ensures gone { IfErr result (λ e. (e ≡ Refusal.Gone slot) × (unit_of self.new.parts.groups (drive_cells self.new.parts) slot ≡ None)) }
        ensures units { AreSound self.old.parts.groups (drive_cells self.old.parts)
            → KeepsUnits self.old.parts.groups (drive_cells self.old.parts) (drive_cells self.new.parts) }
        ensures sound { AreSound self.old.parts.groups (drive_cells self.old.parts) → AreSound self.new.parts.groups (drive_cells self.new.parts) }
        ensures loses { OnlyLoses self.old self.new }
    {
        let scratch: &mut [u8] = &mut self.scratch;
        self.parts.read_header(slot, header, scratch)
    }

    // Reads the headers of a group's slots into the caller's buffers, and returns how many come before the first slot that is gone.
    pub(crate) fn headers_at(&mut self, group: u16, headers: &mut [[u8; HEADER_BYTES]]) -> u16
        requires group { group < 512 }
        requires many { length headers.old ≡ slots_in self.old.parts.groups.segments (group_at self.old.parts.groups group) }
        ensures read { AreSound self.old.parts.groups (drive_cells self.old.parts)
            → AreHeaders self.old.parts.groups (drive_cells self.old.parts) group result headers.new }
        ensures gone { result < length headers.old → unit_of self.new.parts.groups (drive_cells self.new.parts) (128 * group + result) ≡ None }
        ensures within { result ≤ length headers.old }
        ensures units { AreSound self.old.parts.groups (drive_cells self.old.parts)
            → KeepsUnits self.old.parts.groups (drive_cells self.old.parts) (drive_cells self.new.parts) }
        ensures sound { AreSound self.old.parts.groups (drive_cells self.old.parts) → AreSound self.new.parts.groups (drive_cells self.new.parts) }
        ensures loses { OnlyLoses self.old self.new }
    {
        let scratch: &mut [u8] = &mut self.scratch;
        self.parts.read_headers(group, headers, scratch)
    }
    /// Makes all writes of the array durable: syncs each drive that isn't lost, in ascending order. One whose sync fails is lost.
    pub fn sync(&mut self)
        ensures loses { OnlyLoses self.old self.new }
        ensures flat { (F : Flat) → ShowsArray self.old F → (G : Flat) × Leaves F G × ShowsArray self.new G }
    {
        self.parts.sync();
    }
}
