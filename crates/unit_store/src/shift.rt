// A group's member is moved onto another extent: its units are put there, and then the tables change.
ghost use Rattle.std.specs.Prelude.{◌≡◌, ◌*◌, ◌/◌, ◌<◌, ℕ, length, slice_get, Some, None, OnOk, IfErr, IfSome, IsNone};
ghost use Rattle.extents.specs.Owners.{IsExtent};
ghost use Rattle.extents.specs.Sizes.{extent_units};
ghost use Rattle.extent_groups.specs.Calls.{SameBut, KeepsDrives};
ghost use Rattle.extent_groups.specs.Faults.{swap_fault};
ghost use Rattle.extent_groups.specs.Groups.{group_at, members_of};
ghost use Rattle.extent_groups.specs.Missing.{IsGone};
ghost use Rattle.extent_groups.specs.Stores.{unit_bytes};
ghost use Rattle.extent_groups.specs.Wiping.{IsInExtent};
ghost use Rattle.flat_machine.specs.Moves.{IsFirstGone};
ghost use Rattle.unit_store.specs.Fit.{IsFit};
ghost use Rattle.unit_store.specs.Kept.{EachSlot, KeepsSlots, LeavesDrives};
ghost use Rattle.unit_store.specs.Losses.{KeepsTables};
ghost use Rattle.unit_store.specs.Shifting.{IsRoute, AreOnTarget, IsUsed, StopsFor, IsWhyUnmoved, WasSwapped, WasNotSwapped};
ghost use Rattle.unit_store.specs.Slots.{missing_in};
ghost use Rattle.unit_store.specs.Views.{view_of, Shifted, NotShifted};

use crate::Parts;
use crate::gone::first_gone;
use crate::relocate::{Route, Stop, shift_units};
use extent_groups::Member;
use extents::Drive;
use flat_machine::Refusal;

impl<D: Drive> Parts<D> {
    /// The lowest slot of a group that is gone. It depends on the lost drives alone: no unit is read.
    pub fn first_gone(&self, group: u16) -> Option<u16>
        requires fit { IsFit D.units self.now }
        ensures some { IfSome result (IsFirstGone self.now.groups (missing_in D.lost self.now) group) }
        ensures none { IsNone result → (slot : ℕ) → slot / 128 ≡ group → IsGone self.now.groups (missing_in D.lost self.now) slot → ⊥ }
    {
        first_gone(&self.groups, &self.drives, group)
    }

    /// Puts the units for all offsets of the member on the other extent.
    fn put_units(&mut self, at: Route, unit: &mut [u8], scratch: &mut [u8]) -> Result<(), Stop>
        requires fit { IsFit D.units self.old }
        requires route { IsRoute D.units self.old.groups at.group at.member at.from at.to self.old.drives.items }
        requires unit { length unit.old ≡ unit_bytes self.old.groups }
        requires scratch { length scratch.old ≡ 2 * unit_bytes self.old.groups }
        ensures ok { OnOk result (AreOnTarget D.units D.lost D.failures self.old.groups at.group at.member at.from at.to
            (extent_units self.old.groups.segments) self.old.drives.items self.new.drives.items) }
        ensures err { IfErr result (StopsFor self.old.groups (missing_in D.lost self.new) at.group at.from at.to) }
        ensures touched { KeepsDrives D.units D.lost D.failures (IsInExtent self.old.groups.segments at.to) self.old.drives.items self.new.drives.items }
        ensures elsewhere { SameBut (IsUsed self.old.groups at.group at.to) self.old.drives.items self.new.drives.items }
        ensures tables { KeepsTables self.old self.new }
    {
        let drives: &mut [D] = &mut self.drives;
        shift_units(&self.groups, drives, at, unit, scratch)
    }

    /// The refusal that reports why the copy stopped.
    fn why_unmoved(&self, stop: Stop, at: Route) -> Refusal
        requires fit { IsFit D.units self.now }
        requires member { slice_get (members_of self.now.groups at.group) at.member ≡ Some at.from }
        requires stop { StopsFor self.now.groups (missing_in D.lost self.now) at.group at.from at.to stop }
        ensures { IsWhyUnmoved self.now.groups (missing_in D.lost self.now) at.group at.member at.to result }
    {
        match stop {
            Stop::TargetLost => Refusal::DriveLost(at.to.drive),
            Stop::Beyond => match self.first_gone(at.group) {
                Some(slot) => Refusal::Gone(slot),
                // A unit that is unavailable makes a slot of the group gone.
                None => unreachable!(),
            },
        }
    }

    /// Puts each unit of a group's member on another extent, and then swaps the two. Units are rebuilt from the other
    /// members' where the member's drive is lost. Takes a buffer of a unit's length and one of two units'. Refused, with the
    /// tables as they were, where the other extent's drive is lost or one of the units can't be read or rebuilt.
    pub fn swap(
        &mut self,
        group: u16,
        member: u8,
        to: Member,
        unit: &mut [u8],
        scratch: &mut [u8],
    ) -> Result<(), Refusal>
        requires fit { IsFit D.units self.old }
        requires member { member < length (members_of self.old.groups group) }
        requires there { IsExtent self.old.extents to.drive to.extent }
        requires fine { swap_fault self.old.extents (group_at self.old.groups group) to ≡ None }
        requires unit { length unit.old ≡ unit_bytes self.old.groups }
        requires scratch { length scratch.old ≡ 2 * unit_bytes self.old.groups }

        ensures ok { OnOk result (WasSwapped D.units D.lost self.old group member to self.new) }
        ensures err { IfErr result (WasNotSwapped D.lost self.old group member to self.new) }
        ensures slots { KeepsSlots D.units D.lost EachSlot self.old self.new }
        ensures drives { LeavesDrives D.units D.lost D.failures (IsInExtent self.old.groups.segments to) (IsUsed self.old.groups group to) self.old self.new }
        ensures shape { self.new.shape ≡ self.old.shape }
        ensures fit { IsFit D.units self.new }
    {
        let from = self.groups.members(group)[member as usize];
        let at = Route {
            group,
            member,
            from,
            to,
        };
        // First the units: until the tables change, the old extent is the member, so a refusal loses nothing.
        if let Err(stop) = self.put_units(at, unit, scratch) {
            return Err(self.why_unmoved(stop, at));
        }
        // Not refused, because the caller has tested all that could be.
        let _swapped = self
            .groups
            .swap_member(&mut self.extents, group, member, to);
        Ok(())
    }

    /// Moves a group's member, which keeps its number, onto another extent. Takes a buffer of a unit's length and one of two
    /// units'. Refused, with the tables as they were, where the other extent's drive is lost or one of the member's units
    /// can't be read or rebuilt.
    pub fn shift(
        &mut self,
        group: u16,
        member: u8,
        to: Member,
        unit: &mut [u8],
        scratch: &mut [u8],
    ) -> Result<(), Refusal>
        requires fit { IsFit D.units self.old }
        requires member { member < length (members_of self.old.groups group) }
        requires there { IsExtent self.old.extents to.drive to.extent }
        requires fine { swap_fault self.old.extents (group_at self.old.groups group) to ≡ None }
        requires unit { length unit.old ≡ unit_bytes self.old.groups }
        requires scratch { length scratch.old ≡ 2 * unit_bytes self.old.groups }
        ensures ok { OnOk result (Shifted (view_of D.units D.lost D.failures self.old) group member to (view_of D.units D.lost D.failures self.new)) }
        ensures err { IfErr result (NotShifted (view_of D.units D.lost D.failures self.old) group member to (view_of D.units D.lost D.failures self.new)) }
        ensures elsewhere { SameBut (IsUsed self.old.groups group to) self.old.drives.items self.new.drives.items }
        ensures fit { IsFit D.units self.new }
    {
        self.swap(group, member, to, unit, scratch)
    }
}
