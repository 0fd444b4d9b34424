// Making a group: its extents are wiped, and then it enters the table.
ghost use Rattle.std.specs.Prelude.{◌≡◌, ◌≤◌, length, None, OnOk, IfErr, replicate};
ghost use Rattle.extent_groups.specs.Calls.{AreSized, KeepsDrives, SameBut};
ghost use Rattle.extent_groups.specs.Cells.{cells};
ghost use Rattle.extent_groups.specs.Faults.{put_fault};
ghost use Rattle.extent_groups.specs.Groups.{AreThere, IsFree};
ghost use Rattle.extent_groups.specs.Missing.{missing_of};
ghost use Rattle.extent_groups.specs.Stores.{unit_bytes};
ghost use Rattle.flat_machine.specs.Groups.{AreApart, IsFirstLost};
ghost use Rattle.unit_store.specs.Fit.{IsFit};
ghost use Rattle.unit_store.specs.Kept.{IsOutside, KeepsSlots, LeavesDrives};
ghost use Rattle.unit_store.specs.Losses.{KeepsTables};
ghost use Rattle.unit_store.specs.Making.{HaveExtents, AreWiped, IsInOne, HasOn, MadeGroup, MadeNoGroup};
ghost use Rattle.unit_store.specs.Slots.{cells_in, missing_in};

use crate::Parts;
use extent_groups::{Class, Member, wipe_extent};
use extents::{Drive, Shape};
use flat_machine::Refusal;

/// Writes zeros over each unit of the members' extents; refused with the first drive that is lost.
fn wipe_members<D: Drive>(
    drives: &mut [D],
    shape: &Shape,
    members: &[Member],
    zeros: &[u8],
) -> Result<(), u8>
    requires there { HaveExtents D.units shape.now.segments drives.old members.now }
    requires spread { AreApart members.now }
    requires some { 1 ≤ shape.now.segments }
    requires size { AreSized D.units (length zeros.now) drives.old }
    ensures wiped { OnOk result (AreWiped shape.now.segments members.now zeros.now (length members.now) (cells D.units D.lost drives.new)) }
    ensures lost { IfErr result (IsFirstLost (missing_of D.lost drives.new) members.now) }
    ensures others { SameBut (HasOn members.now) drives.old drives.new }
    ensures touched { KeepsDrives D.units D.lost D.failures (IsInOne shape.now.segments members.now) drives.old drives.new }
{
    for member in members {
        if !wipe_extent(drives, shape, *member, zeros) {
            return Err(member.drive);
        }
    }
    Ok(())
}

impl<D: Drive> Parts<D> {
    /// Writes zeros over each unit of the members' extents; refused with the first drive that is lost.
    fn wipe(&mut self, members: &[Member], zeros: &[u8]) -> Result<(), u8>
        requires fit { IsFit D.units self.old }
        requires there { AreThere self.old.extents members.now }
        requires spread { AreApart members.now }
        requires size { length zeros.now ≡ unit_bytes self.old.groups }
        ensures wiped { OnOk result (AreWiped self.old.groups.segments members.now zeros.now (length members.now) (cells_in D.units D.lost self.new)) }
        ensures lost { IfErr result (IsFirstLost (missing_in D.lost self.new) members.now) }
        ensures others { SameBut (HasOn members.now) self.old.drives.items self.new.drives.items }
        ensures touched { KeepsDrives D.units D.lost D.failures (IsInOne self.old.groups.segments members.now) self.old.drives.items self.new.drives.items }
        ensures tables { KeepsTables self.old self.new }
    {
        let drives: &mut [D] = &mut self.drives;
        wipe_members(drives, &self.shape, members, zeros)
    }

    /// Makes a group under a free number, of members that pass every check, with a unit of zeros to wipe their
    /// extents with; where a member's drive is lost the tables are as they were.
    pub fn make(
        &mut self,
        group: u16,
        class: Class,
        members: Vec<Member>,
        zeros: &[u8],
    ) -> Result<(), Refusal>
        requires fit { IsFit D.units self.old }
        requires free { IsFree self.old.groups group }
        requires there { AreThere self.old.extents members.items }
        requires fine { put_fault self.old.extents members.items ≡ None }
        requires zeros { zeros.now ≡ replicate (unit_bytes self.old.groups) 0 }
        ensures ok { OnOk result (MadeGroup D.units D.lost self.old group class members.items zeros.now self.new) }
        ensures err { IfErr result (MadeNoGroup D.lost self.old members.items self.new) }
        ensures slots { KeepsSlots D.units D.lost (IsOutside group) self.old self.new }
        ensures drives { LeavesDrives D.units D.lost D.failures (IsInOne self.old.groups.segments members.items) (HasOn members.items) self.old self.new }
        ensures shape { self.new.shape ≡ self.old.shape }
        ensures fit { IsFit D.units self.new }
    {
        // First the wipe, so that the tables are as they were where a drive is lost.
        if let Err(drive) = self.wipe(&members, zeros) {
            return Err(Refusal::DriveLost(drive));
        }
        self.groups
            .enter_group(&mut self.extents, group, class, members);
        Ok(())
    }
}
