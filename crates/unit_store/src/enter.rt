// Making a group, stated over the units that its drives show; and the first member whose drive is lost.
ghost use Rattle.std.specs.Prelude.{◌≡◌, ◌<◌, ℕ, length, slice_get, None, Some, OnOk, IfErr, IfSome, IsNone};
ghost use Rattle.extent_groups.specs.declared.class.Member.{Member};
ghost use Rattle.extent_groups.specs.Faults.{put_fault};
ghost use Rattle.extent_groups.specs.Groups.{AreThere, IsFree};
ghost use Rattle.extent_groups.specs.Missing.{missing_of};
ghost use Rattle.extent_groups.specs.Stores.{unit_bytes};
ghost use Rattle.flat_machine.specs.Groups.{ArePresent, IsFirstLost};
ghost use Rattle.unit_store.specs.Fit.{IsFit};
ghost use Rattle.unit_store.specs.Views.{view_of, lost_of, Entered, FoundLost};

use crate::Parts;
use crate::unit::clear;
use extent_groups::{Class, Member};
use extents::Drive;
use flat_machine::Refusal;

/// The drive of the first member whose drive is lost.
fn first_lost<D: Drive>(drives: &[D], members: &[Member]) -> Option<u8>
    requires { (k : ℕ) (m : Member) → slice_get members.now k ≡ Some m → m.drive < length drives.now }
    ensures some { IfSome result (IsFirstLost (missing_of D.lost drives.now) members.now) }
    ensures none { IsNone result → ArePresent (missing_of D.lost drives.now) members.now }
{
    for member in members {
        if drives[usize::from(member.drive)].is_lost() {
            return Some(member.drive);
        }
    }
    None
}

impl<D: Drive> Parts<D> {
    /// The drive of the first member whose drive is lost.
    pub fn first_lost(&self, members: &[Member]) -> Option<u8>
        requires { (k : ℕ) (m : Member) → slice_get members.now k ≡ Some m → m.drive < length self.now.drives.items }
        ensures some { IfSome result (IsFirstLost (lost_of (view_of D.units D.lost D.failures self.now)) members.now) }
        ensures none { IsNone result → ArePresent (lost_of (view_of D.units D.lost D.failures self.now)) members.now }
    {
        first_lost(&self.drives, members)
    }

    /// Makes a group under a free number, of members that pass every check, and wipes their extents first. Takes a buffer of
    /// a unit's length. Refused with the drive of the first member whose drive is lost.
    pub fn enter(
        &mut self,
        group: u16,
        class: Class,
        members: Vec<Member>,
        unit: &mut [u8],
    ) -> Result<(), Refusal>
        requires fit { IsFit D.units self.old }
        requires free { IsFree self.old.groups group }
        requires there { AreThere self.old.extents members.items }
        requires fine { put_fault self.old.extents members.items ≡ None }
        requires unit { length unit.old ≡ unit_bytes self.old.groups }
        ensures ok { OnOk result (Entered (view_of D.units D.lost D.failures self.old) group class members.items (view_of D.units D.lost D.failures self.new)) }
        ensures err { IfErr result (FoundLost (view_of D.units D.lost D.failures self.old) members.items (view_of D.units D.lost D.failures self.new)) }
        ensures fit { IsFit D.units self.new }
    {
        clear(unit);
        self.make(group, class, members, unit)
    }
}
