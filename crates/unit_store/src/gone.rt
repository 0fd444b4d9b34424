// Which slots of a group are gone. It depends on the lost drives and the geometry alone: no unit is read.
ghost use Rattle.std.specs.Prelude.{◌≡◌, ◌↔◌, ◌/◌, ◌<◌, ℕ, IsTrue, length, slice_get, Some, None, IfSome, IsNone};
ghost use Rattle.extent_groups.specs.declared.class.Class.TheVariants.{Mirrored, Parity};
ghost use Rattle.extent_groups.specs.declared.class.Member.{Member};
ghost use Rattle.extent_groups.specs.Groups.{AreGroups};
ghost use Rattle.extent_groups.specs.Missing.{missing_of, IsGone};
ghost use Rattle.extent_groups.specs.Stores.{AreDrives, IsSlotOf};
ghost use Rattle.flat_machine.specs.Moves.{IsFirstGone};
ghost use Rattle.unit_store.specs.Fit.{IsFit};
ghost use Rattle.unit_store.specs.Shifting.{HasOtherMissing};
ghost use Rattle.unit_store.specs.Slots.{IsSlot, missing_in};

use crate::Parts;
use extent_groups::{Class, GroupTable, Member, SLOTS};
use extents::Drive;

/// Whether a drive is lost.
pub(crate) fn is_lost<D: Drive>(drives: &[D], drive: u8) -> bool
    requires { drive < length drives.now }
    ensures { result ≡ missing_of D.lost drives.now drive }
{
    drives[usize::from(drive)].is_lost()
}

/// Whether a member other than the one of this number is on a lost drive.
fn is_other_lost<D: Drive>(drives: &[D], members: &[Member], own: u8) -> bool
    requires { (k : ℕ) (m : Member) → slice_get members.now k ≡ Some m → m.drive < length drives.now }
    ensures { IsTrue result ↔ HasOtherMissing (missing_of D.lost drives.now) members.now own }
{
    for (number, member) in members.iter().enumerate() {
        if number != usize::from(own) && is_lost(drives, member.drive) {
            return true;
        }
    }
    false
}

/// Whether both copies of a mirrored slot are lost.
fn is_pair_gone<D: Drive>(groups: &GroupTable, drives: &[D], slot: u16) -> bool
    requires slot { IsSlotOf Mirrored groups.now slot }
    requires drives { AreDrives D.units groups.now drives.now }
    ensures { IsTrue result ↔ IsGone groups.now (missing_of D.lost drives.now) slot }
{
    let (first, second) = groups.pair_of(slot);
    is_lost(drives, first.drive) && is_lost(drives, second.drive)
}

/// Whether a parity slot's drive is lost, and so is the drive of another unit of its row.
fn is_row_gone<D: Drive>(groups: &GroupTable, drives: &[D], slot: u16) -> bool
    requires slot { IsSlotOf Parity groups.now slot }
    requires drives { AreDrives D.units groups.now drives.now }
    ensures { IsTrue result ↔ IsGone groups.now (missing_of D.lost drives.now) slot }
{
    let at = groups.row_of(slot);
    let home = groups.place(slot / SLOTS, at.member, at.offset);
    is_lost(drives, home.drive) && is_other_lost(drives, groups.members(slot / SLOTS), at.member)
}

/// Whether a slot of either class is gone.
fn is_gone<D: Drive>(groups: &GroupTable, drives: &[D], slot: u16) -> bool
    requires slot { IsSlot groups.now slot }
    requires drives { AreDrives D.units groups.now drives.now }
    ensures { IsTrue result ↔ IsGone groups.now (missing_of D.lost drives.now) slot }
{
    match groups.class_of(slot / SLOTS) {
        Some(Class::Mirrored) => is_pair_gone(groups, drives, slot),
        _ => is_row_gone(groups, drives, slot),
    }
}

/// The lowest slot of a group that is gone.
pub(crate) fn first_gone<D: Drive>(groups: &GroupTable, drives: &[D], group: u16) -> Option<u16>
    requires groups { AreGroups groups.now }
    requires drives { AreDrives D.units groups.now drives.now }
    ensures some { IfSome result (IsFirstGone groups.now (missing_of D.lost drives.now) group) }
    ensures none { IsNone result → (slot : ℕ) → slot / 128 ≡ group → IsGone groups.now (missing_of D.lost drives.now) slot → ⊥ }
{
    for index in 0..groups.slots_of(group) {
        let slot = SLOTS * group + index;
        if is_gone(groups, drives, slot) {
            return Some(slot);
        }
    }
    None
}

impl<D: Drive> Parts<D> {
    /// Whether no drives are left from which the unit of a slot could be read or written. A slot of no group isn't gone.
    pub fn is_gone(&self, slot: u16) -> bool
        requires fit { IsFit D.units self.now }
        ensures { IsTrue result ↔ IsGone self.now.groups (missing_in D.lost self.now) slot }
    {
        if slot % SLOTS >= self.groups.slots_of(slot / SLOTS) {
            return false;
        }
        is_gone(&self.groups, &self.drives, slot)
    }
}
