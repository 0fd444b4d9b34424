// Whether a slot is sound, and the lowest that isn't.
ghost use Rattle.std.specs.Prelude.{◌≡◌, ◌+◌, ◌*◌, false, length, IsTrue, IfSome, IsNone};
ghost use Rattle.extent_groups.specs.Groups.{AreGroups};
ghost use Rattle.extent_groups.specs.Cells.{cells};
ghost use Rattle.extent_groups.specs.Calls.{NoPlace, KeepsDrives};
ghost use Rattle.extent_groups.specs.Stores.{unit_bytes, AreDrives, AreSound};
ghost use Rattle.unit_store.specs.Fit.{IsFit};
ghost use Rattle.unit_store.specs.Losses.{AllFare, LosesOnly};
ghost use Rattle.unit_store.specs.Slots.{IsSlot, cells_in};
ghost use Rattle.consistency_check.specs.Sound.{AreSoundBelow, IsAnswer, IsFirstUnsound, IsSoundSlot, IsUnsoundSlot};

use crate::slots::{is_lowest, is_slot_sound};
use extent_groups::{GROUPS, GroupTable, SLOTS};
use extents::Drive;
use unit_store::Parts;

// Tests a slot whose lower slots are sound, with two buffers of a unit's length. Each row is read once, at its lowest slot.
fn test_slot<D: Drive>(
    groups: &GroupTable,
    drives: &mut [D],
    slot: u16,
    unit: &mut [u8],
    other: &mut [u8],
) -> bool
    requires slot { IsSlot groups.now slot }
    requires drives { AreDrives D.units groups.now drives.old }
    requires unit { length unit.old ≡ unit_bytes groups.now }
    requires other { length other.old ≡ unit_bytes groups.now }
    ensures sound { IsTrue result → AreSoundBelow groups.now (cells D.units D.lost drives.new) slot
        → IsSoundSlot groups.now (cells D.units D.lost drives.new) slot }
    ensures unsound { result ≡ false → IsUnsoundSlot groups.now (cells D.units D.lost drives.new) slot }
    ensures touched { KeepsDrives D.units D.lost D.failures NoPlace drives.old drives.new }
{
    if !is_lowest(groups, slot) {
        return true;
    }
    is_slot_sound(groups, drives, slot, unit, other)
}

// The lowest unsound slot of a group, with two buffers of a unit's length.
fn first_unsound_of<D: Drive>(
    groups: &GroupTable,
    drives: &mut [D],
    group: u16,
    unit: &mut [u8],
    other: &mut [u8],
) -> Option<u16>
    requires groups { AreGroups groups.now }
    requires drives { AreDrives D.units groups.now drives.old }
    requires unit { length unit.old ≡ unit_bytes groups.now }
    requires other { length other.old ≡ unit_bytes groups.now }
    ensures some { AreSoundBelow groups.now (cells D.units D.lost drives.old) (128 * group)
        → IfSome result (IsFirstUnsound groups.now (cells D.units D.lost drives.new)) }
    ensures none { AreSoundBelow groups.now (cells D.units D.lost drives.old) (128 * group)
        → IsNone result → AreSoundBelow groups.now (cells D.units D.lost drives.new) (128 * group + 128) }
    ensures touched { KeepsDrives D.units D.lost D.failures NoPlace drives.old drives.new }
{
    for index in 0..groups.slots_of(group) {
        let slot = SLOTS * group + index;
        if !test_slot(groups, drives, slot, unit, other) {
            return Some(slot);
        }
    }
    None
}

// The lowest slot that isn't sound, with two buffers of a unit's length.
fn first_unsound<D: Drive>(
    groups: &GroupTable,
    drives: &mut [D],
    unit: &mut [u8],
    other: &mut [u8],
) -> Option<u16>
    requires groups { AreGroups groups.now }
    requires drives { AreDrives D.units groups.now drives.old }
    requires unit { length unit.old ≡ unit_bytes groups.now }
    requires other { length other.old ≡ unit_bytes groups.now }
    ensures some { IfSome result (IsFirstUnsound groups.now (cells D.units D.lost drives.new)) }
    ensures none { IsNone result → AreSound groups.now (cells D.units D.lost drives.new) }
    ensures touched { KeepsDrives D.units D.lost D.failures NoPlace drives.old drives.new }
    ensures drives { AreDrives D.units groups.now drives.new }
{
    for group in 0..GROUPS as u16 {
        let found = first_unsound_of(groups, drives, group, unit, other);
        if found.is_some() {
            return found;
        }
    }
    None
}

/// Whether a slot is sound: its two copies are equal, or its parity row adds up to zero. Borrows two buffers of a unit's length,
/// and reads both copies, or the whole row. A copy or a row with a lost drive has nothing to compare, and is sound.
pub fn is_sound<D: Drive>(
    parts: &mut Parts<D>,
    slot: u16,
    unit: &mut [u8],
    other: &mut [u8],
) -> bool
    requires fit { IsFit D.units parts.old }
    requires slot { IsSlot parts.old.groups slot }
    requires unit { length unit.old ≡ unit_bytes parts.old.groups }
    requires other { length other.old ≡ unit_bytes parts.old.groups }
    ensures sound { IsAnswer parts.new.groups (cells_in D.units D.lost parts.new) slot result }
    ensures only { LosesOnly D.units D.lost D.failures parts.old parts.new }
    ensures fares { AllFare D.lost D.failures parts.old.drives.items parts.new.drives.items }
    ensures fit { IsFit D.units parts.new }
{
    let drives: &mut [D] = &mut parts.drives;
    is_slot_sound(&parts.groups, drives, slot, unit, other)
}

/// Finds the lowest slot that isn't sound; none where all are. Borrows two buffers of a unit's length. Reads each copy and each
/// unit of a row once, up to the slot that it finds.
///
/// Later losses leave sound slots sound, so parts without a note and with no such slot are as `scan` and `restart` ask. A write
/// that a stop left half made may be found: finish its note first, by `Parts::finish`.
pub fn find_unsound<D: Drive>(
    parts: &mut Parts<D>,
    unit: &mut [u8],
    other: &mut [u8],
) -> Option<u16>
    requires fit { IsFit D.units parts.old }
    requires unit { length unit.old ≡ unit_bytes parts.old.groups }
    requires other { length other.old ≡ unit_bytes parts.old.groups }
    ensures none { IsNone result → AreSound parts.new.groups (cells_in D.units D.lost parts.new) }
    ensures some { IfSome result (IsFirstUnsound parts.new.groups (cells_in D.units D.lost parts.new)) }

    // No unit changes, and a drive is lost by its own failure alone: the slot wasn't sound before the call either.
    ensures before { IfSome result (IsUnsoundSlot parts.old.groups (cells_in D.units D.lost parts.old)) }
    ensures only { LosesOnly D.units D.lost D.failures parts.old parts.new }
    ensures fares { AllFare D.lost D.failures parts.old.drives.items parts.new.drives.items }
    ensures fit { IsFit D.units parts.new }
{
    let drives: &mut [D] = &mut parts.drives;
    first_unsound(&parts.groups, drives, unit, other)
}
