// One slot of either class.
ghost use Rattle.std.specs.Prelude.{◌≡◌, false, length};
ghost use Rattle.extent_groups.specs.declared.class.Class.TheVariants.{Mirrored, Parity};
ghost use Rattle.extent_groups.specs.Cells.{Cells, cells};
ghost use Rattle.extent_groups.specs.Calls.{NoPlace, KeepsDrives};
ghost use Rattle.extent_groups.specs.Stores.{unit_bytes, IsSlotOf, AreDrives};
ghost use Rattle.unit_store.specs.Slots.{IsSlot};
ghost use Rattle.consistency_check.specs.Sound.{IsAnswer, IsSoundSlot, AreSoundBelow};

use crate::pairs::is_pair_sound;
use crate::rows::is_row_sound;
use extent_groups::{Class, GroupTable, SLOTS};
use extents::Drive;

// Whether a mirrored slot is sound. Takes two buffers of a unit's length.
fn is_mirrored_sound<D: Drive>(
    groups: &GroupTable,
    drives: &mut [D],
    slot: u16,
    unit: &mut [u8],
    other: &mut [u8],
) -> bool
    requires slot { IsSlotOf Mirrored groups.now slot }
    requires drives { AreDrives D.units groups.now drives.old }
    requires unit { length unit.old ≡ unit_bytes groups.now }
    requires other { length other.old ≡ unit_bytes groups.now }
    ensures sound { IsAnswer groups.now (cells D.units D.lost drives.new) slot result }
    ensures touched { KeepsDrives D.units D.lost D.failures NoPlace drives.old drives.new }
{
    let (first, second) = groups.pair_of(slot);
    is_pair_sound(drives, first, second, unit, other)
}

// Whether a parity slot is sound. Takes two buffers of a unit's length.
fn is_parity_sound<D: Drive>(
    groups: &GroupTable,
    drives: &mut [D],
    slot: u16,
    unit: &mut [u8],
    other: &mut [u8],
) -> bool
    requires slot { IsSlotOf Parity groups.now slot }
    requires drives { AreDrives D.units groups.now drives.old }
    requires unit { length unit.old ≡ unit_bytes groups.now }
    requires other { length other.old ≡ unit_bytes groups.now }
    ensures sound { IsAnswer groups.now (cells D.units D.lost drives.new) slot result }
    ensures touched { KeepsDrives D.units D.lost D.failures NoPlace drives.old drives.new }
{
    let at = groups.row_of(slot);
    is_row_sound(groups, drives, slot / SLOTS, &at, unit, other)
}

// Whether a slot of either class is sound. Takes two buffers of a unit's length.
pub(crate) fn is_slot_sound<D: Drive>(
    groups: &GroupTable,
    drives: &mut [D],
    slot: u16,
    unit: &mut [u8],
    other: &mut [u8],
) -> bool
    requires slot { IsSlot groups.now slot }
    requires drives { AreDrives D.units groups.now drives.old }
    requires unit { length unit.old ≡ unit_bytes groups.now }
    requires other { length other.old ≡ unit_bytes groups.now }
    ensures sound { IsAnswer groups.now (cells D.units D.lost drives.new) slot result }
    ensures touched { KeepsDrives D.units D.lost D.failures NoPlace drives.old drives.new }
    ensures drives { AreDrives D.units groups.now drives.new }
{
    match groups.class_of(slot / SLOTS) {
        Some(Class::Mirrored) => is_mirrored_sound(groups, drives, slot, unit, other),
        _ => is_parity_sound(groups, drives, slot, unit, other),
    }
}

// Whether a slot needs a test of its own: any but a parity slot that shares its row with a lower one, and is as sound as that.
pub(crate) fn is_lowest(groups: &GroupTable, slot: u16) -> bool
    requires { IsSlot groups.now slot }
    ensures { result ≡ false → (c : Cells) → AreSoundBelow groups.now c slot → IsSoundSlot groups.now c slot }
{
    let members = groups.members(slot / SLOTS).len() as u16;
    match groups.class_of(slot / SLOTS) {
        Some(Class::Parity) => slot % SLOTS / 2 % (members - 1) == 0,
        _ => true,
    }
}
