// What was computed, and what was read, is tested.
ghost use Rattle.std.specs.Prelude.{◌≡◌, ◌*◌, ◌<◌, ℕ, List, Bool, None, Some, false, true, length, slice_get, OnOk};
ghost use Rattle.extents.specs.Condition.{Held};
ghost use Rattle.extents.specs.declared.mem_drive.Condition.TheVariants.{Present};
ghost use Rattle.extent_groups.specs.declared.place.Place.{Place};
ghost use Rattle.extent_groups.specs.Cells.{Cells};
ghost use Rattle.extent_groups.specs.Stores.{AreSound, unit_bytes};
ghost use Rattle.unit_store.specs.Fit.{IsFit};
ghost use Rattle.unit_store.specs.Losses.{LosesOnly};
ghost use Rattle.unit_store.specs.Memory.{held_failures, held_lost, held_units};
ghost use Rattle.unit_store.specs.Slots.{cells_in};
ghost use Rattle.vault.specs.Images.{is_lost};
ghost use Rattle.vault.specs.Marks.{Has};
ghost use Rattle.rotten_units.specs.Loaded.{AreFormed, HaveUnits};
ghost use Rattle.unit_repair.specs.Computed.{Answer, AreSoundIfNoted, IsSoundIfNoted};
ghost use Rattle.unit_repair.specs.Mended.{AreVerified};

use consistency_check::{find_unsound, is_sound};
use extent_groups::{GROUPS, GroupTable, SLOTS};
use extents::{ExtentTable, MemDrive, Shape};
use rotten_units::{Loaded, MendFault, is_touched};
use std::alloc::Global;
use unit_store::Parts;
use vault::Places;

// Whether a slot is sound, if one of its copies, or a unit of its row, was rotten; true of all others. Takes two buffers of a unit's length.
fn is_right(
    parts: &mut Parts<MemDrive>,
    rotten: &Places,
    slot: u16,
    unit: &mut [u8],
    other: &mut [u8],
) -> bool
    requires fit { IsFit held_units parts.old }
    requires unit { length unit.old ≡ unit_bytes parts.old.groups }
    requires other { length other.old ≡ unit_bytes parts.old.groups }
    ensures sound { result ≡ true → IsSoundIfNoted (Has rotten.now.marks.items) parts.new.groups (cells_in held_units held_lost parts.new) slot }
    ensures only { LosesOnly held_units held_lost held_failures parts.old parts.new }
    ensures fit { IsFit held_units parts.new }
{
    if !is_touched(&parts.groups, rotten, slot) {
        return true;
    }
    is_sound(parts, slot, unit, other)
}

// The lowest slot that isn't sound of those of which a unit is rotten. Takes two buffers of a unit's length.
fn find_wrong(
    parts: &mut Parts<MemDrive>,
    rotten: &Places,
    unit: &mut [u8],
    other: &mut [u8],
) -> Option<u16>
    requires answer { Answer parts.old.drives.items }
    requires fit { IsFit held_units parts.old }
    requires unit { length unit.old ≡ unit_bytes parts.old.groups }
    requires other { length other.old ≡ unit_bytes parts.old.groups }
    ensures none { result ≡ None → AreSoundIfNoted (Has rotten.now.marks.items) parts.old.groups (cells_in held_units held_lost parts.old) }
    ensures only { LosesOnly held_units held_lost held_failures parts.old parts.new }
{
    for number in 0..GROUPS as u32 * SLOTS as u32 {
        let slot = number as u16;
        if !is_right(parts, rotten, slot, unit, other) {
            return Some(slot);
        }
    }
    None
}

/// Tests that the parts fit one another, and that each slot of which a unit is rotten is sound.
pub(crate) fn test_touched(
    alloc: Global,
    parts: &mut Parts<MemDrive>,
    rotten: &Places,
) -> Result<(), MendFault>
    requires { Answer parts.old.drives.items }
    ensures fit { OnOk result (IsFit held_units parts.old) }
    ensures sound { OnOk result (AreSoundIfNoted (Has rotten.now.marks.items) parts.old.groups (cells_in held_units held_lost parts.old)) }
    ensures only { LosesOnly held_units held_lost held_failures parts.old parts.new }
{
    if !parts.is_fit() {
        return Err(MendFault::Misfit);
    }
    let size = parts.shape.unit_bytes();
    let mut unit = vec![in alloc; 0u8; size]?;
    let mut other = vec![in alloc; 0u8; size]?;
    match find_wrong(parts, rotten, &mut unit, &mut other) {
        Some(slot) => Err(MendFault::Unsound(slot)),
        None => Ok(()),
    }
}

/// Tests that the parts fit one another, and that all slots are sound.
pub fn test_parts(alloc: Global, parts: Parts<MemDrive>) -> Result<(), MendFault>
    requires { (d : ℕ) (m : Held) → slice_get parts.drives.items d ≡ Some m → m.condition ≡ Present }
    ensures fit { OnOk result (IsFit held_units parts) }
    ensures sound { OnOk result (AreSound parts.groups (cells_in held_units held_lost parts)) }
{
    let mut parts = parts;
    if !parts.is_fit() {
        return Err(MendFault::Misfit);
    }
    let size = parts.shape.unit_bytes();
    let mut unit = vec![in alloc; 0u8; size]?;
    let mut other = vec![in alloc; 0u8; size]?;
    match find_unsound(&mut parts, &mut unit, &mut other) {
        Some(slot) => Err(MendFault::Unsound(slot)),
        None => Ok(()),
    }
}

/// Tests that none of the units that were read is rotten, that the parts fit one another, and that all slots are sound.
pub(crate) fn confirm(
    alloc: Global,
    shape: &Shape,
    groups: GroupTable,
    extents: ExtentTable,
    loaded: Loaded,
) -> Result<(), MendFault>
    requires { (d : ℕ) (m : Held) → slice_get loaded.caches.items d ≡ Some m → m.condition ≡ Present }
    ensures none { OnOk result ((x : Place) → Has loaded.rotten.marks.items x → ⊥) }
    ensures verified { OnOk result ((c : Cells) (drives units size : ℕ) (lost : List Bool) → length loaded.caches.items ≡ drives
        → AreFormed units size loaded.caches.items → ((d : ℕ) → d < drives → is_lost lost d ≡ false)
        → HaveUnits lost c loaded.caches.items → AreVerified groups drives units c) }
{
    let Loaded { caches, rotten } = loaded;
    if let Some(place) = rotten.first() {
        return Err(MendFault::Rotten {
            drive: place.drive,
            address: place.address,
        });
    }
    let parts = Parts {
        shape: *shape,
        groups,
        extents,
        drives: caches,
        note: None,
    };
    test_parts(alloc, parts)
}
