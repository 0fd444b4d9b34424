// What was written is read back and tested.
ghost use Rattle.std.specs.Prelude.{◌≡◌, ◌+◌, ◌*◌, ◌<◌, ℕ, Some, false, slice_get, OnOk};
ghost use Rattle.extents.specs.Condition.{Held};
ghost use Rattle.extents.specs.Sizes.{extent_units};
ghost use Rattle.extents.specs.declared.mem_drive.Condition.TheVariants.{Present};
ghost use Rattle.extent_groups.specs.Stores.{AreSound};
ghost use Rattle.unit_store.specs.Fit.{IsFit};
ghost use Rattle.unit_store.specs.Memory.{held_lost, held_units};
ghost use Rattle.unit_store.specs.Slots.{cells_in};
ghost use Rattle.vault.specs.Images.{Image, is_lost};
ghost use Rattle.array_recovery.specs.Found.{OnlyRead};
ghost use Rattle.drive_rebuild.specs.Rebuilt.{AreVerified};

use crate::fault::RebuildFault;
use array_recovery::load_drives;
use consistency_check::find_unsound;
use extent_groups::GroupTable;
use extents::{DRIVES, ExtentTable, MemDrive, Shape};
use std::alloc::Global;
use unit_store::Parts;
use vault::Vault;

// Tests that the parts fit one another, and that all slots are sound.
fn test_parts(alloc: Global, parts: Parts<MemDrive>) -> Result<(), RebuildFault>
    requires { (d : ℕ) (m : Held) → slice_get parts.drives.items d ≡ Some m → m.condition ≡ Present }
    ensures fit { OnOk result (IsFit held_units parts) }
    ensures sound { OnOk result (AreSound parts.groups (cells_in held_units held_lost parts)) }
{
    let mut parts = parts;
    if !parts.is_fit() {
        return Err(RebuildFault::Misfit);
    }
    let size = parts.shape.unit_bytes();
    let mut unit = vec![in alloc; 0u8; size]?;
    let mut other = vec![in alloc; 0u8; size]?;
    match find_unsound(&mut parts, &mut unit, &mut other) {
        Some(slot) => Err(RebuildFault::Unsound(slot)),
        None => Ok(()),
    }
}

/// Reads the units of all drives that aren't lost from an empty journal's vault, and tests that all slots are sound.
pub(crate) fn verify<V: Vault>(
    alloc: Global,
    vault: &mut V,
    shape: &Shape,
    groups: GroupTable,
    extents: ExtentTable,
    drives: u8,
    lost: &[bool; DRIVES],
) -> Result<(), RebuildFault>
    ensures stays { V.known vault.old → V.known vault.new }
    ensures read { V.known vault.old → OnlyRead V.seen V.may_leave V.moment V.left_since vault.old vault.new }
    ensures verified { V.known vault.old → ((d : ℕ) → d < drives → is_lost lost.now d ≡ false)
        → OnOk result (AreVerified groups drives (shape.now.extents * extent_units shape.now.segments) (Image.cells (V.seen vault.old))) }
{
    let caches = load_drives(alloc, vault, shape, drives, lost)?;
    let parts = Parts {
        shape: *shape,
        groups,
        extents,
        drives: caches,
        note: None,
    };
    test_parts(alloc, parts)
}
