// The units of drives, read from a vault into memory.
ghost use Rattle.std.specs.Prelude.{◌≡◌, ◌+◌, ◌*◌, length, OnOk, IfOk};
ghost use Rattle.extents.specs.Sizes.{extent_units};
ghost use Rattle.extents.specs.declared.shape.TheConstants.{HEADER_BYTES};
ghost use Rattle.extent_groups.specs.Cells.{Cells};
ghost use Rattle.extent_groups.specs.declared.place.Place.{Place};
ghost use Rattle.vault.specs.Images.{Image};
ghost use Rattle.vault.specs.Marks.{Has};
ghost use Rattle.array_recovery.specs.Found.{AreFormed, AreUnitsLastIfAttested, HaveUnits, OnlyRead};

use crate::fault::RecoveryFault;
use extents::{DRIVES, MemDrive, Shape};
use rotten_units::load_units;
use std::alloc::Global;
use vault::{Places, Vault};

/// Tests that no unit is rotten.
pub(crate) fn test_rotten(rotten: &Places) -> Result<(), RecoveryFault>
    ensures { OnOk result ((x : Place) → Has rotten.now.marks.items x → ⊥) }
{
    match rotten.first() {
        Some(place) => Err(RecoveryFault::Rotten {
            drive: place.drive,
            address: place.address,
        }),
        None => Ok(()),
    }
}

/// The units of each drive, as the vault has them without its journal. A lost drive's are zeros. Refused where one is rotten.
pub fn load_drives<V: Vault>(
    alloc: Global,
    vault: &mut V,
    shape: &Shape,
    drives: u8,
    lost: &[bool; DRIVES],
) -> Result<Vec<MemDrive>, RecoveryFault>
    ensures stays { V.known vault.old → V.known vault.new }
    ensures read { V.known vault.old → OnlyRead V.seen V.may_leave V.moment V.left_since vault.old vault.new }
    ensures many { IfOk result (λ caches. length caches.items ≡ drives) }
    ensures formed { IfOk result (λ caches. AreFormed (shape.now.extents * extent_units shape.now.segments) (HEADER_BYTES + shape.now.payload) caches.items) }
    ensures units { V.known vault.old → IfOk result (λ caches. HaveUnits lost.now (Image.cells (V.seen vault.old)) caches.items) }

    // No unit is used that isn't as its digest says: where the attested units are those that were written last, these are what was
    // written.
    ensures honest { V.known vault.old → (written : Cells) → AreUnitsLastIfAttested (V.attested vault.old) drives lost.now written (Image.cells (V.seen vault.old))
        → IfOk result (λ caches. HaveUnits lost.now written caches.items) }
{
    let loaded = load_units(alloc, vault, shape, drives, lost)?;
    test_rotten(&loaded.rotten)?;
    Ok(loaded.caches)
}
