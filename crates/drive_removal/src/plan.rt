// The batch that removes a drive.
ghost use Rattle.std.specs.Prelude.{◌≡◌, ◌-◌, ◌*◌, ◌≤◌, ◌++◌, [], ◌∷◌, replicate, OnOk};
ghost use Rattle.byte_store.specs.Lasting.{Shown};
ghost use Rattle.extents.specs.Sizes.{extent_units};
ghost use Rattle.extent_groups.specs.Planned.{after};
ghost use Rattle.vault.specs.Images.{Image};
ghost use Rattle.journaled_store.specs.Steps.{table_write};
ghost use Rattle.array_recovery.specs.Found.{OnlyRead};
ghost use Rattle.array_recovery.specs.Reopened.{EndsAt};
ghost use Rattle.drive_removal.specs.Removed.{HasOthers, IsRemovedIn};

use crate::fault::RemovalFault;
use crate::load::load_others;
use crate::memory::shortened;
use array_batch::put_array;
use extent_groups::{GroupTable, Place};
use extents::{DRIVES, ExtentTable, MemDrive, Shape};
use std::alloc::{AllocError, Global};
use unit_store::Parts;
use vault::{Batch, TABLE, Vault};

// Puts the write of a table without marks into a batch.
fn clear_marks(batch: &mut Batch) -> Result<(), AllocError>
    ensures { OnOk result (batch.new ≡ batch.old ++ table_write (replicate 16 0) ∷ []) }
{
    let place = Place {
        drive: TABLE,
        address: 0,
    };
    batch.push(place, &[0u8; DRIVES])
}

/// Makes a batch the writes after which a vault with an empty journal has the array without its last drive. The vault is only read.
pub(crate) fn plan<V: Vault>(
    alloc: Global,
    vault: &mut V,
    batch: &mut Batch,
    shape: &Shape,
    groups: GroupTable,
    extents: ExtentTable,
    drives: u8,
) -> Result<(), RemovalFault>
    requires enough { 4 ≤ drives }
    requires few { drives ≤ 16 }
    ensures stays { V.known vault.old → V.known vault.new }
    ensures read { V.known vault.old → OnlyRead V.seen V.may_leave V.moment V.left_since vault.old vault.new }
    ensures planned { V.known vault.old → (what : Shown) → HasOthers what groups drives (Image.cells (V.seen vault.old))
        → EndsAt [] (drives - 1) (shape.now.extents * extent_units shape.now.segments) (Image.cells (V.seen vault.old))
        → OnOk result (IsRemovedIn what shape.now groups (drives - 1) (shape.now.extents * extent_units shape.now.segments)
        (after (Image.cells (V.seen vault.old)) batch.new)) }
{
    let caches = load_others(alloc, vault, shape, drives)?;
    let parts = Parts {
        shape: *shape,
        groups,
        extents,
        drives: caches,
        note: None,
    };
    let mut parts = shortened(alloc, parts, drives - 1)?;
    let rest: &mut [MemDrive] = &mut parts.drives;
    put_array(alloc, vault, batch, &parts.groups, rest)?;
    clear_marks(batch)?;
    Ok(())
}
