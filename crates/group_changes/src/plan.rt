// The batch that changes the groups.
ghost use Rattle.std.specs.Prelude.{◌≡◌, [], OnOk};
ghost use Rattle.byte_store.specs.Lasting.{Shown};
ghost use Rattle.extent_groups.specs.Planned.{after};
ghost use Rattle.vault.specs.Images.{Image};
ghost use Rattle.array_recovery.specs.Found.{OnlyRead};
ghost use Rattle.array_recovery.specs.Reopened.{EndsAt};
ghost use Rattle.array_batch.specs.Arrays.{HasArray};
ghost use Rattle.array_batch.specs.Changes.{HasArrayWith};
ghost use Rattle.group_changes.specs.Changed.{IsChanged, units_of};

use crate::change::GroupChange;
use crate::fault::GroupChangeFault;
use crate::memory::regrouped;
use array_batch::put_array;
use array_recovery::load_drives;
use extent_groups::GroupTable;
use extents::{DRIVES, ExtentTable, MemDrive, Shape};
use std::alloc::Global;
use unit_store::Parts;
use vault::{Batch, Vault};

/// Makes a batch the writes after which a vault with an empty journal has the array with its groups changed. The vault is only read.
pub(crate) fn plan<V: Vault>(
    alloc: Global,
    vault: &mut V,
    batch: &mut Batch,
    shape: &Shape,
    groups: GroupTable,
    extents: ExtentTable,
    drives: u8,
    change: &GroupChange,
) -> Result<(), GroupChangeFault>
    ensures stays { V.known vault.old → V.known vault.new }
    ensures read { V.known vault.old → OnlyRead V.seen V.may_leave V.moment V.left_since vault.old vault.new }
    ensures planned { V.known vault.old → (what : Shown) → HasArray what groups drives (Image.cells (V.seen vault.old))
        → EndsAt [] drives (units_of shape.now) (Image.cells (V.seen vault.old))
        → OnOk result (HasArrayWith (IsChanged change.now shape.now drives groups) what drives (units_of shape.now)
        (after (Image.cells (V.seen vault.old)) batch.new)) }
{
    let caches = load_drives(alloc, vault, shape, drives, &[false; DRIVES])?;
    let parts = Parts {
        shape: *shape,
        groups,
        extents,
        drives: caches,
        note: None,
    };
    let mut parts = regrouped(alloc, parts, change)?;
    let drives: &mut [MemDrive] = &mut parts.drives;
    put_array(alloc, vault, batch, &parts.groups, drives)?;
    Ok(())
}
