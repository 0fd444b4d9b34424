// A drive is added.
ghost use Rattle.std.specs.Prelude.{◌≡◌, ◌+◌, ◌*◌, [], ℕ, List, Bool, OnOk};
ghost use Rattle.byte_store.specs.Lasting.{Shown};
ghost use Rattle.extents.specs.Sizes.{extent_units};
ghost use Rattle.vault.specs.Images.{recovered};
ghost use Rattle.vault.specs.Moments.{LeavesOnly};
ghost use Rattle.vault.specs.declared.store.Stop.{Stop};
ghost use Rattle.array_store.specs.Blocks.{Holds};
ghost use Rattle.journaled_store.specs.Left.{HasBoth, HasKeys};
ghost use Rattle.array_recovery.specs.Reopened.{EndsAt};
ghost use Rattle.drive_rebuild.specs.Rebuilt.{CanBeRebuilt};
ghost use Rattle.drive_addition.specs.Added.{CanGrow, IsAdded, IsBeforeOrAdded, IsWholeOn, OpensBeforeOrWith};

use crate::fault::AdditionFault;
use crate::plan::plan;
use array_batch::{carry_out, prepare, test_table};
use extent_groups::GroupTable;
use extents::{DRIVES, ExtentTable, Shape};
use std::alloc::Global;
use vault::{Batch, Vault};

// Adds a drive: said of an array's bytes and block map together.
fn add_units<V: Vault>(
    alloc: Global,
    vault: &mut V,
    shape: &Shape,
    groups: GroupTable,
    extents: ExtentTable,
    drives: u8,
) -> Result<(), AdditionFault>
    ensures stays { V.known vault.old → V.known vault.new }
    ensures added { V.known vault.old → (what : Shown) (lost : List Bool)
        → CanGrow V.seen V.may_leave what groups drives (shape.now.extents * extent_units shape.now.segments) lost vault.old
        → OnOk result (IsAdded V.seen V.may_leave what shape.now groups (drives + 1) (shape.now.extents * extent_units shape.now.segments) vault.new) }
    ensures any_moment { V.known vault.old → (what : Shown) (lost : List Bool)
        → CanGrow V.seen V.may_leave what groups drives (shape.now.extents * extent_units shape.now.segments) lost vault.old
        → (stop : Stop) → LeavesOnly V.moment V.left_since stop vault.old vault.new
        (IsBeforeOrAdded lost (recovered (V.seen vault.old)) what shape.now groups drives (shape.now.extents * extent_units shape.now.segments)) }
{
    // The number of the new one would be that of the table.
    if usize::from(drives) >= DRIVES {
        return Err(AdditionFault::Full);
    }
    let mut batch = Batch::new(alloc);
    test_table(vault, &mut batch)?;
    prepare(vault, &mut batch)?;
    plan(alloc, vault, &mut batch, shape, groups, extents, drives)?;
    carry_out(vault, &mut batch)?;
    Ok(())
}

/// Adds a drive to an array of `drives` drives that a vault has, and spreads its extents over all of them. The new drive's number is
/// `drives`, and its places must be there, with any units. All that changes is one batch. Refused where a drive is marked as lost.
/// Stopped or refused, open the vault again and try with what is found then.
pub fn add_drive<V: Vault>(
    alloc: Global,
    vault: &mut V,
    shape: &Shape,
    groups: GroupTable,
    extents: ExtentTable,
    drives: u8,
) -> Result<(), AdditionFault>
    ensures stays { V.known vault.old → V.known vault.new }

    // After Ok the vault has an array with the same bytes and the same block map, and both of one state, on one drive more.
    ensures added { V.known vault.old → (bytes : List ℕ)
        → CanBeRebuilt Holds V.seen V.may_leave bytes groups drives (shape.now.extents * extent_units shape.now.segments) vault.old
        → EndsAt [] (drives + 1) (shape.now.extents * extent_units shape.now.segments) (recovered (V.seen vault.old))
        → OnOk result (IsWholeOn Holds V.seen V.may_leave bytes shape.now groups (drives + 1) (shape.now.extents * extent_units shape.now.segments) vault.new) }
    ensures map { V.known vault.old → (keys : List ℕ)
        → CanBeRebuilt HasKeys V.seen V.may_leave keys groups drives (shape.now.extents * extent_units shape.now.segments) vault.old
        → EndsAt [] (drives + 1) (shape.now.extents * extent_units shape.now.segments) (recovered (V.seen vault.old))
        → OnOk result (IsWholeOn HasKeys V.seen V.may_leave keys shape.now groups (drives + 1) (shape.now.extents * extent_units shape.now.segments) vault.new) }
    ensures both { V.known vault.old → (what : Shown)
        → CanBeRebuilt HasBoth V.seen V.may_leave what groups drives (shape.now.extents * extent_units shape.now.segments) vault.old
        → EndsAt [] (drives + 1) (shape.now.extents * extent_units shape.now.segments) (recovered (V.seen vault.old))
        → OnOk result (IsWholeOn HasBoth V.seen V.may_leave what shape.now groups (drives + 1) (shape.now.extents * extent_units shape.now.segments) vault.new) }

    // A stop at any moment, also after an error, leaves a vault from which the array of before is opened, or that with the drive.
    ensures any_moment { V.known vault.old → (bytes : List ℕ)
        → CanBeRebuilt Holds V.seen V.may_leave bytes groups drives (shape.now.extents * extent_units shape.now.segments) vault.old
        → EndsAt [] (drives + 1) (shape.now.extents * extent_units shape.now.segments) (recovered (V.seen vault.old))
        → (stop : Stop) → LeavesOnly V.moment V.left_since stop vault.old vault.new (OpensBeforeOrWith Holds bytes shape.now groups drives) }
    ensures map_any_moment { V.known vault.old → (keys : List ℕ)
        → CanBeRebuilt HasKeys V.seen V.may_leave keys groups drives (shape.now.extents * extent_units shape.now.segments) vault.old
        → EndsAt [] (drives + 1) (shape.now.extents * extent_units shape.now.segments) (recovered (V.seen vault.old))
        → (stop : Stop) → LeavesOnly V.moment V.left_since stop vault.old vault.new (OpensBeforeOrWith HasKeys keys shape.now groups drives) }
    ensures both_any_moment { V.known vault.old → (what : Shown)
        → CanBeRebuilt HasBoth V.seen V.may_leave what groups drives (shape.now.extents * extent_units shape.now.segments) vault.old
        → EndsAt [] (drives + 1) (shape.now.extents * extent_units shape.now.segments) (recovered (V.seen vault.old))
        → (stop : Stop) → LeavesOnly V.moment V.left_since stop vault.old vault.new (OpensBeforeOrWith HasBoth what shape.now groups drives) }
{
    add_units(alloc, vault, shape, groups, extents, drives)
}
