// A drive is removed.
ghost use Rattle.std.specs.Prelude.{◌≡◌, ◌-◌, ◌*◌, ℕ, List, Bool, OnOk};
ghost use Rattle.byte_store.specs.Lasting.{Shown};
ghost use Rattle.extents.specs.Sizes.{extent_units};
ghost use Rattle.vault.specs.Images.{recovered};
ghost use Rattle.vault.specs.Moments.{LeavesOnly};
ghost use Rattle.vault.specs.declared.store.Stop.{Stop};
ghost use Rattle.array_store.specs.Blocks.{Holds};
ghost use Rattle.journaled_store.specs.Left.{HasBoth, HasKeys};
ghost use Rattle.drive_rebuild.specs.Rebuilt.{CanBeRebuilt};
ghost use Rattle.drive_removal.specs.Removed.{CanShrink, IsBeforeOrRemoved, IsRemoved, IsWholeWithout, OpensBeforeOrWithout};

use crate::fault::RemovalFault;
use crate::plan::plan;
use crate::stages::{carry_out, find_lost, prepare};
use extent_groups::GroupTable;
use extents::{DRIVES, ExtentTable, Shape};
use std::alloc::Global;
use vault::{Batch, Vault};

/// Drives that an array has at least.
const LEAST: u8 = 3;

// Removes a drive: said of an array's bytes and block map together.
fn remove_units<V: Vault>(
    alloc: Global,
    vault: &mut V,
    shape: &Shape,
    groups: GroupTable,
    extents: ExtentTable,
    drives: u8,
) -> Result<(), RemovalFault>
    ensures stays { V.known vault.old → V.known vault.new }
    ensures removed { V.known vault.old → (what : Shown) (lost : List Bool)
        → CanShrink V.seen V.may_leave what groups drives (shape.now.extents * extent_units shape.now.segments) lost vault.old
        → OnOk result (IsRemoved V.seen V.may_leave what shape.now groups (drives - 1) (shape.now.extents * extent_units shape.now.segments) vault.new) }
    ensures any_moment { V.known vault.old → (what : Shown) (lost : List Bool)
        → CanShrink V.seen V.may_leave what groups drives (shape.now.extents * extent_units shape.now.segments) lost vault.old
        → (stop : Stop) → LeavesOnly V.moment V.left_since stop vault.old vault.new
        (IsBeforeOrRemoved lost (recovered (V.seen vault.old)) what shape.now groups drives (shape.now.extents * extent_units shape.now.segments)) }
{
    if drives <= LEAST {
        return Err(RemovalFault::Few);
    }
    if usize::from(drives) > DRIVES {
        return Err(RemovalFault::Misfit);
    }
    let mut batch = Batch::new(alloc);
    let counts = find_lost(vault, &mut batch, drives - 1)?;
    prepare(vault, &mut batch, &counts)?;
    plan(alloc, vault, &mut batch, shape, groups, extents, drives)?;
    carry_out(vault, &mut batch, &counts)?;
    Ok(())
}

/// Removes the last drive of an array of `drives` drives that a vault has, number `drives - 1`: its extents are rebuilt on the others. It may
/// be marked as lost, and isn't read. All that changes is one batch. Refused where another drive is marked, or where the others have no
/// room. Stopped or refused, open the vault again and try with what is found
/// then.
pub fn remove_drive<V: Vault>(
    alloc: Global,
    vault: &mut V,
    shape: &Shape,
    groups: GroupTable,
    extents: ExtentTable,
    drives: u8,
) -> Result<(), RemovalFault>
    ensures stays { V.known vault.old → V.known vault.new }

    // After Ok the vault has an array with the same bytes and the same block map, and both of one state, on one drive fewer.
    ensures removed { V.known vault.old → (bytes : List ℕ)
        → CanBeRebuilt Holds V.seen V.may_leave bytes groups drives (shape.now.extents * extent_units shape.now.segments) vault.old
        → OnOk result (IsWholeWithout Holds V.seen V.may_leave bytes shape.now groups (drives - 1) (shape.now.extents * extent_units shape.now.segments) vault.new) }
    ensures map { V.known vault.old → (keys : List ℕ)
        → CanBeRebuilt HasKeys V.seen V.may_leave keys groups drives (shape.now.extents * extent_units shape.now.segments) vault.old
        → OnOk result (IsWholeWithout HasKeys V.seen V.may_leave keys shape.now groups (drives - 1) (shape.now.extents * extent_units shape.now.segments) vault.new) }
    ensures both { V.known vault.old → (what : Shown)
        → CanBeRebuilt HasBoth V.seen V.may_leave what groups drives (shape.now.extents * extent_units shape.now.segments) vault.old
        → OnOk result (IsWholeWithout HasBoth V.seen V.may_leave what shape.now groups (drives - 1) (shape.now.extents * extent_units shape.now.segments) vault.new) }

    // A stop at any moment, also after an error, leaves a vault from which the array of before is opened, or that without the drive.
    ensures any_moment { V.known vault.old → (bytes : List ℕ)
        → CanBeRebuilt Holds V.seen V.may_leave bytes groups drives (shape.now.extents * extent_units shape.now.segments) vault.old
        → (stop : Stop) → LeavesOnly V.moment V.left_since stop vault.old vault.new (OpensBeforeOrWithout Holds bytes shape.now groups drives) }
    ensures map_any_moment { V.known vault.old → (keys : List ℕ)
        → CanBeRebuilt HasKeys V.seen V.may_leave keys groups drives (shape.now.extents * extent_units shape.now.segments) vault.old
        → (stop : Stop) → LeavesOnly V.moment V.left_since stop vault.old vault.new (OpensBeforeOrWithout HasKeys keys shape.now groups drives) }
    ensures both_any_moment { V.known vault.old → (what : Shown)
        → CanBeRebuilt HasBoth V.seen V.may_leave what groups drives (shape.now.extents * extent_units shape.now.segments) vault.old
        → (stop : Stop) → LeavesOnly V.moment V.left_since stop vault.old vault.new (OpensBeforeOrWithout HasBoth what shape.now groups drives) }
{
    remove_units(alloc, vault, shape, groups, extents, drives)
}
