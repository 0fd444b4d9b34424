// The groups of an array in a vault are changed.
ghost use Rattle.std.specs.Prelude.{◌≡◌, ℕ, List, Bool, IfErr, OnOk};
ghost use Rattle.byte_store.specs.Lasting.{Shown};
ghost use Rattle.vault.specs.Images.{Matches, recovered};
ghost use Rattle.vault.specs.Moments.{LeavesOnly};
ghost use Rattle.vault.specs.declared.store.Stop.{Stop};
ghost use Rattle.array_store.specs.Blocks.{Holds};
ghost use Rattle.journaled_store.specs.Left.{HasBoth, HasKeys};
ghost use Rattle.drive_rebuild.specs.Rebuilt.{CanBeRebuilt};
ghost use Rattle.array_batch.specs.Changes.{CanChange, IsBeforeOrWith, KeepsArrayWith};
ghost use Rattle.group_changes.specs.Changed.{IsChanged, IsWholeAfter, OpensBefore, OpensBeforeOrAfter, units_of};
ghost use Rattle.group_changes.specs.Refused.{IsRefusal};

use crate::change::GroupChange;
use crate::fault::GroupChangeFault;
use crate::plan::plan;
use array_batch::{carry_out, prepare, test_table};
use extent_groups::GroupTable;
use extents::{ExtentTable, Shape};
use std::alloc::Global;
use vault::{Batch, Vault};

// Changes the groups: said of an array's bytes and block map together.
fn change_units<V: Vault>(
    alloc: Global,
    vault: &mut V,
    shape: &Shape,
    groups: GroupTable,
    extents: ExtentTable,
    drives: u8,
    change: &GroupChange,
) -> Result<(), GroupChangeFault>
    ensures stays { V.known vault.old → V.known vault.new }
    ensures changed { V.known vault.old → (what : Shown) (lost : List Bool)
        → CanChange V.seen V.may_leave what groups drives drives (units_of shape.now) lost vault.old
        → OnOk result (KeepsArrayWith V.seen V.may_leave (IsChanged change.now shape.now drives groups) what drives (units_of shape.now) vault.new) }
    ensures any_moment { V.known vault.old → (what : Shown) (lost : List Bool)
        → CanChange V.seen V.may_leave what groups drives drives (units_of shape.now) lost vault.old
        → (stop : Stop) → LeavesOnly V.moment V.left_since stop vault.old vault.new
        (IsBeforeOrWith lost (recovered (V.seen vault.old)) (IsChanged change.now shape.now drives groups) what drives (units_of shape.now)) }
    ensures refused { V.known vault.old → (what : Shown) (lost : List Bool)
        → CanChange V.seen V.may_leave what groups drives drives (units_of shape.now) lost vault.old
        → IfErr result (λ fault. IsRefusal fault
        → (stop : Stop) → LeavesOnly V.moment V.left_since stop vault.old vault.new (Matches lost (recovered (V.seen vault.old)))) }
{
    let mut batch = Batch::new(alloc);
    test_table(vault, &mut batch)?;
    prepare(vault, &mut batch)?;
    plan(
        alloc, vault, &mut batch, shape, groups, extents, drives, change,
    )?;
    carry_out(vault, &mut batch)?;
    Ok(())
}

/// Makes one change of the groups of an array of `drives` drives that a vault has. All that changes is one batch. Refused with `Lost`
/// where a drive is marked as lost; then, with the array in memory, with `Number` or `Refused`: `BadMember`, `SameDrive`, `ExtentTaken`,
/// then `Full` of a group that is made; `NoGroup`, then `SlotsHeld` and the lowest slot with a block's newest place, of one that is dissolved;
/// `NoGroup`, `BadMember`, `SameDrive`, `ExtentTaken` of an extent that is moved. Stopped or refused, open the vault again and try with
/// what is found then.
pub fn change_groups<V: Vault>(
    alloc: Global,
    vault: &mut V,
    shape: &Shape,
    groups: GroupTable,
    extents: ExtentTable,
    drives: u8,
    change: &GroupChange,
) -> Result<(), GroupChangeFault>
    ensures stays { V.known vault.old → V.known vault.new }

    // After Ok the vault has an array with the same bytes and the same block map, and both of one state, on the same drives, with the groups
    // that the change makes of those of before.
    ensures changed { V.known vault.old → (bytes : List ℕ)
        → CanBeRebuilt Holds V.seen V.may_leave bytes groups drives (units_of shape.now) vault.old
        → OnOk result (IsWholeAfter Holds V.seen V.may_leave bytes change.now shape.now groups drives vault.new) }
    ensures map { V.known vault.old → (keys : List ℕ)
        → CanBeRebuilt HasKeys V.seen V.may_leave keys groups drives (units_of shape.now) vault.old
        → OnOk result (IsWholeAfter HasKeys V.seen V.may_leave keys change.now shape.now groups drives vault.new) }
    ensures both { V.known vault.old → (what : Shown)
        → CanBeRebuilt HasBoth V.seen V.may_leave what groups drives (units_of shape.now) vault.old
        → OnOk result (IsWholeAfter HasBoth V.seen V.may_leave what change.now shape.now groups drives vault.new) }

    // A stop at any moment, also after an error, leaves a vault from which the array of before is opened, or that with the new groups.
    ensures any_moment { V.known vault.old → (bytes : List ℕ)
        → CanBeRebuilt Holds V.seen V.may_leave bytes groups drives (units_of shape.now) vault.old
        → (stop : Stop) → LeavesOnly V.moment V.left_since stop vault.old vault.new (OpensBeforeOrAfter Holds bytes change.now shape.now groups drives) }
    ensures map_any_moment { V.known vault.old → (keys : List ℕ)
        → CanBeRebuilt HasKeys V.seen V.may_leave keys groups drives (units_of shape.now) vault.old
        → (stop : Stop) → LeavesOnly V.moment V.left_since stop vault.old vault.new (OpensBeforeOrAfter HasKeys keys change.now shape.now groups drives) }
    ensures both_any_moment { V.known vault.old → (what : Shown)
        → CanBeRebuilt HasBoth V.seen V.may_leave what groups drives (units_of shape.now) vault.old
        → (stop : Stop) → LeavesOnly V.moment V.left_since stop vault.old vault.new (OpensBeforeOrAfter HasBoth what change.now shape.now groups drives) }

    // After an error it is the array of before alone, unless a call of the vault failed.
    ensures refused { V.known vault.old → (what : Shown)
        → CanBeRebuilt HasBoth V.seen V.may_leave what groups drives (units_of shape.now) vault.old
        → IfErr result (λ fault. IsRefusal fault
        → (stop : Stop) → LeavesOnly V.moment V.left_since stop vault.old vault.new (OpensBefore HasBoth what groups drives)) }
{
    change_units(alloc, vault, shape, groups, extents, drives, change)
}
