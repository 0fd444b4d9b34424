// An array is made in a blank vault.
ghost use Rattle.std.specs.Prelude.{◌≡◌, [], ℕ, replicate, OnOk};
ghost use Rattle.vault.specs.Images.{Image};
ghost use Rattle.array_store.specs.Blocks.{Holds};
ghost use Rattle.journaled_store.specs.Left.{HasBoth, HasKeys};
ghost use Rattle.array_recovery.specs.Reopened.{IsSoundFor};
ghost use Rattle.blank_array.specs.Blank.{CanBeMade, IsBlankVault, unit_count, zeros_shown};

use crate::fault::BlankFault;
use extent_groups::GroupTable;
use extents::{DRIVES, ExtentTable};
use group_form::write_groups;
use std::alloc::Global;
use vault::{Batch, Vault, keep, settle};

// Tests that the groups are those of an array of so many drives.
fn test_groups(groups: &GroupTable, extents: &ExtentTable, drives: u8) -> Result<(), BlankFault>
    ensures { OnOk result (CanBeMade groups.now drives) }
{
    // Nothing is read: this call's clause says what is true of every group table, so it isn't tested.
    let _members = groups.members(0);
    let shape = groups.shape();
    let count = usize::from(drives);
    if count < 3 || count > DRIVES || extents.drives() != count {
        return Err(BlankFault::Unsound);
    }
    // All rows are of one length, so one is enough.
    if extents.owners(0).len() != shape.extents as usize {
        return Err(BlankFault::Unsound);
    }
    if !groups.agrees(extents) {
        return Err(BlankFault::Unsound);
    }
    Ok(())
}

/// Makes an array of `drives` drives in a blank vault: writes its groups and their number into the table, durably. After Ok a store that
/// shows zeros, of any size, is opened, and outlasts the next stop. Refused where the owners of the extents don't agree with the groups.
/// After another refusal, or a stop, the vault is to be made again.
pub fn make_array<V: Vault>(
    alloc: Global,
    vault: &mut V,
    groups: &GroupTable,
    extents: &ExtentTable,
    drives: u8,
) -> Result<(), BlankFault>
    ensures stays { V.known vault.old → V.known vault.new }
    ensures can { OnOk result (CanBeMade groups.now drives) }
    ensures made { V.known vault.old → IsBlankVault V.seen V.may_leave groups.now drives vault.old → (size : ℕ)
        → OnOk result (IsSoundFor HasBoth V.seen V.may_leave (zeros_shown size) groups.now drives (unit_count groups.now) [] vault.new) }
    ensures bytes { V.known vault.old → IsBlankVault V.seen V.may_leave groups.now drives vault.old → (size : ℕ)
        → OnOk result (IsSoundFor Holds V.seen V.may_leave (replicate size 0) groups.now drives (unit_count groups.now) [] vault.new) }
    ensures map { V.known vault.old → IsBlankVault V.seen V.may_leave groups.now drives vault.old
        → OnOk result (IsSoundFor HasKeys V.seen V.may_leave [] groups.now drives (unit_count groups.now) [] vault.new) }
    ensures settled { V.known vault.old → IsBlankVault V.seen V.may_leave groups.now drives vault.old → OnOk result (Image.journal (V.seen vault.new) ≡ []) }
{
    test_groups(groups, extents, drives)?;
    let mut batch = Batch::new(alloc);
    write_groups(alloc, &mut batch, groups, drives)?;
    keep(vault, &batch)?;
    settle(vault, &mut batch, &[false; DRIVES])?;
    Ok(())
}
