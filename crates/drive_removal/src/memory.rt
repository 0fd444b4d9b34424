// One drive fewer for an array whose drives are in memory.
ghost use Rattle.std.specs.Prelude.{◌≡◌, ◌+◌, ◌≤◌, None, length, true, IfOk};
ghost use Rattle.byte_store.specs.Lasting.{Shown};
ghost use Rattle.tiered_array.specs.Views.{TiersView};
ghost use Rattle.unit_store.specs.Fit.{IsFit};
ghost use Rattle.unit_store.specs.Memory.{held_units};
ghost use Rattle.unit_store.specs.Views.{lost_of};
ghost use Rattle.journaled_store.specs.Left.{HasBoth};
ghost use Rattle.journaled_store.specs.Outlasting.{parts_of};
ghost use Rattle.array_recovery.specs.Reopened.{Outlives};
ghost use Rattle.array_batch.specs.Arrays.{held_view};
ghost use Rattle.drive_removal.specs.Shortened.{IsEmptiedOf, IsShortenedTo};

use crate::fault::RemovalFault;
use array_batch::{parts_in, test_present};
use array_recovery::tiers_of;
use drive_evacuation::evacuate;
use extents::MemDrive;
use std::alloc::Global;
use unit_store::Parts;

// The parts of the array that these parts hold, in which no group has a member on a lost drive.
fn emptied(
    alloc: Global,
    parts: Parts<MemDrive>,
    drive: u8,
) -> Result<Parts<MemDrive>, RemovalFault>
    requires note { parts.note ≡ None }
    ensures emptied { IfOk result (λ p. (was : TiersView) (what : Shown) → HasBoth was what → Outlives (parts_of was) (held_view parts)
        → lost_of (held_view parts) drive ≡ true → IsEmptiedOf what parts.shape parts.groups (length parts.drives.items) drive p) }
    ensures fit { IfOk result (λ p. IsFit held_units p) }
{
    if !parts.is_fit() {
        return Err(RemovalFault::Misfit);
    }
    let mut tiers = tiers_of(alloc, parts)?;
    evacuate(&mut tiers, drive)?;
    let parts = parts_in(alloc, tiers)?;
    Ok(parts)
}

/// The parts of the array that these parts hold, without their last drive, which is lost: the others have its extents. Only the table of
/// owners still has its row.
pub(crate) fn shortened(
    alloc: Global,
    parts: Parts<MemDrive>,
    drive: u8,
) -> Result<Parts<MemDrive>, RemovalFault>
    requires note { parts.note ≡ None }
    ensures shortened { IfOk result (λ p. (was : TiersView) (what : Shown) → HasBoth was what → Outlives (parts_of was) (held_view parts)
        → lost_of (held_view parts) drive ≡ true → length parts.drives.items ≡ drive + 1 → 3 ≤ drive → IsShortenedTo what parts.shape parts.groups drive p) }
    ensures few { IfOk result (λ p. length p.drives.items ≤ 16) }
{
    let mut parts = emptied(alloc, parts, drive)?;
    let Some(_last) = parts.drives.pop() else {
        return Err(RemovalFault::Misfit);
    };
    test_present(&parts.drives)?;
    Ok(parts)
}
