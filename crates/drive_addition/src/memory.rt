// One more drive for an array whose drives are in memory.
ghost use Rattle.std.specs.Prelude.{◌≡◌, ◌+◌, None, length, IfOk};
ghost use Rattle.byte_store.specs.Lasting.{Shown};
ghost use Rattle.tiered_array.specs.Views.{TiersView};
ghost use Rattle.unit_store.specs.Fit.{IsFit};
ghost use Rattle.unit_store.specs.Memory.{held_units};
ghost use Rattle.journaled_store.specs.Left.{HasBoth};
ghost use Rattle.journaled_store.specs.Outlasting.{parts_of};
ghost use Rattle.array_recovery.specs.Reopened.{Outlives};
ghost use Rattle.array_batch.specs.Arrays.{AreHeldPresent, held_view};
ghost use Rattle.drive_addition.specs.Grown.{IsGrownTo};

use crate::fault::AdditionFault;
use array_batch::{parts_in, test_present};
use array_expansion::expand;
use array_recovery::tiers_of;
use extents::MemDrive;
use std::alloc::Global;
use unit_store::Parts;

/// The parts of the array that these parts hold, on one drive more, over which its extents are spread with the others.
pub(crate) fn grown(alloc: Global, parts: Parts<MemDrive>) -> Result<Parts<MemDrive>, AdditionFault>
    requires note { parts.note ≡ None }
    ensures grown { IfOk result (λ p. (was : TiersView) (what : Shown) → HasBoth was what → Outlives (parts_of was) (held_view parts)
        → IsGrownTo what parts.shape parts.groups (length parts.drives.items + 1) p) }
    ensures fit { IfOk result (λ p. IsFit held_units p) }
    ensures present { IfOk result (λ p. AreHeldPresent p.drives.items) }
{
    if !parts.is_fit() {
        return Err(AdditionFault::Misfit);
    }
    let mut tiers = tiers_of(alloc, parts)?;
    expand(alloc, &mut tiers)?;
    let parts = parts_in(alloc, tiers)?;
    test_present(&parts.drives)?;
    Ok(parts)
}
