// Other groups for an array whose drives are in memory.
ghost use Rattle.std.specs.Prelude.{◌≡◌, None, length, IfOk};
ghost use Rattle.byte_store.specs.Lasting.{Shown};
ghost use Rattle.tiered_array.specs.Views.{TiersView};
ghost use Rattle.unit_store.specs.Fit.{IsFit};
ghost use Rattle.unit_store.specs.Memory.{held_units};
ghost use Rattle.journaled_store.specs.Left.{HasBoth};
ghost use Rattle.journaled_store.specs.Outlasting.{parts_of};
ghost use Rattle.array_recovery.specs.Reopened.{Outlives};
ghost use Rattle.array_batch.specs.Arrays.{AreHeldPresent, held_view};
ghost use Rattle.array_batch.specs.Changes.{HasPartsWith};
ghost use Rattle.group_changes.specs.Changed.{IsChanged};

use crate::apply::apply;
use crate::change::GroupChange;
use crate::fault::GroupChangeFault;
use array_batch::{parts_in, test_present};
use array_recovery::tiers_of;
use extents::MemDrive;
use std::alloc::Global;
use tiered_array::Tiers;
use unit_store::Parts;

/// The parts of the array that these parts hold, with its groups changed.
pub(crate) fn regrouped(
    alloc: Global,
    parts: Parts<MemDrive>,
    change: &GroupChange,
) -> Result<Parts<MemDrive>, GroupChangeFault>
    requires note { parts.note ≡ None }
    ensures changed { IfOk result (λ p. (was : TiersView) (what : Shown) → HasBoth was what → Outlives (parts_of was) (held_view parts)
        → HasPartsWith (IsChanged change.now parts.shape (length parts.drives.items) parts.groups) what (length parts.drives.items) p) }
    ensures fit { IfOk result (λ p. IsFit held_units p) }
    ensures present { IfOk result (λ p. AreHeldPresent p.drives.items) }
{
    if !parts.is_fit() {
        return Err(GroupChangeFault::Misfit);
    }
    let found = tiers_of(alloc, parts)?;
    let mut world = found.into_world();
    apply(alloc, &mut world, change)?;
    let tiers = Tiers::new(alloc, world)?;
    let parts = parts_in(alloc, tiers)?;
    test_present(&parts.drives)?;
    Ok(parts)
}
