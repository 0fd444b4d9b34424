// An array whose drives are in memory, taken apart.
ghost use Rattle.std.specs.Prelude.{◌≡◌, ◌≤◌, length, IfOk, OnOk};
ghost use Rattle.unit_store.specs.Fit.{IsFit};
ghost use Rattle.unit_store.specs.Memory.{held_units};
ghost use Rattle.journaled_store.specs.Outlasting.{parts_of};
ghost use Rattle.array_batch.specs.Arrays.{AreHeldPresent, held_view};

use crate::fault::BatchFault;
use extents::{Drive, MemDrive};
use std::alloc::Global;
use tiered_array::Tiers;
use unit_store::Parts;

/// The parts of an array; what is kept next to it is given up.
pub fn parts_in(alloc: Global, tiers: Tiers<MemDrive>) -> Result<Parts<MemDrive>, BatchFault>
    ensures parts { IfOk result (λ p. held_view p ≡ parts_of tiers) }
    ensures fit { IfOk result (λ p. IsFit held_units p) }
{
    match tiers.into_world().into_array().into_parts(alloc) {
        Ok((parts, _claims)) => Ok(parts),
        Err(_array) => Err(BatchFault::Memory),
    }
}

/// Tests that no drive is lost.
pub fn test_present(drives: &[MemDrive]) -> Result<(), BatchFault>
    requires { length drives.now ≤ 16 }
    ensures { OnOk result (AreHeldPresent drives.now) }
{
    for number in 0..drives.len() {
        if drives[number].is_lost() {
            return Err(BatchFault::Lost(number as u8));
        }
    }
    Ok(())
}
