// An array put together from its parts.
ghost use Rattle.std.specs.Prelude.{◌≡◌, ℕ, List, None, false, length, slice_index, IfOk};
ghost use Rattle.map_join.specs.Maps.{IsSame};
ghost use Rattle.unit_store.specs.Views.{view_of};
ghost use Rattle.slot_tables.specs.Views.{key_at};
ghost use Rattle.tiered_array.specs.Views.{TiersView};
ghost use Rattle.array_store.specs.Blocks.{Holds};
ghost use Rattle.array_store.specs.Stores.{IsStoreOf};
ghost use Rattle.array_recovery.specs.Reopened.{LosesMore, Outlives};
ghost use Rattle.journaled_store.specs.Left.{HasKeys};
ghost use Rattle.journaled_store.specs.Outlasting.{parts_of};

use crate::fault::RecoveryFault;
use array_store::ArrayStore;
use extent_groups::{GROUPS, GroupTable, SLOTS};
use extents::Drive;
use flat_machine::restart_laws;
use header_scan::{ScanFault, restart};
use std::alloc::{AllocError, Global};
use step_core::{Plain, World};
use tiered_array::Tiers;
use unit_store::Parts;

// A claim of each slot of each group.
fn claims_of(alloc: Global, groups: &GroupTable) -> Result<Vec<Plain>, AllocError> {
    let mut claims = Vec::new(alloc);
    for group in 0..GROUPS as u16 {
        for index in 0..groups.slots_of(group) {
            let slot = (SLOTS * group).saturating_add(index);
            claims.push(Plain { slot })?;
        }
    }
    Ok(claims)
}

// What a scan's fault means.
fn fault_of(fault: ScanFault) -> RecoveryFault {
    match fault {
        ScanFault::Memory => RecoveryFault::Memory,
        ScanFault::Gone(slot) => RecoveryFault::Gone(slot),
        _ => RecoveryFault::Unsound,
    }
}

/// The array that parts without a note hold, and what is kept next to it: as `header_scan::restart` finds it. Refused with `Gone` where
/// too many drives are lost to read a slot, with `Unsound` where the headers make no array.
pub fn tiers_of<D: Drive + Drop>(alloc: Global, parts: Parts<D>) -> Result<Tiers<D>, RecoveryFault>
    requires note { parts.note ≡ None }
    ensures bytes { IfOk result (λ tiers. (was : TiersView) (bytes : List ℕ) → Holds was bytes
        → Outlives was.world.array.parts (view_of D.units D.lost D.failures parts) → Holds tiers bytes) }
    ensures map { IfOk result (λ tiers. (was : TiersView) (keys : List ℕ) → HasKeys was keys
        → Outlives was.world.array.parts (view_of D.units D.lost D.failures parts) → IsSame (key_at tiers.world.array) (slice_index keys)) }
    ensures same { IfOk result (λ tiers. LosesMore (view_of D.units D.lost D.failures parts) (parts_of tiers)) }
{
    if !parts.is_fit() {
        return Err(RecoveryFault::Unsound);
    }
    let claims = claims_of(alloc, &parts.groups)?;
    let array = match restart(alloc, parts, claims) {
        Ok((array, _free)) => array,
        Err((fault, _parts, _claims)) => return Err(fault_of(fault)),
    };
    let Ok(world) = World::of(alloc, array) else {
        return Err(RecoveryFault::Memory);
    };
    restart_laws();
    Ok(Tiers::new(alloc, world)?)
}

/// The first `size` bytes of the array that the parts hold: those of an array whose groups these are, and whose drives these are,
/// but for more that are lost. Its block map is that array's.
pub(crate) fn rebuild<D: Drive + Drop>(
    alloc: Global,
    parts: Parts<D>,
    size: u64,
) -> Result<ArrayStore<D>, RecoveryFault>
    requires note { parts.note ≡ None }
    ensures bytes { IfOk result (λ s. (was : TiersView) (bytes : List ℕ) → Holds was bytes → length bytes ≡ size
        → Outlives was.world.array.parts (view_of D.units D.lost D.failures parts)
        → IsStoreOf s.tiers s.size s.unsynced (record { bytes = bytes; unsynced = false })) }
    ensures map { IfOk result (λ s. (was : TiersView) (keys : List ℕ) → HasKeys was keys
        → Outlives was.world.array.parts (view_of D.units D.lost D.failures parts) → IsSame (key_at s.tiers.world.array) (slice_index keys)) }
    ensures size { IfOk result (λ s. s.size ≡ size) }
    ensures same { IfOk result (λ s. LosesMore (view_of D.units D.lost D.failures parts) (parts_of s.tiers)) }
{
    let tiers = tiers_of(alloc, parts)?;
    let shape = tiers.world().array().shape();
    if size > u64::from(shape.blocks) * u64::from(shape.payload) {
        return Err(RecoveryFault::Unsound);
    }
    Ok(ArrayStore::new(alloc, tiers, size)?)
}
