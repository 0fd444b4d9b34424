//! An array rebuilt from its drives.
ghost use Rattle.std.specs.Prelude.{◌≡◌, None, IfOk, IsNone};
ghost use Rattle.unit_store.specs.Fit.{IsFit};
ghost use Rattle.unit_store.specs.Losses.{LosesOnly};
ghost use Rattle.unit_store.specs.Memory.{held_units, held_lost, held_failures};
ghost use Rattle.header_scan.specs.Restarts.{AreAllSound};
ghost use Rattle.raid_images.specs.Recovered.{IsRecovered};

use consistency_check::find_unsound;
use extent_groups::{GROUPS, GroupTable, SLOTS};
use extents::MemDrive;
use header_scan::{ScanFault, restart};
use std::alloc::{AllocError, Global};
use step_core::{Array, Plain};
use unit_store::Parts;

/// Why no array is rebuilt.
#[derive(Debug, Drop)]
pub(crate) enum Lacking {
    /// The parts don't fit one another.
    Misfit,
    /// The copies of this slot differ, or its row doesn't add up to its parity.
    Unsound(u16),
    /// The headers have a fault.
    Fault(ScanFault),
}

// A claim of each slot of each group. `restart` keeps those of the newest places, which only its scan finds.
fn claims_of(alloc: Global, groups: &GroupTable) -> Result<Vec<Plain>, AllocError> {
    let mut claims = Vec::new(alloc);
    for group in 0..GROUPS as u16 {
        for index in 0..groups.slots_of(group) {
            let slot = (SLOTS * group).saturating_add(index);
            claims.push(Plain { slot })?;
        }
    }
    Ok(claims)
}

// The lowest slot that isn't sound, if there is one.
fn find(alloc: Global, parts: &mut Parts<MemDrive>) -> Result<Option<u16>, AllocError>
    requires fit { IsFit held_units parts.old }
    ensures none { IfOk result (λ found. IsNone found → AreAllSound held_units held_lost parts.new) }
    ensures only { LosesOnly held_units held_lost held_failures parts.old parts.new }
    ensures fit { IsFit held_units parts.new }
{
    let size = parts.groups.shape().unit_bytes();
    let mut unit = vec![in alloc; 0u8; size]?;
    let mut other = vec![in alloc; 0u8; size]?;
    Ok(find_unsound(parts, &mut unit, &mut other))
}

/// The array that the drives hold, rebuilt from the headers of sound parts. Soundness is tested first, because a restart would
/// take the first of two copies that differ.
pub(crate) fn recover(
    alloc: Global,
    parts: Parts<MemDrive>,
) -> Result<Array<MemDrive, Plain>, Lacking>
    requires { parts.note ≡ None }
    ensures { IfOk result (IsRecovered parts) }
{
    let mut parts = parts;
    if !parts.is_fit() {
        return Err(Lacking::Misfit);
    }
    match find(alloc, &mut parts) {
        Ok(None) => {}
        Ok(Some(slot)) => return Err(Lacking::Unsound(slot)),
        Err(_) => return Err(Lacking::Fault(ScanFault::Memory)),
    }
    let Ok(claims) = claims_of(alloc, &parts.groups) else {
        return Err(Lacking::Fault(ScanFault::Memory));
    };
    match restart(alloc, parts, claims) {
        Ok((array, _rest)) => Ok(array),
        Err((fault, _parts, _claims)) => Err(Lacking::Fault(fault)),
    }
}
