// The parts of an array that is stopped, and restarts of them.
ghost use Rattle.std.specs.Prelude.{◌≡◌, ◌∷◌, [], ℕ, Some, IsTrue, slice_get};
ghost use Rattle.unit_store.specs.Fit.{IsFit};
ghost use Rattle.unit_store.specs.Memory.{held_units};
ghost use Rattle.unit_store.specs.Micros.{AreWrites};
ghost use Rattle.unit_store.specs.declared.micro.Micro.{Micro};

use crate::setup::Memory;
use crate::trouble::Trouble;
use extent_groups::{GroupTable, SLOTS};
use extents::Drive;
use header_scan::{ScanFault, restart};
use std::alloc::Global;
use step_core::{MemDrive, Plain};
use unit_store::{Micro, Parts, run_micro};

/// The parts of an array of drives in memory.
pub(crate) type Stopped = Parts<MemDrive>;

/// The array of a restart; or its fault, with the parts and the claims.
pub(crate) type Restarted = Result<Memory, (ScanFault, Stopped, Vec<Plain>)>;

// Whether the parts fit one another.
fn is_ready(parts: &Stopped) -> bool
    ensures { IsTrue result → IsFit held_units parts.now }
{
    parts.is_fit()
}

// Whether what the entry writes is a unit, to a place of one of the drives. `run_micro` requires it of a list that may come
// from anywhere.
fn is_write(parts: &Stopped, micro: &Micro) -> bool
    ensures { IsTrue result → AreWrites held_units parts.now (micro.now ∷ []) }
{
    let Micro::Write { drive, at, unit } = micro else {
        return true;
    };
    let Some(drive) = parts.drives.get(*drive as usize) else {
        return false;
    };
    *at < drive.units() && unit.len() == parts.groups.shape().unit_bytes()
}

// Whether what each entry writes is a unit, to a place of one of the drives.
fn is_each_write(parts: &Stopped, list: &[Micro]) -> bool
    ensures { IsTrue result → (k : ℕ) (m : Micro) → slice_get list.now k ≡ Some m → AreWrites held_units parts.now (m ∷ []) }
{
    list.iter().all(|micro| is_write(parts, micro))
}

// Whether what the list writes are units, to places of the drives.
fn are_writes(parts: &Stopped, list: &Vec<Micro>) -> bool
    ensures { IsTrue result → AreWrites held_units parts.now list.now.items }
{
    is_each_write(parts, list)
}

/// The parts of an array, of which claims and tickets are forgotten. A stop leaves neither.
pub(crate) fn stopped(alloc: Global, array: Memory) -> Result<Stopped, Trouble> {
    match array.into_parts(alloc) {
        Ok((parts, _claims)) => Ok(parts),
        Err(_) => Err(Trouble::Memory),
    }
}

/// Loses these drives.
pub(crate) fn lose(parts: &mut Stopped, drives: &[u8]) -> Result<(), Trouble> {
    for drive in drives {
        if usize::from(*drive) >= parts.drives.len() || !is_ready(parts) {
            return Err(Trouble::Form);
        }
        parts.lose(*drive);
    }
    Ok(())
}

/// Carries out the first `n` entries of a list.
pub(crate) fn run(parts: &mut Stopped, list: Vec<Micro>, n: usize) -> Result<(), Trouble> {
    if !is_ready(parts) || !are_writes(parts, &list) {
        return Err(Trouble::Form);
    }
    run_micro(parts, list, n);
    Ok(())
}

// Whether the slot is one of a made group.
fn is_slot(groups: &GroupTable, slot: u16) -> bool {
    slot % SLOTS < groups.slots_of(slot / SLOTS)
}

/// A claim of each slot of the made groups.
pub(crate) fn all_claims(alloc: Global, groups: &GroupTable) -> Result<Vec<Plain>, Trouble> {
    let mut claims = Vec::new(alloc);
    for slot in 0..=u16::MAX {
        if is_slot(groups, slot) {
            claims.push(Plain { slot })?;
        }
    }
    Ok(claims)
}

/// Restarts the parts with these claims.
pub(crate) fn restarted(
    alloc: Global,
    parts: Stopped,
    claims: Vec<Plain>,
) -> Result<Restarted, Trouble> {
    if !is_ready(&parts) {
        return Err(Trouble::Form);
    }
    match restart(alloc, parts, claims) {
        Ok((array, _others)) => Ok(Ok(array)),
        Err((ScanFault::Memory, _, _)) => Err(Trouble::Memory),
        Err(fault) => Ok(Err(fault)),
    }
}

/// Restarts the parts with the claims of all slots.
pub(crate) fn restarted_whole(alloc: Global, parts: Stopped) -> Result<Restarted, Trouble> {
    let claims = all_claims(alloc, &parts.groups)?;
    restarted(alloc, parts, claims)
}
