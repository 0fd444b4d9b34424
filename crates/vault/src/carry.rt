// The units of the journal's batches are written to their places: in a run from time to time, and at a restart first.
ghost use Rattle.std.specs.Prelude.{◌≡◌, ◌≢◌, ◌<◌, ◌++◌, ◌∷◌, ℕ, List, false, slice_get, length, Some, OnOk, IfOk, IfErr, IsTrue};
ghost use Rattle.extent_groups.specs.Cells.{Cells};
ghost use Rattle.extent_groups.specs.Planned.{Intended, after};
ghost use Rattle.extent_groups.specs.declared.place.Place.{Place};
ghost use Rattle.vault.specs.Images.{Image, SameOn, Matches, recovered, flat, is_lost as is_lost_of};
ghost use Rattle.vault.specs.Marks.{HasPlaces};
ghost use Rattle.vault.specs.Moments.{LeavesOnly, AreLogged, IsSettled, IsPreserved, IsPartApplied, IsWithinJournal, IsWrittenTo, HasCause};
ghost use Rattle.vault.specs.declared.store.Stop.{Stop};

use crate::batch::Batch;
use crate::places::Places;
use crate::store::{Vault, VaultError};
use extent_groups::Place;
use extents::DRIVES;

/// Writes the last unit of each place in the journal, but those for lost drives, and empties the journal. All batches are durable
/// before. After a restart, when what calls find is what was left, this is the recovery. It may be stopped too, at any moment, and
/// leaves the same units. Each batch is read into `batch`. Where a drive fails, it can be tried again without that drive.
pub fn settle<V: Vault>(
    vault: &mut V,
    batch: &mut Batch,
    lost: &[bool; DRIVES],
) -> Result<(), VaultError>
    ensures stays { V.known vault.old → V.known vault.new }
    ensures settled { V.known vault.old → AreLogged V.seen V.may_leave lost.now vault.old → OnOk result (IsSettled V.seen V.may_leave lost.now vault.old vault.new) }
    ensures kept { V.known vault.old → AreLogged V.seen V.may_leave lost.now vault.old → IfErr result (λ e. e ≢ VaultError.Journal → IsPreserved V.seen V.may_leave lost.now vault.old vault.new) }
    ensures any_moment { V.known vault.old → AreLogged V.seen V.may_leave lost.now vault.old → (stop : Stop)
        → LeavesOnly V.moment V.left_since stop vault.old vault.new (Matches lost.now (recovered (V.seen vault.old))) }
    ensures cause { V.known vault.old → HasCause (λ d. is_lost_of lost.now d ≡ false) (V.faults vault.old) (V.faults vault.new) result }
{
    write_batches(vault, batch, lost)?;
    // Before the journal is emptied: else a loss of power could leave neither a unit nor the batch that has it.
    vault.sync_units(lost)?;
    vault.clear()
}

// Writes the units of the journal's batches: of each place the last one, or all of them in their order where the places that were
// written can't be kept.
fn write_batches<V: Vault>(
    vault: &mut V,
    batch: &mut Batch,
    lost: &[bool; DRIVES],
) -> Result<(), VaultError>
    ensures stays { V.known vault.old → V.known vault.new }
    ensures underway { V.known vault.old → IsPartApplied V.seen V.may_leave V.moment V.left_since lost.now vault.old vault.new }
    ensures written { V.known vault.old → OnOk result (SameOn lost.now (Image.cells (V.seen vault.new)) (recovered (V.seen vault.old))) }
    ensures cause { V.known vault.old → HasCause (λ d. is_lost_of lost.now d ≡ false) (V.faults vault.old) (V.faults vault.new) result }
{
    // Each place once takes fewer writes, but a set of places; all in order takes none.
    if write_last(vault, batch, lost)? {
        return Ok(());
    }
    write_all(vault, batch, lost)
}

// Writes the last unit of each place, the last batch first. False where the places can't be kept: then some units are written.
// Those are written again by `write_all`, since the journal is as it was.
fn write_last<V: Vault>(
    vault: &mut V,
    batch: &mut Batch,
    lost: &[bool; DRIVES],
) -> Result<bool, VaultError>
    ensures stays { V.known vault.old → V.known vault.new }
    ensures underway { V.known vault.old → IsPartApplied V.seen V.may_leave V.moment V.left_since lost.now vault.old vault.new }
    ensures written { V.known vault.old → IfOk result (λ all. IsTrue all → SameOn lost.now (Image.cells (V.seen vault.new)) (recovered (V.seen vault.old))) }
    ensures cause { V.known vault.old → HasCause (λ d. is_lost_of lost.now d ≡ false) (V.faults vault.old) (V.faults vault.new) result }
{
    let mut made = Places::new(batch.allocator());
    let count = vault.batches()?;
    for done in 0..count {
        // The last batch first, so that the first unit of a place is the one that stays.
        vault.read_batch(count - 1 - done, batch)?;
        if !write_fresh(vault, batch, lost, &mut made)? {
            return Ok(false);
        }
    }
    Ok(true)
}

// Writes the units of a batch that is in the journal, the last first, but those of places that have a later one. Puts the places
// into the set; false where they can't be.
fn write_fresh<V: Vault>(
    vault: &mut V,
    batch: &Batch,
    lost: &[bool; DRIVES],
    made: &mut Places,
) -> Result<bool, VaultError>
    ensures stays { V.known vault.old → V.known vault.new }
    ensures underway { V.known vault.old → IsWithinJournal batch.now (V.seen vault.old) → IsPartApplied V.seen V.may_leave V.moment V.left_since lost.now vault.old vault.new }
    ensures written { V.known vault.old → (base : Cells) (later : List Intended) → HasPlaces made.old.marks.items later
        → SameOn lost.now (Image.cells (V.seen vault.old)) (after base later)
        → IfOk result (λ all. IsTrue all → HasPlaces made.new.marks.items (batch.now ++ later) × SameOn lost.now (Image.cells (V.seen vault.new)) (after base (batch.now ++ later))) }
    ensures cause { V.known vault.old → HasCause (λ d. is_lost_of lost.now d ≡ false) (V.faults vault.old) (V.faults vault.new) result }
{
    let count = batch.len();
    for done in 0..count {
        let index = count - 1 - done;
        if !write_once(vault, batch.place(index), batch.unit(index), lost, made)? {
            return Ok(false);
        }
    }
    Ok(true)
}

// Writes a unit that is in the journal, unless its place has a later one. Puts the place into the set; false where it can't be.
fn write_once<V: Vault>(
    vault: &mut V,
    place: Place,
    unit: &[u8],
    lost: &[bool; DRIVES],
    made: &mut Places,
) -> Result<bool, VaultError>
    ensures stays { V.known vault.old → V.known vault.new }
    ensures underway { V.known vault.old → IsWrittenTo (flat (Image.journal (V.seen vault.old))) place
        → IsPartApplied V.seen V.may_leave V.moment V.left_since lost.now vault.old vault.new }
    ensures written { V.known vault.old → (base : Cells) (later : List Intended) → HasPlaces made.old.marks.items later
        → SameOn lost.now (Image.cells (V.seen vault.old)) (after base later)
        → IfOk result (λ all. IsTrue all → HasPlaces made.new.marks.items (record { place = place; unit = unit.now } ∷ later)
        × SameOn lost.now (Image.cells (V.seen vault.new)) (after base (record { place = place; unit = unit.now } ∷ later))) }
    ensures cause { V.known vault.old → HasCause (λ d. is_lost_of lost.now d ≡ false) (V.faults vault.old) (V.faults vault.new) result }
{
    if made.has(place) {
        return Ok(true);
    }
    if !made.put(place) {
        return Ok(false);
    }
    if !is_lost(lost, place.drive) {
        vault.write_unit(place, unit)?;
    }
    Ok(true)
}

// Writes all units of the journal's batches, in their order.
fn write_all<V: Vault>(
    vault: &mut V,
    batch: &mut Batch,
    lost: &[bool; DRIVES],
) -> Result<(), VaultError>
    ensures stays { V.known vault.old → V.known vault.new }
    ensures underway { V.known vault.old → IsPartApplied V.seen V.may_leave V.moment V.left_since lost.now vault.old vault.new }
    ensures written { V.known vault.old → OnOk result (SameOn lost.now (Image.cells (V.seen vault.new)) (recovered (V.seen vault.old))) }
    ensures cause { V.known vault.old → HasCause (λ d. is_lost_of lost.now d ≡ false) (V.faults vault.old) (V.faults vault.new) result }
{
    let count = vault.batches()?;
    for index in 0..count {
        vault.read_batch(index, batch)?;
        write_units(vault, batch, lost)?;
    }
    Ok(())
}

// Writes the units of a batch that is in the journal. In their order: a later unit of a place goes over an earlier one.
fn write_units<V: Vault>(
    vault: &mut V,
    batch: &Batch,
    lost: &[bool; DRIVES],
) -> Result<(), VaultError>
    ensures stays { V.known vault.old → V.known vault.new }
    ensures underway { V.known vault.old → IsWithinJournal batch.now (V.seen vault.old) → IsPartApplied V.seen V.may_leave V.moment V.left_since lost.now vault.old vault.new }
    ensures written { V.known vault.old → OnOk result (SameOn lost.now (Image.cells (V.seen vault.new)) (after (Image.cells (V.seen vault.old)) batch.now)) }
    ensures cause { V.known vault.old → HasCause (λ d. is_lost_of lost.now d ≡ false) (V.faults vault.old) (V.faults vault.new) result }
{
    for index in 0..batch.len() {
        let place = batch.place(index);
        if is_lost(lost, place.drive) {
            continue;
        }
        vault.write_unit(place, batch.unit(index))?;
    }
    Ok(())
}

// Whether a drive is among the lost ones.
fn is_lost(lost: &[bool; DRIVES], drive: u8) -> bool
    ensures { result ≡ is_lost_of lost.now drive }
{
    match lost.get(drive as usize) {
        Some(lost) => *lost,
        None => false,
    }
}
