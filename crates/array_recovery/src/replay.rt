// The writes of a journal's batches, made in memory.
ghost use Rattle.std.specs.Prelude.{◌≡◌, ◌∷◌, [], ℕ, length, OnOk};
ghost use Rattle.extent_groups.specs.Cells.{Cells};
ghost use Rattle.extent_groups.specs.Planned.{after, with_unit};
ghost use Rattle.vault.specs.Images.{Image, flat};
ghost use Rattle.vault.specs.Marks.{Has};
ghost use Rattle.array_recovery.specs.Found.{AreFormed, HaveUnits, OnlyRead, TakesWritten};

use crate::fault::RecoveryFault;
use extent_groups::Place;
use extents::{DRIVES, Drive, MemDrive};
use rotten_units::{is_lost, put};
use vault::{Batch, Places, Vault};

// Makes one write. Its place isn't rotten any more.
#[tactic(auto, using(crate::proofs::Patched::takes_one))]
fn replay_unit(
    caches: &mut [MemDrive],
    rotten: &mut Places,
    lost: &[bool; DRIVES],
    place: Place,
    unit: &[u8],
) -> Result<(), RecoveryFault>
    ensures formed { (count size : ℕ) → AreFormed count size caches.old → AreFormed count size caches.new }
    ensures units { OnOk result ((count size : ℕ) (c : Cells) → AreFormed count size caches.old → HaveUnits lost.now c caches.old
        → HaveUnits lost.now (with_unit c (record { place = place; unit = unit.now })) caches.new) }
    ensures taken { TakesWritten (Has rotten.old.marks.items) (Has rotten.new.marks.items) (record { place = place; unit = unit.now } ∷ []) }
{
    let Place { drive, address } = place;
    rotten.take(place);
    let number = drive as usize;
    if is_lost(lost, number) || number >= caches.len() {
        return Ok(());
    }
    if address >= caches[number].units() {
        return Ok(());
    }
    if unit.len() != caches[number].unit_bytes() {
        return Err(RecoveryFault::Missing { drive, address });
    }
    put(&mut caches[number], address, unit);
    Ok(())
}

// Makes a batch's writes.
fn replay_batch(
    caches: &mut [MemDrive],
    rotten: &mut Places,
    lost: &[bool; DRIVES],
    batch: &Batch,
) -> Result<(), RecoveryFault>
    ensures formed { (count size : ℕ) → AreFormed count size caches.old → AreFormed count size caches.new }
    ensures units { OnOk result ((count size : ℕ) (c : Cells) → AreFormed count size caches.old → HaveUnits lost.now c caches.old
        → HaveUnits lost.now (after c batch.now) caches.new) }
    ensures taken { OnOk result (TakesWritten (Has rotten.old.marks.items) (Has rotten.new.marks.items) batch.now) }
{
    for index in 0..batch.len() {
        let place = batch.place(index);
        replay_unit(caches, rotten, lost, place, batch.unit(index))?;
    }
    Ok(())
}

/// Makes the writes of the vault's journal, in their order, but those for lost drives. The places of all of them aren't rotten any more.
/// Each batch is read into `batch`.
pub(crate) fn replay<V: Vault>(
    vault: &mut V,
    batch: &mut Batch,
    caches: &mut [MemDrive],
    rotten: &mut Places,
    lost: &[bool; DRIVES],
) -> Result<(), RecoveryFault>
    ensures stays { V.known vault.old → V.known vault.new }
    ensures read { V.known vault.old → OnlyRead V.seen V.may_leave V.moment V.left_since vault.old vault.new }
    ensures formed { (count size : ℕ) → AreFormed count size caches.old → AreFormed count size caches.new }
    ensures units { V.known vault.old → OnOk result ((count size : ℕ) (c : Cells) → AreFormed count size caches.old
        → HaveUnits lost.now c caches.old → HaveUnits lost.now (after c (flat (Image.journal (V.seen vault.old)))) caches.new) }
    ensures taken { V.known vault.old → OnOk result (TakesWritten (Has rotten.old.marks.items) (Has rotten.new.marks.items) (flat (Image.journal (V.seen vault.old)))) }
{
    let count = vault.batches()?;
    for index in 0..count {
        vault.read_batch(index, batch)?;
        replay_batch(caches, rotten, lost, batch)?;
    }
    Ok(())
}
