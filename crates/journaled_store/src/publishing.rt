// What a call of the array has written, kept by the vault as one batch.
ghost use Rattle.std.specs.Prelude.{◌≡◌, ◌≢◌, ℕ, List, Bool, length, true, OnOk};
ghost use Rattle.extent_groups.specs.Cells.{Cells};
ghost use Rattle.extent_groups.specs.Planned.{after};
ghost use Rattle.unit_store.specs.Views.{DriveView};
ghost use Rattle.vault.specs.Images.{Image, Matches, recovered};
ghost use Rattle.vault.specs.Moments.{LeavesOnly, IsLogged, RepresentsSome};
ghost use Rattle.vault.specs.declared.store.Stop.{Stop};
ghost use Rattle.vault.specs.declared.store.Stop.TheVariants.{Killed};
ghost use Rattle.journaled_store.specs.Steps.{HasDrives, HasMarks, IsBeforeOrNow, IsInStep, IsPersisted, IsUpToDate, HasMarksAfter, SameTable, UnlessSync, fault_of};
ghost use Rattle.journaled_store.specs.Picking.{IsLookedUp};

use crate::append::append;
use crate::changes::{Changes, note_lost};
use array_store::ArrayStore;
use byte_store::StoreFault;
use cached_drive::CachedDrive;
use extents::DRIVES;
use history::Chronicle;
use vault::{Vault, VaultError, flush};

/// What a vault's refusal means for a store.
pub(crate) fn fault_of(error: VaultError) -> StoreFault
    ensures { result ≡ fault_of error }
{
    match error {
        VaultError::Memory | VaultError::Misfit => StoreFault::Memory,
        VaultError::Journal | VaultError::Drive(_) => StoreFault::Sync,
    }
}

/// Puts what each drive has written since into the batch, and which are lost. False if out of memory: some of it may be there.
pub(crate) fn collect<N: Chronicle>(
    store: &mut ArrayStore<CachedDrive<N>>,
    changes: &mut Changes<N>,
) -> bool
    ensures same { (store.new.tiers ≡ store.old.tiers) × (store.new.size ≡ store.old.size) × (store.new.unsynced ≡ store.old.unsynced) }
    ensures step { (lost : List Bool) (c : Cells) → IsInStep lost changes.old.keeper changes.old.batch c
        → IsInStep lost changes.new.keeper changes.new.batch c }
    ensures noted { (c : Cells) → HasMarksAfter changes.old.noted changes.old.batch c → HasMarksAfter changes.new.noted changes.new.batch c }
    ensures rest { (c : Cells) → SameTable (after c changes.new.batch) (after c changes.old.batch) }
    ensures has { result ≡ true → (lost : List Bool) (c : Cells) → IsInStep lost changes.old.keeper changes.old.batch c
        → HasDrives lost store.old.tiers.world.array.parts.drives (after c changes.new.batch) }
    ensures marks { result ≡ true → HasMarks store.old.tiers.world.array.parts.drives changes.new.noted }

    // The unit that is asked for.
    ensures place { (changes.new.lookup.drive ≡ changes.old.lookup.drive) × (changes.new.lookup.address ≡ changes.old.lookup.address) }
    ensures picked { result ≡ true → IsLookedUp store.old.tiers.world.array.parts.drives changes.new.lost changes.new.next changes.new.lookup }
{
    changes.next = 0;
    if changes.keeper.hired() > DRIVES as u64 {
        return false;
    }
    if !store.visit_drives(changes) {
        return false;
    }
    if u64::from(changes.next) > changes.keeper.hired() {
        return false;
    }
    note_lost(changes).is_ok()
}

/// Makes one batch of all that the drives have written and of which are lost, and appends it to the vault's journal. `Memory` if out
/// of memory, or if the batch doesn't fit: the next call has it all. `Sync` where the journal failed.
pub fn publish<N: Chronicle, V: Vault>(
    store: &mut ArrayStore<CachedDrive<N>>,
    changes: &mut Changes<N>,
    vault: &mut V,
) -> Result<(), StoreFault>
    ensures stays { V.known vault.old → V.known vault.new }
    ensures same { (store.new.tiers ≡ store.old.tiers) × (store.new.size ≡ store.old.size) × (store.new.unsynced ≡ store.old.unsynced) }
    ensures step { V.known vault.old → (lost : List Bool) → IsUpToDate lost changes.old.keeper changes.old.noted changes.old.batch (recovered (V.seen vault.old))
        → UnlessSync result (IsUpToDate lost changes.new.keeper changes.new.noted changes.new.batch (recovered (V.seen vault.new))) }
    ensures rest { V.known vault.old → (lost : List Bool) → IsUpToDate lost changes.old.keeper changes.old.noted changes.old.batch (recovered (V.seen vault.old))
        → UnlessSync result (SameTable (recovered (V.seen vault.new)) (recovered (V.seen vault.old))) }

    // A kill after Ok leaves all that the drives hold, and which are lost. A loss of power leaves as many batches as it left before.
    ensures kept { V.known vault.old → (lost : List Bool) → IsUpToDate lost changes.old.keeper changes.old.noted changes.old.batch (recovered (V.seen vault.old))
        → OnOk result (IsPersisted lost store.old.tiers.world.array.parts.drives (recovered (V.seen vault.new))) }
    ensures killed { V.known vault.old → (lost : List Bool) → IsLogged V.seen V.may_leave lost Killed vault.old (length (Image.journal (V.seen vault.old)))
        → UnlessSync result (IsLogged V.seen V.may_leave lost Killed vault.new (length (Image.journal (V.seen vault.new)))) }
    ensures added { V.known vault.old → (lost : List Bool) (stop : Stop) (low : ℕ) → IsLogged V.seen V.may_leave lost stop vault.old low
        → UnlessSync result (IsLogged V.seen V.may_leave lost stop vault.new low) }
    ensures batches { V.known vault.old → (lost : List Bool) → IsUpToDate lost changes.old.keeper changes.old.noted changes.old.batch
        (recovered (V.seen vault.old))
        → UnlessSync result ((low : ℕ) (i : Image) → RepresentsSome lost (Image.cells (V.seen vault.new)) low (Image.journal (V.seen vault.new)) i
        → IsBeforeOrNow lost (V.seen vault.old) low store.old.tiers.world.array.parts.drives i) }

    // A stop at any moment leaves the units of before, or those of the drives now. By a loss of power some of the last batches may be
    // missing, none of those of the last flush.
    ensures any_moment { V.known vault.old → (lost : List Bool) → IsUpToDate lost changes.old.keeper changes.old.noted changes.old.batch
        (recovered (V.seen vault.old))
        → (stop : Stop) (low : ℕ) → IsLogged V.seen V.may_leave lost stop vault.old low
        → LeavesOnly V.moment V.left_since stop vault.old vault.new (IsBeforeOrNow lost (V.seen vault.old) low store.old.tiers.world.array.parts.drives) }
{
    if !collect(store, changes) {
        return Err(StoreFault::Memory);
    }
    if changes.batch.is_empty() {
        return Ok(());
    }
    match append(changes, vault) {
        Ok(()) => Ok(()),
        Err(error) => Err(fault_of(error)),
    }
}

/// Makes all batches of the journal durable. `Sync` where that failed.
pub fn sync<V: Vault>(vault: &mut V) -> Result<(), StoreFault>
    ensures stays { V.known vault.old → V.known vault.new }
    ensures seen { V.known vault.old → V.seen vault.new ≡ V.seen vault.old }
    ensures flushed { V.known vault.old → (lost : List Bool) (stop : Stop) (low : ℕ) → IsLogged V.seen V.may_leave lost stop vault.old low
        → OnOk result (IsLogged V.seen V.may_leave lost stop vault.new (length (Image.journal (V.seen vault.new)))) }
    ensures any_moment { V.known vault.old → (lost : List Bool) (stop : Stop) (low : ℕ) → IsLogged V.seen V.may_leave lost stop vault.old low
        → LeavesOnly V.moment V.left_since stop vault.old vault.new
        (RepresentsSome lost (Image.cells (V.seen vault.old)) low (Image.journal (V.seen vault.old))) }
{
    match flush(vault) {
        Ok(()) => Ok(()),
        Err(error) => Err(fault_of(error)),
    }
}
