// The journal of a store is emptied.
ghost use Rattle.std.specs.Prelude.{◌≡◌, ◌≤◌, ◌<◌, [], ◌∷◌, ℕ, List, Bool, length, slice_index_or, slice_set, true, OnOk};
ghost use Rattle.unit_store.specs.Views.{lost_of};
ghost use Rattle.slot_tables.specs.Views.{key_at};
ghost use Rattle.extent_groups.specs.Cells.{Cells};
ghost use Rattle.byte_store.specs.Flat.{StoreState};
ghost use Rattle.byte_store.specs.Lasting.{Lasts, Shown};
ghost use Rattle.array_store.specs.Stores.{Follows, IsStoreOf};
ghost use Rattle.vault.specs.Images.{Image, SameOn, Matches, recovered};
ghost use Rattle.vault.specs.Moments.{AreLogged, LeavesOnly, IsLogged};
ghost use Rattle.vault.specs.declared.store.Stop.{Stop};
ghost use Rattle.journaled_store.specs.Steps.{IsBeforeOrNow, IsEmptied, IsPersisted, IsUpToDate, UnlessFailed, UnlessJournal};
ghost use Rattle.group_form.specs.Form.{HasGroups};
ghost use Rattle.journaled_store.specs.Left.{HasBoth};
ghost use Rattle.journaled_store.specs.Outlasting.{Outlasts, OutlastsSince, point};

use crate::publishing::{collect, fault_of};
use crate::store::JournaledStore;
use byte_store::StoreFault;
use extents::DRIVES;
use history::Chronicle;
use vault::{Batch, Vault, VaultError, settle};

// Notes that a drive failed. Of a number past the last drive's there is nothing to note.
fn note_failed(failed: &mut [bool; DRIVES], drive: u8)
    ensures { drive < 16 → failed.new ≡ slice_set failed.old drive true }
{
    let drive = usize::from(drive);
    if drive < DRIVES {
        failed[drive] = true;
    }
}

// Settles a vault, all batches of which are durable, without the drives that are lost. Unless the journal failed, its units stay.
fn settle_vault<V: Vault>(
    vault: &mut V,
    batch: &mut Batch,
    lost: &[bool; DRIVES],
) -> Result<(), VaultError>
    ensures stays { V.known vault.old → V.known vault.new }
    ensures long { length lost.now ≡ 16 }
    ensures empty { V.known vault.old → AreLogged V.seen V.may_leave lost.now vault.old → OnOk result (Image.journal (V.seen vault.new) ≡ []) }
    ensures units { V.known vault.old → AreLogged V.seen V.may_leave lost.now vault.old
        → UnlessJournal result (SameOn lost.now (recovered (V.seen vault.new)) (recovered (V.seen vault.old))) }
    ensures logged { V.known vault.old → AreLogged V.seen V.may_leave lost.now vault.old
        → UnlessJournal result (AreLogged V.seen V.may_leave lost.now vault.new) }
    ensures any_moment { V.known vault.old → AreLogged V.seen V.may_leave lost.now vault.old → (stop : Stop)
        → LeavesOnly V.moment V.left_since stop vault.old vault.new (Matches lost.now (recovered (V.seen vault.old))) }
{
    settle(vault, batch, lost)
}

impl<N: Chronicle, V: Vault + Drop> JournaledStore<N, V> {
    /// Publishes, makes all batches durable, writes their units to their places, and empties the journal. The bytes stay. `Sync`
    /// where the journal failed, or a drive did: that drive is lost then, and the next try goes without it.
    pub fn settle(&mut self) -> Result<(), StoreFault>
        ensures bytes { (F : StoreState) → IsStoreOf self.old.store.tiers self.old.store.size self.old.unsynced F
            → IsStoreOf self.new.store.tiers self.new.store.size self.new.unsynced F }
        ensures keys { (F : StoreState) → IsStoreOf self.old.store.tiers self.old.store.size self.old.unsynced F
            → (block : ℕ) → key_at self.new.store.tiers.world.array block ≡ key_at self.old.store.tiers.world.array block }
        ensures sizes { (self.new.store.size ≡ self.old.store.size)
            × (self.new.store.tiers.world.array.parts.groups.payload ≡ self.old.store.tiers.world.array.parts.groups.payload) }
        ensures stays { V.known self.old.vault → V.known self.new.vault }

        // The drives of which nothing is said: the lost ones, and those past the last.
        ensures lost { (d : ℕ) → d < 16 → slice_index_or self.new.changes.lost d true ≡ lost_of self.old.store.tiers.world.array.parts d }

        // After Ok the journal is empty, and each stop leaves all that the drives hold.
        ensures settled { V.known self.old.vault
            → UnlessFailed self.old.failed
            (IsUpToDate self.new.changes.lost self.old.changes.keeper self.old.changes.noted self.old.changes.batch (recovered (V.seen self.old.vault)))
            → (low : Stop → ℕ) → ((stop : Stop) → UnlessFailed self.old.failed
            (IsLogged V.seen V.may_leave self.new.changes.lost stop self.old.vault (low stop)))
            → OnOk result (IsEmptied V.seen V.may_leave self.new.changes.lost (recovered (V.seen self.old.vault)) self.new.vault self.old.store.tiers.world.array.parts.drives) }
        ensures step { V.known self.old.vault
            → UnlessFailed self.old.failed
            (IsUpToDate self.new.changes.lost self.old.changes.keeper self.old.changes.noted self.old.changes.batch (recovered (V.seen self.old.vault)))
            → (low : Stop → ℕ) → ((stop : Stop) → UnlessFailed self.old.failed
            (IsLogged V.seen V.may_leave self.new.changes.lost stop self.old.vault (low stop)))
            → UnlessFailed self.new.failed
            (IsUpToDate self.new.changes.lost self.new.changes.keeper self.new.changes.noted self.new.changes.batch (recovered (V.seen self.new.vault))) }
        ensures logged { V.known self.old.vault → (low : Stop → ℕ)
            → ((stop : Stop) → UnlessFailed self.old.failed (IsLogged V.seen V.may_leave self.new.changes.lost stop self.old.vault (low stop)))
            → UnlessFailed self.new.failed ((stop : Stop) → (most : ℕ) × IsLogged V.seen V.may_leave self.new.changes.lost stop self.new.vault most) }

        // A stop at any moment leaves the units of before, or those of the drives.
        ensures any_moment { V.known self.old.vault
            → UnlessFailed self.old.failed
            (IsUpToDate self.new.changes.lost self.old.changes.keeper self.old.changes.noted self.old.changes.batch (recovered (V.seen self.old.vault)))
            → (low : Stop → ℕ) → ((stop : Stop) → IsLogged V.seen V.may_leave self.new.changes.lost stop self.old.vault (low stop))
            → (stop : Stop) → LeavesOnly V.moment V.left_since stop self.old.vault self.new.vault
            (IsBeforeOrNow self.new.changes.lost (V.seen self.old.vault) (low stop) self.old.store.tiers.world.array.parts.drives) }

        // After Ok any stop leaves what the store shows, if the table has the array's groups, also where drives that were absent when
        // the array was opened are lost only since.
        ensures begins { V.known self.old.vault → (what : Shown) → HasBoth self.old.store.tiers what
            → HasGroups self.old.store.tiers.world.array.parts.groups (length self.old.store.tiers.world.array.parts.drives) (recovered (V.seen self.old.vault))
            → UnlessFailed self.old.failed
            (IsUpToDate self.new.changes.lost self.old.changes.keeper self.old.changes.noted self.old.changes.batch (recovered (V.seen self.old.vault)))
            → (low : Stop → ℕ) → ((stop : Stop) → UnlessFailed self.old.failed
            (IsLogged V.seen V.may_leave self.new.changes.lost stop self.old.vault (low stop)))
            → OnOk result (Outlasts HasBoth V.known V.seen V.may_leave (point self.new) (what ∷ []) (what ∷ [])) }

        // A stop leaves what one before would have left, or what the store shows, with all groups and drives.
        ensures follows { (F : StoreState) → IsStoreOf self.old.store.tiers self.old.store.size self.old.unsynced F
            → Follows self.old.store.tiers self.new.store.tiers }
        ensures lasts { (F : StoreState) (what : Shown) → IsStoreOf self.old.store.tiers self.old.store.size self.old.unsynced F
            → HasBoth self.old.store.tiers what
            → Lasts (Outlasts HasBoth V.known V.seen V.may_leave) (λ p. V.moment p.vault) (OutlastsSince HasBoth V.left_since)
            what what (point self.old) (point self.new) }
    {
        let lost = self.store.world().array().lost();
        let published = self.publish_durably();
        self.changes.lost = lost;
        published?;
        match settle_vault(&mut self.vault, &mut self.batch, &self.changes.lost) {
            Ok(()) => {
                self.changes.appended = 0;
                Ok(())
            }
            Err(error) => {
                self.give_up(error);
                Err(fault_of(error))
            }
        }
    }

    // What is done where the vault isn't settled: the journal has failed, or a drive is lost.
    #[tactic(auto, using(crate::proofs::Storing::follows_self))]
    pub(crate) fn give_up(&mut self, error: VaultError)
        ensures bytes { (F : StoreState) → IsStoreOf self.old.store.tiers self.old.store.size self.old.unsynced F
            → IsStoreOf self.new.store.tiers self.new.store.size self.new.unsynced F }
        ensures keys { (F : StoreState) → IsStoreOf self.old.store.tiers self.old.store.size self.old.unsynced F
            → (block : ℕ) → key_at self.new.store.tiers.world.array block ≡ key_at self.old.store.tiers.world.array block }
        ensures sizes { (self.new.store.size ≡ self.old.store.size)
            × (self.new.store.tiers.world.array.parts.groups.payload ≡ self.old.store.tiers.world.array.parts.groups.payload) }
        ensures vault { self.new.vault ≡ self.old.vault }
        ensures lost { self.new.changes.lost ≡ self.old.changes.lost }
        ensures step { (lost : List Bool) (c : Cells) → IsUpToDate lost self.old.changes.keeper self.old.changes.noted self.old.changes.batch c
            → IsUpToDate lost self.new.changes.keeper self.new.changes.noted self.new.changes.batch c }
        ensures stays { self.old.failed ≡ true → self.new.failed ≡ true }
        ensures failed { error ≡ VaultError.Journal → self.new.failed ≡ true }
        ensures follows { (F : StoreState) → IsStoreOf self.old.store.tiers self.old.store.size self.old.unsynced F
            → Follows self.old.store.tiers self.new.store.tiers }
    {
        match error {
            VaultError::Journal => self.failed = true,
            VaultError::Drive(drive) => self.lose(drive),
            VaultError::Memory | VaultError::Misfit => {}
        }
    }

    // A drive that failed the vault is lost. In which drives were shown as lost nothing changes before the next batch.
    fn lose(&mut self, drive: u8)
        ensures bytes { (F : StoreState) → IsStoreOf self.old.store.tiers self.old.store.size self.old.unsynced F
            → IsStoreOf self.new.store.tiers self.new.store.size self.new.unsynced F }
        ensures keys { (F : StoreState) → IsStoreOf self.old.store.tiers self.old.store.size self.old.unsynced F
            → (block : ℕ) → key_at self.new.store.tiers.world.array block ≡ key_at self.old.store.tiers.world.array block }
        ensures sizes { (self.new.store.size ≡ self.old.store.size)
            × (self.new.store.tiers.world.array.parts.groups.payload ≡ self.old.store.tiers.world.array.parts.groups.payload) }
        ensures vault { self.new.vault ≡ self.old.vault }
        ensures lost { self.new.changes.lost ≡ self.old.changes.lost }
        ensures step { (lost : List Bool) (c : Cells) → IsUpToDate lost self.old.changes.keeper self.old.changes.noted self.old.changes.batch c
            → IsUpToDate lost self.new.changes.keeper self.new.changes.noted self.new.changes.batch c }
        ensures follows { (F : StoreState) → IsStoreOf self.old.store.tiers self.old.store.size self.old.unsynced F
            → Follows self.old.store.tiers self.new.store.tiers }
        ensures failed { self.new.failed ≡ self.old.failed }
    {
        note_failed(&mut self.changes.failed, drive);
        let lost = self.changes.lost;
        let _ = collect(&mut self.store, &mut self.changes);
        self.changes.lost = lost;
        self.store.sync_drives();
    }

    /// Settles where the journal has grown to four times the units from which `rest` settles.
    #[tactic(auto, using(crate::proofs::Storing::follows_self))]
    pub fn make_room(&mut self)
        ensures bytes { (F : StoreState) → IsStoreOf self.old.store.tiers self.old.store.size self.old.unsynced F
            → IsStoreOf self.new.store.tiers self.new.store.size self.new.unsynced F }
        ensures keys { (F : StoreState) → IsStoreOf self.old.store.tiers self.old.store.size self.old.unsynced F
            → (block : ℕ) → key_at self.new.store.tiers.world.array block ≡ key_at self.old.store.tiers.world.array block }
        ensures sizes { (self.new.store.size ≡ self.old.store.size)
            × (self.new.store.tiers.world.array.parts.groups.payload ≡ self.old.store.tiers.world.array.parts.groups.payload) }

        // A stop leaves what one before would have left, or what the store shows, with all groups and drives.
        ensures follows { (F : StoreState) → IsStoreOf self.old.store.tiers self.old.store.size self.old.unsynced F
            → Follows self.old.store.tiers self.new.store.tiers }
        ensures lasts { (F : StoreState) (what : Shown) → IsStoreOf self.old.store.tiers self.old.store.size self.old.unsynced F
            → HasBoth self.old.store.tiers what
            → Lasts (Outlasts HasBoth V.known V.seen V.may_leave) (λ p. V.moment p.vault) (OutlastsSince HasBoth V.left_since)
            what what (point self.old) (point self.new) }
    {
        if self.changes.appended >= self.settle_at.saturating_mul(4) {
            let _ = self.settle();
        }
    }
}
