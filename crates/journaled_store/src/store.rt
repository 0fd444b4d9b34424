// The bytes of a disk, each change of which is kept by a vault.
ghost use Rattle.std.specs.Prelude.{◌≡◌, ◌+◌, ◌≤◌, ℕ, List, Bool, length, replicate, slice_index_or, false, true, OnOk};
ghost use Rattle.byte_store.specs.Flat.{StoreState};
ghost use Rattle.byte_store.specs.Changes.{IsChanged, IsFlushed};
ghost use Rattle.byte_store.specs.Lasting.{Acknowledges, Flushes, Lasts, Shown};
ghost use Rattle.slot_tables.specs.Views.{key_at};
ghost use Rattle.array_store.specs.Blocks.{Holds};
ghost use Rattle.array_store.specs.Stores.{Follows, IsStoreOf};
ghost use Rattle.vault.specs.Images.{Image, recovered};
ghost use Rattle.vault.specs.Moments.{LeavesOnly, IsLogged, RepresentsSome};
ghost use Rattle.vault.specs.declared.store.Stop.{Stop};
ghost use Rattle.vault.specs.declared.store.Stop.TheVariants.{Killed};
ghost use Rattle.journaled_store.specs.Steps.{IsBeforeOrNow, IsPersisted, IsUpToDate, SameTable, UnlessFailed, is_sync};
ghost use Rattle.journaled_store.specs.Left.{HasBoth, HasKeys, IsOneLost, MissesOne};
ghost use Rattle.journaled_store.specs.Outlasting.{Outlasts, OutlastsSince, Works, point};

use crate::changes::Changes;
use crate::position::Scrub;
use crate::publishing::{publish, sync};
use array_store::ArrayStore;
use byte_store::{ByteStore, StoreFault};
use cached_drive::CachedDrive;
use extents::{DRIVES, Drive};
use history::Chronicle;
use std::alloc::Global;
use step_core::World;
use vault::{Batch, Vault};

// Whether a drive of this number is lost, or there is none.
pub(crate) fn is_lost(lost: &[bool; DRIVES], drive: u8) -> bool
    ensures { result ≡ slice_index_or lost.now drive true }
{
    match lost.get(usize::from(drive)) {
        Some(lost) => *lost,
        None => true,
    }
}

// Whether two of the first drives are lost.
fn are_two_lost(lost: &[bool; DRIVES], count: u8) -> bool
    ensures { result ≡ false → IsOneLost lost.now count }
{
    let mut found = false;
    for drive in 0..count {
        if is_lost(lost, drive) {
            if found {
                return true;
            }
            found = true;
        }
    }
    false
}

// Whether more than one drive is lost. Then the array may not have all that was answered, but the vault has it.
pub(crate) fn has_lost_two<D: Drive>(world: &World<D>) -> bool
    ensures { result ≡ false → MissesOne world.now.array.parts.drives }
{
    let array = world.array();
    are_two_lost(&array.lost(), array.drive_count())
}

// Whether the journal failed.
fn is_sync(published: &Result<(), StoreFault>) -> bool
    ensures { result ≡ is_sync published.now }
{
    matches!(published, Err(StoreFault::Sync))
}

/// The bytes of a disk. What a call has written is one batch in a vault's journal before the call returns.
#[derive(Drop)]
pub struct JournaledStore<N: Chronicle, V: Vault + Drop> {
    pub(crate) store: ArrayStore<CachedDrive<N>>,
    pub(crate) changes: Changes<N>,
    pub(crate) vault: V,
    /// A batch of the journal, while it is settled.
    pub(crate) batch: Batch,
    /// Units in the journal from which `rest` settles.
    pub(crate) settle_at: u64,
    /// Whether something was written since the last flush.
    pub(crate) unsynced: bool,
    /// Whether the journal failed. Then each change is refused.
    pub(crate) failed: bool,
    /// Which unit is compared next.
    pub(crate) scrub: Scrub,
}

impl<N: Chronicle, V: Vault + Drop> JournaledStore<N, V> {
    /// A store over a vault that stands for all that the drives hold, but for what `changes` has. Once `settle_at` units were
    /// appended to the journal, `rest` settles it; a write does so from four times as many.
    pub fn new(
        alloc: Global,
        store: ArrayStore<CachedDrive<N>>,
        changes: Changes<N>,
        vault: V,
        settle_at: u64,
    ) -> JournaledStore<N, V>
        ensures parts { (result.store ≡ store) × (result.changes ≡ changes) × (result.vault ≡ vault) }
        ensures flags { (result.unsynced ≡ false) × (result.failed ≡ false) }
        ensures lasts { V.known vault → (killed cut : List (List ℕ)) → Works Holds V.seen V.may_leave (point result) killed cut
            → Outlasts Holds V.known V.seen V.may_leave (point result) killed cut }
        ensures map { V.known vault → (killed cut : List (List ℕ)) → Works HasKeys V.seen V.may_leave (point result) killed cut
            → Outlasts HasKeys V.known V.seen V.may_leave (point result) killed cut }
        ensures both { V.known vault → (killed cut : List Shown) → Works HasBoth V.seen V.may_leave (point result) killed cut
            → Outlasts HasBoth V.known V.seen V.may_leave (point result) killed cut }
    {
        JournaledStore {
            store,
            changes,
            vault,
            batch: Batch::new(alloc),
            settle_at,
            unsynced: false,
            failed: false,
            scrub: Scrub::new(),
        }
    }

    /// The vault, without the store.
    pub fn into_vault(self) -> V
        ensures { result ≡ self.vault }
    {
        self.vault
    }

    /// The array's world, for the calls that only read it.
    pub fn world(&self) -> &World<CachedDrive<N>>
        ensures { result.now ≡ self.now.store.tiers.world }
    {
        self.store.world()
    }

    /// Makes one batch of all that the drives have written and of which are lost, and appends it to the vault's journal. `Memory` if
    /// out of memory, or if the batch doesn't fit: the next call has it all. `Sync` where the journal failed; and where more than one
    /// drive is lost, so that the vault keeps what it has.
    pub fn publish(&mut self) -> Result<(), StoreFault>
        ensures same { (self.new.store ≡ self.old.store) × (self.new.unsynced ≡ self.old.unsynced) }
        ensures works { OnOk result ((self.new.failed ≡ false) × MissesOne self.new.store.tiers.world.array.parts.drives) }
        ensures still { self.old.failed ≡ true → (self.new.vault ≡ self.old.vault) × (self.new.failed ≡ true) }
        ensures stays { V.known self.old.vault → V.known self.new.vault }
        ensures step { V.known self.old.vault → (lost : List Bool)
            → UnlessFailed self.old.failed (IsUpToDate lost self.old.changes.keeper self.old.changes.noted self.old.changes.batch
            (recovered (V.seen self.old.vault)))
            → UnlessFailed self.new.failed (IsUpToDate lost self.new.changes.keeper self.new.changes.noted self.new.changes.batch
            (recovered (V.seen self.new.vault))) }
        ensures rest { V.known self.old.vault → (lost : List Bool)
            → UnlessFailed self.old.failed (IsUpToDate lost self.old.changes.keeper self.old.changes.noted self.old.changes.batch
            (recovered (V.seen self.old.vault)))
            → UnlessFailed self.new.failed (SameTable (recovered (V.seen self.new.vault)) (recovered (V.seen self.old.vault))) }
        ensures killed { V.known self.old.vault → (lost : List Bool)
            → UnlessFailed self.old.failed (IsLogged V.seen V.may_leave lost Killed self.old.vault (length (Image.journal (V.seen self.old.vault))))
            → UnlessFailed self.new.failed (IsLogged V.seen V.may_leave lost Killed self.new.vault (length (Image.journal (V.seen self.new.vault)))) }
        ensures added { V.known self.old.vault → (lost : List Bool) (stop : Stop) (low : ℕ)
            → UnlessFailed self.old.failed (IsLogged V.seen V.may_leave lost stop self.old.vault low)
            → UnlessFailed self.new.failed (IsLogged V.seen V.may_leave lost stop self.new.vault low) }

        // After Ok the vault has all that the drives hold, and which are lost.
        ensures kept { V.known self.old.vault → (lost : List Bool)
            → UnlessFailed self.old.failed (IsUpToDate lost self.old.changes.keeper self.old.changes.noted self.old.changes.batch
            (recovered (V.seen self.old.vault)))
            → OnOk result (IsPersisted lost self.new.store.tiers.world.array.parts.drives (recovered (V.seen self.new.vault))) }
        ensures batches { V.known self.old.vault → (lost : List Bool)
            → UnlessFailed self.old.failed (IsUpToDate lost self.old.changes.keeper self.old.changes.noted self.old.changes.batch
            (recovered (V.seen self.old.vault)))
            → UnlessFailed self.new.failed ((low : ℕ) (i : Image)
            → RepresentsSome lost (Image.cells (V.seen self.new.vault)) low (Image.journal (V.seen self.new.vault)) i
            → IsBeforeOrNow lost (V.seen self.old.vault) low self.old.store.tiers.world.array.parts.drives i) }

        // A stop at any moment leaves the units of before, or those of the drives now.
        ensures any_moment { V.known self.old.vault → (lost : List Bool)
            → UnlessFailed self.old.failed (IsUpToDate lost self.old.changes.keeper self.old.changes.noted self.old.changes.batch
            (recovered (V.seen self.old.vault)))
            → (stop : Stop) (low : ℕ) → IsLogged V.seen V.may_leave lost stop self.old.vault low
            → LeavesOnly V.moment V.left_since stop self.old.vault self.new.vault
            (IsBeforeOrNow lost (V.seen self.old.vault) low self.new.store.tiers.world.array.parts.drives) }

        // Opened again, the store shows what a stop before would have left, or what it shows now: bytes and block map of one state. A
        // kill after Ok leaves that of now.
        ensures lasts { (what : Shown) → HasBoth self.old.store.tiers what
            → Lasts (Outlasts HasBoth V.known V.seen V.may_leave) (λ p. V.moment p.vault) (OutlastsSince HasBoth V.left_since)
            what what (point self.old) (point self.new)
            × OnOk result (Acknowledges (Outlasts HasBoth V.known V.seen V.may_leave) what what (point self.old) (point self.new)) }
    {
        if self.failed {
            return Err(StoreFault::Sync);
        }
        if has_lost_two(self.store.world()) {
            return Err(StoreFault::Sync);
        }
        let published = publish(&mut self.store, &mut self.changes, &mut self.vault);
        self.failed = is_sync(&published);
        published
    }

    /// Publishes, and then makes all batches of the journal durable. Refused as `publish` is: then nothing is synced. `Sync` where that
    /// failed: then each later change is refused, too.
    pub fn publish_durably(&mut self) -> Result<(), StoreFault>
        ensures same { (self.new.store ≡ self.old.store) × (self.new.unsynced ≡ self.old.unsynced) }
        ensures works { OnOk result ((self.new.failed ≡ false) × MissesOne self.new.store.tiers.world.array.parts.drives) }
        ensures still { self.old.failed ≡ true → (self.new.vault ≡ self.old.vault) × (self.new.failed ≡ true) }
        ensures stays { V.known self.old.vault → V.known self.new.vault }
        ensures step { V.known self.old.vault → (lost : List Bool)
            → UnlessFailed self.old.failed (IsUpToDate lost self.old.changes.keeper self.old.changes.noted self.old.changes.batch
            (recovered (V.seen self.old.vault)))
            → UnlessFailed self.new.failed (IsUpToDate lost self.new.changes.keeper self.new.changes.noted self.new.changes.batch
            (recovered (V.seen self.new.vault))) }
        ensures rest { V.known self.old.vault → (lost : List Bool)
            → UnlessFailed self.old.failed (IsUpToDate lost self.old.changes.keeper self.old.changes.noted self.old.changes.batch
            (recovered (V.seen self.old.vault)))
            → UnlessFailed self.new.failed (SameTable (recovered (V.seen self.new.vault)) (recovered (V.seen self.old.vault))) }
        ensures killed { V.known self.old.vault → (lost : List Bool)
            → UnlessFailed self.old.failed (IsLogged V.seen V.may_leave lost Killed self.old.vault (length (Image.journal (V.seen self.old.vault))))
            → UnlessFailed self.new.failed (IsLogged V.seen V.may_leave lost Killed self.new.vault (length (Image.journal (V.seen self.new.vault)))) }

        // After Ok each stop leaves all batches, and so all that the drives hold.
        ensures kept { V.known self.old.vault → (lost : List Bool)
            → UnlessFailed self.old.failed (IsUpToDate lost self.old.changes.keeper self.old.changes.noted self.old.changes.batch
            (recovered (V.seen self.old.vault)))
            → OnOk result (IsPersisted lost self.new.store.tiers.world.array.parts.drives (recovered (V.seen self.new.vault))) }
        ensures flushed { V.known self.old.vault → (lost : List Bool) (stop : Stop) (low : ℕ)
            → UnlessFailed self.old.failed (IsLogged V.seen V.may_leave lost stop self.old.vault low)
            → OnOk result (IsLogged V.seen V.may_leave lost stop self.new.vault (length (Image.journal (V.seen self.new.vault)))) }
        ensures logged { V.known self.old.vault → (lost : List Bool) (stop : Stop) (low : ℕ)
            → UnlessFailed self.old.failed (IsLogged V.seen V.may_leave lost stop self.old.vault low)
            → UnlessFailed self.new.failed ((most : ℕ) × (low ≤ most) × IsLogged V.seen V.may_leave lost stop self.new.vault most) }
        ensures batches { V.known self.old.vault → (lost : List Bool)
            → UnlessFailed self.old.failed (IsUpToDate lost self.old.changes.keeper self.old.changes.noted self.old.changes.batch
            (recovered (V.seen self.old.vault)))
            → UnlessFailed self.new.failed ((low : ℕ) (i : Image)
            → RepresentsSome lost (Image.cells (V.seen self.new.vault)) low (Image.journal (V.seen self.new.vault)) i
            → IsBeforeOrNow lost (V.seen self.old.vault) low self.old.store.tiers.world.array.parts.drives i) }

        // A stop at any moment leaves the units of before, or those of the drives now.
        ensures any_moment { V.known self.old.vault → (lost : List Bool)
            → UnlessFailed self.old.failed (IsUpToDate lost self.old.changes.keeper self.old.changes.noted self.old.changes.batch
            (recovered (V.seen self.old.vault)))
            → (stop : Stop) (low : ℕ) → IsLogged V.seen V.may_leave lost stop self.old.vault low
            → LeavesOnly V.moment V.left_since stop self.old.vault self.new.vault
            (IsBeforeOrNow lost (V.seen self.old.vault) low self.new.store.tiers.world.array.parts.drives) }

        // Opened again, the store shows what a stop before would have left, or what it shows now; after Ok that of now.
        ensures lasts { (what : Shown) → HasBoth self.old.store.tiers what
            → Lasts (Outlasts HasBoth V.known V.seen V.may_leave) (λ p. V.moment p.vault) (OutlastsSince HasBoth V.left_since)
            what what (point self.old) (point self.new)
            × OnOk result (Flushes (Outlasts HasBoth V.known V.seen V.may_leave) what (point self.old) (point self.new)) }
    {
        self.publish()?;
        let synced = sync(&mut self.vault);
        self.failed = synced.is_err();
        synced
    }

    /// Writes bytes from an offset on, and publishes. A refused write may have stopped in its middle.
    pub fn kept_write(&mut self, alloc: Global, offset: u64, bytes: &[u8]) -> Result<(), StoreFault>
        requires within { offset + length bytes.now ≤ self.old.store.size }
        ensures change { (F : StoreState) → IsStoreOf self.old.store.tiers self.old.store.size self.old.unsynced F
            → (G : StoreState) × IsStoreOf self.new.store.tiers self.new.store.size self.new.unsynced G × IsChanged result F offset bytes.now G }
        ensures sizes { (self.new.store.size ≡ self.old.store.size)
            × (self.new.store.tiers.world.array.parts.groups.payload ≡ self.old.store.tiers.world.array.parts.groups.payload) }
        ensures stays { V.known self.old.vault → V.known self.new.vault }
        ensures step { V.known self.old.vault → (lost : List Bool)
            → UnlessFailed self.old.failed (IsUpToDate lost self.old.changes.keeper self.old.changes.noted self.old.changes.batch
            (recovered (V.seen self.old.vault)))
            → UnlessFailed self.new.failed (IsUpToDate lost self.new.changes.keeper self.new.changes.noted self.new.changes.batch
            (recovered (V.seen self.new.vault))) }
        ensures killed { V.known self.old.vault → (lost : List Bool)
            → UnlessFailed self.old.failed (IsLogged V.seen V.may_leave lost Killed self.old.vault (length (Image.journal (V.seen self.old.vault))))
            → UnlessFailed self.new.failed (IsLogged V.seen V.may_leave lost Killed self.new.vault (length (Image.journal (V.seen self.new.vault)))) }
        ensures added { V.known self.old.vault → (lost : List Bool) (stop : Stop) (low : ℕ)
            → UnlessFailed self.old.failed (IsLogged V.seen V.may_leave lost stop self.old.vault low)
            → UnlessFailed self.new.failed (IsLogged V.seen V.may_leave lost stop self.new.vault low) }

        // A kill after Ok leaves all that the drives hold, so the bytes that were written, and which drives are lost.
        ensures kept { V.known self.old.vault → (lost : List Bool)
            → UnlessFailed self.old.failed (IsUpToDate lost self.old.changes.keeper self.old.changes.noted self.old.changes.batch
            (recovered (V.seen self.old.vault)))
            → OnOk result (IsPersisted lost self.new.store.tiers.world.array.parts.drives (recovered (V.seen self.new.vault))) }

        // A stop at any moment leaves the units of before, or those of the drives now. By a loss of power some of the last batches
        // may be missing, none of those of the last flush.
        ensures any_moment { V.known self.old.vault → (lost : List Bool)
            → UnlessFailed self.old.failed (IsUpToDate lost self.old.changes.keeper self.old.changes.noted self.old.changes.batch
            (recovered (V.seen self.old.vault)))
            → (stop : Stop) (low : ℕ) → IsLogged V.seen V.may_leave lost stop self.old.vault low
            → LeavesOnly V.moment V.left_since stop self.old.vault self.new.vault
            (IsBeforeOrNow lost (V.seen self.old.vault) low self.new.store.tiers.world.array.parts.drives) }

        // A stop leaves what one before would have left, or what the store shows now, with all groups and drives; a kill after Ok
        // leaves that of now.
        ensures follows { (F : StoreState) → IsStoreOf self.old.store.tiers self.old.store.size self.old.unsynced F
            → Follows self.old.store.tiers self.new.store.tiers }
        ensures lasts { (F : StoreState) (what : Shown) → IsStoreOf self.old.store.tiers self.old.store.size self.old.unsynced F
            → HasBoth self.new.store.tiers what
            → Lasts (Outlasts HasBoth V.known V.seen V.may_leave) (λ p. V.moment p.vault) (OutlastsSince HasBoth V.left_since)
            what what (point self.old) (point self.new)
            × OnOk result (Acknowledges (Outlasts HasBoth V.known V.seen V.may_leave) what what (point self.old) (point self.new)) }
    {
        self.unsynced = true;
        let written = self.store.write(alloc, offset, bytes);
        self.publish()?;
        written
    }

    /// Makes the bytes from an offset on zero, and publishes. A refusal may have come in its middle.
    pub fn kept_zero(&mut self, alloc: Global, offset: u64, count: u32) -> Result<(), StoreFault>
        requires within { offset + count ≤ self.old.store.size }
        ensures change { (F : StoreState) → IsStoreOf self.old.store.tiers self.old.store.size self.old.unsynced F
            → (G : StoreState) × IsStoreOf self.new.store.tiers self.new.store.size self.new.unsynced G × IsChanged result F offset (replicate count 0) G }
        ensures sizes { (self.new.store.size ≡ self.old.store.size)
            × (self.new.store.tiers.world.array.parts.groups.payload ≡ self.old.store.tiers.world.array.parts.groups.payload) }
        ensures stays { V.known self.old.vault → V.known self.new.vault }
        ensures step { V.known self.old.vault → (lost : List Bool)
            → UnlessFailed self.old.failed (IsUpToDate lost self.old.changes.keeper self.old.changes.noted self.old.changes.batch
            (recovered (V.seen self.old.vault)))
            → UnlessFailed self.new.failed (IsUpToDate lost self.new.changes.keeper self.new.changes.noted self.new.changes.batch
            (recovered (V.seen self.new.vault))) }
        ensures killed { V.known self.old.vault → (lost : List Bool)
            → UnlessFailed self.old.failed (IsLogged V.seen V.may_leave lost Killed self.old.vault (length (Image.journal (V.seen self.old.vault))))
            → UnlessFailed self.new.failed (IsLogged V.seen V.may_leave lost Killed self.new.vault (length (Image.journal (V.seen self.new.vault)))) }
        ensures added { V.known self.old.vault → (lost : List Bool) (stop : Stop) (low : ℕ)
            → UnlessFailed self.old.failed (IsLogged V.seen V.may_leave lost stop self.old.vault low)
            → UnlessFailed self.new.failed (IsLogged V.seen V.may_leave lost stop self.new.vault low) }

        // A kill after Ok leaves all that the drives hold, and which drives are lost.
        ensures kept { V.known self.old.vault → (lost : List Bool)
            → UnlessFailed self.old.failed (IsUpToDate lost self.old.changes.keeper self.old.changes.noted self.old.changes.batch
            (recovered (V.seen self.old.vault)))
            → OnOk result (IsPersisted lost self.new.store.tiers.world.array.parts.drives (recovered (V.seen self.new.vault))) }

        // A stop at any moment leaves the units of before, or those of the drives now. By a loss of power some of the last batches
        // may be missing, none of those of the last flush.
        ensures any_moment { V.known self.old.vault → (lost : List Bool)
            → UnlessFailed self.old.failed (IsUpToDate lost self.old.changes.keeper self.old.changes.noted self.old.changes.batch
            (recovered (V.seen self.old.vault)))
            → (stop : Stop) (low : ℕ) → IsLogged V.seen V.may_leave lost stop self.old.vault low
            → LeavesOnly V.moment V.left_since stop self.old.vault self.new.vault
            (IsBeforeOrNow lost (V.seen self.old.vault) low self.new.store.tiers.world.array.parts.drives) }

        // A stop leaves what one before would have left, or what the store shows now, with all groups and drives; a kill after Ok
        // leaves that of now.
        ensures follows { (F : StoreState) → IsStoreOf self.old.store.tiers self.old.store.size self.old.unsynced F
            → Follows self.old.store.tiers self.new.store.tiers }
        ensures lasts { (F : StoreState) (what : Shown) → IsStoreOf self.old.store.tiers self.old.store.size self.old.unsynced F
            → HasBoth self.new.store.tiers what
            → Lasts (Outlasts HasBoth V.known V.seen V.may_leave) (λ p. V.moment p.vault) (OutlastsSince HasBoth V.left_since)
            what what (point self.old) (point self.new)
            × OnOk result (Acknowledges (Outlasts HasBoth V.known V.seen V.may_leave) what what (point self.old) (point self.new)) }
    {
        self.unsynced = true;
        let zeroed = self.store.zero(alloc, offset, count);
        self.publish()?;
        zeroed
    }

    /// Makes all bytes durable. `Sync` where the journal failed, and while more than one drive is lost; `Memory` if out of memory: the
    /// next call has it all.
    pub fn kept_flush(&mut self) -> Result<(), StoreFault>
        ensures change { (F : StoreState) → IsStoreOf self.old.store.tiers self.old.store.size self.old.unsynced F
            → (G : StoreState) × IsStoreOf self.new.store.tiers self.new.store.size self.new.unsynced G × IsFlushed result F G }
        ensures sizes { (self.new.store.size ≡ self.old.store.size)
            × (self.new.store.tiers.world.array.parts.groups.payload ≡ self.old.store.tiers.world.array.parts.groups.payload) }
        ensures stays { V.known self.old.vault → V.known self.new.vault }
        ensures step { V.known self.old.vault → (lost : List Bool)
            → UnlessFailed self.old.failed (IsUpToDate lost self.old.changes.keeper self.old.changes.noted self.old.changes.batch
            (recovered (V.seen self.old.vault)))
            → UnlessFailed self.new.failed (IsUpToDate lost self.new.changes.keeper self.new.changes.noted self.new.changes.batch
            (recovered (V.seen self.new.vault))) }

        // Each stop after Ok leaves all that the drives hold, and which drives are lost.
        ensures kept { V.known self.old.vault → (lost : List Bool)
            → UnlessFailed self.old.failed (IsUpToDate lost self.old.changes.keeper self.old.changes.noted self.old.changes.batch
            (recovered (V.seen self.old.vault)))
            → OnOk result (IsPersisted lost self.new.store.tiers.world.array.parts.drives (recovered (V.seen self.new.vault))) }
        ensures flushed { V.known self.old.vault → (lost : List Bool) (stop : Stop) (low : ℕ)
            → UnlessFailed self.old.failed (IsLogged V.seen V.may_leave lost stop self.old.vault low)
            → OnOk result (IsLogged V.seen V.may_leave lost stop self.new.vault (length (Image.journal (V.seen self.new.vault)))) }
        ensures logged { V.known self.old.vault → (lost : List Bool) (stop : Stop) (low : ℕ)
            → UnlessFailed self.old.failed (IsLogged V.seen V.may_leave lost stop self.old.vault low)
            → UnlessFailed self.new.failed ((most : ℕ) × (low ≤ most) × IsLogged V.seen V.may_leave lost stop self.new.vault most) }

        // A stop at any moment leaves the units of before, or those of the drives now.
        ensures any_moment { V.known self.old.vault → (lost : List Bool)
            → UnlessFailed self.old.failed (IsUpToDate lost self.old.changes.keeper self.old.changes.noted self.old.changes.batch
            (recovered (V.seen self.old.vault)))
            → (stop : Stop) (low : ℕ) → IsLogged V.seen V.may_leave lost stop self.old.vault low
            → LeavesOnly V.moment V.left_since stop self.old.vault self.new.vault
            (IsBeforeOrNow lost (V.seen self.old.vault) low self.new.store.tiers.world.array.parts.drives) }

        // The block map stays. A stop leaves what one before would have left, or what the store shows, with all groups and drives; each
        // stop after Ok leaves that.
        ensures keys { (F : StoreState) → IsStoreOf self.old.store.tiers self.old.store.size self.old.unsynced F
            → (block : ℕ) → key_at self.new.store.tiers.world.array block ≡ key_at self.old.store.tiers.world.array block }
        ensures follows { (F : StoreState) → IsStoreOf self.old.store.tiers self.old.store.size self.old.unsynced F
            → Follows self.old.store.tiers self.new.store.tiers }
        ensures lasts { (F : StoreState) (what : Shown) → IsStoreOf self.old.store.tiers self.old.store.size self.old.unsynced F
            → HasBoth self.new.store.tiers what
            → Lasts (Outlasts HasBoth V.known V.seen V.may_leave) (λ p. V.moment p.vault) (OutlastsSince HasBoth V.left_since)
            what what (point self.old) (point self.new)
            × OnOk result (Flushes (Outlasts HasBoth V.known V.seen V.may_leave) what (point self.old) (point self.new)) }
    {
        let flushed = self.store.flush();
        self.publish_durably()?;
        flushed?;
        self.unsynced = false;
        Ok(())
    }
}
