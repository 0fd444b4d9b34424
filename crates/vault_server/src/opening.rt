// A store is opened, and what a session before has left in its journal is settled.
ghost use Rattle.std.specs.Prelude.{◌≡◌, ◌*◌, length, IfErr, IfOk, OnOk};
ghost use Rattle.extents.specs.Sizes.{extent_units};
ghost use Rattle.extent_groups.specs.Cells.{Cells};
ghost use Rattle.vault.specs.Images.{recovered};
ghost use Rattle.byte_store.specs.Flat.{StoreState};
ghost use Rattle.byte_store.specs.Lasting.{Lasts, Shown, ShowsState};
ghost use Rattle.array_store.specs.Stores.{Follows, IsStoreOf};
ghost use Rattle.journaled_store.specs.Keeping.{as_whole};
ghost use Rattle.journaled_store.specs.Left.{HasBoth, IsLeftOf};
ghost use Rattle.journaled_store.specs.Outlasting.{Outlasts, OutlastsSince, point};
ghost use Rattle.array_recovery.specs.Found.{AreLastIfAttested, OnlyRead, with_cells};
ghost use Rattle.array_recovery.specs.Reopened.{IsOpenedWith, IsSoundFor};
ghost use Rattle.vault_server.specs.Served.{HasBegun, IsOn, durable};
ghost use Rattle.vault_server.specs.Missing.{IsOpenedBut, IsSoundBut, MarksLost, OnceMarked};

use array_recovery::{RecoveryFault, recover};
use byte_store::{ByteStore, StoreFault};
use cached_drive::Saved;
use extent_groups::GroupTable;
use extents::{DRIVES, ExtentTable, Shape};
use history::{Chronicle, Opened};
use journaled_store::{JournaledStore, ScrubPosition};
use std::alloc::Global;
use vault::Vault;

/// A store that was opened.
#[derive(Drop)]
pub struct OpenedStore<N: Chronicle, V: Vault + Drop> {
    /// What couldn't be settled is still in its journal.
    pub store: JournaledStore<N, V>,
    /// Whether all that a session before has left is durable, and the marks of all drives that are lost.
    pub marked: Result<(), StoreFault>,
}

// A store over what is found of a vault, as `open_store` opens it. That one doesn't say what the first `publish` needs where a drive
// is missing for the first time.
fn recovered_store<N: Chronicle, V: Vault + Drop>(
    alloc: Global,
    vault: V,
    opened: Opened<Saved>,
    shape: &Shape,
    groups: GroupTable,
    extents: ExtentTable,
    drives: u8,
    size: u64,
    absent: &[bool; DRIVES],
    settle_at: u64,
) -> Result<JournaledStore<N, V>, (RecoveryFault, V)>
    requires { opened ≡ N.chronicle }
    ensures read { V.known vault → IfOk result (λ s. V.known s.vault × OnlyRead V.seen V.may_leave V.moment V.left_since vault s.vault) }
    ensures back { V.known vault → IfErr result (λ e. V.known e.1 × OnlyRead V.seen V.may_leave V.moment V.left_since vault e.1) }
    ensures both { V.known vault → (what : Shown) → length what.bytes ≡ size → IsLeftOf HasBoth what groups drives absent.now (recovered (V.seen vault))
        → IfOk result (λ s. ShowsState (⟦<JournaledStore<N, V> as ByteStore>⟧.keys s) (durable what) what
        × ⟦<JournaledStore<N, V> as ByteStore>⟧.represents s (durable what)) }
    ensures honest { V.known vault → (written : Cells) → AreLastIfAttested (V.attested vault) drives absent.now (V.seen vault) written
        → (what : Shown) → length what.bytes ≡ size → IsLeftOf HasBoth what groups drives absent.now (recovered (with_cells (V.seen vault) written))
        → IfOk result (λ s. ShowsState (⟦<JournaledStore<N, V> as ByteStore>⟧.keys s) (durable what) what
        × ⟦<JournaledStore<N, V> as ByteStore>⟧.represents s (durable what)) }
    ensures size { IfOk result (λ s. s.store.size ≡ size) }
    ensures same { IfOk result (λ s. IsOpenedWith groups drives s.changes.noted absent.now s.store.tiers) }

    // A stop since it was called leaves what is opened, if all absent drives are marked; and in any case what marks them.
    ensures begins { V.known vault → (what : Shown)
        → IsSoundFor HasBoth V.seen V.may_leave what groups drives (shape.now.extents * extent_units shape.now.segments) absent.now vault
        → IfOk result (λ s. HasBegun V.known V.seen V.may_leave V.moment V.left_since (V.moment vault) what (point s)) }
    ensures missing { V.known vault → (what : Shown) → length what.bytes ≡ size
        → IsSoundBut V.seen V.may_leave what groups drives (shape.now.extents * extent_units shape.now.segments) absent.now vault
        → IfOk result (λ s. IsOpenedBut V.known V.seen V.may_leave V.moment V.left_since what groups drives
        (shape.now.extents * extent_units shape.now.segments) absent.now vault (point s)) }
{
    let mut vault = vault;
    match recover::<N, V>(
        alloc, &mut vault, opened, shape, groups, extents, drives, size, absent,
    ) {
        Ok((store, changes)) => Ok(JournaledStore::new(alloc, store, changes, vault, settle_at)),
        Err(fault) => Err((fault, vault)),
    }
}

// A store whose units are compared from a position on.
fn resumed<N: Chronicle, V: Vault + Drop>(
    store: JournaledStore<N, V>,
    scrub_at: ScrubPosition,
) -> JournaledStore<N, V>
    ensures { as_whole result ≡ as_whole store }
{
    let mut store = store;
    store.resume_scrub(scrub_at);
    store
}

// Makes durable all that a store has left, and the marks of all its lost drives.
fn mark_lost<N: Chronicle, V: Vault + Drop>(
    store: JournaledStore<N, V>,
) -> (JournaledStore<N, V>, Result<(), StoreFault>)
    ensures stays { V.known store.vault → V.known result.0.vault }
    ensures same { (result.0.store ≡ store.store) × (result.0.unsynced ≡ store.unsynced) }
    ensures lasts { (what : Shown) → HasBoth store.store.tiers what
        → Lasts (Outlasts HasBoth V.known V.seen V.may_leave) (λ p. V.moment p.vault) (OutlastsSince HasBoth V.left_since)
        what what (point store) (point result.0) }
    ensures marks { MarksLost V.known V.seen V.may_leave V.moment V.left_since result.1 (point store) (point result.0) }
{
    let mut store = store;
    let marked = store.publish_durably();
    (store, marked)
}

// Settles a store's journal. What can't be settled is still in it.
fn settled<N: Chronicle, V: Vault + Drop>(store: JournaledStore<N, V>) -> JournaledStore<N, V>
    ensures stays { V.known store.vault → V.known result.vault }
    ensures shows { (F : StoreState) (what : Shown) → IsStoreOf store.store.tiers store.store.size store.unsynced F
        → ShowsState (⟦<JournaledStore<N, V> as ByteStore>⟧.keys store) F what
        → ShowsState (⟦<JournaledStore<N, V> as ByteStore>⟧.keys result) F what × ⟦<JournaledStore<N, V> as ByteStore>⟧.represents result F }
    ensures size { result.store.size ≡ store.store.size }
    ensures follows { (F : StoreState) → IsStoreOf store.store.tiers store.store.size store.unsynced F → Follows store.store.tiers result.store.tiers }
    ensures lasts { (F : StoreState) (what : Shown) → IsStoreOf store.store.tiers store.store.size store.unsynced F → HasBoth store.store.tiers what
        → Lasts (Outlasts HasBoth V.known V.seen V.may_leave) (λ p. V.moment p.vault) (OutlastsSince HasBoth V.left_since)
        what what (point store) (point result) }
{
    let mut store = store;
    let _ = store.settle();
    store
}

/// Opens a store as `open_store` does. Drives that are lost are marked in the vault's table before anything else, and then the journal
/// is settled. What can't be settled is still in the journal. Units are compared at rest from `scrub_at` on.
pub fn open_settled<N: Chronicle, V: Vault + Drop>(
    alloc: Global,
    vault: V,
    opened: Opened<Saved>,
    shape: &Shape,
    groups: GroupTable,
    extents: ExtentTable,
    drives: u8,
    size: u64,
    absent: &[bool; DRIVES],
    settle_at: u64,
    scrub_at: ScrubPosition,
) -> Result<OpenedStore<N, V>, (RecoveryFault, V)>
    requires { opened ≡ N.chronicle }
    ensures back { V.known vault → IfErr result (λ e. V.known e.1 × OnlyRead V.seen V.may_leave V.moment V.left_since vault e.1) }
    ensures stays { V.known vault → IfOk result (λ s. V.known s.store.vault) }
    ensures both { V.known vault → (what : Shown) → length what.bytes ≡ size → IsLeftOf HasBoth what groups drives absent.now (recovered (V.seen vault))
        → IfOk result (λ s. ShowsState (⟦<JournaledStore<N, V> as ByteStore>⟧.keys s.store) (durable what) what
        × ⟦<JournaledStore<N, V> as ByteStore>⟧.represents s.store (durable what)) }

    // What is opened shows what was written last, where each unit that is as its digest says is that one: rotten units change nothing of it.
    ensures honest { V.known vault → (written : Cells) → AreLastIfAttested (V.attested vault) drives absent.now (V.seen vault) written
        → (what : Shown) → length what.bytes ≡ size → IsLeftOf HasBoth what groups drives absent.now (recovered (with_cells (V.seen vault) written))
        → IfOk result (λ s. ShowsState (⟦<JournaledStore<N, V> as ByteStore>⟧.keys s.store) (durable what) what
        × ⟦<JournaledStore<N, V> as ByteStore>⟧.represents s.store (durable what)) }
    ensures same { V.known vault → (what : Shown) → length what.bytes ≡ size → IsLeftOf HasBoth what groups drives absent.now (recovered (V.seen vault))
        → IfOk result (λ s. IsOn groups drives s.store.store.tiers) }
    ensures size { IfOk result (λ s. s.store.store.size ≡ size) }

    // A stop since it was called leaves what is opened, and goes on to.
    ensures lasts { V.known vault → (what : Shown) → length what.bytes ≡ size
        → IsSoundFor HasBoth V.seen V.may_leave what groups drives (shape.now.extents * extent_units shape.now.segments) absent.now vault
        → IfOk result (λ s. HasBegun V.known V.seen V.may_leave V.moment V.left_since (V.moment vault) what (point s.store)) }

    // So does one since all lost drives were marked, also where a drive is missing for the first time. One before that leaves what is
    // opened again if the same drives are absent.
    ensures marks { V.known vault → (what : Shown) → length what.bytes ≡ size
        → IsSoundBut V.seen V.may_leave what groups drives (shape.now.extents * extent_units shape.now.segments) absent.now vault
        → IfOk result (λ s. OnOk s.marked (OnceMarked V.known V.moment V.left_since what groups drives absent.now vault
        (λ t. HasBegun V.known V.seen V.may_leave V.moment V.left_since t what (point s.store)))) }
{
    let store = recovered_store::<N, V>(
        alloc, vault, opened, shape, groups, extents, drives, size, absent, settle_at,
    );
    match store {
        Ok(store) => {
            let (store, marked) = mark_lost(resumed(store, scrub_at));
            Ok(OpenedStore {
                store: settled(store),
                marked,
            })
        }
        Err(refused) => Err(refused),
    }
}
