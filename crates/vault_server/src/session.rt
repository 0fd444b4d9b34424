// A session with one client, from the opening of a vault's array to its last settling.
ghost use Rattle.std.specs.Prelude.{◌≡◌, ◌*◌, ℕ, length, IfErr, IfOk, IsOk, OnOk, ⊤};
ghost use Rattle.extents.specs.Sizes.{extent_units};
ghost use Rattle.extent_groups.specs.Groups.{Groups};
ghost use Rattle.vault.specs.Images.{recovered};
ghost use Rattle.byte_store.specs.Lasting.{Shown, ShowsState};
ghost use Rattle.journaled_store.specs.Left.{HasBoth, IsLeftOf};
ghost use Rattle.journaled_store.specs.Outlasting.{point};
ghost use Rattle.nbd_serve.specs.Stopping.{store_type};
ghost use Rattle.array_recovery.specs.Found.{OnlyRead};
ghost use Rattle.array_recovery.specs.Reopened.{IsSoundFor};
ghost use Rattle.vault_server.specs.Served.{HasBegun, IsOn, IsServedFrom, Opens, durable};
ghost use Rattle.vault_server.specs.Missing.{IsSoundBut, OnceMarked};

use crate::opening::{OpenedStore, open_settled};
use array_recovery::RecoveryFault;
use byte_store::{ByteStore, StoreFault};
use cached_drive::Saved;
use extent_groups::GroupTable;
use extents::{DRIVES, ExtentTable, Shape};
use history::{Chronicle, Opened};
use journaled_store::{JournaledStore, ScrubPosition};
use nbd_serve::{End, serve};
use std::alloc::Global;
use std::io::{Read, Write};
use vault::Vault;
use watched_store::{Sees, Watched};

/// What is there after a session.
#[derive(Drop)]
pub struct Served<N: Chronicle, V: Vault + Drop, W: Sees<JournaledStore<N, V>> + Drop> {
    /// Whether all that a session before has left, and the marks of the drives that were missing, were durable before it began.
    pub marked: Result<(), StoreFault>,
    /// How it ended.
    pub end: End,
    /// Whether all bytes are durable.
    pub flushed: Result<(), StoreFault>,
    /// The store, whose journal is empty unless it couldn't be settled.
    pub store: JournaledStore<N, V>,
    /// What looked at the store.
    pub watch: W,
}

// Serves a store, and then makes all durable and settles its journal.
fn attend<N: Chronicle, V: Vault + Drop, W: Sees<JournaledStore<N, V>> + Drop, R: Read, O: Write>(
    alloc: Global,
    store: JournaledStore<N, V>,
    marked: Result<(), StoreFault>,
    watch: W,
    reader: &mut R,
    writer: &mut O,
) -> Served<N, V, W>
    ensures marked { result.marked ≡ marked }
    ensures served { let type = store_type ⟦<Watched<JournaledStore<N, V>, W> as ByteStore>⟧.represents ⟦<Watched<JournaledStore<N, V>, W> as ByteStore>⟧.keys
        ⟦<Watched<JournaledStore<N, V>, W> as ByteStore>⟧.stays ⟦<Watched<JournaledStore<N, V>, W> as ByteStore>⟧.outlasts
        ⟦<Watched<JournaledStore<N, V>, W> as ByteStore>⟧.moment ⟦<Watched<JournaledStore<N, V>, W> as ByteStore>⟧.outlasts_since in
        (what : Shown) → store.store.size ≡ length what.bytes → ShowsState (⟦<JournaledStore<N, V> as ByteStore>⟧.keys store) (durable what) what
        → ⟦<JournaledStore<N, V> as ByteStore>⟧.represents store (durable what)
        → (groups : Groups) (drives since : ℕ) → IsOn groups drives store.store.tiers
        → IsServedFrom type ⟦<Watched<JournaledStore<N, V>, W> as ByteStore>⟧.may_refuse
        (HasBegun V.known V.seen V.may_leave V.moment V.left_since since what (point store))
        (Opens V.left_since groups drives result.store.vault) since (V.moment result.store.vault) (IsOk result.flushed) what result.end
        (R.remaining reader.old) (R.remaining reader.new) (O.contents writer.old) (O.contents writer.new) }
{
    let mut watched = Watched::new(store, watch);
    let end = serve(alloc, reader, writer, &mut watched);
    let flushed = watched.flush();
    let (mut store, mut watch) = watched.into_parts();
    let _ = store.settle();
    watch.sees(&store);
    Served {
        marked,
        end,
        flushed,
        store,
        watch,
    }
}

/// Opens the array of a vault, serves it to one client over a reader and a writer, and then makes all durable and settles the journal.
/// `watch` sees the store when it is open, whenever it has rested, and at the end. Where nothing is opened, the vault is returned, and
/// nothing was read or written. The rest is as for `open_settled`.
pub fn serve_vault<
    N: Chronicle,
    V: Vault + Drop,
    W: Sees<JournaledStore<N, V>> + Drop,
    R: Read,
    O: Write,
>(
    alloc: Global,
    vault: V,
    opened: Opened<Saved>,
    shape: &Shape,
    groups: GroupTable,
    extents: ExtentTable,
    drives: u8,
    size: u64,
    absent: &[bool; DRIVES],
    settle_at: u64,
    scrub_at: ScrubPosition,
    watch: W,
    reader: &mut R,
    writer: &mut O,
) -> Result<Served<N, V, W>, (RecoveryFault, V)>
    requires { opened ≡ N.chronicle }
    ensures back { V.known vault → IfErr result (λ e. V.known e.1 × OnlyRead V.seen V.may_leave V.moment V.left_since vault e.1) }

    // Over a vault that has all of an array that showed this: the client's requests are answered as by the flat store with its bytes. Each
    // acknowledged write is found after a kill at any later moment, and after any stop once it was flushed: an array is opened that
    // shows what this one did then or later.
    ensures served { let type = store_type ⟦<Watched<JournaledStore<N, V>, W> as ByteStore>⟧.represents ⟦<Watched<JournaledStore<N, V>, W> as ByteStore>⟧.keys
        ⟦<Watched<JournaledStore<N, V>, W> as ByteStore>⟧.stays ⟦<Watched<JournaledStore<N, V>, W> as ByteStore>⟧.outlasts
        ⟦<Watched<JournaledStore<N, V>, W> as ByteStore>⟧.moment ⟦<Watched<JournaledStore<N, V>, W> as ByteStore>⟧.outlasts_since in
        V.known vault → (what : Shown) → length what.bytes ≡ size → IsLeftOf HasBoth what groups drives absent.now (recovered (V.seen vault))
        → IfOk result (λ s. IsServedFrom type ⟦<Watched<JournaledStore<N, V>, W> as ByteStore>⟧.may_refuse
        (IsSoundFor HasBoth V.seen V.may_leave what groups drives (shape.now.extents * extent_units shape.now.segments) absent.now vault)
        (Opens V.left_since groups drives s.store.vault) (V.moment vault) (V.moment s.store.vault) (IsOk s.flushed) what s.end
        (R.remaining reader.old) (R.remaining reader.new) (O.contents writer.old) (O.contents writer.new)) }

    // So it is where a drive is missing for the first time, for all stops since the drive was marked. One before that leaves what is
    // opened again if the same drives are absent.
    ensures missing { let type = store_type ⟦<Watched<JournaledStore<N, V>, W> as ByteStore>⟧.represents ⟦<Watched<JournaledStore<N, V>, W> as ByteStore>⟧.keys
        ⟦<Watched<JournaledStore<N, V>, W> as ByteStore>⟧.stays ⟦<Watched<JournaledStore<N, V>, W> as ByteStore>⟧.outlasts
        ⟦<Watched<JournaledStore<N, V>, W> as ByteStore>⟧.moment ⟦<Watched<JournaledStore<N, V>, W> as ByteStore>⟧.outlasts_since in
        V.known vault → (what : Shown) → length what.bytes ≡ size
        → IsSoundBut V.seen V.may_leave what groups drives (shape.now.extents * extent_units shape.now.segments) absent.now vault
        → IfOk result (λ s. OnOk s.marked (OnceMarked V.known V.moment V.left_since what groups drives absent.now vault
        (λ t. IsServedFrom type ⟦<Watched<JournaledStore<N, V>, W> as ByteStore>⟧.may_refuse ⊤
        (Opens V.left_since groups drives s.store.vault) t (V.moment s.store.vault) (IsOk s.flushed) what s.end
        (R.remaining reader.old) (R.remaining reader.new) (O.contents writer.old) (O.contents writer.new)))) }
{
    let store = open_settled::<N, V>(
        alloc, vault, opened, shape, groups, extents, drives, size, absent, settle_at, scrub_at,
    );
    match store {
        Ok(settled) => {
            let OpenedStore { store, marked } = settled;
            let mut watch = watch;
            watch.sees(&store);
            Ok(attend(alloc, store, marked, watch, reader, writer))
        }
        Err(refused) => Err(refused),
    }
}
