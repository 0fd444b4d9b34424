// A store is opened from a vault.
ghost use Rattle.std.specs.Prelude.{◌≡◌, ◌≤◌, ◌*◌, ℕ, List, [], ◌∷◌, false, length, slice_index, IfErr, IfOk};
ghost use Rattle.map_join.specs.Maps.{IsSame};
ghost use Rattle.extents.specs.Sizes.{extent_units};
ghost use Rattle.extent_groups.specs.Cells.{Cells};
ghost use Rattle.slot_tables.specs.Views.{key_at};
ghost use Rattle.vault.specs.Images.{recovered};
ghost use Rattle.byte_store.specs.Lasting.{Shown, ShowsState};
ghost use Rattle.array_store.specs.Blocks.{Holds};
ghost use Rattle.journaled_store.specs.Left.{HasBoth, HasKeys, IsLeftOf};
ghost use Rattle.journaled_store.specs.Outlasting.{Outlasts, OutlastsSince, point};
ghost use Rattle.array_recovery.specs.Found.{AreLastIfAttested, IsTable, OnlyRead, with_cells};
ghost use Rattle.array_recovery.specs.Reopened.{IsOpenedWith, IsSoundFor};

use crate::fault::RecoveryFault;
use crate::reopen::recover;
use byte_store::ByteStore;
use cached_drive::Saved;
use extent_groups::GroupTable;
use extents::{DRIVES, ExtentTable, Shape};
use history::{Chronicle, Opened};
use journaled_store::JournaledStore;
use std::alloc::Global;
use vault::Vault;

/// Opens a store of `drives` drives and `size` bytes from what outlived a stop, and goes on in the same vault. `settle_at` is that
/// of `JournaledStore::new`, the rest that of `recover`; the groups are those that `group_form::find_groups` found. The vault is only
/// read; where nothing is opened, it is returned.
pub fn open_store<N: Chronicle, V: Vault + Drop>(
    alloc: Global,
    vault: V,
    opened: Opened<Saved>,
    shape: &Shape,
    groups: GroupTable,
    extents: ExtentTable,
    drives: u8,
    size: u64,
    absent: &[bool; DRIVES],
    settle_at: u64,
) -> Result<JournaledStore<N, V>, (RecoveryFault, V)>
    requires { opened ≡ N.chronicle }

    // The vault is only read, whether or not a store is opened.
    ensures read { V.known vault → IfOk result (λ s. V.known s.vault × OnlyRead V.seen V.may_leave V.moment V.left_since vault s.vault) }
    ensures back { V.known vault → IfErr result (λ e. V.known e.1 × OnlyRead V.seen V.may_leave V.moment V.left_since vault e.1) }

    // A store of which the vault has all is opened with the same bytes, and the same block map: of each block the newest record.
    ensures reopened { V.known vault → (bytes : List ℕ) → length bytes ≡ size → IsLeftOf Holds bytes groups drives absent.now (recovered (V.seen vault))
        → IfOk result (λ s. ⟦<JournaledStore<N, V> as ByteStore>⟧.represents s (record { bytes = bytes; unsynced = false })) }
    ensures map { V.known vault → (keys : List ℕ) → IsLeftOf HasKeys keys groups drives absent.now (recovered (V.seen vault))
        → IfOk result (λ s. IsSame (key_at s.store.tiers.world.array) (slice_index keys)) }

    // One that showed both shows both: they are of one state.
    ensures both { V.known vault → (what : Shown) → length what.bytes ≡ size → IsLeftOf HasBoth what groups drives absent.now (recovered (V.seen vault))
        → IfOk result (λ s. ShowsState (⟦<JournaledStore<N, V> as ByteStore>⟧.keys s) (record { bytes = what.bytes; unsynced = false }) what
        × ⟦<JournaledStore<N, V> as ByteStore>⟧.represents s (record { bytes = what.bytes; unsynced = false })) }

    // What is opened shows what was written last, where each unit that is as its digest says is that one: rotten units change nothing of it.
    ensures honest { V.known vault → (written : Cells) → AreLastIfAttested (V.attested vault) drives absent.now (V.seen vault) written
        → (what : Shown) → length what.bytes ≡ size → IsLeftOf HasBoth what groups drives absent.now (recovered (with_cells (V.seen vault) written))
        → IfOk result (λ s. ShowsState (⟦<JournaledStore<N, V> as ByteStore>⟧.keys s) (record { bytes = what.bytes; unsynced = false }) what
        × ⟦<JournaledStore<N, V> as ByteStore>⟧.represents s (record { bytes = what.bytes; unsynced = false })
        × IsTable s.changes.noted (recovered (with_cells (V.seen vault) written))) }
    ensures works { IfOk result (λ s. (s.store.size ≡ size) × (s.failed ≡ false)) }
    ensures same { IfOk result (λ s. IsOpenedWith groups drives s.changes.noted absent.now s.store.tiers) }

    // A stop leaves a vault of which a store with the same bytes is opened again, one with the same block map, and one with both.
    ensures lasts { V.known vault → (bytes : List ℕ) → length bytes ≡ size
        → IsSoundFor Holds V.seen V.may_leave bytes groups drives (shape.now.extents * extent_units shape.now.segments) absent.now vault
        → IfOk result (λ s. Outlasts Holds V.known V.seen V.may_leave (point s) (bytes ∷ []) (bytes ∷ [])) }
    ensures map_lasts { V.known vault → (keys : List ℕ)
        → IsSoundFor HasKeys V.seen V.may_leave keys groups drives (shape.now.extents * extent_units shape.now.segments) absent.now vault
        → IfOk result (λ s. Outlasts HasKeys V.known V.seen V.may_leave (point s) (keys ∷ []) (keys ∷ [])) }
    ensures both_last { V.known vault → (what : Shown)
        → IsSoundFor HasBoth V.seen V.may_leave what groups drives (shape.now.extents * extent_units shape.now.segments) absent.now vault
        → IfOk result (λ s. ⟦<JournaledStore<N, V> as ByteStore>⟧.outlasts s (what ∷ []) (what ∷ [])) }
    ensures during { V.known vault → (what : Shown)
        → IsSoundFor HasBoth V.seen V.may_leave what groups drives (shape.now.extents * extent_units shape.now.segments) absent.now vault
        → IfOk result (λ s. (V.moment vault ≤ V.moment s.vault) × OutlastsSince HasBoth V.left_since (point s) (V.moment vault) (what ∷ []) (what ∷ [])) }
{
    let mut vault = vault;
    match recover::<N, V>(
        alloc, &mut vault, opened, shape, groups, extents, drives, size, absent,
    ) {
        Ok((store, changes)) => Ok(JournaledStore::new(alloc, store, changes, vault, settle_at)),
        Err(fault) => Err((fault, vault)),
    }
}
