// An array is opened from a vault.
ghost use Rattle.std.specs.Prelude.{◌≡◌, ◌+◌, ◌*◌, ℕ, List, Bool, Some, false, length, slice_get, slice_index, IfOk};
ghost use Rattle.map_join.specs.Maps.{IsSame};
ghost use Rattle.extents.specs.Condition.{Held};
ghost use Rattle.extents.specs.Sizes.{extent_units};
ghost use Rattle.extents.specs.declared.mem_drive.Condition.TheVariants.{Present};
ghost use Rattle.extents.specs.declared.shape.TheConstants.{HEADER_BYTES};
ghost use Rattle.extent_groups.specs.Cells.{Cells};
ghost use Rattle.slot_tables.specs.Views.{key_at};
ghost use Rattle.vault.specs.Images.{recovered};
ghost use Rattle.journaled_store.specs.Steps.{IsUpToDate};
ghost use Rattle.byte_store.specs.Lasting.{Shown};
ghost use Rattle.array_store.specs.Blocks.{Holds};
ghost use Rattle.array_store.specs.Stores.{IsStoreOf};
ghost use Rattle.array_recovery.specs.Found.{AreFormed, AreGone, AreLastIfAttested, IsFoundInCells, IsTable, OnlyRead, with_cells};
ghost use Rattle.journaled_store.specs.Left.{HasBoth, HasKeys, IsLeftOf};
ghost use Rattle.array_recovery.specs.Reopened.{CoversGone, EndsAt, IsOpenedWith};

use crate::fault::RecoveryFault;
use crate::load::test_rotten;
use crate::marks::{lost_drives, read_marks};
use crate::rebuild::rebuild;
use crate::replay::replay;
use crate::seat::seat_all;
use array_store::ArrayStore;
use cached_drive::{CachedDrive, Saved};
use extent_groups::GroupTable;
use extents::{DRIVES, ExtentTable, MemDrive, Shape};
use history::{Chronicle, Opened};
use journaled_store::Changes;
use rotten_units::{Loaded, load_units};
use std::alloc::Global;
use unit_store::Parts;
use vault::{Batch, Vault};

/// What a vault stands for.
#[derive(Drop)]
pub struct Found {
    /// The units of each drive after the journal's writes. A lost drive's are zeros.
    pub caches: Vec<MemDrive>,
    /// The table's marks.
    pub marks: [u8; DRIVES],
    /// Which drives are lost.
    pub lost: [bool; DRIVES],
}

/// Finds what a vault stands for. It is only read. Refused where a unit of a drive that isn't lost is rotten, and the journal doesn't write it.
pub fn find<V: Vault>(
    alloc: Global,
    vault: &mut V,
    shape: &Shape,
    drives: u8,
    absent: &[bool; DRIVES],
) -> Result<Found, RecoveryFault>
    ensures stays { V.known vault.old → V.known vault.new }
    ensures read { V.known vault.old → OnlyRead V.seen V.may_leave V.moment V.left_since vault.old vault.new }
    ensures found { V.known vault.old → IfOk result (λ f. IsFoundInCells (recovered (V.seen vault.old)) absent.now f.marks f.lost f.caches.items) }

    // No unit is used that isn't as its digest says: where each other one is the one that was written last, what was written is found.
    ensures honest { V.known vault.old → (written : Cells) → AreLastIfAttested (V.attested vault.old) drives absent.now (V.seen vault.old) written
        → IfOk result (λ f. IsFoundInCells (recovered (with_cells (V.seen vault.old) written)) absent.now f.marks f.lost f.caches.items) }
    ensures gone { IfOk result (λ f. AreGone f.marks absent.now f.lost) }
    ensures long { IfOk result (λ f. length f.marks ≡ 16) }
    ensures many { IfOk result (λ f. length f.caches.items ≡ drives) }
    ensures formed { IfOk result (λ f. AreFormed (shape.now.extents * extent_units shape.now.segments) (HEADER_BYTES + shape.now.payload) f.caches.items) }
{
    let mut batch = Batch::new(alloc);
    let marks = read_marks(vault, &mut batch)?;
    let lost = lost_drives(&marks, absent);
    let loaded = load_units(alloc, vault, shape, drives, &lost)?;
    let Loaded {
        mut caches,
        mut rotten,
    } = loaded;
    replay(vault, &mut batch, &mut caches, &mut rotten, &lost)?;
    // A stop in the middle of a settling tears units: the journal has these.
    test_rotten(&rotten)?;
    Ok(Found {
        caches,
        marks,
        lost,
    })
}

// The array of what was found, and the changes that the vault has not.
fn open_found<N: Chronicle>(
    alloc: Global,
    opened: Opened<Saved>,
    shape: &Shape,
    groups: GroupTable,
    extents: ExtentTable,
    size: u64,
    found: Found,
) -> Result<(ArrayStore<CachedDrive<N>>, Changes<N>), RecoveryFault>
    requires opened { opened ≡ N.chronicle }
    requires present { (d : ℕ) (m : Held) → slice_get found.caches.items d ≡ Some m → m.condition ≡ Present }
    ensures reopened { IfOk result (λ r. (c : Cells) (absent : List Bool) (bytes : List ℕ) → IsFoundInCells c absent found.marks found.lost found.caches.items
        → length bytes ≡ size → IsLeftOf Holds bytes groups (length found.caches.items) absent c
        → IsStoreOf r.0.tiers r.0.size r.0.unsynced (record { bytes = bytes; unsynced = false })) }
    ensures map { IfOk result (λ r. (c : Cells) (absent : List Bool) (keys : List ℕ) → IsFoundInCells c absent found.marks found.lost found.caches.items
        → IsLeftOf HasKeys keys groups (length found.caches.items) absent c → IsSame (key_at r.0.tiers.world.array) (slice_index keys)) }
    ensures size { IfOk result (λ r. r.0.size ≡ size) }
    ensures same { IfOk result (λ r. (absent : List Bool) → AreGone found.marks absent found.lost
        → IsOpenedWith groups (length found.caches.items) r.1.noted absent r.0.tiers) }
    ensures marks { IfOk result (λ r. r.1.noted ≡ found.marks) }
    ensures live { IfOk result (λ r. (c : Cells) (absent lost : List Bool) (count size : ℕ) → IsFoundInCells c absent found.marks found.lost found.caches.items
        → AreFormed count size found.caches.items → CoversGone (length found.caches.items) r.1.noted absent lost
        → EndsAt lost (length found.caches.items) count c → IsUpToDate lost r.1.keeper r.1.noted r.1.batch c) }
{
    let (history, mut keeper, first) = opened.named::<N>();
    let seated = seat_all(
        alloc,
        &history,
        &mut keeper,
        first,
        found.caches,
        &found.lost,
    )?;
    let parts = Parts {
        shape: *shape,
        groups,
        extents,
        drives: seated,
        note: None,
    };
    let store = rebuild(alloc, parts, size)?;
    let changes = Changes::new(alloc, history, keeper, shape.unit_bytes(), found.marks)?;
    Ok((store, changes))
}

/// Opens an array of `drives` drives and `size` bytes from what outlived a stop. The vault is only read. Drives that the table
/// marks are lost, and so are those that are absent; the first `publish` puts these into the table.
pub fn recover<N: Chronicle, V: Vault>(
    alloc: Global,
    vault: &mut V,
    opened: Opened<Saved>,
    shape: &Shape,
    groups: GroupTable,
    extents: ExtentTable,
    drives: u8,
    size: u64,
    absent: &[bool; DRIVES],
) -> Result<(ArrayStore<CachedDrive<N>>, Changes<N>), RecoveryFault>
    requires { opened ≡ N.chronicle }
    ensures stays { V.known vault.old → V.known vault.new }
    ensures read { V.known vault.old → OnlyRead V.seen V.may_leave V.moment V.left_since vault.old vault.new }

    // An array of which the vault has all is opened with the same bytes: each block's read is its last acknowledged write.
    ensures reopened { V.known vault.old → (bytes : List ℕ) → length bytes ≡ size → IsLeftOf Holds bytes groups drives absent.now (recovered (V.seen vault.old))
        → IfOk result (λ r. IsStoreOf r.0.tiers r.0.size r.0.unsynced (record { bytes = bytes; unsynced = false })) }

    // And with the same block map: of each block the newest record of before.
    ensures map { V.known vault.old → (keys : List ℕ) → IsLeftOf HasKeys keys groups drives absent.now (recovered (V.seen vault.old))
        → IfOk result (λ r. IsSame (key_at r.0.tiers.world.array) (slice_index keys)) }

    // One that had both has both: they are of one state.
    ensures both { V.known vault.old → (what : Shown) → length what.bytes ≡ size → IsLeftOf HasBoth what groups drives absent.now (recovered (V.seen vault.old))
        → IfOk result (λ r. HasBoth r.0.tiers what) }

    // What is opened shows what was written last, where each unit that is as its digest says is that one: rotten units change nothing of it.
    ensures honest { V.known vault.old → (written : Cells) → AreLastIfAttested (V.attested vault.old) drives absent.now (V.seen vault.old) written
        → (what : Shown) → length what.bytes ≡ size → IsLeftOf HasBoth what groups drives absent.now (recovered (with_cells (V.seen vault.old) written))
        → IfOk result (λ r. HasBoth r.0.tiers what × IsTable r.1.noted (recovered (with_cells (V.seen vault.old) written))) }
    ensures size { IfOk result (λ r. r.0.size ≡ size) }

    // It has the groups and as many drives as are given, and each drive that is marked or absent is lost in it.
    ensures same { IfOk result (λ r. IsOpenedWith groups drives r.1.noted absent.now r.0.tiers) }
    ensures long { IfOk result (λ r. length r.1.noted ≡ 16) }
    ensures marks { V.known vault.old → IfOk result (λ r. IsTable r.1.noted (recovered (V.seen vault.old))) }

    // What the first `publish` needs.
    ensures live { V.known vault.old → (lost : List Bool) → IfOk result (λ r. CoversGone drives r.1.noted absent.now lost
        → EndsAt lost drives (shape.now.extents * extent_units shape.now.segments) (recovered (V.seen vault.old))
        → IsUpToDate lost r.1.keeper r.1.noted r.1.batch (recovered (V.seen vault.old))) }
{
    if usize::from(drives) > DRIVES {
        return Err(RecoveryFault::Unsound);
    }
    let found = find(alloc, vault, shape, drives, absent)?;
    open_found::<N>(alloc, opened, shape, groups, extents, size, found)
}
