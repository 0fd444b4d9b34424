// A lost drive is replaced.
ghost use Rattle.std.specs.Prelude.{◌≡◌, ◌*◌, [], ◌∷◌, ℕ, List, Bool, OnOk};
ghost use Rattle.extents.specs.Sizes.{extent_units};
ghost use Rattle.vault.specs.Images.{recovered};
ghost use Rattle.vault.specs.Moments.{AreLogged, LeavesOnly};
ghost use Rattle.vault.specs.declared.store.Stop.{Stop};
ghost use Rattle.byte_store.specs.Lasting.{Shown};
ghost use Rattle.array_store.specs.Blocks.{Holds};
ghost use Rattle.journaled_store.specs.Left.{HasBoth, HasKeys};
ghost use Rattle.journaled_store.specs.Outlasting.{OpensAs};
ghost use Rattle.drive_rebuild.specs.Rebuilt.{AreMarkedLost, CanBeRebuilt, IsBeforeOrReplaced, IsReplaced, HasAllDrives};
ghost use Rattle.drive_rebuild.specs.Written.{unmarked};

use crate::fault::RebuildFault;
use crate::stages::{look, note_marks, prepare};
use crate::write::Watch;
use array_recovery::lost_drives;
use extent_groups::GroupTable;
use extents::{DRIVES, ExtentTable, Shape};
use std::alloc::Global;
use vault::{Batch, Vault};

// The marks without that of a drive.
fn without(marks: &[u8; DRIVES], number: u8) -> [u8; DRIVES]
    ensures { result ≡ unmarked marks.now number }
{
    let mut marks = *marks;
    if usize::from(number) < DRIVES {
        marks[usize::from(number)] = 0;
    }
    marks
}

// Replaces a drive: said of the vault's units alone.
fn replace_marked<V: Vault, W: Watch>(
    alloc: Global,
    vault: &mut V,
    watch: &mut W,
    shape: &Shape,
    groups: GroupTable,
    extents: ExtentTable,
    drives: u8,
    number: u8,
) -> Result<(), RebuildFault>
    ensures stays { V.known vault.old → V.known vault.new }
    ensures replaced { V.known vault.old → (lost : List Bool) → AreMarkedLost drives lost (recovered (V.seen vault.old)) → AreLogged V.seen V.may_leave lost vault.old
        → OnOk result (IsReplaced V.seen V.may_leave groups drives (shape.now.extents * extent_units shape.now.segments) number lost
        (recovered (V.seen vault.old)) vault.new) }
    ensures any_moment { V.known vault.old → (lost : List Bool) → AreMarkedLost drives lost (recovered (V.seen vault.old)) → AreLogged V.seen V.may_leave lost vault.old
        → (stop : Stop) → LeavesOnly V.moment V.left_since stop vault.old vault.new
        (IsBeforeOrReplaced groups drives (shape.now.extents * extent_units shape.now.segments) number lost (recovered (V.seen vault.old))) }
{
    let found = look(alloc, vault, shape, drives, number)?;
    let marks = without(&found.marks, number);
    let counts = lost_drives(&marks, &[false; DRIVES]);
    let mut batch = Batch::new(alloc);
    prepare(
        alloc,
        vault,
        &mut batch,
        watch,
        shape,
        groups,
        extents,
        found.caches,
        drives,
        number,
        &counts,
    )?;
    note_marks(vault, &mut batch, &marks, &counts)
}

/// Gives a drive that the table marks as lost its units again, and clears its mark. Its places must be there, with any units. They are
/// computed from those of the other drives, of which none may be lost, written and synced. All drives are read back then, and the mark
/// is cleared only if each slot is sound. Stopped or refused, open the vault again and try again.
pub fn replace_drive<V: Vault, W: Watch>(
    alloc: Global,
    vault: &mut V,
    watch: &mut W,
    shape: &Shape,
    groups: GroupTable,
    extents: ExtentTable,
    drives: u8,
    number: u8,
) -> Result<(), RebuildFault>
    ensures stays { V.known vault.old → V.known vault.new }

    // After Ok the vault has an array with the same bytes and the same block map, of which no drive is lost.
    ensures rebuilt { V.known vault.old → (bytes : List ℕ)
        → CanBeRebuilt Holds V.seen V.may_leave bytes groups drives (shape.now.extents * extent_units shape.now.segments) vault.old
        → OnOk result (HasAllDrives Holds V.seen V.may_leave bytes groups drives (shape.now.extents * extent_units shape.now.segments) vault.new) }
    ensures map { V.known vault.old → (keys : List ℕ)
        → CanBeRebuilt HasKeys V.seen V.may_leave keys groups drives (shape.now.extents * extent_units shape.now.segments) vault.old
        → OnOk result (HasAllDrives HasKeys V.seen V.may_leave keys groups drives (shape.now.extents * extent_units shape.now.segments) vault.new) }

    // And both are of one state.
    ensures both { V.known vault.old → (what : Shown)
        → CanBeRebuilt HasBoth V.seen V.may_leave what groups drives (shape.now.extents * extent_units shape.now.segments) vault.old
        → OnOk result (HasAllDrives HasBoth V.seen V.may_leave what groups drives (shape.now.extents * extent_units shape.now.segments) vault.new) }

    // A stop at any moment, also after an error, leaves a vault from which such an array is opened.
    ensures any_moment { V.known vault.old → (bytes : List ℕ)
        → CanBeRebuilt Holds V.seen V.may_leave bytes groups drives (shape.now.extents * extent_units shape.now.segments) vault.old
        → (stop : Stop) → LeavesOnly V.moment V.left_since stop vault.old vault.new (λ i. OpensAs Holds (bytes ∷ []) groups drives (recovered i)) }
    ensures map_any_moment { V.known vault.old → (keys : List ℕ)
        → CanBeRebuilt HasKeys V.seen V.may_leave keys groups drives (shape.now.extents * extent_units shape.now.segments) vault.old
        → (stop : Stop) → LeavesOnly V.moment V.left_since stop vault.old vault.new (λ i. OpensAs HasKeys (keys ∷ []) groups drives (recovered i)) }
    ensures both_any_moment { V.known vault.old → (what : Shown)
        → CanBeRebuilt HasBoth V.seen V.may_leave what groups drives (shape.now.extents * extent_units shape.now.segments) vault.old
        → (stop : Stop) → LeavesOnly V.moment V.left_since stop vault.old vault.new (λ i. OpensAs HasBoth (what ∷ []) groups drives (recovered i)) }

    // Of the other drives no unit changes: the marks alone, and the drive's units.
    ensures others { V.known vault.old → (lost : List Bool) → AreMarkedLost drives lost (recovered (V.seen vault.old)) → AreLogged V.seen V.may_leave lost vault.old
        → OnOk result (IsReplaced V.seen V.may_leave groups drives (shape.now.extents * extent_units shape.now.segments) number lost
        (recovered (V.seen vault.old)) vault.new) }
    ensures others_any_moment { V.known vault.old → (lost : List Bool) → AreMarkedLost drives lost (recovered (V.seen vault.old))
        → AreLogged V.seen V.may_leave lost vault.old → (stop : Stop) → LeavesOnly V.moment V.left_since stop vault.old vault.new
        (IsBeforeOrReplaced groups drives (shape.now.extents * extent_units shape.now.segments) number lost (recovered (V.seen vault.old))) }
{
    replace_marked(alloc, vault, watch, shape, groups, extents, drives, number)
}
