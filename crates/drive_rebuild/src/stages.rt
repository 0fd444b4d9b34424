// The stages of a replacement: what is found, the drive's units, and its mark.
ghost use Rattle.std.specs.Prelude.{◌≡◌, ◌≢◌, ◌+◌, ◌*◌, ◌<◌, [], ◌∷◌, ℕ, List, Bool, false, length, true, IfOk, OnOk};
ghost use Rattle.extents.specs.Sizes.{extent_units};
ghost use Rattle.extent_groups.specs.Planned.{after};
ghost use Rattle.vault.specs.Images.{Image, Matches, SameOn, is_lost, recovered};
ghost use Rattle.vault.specs.Moments.{AreLogged, IsBeforeOrAfter, LeavesOnly};
ghost use Rattle.vault.specs.declared.store.Stop.{Stop};
ghost use Rattle.journaled_store.specs.Steps.{table_write};
ghost use Rattle.array_recovery.specs.Found.{IsTable, OnlyRead, is_marked};
ghost use Rattle.drive_rebuild.specs.Rebuilt.{AreVerified};
ghost use Rattle.drive_rebuild.specs.Written.{AreLostWith, IsOnlyMarked, IsReadyToWrite, WroteLost};

use crate::compute::compute;
use crate::fault::RebuildFault;
use crate::verify::verify;
use crate::write::{Watch, write_drive};
use array_recovery::{Found, find};
use extent_groups::{GroupTable, Place};
use extents::{DRIVES, ExtentTable, MemDrive, Shape};
use std::alloc::Global;
use vault::{Batch, TABLE, Vault, keep, settle};

// Whether a drive has a mark.
fn has_mark(marks: &[u8; DRIVES], drive: u8) -> bool
    ensures { result ≡ is_marked marks.now drive }
{
    match marks.get(usize::from(drive)) {
        Some(mark) => *mark != 0,
        None => false,
    }
}

// Tests that a drive has no mark, but for one of them.
fn test_other(marks: &[u8; DRIVES], drive: u8, number: u8) -> Result<(), RebuildFault>
    ensures { OnOk result (drive ≢ number → is_marked marks.now drive ≡ false) }
{
    if drive == number {
        return Ok(());
    }
    if has_mark(marks, drive) {
        return Err(RebuildFault::OtherLost(drive));
    }
    Ok(())
}

// Tests that of the first drives one alone is marked.
fn test_marks(marks: &[u8; DRIVES], drives: u8, number: u8) -> Result<(), RebuildFault>
    ensures { OnOk result (IsOnlyMarked marks.now drives number) }
{
    if number >= drives {
        return Err(RebuildFault::NotLost);
    }
    if !has_mark(marks, number) {
        return Err(RebuildFault::NotLost);
    }
    for drive in 0..drives {
        test_other(marks, drive, number)?;
    }
    Ok(())
}

/// What a vault stands for, where of the first drives its table marks this one alone.
pub(crate) fn look<V: Vault>(
    alloc: Global,
    vault: &mut V,
    shape: &Shape,
    drives: u8,
    number: u8,
) -> Result<Found, RebuildFault>
    ensures stays { V.known vault.old → V.known vault.new }
    ensures read { V.known vault.old → OnlyRead V.seen V.may_leave V.moment V.left_since vault.old vault.new }
    ensures table { V.known vault.old → IfOk result (λ f. IsTable f.marks (recovered (V.seen vault.old))) }
    ensures only { IfOk result (λ f. IsOnlyMarked f.marks drives number) }
    ensures wide { IfOk result (λ f. length f.marks ≡ 16) }
{
    let found = find(alloc, vault, shape, drives, &[false; DRIVES])?;
    test_marks(&found.marks, drives, number)?;
    Ok(found)
}

// Computes a drive's units, and writes them to their places.
fn rebuild_units<V: Vault, W: Watch>(
    alloc: Global,
    vault: &mut V,
    watch: &mut W,
    shape: &Shape,
    groups: &GroupTable,
    caches: Vec<MemDrive>,
    number: u8,
) -> Result<(), RebuildFault>
    ensures stays { V.known vault.old → V.known vault.new }
    ensures wrote { V.known vault.old → (lost : List Bool) → is_lost lost number ≡ true
        → WroteLost V.seen V.may_leave V.moment V.left_since lost vault.old vault.new }
{
    let mut caches = caches;
    let mut unit = vec![in alloc; 0u8; shape.unit_bytes()]?;
    let mut part = vec![in alloc; 0u8; shape.unit_bytes()]?;
    let drives: &mut [MemDrive] = &mut caches;
    if !compute(groups, drives, number, &mut unit, &mut part) {
        return Err(RebuildFault::Misfit);
    }
    let place = usize::from(number);
    if place >= drives.len() {
        return Err(RebuildFault::Misfit);
    }
    write_drive(vault, watch, number, &mut drives[place], &mut unit)
}

/// Empties the journal, and gives a drive its units, which are computed from those that were found. All is durable and was read back
/// where this is Ok. The drives of `counts` are those that are out of use.
pub(crate) fn prepare<V: Vault, W: Watch>(
    alloc: Global,
    vault: &mut V,
    batch: &mut Batch,
    watch: &mut W,
    shape: &Shape,
    groups: GroupTable,
    extents: ExtentTable,
    caches: Vec<MemDrive>,
    drives: u8,
    number: u8,
    counts: &[bool; DRIVES],
) -> Result<(), RebuildFault>
    ensures stays { V.known vault.old → V.known vault.new }
    ensures ready { V.known vault.old → (lost : List Bool) → AreLostWith lost counts.now number → AreLogged V.seen V.may_leave lost vault.old
        → OnOk result (IsReadyToWrite V.seen V.may_leave lost counts.now vault.old vault.new) }
    ensures any_moment { V.known vault.old → (lost : List Bool) → AreLostWith lost counts.now number → AreLogged V.seen V.may_leave lost vault.old
        → (stop : Stop) → LeavesOnly V.moment V.left_since stop vault.old vault.new (Matches lost (recovered (V.seen vault.old))) }
    ensures verified { V.known vault.old → ((d : ℕ) → d < drives → is_lost counts.now d ≡ false)
        → OnOk result (AreVerified groups drives (shape.now.extents * extent_units shape.now.segments) (Image.cells (V.seen vault.new))) }
{
    // Also what lies at the drive's places is durable, so that the journal can be settled there too: whether its units are right doesn't
    // matter yet.
    vault.sync_units(counts)?;
    settle(vault, batch, counts)?;
    rebuild_units(alloc, vault, watch, shape, &groups, caches, number)?;
    vault.sync_units(counts)?;
    verify(alloc, vault, shape, groups, extents, drives, counts)
}

/// Writes the table, and settles that.
pub(crate) fn note_marks<V: Vault>(
    vault: &mut V,
    batch: &mut Batch,
    marks: &[u8; DRIVES],
    counts: &[bool; DRIVES],
) -> Result<(), RebuildFault>
    ensures stays { V.known vault.old → V.known vault.new }
    ensures durable { V.known vault.old → AreLogged V.seen V.may_leave counts.now vault.old → OnOk result (AreLogged V.seen V.may_leave counts.now vault.new) }
    ensures noted { V.known vault.old → AreLogged V.seen V.may_leave counts.now vault.old
        → OnOk result (SameOn counts.now (recovered (V.seen vault.new)) (after (recovered (V.seen vault.old)) (table_write marks.now ∷ []))) }
    ensures any_moment { V.known vault.old → AreLogged V.seen V.may_leave counts.now vault.old
        → (stop : Stop) → LeavesOnly V.moment V.left_since stop vault.old vault.new
        (IsBeforeOrAfter counts.now (recovered (V.seen vault.old)) (table_write marks.now ∷ [])) }
{
    let place = Place {
        drive: TABLE,
        address: 0,
    };
    batch.clear();
    batch.push(place, marks)?;
    keep(vault, batch)?;
    settle(vault, batch, counts)?;
    Ok(())
}
