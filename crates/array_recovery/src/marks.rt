// Which drives the table says are lost.
ghost use Rattle.std.specs.Prelude.{◌≡◌, ◌==◌, ◌||◌, ℕ, List, not, length, true, OnOk, IfOk};
ghost use Rattle.extent_groups.specs.Cells.{Cells};
ghost use Rattle.extent_groups.specs.Planned.{after, with_unit};
ghost use Rattle.vault.specs.Images.{Image, recovered};
ghost use Rattle.vault.specs.Moments.{AttestsNoMore};
ghost use Rattle.vault.specs.declared.store.UnitRead.TheVariants.{Absent, Whole};
ghost use Rattle.array_recovery.specs.Found.{AreGone, AreMarksIf, IsLastIfAttested, IsTable, OnlyRead, with_cells};

use crate::fault::RecoveryFault;
use extent_groups::Place;
use extents::DRIVES;
use vault::{Batch, TABLE, UnitRead, Vault};

// Puts a write of the table over the marks, which are known then.
fn mark_unit(
    marks: &mut [u8; DRIVES],
    is_known: &mut bool,
    place: Place,
    unit: &[u8],
) -> Result<(), RecoveryFault>
    ensures { OnOk result ((c : Cells) → AreMarksIf is_known.old marks.old c → AreMarksIf is_known.new marks.new (with_unit c (record { place = place; unit = unit.now }))) }
{
    if place.drive != TABLE || place.address != 0 {
        return Ok(());
    }
    if unit.len() != DRIVES {
        return Err(RecoveryFault::NoTable);
    }
    marks.copy_from_slice(unit);
    *is_known = true;
    Ok(())
}

// Puts a batch's writes of the table over the marks.
fn mark_batch(
    marks: &mut [u8; DRIVES],
    is_known: &mut bool,
    batch: &Batch,
) -> Result<(), RecoveryFault>
    ensures { OnOk result ((c : Cells) → AreMarksIf is_known.old marks.old c → AreMarksIf is_known.new marks.new (after c batch.now)) }
{
    for index in 0..batch.len() {
        let place = batch.place(index);
        mark_unit(marks, is_known, place, batch.unit(index))?;
    }
    Ok(())
}

// Whether the marks are known, by what a read of the table finds.
fn is_known(read: UnitRead) -> Result<bool, RecoveryFault>
    ensures { IfOk result (λ known. (known ≡ true → read ≡ Whole) × (read ≡ Absent → ⊥)) }
{
    match read {
        UnitRead::Whole => Ok(true),
        // A batch of the journal may write it.
        UnitRead::Rotten => Ok(false),
        UnitRead::Absent => Err(RecoveryFault::NoTable),
    }
}

/// The marks of the table that the vault stands for. Refused where the table is rotten and the journal doesn't write it. Each batch is
/// read into `batch`.
pub fn read_marks<V: Vault>(vault: &mut V, batch: &mut Batch) -> Result<[u8; DRIVES], RecoveryFault>
    ensures stays { V.known vault.old → V.known vault.new }
    ensures read { V.known vault.old → OnlyRead V.seen V.may_leave V.moment V.left_since vault.old vault.new }
    ensures marks { V.known vault.old → IfOk result (λ marks. IsTable marks (recovered (V.seen vault.old))) }
    ensures attests { V.known vault.old → AttestsNoMore V.attested vault.old vault.new }

    // Marks that aren't as their digest says aren't used.
    ensures honest { V.known vault.old → (written : Cells)
        → IsLastIfAttested (V.attested vault.old) written (Image.cells (V.seen vault.old)) (record { drive = 16; address = 0 })
        → IfOk result (λ marks. IsTable marks (recovered (with_cells (V.seen vault.old) written))) }
{
    let table = Place {
        drive: TABLE,
        address: 0,
    };
    let mut marks = [0u8; DRIVES];
    let read = vault.read_unit(table, &mut marks)?;
    let mut known = is_known(read)?;
    let count = vault.batches()?;
    for index in 0..count {
        vault.read_batch(index, batch)?;
        mark_batch(&mut marks, &mut known, batch)?;
    }
    if !known {
        return Err(RecoveryFault::Rotten {
            drive: TABLE,
            address: 0,
        });
    }
    Ok(marks)
}

// Whether a drive with this mark is lost.
fn is_gone(mark: u8, is_absent: bool) -> bool
    ensures { result ≡ (not (mark == 0) || is_absent) }
{
    mark != 0 || is_absent
}

/// The drives that are lost: those with a mark, and those that are absent.
pub fn lost_drives(marks: &[u8; DRIVES], absent: &[bool; DRIVES]) -> [bool; DRIVES]
    ensures gone { AreGone marks.now absent.now result }
    ensures long { length marks.now ≡ 16 }
{
    let mut lost = *absent;
    for drive in 0..DRIVES {
        lost[drive] = is_gone(marks[drive], absent[drive]);
    }
    lost
}
