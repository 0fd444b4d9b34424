// The stages of a removal: marks that are tested, a journal that is emptied, and a batch that is carried out.
ghost use Rattle.std.specs.Prelude.{◌≡◌, ◌≢◌, ◌<◌, ℕ, List, Bool, Some, false, slice_get, IfOk, OnOk};
ghost use Rattle.extent_groups.specs.Planned.{after};
ghost use Rattle.vault.specs.Images.{Matches, SameOn, is_lost, recovered};
ghost use Rattle.vault.specs.Moments.{AreLogged, IsBeforeOrAfter, IsSettled, LeavesOnly};
ghost use Rattle.vault.specs.declared.store.Stop.{Stop};
ghost use Rattle.array_recovery.specs.Found.{OnlyRead};
ghost use Rattle.drive_removal.specs.Removed.{MarksOnly};

use crate::fault::RemovalFault;
use array_recovery::{lost_drives, read_marks};
use extents::DRIVES;
use vault::{Batch, Vault, VaultError, keep, settle};

// Tests that no drive has a mark, but for one of them.
fn test_marks(marks: &[u8; DRIVES], number: u8) -> Result<(), RemovalFault>
    ensures { OnOk result ((d : ℕ) → d < 16 → d ≢ number → slice_get marks.now d ≡ Some 0) }
{
    for drive in 0..DRIVES {
        if drive != usize::from(number) && marks[drive] != 0 {
            return Err(RemovalFault::Lost(drive as u8));
        }
    }
    Ok(())
}

/// Tests that the table marks no drive but this one. Says which drives are out of use: this one, if it is marked. The vault is only
/// read, each batch of its journal into `batch`.
pub(crate) fn find_lost<V: Vault>(
    vault: &mut V,
    batch: &mut Batch,
    number: u8,
) -> Result<[bool; DRIVES], RemovalFault>
    ensures stays { V.known vault.old → V.known vault.new }
    ensures read { V.known vault.old → OnlyRead V.seen V.may_leave V.moment V.left_since vault.old vault.new }
    ensures marked { V.known vault.old → IfOk result (λ counts. MarksOnly number counts (recovered (V.seen vault.old))) }
{
    let marks = read_marks(vault, batch)?;
    test_marks(&marks, number)?;
    Ok(lost_drives(&marks, &[false; DRIVES]))
}

/// Makes the units of all drives that are in use durable, and empties the journal. Each batch is read into `batch`.
pub(crate) fn prepare<V: Vault>(
    vault: &mut V,
    batch: &mut Batch,
    counts: &[bool; DRIVES],
) -> Result<(), VaultError>
    ensures stays { V.known vault.old → V.known vault.new }
    ensures settled { V.known vault.old → (lost : List Bool) → AreLogged V.seen V.may_leave lost vault.old
        → OnOk result (IsSettled V.seen V.may_leave counts.now vault.old vault.new) }
    ensures any_moment { V.known vault.old → (lost : List Bool) → ((d : ℕ) → is_lost lost d ≡ false → is_lost counts.now d ≡ false)
        → AreLogged V.seen V.may_leave lost vault.old
        → (stop : Stop) → LeavesOnly V.moment V.left_since stop vault.old vault.new (Matches lost (recovered (V.seen vault.old))) }
{
    vault.sync_units(counts)?;
    settle(vault, batch, counts)
}

/// Makes a batch's writes in one piece, and empties the journal.
pub(crate) fn carry_out<V: Vault>(
    vault: &mut V,
    batch: &mut Batch,
    counts: &[bool; DRIVES],
) -> Result<(), VaultError>
    ensures stays { V.known vault.old → V.known vault.new }
    ensures durable { V.known vault.old → AreLogged V.seen V.may_leave counts.now vault.old → OnOk result (AreLogged V.seen V.may_leave counts.now vault.new) }
    ensures units { V.known vault.old → AreLogged V.seen V.may_leave counts.now vault.old
        → OnOk result (SameOn counts.now (recovered (V.seen vault.new)) (after (recovered (V.seen vault.old)) batch.old)) }
    ensures any_moment { V.known vault.old → AreLogged V.seen V.may_leave counts.now vault.old
        → (stop : Stop) → LeavesOnly V.moment V.left_since stop vault.old vault.new (IsBeforeOrAfter counts.now (recovered (V.seen vault.old)) batch.old) }
{
    keep(vault, batch)?;
    settle(vault, batch, counts)
}
