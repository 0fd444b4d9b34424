// The stages of a change that is one batch: marks that are tested, a journal that is emptied, and a batch that is carried out.
ghost use Rattle.std.specs.Prelude.{◌≡◌, [], ℕ, List, Bool, OnOk};
ghost use Rattle.extent_groups.specs.Planned.{after};
ghost use Rattle.vault.specs.Images.{Matches, SameOn, recovered};
ghost use Rattle.vault.specs.Moments.{AreLogged, IsBeforeOrAfter, IsSettled, LeavesOnly};
ghost use Rattle.vault.specs.declared.store.Stop.{Stop};
ghost use Rattle.array_recovery.specs.Found.{OnlyRead};
ghost use Rattle.array_batch.specs.Arrays.{AreClear, MarksNone};

use crate::fault::BatchFault;
use array_recovery::read_marks;
use extents::DRIVES;
use vault::{Batch, Vault, VaultError, keep, settle};

// Tests that no drive has a mark.
fn test_marks(marks: &[u8; DRIVES]) -> Result<(), BatchFault>
    ensures { OnOk result (AreClear marks.now) }
{
    for drive in 0..DRIVES {
        if marks[drive] != 0 {
            return Err(BatchFault::Lost(drive as u8));
        }
    }
    Ok(())
}

/// Tests that the table marks no drive. The vault is only read, each batch of its journal into `batch`.
pub fn test_table<V: Vault>(vault: &mut V, batch: &mut Batch) -> Result<(), BatchFault>
    ensures stays { V.known vault.old → V.known vault.new }
    ensures read { V.known vault.old → OnlyRead V.seen V.may_leave V.moment V.left_since vault.old vault.new }
    ensures unmarked { V.known vault.old → OnOk result (MarksNone (recovered (V.seen vault.old))) }
{
    let marks = read_marks(vault, batch)?;
    test_marks(&marks)
}

/// Makes all units durable, also those at the places of a drive that isn't the array's, and empties the journal. Each batch is read into
/// `batch`. Refused only where a call of the vault fails.
pub fn prepare<V: Vault>(vault: &mut V, batch: &mut Batch) -> Result<(), VaultError>
    ensures stays { V.known vault.old → V.known vault.new }
    ensures settled { V.known vault.old → (lost : List Bool) → AreLogged V.seen V.may_leave lost vault.old
        → OnOk result (IsSettled V.seen V.may_leave [] vault.old vault.new) }
    ensures any_moment { V.known vault.old → (lost : List Bool) → AreLogged V.seen V.may_leave lost vault.old
        → (stop : Stop) → LeavesOnly V.moment V.left_since stop vault.old vault.new (Matches lost (recovered (V.seen vault.old))) }
{
    let counts = [false; DRIVES];
    // Before the journal is settled: what lies at a new drive's places may not be durable, and then no stop would leave what is found.
    vault.sync_units(&counts)?;
    settle(vault, batch, &counts)
}

/// Makes a batch's writes in one piece, and empties the journal. Refused only where a call of the vault fails: the writes may be made then.
pub fn carry_out<V: Vault>(vault: &mut V, batch: &mut Batch) -> Result<(), VaultError>
    ensures stays { V.known vault.old → V.known vault.new }
    ensures durable { V.known vault.old → AreLogged V.seen V.may_leave [] vault.old → OnOk result (AreLogged V.seen V.may_leave [] vault.new) }
    ensures units { V.known vault.old → AreLogged V.seen V.may_leave [] vault.old
        → OnOk result (SameOn [] (recovered (V.seen vault.new)) (after (recovered (V.seen vault.old)) batch.old)) }
    ensures any_moment { V.known vault.old → AreLogged V.seen V.may_leave [] vault.old
        → (stop : Stop) → LeavesOnly V.moment V.left_since stop vault.old vault.new (IsBeforeOrAfter [] (recovered (V.seen vault.old)) batch.old) }
{
    keep(vault, batch)?;
    settle(vault, batch, &[false; DRIVES])
}
