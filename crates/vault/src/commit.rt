// Batches that are acknowledged.
ghost use Rattle.std.specs.Prelude.{◌≡◌, ◌++◌, [], ◌∷◌, ℕ, length, OnOk, IsErrOf};
ghost use Rattle.extent_groups.specs.Planned.{after};
ghost use Rattle.vault.specs.Images.{Image, SameUnits, Matches, recovered};
ghost use Rattle.vault.specs.Moments.{LeavesOnly, IsLogged, AreLogged, RepresentsSome, IsBeforeOrAfter, IsUnchanged, IsRejected, HasCause, no_drive};
ghost use Rattle.vault.specs.declared.store.Stop.{Stop};
ghost use Rattle.vault.specs.declared.store.Stop.TheVariants.{Killed};
ghost use Rattle.std.specs.Prelude.{List, Bool};

use crate::batch::Batch;
use crate::store::{Vault, VaultError};

/// Adds a batch. At `Ok` a killed process leaves it. A loss of power leaves the batches up to one of them: those of the last flush
/// at least, none left out among them, and none in part.
pub fn add<V: Vault>(vault: &mut V, batch: &Batch) -> Result<(), VaultError>
    ensures stays { V.known vault.old → V.known vault.new }
    ensures cells { V.known vault.old → OnOk result (SameUnits (Image.cells (V.seen vault.new)) (Image.cells (V.seen vault.old))) }
    ensures journal { V.known vault.old → OnOk result (Image.journal (V.seen vault.new) ≡ Image.journal (V.seen vault.old) ++ batch.now ∷ []) }

    // What a stop leaves after it.
    ensures added { V.known vault.old → (lost : List Bool) (stop : Stop) (low : ℕ) → IsLogged V.seen V.may_leave lost stop vault.old low
        → OnOk result (IsLogged V.seen V.may_leave lost stop vault.new low) }
    ensures killed { V.known vault.old → (lost : List Bool) → IsLogged V.seen V.may_leave lost Killed vault.old (length (Image.journal (V.seen vault.old)))
        → OnOk result (IsLogged V.seen V.may_leave lost Killed vault.new (length (Image.journal (V.seen vault.new)))) }
    ensures refused { V.known vault.old → IsRejected result → IsUnchanged V.seen V.may_leave vault.old vault.new }

    // A stop at any moment of the call.
    ensures any_moment { V.known vault.old → (lost : List Bool) (stop : Stop) (low : ℕ) → IsLogged V.seen V.may_leave lost stop vault.old low
        → LeavesOnly V.moment V.left_since stop vault.old vault.new (RepresentsSome lost (Image.cells (V.seen vault.old)) low (Image.journal (V.seen vault.old) ++ batch.now ∷ [])) }

    ensures cause { V.known vault.old → HasCause no_drive (V.faults vault.old) (V.faults vault.new) result }
{
    vault.append(batch)
}

/// Makes all batches durable. At `Ok` each stop leaves all of them.
pub fn flush<V: Vault>(vault: &mut V) -> Result<(), VaultError>
    ensures stays { V.known vault.old → V.known vault.new }
    ensures seen { V.known vault.old → V.seen vault.new ≡ V.seen vault.old }
    ensures flushed { V.known vault.old → (lost : List Bool) (stop : Stop) (low : ℕ) → IsLogged V.seen V.may_leave lost stop vault.old low
        → OnOk result (IsLogged V.seen V.may_leave lost stop vault.new (length (Image.journal (V.seen vault.new)))) }

    // A stop at any moment of the call.
    ensures any_moment { V.known vault.old → (lost : List Bool) (stop : Stop) (low : ℕ) → IsLogged V.seen V.may_leave lost stop vault.old low
        → LeavesOnly V.moment V.left_since stop vault.old vault.new (RepresentsSome lost (Image.cells (V.seen vault.old)) low (Image.journal (V.seen vault.old))) }

    ensures cause { V.known vault.old → HasCause no_drive (V.faults vault.old) (V.faults vault.new) result }
{
    vault.sync_journal()
}

/// Adds a batch and makes it durable. At `Ok` each stop leaves its units. A stop at any moment of the call leaves the units from
/// before it, or those of after the whole batch.
pub fn keep<V: Vault>(vault: &mut V, batch: &Batch) -> Result<(), VaultError>
    ensures stays { V.known vault.old → V.known vault.new }
    ensures logged { V.known vault.old → (lost : List Bool) → AreLogged V.seen V.may_leave lost vault.old → OnOk result (AreLogged V.seen V.may_leave lost vault.new) }
    ensures acknowledged { V.known vault.old → (lost : List Bool) → OnOk result (Matches lost (after (recovered (V.seen vault.old)) batch.now) (V.seen vault.new)) }
    ensures any_moment { V.known vault.old → (lost : List Bool) (stop : Stop) → AreLogged V.seen V.may_leave lost vault.old
        → LeavesOnly V.moment V.left_since stop vault.old vault.new (IsBeforeOrAfter lost (recovered (V.seen vault.old)) batch.now) }
    ensures cause { V.known vault.old → HasCause no_drive (V.faults vault.old) (V.faults vault.new) result }
{
    add(vault, batch)?;
    flush(vault)
}
