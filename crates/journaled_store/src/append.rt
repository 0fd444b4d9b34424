// What drives have written becomes a batch of the vault's journal.
ghost use Rattle.std.specs.Prelude.{◌≡◌, ◌++◌, [], ◌∷◌, ℕ, List, Bool, length, OnOk, OnErr};
ghost use Rattle.extent_groups.specs.Planned.{after};
ghost use Rattle.vault.specs.Images.{Image, SameUnits, recovered};
ghost use Rattle.vault.specs.Moments.{LeavesOnly, IsLogged, RepresentsSome, IsRejected, IsUnchanged, HasCause, no_drive};
ghost use Rattle.vault.specs.declared.store.Stop.{Stop};
ghost use Rattle.vault.specs.declared.store.Stop.TheVariants.{Killed};
ghost use Rattle.journaled_store.specs.Steps.{IsInStep};

use crate::changes::Changes;
use history::Chronicle;
use vault::{Vault, VaultError, add};

/// Adds what is in the batch to the vault, and empties the batch. If it is refused, the batch is as it was.
pub(crate) fn append<N: Chronicle, V: Vault>(
    changes: &mut Changes<N>,
    vault: &mut V,
) -> Result<(), VaultError>
    ensures stays { V.known vault.old → V.known vault.new }
    ensures keeper { changes.new.keeper ≡ changes.old.keeper }
    ensures marks { (changes.new.lost ≡ changes.old.lost) × (changes.new.noted ≡ changes.old.noted) }
    ensures empty { OnOk result (changes.new.batch ≡ []) }
    ensures kept { OnErr result (changes.new.batch ≡ changes.old.batch) }

    ensures cells { V.known vault.old → OnOk result (SameUnits (Image.cells (V.seen vault.new)) (Image.cells (V.seen vault.old))) }
    ensures journal { V.known vault.old → OnOk result (Image.journal (V.seen vault.new) ≡ Image.journal (V.seen vault.old) ++ changes.old.batch ∷ []) }

    // What the vault stands for is what it stood for after the batch.
    ensures ok { V.known vault.old → OnOk result ((d at : ℕ) → recovered (V.seen vault.new) d at ≡ after
        (recovered (V.seen vault.old)) changes.old.batch d at) }

    // A kill leaves it; a loss of power leaves at least as many batches as it left before.
    ensures killed { V.known vault.old → (lost : List Bool) → IsLogged V.seen V.may_leave lost Killed vault.old (length (Image.journal (V.seen vault.old)))
        → OnOk result (IsLogged V.seen V.may_leave lost Killed vault.new (length (Image.journal (V.seen vault.new)))) }
    ensures added { V.known vault.old → (lost : List Bool) (stop : Stop) (low : ℕ) → IsLogged V.seen V.may_leave lost stop vault.old low
        → OnOk result (IsLogged V.seen V.may_leave lost stop vault.new low) }
    ensures any_moment { V.known vault.old → (lost : List Bool) (stop : Stop) (low : ℕ) → IsLogged V.seen V.may_leave lost stop vault.old low
        → LeavesOnly V.moment V.left_since stop vault.old vault.new
        (RepresentsSome lost (Image.cells (V.seen vault.old)) low (Image.journal (V.seen vault.old) ++ changes.old.batch ∷ [])) }
    ensures refused { V.known vault.old → IsRejected result → IsUnchanged V.seen V.may_leave vault.old vault.new }
    ensures cause { V.known vault.old → HasCause no_drive (V.faults vault.old) (V.faults vault.new) result }
{
    add(vault, &changes.batch)?;
    changes.appended = changes.appended.saturating_add(changes.batch.len() as u64);
    changes.batch.clear();
    Ok(())
}
