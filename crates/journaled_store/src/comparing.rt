// A unit of a vault is compared with another one.
ghost use Rattle.std.specs.Prelude.{◌≡◌, ◌+◌, length, true, IfOk};
ghost use Rattle.vault.specs.Images.{Image};
ghost use Rattle.journaled_store.specs.Keeping.{OnlyReadKnown};
ghost use Rattle.journaled_store.specs.Scrubbing.{IsCompared, IsPending};
ghost use Rattle.journaled_store.specs.declared.comparing.Compared.TheVariants.{Waits};

use extent_groups::Place;
use vault::{UnitRead, Vault, VaultError};

/// What a comparison finds.
#[derive(Clone, Copy, Debug, PartialEq, Eq)]
pub(crate) enum Compared {
    /// The same unit.
    Same,
    /// Another one, while writes wait in the journal or in a batch.
    Waits,
    /// Another one, and no write waits.
    Other,
    /// None of this length, or one that isn't as its digest says.
    Unsound,
}

/// Compares the unit at a place with another one, by a buffer of the same length. `waiting` units are in the next batch.
pub(crate) fn compare<V: Vault>(
    vault: &mut V,
    place: Place,
    unit: &[u8],
    waiting: usize,
    out: &mut [u8],
) -> Result<Compared, VaultError>
    requires size { length out.old ≡ length unit.now }
    ensures reads { V.known vault.old → OnlyReadKnown V.known V.seen V.may_leave V.moment V.left_since vault.old vault.new }
    ensures found { V.known vault.old → IfOk result (λ found. IsCompared (V.attested vault.new) (Image.cells (V.seen vault.new)) place unit.now found) }
    ensures waits { V.known vault.old → IfOk result (λ found. found ≡ Waits → IsPending (length (Image.journal (V.seen vault.new))) waiting) }
{
    let batches = vault.batches()?;
    match vault.read_unit(place, out)? {
        UnitRead::Whole => Ok(compare_whole(unit, out, batches > 0 || waiting > 0)),
        UnitRead::Absent => Ok(Compared::Unsound),
        UnitRead::Rotten => Ok(Compared::Unsound),
    }
}

// Compares two units.
fn compare_whole(unit: &[u8], read: &[u8], waits: bool) -> Compared
    ensures same { result ≡ Compared.Same → read.now ≡ unit.now }
    ensures other { result ≡ Compared.Other → read.now ≡ unit.now → ⊥ }
    ensures waits { result ≡ Waits → waits ≡ true }
    ensures never { result ≡ Compared.Unsound → ⊥ }
{
    if read == unit {
        Compared::Same
    } else if waits {
        Compared::Waits
    } else {
        Compared::Other
    }
}
