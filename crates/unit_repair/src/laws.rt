// What the calls before and after a mending say.
ghost use Rattle.std.specs.Prelude.{◌≡◌, ℕ, List, Bool, Option, false};
ghost use Rattle.extent_groups.specs.Cells.{Cells};
ghost use Rattle.extent_groups.specs.Groups.{Groups};
ghost use Rattle.extent_groups.specs.Stores.{AreSound};
ghost use Rattle.flat_machine.specs.Flat.{Stored};
ghost use Rattle.unit_store.specs.Shows.{ShowsUnits};
ghost use Rattle.vault.specs.Images.{is_lost};
ghost use Rattle.vault.specs.Moments.{IsSettled};
ghost use Rattle.rotten_units.specs.Rows.{SameUsed};
ghost use Rattle.unit_repair.specs.Mended.{IsAtRest};

use vault::Vault;

/// After `vault::settle` with no drive lost a vault is at rest, as `mend` needs it.
pub fn settled_law<V: Vault>()
    ensures { (old new : V) (lost : List Bool) → ((d : ℕ) → is_lost lost d ≡ false)
        → IsSettled V.seen V.may_leave lost old new → IsAtRest V.seen V.may_leave new }
{
    // The law is the contract: there is nothing to do.
}

/// Drives with the same units at all places of the groups show the same units of slots.
pub fn shown_law()
    ensures { (groups : Groups) (c d : Cells) (shown : ℕ → Option Stored) → AreSound groups d → SameUsed groups c d
        → ShowsUnits groups c shown → ShowsUnits groups d shown }
{
    // The law is the contract: there is nothing to do.
}
