// What the units of the drives say of one another.
ghost use Rattle.std.specs.Prelude.{◌≡◌, Bool, false, true};
ghost use Rattle.extent_groups.specs.declared.place.Place.{Place};
ghost use Rattle.extent_groups.specs.Cells.{Cells, held};
ghost use Rattle.extent_groups.specs.Groups.{Groups};
ghost use Rattle.rotten_units.specs.Rows.{AreNotedOnce, AreRowsWhole, IsPlaceUsed, SameUsed};

/// Two states of the drives, in which no unit of the groups is missing and all slots are sound, and whose units differ only at noted
/// places, of each row or pair of copies one at most: at all places of the groups they have the same units. So a unit that makes its
/// row sound again is the one that was there.
pub fn same_units_law()
    ensures { (groups : Groups) (c d : Cells) (noted : Place → Bool) → AreRowsWhole groups c → AreRowsWhole groups d → AreNotedOnce (λ x. noted x ≡ true) groups
        → ((x : Place) → IsPlaceUsed groups x → noted x ≡ false → held c x ≡ held d x) → SameUsed groups c d }
{
    // The law is the contract: there is nothing to do.
}
