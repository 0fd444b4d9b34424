// An array without its last drive.
ghost use Rattle.std.specs.Prelude.{◌≡◌, ◌≤◌, ◌++◌, [], ◌∷◌, length, true};
ghost use Rattle.unit_store.specs.Views.{DriveView, PartsView};
ghost use Rattle.tiered_array.specs.Matches.{RepresentsTiers};
ghost use Rattle.tiered_array.specs.Tiered.{Tiered};
ghost use Rattle.tiered_array.specs.Views.{TiersView};
ghost use Rattle.drive_evacuation.specs.Evacuation.{AreClearOf, on_parts, with_drives};

/// An array whose last drive is lost and of no group represents the same state without that drive: all that is written, emitted and
/// held stays, and so do the groups and the units of slots. At least three drives are left.
pub fn last_drive_law()
    ensures { (tiers : TiersView) (T : Tiered) (rest : PartsView) (last : DriveView) → RepresentsTiers tiers T
        → tiers.world.array.parts.drives ≡ rest.drives ++ last ∷ [] → last.lost ≡ true → rest.groups ≡ tiers.world.array.parts.groups
        → 3 ≤ length rest.drives → AreClearOf T.flat.groups (length rest.drives)
        → RepresentsTiers (on_parts tiers rest) (record T { flat = with_drives T.flat rest }) }
{
    // The law is the contract: there is nothing to do.
}
