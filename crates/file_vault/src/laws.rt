//! What digests are for, as the contract of a function that does nothing.
ghost use Rattle.std.specs.Prelude.{◌≡◌};
ghost use Rattle.extent_groups.specs.declared.place.Place.{Place};
ghost use Rattle.extent_groups.specs.Cells.{held};
ghost use Rattle.file_vault.specs.Folders.{Folder};
ghost use Rattle.file_vault.specs.Layouts.{Plan, cells_of, IsAttested, AreReturned};

/// Where drives return of each unit what was last written, or bytes whose digest differs, each attested unit is the last written: `f`
/// is what was last written, `g` what the drives return.
pub fn rot_law()
    ensures { (plan : Plan) (f g : Folder) → AreReturned plan f g → (x : Place) → IsAttested plan g x
        → held (cells_of plan g) x ≡ held (cells_of plan f) x }
{
    // The law is the contract: there is nothing to do.
}
