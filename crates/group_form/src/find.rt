// The groups that a vault's table has.
ghost use Rattle.std.specs.Prelude.{◌≡◌, ℕ, IfOk};
ghost use Rattle.extents.specs.Shapes.{IsShapeOf};
ghost use Rattle.extent_groups.specs.Cells.{Cells};
ghost use Rattle.extent_groups.specs.Groups.{Agree, AreGroups, Groups};
ghost use Rattle.vault.specs.Images.{Image, recovered};
ghost use Rattle.group_form.specs.Form.{AreFormLastIfAttested, HasGroups};
ghost use Rattle.vault.specs.Attested.{with_cells};
ghost use Rattle.group_form.specs.Reading.{OnlyReadsVault};

use crate::fault::FormFault;
use crate::read::{Spelled, read_groups};
use crate::table::table_units;
use extents::Shape;
use std::alloc::Global;
use vault::Vault;

/// The groups that a vault's table has, its journal included, and the number of drives. The vault is only read. `Misfit` where the
/// table has none of these sizes.
pub fn find_groups<V: Vault>(
    alloc: Global,
    vault: &mut V,
    shape: &Shape,
) -> Result<Spelled, FormFault>
    ensures stays { V.known vault.old → V.known vault.new }
    ensures read { V.known vault.old → OnlyReadsVault V.seen V.may_leave V.moment V.left_since vault.old vault.new }
    ensures groups { V.known vault.old → IfOk result (λ s. HasGroups s.groups s.drives (recovered (V.seen vault.old))) }

    // No unit is used that isn't as its digest says: where the attested units are those that were written last, the groups are those
    // that were written. The journal is taken as it lies there.
    ensures honest { V.known vault.old → (written : Cells) → AreFormLastIfAttested (V.attested vault.old) written (Image.cells (V.seen vault.old))
        → IfOk result (λ s. HasGroups s.groups s.drives (recovered (with_cells (V.seen vault.old) written))) }
    ensures shape { IfOk result (λ s. IsShapeOf shape.now s.groups.extents s.groups.segments s.groups.payload s.groups.blocks) }
    ensures agree { IfOk result (λ s. Agree s.groups s.extents) }

    // The table has no others.
    ensures only { V.known vault.old → (other : Groups) (count : ℕ) → AreGroups other
        → IsShapeOf shape.now other.extents other.segments other.payload other.blocks → HasGroups other count (recovered (V.seen vault.old))
        → IfOk result (λ s. (s.groups ≡ other) × (s.drives ≡ count)) }
{
    let units = table_units(alloc, vault)?;
    read_groups(alloc, shape, &units)
}
