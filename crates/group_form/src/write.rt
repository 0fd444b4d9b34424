// Groups as a batch's writes.
ghost use Rattle.std.specs.Prelude.{◌≡◌, ◌++◌, [], ◌∷◌, OnOk};
ghost use Rattle.extent_groups.specs.Cells.{Cells};
ghost use Rattle.extent_groups.specs.Planned.{after};
ghost use Rattle.group_form.specs.Form.{HasFormPlaces, HasGroups, SameButGroups, form_write};

use crate::spell::{GROUP_UNITS, put_count, put_group_unit};
use extent_groups::{GroupTable, Place};
use std::alloc::{AllocError, Global};
use vault::{Batch, TABLE};

// Puts the write of a unit into a batch.
fn put_unit(batch: &mut Batch, index: u16, unit: &[u8]) -> Result<(), AllocError>
    ensures put { OnOk result (batch.new ≡ batch.old ++ form_write index unit.now ∷ []) }
    ensures others { (c : Cells) → SameButGroups (after c batch.new) (after c batch.old) }
{
    let place = Place {
        drive: TABLE,
        address: u32::from(index) + 1,
    };
    batch.push(place, unit)?;
    Ok(())
}

/// Puts the units of groups and of a number of drives into a batch. Out of memory, some of them may be in it.
pub fn write_groups(
    alloc: Global,
    batch: &mut Batch,
    groups: &GroupTable,
    drives: u8,
) -> Result<(), AllocError>
    ensures spelled { OnOk result ((c : Cells) → HasFormPlaces c → HasGroups groups.now drives (after c batch.new)) }
    ensures others { (c : Cells) → SameButGroups (after c batch.new) (after c batch.old) }
{
    let mut unit = Vec::new(alloc);
    for index in 0..GROUP_UNITS {
        put_group_unit(&mut unit, groups, index)?;
        put_unit(batch, index, &unit)?;
    }
    put_count(&mut unit, drives)?;
    put_unit(batch, GROUP_UNITS, &unit)?;
    Ok(())
}
