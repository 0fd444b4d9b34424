// Units in memory as a batch's writes, but those that a vault has.
ghost use Rattle.std.specs.Prelude.{◌≡◌, ◌≢◌, ◌<◌, ◌≤◌, [], ℕ, true, is_some, Some, length, slice_get, IfOk, IsTrue, OnOk};
ghost use Rattle.extents.specs.Condition.{Held};
ghost use Rattle.extent_groups.specs.declared.place.Place.{Place};
ghost use Rattle.extent_groups.specs.Cells.{Cells, held};
ghost use Rattle.extent_groups.specs.Planned.{after};
ghost use Rattle.group_form.specs.Form.{HasFormPlaces, HasGroups};
ghost use Rattle.vault.specs.Images.{Image};
ghost use Rattle.rotten_units.specs.Loaded.{OnlyRead};
ghost use Rattle.array_batch.specs.Batched.{HasDriveUnits, HasAllDriveUnits, KeepsDriveUnits};

use crate::fault::BatchFault;
use extent_groups::{GroupTable, Place};
use extents::{Drive, MemDrive};
use group_form::write_groups;
use std::alloc::Global;
use vault::{Batch, UnitRead, Vault};

// Whether a vault has this unit at a place. Refused where it has none of this length there. Takes a buffer of that length.
fn has_unit<V: Vault>(
    vault: &mut V,
    place: Place,
    unit: &[u8],
    other: &mut [u8],
) -> Result<bool, BatchFault>
    ensures stays { V.known vault.old → V.known vault.new }
    ensures read { V.known vault.old → OnlyRead V.seen V.may_leave V.moment V.left_since vault.old vault.new }
    ensures there { V.known vault.old → OnOk result (is_some (held (Image.cells (V.seen vault.old)) place) ≡ true) }
    ensures same { V.known vault.old → IfOk result (λ is. IsTrue is → held (Image.cells (V.seen vault.old)) place ≡ Some unit.now) }
{
    if other.len() != unit.len() {
        return Err(BatchFault::Misfit);
    }
    match vault.read_unit(place, other)? {
        UnitRead::Whole => Ok(other[..] == unit[..]),
        // Of its bytes nothing is known.
        UnitRead::Rotten => Ok(false),
        UnitRead::Absent => Err(BatchFault::Misfit),
    }
}

// Puts the write of a unit into a batch, unless the vault has it.
fn put_unit<V: Vault>(
    vault: &mut V,
    batch: &mut Batch,
    place: Place,
    unit: &[u8],
    other: &mut [u8],
) -> Result<(), BatchFault>
    ensures stays { V.known vault.old → V.known vault.new }
    ensures read { V.known vault.old → OnlyRead V.seen V.may_leave V.moment V.left_since vault.old vault.new }
    ensures put { V.known vault.old → held (after (Image.cells (V.seen vault.old)) batch.old) place ≡ held (Image.cells (V.seen vault.old)) place
        → OnOk result (held (after (Image.cells (V.seen vault.old)) batch.new) place ≡ Some unit.now) }
    ensures others { (c : Cells) (x : Place) → x ≢ place → held (after c batch.new) x ≡ held (after c batch.old) x }
{
    if has_unit(vault, place, unit, other)? {
        return Ok(());
    }
    batch.push(place, unit)?;
    Ok(())
}

// Puts a drive's units into a batch, but those that the vault has. Takes two buffers of a unit's length.
fn put_drive<V: Vault>(
    vault: &mut V,
    batch: &mut Batch,
    number: u8,
    drive: &mut MemDrive,
    unit: &mut [u8],
    other: &mut [u8],
) -> Result<(), BatchFault>
    ensures stays { V.known vault.old → V.known vault.new }
    ensures read { V.known vault.old → OnlyRead V.seen V.may_leave V.moment V.left_since vault.old vault.new }
    ensures put { V.known vault.old → KeepsDriveUnits number (Image.cells (V.seen vault.old)) (after (Image.cells (V.seen vault.old)) batch.old)
        → OnOk result (HasDriveUnits number drive.old.units (after (Image.cells (V.seen vault.old)) batch.new)) }
    ensures others { (c : Cells) (x : Place) → x.drive ≢ number → held (after c batch.new) x ≡ held (after c batch.old) x }
{
    let count = drive.units();
    for address in 0..count {
        if address >= drive.units() || unit.len() != drive.unit_bytes() {
            return Err(BatchFault::Misfit);
        }
        let Ok(()) = drive.read_unit(address, unit) else {
            return Err(BatchFault::Lost(number));
        };
        let place = Place {
            drive: number,
            address,
        };
        put_unit(vault, batch, place, unit, other)?;
    }
    Ok(())
}

// Puts the units of all drives into an empty batch, but those that the vault has. Takes two buffers of a unit's length.
fn put_drives<V: Vault>(
    vault: &mut V,
    batch: &mut Batch,
    drives: &mut [MemDrive],
    unit: &mut [u8],
    other: &mut [u8],
) -> Result<(), BatchFault>
    requires few { length drives.old ≤ 16 }
    requires empty { batch.old ≡ [] }
    ensures stays { V.known vault.old → V.known vault.new }
    ensures read { V.known vault.old → OnlyRead V.seen V.may_leave V.moment V.left_since vault.old vault.new }
    ensures put { V.known vault.old → OnOk result (HasAllDriveUnits drives.old (after (Image.cells (V.seen vault.old)) batch.new)) }
    ensures others { (c : Cells) (x : Place) → length drives.old ≤ x.drive → held (after c batch.new) x ≡ held c x }
{
    for number in 0..drives.len() {
        put_drive(vault, batch, number as u8, &mut drives[number], unit, other)?;
    }
    Ok(())
}

/// Makes a batch the writes after which a vault with an empty journal has the units of an array's drives in memory, and its table the
/// groups and the number of drives. Units that it has are left out. Refused where it has none at a place of these drives.
pub fn put_array<V: Vault>(
    alloc: Global,
    vault: &mut V,
    batch: &mut Batch,
    groups: &GroupTable,
    drives: &mut [MemDrive],
) -> Result<(), BatchFault>
    requires few { length drives.old ≤ 16 }
    ensures stays { V.known vault.old → V.known vault.new }
    ensures read { V.known vault.old → OnlyRead V.seen V.may_leave V.moment V.left_since vault.old vault.new }
    ensures units { V.known vault.old → OnOk result (HasAllDriveUnits drives.old (after (Image.cells (V.seen vault.old)) batch.new)) }
    ensures groups { OnOk result ((c : Cells) → HasFormPlaces c → HasGroups groups.now (length drives.old) (after c batch.new)) }
    ensures marks { OnOk result ((c : Cells) → after c batch.new 16 0 ≡ c 16 0) }
{
    let size = groups.shape().unit_bytes();
    let mut unit = vec![in alloc; 0u8; size]?;
    let mut other = vec![in alloc; 0u8; size]?;
    let count = drives.len() as u8;
    batch.clear();
    put_drives(vault, batch, drives, &mut unit, &mut other)?;
    write_groups(alloc, batch, groups, count)?;
    Ok(())
}
