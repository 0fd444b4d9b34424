// The units of a vault's table that spell the groups.
ghost use Rattle.std.specs.Prelude.{◌≡◌, is_some, suc, true, Some, IfOk, IfSome, OnOk};
ghost use Rattle.extent_groups.specs.Cells.{Cells};
ghost use Rattle.extent_groups.specs.Planned.{after, with_unit};
ghost use Rattle.vault.specs.Images.{Image, recovered};
ghost use Rattle.vault.specs.Attested.{IsLastIfAttested, with_cells};
ghost use Rattle.vault.specs.Moments.{AttestsNoMore};
ghost use Rattle.group_form.specs.Form.{AreFormLastIfAttested};
ghost use Rattle.group_form.specs.Reading.{AreKnownOf, AreUnitsOf, OnlyReadsVault};

use crate::fault::FormFault;
use crate::spell::{FORM_BYTES, FORM_UNITS};
use extent_groups::Place;
use std::alloc::Global;
use vault::{Batch, TABLE, UnitRead, Vault};

// The unit of an index, as the vault has it without its journal; none where it is rotten, as a stop leaves it that tore it.
fn load_unit<V: Vault>(vault: &mut V, index: u16) -> Result<Option<[u8; FORM_BYTES]>, FormFault>
    ensures stays { V.known vault.old → V.known vault.new }
    ensures read { V.known vault.old → OnlyReadsVault V.seen V.may_leave V.moment V.left_since vault.old vault.new }
    ensures attests { V.known vault.old → AttestsNoMore V.attested vault.old vault.new }
    ensures unit { V.known vault.old → (written : Cells)
        → IsLastIfAttested (V.attested vault.old) written (Image.cells (V.seen vault.old)) (record { drive = 16; address = suc index })
        → IfOk result (λ found. IfSome found (λ unit. written 16 (suc index) ≡ Some unit)) }
    ensures there { V.known vault.old → (written : Cells)
        → IsLastIfAttested (V.attested vault.old) written (Image.cells (V.seen vault.old)) (record { drive = 16; address = suc index })
        → OnOk result (is_some (written 16 (suc index)) ≡ true) }
{
    let place = Place {
        drive: TABLE,
        address: u32::from(index) + 1,
    };
    let mut unit = [0u8; FORM_BYTES];
    match vault.read_unit(place, &mut unit)? {
        UnitRead::Whole => Ok(Some(unit)),
        // A batch of the journal may write it.
        UnitRead::Rotten => Ok(None),
        UnitRead::Absent => Err(FormFault::Missing),
    }
}

// All units that aren't rotten, as the vault has them without its journal.
fn load_units<V: Vault>(
    alloc: Global,
    vault: &mut V,
) -> Result<Vec<Option<[u8; FORM_BYTES]>>, FormFault>
    ensures stays { V.known vault.old → V.known vault.new }
    ensures read { V.known vault.old → OnlyReadsVault V.seen V.may_leave V.moment V.left_since vault.old vault.new }
    ensures units { V.known vault.old → (written : Cells) → AreFormLastIfAttested (V.attested vault.old) written (Image.cells (V.seen vault.old))
        → IfOk result (λ units. AreKnownOf units.items written) }
{
    let mut units = Vec::new(alloc);
    for index in 0..FORM_UNITS {
        let unit = load_unit(vault, index)?;
        units.push(unit)?;
    }
    Ok(units)
}

// A unit's bytes.
fn copied(unit: &[u8]) -> Option<[u8; FORM_BYTES]>
    ensures { IfSome result (λ bytes. bytes ≡ unit.now) }
{
    if unit.len() != FORM_BYTES {
        return None;
    }
    let mut bytes = [0u8; FORM_BYTES];
    bytes.copy_from_slice(unit);
    Some(bytes)
}

// Makes one write.
fn lay_unit(
    units: &mut [Option<[u8; FORM_BYTES]>],
    place: Place,
    unit: &[u8],
) -> Result<(), FormFault>
    ensures { OnOk result ((c : Cells) → AreKnownOf units.old c → AreKnownOf units.new (with_unit c (record { place = place; unit = unit.now }))) }
{
    if place.drive != TABLE || place.address == 0 {
        return Ok(());
    }
    let index = place.address as usize - 1;
    if index >= units.len() {
        return Ok(());
    }
    let Some(bytes) = copied(unit) else {
        return Err(FormFault::Missing);
    };
    units[index] = Some(bytes);
    Ok(())
}

// Makes a batch's writes.
fn lay_batch(units: &mut [Option<[u8; FORM_BYTES]>], batch: &Batch) -> Result<(), FormFault>
    ensures { OnOk result ((c : Cells) → AreKnownOf units.old c → AreKnownOf units.new (after c batch.now)) }
{
    for index in 0..batch.len() {
        lay_unit(units, batch.place(index), batch.unit(index))?;
    }
    Ok(())
}

// Makes the writes of the vault's journal, in their order.
fn lay_journal<V: Vault>(
    vault: &mut V,
    batch: &mut Batch,
    units: &mut [Option<[u8; FORM_BYTES]>],
) -> Result<(), FormFault>
    ensures stays { V.known vault.old → V.known vault.new }
    ensures read { V.known vault.old → OnlyReadsVault V.seen V.may_leave V.moment V.left_since vault.old vault.new }
    ensures units { V.known vault.old
        → OnOk result ((c : Cells) → AreKnownOf units.old c → AreKnownOf units.new (recovered (with_cells (V.seen vault.old) c))) }
{
    let count = vault.batches()?;
    for index in 0..count {
        vault.read_batch(index, batch)?;
        lay_batch(units, batch)?;
    }
    Ok(())
}

// The units, if all are known.
fn all_known(
    alloc: Global,
    units: &[Option<[u8; FORM_BYTES]>],
) -> Result<Vec<[u8; FORM_BYTES]>, FormFault>
    ensures { IfOk result (λ known. (c : Cells) → AreKnownOf units.now c → AreUnitsOf known.items c) }
{
    let mut known = Vec::new(alloc);
    for index in 0..units.len() {
        let Some(unit) = units[index] else {
            return Err(FormFault::Missing);
        };
        known.push(unit)?;
    }
    Ok(known)
}

/// The units of the table that spell the groups, with the journal's writes. They are those of any units written last that agree with
/// each attested unit. Refused where one is rotten that the journal doesn't write.
pub(crate) fn table_units<V: Vault>(
    alloc: Global,
    vault: &mut V,
) -> Result<Vec<[u8; FORM_BYTES]>, FormFault>
    ensures stays { V.known vault.old → V.known vault.new }
    ensures read { V.known vault.old → OnlyReadsVault V.seen V.may_leave V.moment V.left_since vault.old vault.new }
    ensures units { V.known vault.old → (written : Cells) → AreFormLastIfAttested (V.attested vault.old) written (Image.cells (V.seen vault.old))
        → IfOk result (λ units. AreUnitsOf units.items (recovered (with_cells (V.seen vault.old) written))) }
{
    let mut batch = Batch::new(alloc);
    let mut units = load_units(alloc, vault)?;
    lay_journal(vault, &mut batch, &mut units)?;
    all_known(alloc, &units)
}
