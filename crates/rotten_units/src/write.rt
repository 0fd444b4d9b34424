// Units that were rotten are written to their places.
ghost use Rattle.extent_groups.specs.Calls.{KeepsDrives, NoPlace};
ghost use Rattle.extent_groups.specs.Cells.{cells};
ghost use Rattle.vault.specs.Marks.{Has};
ghost use Rattle.rotten_units.specs.Faults.{UnlessVault};
ghost use Rattle.rotten_units.specs.Written.{WroteAt, WroteFrom};

use crate::compute::read;
use crate::fault::MendFault;
use extent_groups::Place;
use extents::Drive;
use vault::{Places, Vault};

// Writes a unit of the drives in memory to its place, if it is rotten; tells whether. Takes a buffer of a unit's length.
fn write_one<V: Vault, D: Drive>(
    vault: &mut V,
    rotten: &Places,
    drives: &mut [D],
    place: Place,
    unit: &mut [u8],
) -> Result<bool, MendFault>
    ensures stays { V.known vault.old → V.known vault.new }
    ensures wrote { V.known vault.old → WroteAt V.seen V.may_leave V.moment V.left_since (Has rotten.now.marks.items) vault.old vault.new }
    ensures units { V.known vault.old
        → UnlessVault result (WroteFrom V.seen V.attested (Has rotten.now.marks.items) (cells D.units D.lost drives.old) vault.old vault.new) }
    ensures drives { KeepsDrives D.units D.lost D.failures NoPlace drives.old drives.new }
{
    if !rotten.has(place) {
        return Ok(false);
    }
    if !read(drives, place, unit) {
        return Err(MendFault::Misfit);
    }
    vault.write_unit(place, unit)?;
    Ok(true)
}

// Writes a drive's units of these; returns how many.
fn write_drive<V: Vault, D: Drive>(
    vault: &mut V,
    rotten: &Places,
    drives: &mut [D],
    drive: u8,
    units: u32,
    unit: &mut [u8],
) -> Result<u32, MendFault>
    ensures stays { V.known vault.old → V.known vault.new }
    ensures wrote { V.known vault.old → WroteAt V.seen V.may_leave V.moment V.left_since (Has rotten.now.marks.items) vault.old vault.new }
    ensures units { V.known vault.old
        → UnlessVault result (WroteFrom V.seen V.attested (Has rotten.now.marks.items) (cells D.units D.lost drives.old) vault.old vault.new) }
    ensures drives { KeepsDrives D.units D.lost D.failures NoPlace drives.old drives.new }
{
    let mut count = 0u32;
    for address in 0..units {
        if write_one(vault, rotten, drives, Place { drive, address }, unit)? {
            count = count.saturating_add(1);
        }
    }
    Ok(count)
}

/// Writes the units of the first drives in memory that are rotten to their places; returns how many. Each drive has `units` units. Takes a
/// buffer of a unit's length. What is attested then was so before, or is as it is in memory, if no call of the vault failed.
pub fn write_rotten<V: Vault, D: Drive>(
    vault: &mut V,
    rotten: &Places,
    drives: &mut [D],
    first: u8,
    units: u32,
    unit: &mut [u8],
) -> Result<u32, MendFault>
    ensures stays { V.known vault.old → V.known vault.new }
    ensures wrote { V.known vault.old → WroteAt V.seen V.may_leave V.moment V.left_since (Has rotten.now.marks.items) vault.old vault.new }
    ensures units { V.known vault.old
        → UnlessVault result (WroteFrom V.seen V.attested (Has rotten.now.marks.items) (cells D.units D.lost drives.old) vault.old vault.new) }
    ensures drives { KeepsDrives D.units D.lost D.failures NoPlace drives.old drives.new }
{
    let mut count = 0u32;
    for number in 0..first {
        let done = write_drive(vault, rotten, drives, number, units, unit)?;
        count = count.saturating_add(done);
    }
    Ok(count)
}
