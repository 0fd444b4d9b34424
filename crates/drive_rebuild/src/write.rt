// A drive's units are written to their places.
ghost use Rattle.std.specs.Prelude.{◌≡◌, List, Bool, length, true};
ghost use Rattle.extents.specs.Units.{AreUnitsSized};
ghost use Rattle.vault.specs.Images.{is_lost};
ghost use Rattle.drive_rebuild.specs.Written.{WroteLost};

use crate::fault::RebuildFault;
use extent_groups::Place;
use extents::{Drive, MemDrive};
use vault::Vault;

/// Who is told how far a rebuild has come.
pub trait Watch {
    /// So many units of so many were written.
    fn wrote(&mut self, units: u32, of: u32);
}

/// Writes all units of a drive in memory to their places. Takes a buffer of a unit's length.
pub(crate) fn write_drive<V: Vault, W: Watch>(
    vault: &mut V,
    watch: &mut W,
    number: u8,
    cache: &mut MemDrive,
    unit: &mut [u8],
) -> Result<(), RebuildFault>
    ensures stays { V.known vault.old → V.known vault.new }
    ensures wrote { V.known vault.old → (lost : List Bool) → is_lost lost number ≡ true
        → WroteLost V.seen V.may_leave V.moment V.left_since lost vault.old vault.new }
{
    let count = cache.units();
    for address in 0..count {
        if address >= cache.units() || unit.len() != cache.unit_bytes() {
            return Err(RebuildFault::Misfit);
        }
        if cache.read_unit(address, unit).is_err() {
            return Err(RebuildFault::Misfit);
        }
        let place = Place {
            drive: number,
            address,
        };
        vault.write_unit(place, unit)?;
        watch.wrote(address + 1, count);
    }
    Ok(())
}
