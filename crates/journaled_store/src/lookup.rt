// A unit that is asked for, and what a walk over the drives finds of it.
ghost use Rattle.std.specs.Prelude.{◌≡◌, ◌≢◌, ◌<◌, length, slice_get, Some};
ghost use Rattle.extents.specs.Units.{AreUnitsSized};
ghost use Rattle.journaled_store.specs.Picking.{IsLookupOf};

use cached_drive::CachedDrive;
use extents::Drive;
use history::Chronicle;

/// A unit that is asked for by its place. A walk over the drives copies it.
#[derive(Drop)]
pub(crate) struct Lookup {
    pub(crate) drive: u8,
    pub(crate) address: u32,
    /// Units of its drive.
    pub(crate) units: u32,
    /// A buffer of a unit's length: the unit, if its drive has one at the address.
    pub(crate) unit: Vec<u8>,
    /// A buffer of a unit's length, for the vault's.
    pub(crate) read: Vec<u8>,
}

/// Copies the unit that is asked for, if it is one of this drive.
pub(crate) fn look<N: Chronicle>(lookup: &mut Lookup, drive: &mut CachedDrive<N>, number: u8)
    requires size { AreUnitsSized (length lookup.old.unit.items) drive.old.cache.units }
    ensures units { drive.new.cache.units ≡ drive.old.cache.units }
    ensures lost { drive.new.lost ≡ drive.old.lost }
    ensures hand { drive.new.hand ≡ drive.old.hand }
    ensures place { (lookup.new.drive ≡ lookup.old.drive) × (lookup.new.address ≡ lookup.old.address) }
    ensures own { number ≡ lookup.old.drive → IsLookupOf drive.old.cache.units lookup.new }
    ensures other { number ≢ lookup.old.drive → lookup.new ≡ lookup.old }
{
    if number != lookup.drive {
        return;
    }
    lookup.units = drive.units();
    if lookup.address < lookup.units {
        drive.copy_unit(lookup.address, &mut lookup.unit);
    }
}
