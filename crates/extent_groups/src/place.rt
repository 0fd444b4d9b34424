// Where a unit lies, and the calls by which stores reach a drive.
ghost use Rattle.std.specs.Prelude.{◌≡◌, ◌+◌, ◌<◌, ◌++◌, length};
ghost use Rattle.extent_groups.specs.Cells.{cells, front_units};
ghost use Rattle.extent_groups.specs.Calls.{AreSized, HaveFronts, HaveRoom, IsPlace, DidRead, DidWrite, NoPlace, Only, SameBut, KeepsDrives};

use extents::Drive;

/// A unit of one of the drives.
#[derive(Clone, Copy, Debug, PartialEq, Eq)]
pub struct Place {
    pub drive: u8,
    /// Counted in units, on its drive.
    pub address: u32,
}

/// Reads the unit at a place; false where its drive is lost.
pub fn read_place<D: Drive>(drives: &mut [D], place: Place, unit: &mut [u8]) -> bool
    requires inside { place.drive < length drives.old }
    requires place { IsPlace D.units drives.old place }
    requires size { AreSized D.units (length unit.old) drives.old }
    ensures read { DidRead (cells D.units D.lost drives.old) (cells D.units D.lost drives.new) place unit.new result }
    ensures drives { KeepsDrives D.units D.lost D.failures NoPlace drives.old drives.new }
    ensures others { SameBut (λ d. d ≡ place.drive) drives.old drives.new }
{
    drives[place.drive as usize]
        .read_unit(place.address, unit)
        .is_ok()
}

/// Reads the first bytes of the unit at a place: `front.len()` of them, with a buffer of a unit's length, or an empty one
/// for a whole unit; false where its drive is lost.
pub fn read_front<D: Drive>(
    drives: &mut [D],
    place: Place,
    front: &mut [u8],
    scratch: &mut [u8],
) -> bool
    requires inside { place.drive < length drives.old }
    requires place { IsPlace D.units drives.old place }
    requires size { HaveFronts D.units (length front.old) drives.old }
    requires scratch { HaveRoom D.units (length front.old) (length scratch.old) drives.old }
    ensures read { DidRead (cells (front_units (length front.old) D.units) D.lost drives.old)
        (cells (front_units (length front.old) D.units) D.lost drives.new) place front.new result }
    ensures drives { KeepsDrives D.units D.lost D.failures NoPlace drives.old drives.new }
    ensures others { SameBut (λ d. d ≡ place.drive) drives.old drives.new }
{
    drives[place.drive as usize]
        .read_front(place.address, front, scratch)
        .is_ok()
}

/// Writes the unit at a place; false where its drive is lost. Inlined, since a parity write makes two.
#[inline(always)]
pub fn write_place<D: Drive>(drives: &mut [D], place: Place, unit: &[u8]) -> bool
    requires inside { place.drive < length drives.old }
    requires place { IsPlace D.units drives.old place }
    requires size { AreSized D.units (length unit.now) drives.old }
    ensures written { DidWrite (cells D.units D.lost drives.old) (cells D.units D.lost drives.new) place unit.now result }
    ensures drives { KeepsDrives D.units D.lost D.failures (Only place) drives.old drives.new }
    ensures others { SameBut (λ d. d ≡ place.drive) drives.old drives.new }
{
    drives[place.drive as usize]
        .write_unit(place.address, unit)
        .is_ok()
}

/// Writes the unit at a place, given as `front` and the bytes after it, `rest`, with a buffer of a unit's length; false where
/// its drive is lost. Inlined, so that an empty piece costs nothing.
#[inline(always)]
pub fn write_gathered<D: Drive>(
    drives: &mut [D],
    place: Place,
    front: &[u8],
    rest: &[u8],
    scratch: &mut [u8],
) -> bool
    requires inside { place.drive < length drives.old }
    requires place { IsPlace D.units drives.old place }
    requires size { AreSized D.units (length front.now + length rest.now) drives.old }
    requires scratch { AreSized D.units (length scratch.old) drives.old }
    ensures written { DidWrite (cells D.units D.lost drives.old) (cells D.units D.lost drives.new) place (front.now ++ rest.now) result }
    ensures drives { KeepsDrives D.units D.lost D.failures (Only place) drives.old drives.new }
    ensures others { SameBut (λ d. d ≡ place.drive) drives.old drives.new }
{
    drives[place.drive as usize]
        .write_gathered(place.address, front, rest, scratch)
        .is_ok()
}

/// Syncs each drive that isn't lost, in ascending order. One whose sync fails is lost, and the others are synced all the same.
pub fn sync_drives<D: Drive>(drives: &mut [D])
    ensures { KeepsDrives D.units D.lost D.failures NoPlace drives.old drives.new }
{
    for number in 0..drives.len() {
        // The result isn't needed, because a failed sync shows as a lost drive.
        let _ = drives[number].sync();
    }
}
