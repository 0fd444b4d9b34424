// Where units lie in the files.
ghost use Rattle.std.specs.Prelude.{◌≡◌, ◌≤◌, ◌+◌, ◌*◌, ◌<◌, ◌^◌, length, IfSome, IfNone};
ghost use Rattle.file_vault.specs.Layouts.{count_of, size_of, offset_of};

use extent_groups::Place;
use extents::DRIVES;
use unit_digest::DIGEST_BYTES;
use vault::TABLE;

/// Bytes before the first unit of a drive's file, and before the first batch of the journal's.
pub const HEADER: u64 = 4096;

/// The number of the journal's file. Before it are those of the drives, and of the table.
pub const JOURNAL: u8 = 17;

/// Units of the table: the marks of lost drives, then those that spell the groups and the number of drives.
pub const TABLE_UNITS: u32 = 1026;

/// How many units each drive has, and how long they are.
#[derive(Clone, Copy, Debug, PartialEq, Eq)]
pub struct Layout {
    /// Bytes of a unit.
    pub unit_bytes: u32,
    /// Bytes of a unit of the table.
    pub table_bytes: u32,
    /// Units of each drive; 0 for a drive without a file.
    pub counts: [u32; DRIVES],
}

impl Layout {
    ghost use Rattle.file_vault.specs.Layouts.{count_of, size_of, offset_of};

    /// Units of a drive, or of the table.
    pub fn count(&self, drive: u8) -> u32
        ensures { result ≡ count_of self.now.counts drive }
    {
        if drive == TABLE {
            return TABLE_UNITS;
        }
        if drive > TABLE {
            return 0;
        }
        self.counts[drive as usize]
    }

    /// Bytes of a unit of a drive.
    pub fn size(&self, drive: u8) -> u32
        ensures { result ≡ size_of self.now.unit_bytes self.now.table_bytes drive }
    {
        if drive == TABLE {
            self.table_bytes
        } else {
            self.unit_bytes
        }
    }

    /// Bytes of the unit at a place; none where no unit is.
    pub fn size_at(&self, place: Place) -> Option<usize>
        ensures size { IfSome result (λ size. size ≡ size_of self.now.unit_bytes self.now.table_bytes place.drive) }
        ensures there { IfSome result (λ size. (place.drive ≤ 16) × (place.address < count_of self.now.counts place.drive)) }
        ensures none { IfNone result (count_of self.now.counts place.drive ≤ place.address) }
    {
        if place.address < self.count(place.drive) {
            Some(self.size(place.drive) as usize)
        } else {
            None
        }
    }

    /// The offset of a unit in its drive's file, of which each is followed by its digest; none past 2^64.
    pub fn offset(&self, place: Place) -> Option<u64>
        ensures { IfSome result (λ at. at ≡ offset_of (size_of self.now.unit_bytes self.now.table_bytes place.drive) place.address) }
    {
        let bytes = self.size(place.drive) as u64 + DIGEST_BYTES as u64;
        let before = (place.address as u64).checked_mul(bytes)?;
        HEADER.checked_add(before)
    }
}
