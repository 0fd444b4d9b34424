// What outlives a stop: the units of all drives, and a journal of batches.
ghost use Rattle.std.specs.Prelude.{◌≡◌, ◌≤◌, ◌<◌, ◌++◌, [], ◌∷◌, ℕ, Some, length, slice_get, false, IfOk, OnOk, IsErrOf};
ghost use Rattle.extent_groups.specs.declared.place.Place.{Place};
ghost use Rattle.vault.specs.Images.{Image, Alike, with_write, with_journal, is_lost};
ghost use Rattle.vault.specs.Moments.{Elapses, HasCause, IsRejected, IsMisfit, IsUnchanged, HasJournal, HasUnitsAtStop, Torn, torn_at, written_at, has_batch, with_or_without, more_batches, emptied, no_drive, Within, IsUnitAt, IsAsAttested, AttestsNoMore, AttestsNoOther};
ghost use Rattle.vault.specs.declared.store.Stop.{Stop};
ghost use Rattle.vault.specs.declared.store.Stop.TheVariants.{Killed};
ghost use Rattle.vault.specs.declared.store.VaultError.TheVariants.{Memory};

use crate::batch::Batch;
use extent_groups::Place;
use extents::DRIVES;
use std::alloc::{AllocError, AllocFailed};

/// The drive number of the table. Its unit at address 0 says which drives are lost; a disk's groups are spelled in units after it.
/// As places like any other they go through batches, so that a loss is noted together with the writes that skipped the drive.
pub const TABLE: u8 = 16;

/// How a run ends.
#[derive(Clone, Copy, Debug, PartialEq, Eq)]
pub enum Stop {
    /// The process ends. Calls that returned are as they are, the one under way is whole, torn or not made.
    Killed,
    /// The machine ends. Of all that wasn't synced any part may be there.
    PowerLost,
}

/// What a read of a unit finds.
#[derive(Clone, Copy, Debug, PartialEq, Eq)]
pub enum UnitRead {
    /// The unit, as its digest says.
    Whole,
    /// No unit of this length is at the place.
    Absent,
    /// The unit isn't as its digest says. The bytes that were read are not to be used.
    Rotten,
}

/// Why a call of a vault fails.
#[derive(Clone, Copy, Debug, PartialEq, Eq)]
pub enum VaultError {
    /// Out of memory. The journal is as it was.
    Memory,
    /// A unit isn't as long as the one at its place, or the journal is full. Nothing was changed.
    Misfit,
    /// The journal or the table failed. Open the vault again.
    Journal,
    /// This drive failed. The journal is as it was.
    Drive(u8),
}

impl From<AllocError> for VaultError {
    ghost from_gives = { λ _ e. e ≡ Memory };

    fn from(_: AllocError) -> VaultError {
        VaultError::Memory
    }
}

impl<T: Drop> From<AllocFailed<T>> for VaultError {
    ghost from_gives = { λ _ e. e ≡ Memory };

    fn from(_: AllocFailed<T>) -> VaultError {
        VaultError::Memory
    }
}

/// The units of all drives and a journal of batches: one object, so that all its calls have one order.
pub trait Vault {
    /// Whether what outlives a stop is known. Of real files it isn't: no contract says what they hold, and the clauses say nothing.
    ghost known: { Self → Type 0 };

    /// The units and the journal that its calls find.
    ghost seen: { Self → Image };

    /// The unit at a place is as its digest says. Of a drive that returns what was last written, nothing, or bytes whose digest
    /// differs, an attested unit is the last written.
    ghost attested: { Self → Place → Type 0 };

    /// What a stop of a kind at this moment may leave.
    ghost may_leave: { Self → Stop → Image → Type 0 };

    /// The moment, as a number that doesn't fall.
    ghost moment: { Self → ℕ };

    /// What a stop of a kind at some moment from that one on might have left, during a call or between two.
    ghost left_since: { Self → Stop → ℕ → Image → Type 0 };

    /// How often a drive, the journal or the table failed.
    ghost faults: { Self → ℕ };

    /// Writes a unit over that of a place; where no unit is, nothing is written. Until a sync, a loss of power may leave any
    /// bytes there. With an error the place may hold other bytes, and all other places stay.
    fn write_unit(&mut self, place: Place, unit: &[u8]) -> Result<(), VaultError>
        ensures stays { known self.old → known self.new }
        ensures written { known self.old → OnOk result (Alike (seen self.new) (with_write (seen self.old) place unit.now)) }
        ensures attests { known self.old → OnOk result (attested self.new place) }
        ensures others { known self.old → AttestsNoOther attested place self.old self.new }
        ensures misfit { known self.old → IsErrOf result VaultError.Misfit → IsMisfit (Image.cells (seen self.old)) place unit.now }
        ensures torn { known self.old → Torn place (seen self.old) (seen self.new) }
        ensures killed { known self.old → OnOk result (Within (may_leave self.new Killed) (written_at place unit.now (may_leave self.old Killed))) }
        ensures time { known self.old → (stop : Stop) → Elapses (moment self.old) (moment self.new) (left_since self.old stop) (left_since self.new stop)
            (torn_at place (may_leave self.old stop)) (may_leave self.new stop) }
        ensures cause { known self.old → HasCause (λ d. d ≡ place.drive) (faults self.old) (faults self.new) result };

    /// Makes the units of all drives that aren't lost durable, and the table.
    fn sync_units(&mut self, lost: &[bool; DRIVES]) -> Result<(), VaultError>
        ensures stays { known self.old → known self.new }
        ensures attests { known self.old → AttestsNoMore attested self.old self.new }
        ensures seen { known self.old → seen self.new ≡ seen self.old }
        ensures durable { known self.old → OnOk result ((stop : Stop) → HasUnitsAtStop lost.now (Image.cells (seen self.old)) (may_leave self.new stop)) }
        ensures time { known self.old → (stop : Stop) → Elapses (moment self.old) (moment self.new) (left_since self.old stop) (left_since self.new stop)
            (may_leave self.old stop) (may_leave self.new stop) }
        ensures cause { known self.old → HasCause (λ d. is_lost lost.now d ≡ false) (faults self.old) (faults self.new) result };

    /// Reads the unit at a place, and compares it with its digest.
    fn read_unit(&mut self, place: Place, out: &mut [u8]) -> Result<UnitRead, VaultError>
        ensures stays { known self.old → known self.new }
        ensures attests { known self.old → AttestsNoMore attested self.old self.new }
        ensures lasts { known self.old → AttestsNoMore attested self.new self.old }
        ensures found { known self.old → IfOk result (λ read. IsUnitAt (Image.cells (seen self.old)) place out.new read) }
        ensures attested { known self.old → IfOk result (λ read. IsAsAttested (attested self.old place) read) }
        ensures seen { known self.old → seen self.new ≡ seen self.old }
        ensures time { known self.old → (stop : Stop) → Elapses (moment self.old) (moment self.new) (left_since self.old stop) (left_since self.new stop)
            (may_leave self.old stop) (may_leave self.new stop) }
        ensures cause { known self.old → HasCause (λ d. d ≡ place.drive) (faults self.old) (faults self.new) result };

    /// Appends a batch to the journal, in one piece. Until a sync, a loss of power may leave it out. With `Memory` or `Misfit`
    /// nothing changes; with `Journal` a stop may leave the batch or not.
    fn append(&mut self, batch: &Batch) -> Result<(), VaultError>
        ensures stays { known self.old → known self.new }
        ensures attests { known self.old → AttestsNoMore attested self.old self.new }
        ensures appended { known self.old → OnOk result (Alike (seen self.new) (with_journal (seen self.old) (Image.journal (seen self.old) ++ batch.now ∷ []))) }
        ensures killed { known self.old → OnOk result (Within (may_leave self.new Killed) (has_batch (seen self.old) batch.now (may_leave self.old Killed))) }
        ensures refused { known self.old → IsRejected result → IsUnchanged seen may_leave self.old self.new }
        ensures time { known self.old → (stop : Stop) → Elapses (moment self.old) (moment self.new) (left_since self.old stop) (left_since self.new stop)
            (with_or_without (seen self.old) batch.now (may_leave self.old stop)) (may_leave self.new stop) }
        ensures cause { known self.old → HasCause no_drive (faults self.old) (faults self.new) result };

    /// Makes the journal durable.
    fn sync_journal(&mut self) -> Result<(), VaultError>
        ensures stays { known self.old → known self.new }
        ensures attests { known self.old → AttestsNoMore attested self.old self.new }
        ensures seen { known self.old → seen self.new ≡ seen self.old }
        ensures durable { known self.old → OnOk result ((stop : Stop) → HasJournal (Image.journal (seen self.old)) (may_leave self.new stop)) }
        ensures time { known self.old → (stop : Stop) → Elapses (moment self.old) (moment self.new) (left_since self.old stop) (left_since self.new stop)
            (more_batches (seen self.old) (may_leave self.old stop)) (may_leave self.new stop) }
        ensures cause { known self.old → HasCause no_drive (faults self.old) (faults self.new) result };

    /// Empties the journal, in one piece, and makes that durable. With `Memory` or `Misfit` nothing changes; with `Journal` a
    /// stop may leave the journal or an empty one.
    fn clear(&mut self) -> Result<(), VaultError>
        ensures stays { known self.old → known self.new }
        ensures attests { known self.old → AttestsNoMore attested self.old self.new }
        ensures cleared { known self.old → OnOk result (Alike (seen self.new) (with_journal (seen self.old) [])) }
        ensures durable { known self.old → OnOk result ((stop : Stop) → HasJournal [] (may_leave self.new stop)) }
        ensures refused { known self.old → IsRejected result → IsUnchanged seen may_leave self.old self.new }
        ensures time { known self.old → (stop : Stop) → Elapses (moment self.old) (moment self.new) (left_since self.old stop) (left_since self.new stop)
            (emptied (may_leave self.old stop)) (may_leave self.new stop) }
        ensures cause { known self.old → HasCause no_drive (faults self.old) (faults self.new) result };

    /// How many batches the journal has.
    fn batches(&mut self) -> Result<usize, VaultError>
        ensures stays { known self.old → known self.new }
        ensures attests { known self.old → AttestsNoMore attested self.old self.new }
        ensures count { known self.old → IfOk result (λ count. count ≡ length (Image.journal (seen self.old))) }
        ensures seen { known self.old → seen self.new ≡ seen self.old }
        ensures time { known self.old → (stop : Stop) → Elapses (moment self.old) (moment self.new) (left_since self.old stop) (left_since self.new stop)
            (may_leave self.old stop) (may_leave self.new stop) }
        ensures cause { known self.old → HasCause no_drive (faults self.old) (faults self.new) result };

    /// Reads a batch of the journal, the first of them at 0. Of an index past the last, any.
    fn read_batch(&mut self, index: usize, batch: &mut Batch) -> Result<(), VaultError>
        ensures stays { known self.old → known self.new }
        ensures attests { known self.old → AttestsNoMore attested self.old self.new }
        ensures batch { known self.old → index < length (Image.journal (seen self.old)) → OnOk result (slice_get (Image.journal (seen self.old)) index ≡ Some batch.new) }
        ensures seen { known self.old → seen self.new ≡ seen self.old }
        ensures time { known self.old → (stop : Stop) → Elapses (moment self.old) (moment self.new) (left_since self.old stop) (left_since self.new stop)
            (may_leave self.old stop) (may_leave self.new stop) }
        ensures cause { known self.old → index < length (Image.journal (seen self.old)) → HasCause no_drive (faults self.old) (faults self.new) result };

    /// This moment is one of those since an earlier one.
    ghost counts_now: { (vault : Self) → known vault → (stop : Stop) (t : ℕ) (i : Image) → t ≤ moment vault → may_leave vault stop i → left_since vault stop t i };

    /// Since this moment there is no other.
    ghost only_now: { (vault : Self) → known vault → (stop : Stop) (i : Image) → left_since vault stop (moment vault) i → may_leave vault stop i };
}
