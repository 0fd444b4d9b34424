// A vault over files: the units of each drive in a file of its own, the table in one, and the journal in one.
ghost use Rattle.std.specs.Prelude.{◌≡◌, ◌≢◌, ◌≤◌, ◌<◌, get_or, ◌^◌, ◌⊎◌, false, OnOk, IfErr};
ghost use Rattle.vault.specs.Images.{is_lost};
ghost use Rattle.vault.specs.Moments.{Elapses, HasCause};
ghost use Rattle.vault.specs.Coding.{decoded, IsCode};
ghost use Rattle.vault.specs.declared.store.VaultError.TheVariants.{Memory, Journal};
ghost use Rattle.vault.specs.declared.store.Stop.{Stop};
ghost use Rattle.file_vault.specs.Folders.{HasFile};
ghost use Rattle.file_vault.specs.Layouts.{IsAttested};
ghost use Rattle.file_vault.specs.Journals.{image_of, place_after};
ghost use Rattle.file_vault.specs.Vaults.{plan_of, left_of, IsKnown, fault_of_file, AreSynced};

use crate::files::{FileFault, Files};
use crate::journal::{end_at, read_body};
use crate::layout::{HEADER, JOURNAL, Layout};
use crate::record::{HEAD, make_record};
use crate::sealed::{make_room, seal, unseal};
use extent_groups::Place;
use extents::DRIVES;
use vault::{Batch, TABLE, UnitRead, Vault, VaultError};

/// The most bytes of a journal.
pub(crate) const LIMIT: u64 = 1 << 60;

/// A vault over files.
#[derive(Drop)]
pub struct FileVault<F: Files + Drop> {
    pub(crate) files: F,
    pub(crate) layout: Layout,
    // The places of the journal's records.
    pub(crate) places: Vec<u64>,
    // The place after them.
    pub(crate) end: u64,
    // How many of the first are durable.
    pub(crate) durable: usize,
    // The journal's file failed.
    pub(crate) broken: bool,
    // A batch's bytes, or its record.
    pub(crate) bytes: Vec<u8>,
    // A unit and its digest.
    pub(crate) unit: Vec<u8>,
    ghost end_is: { (4096 ≤ end) × (end ≤ 2 ^ 62) },
}

// The fault of a drive's file or the table's.
pub(crate) fn fault_of(drive: u8) -> VaultError
    ensures { result ≡ fault_of_file drive }
{
    if drive < TABLE {
        VaultError::Drive(drive)
    } else {
        VaultError::Journal
    }
}

// The place of a batch's record; of one past the last, the place after them.
#[tactic(auto, using(crate::proofs::Places::place_in, crate::proofs::Places::place_out))]
fn place_after(places: &[u64], end: u64, index: usize) -> u64
    ensures { result ≡ place_after places.now end index }
{
    if index < places.len() {
        places[index]
    } else {
        end
    }
}

// A batch for which bytes stand.
pub(crate) fn decode_into(batch: &mut Batch, bytes: &[u8]) -> Result<(), VaultError>
    ensures batch { OnOk result (batch.new ≡ decoded bytes.now) }
    ensures code { OnOk result (IsCode bytes.now) }
    ensures is { IsCode bytes.now → IfErr result (λ e. e ≡ Memory) }
    ensures why { IfErr result (λ e. (e ≡ Memory) ⊎ (e ≡ Journal)) }
{
    if batch.decode(bytes)? {
        Ok(())
    } else {
        Err(VaultError::Journal)
    }
}

// Each unit of a batch is as long as the one at its place.
fn fits(layout: &Layout, batch: &Batch) -> bool {
    for index in 0..batch.len() {
        if let Some(size) = layout.size_at(batch.place(index)) {
            if size != batch.unit(index).len() {
                return false;
            }
        }
    }
    true
}

// Makes the file of a drive durable, if the drive isn't lost and has units.
fn sync_drive<F: Files>(
    files: &mut F,
    layout: &Layout,
    lost: &[bool; DRIVES],
    drive: usize,
) -> Result<(), VaultError>
    requires { drive < 16 }
    ensures stays { F.known files.old → F.known files.new }
    ensures seen { F.known files.old → F.seen files.new ≡ F.seen files.old }
    ensures durable { F.known files.old
        → OnOk result ((stop : Stop) → is_lost lost.now drive ≡ false → get_or layout.now.counts drive 0 ≢ 0
        → HasFile drive (F.seen files.old) (F.may_leave files.new stop)) }
    ensures time { F.known files.old
        → (stop : Stop) → Elapses (F.moment files.old) (F.moment files.new) (F.left_since files.old stop) (F.left_since files.new stop)
        (F.may_leave files.old stop) (F.may_leave files.new stop) }
    ensures cause { F.known files.old → HasCause (λ d. is_lost lost.now d ≡ false) (F.faults files.old) (F.faults files.new) result }
{
    if lost[drive] || layout.counts[drive] == 0 {
        return Ok(());
    }
    match files.sync(drive as u8) {
        Ok(()) => Ok(()),
        Err(_) => Err(VaultError::Drive(drive as u8)),
    }
}

// Makes the files of the drives that aren't lost durable.
pub(crate) fn sync_drives<F: Files>(
    files: &mut F,
    layout: &Layout,
    lost: &[bool; DRIVES],
) -> Result<(), VaultError>
    ensures stays { F.known files.old → F.known files.new }
    ensures seen { F.known files.old → F.seen files.new ≡ F.seen files.old }
    ensures durable { F.known files.old → OnOk result (AreSynced lost.now layout.now.counts (F.seen files.old) (F.may_leave files.new) 16) }
    ensures time { F.known files.old
        → (stop : Stop) → Elapses (F.moment files.old) (F.moment files.new) (F.left_since files.old stop) (F.left_since files.new stop)
        (F.may_leave files.old stop) (F.may_leave files.new stop) }
    ensures cause { F.known files.old → HasCause (λ d. is_lost lost.now d ≡ false) (F.faults files.old) (F.faults files.new) result }
{
    for drive in 0..DRIVES {
        sync_drive(files, layout, lost, drive)?;
    }
    Ok(())
}

impl From<FileFault> for VaultError {
    ghost from_gives = { λ _ e. e ≡ Journal };

    fn from(_: FileFault) -> VaultError {
        VaultError::Journal
    }
}

impl<F: Files + Drop> Vault for FileVault<F> {
    ghost known = { λ v. IsKnown F.Files.known F.Files.seen F.Files.may_leave F.Files.faults v.files v.places.items v.end v.durable v.broken };

    ghost seen = { λ v. image_of (plan_of v.layout) (F.Files.seen v.files) };

    ghost attested = { λ v x. IsAttested (plan_of v.layout) (F.Files.seen v.files) x };

    ghost may_leave = { λ v stop i. left_of (plan_of v.layout) (F.Files.may_leave v.files stop) i };

    ghost moment = { λ v. F.Files.moment v.files };

    ghost left_since = { λ v stop t i. left_of (plan_of v.layout) (F.Files.left_since v.files stop t) i };

    ghost faults = { λ v. F.Files.faults v.files };

    ghost counts_now = { λ v known stop t i le now. (now.0, F.Files.counts_now v.files known.files_known stop t now.0 le now.1, now.2) };

    ghost only_now = { λ v known stop i left. (left.0, F.Files.only_now v.files known.files_known stop left.0 left.1, left.2) };

    fn write_unit(&mut self, place: Place, unit: &[u8]) -> Result<(), VaultError> {
        let Some(size) = self.layout.size_at(place) else {
            return Ok(());
        };
        if size != unit.len() {
            return Err(VaultError::Misfit);
        }
        let offset = seal(&self.layout, &mut self.unit, place, unit)?;
        match self.files.write_at(place.drive, offset, &self.unit) {
            Ok(()) => Ok(()),
            Err(_) => Err(fault_of(place.drive)),
        }
    }

    fn sync_units(&mut self, lost: &[bool; DRIVES]) -> Result<(), VaultError> {
        sync_drives(&mut self.files, &self.layout, lost)?;
        match self.files.sync(TABLE) {
            Ok(()) => Ok(()),
            Err(_) => Err(VaultError::Journal),
        }
    }

    fn read_unit(&mut self, place: Place, out: &mut [u8]) -> Result<UnitRead, VaultError> {
        let Some(size) = self.layout.size_at(place) else {
            return Ok(UnitRead::Absent);
        };
        if size != out.len() {
            return Ok(UnitRead::Absent);
        }
        let offset = make_room(&self.layout, &mut self.unit, place)?;
        match self.files.read_at(place.drive, offset, &mut self.unit) {
            Ok(()) => Ok(unseal(&self.unit, place, out)),
            Err(_) => Err(fault_of(place.drive)),
        }
    }

    fn append(&mut self, batch: &Batch) -> Result<(), VaultError> {
        if self.broken {
            return Err(VaultError::Journal);
        }
        if !fits(&self.layout, batch) {
            return Err(VaultError::Misfit);
        }
        make_record(&mut self.bytes, batch)?;
        let length = self.bytes.len() as u64;
        if length > LIMIT || self.end > LIMIT {
            return Err(VaultError::Misfit);
        }
        self.places.reserve(1)?;
        match self.files.write_at(JOURNAL, self.end, &self.bytes) {
            Ok(()) => {
                self.places.push_reserved(self.end);
                self.end += length;
                Ok(())
            }
            Err(_) => {
                self.broken = true;
                Err(VaultError::Journal)
            }
        }
    }

    fn sync_journal(&mut self) -> Result<(), VaultError> {
        if self.broken {
            return Err(VaultError::Journal);
        }
        if self.durable >= self.places.len() {
            return Ok(());
        }
        match self.files.sync(JOURNAL) {
            Ok(()) => {
                self.durable = self.places.len();
                Ok(())
            }
            Err(_) => {
                self.broken = true;
                Err(VaultError::Journal)
            }
        }
    }

    fn clear(&mut self) -> Result<(), VaultError> {
        if self.broken {
            return Err(VaultError::Journal);
        }
        match end_at(&mut self.files, HEADER) {
            Ok(()) => {
                self.places.clear();
                self.end = HEADER;
                self.durable = 0;
                Ok(())
            }
            Err(_) => {
                self.broken = true;
                Err(VaultError::Journal)
            }
        }
    }

    fn batches(&mut self) -> Result<usize, VaultError> {
        if self.broken {
            return Err(VaultError::Journal);
        }
        Ok(self.places.len())
    }

    fn read_batch(&mut self, index: usize, batch: &mut Batch) -> Result<(), VaultError> {
        if self.broken {
            return Err(VaultError::Journal);
        }
        if index >= self.places.len() {
            return Err(VaultError::Journal);
        }
        let body = place_after(&self.places, self.end, index).saturating_add(HEAD as u64);
        let length = place_after(&self.places, self.end, index + 1).saturating_sub(body);
        read_body(&mut self.files, body, length, &mut self.bytes)?;
        decode_into(batch, &self.bytes)
    }
}
