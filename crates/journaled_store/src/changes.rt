// What an array's drives have that no batch of a vault has yet.
ghost use Rattle.std.specs.Prelude.{◌≡◌, ◌≢◌, ◌≤◌, ◌<◌, ◌+◌, ◌++◌, ◌⊎◌, [], ◌∷◌, ℕ, length, map, slice_set, true, OnOk, OnErr, IfOk};
ghost use Rattle.unit_store.specs.Views.{DriveView, drive_view};
ghost use Rattle.journaled_store.specs.Steps.{LeadsTo, views_to, loss_mark, table_write};
ghost use Rattle.journaled_store.specs.Picking.{Picks};

use crate::lookup::{Lookup, look};
use cached_drive::{CachedDrive, Saved};
use extent_groups::Place;
use extents::{DRIVES, Drive};
use history::{Chronicle, History, Keeper};
use std::alloc::{AllocError, Global};
use step_core::Visit;
use vault::{Batch, TABLE};

/// The units that were written since the last batch, as one batch. Each drive's are put into it as the drive is shown.
#[derive(Drop)]
pub struct Changes<N: Chronicle> {
    pub(crate) history: History<N, Saved>,
    pub(crate) keeper: Keeper<N, Saved>,
    pub(crate) batch: Batch,
    /// A buffer of a unit's length.
    pub(crate) unit: Vec<u8>,
    /// The number of the drive that is shown next.
    pub(crate) next: u8,
    /// Which of the drives that were shown are lost.
    pub(crate) lost: [bool; DRIVES],
    /// The table's unit after the batch: a mark for each drive.
    pub(crate) noted: [u8; DRIVES],
    /// Units that were appended to the journal since it was emptied.
    pub(crate) appended: u64,
    /// Drives that failed the vault. Each is doomed when it is shown.
    pub(crate) failed: [bool; DRIVES],
    /// The unit of the drives that is compared with the vault's.
    pub(crate) lookup: Lookup,
}

impl<N: Chronicle> Changes<N> {
    /// No changes yet, for drives with units of `unit_bytes` bytes each, where the table has these marks. Refused if out of memory.
    pub fn new(
        alloc: Global,
        history: History<N, Saved>,
        keeper: Keeper<N, Saved>,
        unit_bytes: usize,
        noted: [u8; DRIVES],
    ) -> Result<Changes<N>, AllocError>
        ensures { IfOk result (λ c. (c.keeper ≡ keeper) × (c.batch ≡ []) × (c.noted ≡ noted)) }
    {
        Ok(Changes {
            history,
            keeper,
            batch: Batch::new(alloc),
            unit: vec![in alloc; 0u8; unit_bytes]?,
            next: 0,
            lost: [false; DRIVES],
            noted,
            appended: 0,
            failed: [false; DRIVES],
            lookup: Lookup {
                drive: 0,
                address: 0,
                units: 0,
                unit: vec![in alloc; 0u8; unit_bytes]?,
                read: vec![in alloc; 0u8; unit_bytes]?,
            },
        })
    }

    /// Units that were appended to the journal since it was emptied.
    pub fn appended(&self) -> u64
        ensures { result ≡ self.now.appended }
    {
        self.appended
    }
}

// A drive's mark in the table.
fn loss_mark(is_lost: bool) -> u8
    ensures { result ≡ loss_mark is_lost }
{
    if is_lost { 1 } else { 0 }
}

// The table's unit: a mark for each drive.
pub(crate) fn marks_of(lost: &[bool; DRIVES]) -> [u8; DRIVES]
    ensures { result ≡ map loss_mark lost.now }
{
    let mut marks = [0u8; DRIVES];
    for drive in 0..DRIVES {
        marks[drive] = loss_mark(lost[drive]);
    }
    marks
}

/// Puts which drives are lost into the batch, if the table doesn't say so. If out of memory, nothing has changed.
pub(crate) fn note_lost<N: Chronicle>(changes: &mut Changes<N>) -> Result<(), AllocError>
    ensures keeper { changes.new.keeper ≡ changes.old.keeper }
    ensures shown { (changes.new.lost ≡ changes.old.lost) × (changes.new.next ≡ changes.old.next) }
    ensures lookup { changes.new.lookup ≡ changes.old.lookup }
    ensures noted { OnOk result (changes.new.noted ≡ map loss_mark changes.old.lost) }
    ensures batch { (changes.new.batch ≡ changes.old.batch) ⊎ (changes.new.batch ≡ changes.old.batch ++ table_write changes.new.noted ∷ []) }
    ensures same { changes.new.batch ≡ changes.old.batch → changes.new.noted ≡ changes.old.noted }
    ensures err { OnErr result (changes.new.batch ≡ changes.old.batch) }
    ensures long { length changes.old.lost ≡ 16 }
{
    let marks = marks_of(&changes.lost);
    if changes.noted[..] == marks[..] {
        return Ok(());
    }
    let place = Place {
        drive: TABLE,
        address: 0,
    };
    changes.batch.push(place, &marks)?;
    changes.noted = marks;
    Ok(())
}

// Notes whether a drive is lost.
fn mark(lost: &mut [bool; DRIVES], number: u8, is_lost: bool)
    requires { number < 16 }
    ensures marked { lost.new ≡ slice_set lost.old number is_lost }
    ensures long { length lost.old ≡ 16 }
{
    lost[usize::from(number)] = is_lost;
}

// Dooms a drive that failed the vault.
fn doom_failed<N: Chronicle>(drive: &mut CachedDrive<N>, failed: bool)
    ensures units { drive.new.cache.units ≡ drive.old.cache.units }
    ensures lost { drive.new.lost ≡ drive.old.lost }
    ensures hand { drive.new.hand ≡ drive.old.hand }
{
    if failed {
        drive.doom();
    }
}

impl<N: Chronicle> Visit<CachedDrive<N>> for Changes<N> {
    ghost use Rattle.std.specs.Prelude.{ℕ};
    ghost use Rattle.journaled_store.specs.Steps.{LeadsTo, views_to, leads_stays, leads_further};
    ghost use Rattle.journaled_store.specs.Picking.{Picks, picks_stays, picks_further};

    ghost shown = { λ c. views_to c.keeper.log c.lost c.next };

    ghost leads_to = { λ c d. LeadsTo c.keeper c.batch c.noted d.keeper d.batch d.noted × Picks c.next c.keeper.log c.lookup d.next d.keeper.log d.lookup };

    ghost stays = { λ c. (leads_stays c.keeper c.batch c.noted, picks_stays c.next c.keeper.log c.lookup) };

    ghost further = { λ c d e one two. (
      leads_further c.keeper c.batch c.noted d.keeper d.batch d.noted e.keeper e.batch e.noted one.0 two.0,
      picks_further c.next c.keeper.log c.lookup d.next d.keeper.log d.lookup e.next e.keeper.log e.lookup one.1 two.1,
    ) };

    // A drive is saved under its own number. One of another number, or with other units, ends the walk, and so does memory that is
    // out.
    fn visit(&mut self, drive: &mut CachedDrive<N>) -> bool {
        let number = self.next;
        if usize::from(number) >= DRIVES || drive.number() != u64::from(number) {
            return false;
        }
        if drive.unit_bytes() != self.unit.len() || drive.unit_bytes() != self.lookup.unit.len() {
            return false;
        }
        let unit: &mut [u8] = &mut self.unit;
        match drive.save(
            &self.history,
            &mut self.keeper,
            number,
            unit,
            &mut self.batch,
        ) {
            Ok(()) => {
                look(&mut self.lookup, drive, number);
                doom_failed(drive, self.failed[usize::from(number)]);
                mark(&mut self.lost, number, drive.is_lost());
                self.next += 1;
                true
            }
            Err(_) => false,
        }
    }
}
