// The units of the vault are compared with the array's, one after another, while the store is used.
ghost use Rattle.std.specs.Prelude.{◌≡◌, ◌<◌, ◌≤◌, ◌+◌, [], ◌∷◌, ℕ, List, Bool, length, slice_index_or, Some, None, false, true, OnOk, IfOk, IfSome};
ghost use Rattle.extent_groups.specs.Cells.{Cells};
ghost use Rattle.vault.specs.Images.{Image};
ghost use Rattle.journaled_store.specs.Keeping.{KeepsStore, as_whole};
ghost use Rattle.journaled_store.specs.Scrubbing.{HasAdvanced, HasNone, HasUnit, IsCompared, IsHeldAt, IsNextPosition, IsPending, compared_after, place_at_position, repaired_after};

use crate::changes::Changes;
use crate::comparing::{Compared, compare};
use crate::position::{ScrubPosition, Scrubbed, Step, place_at_position, step_from};
use crate::publishing::{collect, fault_of};
use crate::store::{JournaledStore, has_lost_two, is_lost};
use byte_store::StoreFault;
use history::Chronicle;
use vault::Vault;

/// A unit is compared at every so many rests: a server rests after each request, so one unit read for so many requests is less
/// than a hundredth of what they read and write.
pub(crate) const SCRUB_EVERY: u8 = 16;

// A drive's number that no drive has: no unit is asked for.
const NO_DRIVE: u8 = u8::MAX;

/// What was found at a position.
#[derive(Clone, Copy, Debug)]
struct Checked {
    step: Step,
    /// What the comparison found. None where there is no unit to compare.
    found: Option<Compared>,
}

// How many units to compare a drive has, if it was shown: none if it is lost.
fn units_of<N: Chronicle>(changes: &Changes<N>, drive: u8) -> u32
    ensures all { drive < changes.now.next → slice_index_or changes.now.lost drive true ≡ false → result ≡ changes.now.lookup.units }
    ensures lost { slice_index_or changes.now.lost drive true ≡ true → result ≡ 0 }
    ensures past { changes.now.next ≤ drive → result ≡ 0 }
{
    if drive >= changes.next || is_lost(&changes.lost, drive) {
        return 0;
    }
    changes.lookup.units
}

impl<N: Chronicle, V: Vault + Drop> JournaledStore<N, V> {
    /// Compares the unit at the position in the vault with the array's, and goes on to the next position. One that isn't whole, or
    /// is another one while no write waits, is written again: the array's unit goes into a batch, and the store is settled. So a
    /// stop loses nothing. A drive that fails is lost. `Failed` too where nothing can be published, and where the unit is still not
    /// the array's after it was written.
    pub fn scrub_unit(&mut self) -> Scrubbed
        // The bytes stay, and what a stop leaves is what the store shows.
        ensures kept { KeepsStore V.known V.seen V.may_leave V.moment V.left_since (as_whole self.old) (as_whole self.new) }

        // Each unit is reached, in the order of the drives and of their addresses.
        ensures moves { HasAdvanced self.old.store.tiers.world.array.parts.drives self.old.scrub.position self.old.scrub.rounds
            self.new.scrub.position self.new.scrub.rounds result }
        ensures counts { (self.new.scrub.scrubbed ≡ compared_after self.old.scrub.scrubbed result)
            × (self.new.scrub.repaired ≡ repaired_after self.old.scrub.repaired result) }

        // What lies in the vault after it.
        ensures skipped { result ≡ Scrubbed.Skipped → HasNone self.old.store.tiers.world.array.parts.drives self.old.scrub.position }
        ensures same { V.known self.old.vault → result ≡ Scrubbed.Same
            → IsHeldAt (V.attested self.new.vault) (Image.cells (V.seen self.new.vault)) self.new.store.tiers.world.array.parts.drives self.old.scrub.position }
        ensures repaired { V.known self.old.vault → result ≡ Scrubbed.Repaired
            → IsHeldAt (V.attested self.new.vault) (Image.cells (V.seen self.new.vault)) self.new.store.tiers.world.array.parts.drives self.old.scrub.position }
        ensures waits { V.known self.old.vault → result ≡ Scrubbed.Waits
            → V.attested self.new.vault (place_at_position self.old.scrub.position)
            × IsPending (length (Image.journal (V.seen self.new.vault))) (length self.new.changes.batch) }
    {
        // Callees say nothing of it: it is set again at the end.
        let scrub = self.scrub;
        let checked = match self.check(scrub.position) {
            Ok(checked) => checked,
            Err(fault) => {
                self.scrub = scrub;
                return Scrubbed::Failed(fault);
            }
        };
        let done = self.finish(scrub.position, checked.found);
        self.scrub = scrub.after(checked.step, done);
        done
    }

    // Writes the unit at a position again, if what was found there needs it.
    fn finish(&mut self, at: ScrubPosition, found: Option<Compared>) -> Scrubbed
        ensures kept { KeepsStore V.known V.seen V.may_leave V.moment V.left_since (as_whole self.old) (as_whole self.new) }
        ensures skipped { result ≡ Scrubbed.Skipped → found ≡ None }
        ensures same { result ≡ Scrubbed.Same → (found ≡ Some Compared.Same) × (as_whole self.new ≡ as_whole self.old) }
        ensures waits { result ≡ Scrubbed.Waits → (found ≡ Some Compared.Waits) × (as_whole self.new ≡ as_whole self.old) }
        ensures repaired { V.known self.old.vault → result ≡ Scrubbed.Repaired
            → IsHeldAt (V.attested self.new.vault) (Image.cells (V.seen self.new.vault)) self.new.store.tiers.world.array.parts.drives at }
    {
        match found {
            None => Scrubbed::Skipped,
            Some(Compared::Same) => Scrubbed::Same,
            Some(Compared::Waits) => Scrubbed::Waits,
            Some(_) => match self.mend(at) {
                Ok(()) => Scrubbed::Repaired,
                Err(fault) => Scrubbed::Failed(fault),
            },
        }
    }

    // Writes the array's unit at a position to the vault again, and compares it.
    fn mend(&mut self, at: ScrubPosition) -> Result<(), StoreFault>
        ensures kept { KeepsStore V.known V.seen V.may_leave V.moment V.left_since (as_whole self.old) (as_whole self.new) }
        ensures mended { V.known self.old.vault → OnOk result
            (IsHeldAt (V.attested self.new.vault) (Image.cells (V.seen self.new.vault)) self.new.store.tiers.world.array.parts.drives at) }
    {
        if !self.put_again(at) {
            return Err(StoreFault::Memory);
        }
        self.settle()?;
        match self.check(at)?.found {
            Some(Compared::Same) => Ok(()),
            _ => Err(StoreFault::Sync),
        }
    }

    // Puts the array's unit at a position into the batch once more. False if out of memory, or if it has none.
    fn put_again(&mut self, at: ScrubPosition) -> bool
        ensures kept { KeepsStore V.known V.seen V.may_leave V.moment V.left_since (as_whole self.old) (as_whole self.new) }
    {
        self.changes.lookup.drive = at.drive;
        self.changes.lookup.address = at.address;
        if !collect(&mut self.store, &mut self.changes) {
            return false;
        }
        if at.address >= units_of(&self.changes, at.drive) {
            return false;
        }
        self.changes
            .batch
            .push(place_at_position(at), &self.changes.lookup.unit)
            .is_ok()
    }

    // Compares the array's unit at a position with the vault's. `Sync` where nothing can be published.
    fn check(&mut self, at: ScrubPosition) -> Result<Checked, StoreFault>
        ensures kept { KeepsStore V.known V.seen V.may_leave V.moment V.left_since (as_whole self.old) (as_whole self.new) }
        ensures next { IfOk result (λ c. IsNextPosition self.old.store.tiers.world.array.parts.drives at c.step.next c.step.ends) }
        ensures none { IfOk result (λ c. c.found ≡ None → HasNone self.old.store.tiers.world.array.parts.drives at) }
        ensures same { V.known self.old.vault → IfOk result (λ c. c.found ≡ Some Compared.Same
            → IsHeldAt (V.attested self.new.vault) (Image.cells (V.seen self.new.vault)) self.new.store.tiers.world.array.parts.drives at) }
        ensures waits { V.known self.old.vault → IfOk result (λ c. c.found ≡ Some Compared.Waits
            → V.attested self.new.vault (place_at_position at)
            × IsPending (length (Image.journal (V.seen self.new.vault))) (length self.new.changes.batch)) }
    {
        if self.failed {
            return Err(StoreFault::Sync);
        }
        if has_lost_two(self.store.world()) {
            return Err(StoreFault::Sync);
        }
        let Some(step) = self.pick(at) else {
            return Err(StoreFault::Memory);
        };
        if !step.is_there {
            return Ok(Checked { step, found: None });
        }
        let found = self.read_back(at)?;
        Ok(Checked {
            step,
            found: Some(found),
        })
    }

    // Copies the array's unit at a position, and finds what comes after it. None if out of memory.
    fn pick(&mut self, at: ScrubPosition) -> Option<Step>
        ensures kept { KeepsStore V.known V.seen V.may_leave V.moment V.left_since (as_whole self.old) (as_whole self.new) }
        ensures vault { self.new.vault ≡ self.old.vault }
        ensures next { IfSome result (λ s. IsNextPosition self.old.store.tiers.world.array.parts.drives at s.next s.ends) }
        ensures none { IfSome result (λ s. s.is_there ≡ false → HasNone self.old.store.tiers.world.array.parts.drives at) }
        ensures there { IfSome result (λ s. s.is_there ≡ true
            → HasUnit self.new.store.tiers.world.array.parts.drives at self.new.changes.lookup.unit.items) }
    {
        self.changes.lookup.drive = at.drive;
        self.changes.lookup.address = at.address;
        if !collect(&mut self.store, &mut self.changes) {
            return None;
        }
        let units = units_of(&self.changes, at.drive);
        // Else each later walk would copy the unit.
        self.changes.lookup.drive = NO_DRIVE;
        Some(step_from(at, units, self.changes.next))
    }

    // Compares the unit that was copied with the vault's at a position. A drive that fails is lost.
    fn read_back(&mut self, at: ScrubPosition) -> Result<Compared, StoreFault>
        ensures kept { KeepsStore V.known V.seen V.may_leave V.moment V.left_since (as_whole self.old) (as_whole self.new) }
        ensures array { OnOk result (self.new.store ≡ self.old.store) }
        ensures found { V.known self.old.vault → IfOk result (λ found. IsCompared (V.attested self.new.vault)
            (Image.cells (V.seen self.new.vault)) (place_at_position at) self.old.changes.lookup.unit.items found) }
        ensures waits { V.known self.old.vault → IfOk result (λ found. found ≡ Compared.Waits
            → IsPending (length (Image.journal (V.seen self.new.vault))) (length self.new.changes.batch)) }
    {
        if self.changes.lookup.read.len() != self.changes.lookup.unit.len() {
            return Err(StoreFault::Memory);
        }
        let waiting = self.changes.batch.len();
        let unit: &[u8] = &self.changes.lookup.unit;
        match compare(
            &mut self.vault,
            place_at_position(at),
            unit,
            waiting,
            &mut self.changes.lookup.read,
        ) {
            Ok(found) => Ok(found),
            Err(error) => {
                self.give_up(error);
                Err(fault_of(error))
            }
        }
    }

    // Settles where the journal has grown.
    pub(crate) fn settle_grown(&mut self)
        ensures kept { KeepsStore V.known V.seen V.may_leave V.moment V.left_since (as_whole self.old) (as_whole self.new) }
    {
        if self.changes.appended >= self.settle_at {
            let _ = self.settle();
        }
    }

    // Compares a unit, if it is time.
    pub(crate) fn scrub_due(&mut self)
        ensures kept { KeepsStore V.known V.seen V.may_leave V.moment V.left_since (as_whole self.old) (as_whole self.new) }
    {
        self.scrub.rests = self.scrub.rests.saturating_add(1);
        if self.scrub.rests >= SCRUB_EVERY {
            self.scrub.rests = 0;
            let _ = self.scrub_unit();
        }
    }

    // What is done between requests.
    pub(crate) fn tidy(&mut self)
        ensures kept { KeepsStore V.known V.seen V.may_leave V.moment V.left_since (as_whole self.old) (as_whole self.new) }
    {
        self.settle_grown();
        self.scrub_due();
    }

    /// Where the next unit is that is compared: a program writes it down, to go on there when the store is opened again.
    pub fn scrub_position(&self) -> ScrubPosition
        ensures { result ≡ self.now.scrub.position }
    {
        self.scrub.position
    }

    /// Goes on at a position.
    pub fn resume_scrub(&mut self, position: ScrubPosition)
        ensures position { self.new.scrub.position ≡ position }
        ensures whole { as_whole self.new ≡ as_whole self.old }
    {
        self.scrub.position = position;
    }

    /// Units that were compared since the store was opened.
    pub fn scrubbed(&self) -> u64
        ensures { result ≡ self.now.scrub.scrubbed }
    {
        self.scrub.scrubbed
    }

    /// Units that were written again since the store was opened.
    pub fn repaired(&self) -> u64
        ensures { result ≡ self.now.scrub.repaired }
    {
        self.scrub.repaired
    }

    /// How often all units were gone through since the store was opened.
    pub fn rounds(&self) -> u64
        ensures { result ≡ self.now.scrub.rounds }
    {
        self.scrub.rounds
    }
}
