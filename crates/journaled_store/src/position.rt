// Which unit is compared next, and how many were.
ghost use Rattle.std.specs.Prelude.{◌≡◌, ◌<◌, ◌≤◌, ◌+◌, false, true};
ghost use Rattle.journaled_store.specs.Scrubbing.{compared_after, repaired_after, rounds_after, place_at_position};

use byte_store::StoreFault;
use extent_groups::Place;

/// Where the next unit is that is compared. A position past a drive's last unit, or past the last drive, has none, and the next
/// drive's first unit follows it, or that of drive 0.
#[derive(Clone, Copy, Debug, PartialEq, Eq)]
pub struct ScrubPosition {
    pub drive: u8,
    pub address: u32,
}

/// What became of a unit.
#[derive(Clone, Copy, Debug, PartialEq, Eq)]
pub enum Scrubbed {
    /// It is in the vault as the array has it.
    Same,
    /// It wasn't, and was written again.
    Repaired,
    /// It is another one, as its digest says, and writes are in the journal or come with the next batch.
    Waits,
    /// There is none at the position, or its drive is lost.
    Skipped,
    /// It couldn't be compared or written. A drive that failed is lost.
    Failed(StoreFault),
}

/// What comes after a position.
#[derive(Clone, Copy, Debug)]
pub(crate) struct Step {
    /// Whether a unit is at the position.
    pub(crate) is_there: bool,
    pub(crate) next: ScrubPosition,
    /// Whether the next position is the first of all.
    pub(crate) ends: bool,
}

/// The next position, and counts since the store was opened.
#[derive(Clone, Copy, Debug)]
pub(crate) struct Scrub {
    pub(crate) position: ScrubPosition,
    /// Units that were compared.
    pub(crate) scrubbed: u64,
    /// Units that were written again.
    pub(crate) repaired: u64,
    /// How often the last unit of the last drive was reached.
    pub(crate) rounds: u64,
    /// Rests since the last unit.
    pub(crate) rests: u8,
}

impl Scrub {
    /// The first unit, and no counts.
    pub(crate) fn new() -> Scrub {
        Scrub {
            position: ScrubPosition {
                drive: 0,
                address: 0,
            },
            scrubbed: 0,
            repaired: 0,
            rounds: 0,
            rests: 0,
        }
    }

    /// Goes on to the next position, and counts what became of a unit.
    pub(crate) fn after(self, step: Step, done: Scrubbed) -> Scrub
        ensures position { result.position ≡ step.next }
        ensures rounds { result.rounds ≡ rounds_after self.rounds step.ends }
        ensures scrubbed { result.scrubbed ≡ compared_after self.scrubbed done }
        ensures repaired { result.repaired ≡ repaired_after self.repaired done }
    {
        let mut scrub = self;
        scrub.move_on(step.next, step.ends);
        scrub.count(done);
        scrub
    }

    // Goes on to the next position.
    fn move_on(&mut self, next: ScrubPosition, ends: bool)
        ensures position { self.new.position ≡ next }
        ensures rounds { self.new.rounds ≡ rounds_after self.old.rounds ends }
        ensures counts { (self.new.scrubbed ≡ self.old.scrubbed) × (self.new.repaired ≡ self.old.repaired) }
    {
        self.position = next;
        if ends {
            self.rounds = self.rounds.saturating_add(1);
        }
    }

    // Counts a unit.
    fn count(&mut self, done: Scrubbed)
        ensures position { (self.new.position ≡ self.old.position) × (self.new.rounds ≡ self.old.rounds) }
        ensures compared { self.new.scrubbed ≡ compared_after self.old.scrubbed done }
        ensures repaired { self.new.repaired ≡ repaired_after self.old.repaired done }
    {
        match done {
            Scrubbed::Same | Scrubbed::Waits => self.scrubbed = self.scrubbed.saturating_add(1),
            Scrubbed::Repaired => {
                self.scrubbed = self.scrubbed.saturating_add(1);
                self.repaired = self.repaired.saturating_add(1);
            }
            Scrubbed::Skipped | Scrubbed::Failed(_) => {}
        }
    }
}

/// The place of the unit at a position.
pub(crate) fn place_at_position(at: ScrubPosition) -> Place
    ensures { result ≡ place_at_position at }
{
    Place {
        drive: at.drive,
        address: at.address,
    }
}

/// What comes after a position on a drive with so many units to compare, the first of them at 0, of so many drives.
pub(crate) fn step_from(at: ScrubPosition, units: u32, drives: u8) -> Step
    ensures there { result.is_there ≡ true → at.address < units }
    ensures none { result.is_there ≡ false → units ≤ at.address }
    ensures on { at.address + 1 < units → (result.next.drive ≡ at.drive) × (result.next.address ≡ at.address + 1) × (result.ends ≡ false) }
    ensures over { units ≤ at.address + 1 → at.drive + 1 < drives → (result.next.drive ≡ at.drive + 1) × (result.next.address ≡ 0) × (result.ends ≡ false) }
    ensures back { units ≤ at.address + 1 → drives ≤ at.drive + 1 → (result.next.drive ≡ 0) × (result.next.address ≡ 0) × (result.ends ≡ true) }
{
    let is_there = at.address < units;
    if is_there && units - at.address > 1 {
        let next = ScrubPosition {
            drive: at.drive,
            address: at.address + 1,
        };
        return Step {
            is_there,
            next,
            ends: false,
        };
    }
    if at.drive < drives && drives - at.drive > 1 {
        let next = ScrubPosition {
            drive: at.drive + 1,
            address: 0,
        };
        return Step {
            is_there,
            next,
            ends: false,
        };
    }
    let next = ScrubPosition {
        drive: 0,
        address: 0,
    };
    Step {
        is_there,
        next,
        ends: true,
    }
}
