// A drive in memory whose written units are listed.
ghost use Rattle.std.specs.Prelude.{◌≡◌, ◌≢◌, ◌≤◌, ◌<◌, ◌+◌, ◌↔◌, ◌++◌, [], ◌∷◌, ℕ, false, true, length, slice_get, slice_set, Some, Contains, IsTrue, OnOk, OnErr};
ghost use Rattle.extents.specs.declared.mem_drive.Condition.TheVariants.{Present};
ghost use Rattle.extents.specs.Failures.{CountsFailure, StaysSteady, unsteady};
ghost use Rattle.extents.specs.Units.{AreUnitsSized, HaveFront, HasUnitBuffer, loss, fronts};
ghost use Rattle.cached_drive.specs.Saving.{AreSaved, AreDirtyMarks, IsMarked, last_of};
ghost use Rattle.history.specs.Entries.{entry};

use crate::saved::{Saved, Saves};
use extents::{Drive, DriveLost, MemDrive};
use history::{Chronicle, Hand, History, Keeper};
use std::alloc::{AllocError, Global};

/// Units in memory, and a list of those that were written since the last save. A call fails, and loses the drive, only after
/// `doom`.
#[derive(Drop)]
pub struct CachedDrive<N: Chronicle> {
    pub(crate) cache: MemDrive,
    /// Addresses of written units, in the order of their first writes.
    pub(crate) dirty: Vec<u32>,
    /// Which addresses are listed, from the first write on a mark for each unit: so no write searches the list.
    pub(crate) marks: Vec<bool>,
    /// Memory was out for the list: any unit may have been written.
    pub(crate) all: bool,
    lost: bool,
    /// The next read, write or sync loses the drive.
    doomed: bool,
    pub(crate) hand: Hand<N, Saved>,
    ghost present: { cache.condition ≡ Present },
    ghost saved: { AreSaved all dirty.items (last_of [] hand.mine) cache.units },
    ghost marked: { AreDirtyMarks marks.items dirty.items },
}

impl<N: Chronicle> CachedDrive<N> {
    /// A drive of these units, which count as saved, with a hand that has saved nothing.
    pub fn new(
        alloc: Global,
        cache: MemDrive,
        history: &History<N, Saved>,
        keeper: &mut Keeper<N, Saved>,
        hand: Hand<N, Saved>,
    ) -> CachedDrive<N>
        requires present { cache.condition ≡ Present }
        requires first { hand.mine ≡ [] }
        ensures units { result.cache.units ≡ cache.units }
        ensures lost { result.lost ≡ false }
        ensures number { result.hand.number ≡ hand.number }
        ensures keeper { keeper.new ≡ record { hired = keeper.old.hired; log = keeper.old.log ++ entry hand.number cache.units ∷ [] } }
    {
        let mut hand = hand;
        keeper.note::<MemDrive, Saves>(history, &mut hand, &cache);
        CachedDrive {
            cache,
            dirty: Vec::new(alloc),
            marks: Vec::new(alloc),
            all: false,
            lost: false,
            doomed: false,
            hand,
        }
    }

    /// The number of the hand that saves its units.
    pub fn number(&self) -> u64
        ensures { result ≡ self.now.hand.number }
    {
        self.hand.number()
    }

    /// Makes the next read, write or sync lose the drive: what it would be saved to has failed. Until then it is as it was.
    /// Not at once, because a visit of an array's drives leaves them as the array knows them.
    pub fn doom(&mut self)
        ensures units { self.new.cache.units ≡ self.old.cache.units }
        ensures lost { self.new.lost ≡ self.old.lost }
        ensures hand { self.new.hand ≡ self.old.hand }
    {
        self.doomed = true;
    }

    /// Makes the drive lost from now on.
    pub fn lose(&mut self)
        ensures units { self.new.cache.units ≡ self.old.cache.units }
        ensures lost { self.new.lost ≡ true }
        ensures hand { self.new.hand ≡ self.old.hand }
    {
        self.lost = true;
    }
}

// Whether a drive answers this call. One that is doomed is lost now.
fn answers(lost: &mut bool, doomed: bool) -> bool
    ensures answer { IsTrue result → lost.new ≡ false }
    ensures lost { result ≡ false → lost.new ≡ true }
    ensures stays { lost.old ≡ true → lost.new ≡ true }
{
    if doomed {
        *lost = true;
    }
    !*lost
}

// Whether an address has a mark.
fn is_marked(marks: &[bool], at: u32) -> bool
    ensures { IsTrue result ↔ IsMarked marks.now at }
{
    match marks.get(at as usize) {
        Some(mark) => *mark,
        None => false,
    }
}

// Makes marks for `most` addresses.
fn make_marks(marks: &mut Vec<bool>, most: u32) -> Result<(), AllocError>
    ensures long { OnOk result (most ≤ length marks.new.items) }
    ensures same { (a : ℕ) → IsMarked marks.new.items a ↔ IsMarked marks.old.items a }
{
    if marks.len() < most as usize {
        marks.resize(most as usize, false)?;
    }
    Ok(())
}

// Lists an address that has no mark, and marks it.
fn list_fresh(
    dirty: &mut Vec<u32>,
    marks: &mut Vec<bool>,
    at: u32,
    most: u32,
) -> Result<(), AllocError>
    requires at { at < most }
    requires fresh { IsMarked marks.old.items at → ⊥ }
    requires marked { AreDirtyMarks marks.old.items dirty.old.items }
    ensures marked { AreDirtyMarks marks.new.items dirty.new.items }
    ensures ok { OnOk result (dirty.new.items ≡ dirty.old.items ++ at ∷ []) }
    ensures err { OnErr result (dirty.new.items ≡ dirty.old.items) }
{
    // Both allocations before the mark, so that each mark has its entry in the list.
    make_marks(marks, most)?;
    dirty.push(at)?;
    marks[at as usize] = true;
    Ok(())
}

// Lists an address, of `most`, once. Where memory is out, all count as written.
fn list(dirty: &mut Vec<u32>, marks: &mut Vec<bool>, all: &mut bool, at: u32, most: u32)
    requires at { at < most }
    requires marked { AreDirtyMarks marks.old.items dirty.old.items }
    ensures marked { AreDirtyMarks marks.new.items dirty.new.items }
    ensures listed { all.new ≡ false → Contains dirty.new.items at }
    ensures kept { all.new ≡ false → (a : ℕ) → Contains dirty.old.items a → Contains dirty.new.items a }
    ensures only { (a : ℕ) → Contains dirty.new.items a → (a ≢ at → Contains dirty.old.items a) }
    ensures all { all.old ≡ true → all.new ≡ true }
{
    if is_marked(marks, at) {
        return;
    }
    if list_fresh(dirty, marks, at, most).is_err() {
        // No refusal: a write's only one loses the drive, and memory is no reason for that.
        *all = true;
    }
}

// Writes a unit of a drive in memory that answers. It can't fail: the cache is never lost and has no fuse.
fn keep(cache: &mut MemDrive, at: u32, unit: &[u8])
    requires at { at < length cache.old.units }
    requires size { AreUnitsSized (length unit.now) cache.old.units }
    requires present { cache.old.condition ≡ Present }
    ensures present { cache.new.condition ≡ Present }
    ensures written { cache.new.units ≡ slice_set cache.old.units at unit.now }
{
    let _ = cache.write_unit(at, unit);
}

// Writes a unit of a drive in memory that answers, given in two pieces. It can't fail: the cache is never lost and has no
// fuse.
fn keep_gathered(cache: &mut MemDrive, at: u32, front: &[u8], rest: &[u8], scratch: &mut [u8])
    requires at { at < length cache.old.units }
    requires size { AreUnitsSized (length front.now + length rest.now) cache.old.units }
    requires scratch { AreUnitsSized (length scratch.old) cache.old.units }
    requires present { cache.old.condition ≡ Present }
    ensures present { cache.new.condition ≡ Present }
    ensures written { cache.new.units ≡ slice_set cache.old.units at (front.now ++ rest.now) }
{
    let _ = cache.write_gathered(at, front, rest, scratch);
}

impl<N: Chronicle> Drive for CachedDrive<N> {
    ghost units = { λ d. d.cache.units };

    ghost lost = { λ d. d.lost };

    ghost failures = { λ d. unsteady (loss false d.lost) };

    fn units(&self) -> u32 {
        self.cache.units()
    }

    fn unit_bytes(&self) -> usize {
        self.cache.unit_bytes()
    }

    fn is_lost(&self) -> bool {
        self.lost
    }

    fn read_unit(&mut self, at: u32, unit: &mut [u8]) -> Result<(), DriveLost> {
        if !answers(&mut self.lost, self.doomed) {
            return Err(DriveLost);
        }
        self.cache.read_unit(at, unit)
    }

    fn read_front(
        &mut self,
        at: u32,
        front: &mut [u8],
        scratch: &mut [u8],
    ) -> Result<(), DriveLost> {
        if !answers(&mut self.lost, self.doomed) {
            return Err(DriveLost);
        }
        self.cache.read_front(at, front, scratch)
    }

    fn write_unit(&mut self, at: u32, unit: &[u8]) -> Result<(), DriveLost> {
        if !answers(&mut self.lost, self.doomed) {
            return Err(DriveLost);
        }
        let most = self.cache.units();
        list(&mut self.dirty, &mut self.marks, &mut self.all, at, most);
        keep(&mut self.cache, at, unit);
        Ok(())
    }

    fn write_gathered(
        &mut self,
        at: u32,
        front: &[u8],
        rest: &[u8],
        scratch: &mut [u8],
    ) -> Result<(), DriveLost> {
        if !answers(&mut self.lost, self.doomed) {
            return Err(DriveLost);
        }
        let most = self.cache.units();
        list(&mut self.dirty, &mut self.marks, &mut self.all, at, most);
        keep_gathered(&mut self.cache, at, front, rest, scratch);
        Ok(())
    }

    // Nothing of it is durable before it is saved: a sync only loses a drive that is doomed.
    fn sync(&mut self) -> Result<(), DriveLost> {
        if !answers(&mut self.lost, self.doomed) {
            return Err(DriveLost);
        }
        Ok(())
    }
}
