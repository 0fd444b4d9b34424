// The units of a drive that were written since the last save, put into a batch.
ghost use Rattle.std.specs.Prelude.{◌≡◌, ◌<◌, ◌++◌, [], ◌∷◌, ℕ, length, OnOk, OnErr, slice_get, Some, List, Contains};
ghost use Rattle.extents.specs.declared.mem_drive.Condition.TheVariants.{Present};
ghost use Rattle.extents.specs.Units.{AreUnitsSized};
ghost use Rattle.extent_groups.specs.Planned.{Intended, AreOnce};
ghost use Rattle.history.specs.Entries.{entry};
ghost use Rattle.cached_drive.specs.Saving.{Units, AreSaved, Brings, IsMarked, IsOnce, saved_by, writes_at, upto};

use crate::drive::CachedDrive;
use crate::saved::{Saved, Saves};
use extent_groups::Place;
use extents::{Drive, MemDrive};
use history::{Chronicle, History, Keeper};
use std::alloc::AllocError;
use vault::Batch;

// Reads a unit of a drive in memory that answers. It can't fail: the cache is never lost and has no fuse.
fn fetch(cache: &mut MemDrive, at: u32, unit: &mut [u8])
    requires at { at < length cache.old.units }
    requires size { AreUnitsSized (length unit.old) cache.old.units }
    requires present { cache.old.condition ≡ Present }
    ensures same { cache.new ≡ cache.old }
    ensures read { slice_get cache.old.units at ≡ Some unit.new }
{
    let _ = cache.read_unit(at, unit);
}

// Puts one unit into a batch, as a write of a drive.
fn put_unit(
    cache: &mut MemDrive,
    drive: u8,
    at: u32,
    unit: &mut [u8],
    batch: &mut Batch,
) -> Result<(), AllocError>
    requires at { at < length cache.old.units }
    requires size { AreUnitsSized (length unit.old) cache.old.units }
    requires present { cache.old.condition ≡ Present }
    ensures same { cache.new ≡ cache.old }
    ensures size { length unit.new ≡ length unit.old }
    ensures ok { OnOk result (batch.new ≡ batch.old ++ writes_at drive cache.old.units (at ∷ [])) }
    ensures err { OnErr result (batch.new ≡ batch.old) }
{
    fetch(cache, at, unit);
    let place = Place { drive, address: at };
    batch.push(place, unit)
}

// Puts the units at these addresses into a batch. If out of memory, some of them are put.
fn put_listed(
    cache: &mut MemDrive,
    drive: u8,
    addresses: &[u32],
    unit: &mut [u8],
    batch: &mut Batch,
) -> Result<(), AllocError>
    requires inside { (at : ℕ) → Contains addresses.now at → at < length cache.old.units }
    requires size { AreUnitsSized (length unit.old) cache.old.units }
    requires present { cache.old.condition ≡ Present }
    ensures same { cache.new ≡ cache.old }
    ensures size { length unit.new ≡ length unit.old }
    ensures ok { OnOk result (batch.new ≡ batch.old ++ writes_at drive cache.old.units addresses.now) }
    ensures more { (writes : List Intended) × (batch.new ≡ batch.old ++ writes) }
{
    for at in addresses {
        put_unit(cache, drive, *at, unit, batch)?;
    }
    Ok(())
}

// Puts all units into a batch. If out of memory, some of them are put.
fn put_all(
    cache: &mut MemDrive,
    drive: u8,
    unit: &mut [u8],
    batch: &mut Batch,
) -> Result<(), AllocError>
    requires size { AreUnitsSized (length unit.old) cache.old.units }
    requires present { cache.old.condition ≡ Present }
    ensures same { cache.new ≡ cache.old }
    ensures size { length unit.new ≡ length unit.old }
    ensures ok { OnOk result (batch.new ≡ batch.old ++ writes_at drive cache.old.units (upto (length cache.old.units))) }
    ensures more { (writes : List Intended) × (batch.new ≡ batch.old ++ writes) }
{
    for at in 0..cache.units() {
        put_unit(cache, drive, at, unit, batch)?;
    }
    Ok(())
}

// Puts the units that may have been written into a batch. If out of memory, some of them are put.
fn put_written(
    cache: &mut MemDrive,
    drive: u8,
    dirty: &[u32],
    all: bool,
    unit: &mut [u8],
    batch: &mut Batch,
) -> Result<(), AllocError>
    requires size { AreUnitsSized (length unit.old) cache.old.units }
    requires present { cache.old.condition ≡ Present }
    requires inside { (at : ℕ) → Contains dirty.now at → at < length cache.old.units }
    requires once { IsOnce dirty.now }
    ensures same { cache.new ≡ cache.old }
    ensures size { length unit.new ≡ length unit.old }
    ensures ok { OnOk result ((saved : Units) → AreSaved all dirty.now saved cache.old.units
        → (writes : List Intended) × (batch.new ≡ batch.old ++ writes) × Brings drive saved cache.old.units writes) }
    ensures once { OnOk result ((writes : List Intended) × (batch.new ≡ batch.old ++ writes) × AreOnce writes) }
    ensures more { (writes : List Intended) × (batch.new ≡ batch.old ++ writes) }
{
    if all {
        put_all(cache, drive, unit, batch)
    } else {
        put_listed(cache, drive, dirty, unit, batch)
    }
}

// Takes away the mark of an address, if it has one.
fn unmark(marks: &mut Vec<bool>, at: u32)
    ensures unmarked { IsMarked marks.new.items at → ⊥ }
    ensures rest { (a : ℕ) → IsMarked marks.new.items a → IsMarked marks.old.items a }
{
    if (at as usize) < marks.len() {
        marks[at as usize] = false;
    }
}

// Takes away the marks of the listed addresses, which are all marks.
fn unmark_all(marks: &mut Vec<bool>, dirty: &[u32])
    requires { (at : ℕ) → IsMarked marks.old.items at → Contains dirty.now at }
    ensures { (at : ℕ) → IsMarked marks.new.items at → ⊥ }
{
    for at in dirty {
        unmark(marks, *at);
    }
}

impl<N: Chronicle> CachedDrive<N> {
    /// Copies a unit, also one of a drive that is lost or doomed. Takes a buffer of a unit's length.
    pub fn copy_unit(&mut self, at: u32, unit: &mut [u8])
        requires at { at < length self.old.cache.units }
        requires size { AreUnitsSized (length unit.old) self.old.cache.units }
        ensures units { self.new.cache.units ≡ self.old.cache.units }
        ensures lost { self.new.lost ≡ self.old.lost }
        ensures hand { self.new.hand ≡ self.old.hand }
        ensures copied { slice_get self.old.cache.units at ≡ Some unit.new }
    {
        fetch(&mut self.cache, at, unit);
    }

    /// Puts the units that were written since the last save into a batch, as writes of a drive, and counts them as saved. Takes a
    /// buffer of a unit's length. If out of memory, nothing has changed.
    pub fn save(
        &mut self,
        history: &History<N, Saved>,
        keeper: &mut Keeper<N, Saved>,
        drive: u8,
        unit: &mut [u8],
        batch: &mut Batch,
    ) -> Result<(), AllocError>
        requires size { AreUnitsSized (length unit.old) self.old.cache.units }
        ensures units { self.new.cache.units ≡ self.old.cache.units }
        ensures lost { self.new.lost ≡ self.old.lost }
        ensures number { self.new.hand.number ≡ self.old.hand.number }
        ensures size { length unit.new ≡ length unit.old }
        ensures saved { OnOk result (keeper.new ≡ record {
          hired = keeper.old.hired;
          log = keeper.old.log ++ entry self.old.hand.number self.old.cache.units ∷ [];
        }) }
        ensures brings { OnOk result ((writes : List Intended) × (batch.new ≡ batch.old ++ writes)
            × Brings drive (saved_by self.old.hand.number keeper.old.log) self.old.cache.units writes) }
        // Each unit once.
        ensures once { OnOk result ((writes : List Intended) × (batch.new ≡ batch.old ++ writes) × AreOnce writes) }
        ensures below { OnOk result (self.old.hand.number < keeper.old.hired) }
        ensures err { OnErr result ((batch.new ≡ batch.old) × (keeper.new ≡ keeper.old)) }
    {
        let before = batch.len();
        let dirty: &[u32] = &self.dirty;
        if let Err(error) = put_written(&mut self.cache, drive, dirty, self.all, unit, batch) {
            // Else the next save would put the same units into the batch once more.
            batch.truncate(before);
            return Err(error);
        }
        // For its clause: the history has this hand's entries, so the last of them is the last save.
        keeper.check(history, &mut self.hand);
        keeper.note::<MemDrive, Saves>(history, &mut self.hand, &self.cache);
        // Before the list is cleared, which says where marks are: a walk over all marks would take time by the drive's size.
        unmark_all(&mut self.marks, &self.dirty);
        self.dirty.clear();
        self.all = false;
        Ok(())
    }
}
