// A page: the keys of 64 consecutive blocks, in one piece of memory.
ghost use Rattle.std.specs.Prelude.{◌≡◌, ◌==◌, ℕ, ◌+◌, ◌*◌, ◌^◌, ◌<◌, ◌≤◌, IfOk, IfSome, IsTrue, ◌↔◌, length, slice_index};
ghost use Rattle.std.specs.List.{list_all};
ghost use Rattle.map_join.specs.Maps.{IsSame, IsDifference, join, lone};
ghost use Rattle.map_join.specs.Pages.{HasKey};
ghost use Rattle.map_join.specs.Tables.{IsKeyTable};

use std::alloc::{AllocError, Global};
use std::marker::Model;

/// How many consecutive blocks share a page.
pub(crate) const LANES: usize = 64;

/// The keys of 64 consecutive blocks, the lowest block's first, 0 where a block has none. At least one block has a key, so
/// that a map without keys has no page.
#[derive(Drop)]
pub(crate) struct Page {
    keys: Box<[u64; LANES]>,
}

impl Model for Page {
    ghost use Rattle.map_join.specs.Maps.{Lanes};
    ghost use Rattle.map_join.specs.Pages.{IsPage};

    ghost Value = { Lanes };

    ghost view = { λ a. a.keys.value };

    ghost invariant = { λ a. IsPage a.keys.value };
}

impl Clone for Page {
    ghost is_clone = { λ page copy. copy ≡ page };

    fn clone(&self) -> Result<Page, AllocError> {
        Ok(Page {
            keys: Box::new(*Box::allocator(&self.keys), *self.keys)?,
        })
    }
}

impl Page {
    /// A page of the keys that a table has for its blocks: block 0's first, at least one of them.
    pub(crate) fn of_table(alloc: Global, table: &[u64]) -> Result<Page, AllocError>
        requires many { length table.now ≤ 64 }
        requires written { IsKeyTable table.now }
        requires some { HasKey table.now }
        ensures { IfOk result (λ page. IsSame (slice_index page) (slice_index table.now)) }
    {
        let mut keys = [0; LANES];
        for lane in 0..table.len() {
            keys[lane] = table[lane];
        }
        Ok(Page {
            keys: Box::new(alloc, keys)?,
        })
    }

    /// A page with one key.
    pub(crate) fn of_key(alloc: Global, lane: usize, key: u64) -> Result<Page, AllocError>
        requires lane { lane < 64 }
        requires key { 2 ^ 32 ≤ key }
        ensures { IfOk result (λ page. IsSame (slice_index page) (lone lane key)) }
    {
        let mut keys = [0; LANES];
        keys[lane] = key;
        Ok(Page {
            keys: Box::new(alloc, keys)?,
        })
    }

    /// The keys, 0 where a block has none.
    pub(crate) fn lanes(&self) -> &[u64; LANES]
        ensures value { result.now ≡ self.now }
        ensures least { IsKeyTable self.now }
        ensures some { HasKey self.now }
    {
        &self.keys
    }

    /// Gives one block the key, where that is above its own.
    pub(crate) fn raise(&mut self, lane: usize, key: u64)
        requires lane { lane < 64 }
        requires key { 2 ^ 32 ≤ key }
        ensures { IsSame (slice_index self.new) (join (slice_index self.old) (lone lane key)) }
    {
        // The greater key wins, so that records may come in any order and any number of times.
        self.keys[lane] = self.keys[lane].max(key);
    }

    /// Gives each block the greater of its keys in both pages.
    pub(crate) fn join(&mut self, other: &Page)
        ensures { IsSame (slice_index self.new) (join (slice_index self.old) (slice_index other.now)) }
    {
        let theirs = other.lanes();
        join_lanes(&mut self.keys, theirs);
    }
}

/// The block of a lane of a page. There are 2^26 pages, so that a block's number fits 32 bits.
pub(crate) fn block_of(number: u32, lane: u32) -> u32
    requires number { number < 2 ^ 26 }
    requires lane { lane < 64 }
    ensures { result ≡ 64 * number + lane }
{
    64 * number + lane
}

// Gives each lane the greater of its two keys.
fn join_lanes(ours: &mut [u64; LANES], theirs: &[u64; LANES])
    ensures { IsSame (slice_index ours.new) (join (slice_index ours.old) (slice_index theirs.now)) }
{
    for lane in 0..LANES {
        ours[lane] = ours[lane].max(theirs[lane]);
    }
}

/// Whether no key is below the other's of its lane.
pub(crate) fn covers_lanes(ours: &[u64; LANES], theirs: &[u64; LANES]) -> bool
    ensures { IsTrue result ↔ ((lane : ℕ) → lane < 64 → slice_index theirs.now lane ≤ slice_index ours.now lane) }
{
    for lane in 0..LANES {
        if ours[lane] < theirs[lane] {
            return false;
        }
    }
    true
}

/// The first lane whose keys differ.
pub(crate) fn differing_lane(ours: &[u64; LANES], theirs: &[u64; LANES]) -> Option<u32>
    ensures first { IsDifference (slice_index ours.now) (slice_index theirs.now) result }
    ensures low { IfSome result (λ lane. lane < 64) }
{
    for lane in 0..LANES {
        if ours[lane] != theirs[lane] {
            return Some(lane as u32);
        }
    }
    None
}

/// Whether no lane has a key.
pub(crate) fn has_none(keys: &[u64]) -> bool
    ensures { result ≡ list_all (λ key. key == 0) keys.now }
{
    keys.iter().all(|key| *key == 0)
}
