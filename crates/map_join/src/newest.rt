// Where the newest records of blocks lie: the traits of a map joined from records, and of an array that keeps one.
ghost use Rattle.std.specs.Prelude.{◌≡◌, ◌↔◌, ◌⊎◌, ℕ, ◌+◌, ◌*◌, ◌%◌, ◌<◌, ◌≤◌, MatchOption, IfSome, slice_index};
ghost use Rattle.map_join.specs.Record.{record_at};
ghost use Rattle.map_join.specs.Maps.{at};
ghost use Rattle.map_join.specs.Lists.{IsCount};
ghost use Rattle.map_join.specs.Live.{IsBlockAt, IsLiveCount};
ghost use Rattle.map_join.specs.Marks.{IsPlacedAt, IsPlacedBelow, IsPlaced, IsSet, IsMarkedIn};
ghost use Rattle.map_join.specs.Pages.{AreNumbers};
ghost use Rattle.map_join.specs.Tables.{IsKeyTable};

use crate::block_map::BlockMap;
use crate::page::{LANES, Page, block_of};
use crate::records::Record;
use std::collections::BTreeMap;

/// Returns the newest record of a block.
pub trait Newest {
    /// The key of each block, or 0.
    ghost keys: { Self → ℕ → ℕ };

    /// The newest record of the block.
    fn newest(&self, block: u32) -> Option<Record>
        ensures { result ≡ record_at block (keys self.now block) };
}

/// Says which slots are newest places of blocks.
pub trait Live {
    /// The key of each block, or 0.
    ghost keys: { Self → ℕ → ℕ };

    /// A block whose newest place is the slot, or none if it is no block's.
    fn block_at(&self, slot: u16) -> Option<u32>
        ensures { IsBlockAt (keys self.now) slot result };

    /// How many of the group's first `slots` slots are newest places.
    fn count_live(&self, group: u16, slots: u16) -> u16
        requires group { group < 512 }
        requires slots { slots ≤ 128 }
        ensures { IsLiveCount (keys self.now) group slots result };
}

impl Newest for BlockMap {
    ghost keys = { at };

    fn newest(&self, block: u32) -> Option<Record> {
        self.get(block)
    }
}

impl Live for BlockMap {
    ghost keys = { at };

    fn block_at(&self, slot: u16) -> Option<u32> {
        placed_at(&self.pages, slot)
    }

    fn count_live(&self, group: u16, slots: u16) -> u16 {
        // Marks, not a sum over keys: several keys may name one slot, which counts once.
        let marks = places_in(&self.pages, group);
        count_marks(&marks, group, slots)
    }
}

// The slot's number in a key.
fn place_in(key: u64) -> u16
    ensures { result ≡ key % 65536 }
{
    (key % 0x1_0000) as u16
}

// The first block whose key has the slot as its place.
fn placed_at(pages: &BTreeMap<u32, Page>, slot: u16) -> Option<u32>
    requires { AreNumbers pages.now.entries }
    ensures { MatchOption result (IsPlaced (at pages.now.entries) slot → ⊥) (IsPlacedAt (at pages.now.entries) slot) }
{
    for (number, page) in pages.iter() {
        if let Some(lane) = placed_lane(page.lanes(), slot) {
            return Some(block_of(*number, lane));
        }
    }
    None
}

// The first lane whose key has the slot as its place.
fn placed_lane(keys: &[u64; LANES], slot: u16) -> Option<u32>
    requires { IsKeyTable keys.now }
    ensures at { MatchOption result (IsPlacedBelow 64 (slice_index keys.now) slot → ⊥) (IsPlacedAt (slice_index keys.now) slot) }
    ensures low { IfSome result (λ lane. lane < 64) }
{
    for lane in 0..64 {
        let key = keys[lane as usize];
        // Key 0 is no record, else each block without a key would be at slot 0.
        if key != 0 && place_in(key) == slot {
            return Some(lane);
        }
    }
    None
}

// Marks for the indexes of the group: set where some key has the slot as its place.
fn places_in(pages: &BTreeMap<u32, Page>, group: u16) -> [bool; 128]
    requires { group < 512 }
    ensures { (index : ℕ) → index < 128 → IsSet result index ↔ IsPlaced (at pages.now.entries) (128 * group + index) }
{
    let mut marks = no_marks();
    for (_number, page) in pages.iter() {
        mark_lanes(&mut marks, group, page.lanes());
    }
    marks
}

// Marks the places of the keys of a page.
fn mark_lanes(marks: &mut [bool; 128], group: u16, keys: &[u64; LANES])
    requires group { group < 512 }
    requires least { IsKeyTable keys.now }
    ensures { (index : ℕ) → index < 128 → IsSet marks.new index ↔ (IsSet marks.old index ⊎ IsPlacedBelow 64 (slice_index keys.now) (128 * group + index)) }
{
    for lane in 0..LANES {
        let key = keys[lane];
        // Key 0 is no record, else a block without a key would mark slot 0.
        if key != 0 {
            mark_place(marks, group, place_in(key));
        }
    }
}

// No index is marked.
fn no_marks() -> [bool; 128]
    ensures { (index : ℕ) → IsSet result index → ⊥ }
{
    [false; 128]
}

// Marks the slot's index, where it is one of the group's.
fn mark_place(marks: &mut [bool; 128], group: u16, slot: u16)
    ensures { (index : ℕ) → index < 128 → IsSet marks.new index ↔ (IsSet marks.old index ⊎ (slot ≡ 128 * group + index)) }
{
    if slot / 128 == group {
        marks[(slot % 128) as usize] = true;
    }
}

// How many of the first marks are set.
fn count_marks(marks: &[bool; 128], group: u16, slots: u16) -> u16
    requires { slots ≤ 128 }
    ensures { IsCount (IsMarkedIn marks.now group slots) result }
{
    let mut count = 0;
    for index in 0..slots {
        if marks[index as usize] {
            count += 1;
        }
    }
    count
}
