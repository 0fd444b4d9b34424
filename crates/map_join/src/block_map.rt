// A block map: of each block the greatest key that it took, in pages of 64 consecutive blocks.
ghost use Rattle.std.specs.Prelude.{◌≡◌, ◌≢◌, ◌==◌, ℕ, ◌+◌, ◌*◌, ◌/◌, ◌%◌, ◌<◌, ◌≤◌, ◌^◌, List, [], ◌∷◌};
ghost use Rattle.std.specs.Prelude.{◌++◌, IsOk, IfOk, IfSome, MatchOption, OnOk, OnErr, IsTrue, ◌↔◌, max, length, slice_index, Some, None};
ghost use Rattle.map_join.specs.Record.{record_at, key_of};
ghost use Rattle.map_join.specs.Maps.{find, at, lanes_of, IsSame, IsBelow, join, lone, only, IsMapOf, IsListOf, IsPartlyJoined, IsDifference};
ghost use Rattle.map_join.specs.Numbers.{refusal_number};
ghost use Rattle.map_join.specs.Pages.{HasKey, AreNumbers, HasSet, IsPageJoined, with_page, paged, IsPageOf, IsDifferenceOf, IsFirstBlock, lower_of, IsListBelow};
ghost use Rattle.map_join.specs.Tables.{IsKeyTable};

use crate::page::{LANES, Page, block_of, covers_lanes, differing_lane, has_none};
use crate::records::Record;
use std::alloc::{AllocError, Global};
use std::collections::BTreeMap;
use std::marker::Model;

/// The greatest key taken of each block.
#[derive(Drop)]
pub struct BlockMap {
    pub(crate) pages: BTreeMap<u32, Page>,
}

impl Model for BlockMap {
    ghost use Rattle.map_join.specs.Maps.{Entries};
    ghost use Rattle.map_join.specs.Pages.{AreNumbers};

    ghost Value = { Entries };

    ghost view = { λ a. a.pages.entries };

    ghost invariant = { λ a. AreNumbers a.pages.entries };
}

/// Why a map did not grow.
#[derive(Clone, Copy, Debug, PartialEq, Eq)]
pub enum MapRefusal {
    /// Out of memory for one more page of 64 blocks.
    Memory,
}

impl MapRefusal {
    /// The refusal's number.
    pub fn number(&self) -> u8
        ensures { result ≡ refusal_number self.now }
    {
        match self {
            MapRefusal::Memory => 1,
        }
    }
}

impl BlockMap {
    /// A map that holds no block.
    pub fn new(alloc: Global) -> BlockMap
        ensures empty { IsSame (at result) (λ _. 0) }
        ensures map_of { IsMapOf [] (at result) }
    {
        BlockMap {
            pages: BTreeMap::new(alloc),
        }
    }

    /// The map of a table of keys by block, block 0's first. A block with entry 0 or past the end of the table has no key. The
    /// map is built page by page, which takes a fraction of the time of a call of `take` for each key. Allocates only where
    /// there is a key.
    pub fn of_table(alloc: Global, keys: &[u64]) -> Result<BlockMap, MapRefusal>
        requires many { length keys.now ≤ 2 ^ 32 }
        requires written { IsKeyTable keys.now }
        ensures table { IfOk result (λ map. IsSame (at map) (slice_index keys.now)) }
        ensures there { IsSame (slice_index keys.now) (λ _. 0) → IsOk result }
    {
        let mut map = BlockMap::new(alloc);
        for number in 0..keys.len().div_ceil(LANES) {
            let start = number * LANES;
            let table = &keys[start..(start + LANES).min(keys.len())];
            // A page has at least one key, so 64 blocks without any get none.
            if has_none(table) {
                continue;
            }
            let Ok(()) = map.put_table(alloc, number as u32, table) else {
                return Err(MapRefusal::Memory);
            };
        }
        Ok(map)
    }

    // Gives the map a page of the keys of a table.
    fn put_table(&mut self, alloc: Global, number: u32, table: &[u64]) -> Result<(), MapRefusal>
        requires number { number < 2 ^ 26 }
        requires many { length table.now ≤ 64 }
        requires written { IsKeyTable table.now }
        requires some { HasKey table.now }
        ensures { OnOk result (IsSame (at self.new) (with_page (at self.old) number (slice_index table.now))) }
    {
        match Page::of_table(alloc, table) {
            Ok(page) => put_page(&mut self.pages, number, page),
            Err(_) => Err(MapRefusal::Memory),
        }
    }

    /// The newest record of the block that the map took.
    pub fn get(&self, block: u32) -> Option<Record>
        ensures value { result ≡ record_at block (at self.now block) }
        ensures key { MatchOption result (at self.now block ≡ 0) (λ r. key_of r ≡ at self.now block) }
    {
        Record::of_key(block, self.key_at(block))
    }

    // The block's key, or 0.
    fn key_at(&self, block: u32) -> u64
        ensures value { result ≡ at self.now block }
        ensures least { 0 < result → 2 ^ 32 ≤ result }
    {
        lanes_in(&self.pages, block / 64)[(block % 64) as usize]
    }

    /// Joins the map with one record. Allocates only if the map has no key of the record's block.
    pub fn take(&mut self, alloc: Global, record: Record) -> Result<(), MapRefusal>
        requires { 0 < «record».version }
        ensures ok { OnOk result (IsSame (at self.new) (join (at self.old) (only «record»))) }
        ensures err { OnErr result (self.new ≡ self.old) }
        ensures there { 0 < at self.old «record».block → IsOk result }

        // So a map that took some records, and then this one, is the map of them all.
        ensures map_of { OnOk result ((records : List Record) → IsMapOf records (at self.old) → IsMapOf (records ++ «record» ∷ []) (at self.new)) }
    {
        self.raise(alloc, record.block, record.key())
    }

    // Gives a block the key, where that is above its own.
    fn raise(&mut self, alloc: Global, block: u32, key: u64) -> Result<(), MapRefusal>
        requires { 2 ^ 32 ≤ key }
        ensures ok { OnOk result (IsSame (at self.new) (join (at self.old) (lone block key))) }
        ensures err { OnErr result (self.new ≡ self.old) }
        ensures there { 0 < at self.old block → IsOk result }
    {
        raise_key(
            &mut self.pages,
            alloc,
            block / 64,
            (block % 64) as usize,
            key,
        )
    }

    /// Joins the map with another: page by page, or by one copy if this map has no page. Allocates only for blocks of the other
    /// that this map doesn't have. After a refusal the map may be joined with a part of the other.
    pub fn merge(&mut self, alloc: Global, other: &BlockMap) -> Result<(), MapRefusal>
        ensures ok { OnOk result (IsSame (at self.new) (join (at self.old) (at other.now))) }
        ensures err { OnErr result (IsPartlyJoined (at self.old) (at other.now) (at self.new)) }
        ensures there { ((block : ℕ) → 0 < at other.now block → 0 < at self.old block) → IsOk result }

        // After a refusal, another merge with the same map comes to the whole join.
        ensures again { OnErr result (IsSame (join (at self.new) (at other.now)) (join (at self.old) (at other.now))) }

        // So the merge of maps of two lists is the map of them together.
        ensures map_of { OnOk result ((ours theirs : List Record) →
            IsMapOf ours (at self.old) → IsMapOf theirs (at other.now) → IsMapOf (ours ++ theirs) (at self.new)) }
    {
        // With no page here there is nothing to compare, so one copy does.
        if self.pages.is_empty() {
            return self.take_over(alloc, other);
        }
        for (number, page) in other.pages.iter() {
            match self.join_page(*number, page) {
                Ok(()) => {}
                Err(refusal) => return Err(refusal),
            }
        }
        Ok(())
    }

    // Gives each block of a page the greater of its keys.
    fn join_page(&mut self, number: u32, page: &Page) -> Result<(), MapRefusal>
        requires { number < 2 ^ 26 }
        ensures ok { OnOk result (IsSame (at self.new) (join (at self.old) (paged number (slice_index page.now)))) }
        ensures err { OnErr result (self.new ≡ self.old) }
        ensures absent { OnErr result (find self.old number ≡ None) }
        ensures some { HasKey page.now }
    {
        raise_page(&mut self.pages, number, page)
    }

    // Gives a map that holds no block all keys of another.
    fn take_over(&mut self, alloc: Global, other: &BlockMap) -> Result<(), MapRefusal>
        requires { self.old ≡ [] }
        ensures ok { OnOk result (self.new ≡ other.now) }
        ensures partly { OnErr result (IsPartlyJoined (at self.old) (at other.now) (at self.new)) }
    {
        match copied_pages(alloc, &other.pages) {
            Ok(pages) => self.pages = pages,
            Err(_) => return Err(MapRefusal::Memory),
        }
        Ok(())
    }

    /// Whether both maps have the same key of every block.
    pub fn agrees(&self, other: &BlockMap) -> bool
        ensures { IsTrue result ↔ IsSame (at self.now) (at other.now) }
    {
        self.lowest_difference(other).is_none()
    }

    /// Whether the map's key of every block is at least the other's.
    pub fn covers(&self, other: &BlockMap) -> bool
        ensures { IsTrue result ↔ IsBelow (at other.now) (at self.now) }
    {
        // Only the other's pages: where it has no key, any of ours covers it.
        for (number, page) in other.pages.iter() {
            if !covers_lanes(lanes_in(&self.pages, *number), page.lanes()) {
                return false;
            }
        }
        true
    }

    /// The lowest block of which the maps have different keys, none where they agree.
    pub fn lowest_difference(&self, other: &BlockMap) -> Option<u32>
        ensures { IsDifference (at self.now) (at other.now) result }
    {
        // Both ways, because each walk finds only blocks of which its own map has a key.
        let ours = first_difference(&self.pages, &other.pages);
        let theirs = first_difference(&other.pages, &self.pages);
        lower(ours, theirs)
    }

    /// The newest record of each block, in the blocks' order. Allocates only if the map has a block.
    pub fn to_list(&self, alloc: Global) -> Result<Vec<Record>, MapRefusal>
        ensures list { IfOk result (λ list. IsListOf (at self.now) list.items) }
        ensures there { IsSame (at self.now) (λ _. 0) → IsOk result }
    {
        let mut list = Vec::new(alloc);
        for (number, page) in self.pages.iter() {
            match list_page(&mut list, *number, page.lanes()) {
                Ok(()) => {}
                Err(_) => return Err(MapRefusal::Memory),
            }
        }
        Ok(list)
    }

    /// A second map with the same keys. Allocates only if the map has a block.
    pub fn copied(&self, alloc: Global) -> Result<BlockMap, MapRefusal>
        ensures copy { IfOk result (λ copy. copy ≡ self.now) }
        ensures there { IsSame (at self.now) (λ _. 0) → IsOk result }
    {
        match copied_pages(alloc, &self.pages) {
            Ok(pages) => Ok(BlockMap { pages }),
            Err(_) => Err(MapRefusal::Memory),
        }
    }
}

// The keys that are read where a map has no page: static, so that a lookup returns a reference in either case.
static NO_KEYS: [u64; LANES] = [0; LANES];

// The keys of a page, all 0 where it isn't there.
fn lanes_in(pages: &BTreeMap<u32, Page>, number: u32) -> &[u64; LANES]
    ensures value { IsSame (slice_index result.now) (lanes_of (find pages.now.entries number)) }
    ensures least { IsKeyTable result.now }
{
    match pages.get(&number) {
        Some(page) => page.lanes(),
        None => &NO_KEYS,
    }
}

// Raises the key of a block of a page to this one, where that is greater. Allocates only if the page isn't there.
fn raise_key(
    pages: &mut BTreeMap<u32, Page>,
    alloc: Global,
    number: u32,
    lane: usize,
    key: u64,
) -> Result<(), MapRefusal>
    requires lane { lane < 64 }
    requires key { 2 ^ 32 ≤ key }
    ensures ok { OnOk result (IsPageJoined pages.old.entries pages.new.entries number (lone lane key)) }
    ensures err { OnErr result (pages.new.entries ≡ pages.old.entries) }
    ensures absent { OnErr result (find pages.old.entries number ≡ None) }
{
    if let Some(page) = pages.get_mut(&number) {
        page.raise(lane, key);
        return Ok(());
    }
    match Page::of_key(alloc, lane, key) {
        Ok(page) => put_page(pages, number, page),
        Err(_) => Err(MapRefusal::Memory),
    }
}

// Raises the keys of a page to those of another, where these are greater. Allocates only if the page isn't there.
fn raise_page(pages: &mut BTreeMap<u32, Page>, number: u32, theirs: &Page) -> Result<(), MapRefusal>
    ensures ok { OnOk result (IsPageJoined pages.old.entries pages.new.entries number (slice_index theirs.now)) }
    ensures err { OnErr result (pages.new.entries ≡ pages.old.entries) }
    ensures absent { OnErr result (find pages.old.entries number ≡ None) }
    ensures some { HasKey theirs.now }
{
    // Nothing is read: by this call's clause the page has a key, so a refusal is always for some block.
    let _keys = theirs.lanes();
    if let Some(page) = pages.get_mut(&number) {
        page.join(theirs);
        return Ok(());
    }
    match theirs.clone() {
        Ok(page) => put_page(pages, number, page),
        Err(_) => Err(MapRefusal::Memory),
    }
}

// Makes this the page of its number.
fn put_page(pages: &mut BTreeMap<u32, Page>, number: u32, page: Page) -> Result<(), MapRefusal>
    ensures ok { OnOk result (HasSet pages.old.entries pages.new.entries number page) }
    ensures err { OnErr result (pages.new.entries ≡ pages.old.entries) }
{
    match pages.insert(number, page) {
        Ok(_) => Ok(()),
        Err(_) => Err(MapRefusal::Memory),
    }
}

// A block of which the two have different keys, where they agree on each lower block of which the first has a key; none where
// they agree on each block of which the first has a key.
fn first_difference(ours: &BTreeMap<u32, Page>, theirs: &BTreeMap<u32, Page>) -> Option<u32>
    requires { AreNumbers ours.now.entries }
    ensures { IsDifferenceOf (at ours.now.entries) (at theirs.now.entries) result }
{
    for (number, page) in ours.iter() {
        if let Some(lane) = differing_lane(page.lanes(), lanes_in(theirs, *number)) {
            return Some(block_of(*number, lane));
        }
    }
    None
}

// The lower of two blocks, or the one that there is.
fn lower(ours: Option<u32>, theirs: Option<u32>) -> Option<u32>
    ensures { result ≡ lower_of ours theirs }
{
    match (ours, theirs) {
        (Some(one), Some(other)) => Some(one.min(other)),
        (None, other) => other,
        (one, None) => one,
    }
}

// Adds the records of a page to a list.
fn list_page(list: &mut Vec<Record>, number: u32, keys: &[u64; LANES]) -> Result<(), AllocError>
    requires { number < 2 ^ 26 }
    ensures { OnOk result ((M : ℕ → ℕ) → IsPageOf M number keys.now → IsListBelow (64 * number) M list.old.items
        → IsListBelow (64 * number + 64) M list.new.items) }
{
    for lane in 0..64 {
        if let Some(record) = Record::of_key(block_of(number, lane), keys[lane as usize]) {
            list.push(record)?;
        }
    }
    Ok(())
}

// A copy of the pages. Allocates only if there are any.
fn copied_pages(
    alloc: Global,
    pages: &BTreeMap<u32, Page>,
) -> Result<BTreeMap<u32, Page>, AllocError>
    ensures ok { IfOk result (λ copy. copy.entries ≡ pages.now.entries) }
    ensures err { OnErr result ((block : ℕ) × IsFirstBlock (at pages.now.entries) block) }
{
    // Not a clone of an empty map, so that it needs no memory.
    let Some((_number, page)) = pages.iter().next() else {
        return Ok(BTreeMap::new(alloc));
    };
    // Nothing is read: by this call's clause the page has a key, so only a map with a block is refused.
    let _keys = page.lanes();
    pages.clone()
}
