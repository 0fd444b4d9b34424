// The table of words, and the steps on it.
ghost use Rattle.std.specs.Prelude.{◌≡◌, ◌≢◌, ℕ, ◌+◌, ◌-◌, ◌/◌, ◌<◌, ◌≤◌, [], ◌∷◌, ◌++◌, IsOk, IfOk, IfErr, IfSome, IfNone, OnOk, OnErr, All};
ghost use Rattle.map_join.specs.Maps.{at, IsMapOf};
ghost use Rattle.map_words.specs.Places.{word_of, blocks_of};
ghost use Rattle.map_words.specs.TakeRule.{opening, whole};
ghost use Rattle.map_words.specs.Steps.{kept_half, given_half, both_views};
ghost use Rattle.map_words.specs.Answers.{IsUpperBound, IsGreatestKey, IsExact, AreExact, HasTaken, HasFound, key_or_zero};
ghost use Rattle.map_words.specs.Refused.{IsCloseRefused};

use crate::naming::Naming;
use crate::rule::{Both, Closes, Halves, Sees, Sitting, Takes, Weighs, Words};
use crate::taker::{CloseRefusal, SplitRefusal, Taker};
use atomic_table::Table;
use map_join::{BlockMap, Record};
use std::alloc::Global;
use std::marker::{Brand, Model, PhantomData};

/// The words before the first block's, so that it shares no cache line with word 0, on which shares are split.
const FIRST: usize = 8;

/// The whole share: enough for 65,536 Takers, since each has at least 1.
const WHOLE: u32 = 65536;

/// One word for each block of the table N: the greatest key taken of the block, or 0.
#[derive(Drop)]
pub struct MapWords<N: Naming> {
    table: Words,
    blocks: u32,
    of: PhantomData<N>,
    ghost named: { table.shared.table_id ≡ N.table },
    ghost keyed: { table.shared.key ≡ blocks },
    ghost counts: { N.table.words ≡ blocks + 8 },
}

/// A table that has no name yet, with its first Taker. A contract sees which table it is.
#[derive(Drop)]
pub struct Unnamed {
    table: Words,
    blocks: u32,
    seat: Sitting,
}

impl Model for Unnamed {
    ghost use Rattle.std.specs.Prelude.{◌≡◌, ◌+◌, []};
    ghost use Rattle.atomic_table.specs.Seated.{TableId};
    ghost use Rattle.map_words.specs.TakeRule.{opening};

    ghost Value = { TableId };

    ghost view = { λ t. t.table.shared.table_id };

    ghost invariant = { λ t. (t.table.shared.key ≡ t.blocks) × (t.table.shared.table_id.words ≡ t.blocks + 8) × (t.seat.table_id ≡ t.table.shared.table_id)
        × (t.seat.me ≡ (opening, [])) };
}

/// Why a table was not made.
#[derive(Clone, Copy, Debug, PartialEq, Eq)]
pub enum TableRefusal {
    /// Out of memory for its words.
    Memory = 1,
}

impl TableRefusal {
    /// The refusal's number, 1.
    pub fn number(self) -> u8
        ensures { result ≡ 1 }
    {
        self as u8
    }
}

impl MapWords<Brand> {
    /// A table of `blocks` blocks, of which nothing is taken, without a name.
    pub fn new(alloc: Global, blocks: u32) -> Result<Unnamed, TableRefusal>
        ensures { IfOk result (λ table. blocks_of table ≡ blocks) }
    {
        let Ok(words) = vec![in alloc; 0; blocks as usize + FIRST] else {
            return Err(TableRefusal::Memory);
        };
        match Table::of_words(alloc, &words, &u64::from(blocks)) {
            Ok((table, seat)) => Ok(Unnamed {
                table,
                blocks,
                seat,
            }),
            Err(_) => Err(TableRefusal::Memory),
        }
    }
}

impl Unnamed {
    /// Gives the table its name, and the whole share to its first Taker.
    pub fn named<N: Naming>(self) -> (MapWords<N>, Taker<N>)
        requires { self ≡ N.table }
        ensures { result.1 ≡ opening }
    {
        let Unnamed {
            table,
            blocks,
            seat,
        } = self;
        let words = MapWords {
            table,
            blocks,
            of: PhantomData,
        };
        let taker = Taker {
            share: WHOLE,
            seat,
            of: PhantomData,
        };
        (words, taker)
    }
}

// The place of a block's word.
fn place_of(block: u32) -> usize
    ensures { result ≡ word_of block }
{
    block as usize + FIRST
}

impl<N: Naming> MapWords<N> {
    /// A second Taker, with half of the share, rounded down. The first keeps the rest, and all that it knows.
    pub fn split(&self, taker: &mut Taker<N>) -> Result<Taker<N>, SplitRefusal>
        ensures ok { IfOk result (λ other. other ≡ given_half taker.old) }
        ensures left { OnOk result (taker.new ≡ kept_half taker.old) }
        ensures shared { OnOk result (1 < taker.old.share) }
        ensures err { OnErr result ((taker.old.share ≡ 1) × (taker.new ≡ taker.old)) }
    {
        let share = taker.share / 2;
        // Before the seat is split, so that a refusal changes nothing.
        if share == 0 {
            return Err(SplitRefusal::NoShare);
        }
        let seat = self.table.shared.split_seat::<Halves>(&mut taker.seat);
        taker.share -= share;
        Ok(Taker {
            share,
            seat,
            of: PhantomData,
        })
    }

    /// Merges the other Taker into this one: adds its share, and all that it took and found.
    pub fn join(&self, taker: &mut Taker<N>, other: Taker<N>)
        ensures both { taker.new ≡ both_views taker.old other }
        ensures within { taker.old.share + other.share ≤ whole }
        ensures shared { (0 < taker.old.share) × (0 < other.share) }
    {
        let Taker { share, seat, of: _ } = other;
        self.table.shared.join_seat::<Both>(&mut taker.seat, seat);
        taker.share += share;
        if taker.share > WHOLE {
            // Never reached: no seat has more than the whole share.
            self.table.shared.load::<Weighs>(&mut taker.seat, 0);
            unreachable!()
        }
    }

    /// Takes the record by one fetch-max. Returns the key that the block's word had before, or 0.
    pub fn take(&self, taker: &mut Taker<N>, record: Record) -> u64
        requires block { «record».block < blocks_of N.table }
        requires written { 0 < «record».version }
        ensures newest { IsUpperBound taker.old «record».block result }
        // the Taker took the record and found the returned key, by a step that left the greater of the two
        ensures taken { HasTaken taker.old «record» result taker.new }
    {
        // One step, because a load and a store would lose a greater key that comes between them.
        let place = place_of(record.block);
        self.table
            .shared
            .fetch_max::<Takes>(&mut taker.seat, place, record.key())
    }

    /// Finds the newest record of the block by one load.
    pub fn find(&self, taker: &mut Taker<N>, block: u32) -> Option<Record>
        requires { block < blocks_of N.table }
        ensures newest { IsUpperBound taker.old block (key_or_zero result) }
        ensures block { IfSome result (λ r. (r.block ≡ block) × (0 < r.version)) }
        // the Taker found the returned key, by a step that left it there
        ensures found { HasFound taker.old block (key_or_zero result) taker.new }
    {
        let key = self
            .table
            .shared
            .load::<Sees>(&mut taker.seat, place_of(block));
        Record::of_key(block, key)
    }

    /// Ends the table and returns the map of all records ever taken. Refused unless the Taker has the whole share, or if out of
    /// memory; the table and the Taker are then returned.
    pub fn close(
        self,
        alloc: Global,
        mut taker: Taker<N>,
    ) -> Result<BlockMap, (CloseRefusal, MapWords<N>, Taker<N>)>
        ensures whole { OnOk result (taker.share ≡ whole) }
        ensures ok { IfOk result (λ map. IsMapOf taker.taken (at map)) }
        // nothing that was found is above what was taken
        ensures found { IfOk result (λ map. All (λ f. f.key ≤ at map f.block) taker.found) }
        // all calls of `take` and `find` had one order, and each found exactly what those before it had left
        ensures exact { OnOk result (All (IsExact taker) taker.found) }
        ensures err { IfErr result (λ e. IsCloseRefused taker e.0) }
        ensures same { IfErr result (λ e. e.2 ≡ taker) }
    {
        // The Taker of the whole share is the only one, so no record comes after the last load.
        if taker.share != WHOLE {
            return Err((CloseRefusal::NotWhole(taker.share), self, taker));
        }
        match self.gathered(alloc, &mut taker) {
            Some(map) => Ok(map),
            None => Err((CloseRefusal::Memory, self, taker)),
        }
    }

    // The map of all that was taken, or none if out of memory.
    fn gathered(&self, alloc: Global, taker: &mut Taker<N>) -> Option<BlockMap>
        requires share { taker.old.share ≡ whole }
        requires taken { All (λ r. r.block < blocks_of N.table) taker.old.taken }
        requires found { All (λ f. f.block < blocks_of N.table) taker.old.found }
        ensures map { IfSome result (λ map. IsMapOf taker.old.taken (at map)) }
        ensures found { IfSome result (λ map. All (λ f. f.key ≤ at map f.block) taker.old.found) }
        ensures exact { IfSome result (λ _. All (IsExact taker.old) taker.old.found) }
        // allocates only for what was taken
        ensures expected { IfNone result (taker.old.taken ≢ []) }
        ensures same { taker.new ≡ taker.old }
    {
        let mut map = BlockMap::new(alloc);
        for block in 0..self.blocks {
            let Some(record) = self.greatest(taker, block) else {
                continue;
            };
            if map.take(alloc, record).is_err() {
                return None;
            }
        }
        Some(map)
    }

    // The greatest record taken of the block.
    fn greatest(&self, taker: &mut Taker<N>, block: u32) -> Option<Record>
        requires share { taker.old.share ≡ whole }
        requires block { block < blocks_of N.table }
        ensures greatest { IsGreatestKey taker.old.taken block (key_or_zero result) }
        ensures newest { IsUpperBound taker.old block (key_or_zero result) }
        ensures exact { AreExact taker.old block }
        ensures block { IfSome result (λ r. (r.block ≡ block) × (0 < r.version)) }
        ensures same { taker.new ≡ taker.old }
    {
        let last = self
            .table
            .shared
            .load::<Closes>(&mut taker.seat, place_of(block));
        Record::of_key(block, last)
    }
}
