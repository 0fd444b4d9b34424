// The order of last writes.
ghost use Rattle.std.specs.Prelude.{◌≡◌, ◌↔◌, ◌<◌, ◌≤◌, length, IfOk, IsTrue, Some};
ghost use Rattle.migrator.specs.Ages.{by_number, written, IsOldest};
ghost use Rattle.migrator.specs.Inside.{in_order};
ghost use Rattle.extent_groups.specs.declared.class.Class.TheVariants.{Mirrored};
ghost use Rattle.migrator.specs.Slots.{class_of_record, IsMirrored};

use crate::turns::Turns;
use extent_groups::{Class, GroupTable, SLOTS};
use map_join::{Newest, Record};
use std::alloc::{AllocError, Global};
use std::marker::Model;

/// All blocks, the one written longest ago first.
#[derive(Drop)]
pub struct Recency {
    turns: Turns,
}

impl Model for Recency {
    ghost use Rattle.std.specs.Prelude.{ℕ, List};
    ghost use Rattle.migrator.specs.Inside.{in_order};

    ghost Value = { List ℕ };

    ghost view = { λ r. in_order r.turns };
}

impl Recency {
    /// The order of `blocks` blocks before any write: by number. Refused if out of memory.
    pub fn new(alloc: Global, blocks: u32) -> Result<Recency, AllocError>
        requires { blocks ≤ 65536 }
        ensures { IfOk result (λ recency. recency ≡ by_number blocks) }
    {
        Ok(Recency {
            turns: Turns::new(alloc, blocks)?,
        })
    }

    /// Notes a write of a block, which becomes the last in the order. Allocates nothing, and takes constant time on average.
    pub fn wrote(&mut self, block: u32)
        requires { block < length self.old }
        ensures order { self.new ≡ written self.old block }
        ensures length { length self.new ≡ length self.old }
    {
        self.turns.wrote(block);
    }

    /// How many blocks there are.
    pub fn len(&self) -> usize
        ensures { result ≡ length self.now }
    {
        self.turns.blocks() as usize
    }

    /// Of the blocks whose newest place is in a mirrored group, the one written longest ago.
    pub fn next_to_demote<N: Newest>(&self, groups: &GroupTable, newest: &N) -> Option<u32>
        ensures { IsOldest self.now (IsMirrored groups.now (N.keys newest.now)) result }
    {
        first_mirrored(&self.turns, groups, newest)
    }
}

// The first block in the order whose newest place is in a mirrored group.
fn first_mirrored<N: Newest>(turns: &Turns, groups: &GroupTable, newest: &N) -> Option<u32>
    ensures { IsOldest (in_order turns.now) (IsMirrored groups.now (N.keys newest.now)) result }
{
    for turn in 0..turns.len() {
        let number = turns.at(turn);
        if number < turns.blocks() && is_mirrored(groups, newest.newest(number)) {
            return Some(number);
        }
    }
    None
}

// Whether a record's place is in a mirrored group.
fn is_mirrored(groups: &GroupTable, record: Option<Record>) -> bool
    ensures { IsTrue result ↔ (class_of_record groups.now «record» ≡ Some Mirrored) }
{
    match record {
        Some(record) => matches!(groups.class_of(record.place / SLOTS), Some(Class::Mirrored)),
        None => false,
    }
}
