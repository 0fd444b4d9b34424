// The turn of each block, kept for the blocks that were written.
ghost use Rattle.std.specs.Prelude.{◌≡◌, ◌+◌, ◌<◌, ◌≤◌, length, nat_eq, IfOk, None, Some, slice_index, slice_set};
ghost use Rattle.indexmap.specs.IndexMap.{get, index_map_len, spare, IsUnique, Updates};
ghost use Rattle.migrator.specs.Ages.{by_number};

use crate::block_hash::ByNumber;
use indexmap::IndexMap;
use std::alloc::{AllocError, Global};
use std::marker::Model;

/// The turn of each block. A block that was never written has its number as its turn, and takes no place.
#[derive(Drop)]
pub(crate) struct TurnMap {
    blocks: u32,
    // The turns of the blocks that were written. There is room for all blocks, so that noting a write can't fail.
    written: IndexMap<u32, u32, ByNumber>,
}

impl Model for TurnMap {
    ghost use Rattle.std.specs.Prelude.{ℕ, List};
    ghost use Rattle.migrator.specs.Inside.{turns_of, IsTurnTable};

    ghost Value = { List ℕ };

    ghost view = { λ m. turns_of m.blocks m.written };

    ghost invariant = { λ m. IsTurnTable m.blocks m.written };
}

impl TurnMap {
    /// The turns of `blocks` blocks before any write, with room for all of them. Refused if out of memory.
    pub(crate) fn new(alloc: Global, blocks: u32) -> Result<TurnMap, AllocError>
        requires { blocks ≤ 65536 }
        ensures { IfOk result (λ turns. turns ≡ by_number blocks) }
    {
        Ok(TurnMap {
            blocks,
            written: IndexMap::with_capacity_and_hasher(alloc, blocks as usize, ByNumber)?,
        })
    }

    /// How many blocks there are.
    pub(crate) fn blocks(&self) -> u32
        ensures blocks { result ≡ length self.now }
        ensures few { result ≤ 65536 }
    {
        self.blocks
    }

    /// How many blocks were written.
    pub(crate) fn written(&self) -> usize
        ensures { result ≤ length self.now }
    {
        self.written.len()
    }

    /// The turn of a block.
    pub(crate) fn turn_of(&self, block: u32) -> u32
        requires { block < length self.now }
        ensures { result ≡ slice_index self.now block }
    {
        match self.written.get(&block) {
            Some(turn) => *turn,
            None => block,
        }
    }

    /// Gives a block another turn, and returns the one that it had. Allocates nothing.
    pub(crate) fn replace(&mut self, block: u32, turn: u32) -> u32
        requires { block < length self.old }
        ensures turn { result ≡ slice_index self.old block }
        ensures turns { self.new ≡ slice_set self.old block turn }
    {
        if let Some(kept) = self.written.get_mut(&block) {
            let was = *kept;
            *kept = turn;
            return was;
        }
        write_first(&mut self.written, block, turn);
        block
    }
}

// Writes the first turn of a block. It is a function of its own so that a later turn is written with few instructions.
#[inline(never)]
fn write_first(written: &mut IndexMap<u32, u32, ByNumber>, block: u32, turn: u32)
    requires absent { get nat_eq written.old block ≡ None }
    requires room { 0 < spare written.old }
    ensures updates { Updates nat_eq written.old written.new block (Some turn) }
    ensures len { index_map_len written.new ≡ index_map_len written.old + 1 }
    ensures room { spare written.old ≤ spare written.new + 1 }
    ensures unique { IsUnique nat_eq written.new }
{
    // There is room, so this allocates nothing and can't fail.
    written.insert(block, turn).unwrap();
}
