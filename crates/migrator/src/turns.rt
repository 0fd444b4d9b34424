// The order of last writes: which block is at each turn, and at which turn each block is.
ghost use Rattle.std.specs.Prelude.{◌≡◌, ℕ, ◌+◌, ◌-◌, ◌*◌, ◌<◌, ◌≤◌, length, IfOk, slice_index, slice_set, vec_capacity};
ghost use Rattle.migrator.specs.Ages.{by_number, written};
ghost use Rattle.migrator.specs.Inside.{in_order, IsFirstByNumber, KeepsFront};

use crate::turn_map::TurnMap;
use std::alloc::{AllocError, Global};
use std::marker::Model;

// Turns after the first ones that are kept in addition to four for each written block. Without them a few blocks that are
// written often would have gaps removed at every few writes.
const FEW: usize = 64;

/// All blocks in the order of their last writes, with gaps between them. The first turns, one a block, are those before any write.
#[derive(Drop)]
pub(crate) struct Turns {
    turns: TurnMap,
    // At each turn after the first ones a block, or a gap: a number that is no block's. There is room for four turns a block,
    // so that noting a write allocates nothing.
    later: Vec<u32>,
}

impl Model for Turns {
    ghost use Rattle.std.specs.Prelude.{vec_capacity};
    ghost use Rattle.migrator.specs.Inside.{TurnOrder, AreTurns, order_of};

    ghost Value = { TurnOrder };

    ghost view = { λ t. order_of t.turns t.later.items };

    ghost invariant = { λ t. AreTurns t.turns t.later.items (vec_capacity t.later) };
}

impl Turns {
    /// The order of `blocks` blocks before any write: by number. Refused if out of memory.
    pub(crate) fn new(alloc: Global, blocks: u32) -> Result<Turns, AllocError>
        requires { blocks ≤ 65536 }
        ensures { IfOk result (λ turns. in_order turns ≡ by_number blocks) }
    {
        Ok(Turns {
            turns: TurnMap::new(alloc, blocks)?,
            later: Vec::with_capacity(alloc, 4 * blocks as usize)?,
        })
    }

    /// How many blocks there are.
    pub(crate) fn blocks(&self) -> u32
        ensures blocks { result ≡ self.now.blocks }
        ensures all { result ≡ length (in_order self.now) }
    {
        self.turns.blocks()
    }

    /// How many turns there are. The first ones, one a block, have the block of that number or a gap.
    pub(crate) fn len(&self) -> usize
        ensures len { result ≡ length self.now.kept }
        ensures all { self.now.blocks ≡ length (in_order self.now) }
        ensures first { IsFirstByNumber self.now }
    {
        self.turns.blocks() as usize + self.later.len()
    }

    /// The block at a turn, or a number that is no block's if there is a gap.
    #[inline(always)]
    pub(crate) fn at(&self, turn: usize) -> u32
        requires { turn < length self.now.kept }
        ensures { result ≡ slice_index self.now.kept turn }
    {
        let blocks = self.turns.blocks();
        if turn >= blocks as usize {
            return self.later[turn - blocks as usize];
        }
        if self.turns.turn_of(turn as u32) as usize == turn {
            turn as u32
        } else {
            blocks
        }
    }

    /// The turn of a block.
    pub(crate) fn turn_of(&self, block: u32) -> usize
        requires { block < length (in_order self.now) }
        ensures within { result < length self.now.kept }
        ensures only { (k : ℕ) → k < length self.now.kept → slice_index self.now.kept k ≡ block → k ≡ result }
    {
        self.turns.turn_of(block) as usize
    }

    /// Notes a write of a block, which becomes the last in the order. Returns how many of the first turns are as they were, but
    /// for gaps. Allocates nothing, and takes constant time on average.
    pub(crate) fn wrote(&mut self, block: u32) -> usize
        requires { block < length (in_order self.old) }
        ensures order { in_order self.new ≡ written (in_order self.old) block }
        ensures length { length (in_order self.new) ≡ length (in_order self.old) }
        ensures front { KeepsFront result self.old self.new }
    {
        // First, because the block's new turn needs room.
        let front = self.make_room();
        self.move_last(block);
        front
    }

    // Removes all gaps if there are too many. Returns how many of the first turns are as they were.
    fn make_room(&mut self) -> usize
        requires { 0 < length (in_order self.old) }
        ensures order { in_order self.new ≡ in_order self.old }
        ensures room { length self.new.kept < 5 * length (in_order self.old) }
        ensures front { KeepsFront result self.old self.new }
    {
        let blocks = self.turns.blocks() as usize;
        // In proportion to the written blocks, so that a removal is paid for by the writes since the last one.
        let most = (4 * blocks).min(4 * self.turns.written() + FEW);
        if self.later.len() < most {
            return self.len();
        }
        self.pack();
        blocks
    }

    // Puts a block last, and a gap into its place.
    fn move_last(&mut self, block: u32)
        requires block { block < length (in_order self.old) }
        requires room { length self.old.kept < 5 * length (in_order self.old) }
        ensures order { in_order self.new ≡ written (in_order self.old) block }
        ensures length { length (in_order self.new) ≡ length (in_order self.old) }
        ensures front { KeepsFront (length self.old.kept) self.old self.new }
    {
        let blocks = self.turns.blocks();
        let last = blocks + self.later.len() as u32;
        let turn = self.turns.replace(block, last);
        leave_gap(&mut self.later, blocks, turn);
        self.later.push_reserved(block);
    }

    // Removes all gaps after the first turns.
    fn pack(&mut self)
        ensures order { in_order self.new ≡ in_order self.old }
        ensures room { length self.new.kept ≤ 2 * length (in_order self.old) }
        ensures front { KeepsFront (length (in_order self.old)) self.old self.new }
    {
        let blocks = self.turns.blocks();
        // In place, because a block is never moved past the turn that is read next.
        let mut packed = 0;
        for at in 0..self.later.len() {
            let number = self.later[at];
            if number < blocks {
                self.later[packed] = number;
                self.turns.replace(number, blocks + packed as u32);
                packed += 1;
            }
        }
        self.later.truncate(packed);
    }
}

// Puts a gap at a turn, if it isn't one of the first: there a gap is known by the turn of the block.
fn leave_gap(later: &mut Vec<u32>, blocks: u32, turn: u32)
    requires { turn < blocks + length later.old.items }
    ensures first { turn < blocks → later.new.items ≡ later.old.items }
    ensures gap { blocks ≤ turn → later.new.items ≡ slice_set later.old.items (turn - blocks) blocks }
    ensures room { vec_capacity later.new ≡ vec_capacity later.old }
{
    if turn >= blocks {
        // Blocks are numbered from 0, so no block has this number.
        later[(turn - blocks) as usize] = blocks;
    }
}
