// The newest key of each block that headers held so far, in a table by block.
ghost use Rattle.std.specs.Prelude.{◌≡◌, ◌^◌, ◌<◌, ◌≤◌, length, IfOk};
ghost use Rattle.map_join.specs.Maps.{at, IsSame, join, only};
ghost use Rattle.map_join.specs.Record.{key_of, record_at};
ghost use Rattle.map_join.specs.Tables.{IsKeyTable};
ghost use Rattle.header_scan.specs.Found.{key_in};

use map_join::{BlockMap, MapRefusal, Record};
use std::alloc::{AllocError, Global};
use std::marker::Model;

/// A key of each block, 0 where no header held one.
#[derive(Drop)]
pub(crate) struct Keys {
    keys: Vec<u64>,
}

impl Model for Keys {
    ghost use Rattle.std.specs.Prelude.{List, ℕ};
    ghost use Rattle.map_join.specs.Tables.{IsKeyTable};

    ghost Value = { List ℕ };

    ghost view = { λ k. k.keys.items };

    ghost invariant = { λ k. IsKeyTable k.keys.items };
}

impl Keys {
    /// No key of any of `blocks` blocks.
    pub(crate) fn new(alloc: Global, blocks: u32) -> Result<Keys, AllocError>
        ensures many { IfOk result (λ keys. length keys ≡ blocks) }
        ensures none { IfOk result (λ keys. IsSame (key_in keys) (λ _. 0)) }
    {
        Ok(Keys {
            keys: vec![in alloc; 0; blocks as usize]?,
        })
    }

    /// The record that a block's key encodes.
    pub(crate) fn get(&self, block: u32) -> Option<Record>
        requires { block < length self.now }
        ensures reported { result ≡ record_at block (key_in self.now block) }
    {
        Record::of_key(block, self.keys[block as usize])
    }

    /// Raises a block's key to that of a record.
    pub(crate) fn raise(&mut self, reported: Record)
        requires within { «reported».block < length self.old }
        requires newer { key_in self.old «reported».block ≤ key_of «reported» }
        requires written { 0 < «reported».version }
        ensures ok { IsSame (key_in self.new) (join (key_in self.old) (only «reported»)) }
        ensures many { length self.new ≡ length self.old }
    {
        self.keys[reported.block as usize] = reported.key();
    }

    /// The map of these keys.
    pub(crate) fn to_map(&self, alloc: Global) -> Result<BlockMap, MapRefusal>
        requires { length self.now ≤ 2 ^ 32 }
        ensures { IfOk result (λ map. IsSame (at map) (key_in self.now)) }
    {
        BlockMap::of_table(alloc, &self.keys)
    }
}
