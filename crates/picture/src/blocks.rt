// The block that is live in each slot, as a table, because a lookup by slot in the map walks all its pages.
ghost use Rattle.std.specs.Prelude.{◌≡◌, ℕ, ◌<◌, length, Some, None, IfOk, replicate, slice_set};
ghost use Rattle.map_join.specs.Maps.{at};
ghost use Rattle.map_join.specs.declared.records.Record.{Record};
ghost use Rattle.picture.specs.Blocks.{AreBlocksOf, IsMappedBlock, block_in};

use map_join::{BlockMap, Record};
use std::alloc::{AllocError, Global};

/// Slot numbers of an array: all that 16 bits have, so that the place of any record is one.
const ALL_SLOTS: usize = 65_536;

// A table without blocks.
fn no_blocks(alloc: Global, slots: usize) -> Result<Vec<Option<u32>>, AllocError>
    ensures { IfOk result (λ blocks. blocks.items ≡ replicate slots None) }
{
    let blocks = vec![in alloc; None; slots]?;
    Ok(blocks)
}

// Enters the block of a record at its place.
fn note(blocks: &mut Vec<Option<u32>>, newest: Record)
    requires { length blocks.old.items ≡ 65536 }
    ensures set { blocks.new.items ≡ slice_set blocks.old.items newest.place (Some newest.block) }
    ensures place { newest.place < 65536 }
    ensures long { length blocks.new.items ≡ 65536 }
{
    blocks[newest.place as usize] = Some(newest.block);
}

// Enters each record's block at its place.
fn note_all(records: &[Record], blocks: &mut Vec<Option<u32>>)
    requires long { length blocks.old.items ≡ 65536 }
    requires blank { (slot : ℕ) → block_in blocks.old.items slot ≡ None }
    ensures long { length blocks.new.items ≡ 65536 }
    ensures noted { (slot : ℕ) → IsMappedBlock records.now (length records.now) slot (block_in blocks.new.items slot) }
{
    for record in records {
        note(blocks, *record);
    }
}

/// The block that is live in each of the 65,536 slots, by the slot's number. The time is linear in the map's blocks. Refused
/// exactly where an allocation fails.
pub fn blocks_by_slot(alloc: Global, map: &BlockMap) -> Result<Vec<Option<u32>>, AllocError>
    ensures { IfOk result (λ blocks. AreBlocksOf (at map.now) blocks.items) }
{
    let Ok(records) = map.to_list(alloc) else {
        return Err(AllocError);
    };
    let mut blocks = no_blocks(alloc, ALL_SLOTS)?;
    note_all(&records, &mut blocks);
    Ok(blocks)
}
