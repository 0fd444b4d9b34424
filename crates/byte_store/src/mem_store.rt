// A store in memory.
ghost use Rattle.std.specs.Prelude.{◌≡◌, ◌≤◌, ◌+◌, ◌^◌, ◌<◌, ℕ, replicate, length, OnOk, IfOk, slice_range, false, Bool, List};
ghost use Rattle.byte_store.specs.Flat.{StoreState, Sizes, written_over};
ghost use Rattle.byte_store.specs.Changes.{IsChanged, IsFlushed};

use crate::{ByteStore, StoreFault};
use std::alloc::{AllocError, Global};

/// A store in memory. Nothing of it outlives the process: a flush only notes that it came.
#[derive(Drop)]
pub struct MemStore {
    bytes: Vec<u8>,
    block: u32,
    unsynced: bool,
    ghost block_is: { (8 ≤ block) × (block ≤ 65536) },
}

impl MemStore {
    /// A store of `size` zeros that prefers requests of `block` bytes, 8 to 65,536; refused if out of memory.
    pub fn new(alloc: Global, size: usize, block: u32) -> Result<MemStore, AllocError>
        requires block { (8 ≤ block) × (block ≤ 65536) }
        ensures flat { IfOk result (λ store.
            ⟦<MemStore as ByteStore>⟧.represents store (record { bytes = replicate size 0; unsynced = false })) }
        ensures sizes { IfOk result (λ store. ⟦<MemStore as ByteStore>⟧.sizes store ≡ record { bytes = size; block = block }) }
    {
        Ok(MemStore {
            bytes: vec![in alloc; 0u8; size]?,
            block,
            unsynced: false,
        })
    }
}

impl ByteStore for MemStore {
    ghost represents = { λ m F. (F.bytes ≡ m.bytes.items) × (F.unsynced ≡ m.unsynced) };

    ghost may_refuse = { λ _. ⊥ };

    ghost sizes = { λ m. record { bytes = length m.bytes.items; block = m.block } };

    fn size(&self) -> u64 {
        self.bytes.len() as u64
    }

    fn block_bytes(&self) -> u32 {
        self.block
    }

    fn read(&mut self, offset: u64, out: &mut [u8]) -> Result<(), StoreFault> {
        let from = offset as usize;
        out.copy_from_slice(&self.bytes[from..from + out.len()]);
        Ok(())
    }

    fn write(&mut self, _alloc: Global, offset: u64, bytes: &[u8]) -> Result<(), StoreFault> {
        let from = offset as usize;
        self.unsynced = true;
        put(&mut self.bytes, from, bytes);
        Ok(())
    }

    fn zero(&mut self, _alloc: Global, offset: u64, length: u32) -> Result<(), StoreFault> {
        let from = offset as usize;
        self.unsynced = true;
        clear(&mut self.bytes, from, length as usize);
        Ok(())
    }

    fn flush(&mut self) -> Result<(), StoreFault> {
        self.unsynced = false;
        Ok(())
    }

    fn rest(&mut self, _alloc: Global) {}
}

// Writes bytes over others.
fn put(held: &mut [u8], from: usize, bytes: &[u8])
    requires { from + length bytes.now ≤ length held.old }
    ensures { held.new ≡ written_over held.old from bytes.now }
{
    held[from..from + bytes.len()].copy_from_slice(bytes);
}

// Writes zeros over bytes.
fn clear(held: &mut [u8], from: usize, count: usize)
    requires { from + count ≤ length held.old }
    ensures { held.new ≡ written_over held.old from (replicate count 0) }
{
    held[from..from + count].fill(0);
}
