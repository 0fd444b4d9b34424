// The bytes of a disk, in an array's blocks.
ghost use Rattle.std.specs.Prelude.{◌≡◌, ◌+◌, ◌*◌, ◌<◌, ◌≤◌, ◌++◌, length, false, true, IfOk, OnErr};
ghost use Rattle.slot_tables.specs.Views.{SameSizes};
ghost use Rattle.tiered_array.specs.Matches.{RepresentsTiers};
ghost use Rattle.tiered_array.specs.Tiered.{Tiered};
ghost use Rattle.array_calls.specs.Calls.{CallCase, CallStops, FitsCall};
ghost use Rattle.byte_store.specs.Flat.{StoreState, Sizes, written_over};
ghost use Rattle.byte_store.specs.Changes.{IsChanged, IsFlushed};
ghost use Rattle.map_join.specs.Maps.{IsSame};
ghost use Rattle.slot_tables.specs.Views.{key_at};
ghost use Rattle.array_store.specs.Blocks.{Holds};
ghost use Rattle.array_store.specs.Stores.{Follows, IsStoreOf};
ghost use Rattle.tiered_array.specs.Views.{TiersView};

use crate::block::{make_spare, read_piece, shorten_log, write_piece, zero_piece};
use crate::piece::{Piece, piece_at};
use array_calls::{Call, CallAnswer};
use byte_store::{ByteStore, StoreFault};
use extents::Drive;
use std::alloc::{AllocError, Global};
use step_core::{Visit, World};
use tiered_array::Tiers;

/// An array, and what a disk keeps beside it. The last block may have bytes past the disk's end.
#[derive(Drop)]
pub(crate) struct Disk<D: Drive> {
    pub(crate) tiers: Tiers<D>,
    /// Bytes of the disk.
    pub(crate) size: u64,
    /// For a block of which a part is written.
    pub(crate) buffer: Vec<u8>,
    /// Whether something was written since the last flush.
    pub(crate) unsynced: bool,
    ghost within: { size ≤ tiers.world.array.parts.groups.blocks * tiers.world.array.parts.groups.payload },
    ghost buffer_is: { length buffer.items ≡ tiers.world.array.parts.groups.payload },
}

impl<D: Drive + Drop> Disk<D> {
    /// The first `size` bytes of an array, which has that many. It allocates memory for one block; later calls allocate only
    /// what the array's writes do.
    pub(crate) fn new(alloc: Global, tiers: Tiers<D>, size: u64) -> Result<Disk<D>, AllocError>
        requires { size ≤ tiers.world.array.parts.groups.blocks * tiers.world.array.parts.groups.payload }
        ensures ok { IfOk result (λ s. (F : StoreState) → Holds tiers F.bytes → length F.bytes ≡ size → F.unsynced ≡ false
            → IsStoreOf s.tiers s.size s.unsynced F) }
        ensures size { IfOk result (λ s. s.size ≡ size) }
        ensures same { IfOk result (λ s. s.tiers ≡ tiers) }
    {
        let bytes = tiers.world().array().shape().payload as usize;
        Ok(Disk {
            tiers,
            size,
            buffer: vec![in alloc; 0u8; bytes]?,
            unsynced: false,
        })
    }

    /// The array's world, for the calls that only read it.
    pub(crate) fn world(&self) -> &World<D>
        ensures { result.now ≡ self.now.tiers.world }
    {
        self.tiers.world()
    }

    /// Shows each drive to a visitor, lost ones too, in ascending order. False where the visitor ended the walk.
    pub(crate) fn visit_drives<V: Visit<D>>(&mut self, visitor: &mut V) -> bool
        ensures same { (self.new.tiers ≡ self.old.tiers) × (self.new.size ≡ self.old.size) × (self.new.unsynced ≡ self.old.unsynced) }
        ensures shown { result ≡ true → V.shown visitor.new ≡ V.shown visitor.old ++ self.old.tiers.world.array.parts.drives }
        ensures leads { V.leads_to visitor.old visitor.new }
    {
        self.tiers.visit_drives(visitor)
    }

    /// Carries out a call of the array, which fits it.
    pub(crate) fn call(&mut self, alloc: Global, call: &Call) -> Result<CallAnswer, AllocError>
        requires { FitsCall self.old.tiers.world.array.parts.groups call.now }
        ensures ok { IfOk result (λ answered. (T : Tiered) → RepresentsTiers self.old.tiers T
            → (U : Tiered) × CallCase T call.now answered U × RepresentsTiers self.new.tiers U) }
        ensures err { OnErr result ((T : Tiered) → RepresentsTiers self.old.tiers T
            → (U : Tiered) × CallStops T call.now U × RepresentsTiers self.new.tiers U) }
        ensures follows { (T : Tiered) → RepresentsTiers self.old.tiers T → Follows self.old.tiers self.new.tiers }
        ensures room { SameSizes self.old.tiers.world.array self.new.tiers.world.array }
        ensures size { self.new.size ≡ self.old.size }
    {
        self.unsynced = true;
        call.carry(alloc, &mut self.tiers)
    }

    /// Makes all writes durable on each drive that isn't lost. One whose sync fails is lost.
    pub(crate) fn sync_drives(&mut self)
        ensures kept { (F : StoreState) → IsStoreOf self.old.tiers self.old.size self.old.unsynced F
            → IsStoreOf self.new.tiers self.new.size self.new.unsynced F }
        ensures sizes { (self.new.size ≡ self.old.size)
            × (self.new.tiers.world.array.parts.groups.payload ≡ self.old.tiers.world.array.parts.groups.payload) }
        ensures stays { (F : StoreState) → IsStoreOf self.old.tiers self.old.size self.old.unsynced F → Follows self.old.tiers self.new.tiers }
        ensures map { (F : StoreState) → IsStoreOf self.old.tiers self.old.size self.old.unsynced F
            → IsSame (key_at self.new.tiers.world.array) (key_at self.old.tiers.world.array) }
    {
        self.tiers.sync();
    }
}

impl<D: Drive> ByteStore for Disk<D> {
    ghost represents = { λ s. IsStoreOf s.tiers s.size s.unsynced };

    ghost sizes = { λ s. record { bytes = s.size; block = s.tiers.world.array.parts.groups.payload } };

    ghost stays = { λ s t. Follows s.tiers t.tiers };

    ghost keys = { λ s. s.tiers.world.array.keys };

    fn size(&self) -> u64 {
        self.size
    }

    fn block_bytes(&self) -> u32 {
        self.tiers.world().array().shape().payload
    }

    #[tactic(auto, using(crate::proofs::Holding::follows_same))]
    fn read(&mut self, offset: u64, out: &mut [u8]) -> Result<(), StoreFault> {
        let shape = self.tiers.world().array().shape();
        let size = shape.payload as usize;
        let mut done = 0usize;
        while done < out.len() {
            let piece = piece_at(size, shape.blocks, offset + done as u64, out.len() - done);
            let Piece { block, from, count } = piece;
            let part = &mut out[done..done + count];
            read_piece(&mut self.tiers, &mut self.buffer, block, from, part)?;
            done += count;
        }
        Ok(())
    }

    #[tactic(auto, using(crate::proofs::Holding::follows_same))]
    fn write(&mut self, alloc: Global, offset: u64, bytes: &[u8]) -> Result<(), StoreFault> {
        let shape = self.tiers.world().array().shape();
        let size = shape.payload as usize;
        self.unsynced = true;
        let mut done = 0usize;
        while done < bytes.len() {
            let piece = piece_at(size, shape.blocks, offset + done as u64, bytes.len() - done);
            let Piece { block, from, count } = piece;
            let part = &bytes[done..done + count];
            write_piece(alloc, &mut self.tiers, &mut self.buffer, block, from, part)?;
            done += count;
        }
        Ok(())
    }

    #[tactic(auto, using(crate::proofs::Holding::follows_same))]
    fn zero(&mut self, alloc: Global, offset: u64, length: u32) -> Result<(), StoreFault> {
        let shape = self.tiers.world().array().shape();
        let size = shape.payload as usize;
        let length = length as usize;
        self.unsynced = true;
        let mut done = 0usize;
        while done < length {
            let piece = piece_at(size, shape.blocks, offset + done as u64, length - done);
            let Piece { block, from, count } = piece;
            zero_piece(alloc, &mut self.tiers, &mut self.buffer, block, from, count)?;
            done += count;
        }
        Ok(())
    }

    // A drive whose sync fails is lost. As long as it is the only one, the others have all bytes.
    fn flush(&mut self) -> Result<(), StoreFault> {
        self.tiers.sync();
        if lost_count(self.tiers.world()) > 1 {
            return Err(StoreFault::Sync);
        }
        self.unsynced = false;
        Ok(())
    }

    // What can be done ahead of later requests: a mirrored slot is made free, and a log that has grown is shortened.
    fn rest(&mut self, alloc: Global) {
        make_spare(alloc, &mut self.tiers);
        shorten_log(alloc, &mut self.tiers);
    }
}

// How many drives are lost.
fn lost_count<D: Drive>(world: &World<D>) -> u8 {
    let mut count = 0u8;
    for drive in 0..world.array().drive_count() {
        if world.array().is_lost(drive) {
            count = count.saturating_add(1);
        }
    }
    count
}
