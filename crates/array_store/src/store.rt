// The bytes of a disk, as callers see them.
ghost use Rattle.std.specs.Prelude.{◌≡◌, ◌+◌, ◌*◌, ◌≤◌, ◌++◌, List, length, replicate, slice_range, false, true, OnOk, OnErr, IfOk, IfErr};
ghost use Rattle.byte_store.specs.Flat.{StoreState, Sizes};
ghost use Rattle.byte_store.specs.Changes.{IsChanged, IsFlushed};
ghost use Rattle.map_join.specs.Maps.{IsSame};
ghost use Rattle.slot_tables.specs.Views.{SameSizes, key_at};
ghost use Rattle.tiered_array.specs.Matches.{RepresentsTiers};
ghost use Rattle.tiered_array.specs.Tiered.{Tiered};
ghost use Rattle.array_calls.specs.Calls.{CallCase, CallStops, FitsCall};
ghost use Rattle.array_store.specs.Blocks.{Holds};
ghost use Rattle.array_store.specs.Stores.{Follows, IsStoreOf};

use crate::disk::Disk;
use array_calls::{Call, CallAnswer};
use byte_store::{ByteStore, StoreFault};
use extents::Drive;
use std::alloc::{AllocError, Global};
use std::marker::Model;
use step_core::{Visit, World};
use tiered_array::Tiers;

/// The bytes of a disk, kept by an array.
#[derive(Drop)]
pub struct ArrayStore<D: Drive> {
    disk: Disk<D>,
}

impl<D: Drive> Model for ArrayStore<D> {
    ghost use Rattle.array_store.specs.Stores.{StoreView};

    ghost Value = { StoreView };

    ghost view = { λ s. record { tiers = s.disk.tiers; size = s.disk.size; unsynced = s.disk.unsynced } };
}

impl<D: Drive + Drop> ArrayStore<D> {
    /// The first `size` bytes of an array, which has that many. It allocates memory for one block; later calls allocate only
    /// what the array's writes do.
    pub fn new(alloc: Global, tiers: Tiers<D>, size: u64) -> Result<ArrayStore<D>, AllocError>
        requires { size ≤ tiers.world.array.parts.groups.blocks * tiers.world.array.parts.groups.payload }
        ensures ok { IfOk result (λ s. (F : StoreState) → Holds tiers F.bytes → length F.bytes ≡ size → F.unsynced ≡ false
            → IsStoreOf s.tiers s.size s.unsynced F) }
        ensures size { IfOk result (λ s. s.size ≡ size) }
        ensures same { IfOk result (λ s. s.tiers ≡ tiers) }
    {
        let disk = Disk::new(alloc, tiers, size)?;
        Ok(ArrayStore { disk })
    }

    /// The array's world, for the calls that only read it.
    pub fn world(&self) -> &World<D>
        ensures { result.now ≡ self.now.tiers.world }
    {
        self.disk.world()
    }

    /// Shows each drive to a visitor, lost ones too, in ascending order. False where the visitor ended the walk.
    pub fn visit_drives<V: Visit<D>>(&mut self, visitor: &mut V) -> bool
        ensures same { (self.new.tiers ≡ self.old.tiers) × (self.new.size ≡ self.old.size) × (self.new.unsynced ≡ self.old.unsynced) }
        ensures shown { result ≡ true → V.shown visitor.new ≡ V.shown visitor.old ++ self.old.tiers.world.array.parts.drives }
        ensures leads { V.leads_to visitor.old visitor.new }
    {
        self.disk.visit_drives(visitor)
    }

    /// Carries out a call of the array, which fits it. The bytes are those of the array's last writes after it. If it is out of
    /// memory, it stops as `Call::carry` does.
    pub fn call(&mut self, alloc: Global, call: &Call) -> Result<CallAnswer, AllocError>
        requires { FitsCall self.old.tiers.world.array.parts.groups call.now }
        ensures ok { IfOk result (λ answered. (T : Tiered) → RepresentsTiers self.old.tiers T
            → (U : Tiered) × CallCase T call.now answered U × RepresentsTiers self.new.tiers U) }
        ensures err { OnErr result ((T : Tiered) → RepresentsTiers self.old.tiers T
            → (U : Tiered) × CallStops T call.now U × RepresentsTiers self.new.tiers U) }
        ensures follows { (T : Tiered) → RepresentsTiers self.old.tiers T → Follows self.old.tiers self.new.tiers }
        ensures room { SameSizes self.old.tiers.world.array self.new.tiers.world.array }
        ensures size { self.new.size ≡ self.old.size }
    {
        self.disk.call(alloc, call)
    }

    /// Makes all writes durable on each drive that isn't lost. One whose sync fails is lost. The bytes and the block map stay.
    pub fn sync_drives(&mut self)
        ensures kept { (F : StoreState) → IsStoreOf self.old.tiers self.old.size self.old.unsynced F
            → IsStoreOf self.new.tiers self.new.size self.new.unsynced F }
        ensures sizes { (self.new.size ≡ self.old.size)
            × (self.new.tiers.world.array.parts.groups.payload ≡ self.old.tiers.world.array.parts.groups.payload) }
        ensures stays { (F : StoreState) → IsStoreOf self.old.tiers self.old.size self.old.unsynced F → Follows self.old.tiers self.new.tiers }
        ensures map { (F : StoreState) → IsStoreOf self.old.tiers self.old.size self.old.unsynced F
            → IsSame (key_at self.new.tiers.world.array) (key_at self.old.tiers.world.array) }
    {
        self.disk.sync_drives();
    }
}

impl<D: Drive> ByteStore for ArrayStore<D> {
    ghost represents = { λ s. IsStoreOf s.tiers s.size s.unsynced };

    ghost sizes = { λ s. record { bytes = s.size; block = s.tiers.world.array.parts.groups.payload } };

    ghost stays = { λ s t. Follows s.tiers t.tiers };

    ghost keys = { λ s. s.tiers.world.array.keys };

    fn size(&self) -> u64 {
        self.disk.size()
    }

    fn block_bytes(&self) -> u32 {
        self.disk.block_bytes()
    }

    fn read(&mut self, offset: u64, out: &mut [u8]) -> Result<(), StoreFault> {
        self.disk.read(offset, out)
    }

    fn write(&mut self, alloc: Global, offset: u64, bytes: &[u8]) -> Result<(), StoreFault> {
        self.disk.write(alloc, offset, bytes)
    }

    fn zero(&mut self, alloc: Global, offset: u64, length: u32) -> Result<(), StoreFault> {
        self.disk.zero(alloc, offset, length)
    }

    fn flush(&mut self) -> Result<(), StoreFault> {
        self.disk.flush()
    }

    fn rest(&mut self, alloc: Global) {
        self.disk.rest(alloc);
    }
}
