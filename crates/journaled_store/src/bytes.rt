// A journaled store as a store of bytes.
ghost use Rattle.array_store.specs.Stores.{Follows};
ghost use Rattle.journaled_store.specs.Left.{HasBoth};
ghost use Rattle.journaled_store.specs.Outlasting.{Outlasts, OutlastsSince, RepresentsStore, point, sizes_of};

use crate::store::JournaledStore;
use byte_store::{ByteStore, StoreFault};
use history::Chronicle;
use std::alloc::Global;
use vault::Vault;

impl<N: Chronicle, V: Vault + Drop> ByteStore for JournaledStore<N, V> {
    ghost represents = { λ s. RepresentsStore s };

    ghost sizes = { λ s. sizes_of s };

    ghost stays = { λ s t. Follows s.store.tiers t.store.tiers };

    ghost keys = { λ s. s.store.tiers.world.array.keys };

    ghost outlasts = { λ s. Outlasts HasBoth V.known V.seen V.may_leave (point s) };

    ghost moment = { λ s. V.moment s.vault };

    ghost outlasts_since = { λ s. OutlastsSince HasBoth V.left_since (point s) };

    fn size(&self) -> u64 {
        self.store.size()
    }

    fn block_bytes(&self) -> u32 {
        self.store.block_bytes()
    }

    // A drive that is lost by it is noted in the next batch.
    fn read(&mut self, offset: u64, out: &mut [u8]) -> Result<(), StoreFault> {
        self.store.read(offset, out)
    }

    fn write(&mut self, alloc: Global, offset: u64, bytes: &[u8]) -> Result<(), StoreFault> {
        self.make_room();
        self.kept_write(alloc, offset, bytes)
    }

    fn zero(&mut self, alloc: Global, offset: u64, length: u32) -> Result<(), StoreFault> {
        self.make_room();
        self.kept_zero(alloc, offset, length)
    }

    fn flush(&mut self) -> Result<(), StoreFault> {
        self.kept_flush()
    }

    // What the array does ahead is part of the next batch: a stop before that leaves the array as if it had not been done.
    fn rest(&mut self, alloc: Global) {
        self.store.rest(alloc);
        self.tidy();
    }
}
