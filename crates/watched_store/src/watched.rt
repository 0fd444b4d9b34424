// A store that is looked at whenever it has rested.
ghost use Rattle.std.specs.Prelude.{◌≡◌};

use byte_store::{ByteStore, StoreFault};
use std::alloc::Global;

/// Looks at a store.
pub trait Sees<S> {
    /// Called after the store has rested.
    fn sees(&mut self, store: &S);
}

/// A store that is looked at whenever it has rested. Its calls are the store's own.
#[derive(Drop)]
pub struct Watched<S: ByteStore + Drop, W: Sees<S> + Drop> {
    store: S,
    watch: W,
}

impl<S: ByteStore + Drop, W: Sees<S> + Drop> Watched<S, W> {
    /// A store that is looked at.
    pub fn new(store: S, watch: W) -> Watched<S, W>
        ensures { result.store ≡ store }
    {
        Watched { store, watch }
    }

    /// The store, and what looks at it.
    pub fn into_parts(self) -> (S, W)
        ensures { (result.0 ≡ self.store) × (result.1 ≡ self.watch) }
    {
        (self.store, self.watch)
    }
}

impl<S: ByteStore + Drop, W: Sees<S> + Drop> ByteStore for Watched<S, W> {
    ghost represents = { λ w F. S.represents w.store F };

    ghost sizes = { λ w. S.sizes w.store };

    ghost may_refuse = { S.may_refuse };

    ghost stays = { λ old new. S.stays old.store new.store };

    ghost keys = { λ w. S.keys w.store };

    ghost outlasts = { λ w killed cut. S.outlasts w.store killed cut };

    ghost moment = { λ w. S.moment w.store };

    ghost outlasts_since = { λ w t killed cut. S.outlasts_since w.store t killed cut };

    fn size(&self) -> u64 {
        self.store.size()
    }

    fn block_bytes(&self) -> u32 {
        self.store.block_bytes()
    }

    fn read(&mut self, offset: u64, out: &mut [u8]) -> Result<(), StoreFault> {
        self.store.read(offset, out)
    }

    fn write(&mut self, alloc: Global, offset: u64, bytes: &[u8]) -> Result<(), StoreFault> {
        self.store.write(alloc, offset, bytes)
    }

    fn zero(&mut self, alloc: Global, offset: u64, length: u32) -> Result<(), StoreFault> {
        self.store.zero(alloc, offset, length)
    }

    fn flush(&mut self) -> Result<(), StoreFault> {
        self.store.flush()
    }

    fn rest(&mut self, alloc: Global) {
        self.store.rest(alloc);
        self.watch.sees(&self.store);
    }
}
