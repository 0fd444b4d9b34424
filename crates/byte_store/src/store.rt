// What a store of bytes promises.
ghost use Rattle.std.specs.Prelude.{◌≡◌, ℕ, ◌+◌, ◌≤◌, List, [], length, replicate, slice_range, OnOk, IfErr, ⊤};
ghost use Rattle.byte_store.specs.Flat.{StoreState, Sizes};
ghost use Rattle.byte_store.specs.Changes.{IsChanged, IsFlushed};
ghost use Rattle.byte_store.specs.Lasting.{Acknowledges, Flushes, Lasts, SameKeys, Shown, ShowsState};
ghost use Rattle.byte_store.specs.declared.fault.StoreFault.{StoreFault};

use crate::StoreFault;
use std::alloc::Global;

/// A store of bytes by offset. A flat store says what its bytes are, and whether some may not be durable.
pub trait ByteStore {
    /// The flat stores that a value represents. Each clause says of every one of them what becomes of it.
    ghost represents: { Self → StoreState → Type 0 };

    /// The bytes of the store, and of the requests that it prefers.
    ghost sizes: { Self → Sizes };

    /// The reasons for which a store of this type may refuse a call.
    ghost may_refuse: { StoreFault → Type 0 } = { λ _. ⊤ };

    /// What each call leaves as it is, beside the sizes.
    ghost stays: { Self → Self → Type 0 } = { λ old new. ⊤ };

    /// What is found again beside the bytes, as the keys of an array's block map; by default nothing. What a store shows are the bytes
    /// of a flat store and these keys, both of one moment.
    ghost keys: { Self → List ℕ } = { λ store. [] };

    /// What a stop at this moment leaves: opened again, the store shows one of the first list if the process was killed, and of the
    /// second if the machine lost power. Where nothing is known of it, as by default, the clauses of it say nothing.
    ghost outlasts: { Self → List Shown → List Shown → Type 0 } = { λ store killed cut. ⊥ };

    /// The moment, as a number that doesn't fall.
    ghost moment: { Self → ℕ } = { λ store. 0 };

    /// What a stop at some moment from that one on leaves, during a call or between two.
    ghost outlasts_since: { Self → ℕ → List Shown → List Shown → Type 0 } = { λ store t killed cut. ⊥ };

    /// Bytes of the store.
    fn size(&self) -> u64
        ensures size { result ≡ (sizes self.now).bytes }
        ensures bytes { (F : StoreState) → represents self.now F → length F.bytes ≡ result };

    /// Bytes of a request that the store carries out best, 8 to 65,536.
    fn block_bytes(&self) -> u32
        ensures size { result ≡ (sizes self.now).block }
        ensures range { (8 ≤ result) × (result ≤ 65536) };

    /// Reads the bytes from an offset on.
    fn read(&mut self, offset: u64, out: &mut [u8]) -> Result<(), StoreFault>
        requires within { offset + length out.old ≤ (sizes self.old).bytes }
        ensures kept { (F : StoreState) → represents self.old F → represents self.new F }
        ensures value { (F : StoreState) → represents self.old F → OnOk result (out.new ≡ slice_range F.bytes offset (offset + length out.old)) }
        ensures cause { IfErr result may_refuse }
        ensures sizes { sizes self.new ≡ sizes self.old }
        ensures stays { (F : StoreState) → represents self.old F → stays self.old self.new }
        ensures lasts { (F : StoreState) (a : Shown) → represents self.old F → ShowsState (keys self.old) F a
            → Lasts outlasts moment outlasts_since a a self.old self.new };

    /// Writes bytes from an offset on. A refused write may have stopped in its middle.
    fn write(&mut self, alloc: Global, offset: u64, bytes: &[u8]) -> Result<(), StoreFault>
        requires within { offset + length bytes.now ≤ (sizes self.old).bytes }
        ensures change { (F : StoreState) → represents self.old F →
            (G : StoreState) × represents self.new G × IsChanged result F offset bytes.now G }
        ensures cause { IfErr result may_refuse }
        ensures sizes { sizes self.new ≡ sizes self.old }
        ensures stays { (F : StoreState) → represents self.old F → stays self.old self.new }
        ensures lasts { (F G : StoreState) (a b : Shown) → represents self.old F → represents self.new G
            → ShowsState (keys self.old) F a → ShowsState (keys self.new) G b → Lasts outlasts moment outlasts_since a b self.old self.new }
        ensures acknowledged { (F G : StoreState) (a b : Shown) → represents self.old F → represents self.new G
            → ShowsState (keys self.old) F a → ShowsState (keys self.new) G b → OnOk result (Acknowledges outlasts a b self.old self.new) };

    /// Makes the bytes from an offset on zero. A refusal may have come in its middle.
    fn zero(&mut self, alloc: Global, offset: u64, length: u32) -> Result<(), StoreFault>
        requires within { offset + length ≤ (sizes self.old).bytes }
        ensures change { (F : StoreState) → represents self.old F →
            (G : StoreState) × represents self.new G × IsChanged result F offset (replicate length 0) G }
        ensures cause { IfErr result may_refuse }
        ensures sizes { sizes self.new ≡ sizes self.old }
        ensures stays { (F : StoreState) → represents self.old F → stays self.old self.new }
        ensures lasts { (F G : StoreState) (a b : Shown) → represents self.old F → represents self.new G
            → ShowsState (keys self.old) F a → ShowsState (keys self.new) G b → Lasts outlasts moment outlasts_since a b self.old self.new }
        ensures acknowledged { (F G : StoreState) (a b : Shown) → represents self.old F → represents self.new G
            → ShowsState (keys self.old) F a → ShowsState (keys self.new) G b → OnOk result (Acknowledges outlasts a b self.old self.new) };

    /// Makes all bytes durable.
    fn flush(&mut self) -> Result<(), StoreFault>
        ensures change { (F : StoreState) → represents self.old F →
            (G : StoreState) × represents self.new G × IsFlushed result F G }
        ensures cause { IfErr result may_refuse }
        ensures sizes { sizes self.new ≡ sizes self.old }
        ensures stays { (F : StoreState) → represents self.old F → stays self.old self.new }
        ensures keys { (F : StoreState) → represents self.old F → SameKeys (keys self.new) (keys self.old) }
        ensures lasts { (F : StoreState) (a : Shown) → represents self.old F → ShowsState (keys self.old) F a
            → Lasts outlasts moment outlasts_since a a self.old self.new }
        ensures flushed { (F : StoreState) (a : Shown) → represents self.old F → ShowsState (keys self.old) F a
            → OnOk result (Flushes outlasts a self.old self.new) };

    /// Called while nobody waits for the store, so that it can do ahead what later requests would wait for. The bytes stay. A
    /// store that has nothing to do ahead leaves it as it is.
    fn rest(&mut self, _alloc: Global)
        ensures kept { (F : StoreState) → represents self.old F → represents self.new F }
        ensures sizes { sizes self.new ≡ sizes self.old }
        ensures stays { (F : StoreState) → represents self.old F → stays self.old self.new }
        ensures lasts { (F : StoreState) (b : Shown) → represents self.old F → ShowsState (keys self.new) F b
            → Lasts outlasts moment outlasts_since b b self.old self.new };
}
