// Calls of the array, each of which is kept by the vault.
ghost use Rattle.std.specs.Prelude.{◌≡◌, ℕ, true, IfOk, OnOk};
ghost use Rattle.byte_store.specs.Lasting.{Acknowledges, Flushes, Lasts, Shown};
ghost use Rattle.slot_tables.specs.Views.{SameSizes};
ghost use Rattle.tiered_array.specs.Matches.{RepresentsTiers};
ghost use Rattle.tiered_array.specs.Tiered.{Tiered};
ghost use Rattle.array_calls.specs.Calls.{CallCase, FitsCall, IsMade};
ghost use Rattle.array_calls.specs.declared.call.Call.TheVariants.{Flush};
ghost use Rattle.array_store.specs.Stores.{Follows};
ghost use Rattle.journaled_store.specs.Left.{HasBoth};
ghost use Rattle.journaled_store.specs.Outlasting.{Outlasts, OutlastsSince, point};

use crate::store::JournaledStore;
use array_calls::{Call, CallAnswer};
use byte_store::StoreFault;
use history::Chronicle;
use std::alloc::{AllocError, Global};
use vault::Vault;

impl<N: Chronicle, V: Vault + Drop> JournaledStore<N, V> {
    /// Carries out a call of the array, which fits it, and publishes; after a flush all batches are durable. The inner result is what
    /// the array answers: if it is out of memory, it stops as `Call::carry` does, and what it has done is kept. Refused as `publish` is:
    /// then the array in memory has the call, and a stop leaves it or not. The journal isn't settled: `settle` or `rest` does that.
    pub fn kept_call(
        &mut self,
        alloc: Global,
        call: &Call,
    ) -> Result<Result<CallAnswer, AllocError>, StoreFault>
        requires { FitsCall self.old.store.tiers.world.array.parts.groups call.now }
        ensures ok { IfOk result (λ carried. IfOk carried (λ answered. (T : Tiered) → RepresentsTiers self.old.store.tiers T
            → (U : Tiered) × CallCase T call.now answered U × RepresentsTiers self.new.store.tiers U)) }
        ensures made { (T : Tiered) → RepresentsTiers self.old.store.tiers T
            → (U : Tiered) × IsMade T call.now U × RepresentsTiers self.new.store.tiers U }
        ensures follows { (T : Tiered) → RepresentsTiers self.old.store.tiers T → Follows self.old.store.tiers self.new.store.tiers }
        ensures room { SameSizes self.old.store.tiers.world.array self.new.store.tiers.world.array }
        ensures size { self.new.store.size ≡ self.old.store.size }

        // A stop leaves what one before would have left, or what the store shows now; a kill after Ok leaves that of now.
        ensures lasts { (T : Tiered) (what : Shown) → RepresentsTiers self.old.store.tiers T → HasBoth self.new.store.tiers what
            → Lasts (Outlasts HasBoth V.known V.seen V.may_leave) (λ p. V.moment p.vault) (OutlastsSince HasBoth V.left_since)
            what what (point self.old) (point self.new)
            × OnOk result (Acknowledges (Outlasts HasBoth V.known V.seen V.may_leave) what what (point self.old) (point self.new)) }

        // Each stop after a flush that is Ok leaves what the store shows now.
        ensures flushed { (T : Tiered) (what : Shown) → RepresentsTiers self.old.store.tiers T → HasBoth self.new.store.tiers what
            → call.now ≡ Flush → OnOk result (Flushes (Outlasts HasBoth V.known V.seen V.may_leave) what (point self.old) (point self.new)) }
    {
        self.unsynced = true;
        let carried = self.store.call(alloc, call);
        self.keep(call.is_flush())?;
        Ok(carried)
    }

    // Publishes, durably or not.
    fn keep(&mut self, durably: bool) -> Result<(), StoreFault>
        ensures same { self.new.store ≡ self.old.store }
        ensures lasts { (what : Shown) → HasBoth self.old.store.tiers what
            → Lasts (Outlasts HasBoth V.known V.seen V.may_leave) (λ p. V.moment p.vault) (OutlastsSince HasBoth V.left_since)
            what what (point self.old) (point self.new)
            × OnOk result (Acknowledges (Outlasts HasBoth V.known V.seen V.may_leave) what what (point self.old) (point self.new)) }
        ensures flushed { (what : Shown) → HasBoth self.old.store.tiers what → durably ≡ true
            → OnOk result (Flushes (Outlasts HasBoth V.known V.seen V.may_leave) what (point self.old) (point self.new)) }
    {
        if durably {
            return self.publish_durably();
        }
        self.publish()
    }
}
