// Calls are carried out.
ghost use Rattle.std.specs.Prelude.{IfOk, OnErr};
ghost use Rattle.slot_tables.specs.Views.{SameSizes};
ghost use Rattle.tiered_array.specs.Matches.{RepresentsTiers};
ghost use Rattle.tiered_array.specs.Tiered.{Tiered};
ghost use Rattle.array_calls.specs.Calls.{CallCase, CallStops, FitsCall, IsMade};
ghost use Rattle.array_calls.specs.Growth.{Grows};
ghost use Rattle.array_calls.specs.declared.call.Call.{Call};

use crate::{Call, CallAnswer};
use std::alloc::{AllocError, Global};
use step_core::{Drive, Given};
use tiered_array::Tiers;

/// What a call makes of a state has the records and the writes of that state, and more of them.
pub fn growth_law()
    ensures { (T : Tiered) (call : Call) (U : Tiered) → IsMade T call U → Grows T.flat U.flat }
{
    // The law is the contract: there is nothing to do.
}

impl Call {
    /// Carries out a call that fits. If it is out of memory, a step has changed nothing; a plan has released the slot that it filled,
    /// and a write or trim may have demoted a block before that.
    pub fn carry<D: Drive>(
        &self,
        alloc: Global,
        tiers: &mut Tiers<D>,
    ) -> Result<CallAnswer, AllocError>
        requires { FitsCall tiers.old.world.array.parts.groups self.now }
        ensures ok { IfOk result (λ answered. (T : Tiered) → RepresentsTiers tiers.old T
            → (U : Tiered) × CallCase T self.now answered U × RepresentsTiers tiers.new U) }
        ensures err { OnErr result ((T : Tiered) → RepresentsTiers tiers.old T → (U : Tiered) × CallStops T self.now U × RepresentsTiers tiers.new U) }
        ensures room { SameSizes tiers.old.world.array tiers.new.world.array }
    {
        match self {
            Call::Claim { worker, slot } => Ok(CallAnswer::Step(tiers.claim(*worker, *slot))),
            Call::Release { worker, slot } => Ok(CallAnswer::Step(tiers.release(*worker, *slot))),
            Call::Fill {
                worker,
                slot,
                payload,
            } => Ok(CallAnswer::Step(tiers.fill(*worker, *slot, payload)?)),
            Call::Copy {
                worker,
                slot,
                block,
            } => Ok(CallAnswer::Step(tiers.copy(*worker, *slot, *block)?)),
            Call::Commit {
                worker,
                slot,
                block,
            } => Ok(CallAnswer::Step(tiers.commit(alloc, *worker, *slot, *block)?)),
            Call::Discard { worker, slot } => Ok(CallAnswer::Step(tiers.discard(*worker, *slot))),
            Call::ReadAt { record } => Ok(CallAnswer::Step(tiers.read_at(alloc, *record)?)),
            Call::Write { block, payload } => Ok(CallAnswer::Plan(tiers.write(
                alloc,
                *block,
                Given::Payload(payload),
            )?)),
            Call::Trim { block } => Ok(CallAnswer::Plan(tiers.write(alloc, *block, Given::Trim)?)),
            Call::Demote => Ok(CallAnswer::Plan(tiers.demote(alloc)?)),
            Call::Plug => Ok(CallAnswer::Plan(tiers.plug(alloc)?)),
            Call::Clean => Ok(CallAnswer::Plan(tiers.clean(alloc)?)),
            Call::Flush => {
                tiers.sync();
                Ok(CallAnswer::Flushed)
            }
        }
    }
}
