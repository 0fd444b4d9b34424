// A step planned as a list of single writes.
ghost use Rattle.std.specs.Prelude.{◌≡◌, ◌≢◌, ℕ, ◌<◌, length, MatchResult, IfOk, true, None};
ghost use Rattle.flat_machine.specs.Cases.{Case, IsAllocating};
ghost use Rattle.flat_machine.specs.Flat.{Flat, Worker, Payload};
ghost use Rattle.flat_machine.specs.Flat as flat;
ghost use Rattle.flat_machine.specs.Steps as say;
ghost use Rattle.slot_tables.specs.Changes.{MayRefuse};
ghost use Rattle.slot_tables.specs.Represents.{ShowsArray};
ghost use Rattle.disk_array.specs.Refused.{OnlyLoses};
ghost use Rattle.crash_points.specs.Intents.{IsValidIntent, MayTake, IsTaken, slot_of, step_of};
ghost use Rattle.crash_points.specs.Lists.{CanRun, IsListFor, IsStepList};
ghost use Rattle.map_join.specs.declared.records.Record.{Record};

use crate::intent::Intent;
use crate::list::list_unit;
use crate::unit::{blank_unit, read_unit, set_header, set_waiting, unit_with};
use extents::{Drive, Header};
use flat_machine::Refusal;
use std::alloc::Global;
use step_core::{Array, Hold};
use unit_store::Micro;

/// Plans a step as a list of single writes. First a note of the slot's whole unit, and of the whole parity where one is
/// written. Then the writes of exactly the slot's places whose drives aren't lost, the first copy before the second, the data
/// before the parity. Last the note cleared. Nothing is written: claim, ticket, map and log stay, so the same step can be
/// planned again. Drives may be found lost.
///
/// Refused as the step is, in the same order, except that no claim is asked for: `InUse` is a slot that the array holds,
/// where the step isn't a commit. Memory only where the step's checks pass.
pub fn plan_micro<D: Drive, C: Hold>(
    alloc: Global,
    array: &mut Array<D, C>,
    intent: &Intent,
) -> Result<Vec<Micro>, Refusal>
    requires { IsValidIntent array.old.parts.groups intent.now }
    ensures flat { (F : Flat) (w : ℕ) → ShowsArray array.old F → MayTake F w intent.now → MatchResult result
        (λ list. IsStepList D.units D.lost D.failures array.new F (slot_of intent.now) (step_of w intent.now) (IsTaken intent.now) list.items)
        (λ e. MayRefuse e (IsAllocating F (step_of w intent.now)) ((G : Flat) × Case F (step_of w intent.now) (say.Refused e) G × ShowsArray array.new G)) }
    ensures list { IfOk result (λ list. IsListFor array.new.parts (slot_of intent.now) list.items) }
    ensures run { IfOk result (λ list. CanRun D.units D.lost D.failures array.new list.items) }
    ensures loses { OnlyLoses array.old array.new }
{
    match intent {
        Intent::Fill { slot, payload } => plan_fill(alloc, array, *slot, payload),
        Intent::Trim { slot } => plan_trim(alloc, array, *slot),
        Intent::Copy { slot, block } => plan_copy(alloc, array, *slot, *block),
        Intent::Commit { slot, block } => plan_commit(alloc, array, *slot, *block),
    }
}

fn plan_fill<D: Drive, C: Hold>(
    alloc: Global,
    array: &mut Array<D, C>,
    slot: u16,
    payload: &[u8],
) -> Result<Vec<Micro>, Refusal>
    requires { length payload.now ≡ array.old.parts.groups.payload }
    ensures flat { (F : Flat) (w : ℕ) → ShowsArray array.old F → F.held slot (Worker w) ≡ true → MatchResult result
        (λ list. IsStepList D.units D.lost D.failures array.new F slot (say.Fill w slot (Payload payload.now)) (λ answer. answer ≡ say.Filled slot) list.items)
        (λ e. MayRefuse e (IsAllocating F (say.Fill w slot (Payload payload.now)))
        ((G : Flat) × Case F (say.Fill w slot (Payload payload.now)) (say.Refused e) G × ShowsArray array.new G)) }
    ensures list { IfOk result (λ list. IsListFor array.new.parts slot list.items) }
    ensures run { IfOk result (λ list. CanRun D.units D.lost D.failures array.new list.items) }
    ensures loses { OnlyLoses array.old array.new }
{
    // Before the unit is made, so that Memory is only the answer to a step that passes its checks.
    if let Some(refusal) = array.fill_fault(slot) {
        return Err(refusal);
    }
    let unit = match unit_with(alloc, array, payload) {
        Ok(unit) => unit,
        Err(refusal) => return Err(refusal),
    };
    list_unit(alloc, array, slot, unit)
}

fn plan_trim<D: Drive, C: Hold>(
    alloc: Global,
    array: &mut Array<D, C>,
    slot: u16,
) -> Result<Vec<Micro>, Refusal>
    ensures flat { (F : Flat) (w : ℕ) → ShowsArray array.old F → F.held slot (Worker w) ≡ true → MatchResult result
        (λ list. IsStepList D.units D.lost D.failures array.new F slot (say.Fill w slot flat.Trim) (λ answer. answer ≡ say.Filled slot) list.items)
        (λ e. MayRefuse e (IsAllocating F (say.Fill w slot flat.Trim))
        ((G : Flat) × Case F (say.Fill w slot flat.Trim) (say.Refused e) G × ShowsArray array.new G)) }
    ensures list { IfOk result (λ list. IsListFor array.new.parts slot list.items) }
    ensures run { IfOk result (λ list. CanRun D.units D.lost D.failures array.new list.items) }
    ensures loses { OnlyLoses array.old array.new }
{
    // Before the unit is made, so that Memory is only the answer to a step that passes its checks.
    if let Some(refusal) = array.fill_fault(slot) {
        return Err(refusal);
    }
    let unit = match blank_unit(alloc, array) {
        Ok(unit) => unit,
        Err(refusal) => return Err(refusal),
    };
    list_unit(alloc, array, slot, unit)
}

fn plan_copy<D: Drive, C: Hold>(
    alloc: Global,
    array: &mut Array<D, C>,
    slot: u16,
    block: u32,
) -> Result<Vec<Micro>, Refusal>
    requires { block < array.old.parts.groups.blocks }
    ensures flat { (F : Flat) (w : ℕ) → ShowsArray array.old F → F.held slot (Worker w) ≡ true → MatchResult result
        (λ list. IsStepList D.units D.lost D.failures array.new F slot (say.Copy w slot block) (λ answer. answer ≡ say.Copied slot) list.items)
        (λ e. MayRefuse e (IsAllocating F (say.Copy w slot block)) ((G : Flat) × Case F (say.Copy w slot block) (say.Refused e) G × ShowsArray array.new G)) }
    ensures list { IfOk result (λ list. IsListFor array.new.parts slot list.items) }
    ensures run { IfOk result (λ list. CanRun D.units D.lost D.failures array.new list.items) }
    ensures loses { OnlyLoses array.old array.new }
{
    // For the proof alone: nothing is done.
    array.whole();
    let source = match array.source(slot, array.newest(block)) {
        Ok(source) => source,
        Err(refusal) => return Err(refusal),
    };
    let mut unit = match read_unit(alloc, array, source.place) {
        Ok(unit) => unit,
        Err(refusal) => return Err(refusal),
    };
    // For the proof alone.
    array.whole();
    set_waiting(&mut unit);
    list_unit(alloc, array, slot, unit)
}

fn plan_commit<D: Drive, C: Hold>(
    alloc: Global,
    array: &mut Array<D, C>,
    slot: u16,
    block: u32,
) -> Result<Vec<Micro>, Refusal>
    requires { block < array.old.parts.groups.blocks }
    ensures flat { (F : Flat) (w : ℕ) → ShowsArray array.old F → (F.tickets slot ≢ None → F.held slot (flat.Ticket w) ≡ true) → MatchResult result
        (λ list. IsStepList D.units D.lost D.failures array.new F slot (say.Commit w slot block)
        (λ answer. (r : Record) × (answer ≡ say.Committed r)) list.items)
        (λ e. MayRefuse e (IsAllocating F (say.Commit w slot block)) ((G : Flat) × Case F (say.Commit w slot block) (say.Refused e) G × ShowsArray array.new G)) }
    ensures list { IfOk result (λ list. IsListFor array.new.parts slot list.items) }
    ensures run { IfOk result (λ list. CanRun D.units D.lost D.failures array.new list.items) }
    ensures loses { OnlyLoses array.old array.new }
{
    // For the proof alone: nothing is done.
    array.whole();
    let record = match array.next_record(slot, block, array.newest(block)) {
        Ok(record) => record,
        Err(refusal) => return Err(refusal),
    };
    // From the table, because the header of a slot that waits is blank and has no kind.
    let kind = array.waiting_kind(slot);
    let mut unit = match read_unit(alloc, array, slot) {
        Ok(unit) => unit,
        Err(refusal) => return Err(refusal),
    };
    set_header(&mut unit, Header::Is(record, kind));
    list_unit(alloc, array, slot, unit)
}
