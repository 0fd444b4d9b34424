// A step that stops after some of its writes, and the array that a restart makes of what is left.
ghost use Rattle.std.specs.Prelude.{ℕ, IfOk, IfErr};
ghost use Rattle.flat_machine.specs.Flat.{Flat};
ghost use Rattle.slot_tables.specs.Represents.{ShowsArray};
ghost use Rattle.crash_points.specs.Intents.{IsValidIntent, MayTake};
ghost use Rattle.crash_points.specs.Stops.{AreClaimsLeft, IsCutShort, IsLeftOver, IsReturned, IsWhyNone, MayFail, WasResumed};

use crate::intent::Intent;
use crate::plan::plan_micro;
use extents::Drive;
use flat_machine::Refusal;
use header_scan::{ScanFault, restart};
use std::alloc::Global;
use step_core::{Array, Hold};
use unit_store::{Parts, run_micro};

/// Why no array was restarted, with what is left.
#[derive(Drop)]
pub enum Unfinished<D: Drive, C: Hold> {
    /// No entry was carried out: the step is refused, or out of memory. The array has lost drives at most.
    NotBegun(Refusal, Array<D, C>),
    /// The restart's fault, the parts as it left them, and all claims that the array kept.
    NotRestarted(ScanFault, Parts<D>, Vec<C>),
}

/// Plans the step, carries out the first `n` entries of its list, stops there, and restarts: what firmware finds that loses power
/// after `n` entries. The array is that of before the step where `n` is 0, and of after it for every other `n`, restarted, but for
/// its drives: its map is its log, nothing waits. Returns the claims of the slots that are no newest place.
pub fn stop_after<D: Drive, C: Hold>(
    alloc: Global,
    array: Array<D, C>,
    intent: &Intent,
    n: usize,
) -> Result<(Array<D, C>, Vec<C>), Unfinished<D, C>>
    requires { IsValidIntent array.parts.groups intent.now }
    ensures stopped { IfOk result (λ r. (F : Flat) (w : ℕ) → ShowsArray array F → MayTake F w intent.now → IsCutShort F w intent.now n r.0) }
    ensures resumed { IfOk result (λ r. (F : Flat) (w : ℕ) → ShowsArray array F → MayTake F w intent.now
        → WasResumed D.units D.lost D.failures array F w intent.now n r.0) }
    ensures claims { IfOk result (λ r. AreClaimsLeft C.names array r.0 r.1.items) }
    ensures returned { IfErr result (IsReturned D.units C.names array) }
    ensures again { IfErr result (λ e. (F : Flat) (w : ℕ) → ShowsArray array F → MayTake F w intent.now
        → IsLeftOver D.units D.lost D.failures array F w intent.now n e) }
    ensures fails { IfErr result (λ e. (F : Flat) (w : ℕ) → ShowsArray array F → MayTake F w intent.now → MayFail D.lost e) }
    ensures why { IfErr result (λ e. (F : Flat) (w : ℕ) → ShowsArray array F → MayTake F w intent.now
        → IsWhyNone D.units D.lost D.failures C.names array F w intent.now n e) }
{
    let mut array = array;
    let list = match plan_micro(alloc, &mut array, intent) {
        Ok(list) => list,
        Err(refusal) => return Err(Unfinished::NotBegun(refusal, array)),
    };
    // Before any entry is carried out, so that out of memory leaves the step not begun.
    let (mut parts, claims) = match array.into_parts(alloc) {
        Ok(taken) => taken,
        Err(array) => return Err(Unfinished::NotBegun(Refusal::Memory, array)),
    };
    run_micro(&mut parts, list, n);
    match restart(alloc, parts, claims) {
        Ok(restarted) => Ok(restarted),
        Err((fault, parts, claims)) => Err(Unfinished::NotRestarted(fault, parts, claims)),
    }
}
