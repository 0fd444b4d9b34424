//! Commands that read the headers of all slots. They leave the block maps as they are.
ghost use Rattle.std.specs.Prelude.{IfOk, OnOk, Some};
ghost use Rattle.script_exec.specs.State.{Position};
ghost use Rattle.script_exec.specs.Carrying.{Carries, IsCarried, MatchesState};
ghost use Rattle.script_exec.specs.Prefix.{IsPrefix};
ghost use Rattle.script_syntax.specs.Order as o;

use crate::bench::Bench;
use crate::texts::{put_fault, put_listing, put_numbered};
use std::alloc::{AllocError, Global};
use tiered_array::Tiers;

/// Lists the map that the headers hold, or reports the first fault.
pub fn scan(alloc: Global, bench: &mut Bench, out: &mut Vec<u8>) -> Result<(), AllocError>
    ensures carried { OnOk result (Carries bench.old bench.new o.Scan out.old.items out.new.items) }
    ensures kept { IsPrefix out.old.items out.new.items }
{
    let map = match bench.tiers.scan(alloc) {
        Ok(map) => map,
        Err(fault) => return put_fault(out, &fault),
    };
    let Ok(records) = map.to_list(alloc) else {
        return Err(AllocError)
    };
    put_listing(out, b"scan ", &records)
}

/// Rebuilds the array from the map that the headers hold, or reports the first fault. The bench is moved out of `bench` for
/// this, and is lost if out of memory. Kept out of line, since its frame has room for a second bench.
#[inline(never)]
pub fn restart(
    alloc: Global,
    bench: &mut Option<Bench>,
    out: &mut Vec<u8>,
) -> Result<(), AllocError>
    ensures carried { OnOk result ((P : Position) → MatchesState bench.old (Some P) →
        IsCarried (Some P) bench.new o.Restart out.old.items out.new.items) }
    ensures kept { IsPrefix out.old.items out.new.items }
{
    let Some(before) = bench.take() else {
        return Err(AllocError)
    };
    let after = made_afresh(alloc, before, out)?;
    *bench = Some(after);
    Ok(())
}

// The bench with its array rebuilt. The planner starts over, since a restart forgets the order of writes and the log's end.
// The maps stay.
fn made_afresh(alloc: Global, bench: Bench, out: &mut Vec<u8>) -> Result<Bench, AllocError>
    ensures carried { IfOk result (λ after. Carries bench after o.Restart out.old.items out.new.items) }
    ensures kept { IsPrefix out.old.items out.new.items }
{
    let Bench { mut tiers, maps } = bench;
    // Before the world is taken apart, so that after a fault nothing has changed.
    let map = match tiers.scan(alloc) {
        Ok(map) => map,
        Err(fault) => {
            put_fault(out, &fault)?;
            return Ok(Bench { tiers, maps });
        }
    };
    let Ok(world) = tiers.into_world().restarted(alloc, map) else {
        return Err(AllocError)
    };
    let count = world.array().record_count();
    put_numbered(out, b"restarted ", count as u64)?;
    let tiers = Tiers::new(alloc, world)?;
    Ok(Bench { tiers, maps })
}
