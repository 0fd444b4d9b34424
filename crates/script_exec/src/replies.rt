//! A line that is read for its words, and the reply to it.
ghost use Rattle.std.specs.Prelude.{◌≡◌, ◌≤◌, length, Some, None};
ghost use Rattle.script_exec.specs.State.{State};
ghost use Rattle.script_exec.specs.Carrying.{MatchesState, MakesBench};
ghost use Rattle.script_exec.specs.Replies.{Replies, Starts};
ghost use Rattle.script_exec.specs.Prefix.{IsPrefix};
ghost use Rattle.script_syntax.specs.Order as o;

use crate::bench::Bench;
use crate::carry::{carry_out, is_in_range};
use crate::limits::array_in_range;
use crate::scans::restart;
use crate::texts::put;
use crate::why::{Failure, Why};
use script_syntax::{Command, Verb, read_command};
use std::alloc::Global;
use step_core::World;
use tiered_array::Tiers;

/// Appends the answer to a line's command: the first one makes the array, and every later one is for the array or the maps.
/// `payload` is a buffer for a payload that the line spells or that is read from a block.
pub fn reply(
    alloc: Global,
    bench: &mut Option<Bench>,
    payload: &mut [u8],
    line: &[u8],
    out: &mut Vec<u8>,
) -> Result<(), Failure>
    requires { 65536 ≤ length payload.old }
    ensures replied { (state : State) → MatchesState bench.old state →
        Replies result state bench.new line.now out.old.items out.new.items }
    ensures kept { IsPrefix out.old.items out.new.items }
{
    let Some(standing) = bench else {
        return start(alloc, bench, line, out);
    };
    let shape = standing.tiers.world().array().shape();
    // Exactly a payload of the array, so that a longer or shorter one is no command.
    let payload = &mut payload[..shape.payload as usize];
    let mut command = Command::new(alloc);
    if !read_command(alloc, line, payload, &mut command)? {
        return Err(Failure::Wrong(Why::Form));
    }
    // Before the range: `form` comes before it, also for an `array` with numbers out of range.
    if let Verb::Array = command.verb {
        return Err(Failure::Wrong(Why::Form));
    }
    if !is_in_range(&command, shape.blocks) {
        return Err(Failure::Wrong(Why::Range));
    }
    if let Verb::Restart = command.verb {
        return Ok(restart(alloc, bench, out)?);
    }
    Ok(carry_out(alloc, standing, payload, &command, out)?)
}

// The reply where there is no array yet. Kept out of line, since its frame has room for a bench.
#[inline(never)]
fn start(
    alloc: Global,
    bench: &mut Option<Bench>,
    line: &[u8],
    out: &mut Vec<u8>,
) -> Result<(), Failure>
    requires { bench.old ≡ None }
    ensures replied { (state : State) → MatchesState bench.old state →
        Replies result state bench.new line.now out.old.items out.new.items }
    ensures kept { IsPrefix out.old.items out.new.items }
{
    let made = first(alloc, line, out)?;
    *bench = Some(made);
    Ok(())
}

// The first command makes the array.
fn first(alloc: Global, line: &[u8], out: &mut Vec<u8>) -> Result<Bench, Failure>
    ensures replied { Starts result line.now out.old.items out.new.items }
    ensures kept { IsPrefix out.old.items out.new.items }
{
    let mut command = Command::new(alloc);
    // No buffer for a payload: only `array` may come here, and it has none.
    if !read_command(alloc, line, &mut [], &mut command)? {
        return Err(Failure::Wrong(Why::Form));
    }
    match command.verb {
        Verb::Array => {
            let [drives, extents, segments, payload, blocks] = command.numbers;
            begin(alloc, drives, extents, segments, payload, blocks, out)
        }
        _ => Err(Failure::Wrong(Why::Form)),
    }
}

// A new array with these sizes.
fn begin(
    alloc: Global,
    drives: u64,
    extents: u64,
    segments: u64,
    payload: u64,
    blocks: u64,
    out: &mut Vec<u8>,
) -> Result<Bench, Failure>
    ensures replied { MakesBench result (o.Array drives extents segments payload blocks) out.old.items out.new.items }
    ensures kept { IsPrefix out.old.items out.new.items }
{
    let Some((drives, shape)) = array_in_range(drives, extents, segments, payload, blocks) else {
        return Err(Failure::Wrong(Why::Range));
    };
    put(out, b"array")?;
    let Ok(world) = World::new(alloc, shape, drives) else {
        return Err(Failure::Memory)
    };
    let tiers = Tiers::new(alloc, world)?;
    Ok(Bench::new(alloc, tiers))
}
