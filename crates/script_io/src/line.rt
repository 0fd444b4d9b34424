//! One line: skipped, answered or reported as a fault.
ghost use Rattle.std.specs.Prelude.{◌≡◌, ◌≤◌, ◌++◌, ◌∷◌, [], OnOk, length};
ghost use Rattle.script_exec.specs.State.{State};
ghost use Rattle.script_exec.specs.Meaning.{is_skipped as is_passed, fault_line, name_of};
ghost use Rattle.script_exec.specs.Carrying.{MatchesState};
ghost use Rattle.script_exec.specs.Prefix.{IsPrefix};
ghost use Rattle.script_io.specs.Feeding.{ReportsFault, LineComes};

use crate::stop::Stop;
use script_exec::{Bench, Failure, Why, put, put_number, reply};
use std::alloc::{AllocError, Global};

/// The most lines of a script.
pub const MOST_LINES: u64 = 1_000_000;

/// The most bytes of a line before its end: the 131,072 digits of the longest payload, and 128 bytes for the words before it.
pub const MOST_BYTES: usize = 131_200;

/// Appends the answer to a line, or its fault.
pub fn answer_line(
    alloc: Global,
    number: u64,
    bench: &mut Option<Bench>,
    payload: &mut [u8],
    line: &[u8],
    out: &mut Vec<u8>,
) -> Result<(), Stop>
    requires { 65536 ≤ length payload.old }
    ensures soon { OnOk result (number ≤ 1000000) }
    ensures short { OnOk result (length line.now ≤ 131200) }
    ensures reported { (state : State) → MatchesState bench.old state →
        LineComes result number state bench.new line.now out.old.items out.new.items }
    ensures kept { IsPrefix out.old.items out.new.items }
{
    // Both tests come before the skip, because comments and empty lines count too. `take_in` has tested an open line, but not
    // a line that lies in a chunk as a whole.
    if number > MOST_LINES {
        return wrong(out, number, Why::Many);
    }
    if line.len() > MOST_BYTES {
        return wrong(out, number, Why::Long);
    }
    if is_skipped(line) {
        return Ok(());
    }
    match reply(alloc, bench, payload, line, out) {
        Ok(()) => Ok(end_line(out)?),
        Err(Failure::Wrong(why)) => wrong(out, number, why),
        Err(Failure::Memory) => Err(Stop::Memory),
    }
}

/// Appends the line that reports a fault of line `number`. Kept out of line, since no line but the last one has a fault.
#[inline(never)]
pub fn wrong(out: &mut Vec<u8>, number: u64, why: Why) -> Result<(), Stop>
    ensures reported { ReportsFault result number why out.old.items out.new.items }
    ensures kept { IsPrefix out.old.items out.new.items }
{
    put_fault(out, number, why)?;
    Err(Stop::Fault)
}

// The line that reports a fault.
fn put_fault(out: &mut Vec<u8>, number: u64, why: Why) -> Result<(), AllocError>
    ensures reported { OnOk result (out.new.items ≡ out.old.items ++ fault_line number why) }
    ensures kept { IsPrefix out.old.items out.new.items }
{
    put(out, b"fault ")?;
    put_number(out, number)?;
    put(out, b" ")?;
    put(out, name_of(why))?;
    put(out, b"\n")
}

// The name of a fault.
fn name_of(why: Why) -> &'static [u8]
    ensures { result.now ≡ name_of why }
{
    match why {
        Why::Many => b"many",
        Why::Long => b"long",
        Why::Form => b"form",
        Why::Range => b"range",
    }
}

// The end of an answer.
fn end_line(out: &mut Vec<u8>) -> Result<(), AllocError>
    ensures reported { OnOk result (out.new.items ≡ out.old.items ++ 10 ∷ []) }
    ensures kept { IsPrefix out.old.items out.new.items }
{
    Ok(out.push(b'\n')?)
}

// Whether the line is skipped.
fn is_skipped(line: &[u8]) -> bool
    ensures { result ≡ is_passed line.now }
{
    match line.first() {
        None => true,
        Some(byte) => *byte == b'#',
    }
}
