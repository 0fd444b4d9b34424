//! A script from a reader to a writer.
ghost use Rattle.std.specs.Prelude.{◌≡◌, [], length, IfSome, IfOk};
ghost use Rattle.script_exec.specs.State.{State};
ghost use Rattle.script_exec.specs.Carrying.{MatchesState};
ghost use Rattle.script_io.specs.Feeding.{Closes, IsScript};
ghost use Rattle.script_io.specs.declared.script.Script.{Script};
ghost use Rattle.script_io.specs.Turns.{Concludes, SaysBy, end_of};

use crate::calls::{read_some, write_out};
use crate::end::End;
use crate::halt::Halt;
use crate::script::Script;
use crate::stop::Stop;
use script_exec::Bench;
use std::alloc::{AllocError, Global};
use std::io::{Read, Write};

/// How many bytes are read at once.
const CHUNK: usize = 65_536;

/// The longest payload. The buffer is allocated before the first line, which says how long payloads are.
const LONGEST_PAYLOAD: usize = 65_536;

/// Reads a script and writes its answers. The answers to all whole lines that were read are written before the next read. So a
/// client that waits for an answer before its next line gets it.
pub fn run_script<R: Read, W: Write>(alloc: Global, reader: &mut R, writer: &mut W) -> End
    ensures { IfSome (R.remaining reader.old) (λ script.
        SaysBy result script (R.remaining reader.new) (W.contents writer.old) (W.contents writer.new)) }
{
    let (end, _bench) = run_and_leave(alloc, reader, writer);
    end
}

/// Runs a script as `run_script` does, and returns the array that it leaves; none where it made none.
pub fn run_and_leave<R: Read, W: Write>(
    alloc: Global,
    reader: &mut R,
    writer: &mut W,
) -> (End, Option<Bench>)
    ensures { IfSome (R.remaining reader.old) (λ script.
        SaysBy result.0 script (R.remaining reader.new) (W.contents writer.old) (W.contents writer.new)) }
{
    let Ok(mut chunk) = zeros(alloc, CHUNK) else {
        return (End::Memory, None);
    };
    let Ok(payload) = zeros(alloc, LONGEST_PAYLOAD) else {
        return (End::Memory, None);
    };
    let chunk: &mut [u8] = &mut chunk;
    let mut script = Script::new(alloc, payload);
    // Turns: read a chunk, answer the lines that end in it, and write the answers.
    loop {
        match read_some(reader, chunk) {
            // No bytes are the end of the input: a chunk isn't empty.
            Ok(0) => {
                let halt = close(alloc, writer, &mut script);
                return left_by(halt, script);
            }
            Ok(count) => {
                let fed = script.feed(alloc, &chunk[..count]);
                // Also before a fault or Memory: the answers of earlier lines are whole. A failed write hides both.
                match write_out(writer, &script.out) {
                    Ok(()) => {}
                    Err(broke) => return left_by(Halt::WriteBroke(broke), script),
                }
                match fed {
                    Ok(()) => script.out.clear(),
                    Err(Stop::Fault) => return left_by(Halt::Fault, script),
                    Err(Stop::Memory) => return left_by(Halt::Memory, script),
                }
            }
            Err(broke) => return left_by(Halt::ReadBroke(broke), script),
        }
    }
}

// How a script ended, and the array that it leaves.
fn left_by(halt: Halt, script: Script) -> (End, Option<Bench>)
    ensures { result.0 ≡ end_of halt }
{
    let Script { bench, .. } = script;
    (halt.end(), bench)
}

// Answers the line that is open at the end of the input, if there is one, and writes the answer. A failed write hides a fault
// or Memory: it is what the script then ends by.
fn close<W: Write>(alloc: Global, writer: &mut W, script: &mut Script) -> Halt
    requires good { IsScript script.old }
    requires written { script.old.out.items ≡ [] }
    ensures { (state : State) → MatchesState script.old.bench state →
        Concludes result script.old state [] (W.contents writer.old) (W.contents writer.new) }
{
    if script.line.is_empty() {
        return conclude(writer, script, Ok(()));
    }
    let finished = script.answer_open(alloc);
    conclude(writer, script, finished)
}

// Writes what the last line's answer made of a script, and says how that ends.
fn conclude<W: Write>(writer: &mut W, script: &Script, finished: Result<(), Stop>) -> Halt
    ensures { (old : Script) (state : State) → old.out.items ≡ [] → Closes finished old state script.now →
        Concludes result old state [] (W.contents writer.old) (W.contents writer.new) }
{
    match write_out(writer, &script.out) {
        Ok(()) => {}
        Err(broke) => return Halt::WriteBroke(broke),
    }
    match finished {
        Ok(()) => Halt::Whole,
        Err(Stop::Fault) => Halt::Fault,
        Err(Stop::Memory) => Halt::Memory,
    }
}

// A buffer of `size` zeros.
fn zeros(alloc: Global, size: usize) -> Result<Vec<u8>, AllocError>
    ensures { IfOk result (λ zeros. length zeros.items ≡ size) }
{
    vec![in alloc; 0u8; size]
}
