// A script from bytes to bytes.
ghost use Rattle.std.specs.Prelude.{◌≡◌, []};
ghost use Rattle.raid_c.specs.Status.{Returns};
ghost use Rattle.raid_c.specs.Scripts.{AnswersScript, HasRun};

use crate::bytes::put_out;
use crate::status::Status;
use script_io::{End, run_script};
use std::alloc::Global;

// Appends the answers to a script to an empty text.
fn answer(alloc: Global, script: &[u8], text: &mut Vec<u8>) -> End
    requires { text.old.items ≡ [] }
    ensures { HasRun result script.now text.new.items }
{
    let mut reader = script;
    run_script(alloc, &mut reader, text)
}

/// Runs a script on an array in memory that ends with the call. Writes its answers, a line each, to the start of a buffer, and
/// counts the bytes. Fault if a line is wrong: the buffer then has the answers before it and its fault. Room if the buffer is
/// too short: the count is then the number of bytes needed. Memory if out of memory: the count is then 0. Room and Memory leave
/// the buffer unchanged.
#[unsafe(no_mangle)]
pub extern "C" fn behkuna_run_script(
    alloc: Global,
    script: &[u8],
    answers: &mut [u8],
    count: &mut usize,
) -> u32
    ensures { Returns result (λ status. AnswersScript status script.now answers.old answers.new count.new) }
{
    *count = 0;
    // Into memory first: whether the answers fit is known only at the end, and Room leaves the buffer.
    let mut text = Vec::new(alloc);
    match answer(alloc, script, &mut text) {
        End::Whole => put_out(&text, answers, count).number(),
        End::Fault => match put_out(&text, answers, count) {
            Status::Done => Status::Fault.number(),
            // Room hides the fault, which isn't in the buffer.
            status => status.number(),
        },
        // A reader of bytes doesn't fail, and a writer into memory fails only if out of memory.
        End::Memory | End::ReadFault | End::WriteFault => Status::Memory.number(),
    }
}
