//! A line as a command.
ghost use Rattle.std.specs.Prelude.{length, IfOk};
ghost use Rattle.script_syntax.specs.Parts.{text_of};
ghost use Rattle.script_syntax.specs.Words.{words_left};
ghost use Rattle.script_syntax.specs.Reading.{Finds, ParsesLine};

use crate::command::Command;
use crate::member::class_and_members;
use crate::parts::{SPACE, cut};
use crate::payload::put_payload;
use crate::record::last_record;
use crate::verb::{Tail, Verb, verb_of};
use crate::words::{is_end, next_numbers};
use std::alloc::{AllocError, Global};

/// Parses a line into `command`, and a payload, which must be as long as the buffer, into `payload`. Returns whether the line
/// spells a command. If not, both may have parts of it.
pub fn read_command(
    alloc: Global,
    line: &[u8],
    payload: &mut [u8],
    command: &mut Command,
) -> Result<bool, AllocError>
    ensures { IfOk result (ParsesLine (length payload.old) line.now payload.new «command».new) }
{
    let (word, rest) = cut(line, SPACE);
    let Some(verb) = verb_of(word) else {
        return Ok(false)
    };
    follow(alloc, verb, rest, payload, command)
}

// Whether the words after the verb make it a command, which is then in `command` and `payload`.
fn follow(
    alloc: Global,
    verb: Verb,
    words: Option<&[u8]>,
    payload: &mut [u8],
    command: &mut Command,
) -> Result<bool, AllocError>
    ensures { IfOk result (Finds verb (length payload.old) (words_left (text_of words.entry)) payload.new «command».new) }
{
    let row = verb.row();
    let Some(rest) = next_numbers(&mut command.numbers, row.kinds.len(), words) else {
        return Ok(false)
    };
    command.verb = verb;
    match row.tail {
        Tail::Nothing => Ok(is_end(rest)),
        Tail::Record => match last_record(rest) {
            Some(record) => {
                command.record = record;
                Ok(true)
            }
            None => Ok(false),
        },
        Tail::Payload => Ok(put_payload(rest, payload)),
        Tail::Members => match class_and_members(alloc, rest)? {
            Some((class, members)) => {
                command.class = class;
                command.members = members;
                Ok(true)
            }
            None => Ok(false),
        },
    }
}
