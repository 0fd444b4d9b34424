//! What is wrong with a script.
use crate::blame::{Blame, Sizes, blame_form, blame_range};
use crate::tasks::{FINE, WRONG, say};
use crate::trouble::Trouble;
use script_exec::{put, put_number};
use script_io::{End, run_script};
use script_syntax::{Command, Verb, number_of, read_command};
use std::alloc::{AllocError, Global};
use std::io::{self, Read, Write};

/// How many of the last bytes that were written are kept: more than the line of a fault has.
const TAIL: usize = 64;

/// A writer that keeps the last bytes of its last write. The answers aren't needed: only the line of the fault is, which comes
/// last.
#[derive(Drop)]
struct Tail {
    kept: Vec<u8>,
}

impl Write for Tail {
    fn write(&mut self, buf: &[u8]) -> io::Result<usize> {
        let start = buf.len().saturating_sub(TAIL);
        self.kept.clear();
        self.kept.extend_from_slice(&buf[start..])?;
        Ok(buf.len())
    }

    fn flush(&mut self) -> io::Result<()> {
        Ok(())
    }
}

/// The kind of a fault, as a script's answer names it.
#[derive(Clone, Copy)]
enum Why {
    Many,
    Long,
    Form,
    Range,
}

fn why_of(word: &[u8]) -> Option<Why> {
    match word {
        b"many" => Some(Why::Many),
        b"long" => Some(Why::Long),
        b"form" => Some(Why::Form),
        b"range" => Some(Why::Range),
        _ => None,
    }
}

// The line number and the kind in the last line, if it is that of a fault.
fn fault_in(tail: &[u8]) -> Option<(u64, Why)> {
    let text = tail.strip_suffix(b"\n".as_slice())?;
    let line = text.rsplit(|byte| *byte == b'\n').next()?;
    let rest = line.strip_prefix(b"fault ".as_slice())?;
    let at = rest.iter().position(|byte| *byte == b' ')?;
    Some((number_of(&rest[..at])?, why_of(&rest[at + 1..])?))
}

// The sizes of the array that a line makes, if it makes one.
fn sizes_in(alloc: Global, line: &[u8]) -> Result<Option<Sizes>, AllocError> {
    let mut command = Command::new(alloc);
    if !read_command(alloc, line, &mut [], &mut command)? {
        return Ok(None);
    }
    let [_drives, _extents, _segments, payload, blocks] = command.numbers;
    match command.verb {
        Verb::Array => Ok(Some(Sizes { payload, blocks })),
        _ => Ok(None),
    }
}

// The line of a number, from 1, and the sizes of the array that was made before it, if one was.
fn line_at(
    alloc: Global,
    script: &[u8],
    number: u64,
) -> Result<Option<(&[u8], Option<Sizes>)>, AllocError> {
    let mut sizes = None;
    let mut at = 0u64;
    for line in script.split(|byte| *byte == b'\n') {
        at = at.saturating_add(1);
        if at == number {
            return Ok(Some((line, sizes)));
        }
        if sizes.is_none() {
            sizes = sizes_in(alloc, line)?;
        }
    }
    Ok(None)
}

// Appends what is wrong with a line.
fn put_blame(
    alloc: Global,
    out: &mut Vec<u8>,
    script: &[u8],
    number: u64,
    why: Why,
) -> Result<(), AllocError> {
    put(out, b"line ")?;
    put_number(out, number)?;
    let blame = match (line_at(alloc, script, number)?, why) {
        (_, Why::Many) => return put(out, b": a script has at most 1,000,000 lines\n"),
        (_, Why::Long) => return put(out, b": a line has at most 131,200 bytes\n"),
        (Some((line, sizes)), Why::Form) => blame_form(alloc, line, &sizes)?,
        (Some((line, sizes)), Why::Range) => blame_range(alloc, line, &sizes)?,
        (None, _) => return put(out, b"\n"),
    };
    put_words(out, &blame)
}

// Appends the word that is blamed, and what was expected.
fn put_words(out: &mut Vec<u8>, blame: &Blame<'_>) -> Result<(), AllocError> {
    put(out, b", word ")?;
    put_number(out, blame.number as u64)?;
    if let Some(word) = blame.word {
        put(out, b" `")?;
        put_shown(out, word)?;
        put(out, b"`")?;
    }
    put(out, b": expected ")?;
    blame.expected.put_text(out)?;
    if blame.word.is_none() {
        put(out, b", and the line ends")?;
    }
    put(out, b"\n")
}

/// The most bytes of a word that are shown.
const SHOWN: usize = 40;

// Appends a word as it can be printed, other bytes by their numbers, so that a tab or a carriage return is seen.
fn put_shown(out: &mut Vec<u8>, word: &[u8]) -> Result<(), AllocError> {
    for byte in word.iter().take(SHOWN) {
        match *byte {
            b'\r' => put(out, b"\\r")?,
            b'\t' => put(out, b"\\t")?,
            b' '..=b'~' => put(out, &[*byte])?,
            _ => {
                put(out, b"\\")?;
                put_number(out, u64::from(*byte))?;
            }
        }
    }
    if word.len() > SHOWN {
        put(out, b"..")?;
    }
    Ok(())
}

// All of standard input.
fn input_of(rt: &HostRuntime) -> Result<Vec<u8>, Trouble> {
    let mut script = Vec::new(rt.alloc());
    match rt.stdin().read_to_end(&mut script) {
        Ok(_count) => Ok(script),
        Err(error) => match error.kind() {
            io::ErrorKind::OutOfMemory => Err(Trouble::Memory),
            _ => Err(Trouble::Input(error)),
        },
    }
}

/// Runs the script on standard input as `raid_bench` does, and says of its first fault which line and which word it is, and what
/// was expected there.
pub(crate) fn explain(rt: &HostRuntime) -> Result<u8, Trouble> {
    let script = input_of(rt)?;
    let mut tail = Tail {
        kept: Vec::new(rt.alloc()),
    };
    let mut reader: &[u8] = &script;
    let end = run_script(rt.alloc(), &mut reader, &mut tail);
    let fault = match end {
        End::Fault => fault_in(&tail.kept),
        End::Whole => None,
        // A reader of bytes doesn't fail, and the writer fails only if out of memory.
        _ => return Err(Trouble::Memory),
    };
    let Some((number, why)) = fault else {
        say(rt, b"no fault\n")?;
        return Ok(FINE);
    };
    let mut out = Vec::new(rt.alloc());
    put_blame(rt.alloc(), &mut out, &script, number, why)?;
    say(rt, &out)?;
    Ok(WRONG)
}
