// The handshake: until the client asks for the export, or goes.
ghost use Rattle.std.specs.Prelude.{◌≡◌, ◌++◌, ◌≤◌, length, IfOk, IfErr, Ok, Err, Some, None};
ghost use Rattle.nbd_wire.specs.Options.{greeting};
ghost use Rattle.nbd_serve.specs.Halts.{end_of, ended};
ghost use Rattle.nbd_serve.specs.Handshaking.{Handshakes, IsGreeted, IsTurnTaken, Negotiates, OptionSteps, StopsOpening, StopsTaking};

use crate::calls::{fill, skip, write_out};
use crate::halt::Halt;
use crate::options::{Next, answer, answer_long};
use nbd_wire::{
    CLIENT_FLAGS_LEN, Export, OPTION_HEAD_LEN, OptionHead, no_zeroes_of, put_greeting,
    read_option_head,
};
use std::alloc::Global;
use std::io::{Read, Write};

/// The most bytes of data that an option may have.
const MOST_DATA: u32 = 4096;

/// The most options of a client.
const MOST_OPTIONS: u32 = 1000;

// Greets the client and reads its flags. Returns whether it takes no zeroes after an export's size.
fn open<R: Read, W: Write>(reader: &mut R, writer: &mut W, out: &mut Vec<u8>) -> Result<bool, Halt>
    ensures ok { IfOk result (λ no_zeroes. IsGreeted no_zeroes (R.remaining reader.old) (R.remaining reader.new)
        (W.contents writer.old) (W.contents writer.new)) }
    ensures err { IfErr result (λ last. StopsOpening (end_of last) (R.remaining reader.old) (R.remaining reader.new)
        (W.contents writer.old) (W.contents writer.new)) }
{
    out.clear();
    if put_greeting(out).is_err() {
        return Err(Halt::Memory);
    }
    if let Err(broke) = write_out(writer, out) {
        return Err(Halt::WriteBroke(broke));
    }
    let mut flags = [0u8; CLIENT_FLAGS_LEN];
    if let Err(short) = fill(reader, &mut flags) {
        return Err(short.halt());
    }
    match no_zeroes_of(&flags) {
        Some(no_zeroes) => Ok(no_zeroes),
        None => Err(Halt::Garbage),
    }
}

// Reads the data of an option, and appends the reply.
fn take<R: Read>(
    reader: &mut R,
    option: &OptionHead,
    export: &Export,
    no_zeroes: bool,
    buffer: &mut [u8],
    out: &mut Vec<u8>,
) -> Result<Next, Halt>
    requires room { length buffer.old ≡ 4096 }
    ensures ok { IfOk result (λ next. IsTurnTaken next export.now no_zeroes option.now (R.remaining reader.old) (R.remaining reader.new)
        out.old.items out.new.items) }
    ensures err { IfErr result (λ last. StopsTaking (end_of last) option.now (R.remaining reader.old) (R.remaining reader.new)) }
{
    if option.length > MOST_DATA {
        if let Err(short) = skip(reader, option.length) {
            return Err(short.halt());
        }
        return match answer_long(option, out) {
            Ok(next) => Ok(next),
            Err(_) => Err(Halt::Memory),
        };
    }
    let data = &mut buffer[..option.length as usize];
    if let Err(short) = fill(reader, data) {
        return Err(short.halt());
    }
    match answer(option, data, export, no_zeroes, out) {
        Ok(next) => Ok(next),
        Err(_) => Err(Halt::Memory),
    }
}

// Reads an option and answers it. Returns what the handshake ends with, if it does.
fn option<R: Read, W: Write>(
    reader: &mut R,
    writer: &mut W,
    export: &Export,
    no_zeroes: bool,
    buffer: &mut [u8],
    out: &mut Vec<u8>,
) -> Option<Result<(), Halt>>
    requires room { length buffer.old ≡ 4096 }
    ensures { OptionSteps result export.now no_zeroes (R.remaining reader.old) (R.remaining reader.new)
        (W.contents writer.old) (W.contents writer.new) }
{
    let mut head = [0u8; OPTION_HEAD_LEN];
    if let Err(short) = fill(reader, &mut head) {
        return Some(Err(short.halt()));
    }
    let Some(asked) = read_option_head(&head) else {
        return Some(Err(Halt::Garbage));
    };
    out.clear();
    let next = match take(reader, &asked, export, no_zeroes, buffer, out) {
        Ok(next) => next,
        Err(halt) => return Some(Err(halt)),
    };
    if let Err(broke) = write_out(writer, out) {
        return Some(Err(Halt::WriteBroke(broke)));
    }
    match next {
        Next::More => None,
        Next::Go => Some(Ok(())),
        Next::Abort => Some(Err(Halt::Aborted)),
        Next::HangUp => Some(Err(Halt::Garbage)),
    }
}

// Answers options until the client asks for the export, or the session ends.
fn negotiate<R: Read, W: Write>(
    reader: &mut R,
    writer: &mut W,
    export: &Export,
    no_zeroes: bool,
    buffer: &mut [u8],
    out: &mut Vec<u8>,
) -> Result<(), Halt>
    requires room { length buffer.old ≡ 4096 }
    ensures { Negotiates (ended result) export.now no_zeroes (R.remaining reader.old) (R.remaining reader.new)
        (W.contents writer.old) (W.contents writer.new) }
{
    for taken in 0..MOST_OPTIONS {
        if let Some(done) = option(reader, writer, export, no_zeroes, buffer, out) {
            return done;
        }
    }
    Err(Halt::Limit)
}

/// Agrees with a client on the export, which has every name.
pub(crate) fn agree<R: Read, W: Write>(
    alloc: Global,
    reader: &mut R,
    writer: &mut W,
    export: &Export,
) -> Result<(), Halt>
    ensures { Handshakes (ended result) export.now (R.remaining reader.old) (R.remaining reader.new) (W.contents writer.old) (W.contents writer.new) }
{
    let mut out = Vec::new(alloc);
    match open(reader, writer, &mut out) {
        Ok(no_zeroes) => {
            let mut buffer = [0u8; MOST_DATA as usize];
            negotiate(reader, writer, export, no_zeroes, &mut buffer, &mut out)
        }
        Err(halt) => Err(halt),
    }
}
