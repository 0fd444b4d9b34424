// The calls of a reader and a writer.
ghost use Rattle.std.specs.Prelude.{◌≡◌, ℕ, length, OnOk, OnErr, IfErr};
ghost use Rattle.std.specs.Io.KnownBytes.{Appends, Consumes};
ghost use Rattle.nbd_serve.specs.Halts.{end_of};
ghost use Rattle.nbd_serve.specs.Streams.{IsPartWritten, IsShort, Skips, end_by};

use crate::halt::Halt;
use std::io::{Read, Write};

/// Bytes that are read at once where they are thrown away.
const SKIPPED: usize = 4096;

/// A read returned an error. Only this file makes such a value.
#[derive(Drop)]
pub(crate) struct ReadBroke(());

/// Why fewer bytes were read than were wanted.
#[derive(Drop)]
pub(crate) enum Short {
    /// The input ended.
    Ended,
    /// A read returned an error. It is not retried.
    Failed(ReadBroke),
}

impl Short {
    /// What it halts a session with.
    pub(crate) fn halt(self) -> Halt
        ensures { end_of result ≡ end_by self }
    {
        match self {
            Short::Ended => Halt::Cut,
            Short::Failed(broke) => Halt::ReadBroke(broke),
        }
    }
}

/// Fills the buffer.
pub(crate) fn fill<R: Read>(reader: &mut R, buffer: &mut [u8]) -> Result<(), Short>
    ensures whole { OnOk result (Consumes (R.remaining reader.old) (R.remaining reader.new) buffer.new) }
    ensures part { IfErr result (λ short. IsShort (end_by short) (R.remaining reader.old) (R.remaining reader.new) (length buffer.old)) }
{
    let mut done = 0;
    while done < buffer.len() {
        match reader.read(&mut buffer[done..]) {
            Ok(0) => return Err(Short::Ended),
            Ok(count) => done += count,
            Err(_) => return Err(Short::Failed(ReadBroke(()))),
        }
    }
    Ok(())
}

/// Reads `count` bytes and throws them away.
pub(crate) fn skip<R: Read>(reader: &mut R, count: u32) -> Result<(), Short>
    ensures whole { OnOk result (Skips (R.remaining reader.old) (R.remaining reader.new) count) }
    ensures part { IfErr result (λ short. IsShort (end_by short) (R.remaining reader.old) (R.remaining reader.new) count) }
{
    let mut scratch = [0u8; SKIPPED];
    let count = count as usize;
    let mut done = 0;
    while done < count {
        let size = (count - done).min(SKIPPED);
        match fill(reader, &mut scratch[..size]) {
            Ok(()) => done += size,
            Err(short) => return Err(short),
        }
    }
    Ok(())
}

/// A write returned an error, or accepted no byte. Only this file makes such a value.
#[derive(Drop)]
pub(crate) struct WriteBroke(());

/// Writes all the bytes. A write that fails or accepts no byte is not retried.
pub(crate) fn write_out<W: Write>(writer: &mut W, bytes: &[u8]) -> Result<(), WriteBroke>
    ensures whole { OnOk result (Appends (W.contents writer.old) (W.contents writer.new) bytes.now) }
    ensures part { OnErr result (IsPartWritten (W.contents writer.old) (W.contents writer.new) bytes.now) }
{
    let mut rest = bytes;
    while !rest.is_empty() {
        match writer.write(rest) {
            Ok(0) => return Err(WriteBroke(())),
            Ok(count) => rest = &rest[count..],
            Err(_) => return Err(WriteBroke(())),
        }
    }
    Ok(())
}
