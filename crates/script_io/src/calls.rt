//! The calls of a reader and a writer. The values that report a failed call can be made only here, so that no script ends with
//! such a value unless a call failed.
ghost use Rattle.std.specs.Prelude.{OnOk, OnErr};
ghost use Rattle.std.specs.Io.{ReadsAtMost};
ghost use Rattle.std.specs.Io.KnownBytes.{Appends, ReadConsumes};
ghost use Rattle.script_io.specs.Turns.{IsPartWritten};

use std::io::{Read, Write};

/// A call of `read` returned an error.
#[derive(Drop)]
pub struct ReadBroke(());

/// A call of `write` returned an error, or accepted no byte.
#[derive(Drop)]
pub struct WriteBroke(());

/// Reads bytes into the front of the buffer. A failed read is not retried.
pub fn read_some<R: Read>(reader: &mut R, buffer: &mut [u8]) -> Result<usize, ReadBroke>
    ensures bound { ReadsAtMost result buffer.new }
    ensures bytes { ReadConsumes (R.remaining reader.old) (R.remaining reader.new) result buffer.new }
{
    match reader.read(buffer) {
        Ok(count) => Ok(count),
        Err(_) => Err(ReadBroke(())),
    }
}

/// Writes all the bytes. A write that fails or accepts no byte is not retried.
pub fn write_out<W: Write>(writer: &mut W, bytes: &[u8]) -> Result<(), WriteBroke>
    ensures whole { OnOk result (Appends (W.contents writer.old) (W.contents writer.new) bytes.now) }
    ensures part { OnErr result (IsPartWritten (W.contents writer.old) (W.contents writer.new) bytes.now) }
{
    let mut rest = bytes;
    while !rest.is_empty() {
        match writer.write(rest) {
            // Else a writer that accepts nothing would be called for ever.
            Ok(0) => return Err(WriteBroke(())),
            Ok(count) => rest = &rest[count..],
            Err(_) => return Err(WriteBroke(())),
        }
    }
    Ok(())
}
