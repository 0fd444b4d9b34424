// The line that reports how a storm ended.
ghost use Rattle.std.specs.Prelude.{◌++◌, codes, OnOk};
ghost use Rattle.std.specs.Io.KnownBytes.{Appends};
ghost use Rattle.storm.specs.Telling.{IsReported, IsReportedOrNot};

use crate::outcome::{Storm, StormFault};
use itoa::Buffer;
use std::io;
use std::io::Write;

/// What was written of a storm.
#[derive(Clone, Copy, Debug, PartialEq, Eq)]
pub enum Reported {
    /// That the maps agree.
    Agreed,
    /// At which block they differ.
    Differs,
    /// Nothing, since the storm ended with a fault.
    Nothing,
    /// The line couldn't be written, or not whole.
    Unwritten,
}

/// Writes the line that a storm ends with: `agreed`, or `differs` with the lowest block of which the maps differ. Writes
/// nothing where the storm ended with a fault.
pub fn report_storm<W: Write>(writer: &mut W, ended: Result<Storm, StormFault>) -> Reported
    ensures { IsReported ended result (W.contents writer.old) (W.contents writer.new) }
{
    match ended {
        Ok(Storm::Agreed(_)) => reported_or_not(writer.write_all(b"agreed\n"), Reported::Agreed),
        Ok(Storm::Differs(block)) => {
            let mut digits = Buffer::new();
            reported_or_not(differs(writer, digits.format(block)), Reported::Differs)
        }
        Err(_) => Reported::Nothing,
    }
}

// Writes that maps differ at the block of these digits.
fn differs<W: Write>(writer: &mut W, digits: &str) -> io::Result<()>
    ensures { OnOk result (Appends (W.contents writer.old) (W.contents writer.new) (codes "differs " ++ (digits.now ++ codes "\n"))) }
{
    writer.write_all(b"differs ")?;
    writer.write_all(digits.as_bytes())?;
    writer.write_all(b"\n")
}

// What was written, unless the write failed.
fn reported_or_not(line: io::Result<()>, reported: Reported) -> Reported
    ensures { IsReportedOrNot line reported result }
{
    match line {
        Ok(()) => reported,
        Err(_) => Reported::Unwritten,
    }
}
