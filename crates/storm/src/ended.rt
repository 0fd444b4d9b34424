// The status that a storm ends with.
ghost use Rattle.std.specs.Prelude.{◌≡◌};
ghost use Rattle.storm.specs.Ended.{IsReportedEnd, storm_status};

use crate::outcome::{Storm, StormFault};
use crate::reported::{Reported, report_storm};
use std::io::Write;

/// Writes the line that a storm ends with, and returns the status to end with.
pub fn end_storm<W: Write>(writer: &mut W, ended: Result<Storm, StormFault>) -> u8
    ensures { IsReportedEnd ended result (W.contents writer.old) (W.contents writer.new) }
{
    report_storm(writer, ended).status()
}

impl Reported {
    /// The status to end with, once a storm's line was written: 0 where the maps agree, 3 where they differ, 4 where the
    /// storm ended with a fault, and 5 where its line couldn't be written.
    pub fn status(self) -> u8
        ensures { result ≡ storm_status self }
    {
        match self {
            Reported::Agreed => 0,
            Reported::Differs => 3,
            Reported::Nothing => 4,
            Reported::Unwritten => 5,
        }
    }
}
