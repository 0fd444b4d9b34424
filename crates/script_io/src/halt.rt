//! Why no more of a script is read.
ghost use Rattle.std.specs.Prelude.{◌≡◌};
ghost use Rattle.script_io.specs.Turns.{end_of};

use crate::calls::{ReadBroke, WriteBroke};
use crate::end::End;

/// Why no more of a script is read. The variant for a failed call holds a value that only that call can make. `run_and_leave`
/// makes it by its turns: `Whole` after the last line, `Fault` and `Memory` of a `Stop`, `ReadBroke` by `read_some`,
/// `WriteBroke` by `write_out`.
#[derive(Drop)]
pub enum Halt {
    Whole,
    Fault,
    Memory,
    ReadBroke(ReadBroke),
    WriteBroke(WriteBroke),
}

impl Halt {
    /// How a script that is halted for this reason ends.
    pub fn end(self) -> End
        ensures { result ≡ end_of self }
    {
        match self {
            Halt::Whole => End::Whole,
            Halt::Fault => End::Fault,
            Halt::Memory => End::Memory,
            Halt::ReadBroke(_) => End::ReadFault,
            Halt::WriteBroke(_) => End::WriteFault,
        }
    }
}
