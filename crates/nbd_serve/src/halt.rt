// Why a session ends.
ghost use Rattle.std.specs.Prelude.{◌≡◌};
ghost use Rattle.nbd_serve.specs.Halts.{end_of};

use crate::calls::{ReadBroke, WriteBroke};
use crate::end::End;

/// Why a session ends. The variant for a failed call holds a value that only that call can make.
#[derive(Drop)]
pub(crate) enum Halt {
    Disconnected,
    Aborted,
    Cut,
    Garbage,
    Limit,
    Memory,
    ReadBroke(ReadBroke),
    WriteBroke(WriteBroke),
}

impl Halt {
    /// How a session ends for this reason.
    pub(crate) fn end(self) -> End
        ensures { result ≡ end_of self }
    {
        match self {
            Halt::Disconnected => End::Disconnected,
            Halt::Aborted => End::Aborted,
            Halt::Cut => End::Cut,
            Halt::Garbage => End::Garbage,
            Halt::Limit => End::Limit,
            Halt::Memory => End::Memory,
            Halt::ReadBroke(_) => End::ReadFault,
            Halt::WriteBroke(_) => End::WriteFault,
        }
    }
}
