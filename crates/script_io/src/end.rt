//! How a script ends.
ghost use Rattle.std.specs.Prelude.{◌≡◌};
ghost use Rattle.script_io.specs.Status.{status_of};

/// How a script ends. `run_script` and `run_and_leave` return it, by what halted the turns; `Memory` also where their buffers
/// can't be allocated. A reader's and a writer's failure are apart, although a program ends both with 5.
#[derive(Clone, Copy, Debug, PartialEq, Eq)]
pub enum End {
    /// Every line was answered.
    Whole,
    /// A line was wrong.
    Fault,
    /// Out of memory.
    Memory,
    /// A read returned an error.
    ReadFault,
    /// A write returned an error, or accepted no byte.
    WriteFault,
}

impl End {
    /// The status that the program ends with.
    pub fn status(self) -> u8
        ensures { result ≡ status_of self }
    {
        match self {
            End::Whole => 0,
            End::Fault => 2,
            End::Memory => 4,
            End::ReadFault | End::WriteFault => 5,
        }
    }
}
