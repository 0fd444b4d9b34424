//! Why a line is not answered.
ghost use Rattle.std.specs.Prelude.{◌≡◌};
ghost use Rattle.script_exec.specs.declared.why.Failure.TheVariants as failure;

use std::alloc::AllocError;

/// Why a line is wrong, in the order of the tests: the first that holds is the line's fault.
#[derive(Clone, Copy)]
pub enum Why {
    /// It is past the last line that a script may have.
    Many,
    /// It has too many bytes.
    Long,
    /// It spells no command, or one that isn't allowed in this state.
    Form,
    /// A number is out of its limits.
    Range,
}

/// Why a command was not answered. Memory is no fault of the line: it ends the script with another status.
#[derive(Clone, Copy)]
pub enum Failure {
    /// Out of memory.
    Memory,
    /// The line is wrong.
    Wrong(Why),
}

impl From<AllocError> for Failure {
    ghost from_gives = { λ _ failed. failed ≡ failure.Memory };

    fn from(_: AllocError) -> Failure {
        Failure::Memory
    }
}
