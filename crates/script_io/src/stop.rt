//! Why a script ends before its last line.
ghost use Rattle.std.specs.Prelude.{◌≡◌};
ghost use Rattle.script_io.specs.declared.stop.Stop.TheVariants as stop;

use std::alloc::AllocError;

/// Why a script ended before its last line. `Script::feed` and `Script::finish` return it; `wrong` makes `Fault`, a failed
/// allocation `Memory`.
#[derive(Clone, Copy)]
pub enum Stop {
    /// Out of memory.
    Memory,
    /// A line was wrong, and its fault was reported.
    Fault,
}

impl From<AllocError> for Stop {
    ghost from_gives = { λ _ stopped. stopped ≡ stop.Memory };

    fn from(_: AllocError) -> Stop {
        Stop::Memory
    }
}
