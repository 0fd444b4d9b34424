// Why an array doesn't get another drive.
ghost use Rattle.std.specs.Prelude.{◌≡◌};
ghost use Rattle.array_expansion.specs.declared.fault.ExpansionFault.TheVariants.{Memory};

use std::alloc::AllocError;
use step_core::Refusal;

/// Why an array doesn't get another drive, or isn't balanced after it got one.
#[derive(Clone, Copy, Debug, PartialEq, Eq)]
pub enum ExpansionFault {
    /// Out of memory.
    Memory,
    /// There are 16 drives.
    Full,
    /// An extent can't be moved: its target failed, or its drive did and a unit can't be rebuilt.
    Refused(Refusal),
}

impl From<AllocError> for ExpansionFault {
    ghost from_gives = { λ _ e. e ≡ Memory };

    fn from(_: AllocError) -> ExpansionFault {
        ExpansionFault::Memory
    }
}
