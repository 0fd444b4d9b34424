// Why a drive isn't emptied.
ghost use Rattle.std.specs.Prelude.{◌≡◌};
ghost use Rattle.drive_evacuation.specs.declared.fault.EvacuationFault.TheVariants.{Memory};

use std::alloc::AllocError;
use step_core::Refusal;

/// Why a drive isn't emptied, or not whole.
#[derive(Clone, Copy, Debug, PartialEq, Eq)]
pub enum EvacuationFault {
    /// Out of memory.
    Memory,
    /// The drive isn't lost.
    Present,
    /// An extent has no drive to go to: each other drive is lost, is full, or has a member of its group.
    Stuck,
    /// An extent can't be rebuilt, its target failed, or there is no such drive.
    Refused(Refusal),
}

impl From<AllocError> for EvacuationFault {
    ghost from_gives = { λ _ e. e ≡ Memory };

    fn from(_: AllocError) -> EvacuationFault {
        EvacuationFault::Memory
    }
}
