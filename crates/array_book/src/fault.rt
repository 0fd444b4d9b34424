// Why a worker's call did nothing.
ghost use Rattle.std.specs.Prelude.{◌≡◌, ◌≢◌};
ghost use Rattle.flat_machine.specs.declared.refusal.Refusal.TheVariants as refusal;
ghost use Rattle.array_book.specs.declared.fault.WorkFault.TheVariants.{Core};
ghost use Rattle.array_book.specs.Numbers.{number_of};
ghost use Rattle.array_book.specs.Outcomes.{fault_of};

use flat_machine::Refusal;

/// Why a call of a worker did nothing.
#[derive(Clone, Copy, Debug, PartialEq, Eq)]
pub enum WorkFault {
    /// No listed slot could be claimed.
    NoRoom,
    /// The array refused, for a reason other than memory.
    Core(Refusal),
    /// Out of memory. What was claimed is released, as after a refusal.
    Memory,
}

impl WorkFault {
    /// The fault's number, 1 to 3 in the order above.
    pub fn number(&self) -> u8
        ensures { result ≡ number_of self.now }
    {
        match self {
            WorkFault::NoRoom => 1,
            WorkFault::Core(_) => 2,
            WorkFault::Memory => 3,
        }
    }

    /// The fault that a refusal of the array is. Out of memory is a fault of its own, so that callers needn't look into the
    /// refusal.
    #[tactic(auto, using(crate::proofs::Noting::fault_else))]
    pub(crate) fn of(refused: Refusal) -> WorkFault
        ensures same { result ≡ fault_of refused }
        ensures memory { result ≢ Core refusal.Memory }
    {
        match refused {
            Refusal::Memory => WorkFault::Memory,
            other => WorkFault::Core(other),
        }
    }
}
