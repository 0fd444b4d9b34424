// The result of a storm.
ghost use Rattle.std.specs.Prelude.{◌≡◌};
ghost use Rattle.storm.specs.Numbers.{number_of};

use array_book::{RunFault, SettleFault};
use flat_machine::Refusal;

/// How often the calls of a storm's workers were carried out.
#[derive(Clone, Copy, Debug, PartialEq, Eq)]
pub struct Tally {
    /// Writes that were committed: one a round, except where no mirrored slot could be claimed.
    pub writes: u64,
    /// Blocks that were moved.
    pub moves: u64,
    /// Reads that returned a record.
    pub reads: u64,
    /// Reads of blocks of which the controller's words have no record.
    pub blanks: u64,
    /// Drives that were lost at the end.
    pub lost: u8,
}

impl Tally {
    // Nothing was carried out, and no drive is lost.
    pub(crate) fn new() -> Tally {
        Tally {
            writes: 0,
            moves: 0,
            reads: 0,
            blanks: 0,
            lost: 0,
        }
    }
}

/// What a storm ends with.
#[derive(Clone, Copy, Debug, PartialEq, Eq)]
pub enum Storm {
    Agreed(Tally),
    /// The lowest block of which the workers' map isn't the array's.
    Differs(u32),
}

/// Why a storm ended without a result.
#[derive(Clone, Copy, Debug, PartialEq, Eq)]
pub enum StormFault {
    /// There is no array, or there are no workers for it: `Full` where the hands can't be split for all workers, `BadMember` where
    /// the drive to be lost isn't one of the four, its call is the 0th, or no payload has this size; `Memory`.
    Setup(Refusal),
    Run(RunFault),
    /// Never `Differs`.
    Settle(SettleFault),
    /// The lowest number of a hand of the history that didn't come back.
    Missing(u64),
}

impl StormFault {
    /// The fault's number, 1 to 4 in the order above. A program ends with status 4 for each.
    pub fn number(&self) -> u8
        ensures { result ≡ number_of self.now }
    {
        match self {
            StormFault::Setup(_) => 1,
            StormFault::Run(_) => 2,
            StormFault::Settle(_) => 3,
            StormFault::Missing(_) => 4,
        }
    }
}
