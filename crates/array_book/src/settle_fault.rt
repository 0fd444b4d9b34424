// The fault of a Book that isn't settled.
ghost use Rattle.std.specs.Prelude.{◌≡◌};
ghost use Rattle.array_book.specs.SettleNumbers.{number_of};

/// Why a Book isn't settled.
#[derive(Clone, Copy, Debug, PartialEq, Eq)]
pub enum SettleFault {
    /// The lowest block of which the workers' map isn't the array's.
    Differs(u32),
    /// Out of memory for the maps: whether they agree isn't known.
    Memory,
    /// The Takers of a controller that came have this share, and not the whole.
    NotWhole(u32),
}

impl SettleFault {
    /// The fault's number, 1 to 3 in the order above.
    pub fn number(&self) -> u8
        ensures { result ≡ number_of self.now }
    {
        match self {
            SettleFault::Differs(_) => 1,
            SettleFault::Memory => 2,
            SettleFault::NotWhole(_) => 3,
        }
    }
}
