// Why a change of the groups, or a read or write of a slot, is refused.
ghost use Rattle.std.specs.Prelude.{◌≡◌};
ghost use Rattle.extent_groups.specs.Numbers.{group_number, store_number};

/// Why a group isn't made, dissolved or changed. The table is then as it was.
#[derive(Clone, Copy, Debug, PartialEq, Eq)]
pub enum GroupRefusal {
    /// The group or member number isn't there.
    NoGroup = 1,
    /// Fewer than three members.
    TooFew = 2,
    /// Two members on one drive.
    SameDrive = 3,
    /// A group owns the extent already.
    ExtentTaken = 4,
    /// Out of memory.
    Memory = 5,
    /// More than eight members.
    TooMany = 6,
}

impl GroupRefusal {
    /// The refusal's number, 1 to 6.
    pub fn number(self) -> u8
        ensures { result ≡ group_number self }
    {
        self as u8
    }
}

/// Why a store can't read or write a slot.
#[derive(Clone, Copy, Debug, PartialEq, Eq)]
pub enum StoreRefusal {
    /// The unit of this slot can't be read or stored: too many drives of its group are lost.
    Gone(u16),
}

impl StoreRefusal {
    /// The refusal's number, 1.
    pub fn number(self) -> u8
        ensures { result ≡ store_number self }
    {
        match self {
            StoreRefusal::Gone(_) => 1,
        }
    }
}
