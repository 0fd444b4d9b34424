// Why the array refuses a call.
ghost use Rattle.std.specs.Prelude.{◌≡◌};
ghost use Rattle.flat_machine.specs.Numbers.{number_of};

use map_join::Record;
use thiserror::Error;

/// Why the array refuses a call. After a refusal the array is as it was, but for drives that failed in the call.
#[derive(Clone, Copy, Debug, PartialEq, Eq, Error)]
pub enum Refusal {
    #[error("no memory")]
    Memory,
    /// A group, index or member number that doesn't exist.
    #[error("no such group, slot or member")]
    NoGroup,
    /// A fresh payload into a parity slot.
    #[error("a fresh payload goes into a mirrored slot")]
    WrongClass,
    /// The array itself holds a claim of the slot.
    #[error("the slot is in use")]
    InUse,
    /// The worker has no ticket at the slot, or one for a copy of another block.
    #[error("the worker has no ticket for this block at the slot")]
    NoTicket,
    /// The block's newest record, which isn't the one that was copied.
    #[error("a newer record was emitted")]
    Outrun(Record),
    #[error("the block has had its last version")]
    VersionSpent,
    #[error("the version has had its last move")]
    HopsSpent,
    #[error("the block was never written")]
    Unwritten,
    /// The slot that is gone: lost drives leave it no unit.
    #[error("the unit of slot {0} is gone")]
    Gone(u16),
    /// The lowest slot of which the caller has no claim.
    #[error("slot {0} is held")]
    SlotsHeld(u16),
    #[error("an extent belongs to a group")]
    ExtentTaken,
    #[error("two members lie on one drive")]
    SameDrive,
    /// The lost drive.
    #[error("drive {0} is lost")]
    DriveLost(u8),
    /// The array's newest record of the block, if any.
    #[error("the record is ahead of the array")]
    Ahead(Option<Record>),
    #[error("the log is full")]
    LogFull,
    #[error("no number is left")]
    Full,
    /// A drive or an extent that doesn't exist, or not three to eight members.
    #[error("no such drive or extent, or not three to eight members")]
    BadMember,
}

impl Refusal {
    /// The refusal's number, 1 to 18 in the order above.
    pub fn number(&self) -> u8
        ensures { result ≡ number_of self.now }
    {
        match self {
            Refusal::Memory => 1,
            Refusal::NoGroup => 2,
            Refusal::WrongClass => 3,
            Refusal::InUse => 4,
            Refusal::NoTicket => 5,
            Refusal::Outrun(_) => 6,
            Refusal::VersionSpent => 7,
            Refusal::HopsSpent => 8,
            Refusal::Unwritten => 9,
            Refusal::Gone(_) => 10,
            Refusal::SlotsHeld(_) => 11,
            Refusal::ExtentTaken => 12,
            Refusal::SameDrive => 13,
            Refusal::DriveLost(_) => 14,
            Refusal::Ahead(_) => 15,
            Refusal::LogFull => 16,
            Refusal::Full => 17,
            Refusal::BadMember => 18,
        }
    }
}
