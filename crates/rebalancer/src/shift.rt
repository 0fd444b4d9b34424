// What a plan says.
use extent_groups::Member;

/// A group's member that is to move, and the free extent that it moves to.
#[derive(Clone, Copy, Debug, PartialEq, Eq)]
pub struct Shift {
    pub group: u16,
    /// The member's number in its group, which it keeps.
    pub member: u8,
    pub to: Member,
}
