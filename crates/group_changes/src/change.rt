// The changes of an array's groups.
use step_core::{Class, Member};

/// One change of an array's groups. Groups are numbered from 0 to 511.
#[derive(Debug, Drop)]
pub enum GroupChange {
    /// A group is made under this number, which is the lowest free one. Its members are 3 to 8 extents of no group, on different drives.
    Make {
        group: u16,
        class: Class,
        members: Vec<Member>,
    },
    /// A group is dissolved in which no block has its newest place. Its extents are free then, and so is its number.
    Dissolve {
        group: u16,
    },
    /// What lies on the group's member of this number, counted from 0, goes onto another extent, which is the member then. The extent is
    /// of no group, on a drive without a member of this one.
    Move {
        group: u16,
        member: u8,
        to: Member,
    },
}
