// What a plan says.

/// A block that is to be copied from its newest place to a slot that isn't live, held or not.
#[derive(Clone, Copy, Debug, PartialEq, Eq)]
pub struct Move {
    pub block: u32,
    pub from: u16,
    pub to: u16,
}
