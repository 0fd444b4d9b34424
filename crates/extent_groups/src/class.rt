// What a group is made of.

/// How a group keeps its slots.
#[derive(Clone, Copy, Debug, PartialEq, Eq)]
pub enum Class {
    /// Each slot in two copies.
    Mirrored,
    /// Each slot once, with a parity unit for each offset.
    Parity,
}

/// An extent of a group.
#[derive(Clone, Copy, Debug, PartialEq, Eq)]
pub struct Member {
    pub drive: u8,
    pub extent: u16,
}
