// What the workers of a world have of a slot.

/// Nothing, a worker's claim, or a worker's ticket.
#[derive(Clone, Copy, PartialEq, Eq)]
pub enum Hand {
    Empty,
    Holds(u8),
    Waits(u8),
}
