// Where a worker's call can be made to wait.
use std::sync::Wait;

/// How far a call of a worker has come.
#[derive(Clone, Copy, Debug, PartialEq, Eq)]
pub enum Point {
    /// A slot is claimed.
    Claimed = 1,
    /// The slot is filled, or copied into.
    Put = 2,
    Committed = 3,
    /// The old place is released, and the record is taken.
    Taken = 4,
}

/// Is called at each point that a call reaches, and may wait there. No lock is held then. So a gate may let another worker go
/// first.
pub trait Gate {
    fn reach<R: Wait>(&self, point: Point, rt: &R);

    /// Whether `reach` may wait or look at the Book. Where it is false, the steps between two points may be done under one hold of
    /// the lock. `reach` is called at each point all the same, in the same order, after the hold.
    fn waits(&self) -> bool {
        true
    }
}

/// Waits nowhere.
#[derive(Clone, Copy)]
pub struct NoGate;

impl Gate for NoGate {
    fn reach<R: Wait>(&self, _point: Point, _rt: &R) {}

    fn waits(&self) -> bool {
        false
    }
}
