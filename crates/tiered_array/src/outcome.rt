//! The outcome of a step that a plan chose.
use map_join::Record;
use step_core::Refusal;

/// The outcome of writing, demoting, plugging or cleaning.
#[derive(Clone, Copy, Debug, PartialEq, Eq)]
pub enum Outcome {
    /// The block lies at the record's place; its old place is free.
    Placed(Record),
    /// The array refused; no slot was kept.
    Refused(Refusal),
    /// No slot is free where the block would go.
    NoRoom,
    /// No block is to be moved.
    Nothing,
}
