//! The outcome of a shift that a plan chose.
use rebalancer::Shift;
use step_core::Refusal;

/// The outcome of rebalancing or rebuilding one extent.
#[derive(Clone, Copy, Debug, PartialEq, Eq)]
pub enum Regrouped {
    /// The member is the extent that the plan chose.
    Moved(Shift),
    /// The array refused, and no member was moved.
    Refused(Refusal),
    /// No member is to be moved.
    Nothing,
}
