//! The calls of the two levels by which no group and no drive comes or goes, as values: so a run is a list of them.
#![tactic(auto)]

mod call;
mod carry;

pub use call::{Call, CallAnswer};
pub use carry::growth_law;
