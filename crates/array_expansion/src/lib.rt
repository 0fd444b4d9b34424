//! One more drive for an array: it is added, and extents move onto it until the loads are even.
#![tactic(auto)]

mod expansion;
mod fault;

pub use expansion::expand;
pub use fault::ExpansionFault;
