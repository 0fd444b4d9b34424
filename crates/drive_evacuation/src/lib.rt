//! A lost drive of an array is emptied: its extents are rebuilt on the others, until no group has a member on it.
#![tactic(auto)]

mod evacuation;
mod fault;
mod laws;

pub use evacuation::evacuate;
pub use fault::EvacuationFault;
pub use laws::last_drive_law;
