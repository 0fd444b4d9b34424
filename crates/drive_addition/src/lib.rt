//! A settled disk gets one more drive, and its extents are spread over all of them, in one batch.
#![tactic(auto)]

mod add;
mod fault;
mod memory;
mod plan;

pub use add::add_drive;
pub use fault::AdditionFault;
