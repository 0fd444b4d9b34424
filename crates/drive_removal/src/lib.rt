//! A settled disk gives up its last drive: the drive's extents are rebuilt on the others, in one batch.
#![tactic(auto)]

mod fault;
mod load;
mod memory;
mod plan;
mod remove;
mod stages;

pub use fault::RemovalFault;
pub use remove::remove_drive;
