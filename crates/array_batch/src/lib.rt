//! An array that was changed in memory, as a batch of a vault: the units that differ, the groups, and the number of drives.
#![tactic(auto)]

mod batch;
mod fault;
mod memory;
mod stages;

pub use batch::put_array;
pub use fault::BatchFault;
pub use memory::{parts_in, test_present};
pub use stages::{carry_out, prepare, test_table};
