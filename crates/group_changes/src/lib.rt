//! One change of a settled disk's groups, in one batch: a group is made or dissolved, or an extent of a group is moved.
#![tactic(auto)]

mod apply;
mod change;
mod fault;
mod groups;
mod memory;
mod plan;

pub use change::GroupChange;
pub use fault::GroupChangeFault;
pub use groups::change_groups;
