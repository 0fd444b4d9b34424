//! The sizes of the array that keeps a disk: blocks, extents, segments and groups, from the disk's bytes.
#![tactic(auto)]

mod members;
mod plan;
mod planning;
mod refusal;
mod search;

pub use members::{class_of, member_at};
pub use plan::Plan;
pub use planning::plan_disk;
pub use refusal::ShapeFault;
