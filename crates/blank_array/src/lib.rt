//! A new disk shows zeros: blank units and a table with the groups are those of an array in which nothing was written.
#![tactic(auto)]

mod create;
mod fault;
mod laws;
mod make;

pub use create::{create_vault, layout_for, make_disk};
pub use fault::BlankFault;
pub use laws::blank_law;
pub use make::make_array;
