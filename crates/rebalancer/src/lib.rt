//! Which extent moves to which drive: to rebalance the drives' loads, and off a lost drive.
#![tactic(auto)]

mod balance;
mod drives;
mod groups;
mod rebuild;
mod shift;

pub use balance::balance_plan;
pub use rebuild::rebuild_plan;
pub use shift::Shift;
