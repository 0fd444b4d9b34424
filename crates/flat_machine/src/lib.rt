//! The flat machine: what the array means, step by step, stated over plain lists and sets.
#![tactic(auto)]

mod laws;
mod refusal;

pub use extent_groups::{Class, Member};
pub use laws::{history_laws, restart_laws};
pub use refusal::Refusal;
