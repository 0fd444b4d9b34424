//! One history of what several threads did to a value under a lock. It exists in proofs alone: an entry may be any data of a proof.
#![tactic(auto)]

mod hand;
mod keeper;
mod naming;
mod rule;
mod steps;
mod view;

pub use hand::Hand;
pub use keeper::Keeper;
pub use naming::{Chronicle, History, Opened};
pub use rule::Says;
pub use view::{Entry, View};
