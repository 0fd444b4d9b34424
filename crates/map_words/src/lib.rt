//! A block map as atomic words: each word is the greatest key that any thread took of its block.
#![tactic(auto)]

mod naming;
mod rule;
mod taker;
mod view;
mod words;

pub use naming::Naming;
pub use taker::{CloseRefusal, SplitRefusal, Taker};
pub use view::{Found, View};
pub use words::{MapWords, TableRefusal, Unnamed};
