//! A store of bytes that somebody looks at whenever it has rested.
#![tactic(auto)]

mod watched;

pub use watched::{Sees, Watched};
