//! The command line of a disk: its commands, as clap reads them, and sizes.
#![tactic(auto)]

mod size;
mod words;

pub use size::size_in;
pub use words::matches_of;
