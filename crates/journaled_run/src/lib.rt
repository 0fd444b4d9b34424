//! Runs of calls of an array in a vault: a stop anywhere in one leaves the array as it was after some of its calls.
#![tactic(auto)]

mod run;

pub use run::{Halted, run_calls};
