//! A step of an array as a list of single writes with a note, and what a restart finds after a stop among them.
#![tactic(auto)]

mod intent;
mod list;
mod plan;
mod stop;
mod unit;

pub use header_scan::{ScanFault, restart};
pub use intent::Intent;
pub use plan::plan_micro;
pub use stop::{Unfinished, stop_after};
pub use unit_store::{Micro, Note, run_micro};
