//! A drive in memory over what outlives the process. It lists the units that were written since they were last saved.
#![tactic(auto)]

mod drive;
mod save;
mod saved;

pub use drive::CachedDrive;
pub use saved::{Saved, Saves};
