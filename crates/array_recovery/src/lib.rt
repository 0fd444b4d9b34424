//! An array is opened again from what outlived a stop: the units of its drives, and a journal of batches.
#![tactic(auto)]

mod fault;
mod load;
mod marks;
mod open;
mod rebuild;
mod reopen;
mod replay;
mod seat;

pub use fault::RecoveryFault;
pub use load::load_drives;
pub use marks::{lost_drives, read_marks};
pub use open::open_store;
pub use rebuild::tiers_of;
pub use reopen::{Found, find, recover};
