//! The map of an array, rebuilt from the headers of its units, and an array rebuilt from it.
#![tactic(auto)]

mod fault;
mod found;
mod keys;
mod laws;
mod look;
mod merged;
mod pass;
mod renew;
mod world;

pub use fault::ScanFault;
pub use laws::{parts_laws, scan_laws};
pub use merged::scan_in_parts;
pub use pass::{scan, scan_groups};
pub use renew::restart;
pub use world::scan_world;
