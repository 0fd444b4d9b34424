//! Units of drives that aren't as their digests say: they are found, tested, computed from the others and written.
#![tactic(auto)]

mod compute;
mod fault;
mod laws;
mod load;
mod rows;
mod write;

pub use compute::compute_rotten;
pub use fault::{MendFault, ReadFault};
pub use laws::same_units_law;
pub use load::{Loaded, is_lost, load_units, put};
pub use rows::{find_gone, is_touched};
pub use write::write_rotten;
