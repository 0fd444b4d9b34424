//! Whether an array's parts are sound: equal copies of each mirrored slot, and parity rows that add up to zero.
#![tactic(auto)]

mod pairs;
mod rows;
mod search;
mod slots;

pub use search::{find_unsound, is_sound};
