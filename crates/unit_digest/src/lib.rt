//! Digests of units: Fletcher-4 sums, begun from the place of the unit.
#![tactic(auto)]

mod digest;
mod laws;
mod sums;

pub use digest::{DIGEST_BYTES, digest_of};
pub use laws::{place_law, zeros_law};
