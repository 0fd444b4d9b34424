//! Rotten units are mended: each is computed from its copy or from the rest of its row, and written again.
#![tactic(auto)]

mod laws;
mod repair;
mod verify;

pub use laws::{settled_law, shown_law};
pub use repair::mend;
pub use rotten_units::MendFault;
pub use verify::test_parts;
