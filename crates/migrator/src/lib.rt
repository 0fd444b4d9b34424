//! Which blocks were written longest ago, which of them is demoted next, and where the write log goes on.
#![tactic(auto)]

mod append;
mod block_hash;
mod first;
mod laws;
mod log_end;
mod marked_ages;
mod recency;
mod rows;
mod slots;
mod turn_map;
mod turns;

pub use append::append_slots;
pub use first::{Free, first_append, first_mirror, first_parity, first_room};
pub use laws::{age_law, mark_law};
pub use log_end::{LogEnd, needs_demotion};
pub use marked_ages::{MarkedAges, PicksBlocks};
pub use recency::Recency;
pub use slots::mirror_slots;
