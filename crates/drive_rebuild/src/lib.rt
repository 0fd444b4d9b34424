//! A lost drive gets its units again: they are computed from the others', written, read back and tested, and the mark is cleared.
#![tactic(auto)]

mod compute;
mod fault;
mod laws;
mod replace;
mod scrub;
mod scrubbed;
mod stages;
mod verify;
mod write;

pub use fault::RebuildFault;
pub use laws::{mended_law, settled_law};
pub use replace::replace_drive;
pub use scrub::{Findings, NAMED, scrub_parts};
pub use scrubbed::{Scrubbed, scrub_vault};
pub use write::Watch;
