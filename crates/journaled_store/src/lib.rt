//! An array's drives in step with a vault: what a call has written is one batch of its journal.
#![tactic(auto)]

mod append;
mod bytes;
mod calls;
mod changes;
mod comparing;
mod lookup;
mod position;
mod publishing;
mod scrubbing;
mod settling;
mod store;

pub use changes::Changes;
pub use position::{ScrubPosition, Scrubbed};
pub use publishing::{publish, sync};
pub use store::JournaledStore;
