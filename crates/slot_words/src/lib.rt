//! Claims of slots without a lock: one word for each slot, and no two claims of a table that exist at once are of the same slot.
#![tactic(auto)]

mod claim;
mod naming;
mod pass;
mod rule;
mod steps;
mod view;
mod words;

pub use claim::{Claim, ClaimRefusal, NoneFree};
pub use naming::Naming;
pub use pass::Pass;
pub use view::{Held, Kind, Sight, View};
pub use words::{SlotWords, TableRefusal, Unnamed};
