//! What a worker does by a plan: it writes a block into the mirrored level, demotes the oldest into the parity level, plugs a
//! hole, cleans a group.
#![tactic(auto)]

mod asks;
mod bits;
mod hints;
mod outcome;
mod planner;
mod plans;
mod put;
mod regroup;
mod regrouped;
mod room;
mod scan;
mod steps;
mod tiers;
mod write;

pub use asks::Any;
pub use hints::FreeHints;
pub use outcome::Outcome;
pub use planner::Planner;
pub use regroup::{balance, rebuild};
pub use regrouped::Regrouped;
pub use room::skip_law;
pub use tiers::Tiers;
