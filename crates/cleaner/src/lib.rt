//! Plans that gather live slots of parity groups, so that whole groups become empty.
#![tactic(auto)]

mod choice;
mod clean;
mod counts;
mod lanes;
mod moves;
mod plug;
mod ranks;
mod slots;

pub use clean::{clean_plan, clean_plan_counted, clean_plan_unplugged, empty_group};
pub use moves::Move;
pub use plug::{plug_plan, plug_plan_counted};
