//! A storm: workers in threads of their own that write, move and read the same blocks at once, and what they agree on.
#![tactic(auto)]

mod crew;
mod ended;
mod life;
mod outcome;
mod reported;
mod rounds;
mod setting;

pub use ended::end_storm;
pub use life::{Fuse, Orders, run_orders, run_storm};
pub use outcome::{Storm, StormFault, Tally};
pub use reported::{Reported, report_storm};
