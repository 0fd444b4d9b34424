//! The array of a vault is served to one client, from its opening to its end.
#![tactic(auto)]

mod opening;
mod session;

pub use opening::{OpenedStore, open_settled};
pub use session::{Served, serve_vault};
