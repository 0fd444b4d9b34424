//! What the commands of a script do: to the array's world, to four block maps, and to the text of the answers.
#![tactic(auto)]

mod bench;
mod carry;
mod laws;
mod limits;
mod maps;
mod replies;
mod scans;
mod texts;
mod why;

pub use bench::Bench;
pub use laws::line_laws;
pub use replies::reply;
pub use texts::{put, put_fault, put_listing, put_number};
pub use why::{Failure, Why};
