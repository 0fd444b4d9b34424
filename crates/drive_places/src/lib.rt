//! Where the files of a disk's drives are, and which file is which drive's.
#![tactic(auto)]

mod choice;
mod places;
mod sight;
mod verdict;

pub use choice::{Choice, choose};
pub use places::{places_in, text_of};
pub use sight::Sight;
pub use verdict::{Verdict, verdict_of};
