//! A drive whose units lie in memory and are written through to a backing, such as a file.
#![tactic(auto)]

mod backing;
mod drive;
mod refusal;

pub use backing::{Backing, InMemory, OnFile};
pub use drive::FileDrive;
pub use refusal::OpenRefusal;

#[cfg(test)]
mod faulty;
#[cfg(test)]
mod on_file;
#[cfg(test)]
mod tests;
