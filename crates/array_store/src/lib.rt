//! The bytes of a disk, kept by an array: by offset, cut into the array's blocks.
#![tactic(auto)]

mod block;
mod disk;
mod piece;
mod store;

pub use store::ArrayStore;
