//! An SVG picture of an array: what each unit of each drive is.
#![tactic(auto)]

mod blocks;
mod drawing;
mod legend;
mod mark;
mod shapes;
mod style;

pub use blocks::blocks_by_slot;
pub use drawing::{End, draw};
pub use mark::{Mark, mark_of};
