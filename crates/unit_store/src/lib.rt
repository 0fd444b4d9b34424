//! An array's parts on drives: its shape, its groups, the owners of its extents, and the drives.
#![tactic(auto)]

mod add;
mod carry;
mod enter;
mod fresh;
mod gone;
mod make;
mod memory;
mod micro;
mod note;
mod outside;
mod parts;
mod planning;
mod relocate;
mod see;
mod shift;
mod slots;
mod take;
mod unit;
mod units;

pub use micro::{Micro, run_micro};
pub use note::Note;
pub use parts::Parts;
pub use see::Sight;
pub use units::Units;
