//! The groups of an array as units of a vault's table, so that a batch changes them together with the units of drives.
#![tactic(auto)]

mod fault;
mod find;
mod read;
mod spell;
mod table;
mod write;

pub use fault::FormFault;
pub use find::find_groups;
pub use read::{Spelled, read_groups};
pub use spell::{FORM_BYTES, FORM_UNITS, GROUP_UNITS, put_count, put_group_unit};
pub use write::write_groups;
