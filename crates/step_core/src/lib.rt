//! The array and its world: slots that are claimed, filled, committed and read, step by step of a flat machine.
#![tactic(auto)]

mod claimed;
mod grow;
mod place;
mod refusal;
mod relocate;
mod restart;
mod run;
mod step;
mod units;
mod unmake;
mod world;

pub use claimed::{Denied, What, finish, place_at_once, put};
pub use disk_array::{
    Apart, Array, At, Done, Emitted, Hold, NotAdopted, Plain, Reading, TakeBack, Ticket, Visit,
    claims_are_free,
};
pub use extent_groups::GroupTable;
pub use extents::{Drive, DriveLost, ExtentTable, HotSwap, MemDrive, Shape, ShapeRefusal};
pub use flat_machine::{Class, Member, Refusal};
pub use place::{Given, NotPlaced, Placed, is_mirror};
pub use refusal::unless_memory;
pub use run::{Run, Stopped, represented_matches, run_fixed, run_steps};
pub use step::{Answer, Step};
pub use unit_store::Units;
pub use world::World;
