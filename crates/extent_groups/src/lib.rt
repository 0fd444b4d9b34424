//! Groups of extents, the geometry of their slots, and what a slot holds however its drives fare.
#![tactic(auto)]

mod agree;
mod change;
mod class;
mod cursor;
mod geometry;
mod lookup;
mod place;
mod plan;
mod refusal;
mod role;
mod table;
mod wipe;

pub use change::{are_there, put_check, swap_check};
pub use class::{Class, Member};
pub use cursor::{MirroredAt, ParityAt};
pub use geometry::{Copies, Spot, Stripe, next_copies, next_stripe, one_stripe, two_copies};
pub use place::{Place, read_front, read_place, sync_drives, write_gathered, write_place};
pub use plan::{PlanRefusal, Planned, is_there, write_of};
pub use refusal::{GroupRefusal, StoreRefusal};
pub use role::Role;
pub use table::{GROUPS, GroupTable, SLOTS, count_slots};
pub use wipe::wipe_extent;
