//! What an array keeps of each slot: claims in their places, and the tables of a new array and of one that is put together. Its specs
//! have what is seen of an array, when it represents a flat state, and that each change of it is a case of the flat machine.
#![tactic(auto)]

mod hand;
mod hold;
mod ready;
mod seats;
mod shut;
mod slot_state;
mod tables;

pub use hand::Hand;
pub use hold::{Hold, Plain};
pub use ready::{NotAdopted, Ready, Room, prepare};
pub use seats::{seat_all, unseat_all};
pub use shut::{close_all, marked, open_number};
pub use slot_state::{SlotState, grow_to, put_in, state_at, take_out, take_waiting};
pub use tables::{SLOTS, Tables, new_tables};
