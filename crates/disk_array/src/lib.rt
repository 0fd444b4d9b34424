//! The array and its calls: slots that are filled, copied, committed and read, groups that come and go, and drives.
#![tactic(auto)]

mod adopt;
mod apart;
mod array;
mod buffers;
mod commit;
mod copy;
mod discard;
mod drives;
mod end;
mod fill;
mod fresh;
mod grow;
mod hands;
mod live;
mod make;
mod memory;
mod outside;
mod place;
mod plan;
mod read;
mod reading;
mod relocate;
mod shorten;
mod ticket;
mod trim;
mod units;
mod unmake;
mod visit;

pub use apart::{Apart, claims_are_free};
pub use array::Array;
pub use commit::{Done, Emitted};
pub use end::TakeBack;
pub use grow::DRIVES;
pub use hands::Hands;
pub use read::At;
pub use reading::Reading;
pub use slot_tables::{Hold, NotAdopted, Plain};
pub use ticket::Ticket;
pub use visit::Visit;
