//! Records of commits, and block maps that are joined from them in any order.
#![tactic(auto)]

mod block_map;
mod laws;
mod newest;
mod page;
mod records;

pub use block_map::{BlockMap, MapRefusal};
pub use laws::{join_laws, list_laws};
pub use newest::{Live, Newest};
pub use records::{Record, RecordFault};
