//! Drives and their units, the header of a unit, and the table of who owns which extent.
#![tactic(auto)]

mod drive;
mod header;
mod hot_swap;
mod mem_drive;
mod shape;
mod table;
mod thin;

pub use drive::{Drive, DriveLost};
pub use header::{Header, HeaderFault, Kind};
pub use hot_swap::HotSwap;
pub use mem_drive::MemDrive;
pub use shape::{HEADER_BYTES, Shape, ShapeRefusal};
pub use table::{DRIVES, ExtentTable};
