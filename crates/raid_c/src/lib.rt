//! The array's formats, joins, geometry and scripts for callers in C: numbers, byte slices and structs of numbers cross.
//! `include/behkuna.h` declares each call.
#![tactic(auto)]

mod bytes;
mod geometry;
mod header;
mod join;
mod newest;
mod record;
mod script;
mod status;
mod version;
mod xor;

pub use geometry::{
    SlotCopies, SlotStripe, UnitPlace, behkuna_one_stripe, behkuna_slot_count, behkuna_two_copies,
};
pub use header::{UnitHeader, behkuna_header_decode, behkuna_header_encode};
pub use join::{behkuna_agree, behkuna_join};
pub use newest::behkuna_newest;
pub use record::{
    StampedRecord, behkuna_record_decode, behkuna_record_encode, behkuna_record_key,
    behkuna_record_of_key,
};
pub use script::behkuna_run_script;
pub use status::Status;
pub use version::{API_VERSION, behkuna_api_version};
pub use xor::behkuna_xor_into;
