//! Bytes from hex digits and hex digits of bytes by vectors, and the digits that are left one by one.
#![tactic(auto)]

mod decode;
mod encode;

pub use decode::decode_hex;
pub use encode::encode_hex;

/// The bytes that a whole vector holds: a turn reads the digits of two such, or writes those of one.
const WIDE: usize = 16;

/// The bytes of one step after the turns, whose digits a whole vector holds.
const STEP: usize = 8;
