// A step that gives a slot a unit.

/// A step of an array that gives a slot a unit. It names no worker, and asks for no claim or ticket: what a plan says of the flat
/// machine it says of each worker who has the slot's claim, or its ticket where one waits there.
#[derive(Debug, Drop)]
pub enum Intent {
    /// A fresh payload goes into a mirrored slot, under a blank header: as many bytes as the array's payloads have.
    Fill { slot: u16, payload: Vec<u8> },
    /// Zeros go into a mirrored slot, under a blank header; they wait to be a trim.
    Trim { slot: u16 },
    /// What the block holds goes into a slot of either class, under a blank header.
    Copy { slot: u16, block: u32 },
    /// The waiting slot becomes the newest place of the block: its header is the record's.
    Commit { slot: u16, block: u32 },
}
