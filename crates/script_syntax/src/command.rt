//! A command of a script, with its numbers as they are written.
use crate::verb::Verb;
use flat_machine::Class;
use map_join::Record;
use std::alloc::Global;

/// The most numbers of a command: those of `array`.
pub const MOST_NUMBERS: usize = 5;

/// A member as it is named: numbers of up to ten digits, in range or not. The range is tested after the form, because a line
/// with both faults is answered by `form`.
#[derive(Clone, Copy)]
pub struct Named {
    pub drive: u64,
    pub extent: u64,
}

/// A command of a script. A field that its verb doesn't use has no meaning. A payload isn't here: it is in the caller's
/// buffer.
#[derive(Drop)]
pub struct Command {
    pub numbers: [u64; MOST_NUMBERS],
    pub record: Record,
    // Two fields of a byte side by side, since padding is copied with each move of a command.
    pub verb: Verb,
    pub class: Class,
    pub members: Vec<Named>,
}

impl Command {
    /// A placeholder, for `read_command` to fill in.
    pub fn new(alloc: Global) -> Command {
        Command {
            numbers: [0; MOST_NUMBERS],
            record: Record {
                block: 0,
                version: 0,
                hop: 0,
                place: 0,
            },
            verb: Verb::Array,
            class: Class::Mirrored,
            members: Vec::new(alloc),
        }
    }
}
