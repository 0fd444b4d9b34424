//! Parses a line of a script into a command: its verb, numbers, members, record and payload.
#![tactic(auto)]

mod command;
mod member;
mod number;
mod parse;
mod parts;
mod payload;
mod record;
mod verb;
mod words;

pub use command::{Command, Named};
pub use number::number_of;
pub use parse::read_command;
pub use verb::{Kind, Row, Tail, Verb};
