//! A number that the system gives for a new disk.
use crate::folder::Name;
use crate::trouble::{Trouble, unread};
use std::fs::File;
use std::io::Read;
use uuid::Uuid;

// Reads a number.
fn read_number(rt: &HostRuntime, name: Name) -> Result<[u8; 16], Trouble> {
    let path = name.system_path();
    let mut text = String::new(rt.alloc());
    let read = match File::open(rt, path) {
        Ok(mut file) => file.read_to_string(&mut text),
        Err(error) => Err(error),
    };
    if let Err(error) = read {
        return Err(unread(error, name));
    }
    match Uuid::parse_str(text.trim_end()) {
        Ok(uuid) => {
            let bytes = uuid.into_bytes();
            Ok(bytes)
        }
        Err(_) => Err(Trouble::NoNumber(name)),
    }
}

/// A number that no other disk has.
pub(crate) fn new_identity(rt: &HostRuntime) -> Result<[u8; 16], Trouble> {
    read_number(rt, Name::Random)
}
