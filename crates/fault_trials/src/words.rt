// A line as a verb and the numbers after it.
use crate::trouble::Trouble;

/// The most numbers of a line.
pub(crate) const NUMBERS: usize = 8;

/// A verb, and numbers; those that the line doesn't have are 0.
#[derive(Drop)]
pub(crate) struct Words<'a> {
    pub(crate) verb: &'a str,
    pub(crate) numbers: [u32; NUMBERS],
}

/// The words of a line, with one space between each two.
pub(crate) fn words_of(line: &str) -> Result<Words<'_>, Trouble> {
    read(line).ok_or(Trouble::Input)
}

fn read(line: &str) -> Option<Words<'_>> {
    let mut parts = line.split(' ');
    let verb = parts.next()?;
    let mut numbers = [0; NUMBERS];
    for (at, word) in parts.enumerate() {
        *numbers.get_mut(at)? = word.parse::<u32>().ok()?;
    }
    Some(Words { verb, numbers })
}

/// The number as a drive, a worker or a payload's byte.
pub(crate) fn byte(number: u32) -> Result<u8, Trouble> {
    u8::try_from(number).ok().ok_or(Trouble::Input)
}

/// The number as a slot, a group, an extent, a hop or a place.
pub(crate) fn short(number: u32) -> Result<u16, Trouble> {
    u16::try_from(number).ok().ok_or(Trouble::Input)
}
