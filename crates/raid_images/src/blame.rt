//! Which word of a line is wrong, by the rows of the commands that the parser has.
use script_exec::{put, put_number};
use script_syntax::{Command, Kind, Tail, Verb, number_of, read_command};
use std::alloc::{AllocError, Global};

/// The sizes of an array that a line's form and ranges depend on.
#[derive(Clone, Copy)]
pub(crate) struct Sizes {
    pub(crate) payload: u64,
    pub(crate) blocks: u64,
}

/// What was expected in a word's place.
#[derive(Clone, Copy)]
pub(crate) enum Intended {
    /// The first command of a script.
    Array,
    /// A command, since the array is made.
    NoArray,
    Verb,
    /// A word that isn't empty.
    Word,
    NoReturn,
    /// The number of this kind, at this place among the command's numbers.
    Number(Kind, usize),
    /// That number in its range, in an array with this number of blocks.
    Within(Kind, usize, u64),
    Record,
    /// A record of one of this number of blocks.
    RecordWithin(u64),
    /// A payload of this number of bytes.
    Payload(u64),
    Class,
    Member,
    MemberWithin,
    MemberCount,
    End,
}

/// A word of a line, by its number from 1, and what was expected in its place. There is no word where the line ends before.
#[derive(Clone, Copy)]
pub(crate) struct Blame<'l> {
    pub(crate) number: usize,
    pub(crate) word: Option<&'l [u8]>,
    pub(crate) expected: Intended,
}

// What a number of a command is called.
fn name_of(kind: Kind, at: usize) -> &'static [u8] {
    match kind {
        Kind::Worker => b"a worker",
        Kind::Slot => b"a slot",
        Kind::Block => b"a block",
        Kind::Drive => b"a drive",
        Kind::Extent => b"an extent",
        Kind::Group => b"a group",
        Kind::Map => b"a map",
        Kind::Size => match at {
            0 => b"drives",
            1 => b"extents of a drive",
            2 => b"segments of an extent",
            3 => b"bytes of a payload, in steps of 8",
            _ => b"blocks",
        },
    }
}

// The least and the greatest number of a kind.
fn range_of(kind: Kind, at: usize, blocks: u64) -> (u64, u64) {
    match kind {
        Kind::Worker => (0, 7),
        Kind::Slot => (0, 65_535),
        Kind::Block => (0, blocks.saturating_sub(1)),
        Kind::Drive => (0, 15),
        Kind::Extent | Kind::Group => (0, 511),
        Kind::Map => (0, 3),
        Kind::Size => match at {
            0 => (3, 16),
            1 => (1, 512),
            2 => (1, 8),
            3 => (8, 65_536),
            _ => (1, 65_536),
        },
    }
}

// Whether a number is in the range of its kind.
fn is_within(kind: Kind, at: usize, blocks: u64, number: u64) -> bool {
    let (least, most) = range_of(kind, at, blocks);
    let is_step = !matches!(kind, Kind::Size) || at != 3 || number % 8 == 0;
    is_step && number >= least && number <= most
}

impl Intended {
    /// Appends what was expected.
    pub(crate) fn put_text(self, out: &mut Vec<u8>) -> Result<(), AllocError> {
        match self {
            Intended::Array => put(
                out,
                b"`array`, which makes the array that all other commands are for",
            ),
            Intended::NoArray => put(out, b"another command: the array is made already"),
            Intended::Verb => put(out, b"the name of a command"),
            Intended::Word => put(out, b"a word: there is a blank too many"),
            Intended::NoReturn => put(out, b"a line that ends without a carriage return"),
            Intended::Number(kind, at) => {
                put(out, name_of(kind, at))?;
                put(
                    out,
                    b": a number of up to ten digits, without a leading zero",
                )
            }
            Intended::Within(kind, at, blocks) => put_range(out, kind, at, blocks),
            Intended::Record => put(out, b"a record: 24 hex digits, its version above 0"),
            Intended::RecordWithin(blocks) => {
                put(out, b"a record of a block, 0 to ")?;
                put_number(out, blocks.saturating_sub(1))
            }
            Intended::Payload(bytes) => {
                put(out, b"a payload: ")?;
                put_number(out, bytes.saturating_mul(2))?;
                put(out, b" hex digits")
            }
            Intended::Class => put(out, b"`m` or `p`, the class of a group"),
            Intended::Member => put(out, b"a member: a drive, a dot and an extent"),
            Intended::MemberWithin => put(
                out,
                b"a member: a drive, 0 to 15, a dot and an extent, 0 to 511",
            ),
            Intended::MemberCount => put(out, b"three to eight members"),
            Intended::End => put(out, b"the end of the line"),
        }
    }
}

// Appends the range of a number.
fn put_range(out: &mut Vec<u8>, kind: Kind, at: usize, blocks: u64) -> Result<(), AllocError> {
    let (least, most) = range_of(kind, at, blocks);
    put(out, name_of(kind, at))?;
    put(out, b", ")?;
    put_number(out, least)?;
    put(out, b" to ")?;
    put_number(out, most)
}

// A word of a line, by its number from 0.
fn word_at(line: &[u8], number: usize) -> Option<&[u8]> {
    line.split(|byte| *byte == b' ').nth(number)
}

// Blames a word, by its number from 0.
fn blame_at(line: &[u8], number: usize, expected: Intended) -> Blame<'_> {
    Blame {
        number: number.saturating_add(1),
        word: word_at(line, number),
        expected,
    }
}

// Blames a word in a place where a word of another form was expected: an empty one is a blank too many.
fn blame_word(line: &[u8], number: usize, expected: Intended) -> Blame<'_> {
    match word_at(line, number) {
        Some(b"") => blame_at(line, number, Intended::Word),
        _ => blame_at(line, number, expected),
    }
}

// Whether words, with one space between, are a command, with an empty payload.
fn are_command(alloc: Global, words: &[&[u8]], command: &mut Command) -> Result<bool, AllocError> {
    let mut line = Vec::new(alloc);
    for (number, word) in words.iter().enumerate() {
        if number > 0 {
            put(&mut line, b" ")?;
        }
        put(&mut line, word)?;
    }
    read_command(alloc, &line, &mut [], command)
}

/// The most numbers of a command.
const MOST_NUMBERS: usize = 5;

// The command of a word. The parser is asked: a verb's word with the right count of numbers, and what follows them, is a command.
fn verb_of(alloc: Global, word: &[u8]) -> Result<Option<Verb>, AllocError> {
    let mut command = Command::new(alloc);
    for count in 0..=MOST_NUMBERS {
        let mut words = [word, b"0", b"0", b"0", b"0", b"0", b"", b"", b"", b""];
        words[count + 1] = b"000000000000000100000000";
        if are_command(alloc, &words[..count + 1], &mut command)? {
            return Ok(Some(command.verb));
        }
        if are_command(alloc, &words[..count + 2], &mut command)? {
            return Ok(Some(command.verb));
        }
        words[count + 1] = b"";
        if are_command(alloc, &words[..count + 2], &mut command)? {
            return Ok(Some(command.verb));
        }
    }
    let words = [word, b"m", b"0.0", b"0.0", b"0.0"];
    if are_command(alloc, &words, &mut command)? {
        return Ok(Some(command.verb));
    }
    Ok(None)
}

// The block of the record that a word spells, if it spells one.
fn block_in(alloc: Global, word: &[u8]) -> Result<Option<u64>, AllocError> {
    let mut command = Command::new(alloc);
    if are_command(alloc, &[b"at", word], &mut command)? {
        return Ok(Some(u64::from(command.record.block)));
    }
    Ok(None)
}

// Whether a word is a member, and whether its numbers are in range. The word is given three times, since a group has three
// members at least.
fn member_in(alloc: Global, word: &[u8]) -> Result<Option<bool>, AllocError> {
    let mut command = Command::new(alloc);
    if !are_command(alloc, &[b"make", b"m", word, word, word], &mut command)? {
        return Ok(None);
    }
    match command.members.first() {
        Some(named) => Ok(Some(named.drive <= 15 && named.extent <= 511)),
        None => Ok(None),
    }
}

// The first word of a group's class and members that isn't of its form.
fn blame_members(alloc: Global, line: &[u8], from: usize) -> Result<Blame<'_>, AllocError> {
    if !matches!(word_at(line, from), Some(b"m" | b"p")) {
        return Ok(blame_word(line, from, Intended::Class));
    }
    for number in 1..=8usize {
        let at = from.saturating_add(number);
        let Some(word) = word_at(line, at) else {
            return Ok(blame_at(line, at, Intended::MemberCount));
        };
        if member_in(alloc, word)?.is_none() {
            return Ok(blame_word(line, at, Intended::Member));
        }
    }
    Ok(blame_at(line, from.saturating_add(9), Intended::MemberCount))
}

// The word after a command's numbers that isn't of its form.
fn blame_tail<'l>(
    alloc: Global,
    line: &'l [u8],
    from: usize,
    tail: Tail,
    sizes: &Option<Sizes>,
) -> Result<Blame<'l>, AllocError> {
    let word = word_at(line, from);
    let following = from.saturating_add(1);
    match (tail, word) {
        (Tail::Nothing, _) => Ok(blame_word(line, from, Intended::End)),
        (Tail::Members, _) => blame_members(alloc, line, from),
        (Tail::Record, Some(word)) if block_in(alloc, word)?.is_some() => {
            Ok(blame_word(line, following, Intended::End))
        }
        (Tail::Record, _) => Ok(blame_word(line, from, Intended::Record)),
        (Tail::Payload, word) => {
            let bytes = match sizes {
                Some(sizes) => sizes.payload,
                None => 0,
            };
            if is_payload(word, bytes) {
                return Ok(blame_word(line, following, Intended::End));
            }
            Ok(blame_word(line, from, Intended::Payload(bytes)))
        }
    }
}

// Whether a word is a payload of `bytes` bytes.
fn is_payload(word: Option<&[u8]>, bytes: u64) -> bool {
    let Some(word) = word else { return false };
    word.len() as u64 == bytes.saturating_mul(2) && word.iter().all(|byte| byte.is_ascii_hexdigit())
}

/// The first word of a line that isn't of the form of a command that may be there. The line is one that was answered by `form`.
pub(crate) fn blame_form<'l>(
    alloc: Global,
    line: &'l [u8],
    sizes: &Option<Sizes>,
) -> Result<Blame<'l>, AllocError> {
    // First, because a carriage return makes any last word wrong, and isn't seen.
    if line.ends_with(b"\r") {
        let last = line.iter().filter(|byte| **byte == b' ').count();
        return Ok(blame_at(line, last, Intended::NoReturn));
    }
    let first = word_at(line, 0).unwrap_or(b"");
    let Some(verb) = verb_of(alloc, first)? else {
        return Ok(blame_word(line, 0, Intended::Verb));
    };
    match (sizes, verb) {
        (None, Verb::Array) => {}
        (None, _) => return Ok(blame_at(line, 0, Intended::Array)),
        (Some(_), Verb::Array) => return Ok(blame_at(line, 0, Intended::NoArray)),
        (Some(_), _) => {}
    }
    let row = verb.row();
    for (at, kind) in row.kinds.iter().enumerate() {
        let number = at.saturating_add(1);
        let is_number = match word_at(line, number) {
            Some(word) => number_of(word).is_some(),
            None => false,
        };
        if !is_number {
            return Ok(blame_word(line, number, Intended::Number(*kind, at)));
        }
    }
    blame_tail(
        alloc,
        line,
        row.kinds.len().saturating_add(1),
        row.tail,
        sizes,
    )
}

// The first member of a group that isn't in range.
fn blame_far_member(alloc: Global, line: &[u8], from: usize) -> Result<Blame<'_>, AllocError> {
    for number in 1..=8usize {
        let at = from.saturating_add(number);
        let Some(word) = word_at(line, at) else { break };
        if member_in(alloc, word)? != Some(true) {
            return Ok(blame_at(line, at, Intended::MemberWithin));
        }
    }
    Ok(blame_at(line, from, Intended::MemberWithin))
}

/// The first word of a line whose number is out of its range. The line is one that was answered by `range`.
pub(crate) fn blame_range<'l>(
    alloc: Global,
    line: &'l [u8],
    sizes: &Option<Sizes>,
) -> Result<Blame<'l>, AllocError> {
    let blocks = match sizes {
        Some(sizes) => sizes.blocks,
        None => 0,
    };
    let first = word_at(line, 0).unwrap_or(b"");
    let Some(verb) = verb_of(alloc, first)? else {
        return Ok(blame_at(line, 0, Intended::Verb));
    };
    let row = verb.row();
    for (at, kind) in row.kinds.iter().enumerate() {
        let number = at.saturating_add(1);
        let is_fine = match word_at(line, number) {
            Some(word) => match number_of(word) {
                Some(value) => is_within(*kind, at, blocks, value),
                None => false,
            },
            None => false,
        };
        if !is_fine {
            return Ok(blame_at(line, number, Intended::Within(*kind, at, blocks)));
        }
    }
    let from = row.kinds.len().saturating_add(1);
    match row.tail {
        Tail::Members => blame_far_member(alloc, line, from),
        _ => Ok(blame_at(line, from, Intended::RecordWithin(blocks))),
    }
}
