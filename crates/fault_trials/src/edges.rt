// Readers and writers that fail after each byte of a script and of its answers.
use crate::chunks::{Feed, Sink, Then};
use crate::trouble::Trouble;
use script_io::{End, run_script};
use std::alloc::Global;

/// How many runs ended by a failed read, and how many by a write that failed or accepted no byte.
#[derive(Drop)]
pub(crate) struct Edges {
    pub(crate) readers: u64,
    pub(crate) writers: u64,
}

/// Runs a script, each line of which has a line of the answers, with a reader that fails after each of its bytes and a writer
/// that fails or takes nothing after each byte of the answers.
pub(crate) fn break_off(alloc: Global, script: &[u8], answers: &[u8]) -> Result<Edges, Trouble> {
    let mut counts = Edges {
        readers: 0,
        writers: 0,
    };
    for count in 0..script.len() {
        let (front, following) = script.split_at_checked(count).ok_or(Trouble::Input)?;
        let expected = lines_of(answers, front);
        // With 3 bytes a read lines are cut, with 4,096 most lie in one read.
        for (then, piece) in [
            (Then::Fail, 3),
            (Then::Fail, 4_096),
            (Then::FailOnce, 4_096),
        ] {
            read_breaks(
                alloc,
                Feed {
                    front,
                    then,
                    following,
                    piece,
                },
                expected,
            )?;
            counts.readers = counts.readers.saturating_add(1);
        }
    }
    for room in 0..answers.len() {
        let expected = answers.get(..room).ok_or(Trouble::Input)?;
        for (fails, goes_on) in [(false, false), (false, true), (true, false), (true, true)] {
            write_breaks(alloc, script, expected, fails, goes_on)?;
            counts.writers = counts.writers.saturating_add(1);
        }
    }
    Ok(counts)
}

// The answers to the whole lines of a prefix of a script.
fn lines_of<'a>(answers: &'a [u8], front: &[u8]) -> &'a [u8] {
    let mut lines = 0usize;
    for byte in front {
        lines = lines.saturating_add(usize::from(*byte == b'\n'));
    }
    let mut length = 0usize;
    for byte in answers {
        if lines == 0 {
            break;
        }
        length = length.saturating_add(1);
        lines = lines.saturating_sub(usize::from(*byte == b'\n'));
    }
    answers.get(..length).unwrap_or(answers)
}

fn read_breaks(alloc: Global, reader: Feed<'_>, expected: &[u8]) -> Result<(), Trouble> {
    let mut reader = reader;
    let mut bytes = Vec::new(alloc);
    match run_script(alloc, &mut reader, &mut bytes) {
        End::ReadFault if bytes.as_slice() == expected => Ok(()),
        End::Memory => Err(Trouble::Memory),
        _ => Err(Trouble::Wrong),
    }
}

fn write_breaks(
    alloc: Global,
    script: &[u8],
    expected: &[u8],
    fails: bool,
    goes_on: bool,
) -> Result<(), Trouble> {
    let mut reader = Feed {
        front: script,
        then: Then::End,
        following: &[],
        piece: 4_096,
    };
    let mut writer = Sink {
        taken: Vec::new(alloc),
        room: expected.len(),
        // So that most answers take more than one write.
        piece: 5,
        fails,
        goes_on,
    };
    match run_script(alloc, &mut reader, &mut writer) {
        End::WriteFault if writer.taken.as_slice() == expected => Ok(()),
        End::Memory => Err(Trouble::Memory),
        _ => Err(Trouble::Wrong),
    }
}
