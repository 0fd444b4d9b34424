// Scripts that were changed by a fixed rule, read in pieces of several sizes.
use crate::chunks::{Feed, Then};
use crate::noise::Noise;
use crate::trouble::Trouble;
use memchr::{memchr, memrchr};
use script_io::{End, run_script};
use std::alloc::{AllocError, Global};

/// The words that an answer begins with.
const ANSWERS: &str =
    "array made unmade claimed taken released notheld filled copied record discarded data trimmed none \
    stale noroom nothing moved added lost took merged same differs map log scan restarted refused";

/// How many scripts were run, and how many of them to their end and to a fault.
#[derive(Drop)]
pub(crate) struct Mutants {
    pub(crate) scripts: u32,
    pub(crate) whole: u32,
    pub(crate) faults: u32,
}

/// What a run wrote, and how it ended.
#[derive(Drop)]
struct Said {
    end: End,
    bytes: Vec<u8>,
}

/// Changes a script and runs it, `count` times. The answers must not depend on the size of the pieces in which it is read.
pub(crate) fn run_mutants(
    alloc: Global,
    seed: u32,
    count: u32,
    script: &[u8],
) -> Result<Mutants, Trouble> {
    let mut noise = Noise::new(u64::from(seed));
    let mut counts = Mutants {
        scripts: count,
        whole: 0,
        faults: 0,
    };
    for _ in 0..count {
        let changed = mutated(alloc, &mut noise, script)?;
        match run_in_pieces(alloc, &changed)? {
            End::Whole => counts.whole = counts.whole.saturating_add(1),
            End::Fault => counts.faults = counts.faults.saturating_add(1),
            End::Memory => return Err(Trouble::Memory),
            _ => return Err(Trouble::Wrong),
        }
    }
    Ok(counts)
}

/// The script as it is changed for the last of `count` runs. The earlier ones are made too, since each takes numbers of the
/// same sequence.
pub(crate) fn mutant(
    alloc: Global,
    seed: u32,
    count: u32,
    script: &[u8],
) -> Result<Vec<u8>, Trouble> {
    let mut noise = Noise::new(u64::from(seed));
    let mut changed = Vec::new(alloc);
    for _ in 0..count {
        changed = mutated(alloc, &mut noise, script)?;
    }
    Ok(changed)
}

// How a script ends. Its end and its answers must be the same for each size of pieces. One byte a read cuts each line, 4,096
// cut few.
fn run_in_pieces(alloc: Global, script: &[u8]) -> Result<End, Trouble> {
    let first = run(alloc, script, 1);
    if !is_answered(&first) {
        return Err(Trouble::Wrong);
    }
    for piece in [2, 7, 4_096] {
        let other = run(alloc, script, piece);
        if other.end != first.end || other.bytes.as_slice() != first.bytes.as_slice() {
            return Err(Trouble::Wrong);
        }
    }
    Ok(first.end)
}

fn run(alloc: Global, script: &[u8], piece: usize) -> Said {
    let mut bytes = Vec::new(alloc);
    let mut reader = Feed {
        front: script,
        then: Then::End,
        following: &[],
        piece,
    };
    let end = run_script(alloc, &mut reader, &mut bytes);
    Said { end, bytes }
}

// Whether each line is an answer, but for a last one that reports a fault where the run ended so.
fn is_answered(said: &Said) -> bool {
    let Ok(text) = str::from_utf8(&said.bytes) else {
        return false;
    };
    let lines = match said.end {
        End::Fault => {
            let (before, fault) = last_line(text);
            if !fault.starts_with("fault ") {
                return false;
            }
            before
        }
        _ => text,
    };
    for line in lines.lines() {
        if !is_answer(line) {
            return false;
        }
    }
    true
}

// A text's last line, and what is before it.
fn last_line(text: &str) -> (&str, &str) {
    let lines = text.strip_suffix('\n').unwrap_or(text);
    match lines.rsplit_once('\n') {
        Some((before, last)) => (before, last),
        None => ("", lines),
    }
}

fn is_answer(line: &str) -> bool {
    let verb = line.split(' ').next().unwrap_or("");
    for word in ANSWERS.split(' ') {
        if word == verb {
            return true;
        }
    }
    false
}

// One to three changes.
fn mutated(alloc: Global, noise: &mut Noise, script: &[u8]) -> Result<Vec<u8>, AllocError> {
    let mut changed = script.to_vec(alloc)?;
    for _ in 0..noise.below(3).saturating_add(1) {
        changed = changed_once(alloc, noise, &changed)?;
    }
    Ok(changed)
}

// Replaces a byte, doubles a line, cuts a line short, or joins a line with the next one.
fn changed_once(alloc: Global, noise: &mut Noise, script: &[u8]) -> Result<Vec<u8>, AllocError> {
    let length = u32::try_from(script.len()).unwrap_or(u32::MAX);
    let at = (noise.below(length) as usize).min(script.len());
    let (front, back) = script.split_at(at);
    let end = memchr(b'\n', back).unwrap_or(back.len());
    let rest = back.get(..end).unwrap_or(back);
    let following = back.get(end..).unwrap_or(&[]);
    let next = following.get(1..).unwrap_or(&[]);
    match noise.below(4) {
        0 => spliced(alloc, front, &[noise.byte()], back.get(1..).unwrap_or(&[])),
        1 => {
            let begun = match memrchr(b'\n', front) {
                Some(last) => front.get(last.saturating_add(1)..).unwrap_or(front),
                None => front,
            };
            let twice = spliced(alloc, rest, b"\n", begun)?;
            spliced(alloc, front, &spliced(alloc, &twice, rest, b"")?, following)
        }
        2 => spliced(alloc, front, b"", following),
        _ => spliced(alloc, front, rest, next),
    }
}

fn spliced(
    alloc: Global,
    front: &[u8],
    middle: &[u8],
    following: &[u8],
) -> Result<Vec<u8>, AllocError> {
    let mut bytes = front.to_vec(alloc)?;
    bytes.extend_from_slice(middle)?;
    bytes.extend_from_slice(following)?;
    Ok(bytes)
}
