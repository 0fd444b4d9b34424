// Answers of a world as lines.
use crate::payloads::payload_of;
use crate::words::{NUMBERS, Words};
use map_join::Record;
use step_core::{Answer, At, Refusal};

/// Above all bytes: represents a payload that no number names.
const NO_NUMBER: u32 = 256;

/// Whether an answer is the one that a line spells.
pub(crate) fn is_answer(expected: &Words<'_>, answer: &Answer) -> bool {
    let (verb, numbers) = reported(answer);
    expected.verb == verb && expected.numbers == numbers
}

/// Whether there is one answer for each line, and each answer is the one that its line spells.
pub(crate) fn are_answers(expected: &[Words<'_>], answers: &[Answer]) -> bool {
    for (line, answer) in expected.iter().zip(answers) {
        if !is_answer(line, answer) {
            return false;
        }
    }
    expected.len() == answers.len()
}

fn reported(answer: &Answer) -> (&'static str, [u32; NUMBERS]) {
    match answer {
        Answer::Claimed(slot) => ("claimed", one(*slot)),
        Answer::Taken(slot) => ("taken", one(*slot)),
        Answer::Released(slot) => ("released", one(*slot)),
        Answer::NotHeld(slot) => ("notheld", one(*slot)),
        Answer::Filled(slot) => ("filled", one(*slot)),
        Answer::Copied(slot) => ("copied", one(*slot)),
        Answer::Discarded(slot) => ("discarded", one(*slot)),
        Answer::Committed(record) => ("record", numbers_of(*record)),
        Answer::Read(None) => ("none", [0; NUMBERS]),
        Answer::Read(Some((version, payload))) => {
            ("data", [*version, number_of(payload), 0, 0, 0, 0, 0, 0])
        }
        Answer::Found(At::Data(payload)) => ("data", [number_of(payload), 0, 0, 0, 0, 0, 0, 0]),
        Answer::Found(At::Trimmed) => ("trimmed", [0; NUMBERS]),
        Answer::Found(At::Stale(None)) => ("stale", [0; NUMBERS]),
        Answer::Found(At::Stale(Some(record))) => ("stale", numbers_of(*record)),
        Answer::Made(group) => ("made", one(*group)),
        Answer::Unmade(group) => ("unmade", one(*group)),
        Answer::Shifted => ("moved", [0; NUMBERS]),
        Answer::Added(drive) => ("added", one(u16::from(*drive))),
        Answer::Lost(drive) => ("lost", one(u16::from(*drive))),
        Answer::Refused(refusal) => ("refused", refused(refusal)),
    }
}

fn one(number: u16) -> [u32; NUMBERS] {
    [u32::from(number), 0, 0, 0, 0, 0, 0, 0]
}

fn numbers_of(record: Record) -> [u32; NUMBERS] {
    let Record {
        block,
        version,
        hop,
        place,
    } = record;
    [block, version, u32::from(hop), u32::from(place), 0, 0, 0, 0]
}

// The refusal's number, and what it names.
fn refused(refusal: &Refusal) -> [u32; NUMBERS] {
    let number = u32::from(refusal.number());
    let [block, version, hop, place, _, _, _, _] = match refusal {
        Refusal::Outrun(record) => numbers_of(*record),
        Refusal::Gone(slot) => one(*slot),
        Refusal::SlotsHeld(slot) => one(*slot),
        Refusal::DriveLost(drive) => one(u16::from(*drive)),
        Refusal::Ahead(Some(record)) => numbers_of(*record),
        _ => [0; NUMBERS],
    };
    [number, block, version, hop, place, 0, 0, 0]
}

// The number that names the payload.
fn number_of(payload: &[u8]) -> u32 {
    match payload.first() {
        Some(first) if payload == payload_of(*first).as_slice() => u32::from(*first),
        _ => NO_NUMBER,
    }
}
