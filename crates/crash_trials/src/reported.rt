// Records, refusals and answers as the tables spell them.
use crate::payloads::content_of;
use flat_machine::Refusal;
use header_scan::ScanFault;
use map_join::Record;
use std::alloc::{AllocError, Global};
use step_core::{Answer, At};

/// A record: block, version, hop and place.
pub(crate) fn record_text(alloc: Global, reported: Record) -> Result<String, AllocError> {
    let Record {
        block,
        version,
        hop,
        place,
    } = reported;
    format!(in alloc; "{block} {version} {hop} {place}")
}

/// A refusal: its number, and what it names.
pub(crate) fn refusal_text(alloc: Global, refusal: &Refusal) -> Result<String, AllocError> {
    let number = refusal.number();
    match refusal {
        Refusal::Outrun(reported) => numbered(alloc, number, *reported),
        Refusal::Ahead(Some(reported)) => numbered(alloc, number, *reported),
        Refusal::Gone(slot) => format!(in alloc; "refused {number} {slot}"),
        Refusal::SlotsHeld(slot) => format!(in alloc; "refused {number} {slot}"),
        Refusal::DriveLost(drive) => format!(in alloc; "refused {number} {drive}"),
        _ => format!(in alloc; "refused {number}"),
    }
}

fn numbered(alloc: Global, number: u8, reported: Record) -> Result<String, AllocError> {
    let reported = record_text(alloc, reported)?;
    format!(in alloc; "refused {number} {reported}")
}

/// An answer of a step of a setup.
pub(crate) fn answer_text(alloc: Global, answer: &Answer) -> Result<String, AllocError> {
    match answer {
        Answer::Claimed(slot) => format!(in alloc; "claimed {slot}"),
        Answer::Taken(slot) => format!(in alloc; "taken {slot}"),
        Answer::Released(slot) => format!(in alloc; "released {slot}"),
        Answer::NotHeld(slot) => format!(in alloc; "notheld {slot}"),
        Answer::Filled(slot) => format!(in alloc; "filled {slot}"),
        Answer::Copied(slot) => format!(in alloc; "copied {slot}"),
        Answer::Made(group) => format!(in alloc; "made {group}"),
        Answer::Lost(drive) => format!(in alloc; "lost {drive}"),
        Answer::Refused(refusal) => refusal_text(alloc, refusal),
        Answer::Committed(reported) => {
            let reported = record_text(alloc, *reported)?;
            format!(in alloc; "record {reported}")
        }
        _ => String::from_str(alloc, "another answer"),
    }
}

/// What lies at a record's place.
pub(crate) fn at_text(alloc: Global, found: &Result<At, Refusal>) -> Result<String, AllocError> {
    match found {
        Ok(At::Data(payload)) => {
            let content = content_of(alloc, Some(payload))?;
            format!(in alloc; "data {content}")
        }
        Ok(At::Trimmed) => String::from_str(alloc, "trimmed"),
        Ok(At::Stale(None)) => String::from_str(alloc, "stale"),
        Ok(At::Stale(Some(reported))) => {
            let reported = record_text(alloc, *reported)?;
            format!(in alloc; "stale {reported}")
        }
        Err(refusal) => refusal_text(alloc, refusal),
    }
}

/// A restart's fault: a bad note with its slot, or the fault's number and what it names first.
pub(crate) fn fault_text(alloc: Global, fault: ScanFault) -> Result<String, AllocError> {
    let number = fault.number();
    match fault {
        ScanFault::BadNote(slot) => format!(in alloc; "badnote {slot}"),
        ScanFault::BadHeader(slot) => format!(in alloc; "fault {number} {slot}"),
        ScanFault::WrongSlot(slot, _) => format!(in alloc; "fault {number} {slot}"),
        ScanFault::Twice(block, _, _) => format!(in alloc; "fault {number} {block}"),
        ScanFault::Gone(slot) => format!(in alloc; "fault {number} {slot}"),
        ScanFault::NoClaim(slot) => format!(in alloc; "fault {number} {slot}"),
        ScanFault::Memory => format!(in alloc; "fault {number}"),
    }
}
