// Restarts over a note that was made manually: one that can be finished, and one that can't.
use crate::asserts::check;
use crate::lists::{Stop, blank_of, both_of, bytes_of, unit_of};
use crate::rig::{Rig, record};
use crate::units::UNIT;
use header_scan::ScanFault;
use std::alloc::Global;
use std::process::Abort;
use unit_store::Note;

/// A note over what `Stop::written` leaves: the drives that are lost before the restart, the slot, bytes of the unit, and bytes of
/// the parity, if there is one.
type Row = (&'static [u8], u16, usize, Option<usize>);

/// Bytes of a unit without its last, and with one more.
const SHORT: usize = 55;

const LONG: usize = 57;

/// No made group has the slot.
const NO_SLOT: [Row; 12] = [
    (&[], 200, UNIT, None),
    (&[], 200, UNIT, Some(UNIT)),
    (&[], 6, UNIT, None),
    (&[], 6, UNIT, Some(UNIT)),
    (&[], 127, UNIT, None),
    (&[], 127, UNIT, Some(UNIT)),
    (&[], 136, UNIT, None),
    (&[], 136, UNIT, Some(UNIT)),
    (&[], 256, UNIT, None),
    (&[], 256, UNIT, Some(UNIT)),
    (&[], 65_535, UNIT, None),
    (&[], 65_535, UNIT, Some(UNIT)),
];

/// The unit's length or the parity's is wrong.
const WRONG_LENGTH: [Row; 9] = [
    (&[], 1, SHORT, None),
    (&[], 1, LONG, None),
    (&[], 1, 0, None),
    (&[], 128, SHORT, Some(UNIT)),
    (&[], 128, LONG, Some(UNIT)),
    (&[], 128, 0, Some(UNIT)),
    (&[], 128, UNIT, Some(SHORT)),
    (&[], 128, UNIT, Some(LONG)),
    (&[], 128, UNIT, Some(0)),
];

/// A mirrored slot's note has a parity, or a parity slot's has none while the parity's drive is there.
const WRONG_PARITY: [Row; 5] = [
    (&[], 1, UNIT, Some(UNIT)),
    (&[], 1, UNIT, Some(0)),
    (&[], 128, UNIT, None),
    (&[1], 128, UNIT, None),
    (&[2], 128, UNIT, None),
];

/// The note can be finished. Slot 128's needs no parity where the parity's drive is lost, and may have one there.
const GOOD: [Row; 8] = [
    (&[], 1, UNIT, None),
    (&[0], 1, UNIT, None),
    (&[1], 1, UNIT, None),
    (&[], 128, UNIT, Some(UNIT)),
    (&[3], 128, UNIT, None),
    (&[3], 128, UNIT, Some(UNIT)),
    (&[1], 128, UNIT, Some(UNIT)),
    (&[2], 128, UNIT, Some(UNIT)),
];

/// What a note of the slot has as its unit: block 3 as it is committed at slot 128, or a payload without a record.
fn unit_for(slot: u16) -> [u8; UNIT] {
    if slot == 128 {
        unit_of(record(3, 1, 1, 128), 0x11)
    } else {
        blank_of(0x99)
    }
}

/// What a note has as its parity: that of block 3's unit at slot 128 and block 4's at slot 130.
fn parity_for() -> [u8; UNIT] {
    both_of(unit_for(128), unit_of(record(4, 1, 1, 130), 0x44))
}

/// The first `size` bytes of a unit, with zeros after its end.
fn cut(rt: &impl Abort, alloc: Global, unit: [u8; UNIT], size: usize) -> Vec<u8> {
    let mut bytes = bytes_of(rt, alloc, &unit);
    check!(rt; bytes.resize(size, 0).is_ok());
    bytes
}

/// The note of a row.
fn note_of(rt: &impl Abort, alloc: Global, row: &Row) -> Note {
    let (_lost, slot, size, sum) = *row;
    let parity = match sum {
        Some(sum) => Some(cut(rt, alloc, parity_for(), sum)),
        None => None,
    };
    Note {
        slot,
        unit: cut(rt, alloc, unit_for(slot), size),
        parity,
    }
}

/// What is stopped with the note of a row.
fn stopped(rt: &impl Abort, alloc: Global, row: &Row) -> Stop {
    let mut stop = Stop::written(rt, alloc);
    stop.lose(rt, row.0);
    stop.parts.note = Some(note_of(rt, alloc, row));
    stop
}

/// Whether the note is that of a row.
fn has_note_of(rt: &impl Abort, stop: &Stop, row: &Row) -> bool {
    let note = note_of(rt, stop.alloc, row);
    match &note.parity {
        Some(sum) => stop.notes(note.slot, &note.unit, Some(sum)),
        None => stop.notes(note.slot, &note.unit, None),
    }
}

/// A restart over the note of a row is refused with its slot, and no byte has changed.
fn is_bad(rt: &impl Abort, alloc: Global, row: &Row) {
    let mut stop = stopped(rt, alloc, row);
    let units = stop.all_units(rt);
    assert!(rt; stop.bad_note(rt) == Some(row.1), "{row:?}");
    let (fault, mut left) = stop.refused(rt);
    assert!(rt;
        fault == ScanFault::BadNote(row.1) && fault.number() == 7,
        "{row:?}"
    );
    assert!(rt; has_note_of(rt, &left, row), "{row:?}");
    assert!(rt; left.all_units(rt) == units, "{row:?}");
}

/// Whether the array's log has block 3 at this slot and hop, and block 4 at slot 130, with their payloads.
fn reads_both(rt: &impl Abort, rig: &mut Rig, hop: u16, slot: u16) -> bool {
    let expected = [record(3, 1, hop, slot), record(4, 1, 1, 130)];
    let Ok(log) = rig.array.records_from(rig.alloc, 0) else {
        return false;
    };
    log.as_slice() == expected.as_slice() && rig.reads(rt, 3, 1, 0x11) && rig.reads(rt, 4, 1, 0x44)
}

/// A restart over the note of a row finishes it.
fn is_good(rt: &impl Abort, alloc: Global, row: &Row) {
    let stop = stopped(rt, alloc, row);
    assert!(rt; stop.bad_note(rt).is_none(), "{row:?}");
    let mut rig = stop.restarted(rt);
    if row.1 == 128 {
        assert!(rt; reads_both(rt, &mut rig, 1, 128), "{row:?}");
    } else {
        assert!(rt; reads_both(rt, &mut rig, 0, 0), "{row:?}");
    }
}

#[test]
fn a_bad_note_is_refused_and_changes_nothing(rt: HostRuntime) {
    for row in &NO_SLOT {
        is_bad(&rt, rt.alloc(), row);
    }
    for row in &WRONG_LENGTH {
        is_bad(&rt, rt.alloc(), row);
    }
    for row in &WRONG_PARITY {
        is_bad(&rt, rt.alloc(), row);
    }
}

#[test]
fn a_good_note_is_finished_by_a_restart(rt: HostRuntime) {
    check!(rt; Stop::written(&rt, rt.alloc()).bad_note(&rt).is_none());
    for row in &GOOD {
        is_good(&rt, rt.alloc(), row);
    }
}
