// Stops inside a step: after any number of its single writes, and with drives lost, a restart finds the state of before the
// step or of after it.
use crate::asserts::check;
use crate::lists::{Stop, blank_of, both_of, unit_of};
use crate::rig::{Rig, payload_of, record};
use crate::units::UNIT;
use header_scan::ScanFault;
use map_join::Record;
use std::alloc::Global;
use std::process::Abort;
use step_core::{At, Refusal};
use unit_store::Micro;

/// The drives that are lost after a stop: none, or one of the four.
const LOSSES: [&[u8]; 5] = [&[], &[0], &[1], &[2], &[3]];

/// The entries that are carried out: none to all four, and more than there are.
const COUNTS: [usize; 6] = [0, 1, 2, 3, 4, 9];

/// Block 3 where it was written, and where its commit puts it.
const BEFORE: Record = Record {
    block: 3,
    version: 1,
    hop: 0,
    place: 0,
};

const AFTER: Record = Record {
    block: 3,
    version: 1,
    hop: 1,
    place: 128,
};

/// Block 4, which no step here writes.
const OTHER: Record = Record {
    block: 4,
    version: 1,
    hop: 1,
    place: 130,
};

/// The list of the commit of block 3 at slot 128.
fn commit_list(rt: &impl Abort, stop: &mut Stop) -> Vec<Micro> {
    stop.plan(rt, 128, unit_of(AFTER, 0x11))
}

/// Whether the entry writes this unit at an address of a drive.
fn writes(micro: &Micro, drive: u8, at: u32, unit: [u8; UNIT]) -> bool {
    match micro {
        Micro::Write {
            drive: to,
            at: there,
            unit: bytes,
        } => *to == drive && *there == at && bytes.as_slice() == unit.as_slice(),
        _ => false,
    }
}

/// Whether the units of drives 1 to 3 at an address add up to zero, or one of them is lost.
fn adds_up(rt: &impl Abort, stop: &mut Stop, at: u32) -> bool {
    match (
        stop.peek(rt, 1, at),
        stop.peek(rt, 2, at),
        stop.peek(rt, 3, at),
    ) {
        (Some(one), Some(two), Some(three)) => both_of(both_of(one, two), three) == [0; UNIT],
        _ => true,
    }
}

/// Whether two drives hold the same unit at these addresses, or one of them is lost.
fn are_copies(rt: &impl Abort, stop: &mut Stop, one: (usize, u32), other: (usize, u32)) -> bool {
    match (stop.peek(rt, one.0, one.1), stop.peek(rt, other.0, other.1)) {
        (Some(first), Some(second)) => first == second,
        _ => true,
    }
}

/// Whether a restart without the claim that it needs first leaves no note, and copies and parities that agree.
fn is_settled(rt: &impl Abort, stop: Stop, lowest: u16) -> Stop {
    let (fault, mut left) = stop.refused(rt);
    check!(rt; fault == ScanFault::NoClaim(lowest));
    check!(rt; left.parts.note.is_none());
    for at in 4..8 {
        check!(rt; adds_up(rt, &mut left, at));
    }
    for at in 0..2 {
        check!(rt; are_copies(rt, &mut left, (0, at), (1, at)));
        check!(rt; are_copies(rt, &mut left, (2, at), (0, at + 2)));
        check!(rt; are_copies(rt, &mut left, (1, at + 2), (2, at + 2)));
    }
    left
}

/// Whether the array's log is these two records.
fn lists(rig: &Rig, expected: [Record; 2]) -> bool {
    match rig.array.records_from(rig.alloc, 0) {
        Ok(log) => log.as_slice() == expected.as_slice(),
        Err(_) => false,
    }
}

/// Restarts what was stopped in the commit of block 3, whose newest record then is this one: blocks 3 and 4 have their payloads.
fn commit_matches(rt: &impl Abort, stop: Stop, newest: Record) {
    let mut rig = is_settled(rt, stop, newest.place).restarted(rt);
    check!(rt; lists(&rig, [newest, OTHER]));
    check!(rt; rig.reads(rt, 3, 1, 0x11) && rig.reads(rt, 4, 1, 0x44));
    check!(rt; rig.finds(rt, BEFORE, 0x11) && rig.finds(rt, OTHER, 0x44));
    if newest == AFTER {
        check!(rt; rig.finds(rt, AFTER, 0x11));
    } else {
        check!(rt; matches!(rig.read_at(rt, AFTER), Err(Refusal::Ahead(Some(BEFORE)))));
    }
}

/// Loses drives, carries out `n` entries of the commit, loses other drives, and restarts.
fn stops_in_commit(rt: &impl Abort, alloc: Global, between: &[u8], n: usize, lost: &[u8]) {
    let mut stop = Stop::written(rt, alloc);
    let list = commit_list(rt, &mut stop);
    stop.lose(rt, between);
    stop.run(rt, list, n);
    check!(rt; stop.parts.note.is_some() == (n > 0 && n < 4));
    stop.lose(rt, lost);
    commit_matches(rt, stop, if n == 0 { BEFORE } else { AFTER });
}

#[test]
fn the_list_of_a_commit_in_parity_is_a_note_and_two_writes(rt: HostRuntime) {
    let mut stop = Stop::written(&rt, rt.alloc());
    let list = commit_list(&rt, &mut stop);
    let unit = unit_of(AFTER, 0x11);
    // The other unit of the row is block 4's.
    let parity = both_of(unit, unit_of(OTHER, 0x44));
    check!(rt; parity[..16] == [0, 0, 0, 0, 0, 0, 0, 7, 0, 0, 0, 0, 0, 0, 0, 2]);
    check!(rt; list.len() == 4);
    check!(rt;
        matches!(&list[0], Micro::NoteSet(note) if note.slot == 128
        && note.unit.as_slice() == unit.as_slice() && note.parity.is_some())
    );
    check!(rt; writes(&list[1], 1, 4, unit) && writes(&list[2], 3, 4, parity));
    check!(rt; matches!(&list[3], Micro::NoteClear));
    stop.run(&rt, list, 1);
    check!(rt; stop.notes(128, &unit, Some(&parity)));
}

#[test]
fn a_stop_in_a_commit_leaves_each_block_as_before_or_after_it(rt: HostRuntime) {
    for n in COUNTS {
        for lost in LOSSES {
            stops_in_commit(&rt, rt.alloc(), &[], n, lost);
        }
    }
}

#[test]
fn a_commit_is_finished_without_a_drive_that_was_lost_before_its_writes(rt: HostRuntime) {
    for n in [1, 2, 3, 4] {
        stops_in_commit(&rt, rt.alloc(), &[0, 3], n, &[]);
        stops_in_commit(&rt, rt.alloc(), &[1], n, &[]);
    }
}

/// Carries out two entries of a list, to the data's write, and loses the note and block 4's drive.
fn without_a_note(rt: &impl Abort, stop: &mut Stop, list: Vec<Micro>) {
    stop.run(rt, list, 2);
    stop.parts.note = None;
    stop.lose(rt, &[2]);
}

#[test]
fn without_its_note_a_commit_breaks_the_header_of_another_block(rt: HostRuntime) {
    let mut stop = Stop::written(&rt, rt.alloc());
    let list = commit_list(&rt, &mut stop);
    without_a_note(&rt, &mut stop, list);
    let (fault, _left) = stop.refused(&rt);
    check!(rt; fault == ScanFault::BadHeader(130));
}

#[test]
fn without_its_note_a_copy_breaks_the_payload_of_another_block(rt: HostRuntime) {
    let mut stop = Stop::written(&rt, rt.alloc());
    let list = stop.plan(&rt, 128, blank_of(0x99));
    without_a_note(&rt, &mut stop, list);
    let mut rig = stop.restarted(&rt);
    check!(rt; rig.array.shape().blocks == 16);
    check!(rt; rig.array.newest(4) == Some(OTHER));
    let Ok(Some((version, payload))) = rig.read(&rt, 4) else {
        rt.panic("not read")
    };
    check!(rt; version == 1 && payload.as_slice() != payload_of(0x44).as_slice());
    // What the parity has of slot 128 is block 3's payload, which was there before.
    let broken = both_of(both_of(blank_of(0x11), blank_of(0x99)), blank_of(0x44));
    check!(rt; payload.as_slice() == &broken[32..]);
}

#[test]
fn with_its_note_a_copy_leaves_the_payloads_of_others(rt: HostRuntime) {
    for n in COUNTS {
        for lost in LOSSES {
            let mut stop = Stop::written(&rt, rt.alloc());
            let list = stop.plan(&rt, 128, blank_of(0x99));
            stop.run(&rt, list, n);
            stop.lose(&rt, lost);
            commit_matches(&rt, stop, BEFORE);
        }
    }
}

/// Loses drives, plans a fill of slot 1 over block 4's old unit, loses drives, carries out `n` entries, loses drives, and restarts:
/// before the first entry the old record is there, and after it none.
fn stops_in_fill(rt: &impl Abort, alloc: Global, lost: [&[u8]; 3], n: usize, entries: usize) {
    let [before, between, then] = lost;
    let mut stop = Stop::written(rt, alloc);
    stop.lose(rt, before);
    let list = stop.plan(rt, 1, blank_of(0xF6));
    check!(rt; list.len() == entries);
    stop.lose(rt, between);
    stop.run(rt, list, n);
    stop.lose(rt, then);
    fill_matches(rt, stop, n > 0);
}

/// Restarts what was stopped in the fill of slot 1: it has the new unit or the old one.
fn fill_matches(rt: &impl Abort, stop: Stop, filled: bool) {
    let old = record(4, 1, 0, 1);
    let mut left = is_settled(rt, stop, 0);
    let expected = if filled {
        blank_of(0xF6)
    } else {
        unit_of(old, 0x44)
    };
    for drive in 0..2 {
        let is_lost = left.peek(rt, drive, 0).is_none();
        check!(rt; is_lost || left.holds(rt, drive, 1, expected));
    }
    let mut rig = left.restarted(rt);
    check!(rt; lists(&rig, [BEFORE, OTHER]));
    check!(rt; rig.reads(rt, 3, 1, 0x11) && rig.reads(rt, 4, 1, 0x44));
    if filled {
        check!(rt; matches!(rig.read_at(rt, old), Ok(At::Stale(_))));
    } else {
        check!(rt; rig.finds(rt, old, 0x44));
    }
}

#[test]
fn a_stop_in_a_fill_leaves_the_old_unit_or_the_new(rt: HostRuntime) {
    for n in COUNTS {
        for lost in LOSSES {
            stops_in_fill(&rt, rt.alloc(), [&[], &[], lost], n, 4);
        }
        for copy in [&[0u8], &[1]] {
            stops_in_fill(&rt, rt.alloc(), [copy, &[], &[]], n, 3);
            stops_in_fill(&rt, rt.alloc(), [&[], copy, &[]], n, 4);
        }
    }
}

#[test]
fn a_write_to_a_lost_copy_is_skipped_and_counted(rt: HostRuntime) {
    for (n, written) in [(1, false), (2, false), (3, true), (4, true)] {
        let mut stop = Stop::written(&rt, rt.alloc());
        let list = stop.plan(&rt, 1, blank_of(0xF6));
        stop.lose(&rt, &[0]);
        stop.run(&rt, list, n);
        let old = unit_of(record(4, 1, 0, 1), 0x44);
        check!(rt; stop.holds(&rt, 1, 1, if written { blank_of(0xF6) } else { old }));
        check!(rt; stop.peek(&rt, 0, 1).is_none());
        check!(rt; stop.parts.note.is_some() == (n < 4));
    }
}
