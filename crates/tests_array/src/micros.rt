// Lists of single writes that were made manually, carried out in part or as a whole.
use crate::asserts::check;
use crate::lists::{Stop, blank_of, bytes_of, unit_of};
use crate::rig::record;
use std::alloc::Global;
use std::process::Abort;
use unit_store::{Micro, Note};

/// The list with one entry more.
fn with(rt: &impl Abort, list: Vec<Micro>, entry: Micro) -> Vec<Micro> {
    let mut longer = list;
    check!(rt; longer.push(entry).is_ok());
    longer
}

/// The entry that sets a note of a slot, with a payload that this byte names.
fn set(rt: &impl Abort, alloc: Global, slot: u16, byte: u8) -> Micro {
    Micro::NoteSet(Note {
        slot,
        unit: bytes_of(rt, alloc, &blank_of(byte)),
        parity: None,
    })
}

/// The entry that writes a payload that this byte names at address 1 of a drive.
fn put(rt: &impl Abort, alloc: Global, drive: u8, byte: u8) -> Micro {
    Micro::Write {
        drive,
        at: 1,
        unit: bytes_of(rt, alloc, &blank_of(byte)),
    }
}

/// A note, two writes of slot 1, and no note.
fn four(rt: &impl Abort, alloc: Global) -> Vec<Micro> {
    let noted = with(rt, Vec::new(alloc), set(rt, alloc, 1, 0x99));
    let half = with(rt, noted, put(rt, alloc, 0, 0x99));
    let whole = with(rt, half, put(rt, alloc, 1, 0x99));
    with(rt, whole, Micro::NoteClear)
}

#[test]
fn each_entry_is_carried_out_in_turn(rt: HostRuntime) {
    let old = unit_of(record(4, 1, 0, 1), 0x44);
    let new = blank_of(0x99);
    for n in [0, 1, 2, 3, 4, 5, 9, usize::MAX] {
        let mut stop = Stop::written(&rt, rt.alloc());
        let list = four(&rt, rt.alloc());
        stop.run(&rt, list, n);
        let noted = stop.notes(1, &new, None);
        check!(rt; noted == (n > 0 && n < 4) && noted == stop.parts.note.is_some());
        check!(rt; stop.holds(&rt, 0, 1, if n > 1 { new } else { old }));
        check!(rt; stop.holds(&rt, 1, 1, if n > 2 { new } else { old }));
    }
}

#[test]
fn no_entries_change_nothing(rt: HostRuntime) {
    let alloc = rt.alloc();
    let mut stop = Stop::written(&rt, alloc);
    let units = stop.all_units(&rt);
    for n in [0, 1, 9] {
        stop.run(&rt, Vec::new(alloc), n);
        check!(rt; stop.parts.note.is_none());
    }
    stop.run(&rt, with(&rt, Vec::new(alloc), set(&rt, alloc, 5, 0x55)), 9);
    check!(rt; stop.notes(5, &blank_of(0x55), None));
    stop.run(&rt, four(&rt, alloc), 0);
    stop.run(&rt, Vec::new(alloc), 9);
    check!(rt; stop.notes(5, &blank_of(0x55), None));
    check!(rt; stop.all_units(&rt) == units);
}

#[test]
fn a_note_is_replaced_by_the_next_and_cleared_once(rt: HostRuntime) {
    let alloc = rt.alloc();
    let mut stop = Stop::written(&rt, alloc);
    let units = stop.all_units(&rt);
    let first = with(
        &rt,
        with(&rt, Vec::new(alloc), Micro::NoteClear),
        set(&rt, alloc, 1, 0x99),
    );
    stop.run(&rt, with(&rt, first, set(&rt, alloc, 5, 0x55)), 3);
    check!(rt; stop.notes(5, &blank_of(0x55), None));
    for _time in 0..2 {
        stop.run(&rt, with(&rt, Vec::new(alloc), Micro::NoteClear), 1);
        check!(rt; stop.parts.note.is_none());
    }
    check!(rt; stop.all_units(&rt) == units);
}
