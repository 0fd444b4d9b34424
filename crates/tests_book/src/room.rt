// Mirrored slots that are all claimed, and what a write and a trim find when one is released.
use crate::asserts::check;
use crate::books::one_after_other;
use crate::calls::{moved, reads, record, trim, write};
use crate::rig::Story;
use array_book::{Controller, NoGate, Sizes, WorkFault, Worker};
use std::alloc::Global;
use std::process::Abort;
use std::sync::Wait;
use step_core::MemDrive;

// No slot is left.
struct FindsNone;

impl Story for FindsNone {
    fn report<
        N: slot_words::Naming + Sizes,
        A: map_words::Naming,
        B: map_words::Naming,
        R: Abort + Wait,
    >(&self, rt: &R, alloc: Global, worker: &mut Worker<'_, MemDrive, N, A, B>) {
        check!(rt; write(rt, alloc, worker, 3, 7) == Err(WorkFault::NoRoom));
        check!(rt; trim(rt, alloc, worker, 3) == Err(WorkFault::NoRoom));
    }
}

// One slot is left, and is left again once its block was moved.
struct FindsOne;

impl Story for FindsOne {
    fn report<
        N: slot_words::Naming + Sizes,
        A: map_words::Naming,
        B: map_words::Naming,
        R: Abort + Wait,
    >(&self, rt: &R, alloc: Global, worker: &mut Worker<'_, MemDrive, N, A, B>) {
        check!(rt; write(rt, alloc, worker, 3, 7) == Ok(record(3, 1, 0, 151)));
        check!(rt; write(rt, alloc, worker, 3, 8) == Err(WorkFault::NoRoom));
        check!(rt; trim(rt, alloc, worker, 3) == Err(WorkFault::NoRoom));
        let demoted = moved(worker.migrate(rt, alloc, 48, &NoGate));
        check!(rt; demoted == Some(record(3, 1, 1, 256)));
        check!(rt; write(rt, alloc, worker, 3, 8) == Ok(record(3, 2, 0, 151)));
        check!(rt; reads(rt, alloc, worker, Controller::Even, record(3, 2, 0, 151), 8));
    }
}

#[test]
fn a_write_finds_no_room_until_a_slot_is_given_back(rt: HostRuntime) {
    check!(rt; one_after_other(&rt, rt.alloc(), 48, &FindsNone, &FindsOne) == 1);
}
