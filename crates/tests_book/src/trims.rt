// Trims of workers: their records and what is read then.
use crate::asserts::check;
use crate::calls::{moved, reads_none, reads_trim, record, trim, trim_by, write};
use crate::points::Reached;
use crate::rig::{Layout, Story, lived};
use array_book::{Controller, Migration, NoGate, Sizes, WorkFault, Worker};
use std::alloc::Global;
use std::process::Abort;
use std::sync::Wait;
use step_core::MemDrive;

// Workers 1 and 2 trim what they have written, and each other's blocks. A header stays at a slot until the slot is filled.
struct TrimsInTurn;

impl Story for TrimsInTurn {
    fn report_all<
        N: slot_words::Naming + Sizes,
        A: map_words::Naming,
        B: map_words::Naming,
        R: Abort + Wait,
    >(&self, rt: &R, alloc: Global, workers: &mut [Worker<'_, MemDrive, N, A, B>]) {
        let (even, odd) = (Controller::Even, Controller::Odd);
        check!(rt; workers.len() == 2);
        let gate = Reached::new(true);
        check!(rt; write(rt, alloc, &mut workers[0], 3, 7) == Ok(record(3, 1, 0, 0)));
        check!(rt; trim_by(rt, alloc, &mut workers[0], 3, &gate) == Ok(record(3, 2, 0, 1)));
        check!(rt; gate.digits() == 1234);
        check!(rt; reads_none(rt, alloc, &mut workers[0], even, 3));
        check!(rt; reads_trim(rt, alloc, &mut workers[0], odd, record(3, 2, 0, 1)));

        check!(rt; trim(rt, alloc, &mut workers[0], 9) == Ok(record(9, 1, 0, 0)));
        check!(rt; trim(rt, alloc, &mut workers[1], 9) == Ok(record(9, 2, 0, 2)));
        check!(rt; reads_trim(rt, alloc, &mut workers[1], even, record(9, 2, 0, 2)));

        check!(rt; reads_trim(rt, alloc, &mut workers[1], odd, record(9, 1, 0, 0)));
        check!(rt; write(rt, alloc, &mut workers[1], 4, 8) == Ok(record(4, 1, 0, 0)));
        check!(rt; reads_trim(rt, alloc, &mut workers[1], odd, record(9, 2, 0, 2)));
        check!(rt; write(rt, alloc, &mut workers[0], 9, 6) == Ok(record(9, 3, 0, 3)));
        check!(rt; reads_trim(rt, alloc, &mut workers[1], even, record(9, 2, 0, 2)));
    }
}

// Five trimmed blocks leave 43 of 48 mirrored slots free.
struct MovesATrim;

impl Story for MovesATrim {
    fn report<
        N: slot_words::Naming + Sizes,
        A: map_words::Naming,
        B: map_words::Naming,
        R: Abort + Wait,
    >(&self, rt: &R, alloc: Global, worker: &mut Worker<'_, MemDrive, N, A, B>) {
        for block in 0..5u16 {
            let trimmed = trim(rt, alloc, worker, u32::from(block));
            check!(rt; trimmed == Ok(record(u32::from(block), 1, 0, block)));
        }
        let demoted = moved(worker.migrate(rt, alloc, 44, &NoGate));
        check!(rt; demoted == Some(record(0, 1, 1, 256)));
        check!(rt; matches!(worker.migrate(rt, alloc, 44, &NoGate), Ok(Migration::Idle)));
        check!(rt; reads_trim(rt, alloc, worker, Controller::Even, record(0, 1, 1, 256)));
    }
}

// Two blocks fill the mirrored slots. A trim counts as a write in the order of last writes.
struct TrimsInLittleRoom;

impl Story for TrimsInLittleRoom {
    fn layout(&self) -> Layout {
        Layout::Small
    }

    fn report<
        N: slot_words::Naming + Sizes,
        A: map_words::Naming,
        B: map_words::Naming,
        R: Abort + Wait,
    >(&self, rt: &R, alloc: Global, worker: &mut Worker<'_, MemDrive, N, A, B>) {
        check!(rt; trim(rt, alloc, worker, 0) == Ok(record(0, 1, 0, 0)));
        check!(rt; write(rt, alloc, worker, 1, 7) == Ok(record(1, 1, 0, 1)));
        check!(rt; trim(rt, alloc, worker, 2) == Err(WorkFault::NoRoom));
        check!(rt; trim(rt, alloc, worker, 0) == Err(WorkFault::NoRoom));

        let demoted = moved(worker.migrate(rt, alloc, 1, &NoGate));
        check!(rt; demoted == Some(record(0, 1, 1, 128)));
        check!(rt; trim(rt, alloc, worker, 1) == Ok(record(1, 2, 0, 0)));
        check!(rt; trim(rt, alloc, worker, 0) == Ok(record(0, 2, 0, 1)));
        let demoted = moved(worker.migrate(rt, alloc, 1, &NoGate));
        check!(rt; demoted == Some(record(1, 2, 1, 129)));
    }
}

#[test]
fn a_trimmed_block_is_read_as_a_record_without_a_payload(rt: HostRuntime) {
    let settled = lived(&rt, rt.alloc(), &[1, 2], &TrimsInTurn);
    check!(rt; settled == (Ok(()), 3));
}

#[test]
fn a_trimmed_block_is_moved(rt: HostRuntime) {
    let settled = lived(&rt, rt.alloc(), &[4], &MovesATrim);
    check!(rt; settled == (Ok(()), 5));
}

#[test]
fn a_trim_makes_its_block_the_last_written(rt: HostRuntime) {
    let settled = lived(&rt, rt.alloc(), &[4], &TrimsInLittleRoom);
    check!(rt; settled == (Ok(()), 2));
}
