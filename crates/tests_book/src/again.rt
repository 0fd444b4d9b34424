// A Book around an array that another Book has left: its order of last writes and its write log start over.
use crate::asserts::check;
use crate::books::one_after_other;
use crate::calls::{moved, reads, record, write};
use crate::rig::Story;
use array_book::{Controller, Migration, NoGate, Sizes, Worker};
use std::alloc::Global;
use std::process::Abort;
use std::sync::Wait;
use step_core::MemDrive;

// Block 9 is written before block 5.
struct WritesBoth;

impl Story for WritesBoth {
    fn report<
        N: slot_words::Naming + Sizes,
        A: map_words::Naming,
        B: map_words::Naming,
        R: Abort + Wait,
    >(&self, rt: &R, alloc: Global, worker: &mut Worker<'_, MemDrive, N, A, B>) {
        check!(rt; write(rt, alloc, worker, 9, 7) == Ok(record(9, 1, 0, 0)));
        check!(rt; write(rt, alloc, worker, 5, 8) == Ok(record(5, 1, 0, 1)));
    }
}

// Nothing was written in this Book, so the lower block goes first, to the first parity slot.
struct MovesBoth;

impl Story for MovesBoth {
    fn report<
        N: slot_words::Naming + Sizes,
        A: map_words::Naming,
        B: map_words::Naming,
        R: Abort + Wait,
    >(&self, rt: &R, alloc: Global, worker: &mut Worker<'_, MemDrive, N, A, B>) {
        let first = moved(worker.migrate(rt, alloc, 48, &NoGate));
        check!(rt; first == Some(record(5, 1, 1, 256)));
        let second = moved(worker.migrate(rt, alloc, 48, &NoGate));
        check!(rt; second == Some(record(9, 1, 1, 257)));
        check!(rt; matches!(worker.migrate(rt, alloc, 48, &NoGate), Ok(Migration::Idle)));
        check!(rt; reads(rt, alloc, worker, Controller::Even, record(9, 1, 1, 257), 7));
    }
}

#[test]
fn another_book_around_an_array_starts_over(rt: HostRuntime) {
    check!(rt; one_after_other(&rt, rt.alloc(), 0, &WritesBoth, &MovesBoth) == 2);
}
