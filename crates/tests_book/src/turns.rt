// Two workers in threads that write one block: each has claimed before either commits, and worker 2's write is acknowledged
// before worker 1 goes on.
use crate::asserts::check;
use crate::calls::{comes_to, reads, record, write, write_by};
use crate::rig::{Story, lived};
use array_book::{Controller, Gate, Point, Sizes, WorkFault, Worker};
use map_join::Record;
use std::alloc::Global;
use std::process::Abort;
use std::sync::Wait;
use std::sync::atomic::AtomicU64;
use std::sync::atomic::Ordering::SeqCst;
use step_core::MemDrive;

// Worker 1 has claimed; then worker 2's write is acknowledged, with this key; then worker 1's. And how many waits ended too soon.
#[derive(Drop)]
struct Turns {
    claimed: AtomicU64,
    second: AtomicU64,
    first: AtomicU64,
    late: AtomicU64,
}

impl Turns {
    fn new() -> Turns {
        Turns {
            claimed: AtomicU64::new(0),
            second: AtomicU64::new(0),
            first: AtomicU64::new(0),
            late: AtomicU64::new(0),
        }
    }
}

// A worker's place among the two.
#[derive(Drop)]
struct Turn<'a> {
    number: u8,
    turns: &'a Turns,
}

impl<'a> Gate for Turn<'a> {
    fn reach<R: Wait>(&self, point: Point, _rt: &R) {
        if point != Point::Claimed {
            return;
        }
        let turns = self.turns;
        let awaited = if self.number == 1 {
            turns.claimed.store(1, SeqCst);
            &turns.second
        } else {
            &turns.claimed
        };
        if !comes_to(awaited, 1) {
            turns.late.fetch_add(1, SeqCst);
        }
    }
}

// The record of block 3 with this key.
fn record_of<R: Abort>(rt: &R, key: &AtomicU64) -> Record {
    let Some(record) = Record::of_key(3, key.load(SeqCst)) else {
        rt.panic("not written")
    };
    record
}

impl Story for Turns {
    fn work<N: slot_words::Naming + Sizes, A: map_words::Naming, B: map_words::Naming, R: Wait>(
        &self,
        rt: &R,
        alloc: Global,
        worker: &mut Worker<'_, MemDrive, N, A, B>,
    ) -> Result<(), WorkFault> {
        let number = worker.number();
        let turn = Turn {
            number,
            turns: self,
        };
        let written = write_by(rt, alloc, worker, 3, number, &turn)?;
        let key = if number == 1 {
            &self.first
        } else {
            &self.second
        };
        key.store(written.key(), SeqCst);
        Ok(())
    }

    fn report<
        N: slot_words::Naming + Sizes,
        A: map_words::Naming,
        B: map_words::Naming,
        R: Abort + Wait,
    >(&self, rt: &R, alloc: Global, worker: &mut Worker<'_, MemDrive, N, A, B>) {
        check!(rt; self.late.load(SeqCst) == 0);
        let older = record_of(rt, &self.second);
        let last = record_of(rt, &self.first);
        check!(rt; older.place < 2 && last.place < 2 && older.place != last.place);
        check!(rt; older == record(3, 1, 0, older.place));
        check!(rt; last == record(3, 2, 0, last.place));
        check!(rt; reads(rt, alloc, worker, Controller::Odd, last, 1));
        check!(rt; reads(rt, alloc, worker, Controller::Even, older, 2));
        check!(rt; write(rt, alloc, worker, 7, 3) == Ok(record(7, 1, 0, older.place)));
        check!(rt; reads(rt, alloc, worker, Controller::Even, last, 1));
    }
}

#[test]
fn the_last_commit_of_two_is_read_once_the_older_place_is_written_over(rt: HostRuntime) {
    let settled = lived(&rt, rt.alloc(), &[1, 2], &Turns::new());
    check!(rt; settled == (Ok(()), 2));
}
