// A move by one worker that waits at a point until another worker's call is acknowledged.
use crate::calls::{comes_to, moved, read, record, write};
use crate::rig::{Story, lived};
use array_book::{Controller, Gate, Migration, NoGate, Point, Sizes, WorkFault, Worker};
use map_join::Record;
use std::alloc::Global;
use std::process::Abort;
use std::sync::Wait;
use std::sync::atomic::AtomicU64;
use std::sync::atomic::Ordering::SeqCst;
use step_core::MemDrive;

// Worker 5 writes block 9 and moves it, and waits at this point until worker 2 is done. At point 1 worker 2 moves the block
// too, else it reads it at the odd controller and writes it. The keys of the outcomes.
#[derive(Drop)]
struct Halts {
    point: u64,
    reached: AtomicU64,
    done: AtomicU64,
    late: AtomicU64,
    moved: AtomicU64,
    outrun: AtomicU64,
    other: AtomicU64,
    seen: AtomicU64,
}

// What is expected: the record of the move, or the record that it was outrun by; the record of worker 2; and what that read.
#[derive(Clone, Copy, Debug, PartialEq, Eq)]
struct Expected {
    moved: Option<Record>,
    outrun: Option<Record>,
    other: Record,
    seen: Option<Record>,
}

// The key of a record, or 0.
fn key(record: Option<Record>) -> u64 {
    match record {
        Some(record) => record.key(),
        None => 0,
    }
}

impl Halts {
    fn new(point: u64) -> Halts {
        Halts {
            point,
            reached: AtomicU64::new(0),
            done: AtomicU64::new(0),
            late: AtomicU64::new(0),
            moved: AtomicU64::new(0),
            outrun: AtomicU64::new(0),
            other: AtomicU64::new(0),
            seen: AtomicU64::new(0),
        }
    }

    fn await_that(&self, number: &AtomicU64) {
        if !comes_to(number, 1) {
            self.late.fetch_add(1, SeqCst);
        }
    }

    // At point 1 the first parity slot is claimed; at point 2 the block is copied; at point 3 the move is committed; at point 4
    // slot 0 is released, and the odd controller has the record.
    fn expected(&self) -> Expected {
        let first = record(9, 1, 1, 256);
        let write = Expected {
            moved: Some(first),
            outrun: None,
            other: record(9, 2, 0, 1),
            seen: Some(record(9, 1, 0, 0)),
        };
        match self.point {
            1 => Expected {
                moved: Some(record(9, 1, 2, 256)),
                outrun: None,
                other: record(9, 1, 1, 257),
                seen: None,
            },
            2 => Expected {
                moved: None,
                outrun: Some(record(9, 2, 0, 1)),
                ..write
            },
            3 => write,
            _ => Expected {
                other: record(9, 2, 0, 0),
                seen: Some(first),
                ..write
            },
        }
    }
}

impl Gate for Halts {
    fn reach<R: Wait>(&self, point: Point, _rt: &R) {
        if point as u64 == self.point {
            self.reached.store(1, SeqCst);
            self.await_that(&self.done);
        }
    }
}

impl Story for Halts {
    fn work<N: slot_words::Naming + Sizes, A: map_words::Naming, B: map_words::Naming, R: Wait>(
        &self,
        rt: &R,
        alloc: Global,
        worker: &mut Worker<'_, MemDrive, N, A, B>,
    ) -> Result<(), WorkFault> {
        if worker.number() == 5 {
            write(rt, alloc, worker, 9, 5)?;
            match worker.migrate(rt, alloc, 48, self)? {
                Migration::Moved(emitted) => self.moved.store(emitted.record().key(), SeqCst),
                Migration::Outrun(newer) => self.outrun.store(newer.key(), SeqCst),
                Migration::Idle | Migration::NoRoom => {}
            }
            return Ok(());
        }
        self.await_that(&self.reached);
        if self.point == 1 {
            let other = moved(worker.migrate(rt, alloc, 48, &NoGate));
            self.other.store(key(other), SeqCst);
        } else {
            if let Some(reading) = read(rt, alloc, worker, Controller::Odd, 9)? {
                self.seen.store(reading.record().key(), SeqCst);
            }
            self.other
                .store(write(rt, alloc, worker, 9, 2)?.key(), SeqCst);
        }
        self.done.store(1, SeqCst);
        Ok(())
    }

    fn report<
        N: slot_words::Naming + Sizes,
        A: map_words::Naming,
        B: map_words::Naming,
        R: Abort + Wait,
    >(&self, rt: &R, _alloc: Global, _worker: &mut Worker<'_, MemDrive, N, A, B>) {
        let expected = self.expected();
        assert!(rt; self.late.load(SeqCst) == 0, "point {}", self.point);
        assert!(rt;
            self.moved.load(SeqCst) == key(expected.moved),
            "point {}",
            self.point
        );
        assert!(rt;
            self.outrun.load(SeqCst) == key(expected.outrun),
            "point {}",
            self.point
        );
        assert!(rt;
            self.other.load(SeqCst) == expected.other.key(),
            "point {}",
            self.point
        );
        assert!(rt;
            self.seen.load(SeqCst) == key(expected.seen),
            "point {}",
            self.point
        );
    }
}

#[test]
fn a_move_is_outrun_by_what_comes_between_its_copy_and_its_commit(rt: HostRuntime) {
    for point in 1..5u64 {
        let settled = lived(&rt, rt.alloc(), &[5, 2], &Halts::new(point));
        assert!(rt; settled == (Ok(()), 1), "point {point}");
    }
}
