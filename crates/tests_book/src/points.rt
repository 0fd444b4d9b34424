// The points of a write: their order, what is done at each, and that no lock is held there.
use crate::asserts::check;
use crate::calls::{comes_to, moved, read, record, trim_by, write, write_by};
use crate::rig::{Story, lived};
use array_book::{Controller, Gate, Point, Sizes, WorkFault, Worker};
use std::alloc::Global;
use std::process::Abort;
use std::sync::Wait;
use std::sync::atomic::AtomicU64;
use std::sync::atomic::Ordering::SeqCst;
use step_core::MemDrive;

/// The points that were reached, as the digits of a number, and whether the gate says that it waits.
#[derive(Drop)]
pub(crate) struct Reached {
    digits: AtomicU64,
    waits: bool,
}

impl Reached {
    pub(crate) fn new(waits: bool) -> Reached {
        Reached {
            digits: AtomicU64::new(0),
            waits,
        }
    }

    pub(crate) fn digits(&self) -> u64 {
        self.digits.load(SeqCst)
    }
}

impl Gate for Reached {
    fn reach<R: Wait>(&self, point: Point, _rt: &R) {
        let before = self.digits.load(SeqCst);
        self.digits
            .store(before.wrapping_mul(10).wrapping_add(point as u64), SeqCst);
    }

    fn waits(&self) -> bool {
        self.waits
    }
}

// Whether the gate says that it waits.
#[derive(Clone, Copy)]
struct WritesAndMoves(bool);

impl Story for WritesAndMoves {
    fn report<
        N: slot_words::Naming + Sizes,
        A: map_words::Naming,
        B: map_words::Naming,
        R: Abort + Wait,
    >(&self, rt: &R, alloc: Global, worker: &mut Worker<'_, MemDrive, N, A, B>) {
        let gate = Reached::new(self.0);
        let written = write_by(rt, alloc, worker, 3, 7, &gate);
        check!(rt; written == Ok(record(3, 1, 0, 0)));
        check!(rt; gate.digits() == 1234);
        let trimmed = trim_by(rt, alloc, worker, 3, &gate);
        check!(rt; trimmed == Ok(record(3, 2, 0, 1)));
        check!(rt; gate.digits() == 12_341_234);
        let demoted = moved(worker.migrate(rt, alloc, 48, &gate));
        check!(rt; demoted == Some(record(3, 2, 1, 256)));
        check!(rt; gate.digits() == 123_412_341_234);
    }
}

#[test]
fn a_write_and_a_trim_and_a_move_reach_all_points_in_order(rt: HostRuntime) {
    for waits in [true, false] {
        let settled = lived(&rt, rt.alloc(), &[4], &WritesAndMoves(waits));
        assert!(rt; settled == (Ok(()), 1), "waits: {waits}");
    }
}

// Worker 5 writes block 9 into slot 0, which has a header of block 3 that the odd controller knows. It waits at each point until
// worker 2 has looked: three digits each, a decimal for each point.
#[derive(Drop)]
struct Watched {
    // Once the slot's header is one that a later version of block 3 has replaced.
    ready: AtomicU64,
    begun: AtomicU64,
    reached: AtomicU64,
    looked: AtomicU64,
    seen: AtomicU64,
    written: AtomicU64,
    late: AtomicU64,
}

impl Watched {
    fn new() -> Watched {
        Watched {
            ready: AtomicU64::new(0),
            begun: AtomicU64::new(0),
            reached: AtomicU64::new(0),
            looked: AtomicU64::new(0),
            seen: AtomicU64::new(0),
            written: AtomicU64::new(0),
            late: AtomicU64::new(0),
        }
    }

    fn await_that(&self, number: &AtomicU64, expected: u64) {
        if !comes_to(number, expected) {
            self.late.fetch_add(1, SeqCst);
        }
    }

    // One digit more of what worker 2 has seen.
    fn add(&self, version: u32) {
        let before = self.seen.load(SeqCst);
        self.seen.store(
            before.wrapping_mul(10).wrapping_add(u64::from(version)),
            SeqCst,
        );
    }

    // Worker 2 reads block 3 and block 9 at the odd controller, and writes block 9.
    fn look<N: slot_words::Naming + Sizes, A: map_words::Naming, B: map_words::Naming, R: Wait>(
        &self,
        rt: &R,
        alloc: Global,
        worker: &mut Worker<'_, MemDrive, N, A, B>,
    ) -> Result<(), WorkFault> {
        for block in [3, 9] {
            let version = match read(rt, alloc, worker, Controller::Odd, block)? {
                Some(reading) => reading.record().version,
                None => 0,
            };
            self.add(version);
        }
        self.add(write(rt, alloc, worker, 9, 2)?.version);
        Ok(())
    }
}

impl Gate for Watched {
    fn reach<R: Wait>(&self, _point: Point, _rt: &R) {
        let before = self.reached.fetch_add(1, SeqCst);
        self.await_that(&self.looked, before.wrapping_add(1));
    }
}

impl Story for Watched {
    fn work<N: slot_words::Naming + Sizes, A: map_words::Naming, B: map_words::Naming, R: Wait>(
        &self,
        rt: &R,
        alloc: Global,
        worker: &mut Worker<'_, MemDrive, N, A, B>,
    ) -> Result<(), WorkFault> {
        if worker.number() == 5 {
            write(rt, alloc, worker, 3, 1)?;
            self.begun.store(1, SeqCst);
            self.await_that(&self.ready, 1);
            let last = write_by(rt, alloc, worker, 9, 5, self)?;
            self.written.store(last.key(), SeqCst);
            return Ok(());
        }
        self.await_that(&self.begun, 1);
        write(rt, alloc, worker, 3, 2)?;
        self.ready.store(1, SeqCst);
        for point in 1..5u64 {
            self.await_that(&self.reached, point);
            self.look(rt, alloc, worker)?;
            self.looked.store(point, SeqCst);
        }
        Ok(())
    }

    // At points 1 and 2 the odd controller reads the old version of block 3, until the slot is filled; worker 2 writes versions 1
    // and 2 of block 9. Version 3 is committed by point 3, and the odd controller has taken it by point 4.
    fn report<
        N: slot_words::Naming + Sizes,
        A: map_words::Naming,
        B: map_words::Naming,
        R: Abort + Wait,
    >(&self, rt: &R, _alloc: Global, _worker: &mut Worker<'_, MemDrive, N, A, B>) {
        check!(rt; self.late.load(SeqCst) == 0);
        check!(rt; self.seen.load(SeqCst) == 101_202_204_235);
        check!(rt; self.written.load(SeqCst) == record(9, 3, 0, 0).key());
    }
}

#[test]
fn each_point_of_a_write_comes_after_what_it_says(rt: HostRuntime) {
    let settled = lived(&rt, rt.alloc(), &[5, 2], &Watched::new());
    check!(rt; settled == (Ok(()), 2));
}
