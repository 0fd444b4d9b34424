// One worker alone: what it moves, and where it finds no slot or nothing to move.
use crate::asserts::check;
use crate::calls::{moved, reads, record, write};
use crate::rig::{Layout, Story, lived};
use array_book::{Controller, Migration, NoGate, Sizes, Worker};
use std::alloc::Global;
use std::process::Abort;
use std::sync::Wait;
use step_core::MemDrive;

// Five blocks leave 43 of 48 mirrored slots free.
struct MovesOne;

impl Story for MovesOne {
    fn report<
        N: slot_words::Naming + Sizes,
        A: map_words::Naming,
        B: map_words::Naming,
        R: Abort + Wait,
    >(&self, rt: &R, alloc: Global, worker: &mut Worker<'_, MemDrive, N, A, B>) {
        for block in 0..5u8 {
            let written = write(rt, alloc, worker, u32::from(block), block);
            check!(rt; written == Ok(record(u32::from(block), 1, 0, u16::from(block))));
        }
        check!(rt; matches!(worker.migrate(rt, alloc, 43, &NoGate), Ok(Migration::Idle)));
        let demoted = moved(worker.migrate(rt, alloc, 44, &NoGate));
        check!(rt; demoted == Some(record(0, 1, 1, 256)));
        check!(rt; matches!(worker.migrate(rt, alloc, 44, &NoGate), Ok(Migration::Idle)));
        check!(rt; reads(rt, alloc, worker, Controller::Even, record(0, 1, 1, 256), 0));
        check!(rt; reads(rt, alloc, worker, Controller::Even, record(4, 1, 0, 4), 4));
    }
}

// Four blocks fill the first parity group, and the fifth goes to the second. After a plug the write log goes on where it did
// before the plug, and after a clean at the next slot.
struct GathersThem;

impl Story for GathersThem {
    fn layout(&self) -> Layout {
        Layout::Short
    }

    fn report<
        N: slot_words::Naming + Sizes,
        A: map_words::Naming,
        B: map_words::Naming,
        R: Abort + Wait,
    >(&self, rt: &R, alloc: Global, worker: &mut Worker<'_, MemDrive, N, A, B>) {
        for (block, place) in [(0, 256), (1, 257), (2, 258), (3, 259), (4, 384)] {
            check!(rt; write(rt, alloc, worker, block, 7) == Ok(record(block, 1, 0, 0)));
            let demoted = moved(worker.migrate(rt, alloc, 4, &NoGate));
            check!(rt; demoted == Some(record(block, 1, 1, place)));
        }
        check!(rt; write(rt, alloc, worker, 1, 8) == Ok(record(1, 2, 0, 0)));
        let plugged = moved(worker.migrate(rt, alloc, 0, &NoGate));
        check!(rt; plugged == Some(record(4, 1, 2, 257)));
        let demoted = moved(worker.migrate(rt, alloc, 4, &NoGate));
        check!(rt; demoted == Some(record(1, 2, 1, 385)));
        check!(rt; matches!(worker.migrate(rt, alloc, 0, &NoGate), Ok(Migration::Idle)));
        check!(rt; write(rt, alloc, worker, 0, 9) == Ok(record(0, 2, 0, 0)));
        check!(rt; write(rt, alloc, worker, 1, 9) == Ok(record(1, 3, 0, 1)));
        let cleaned = moved(worker.migrate(rt, alloc, 0, &NoGate));
        check!(rt; cleaned == Some(record(4, 1, 3, 386)));
        check!(rt; write(rt, alloc, worker, 4, 9) == Ok(record(4, 2, 0, 128)));
        let demoted = moved(worker.migrate(rt, alloc, 4, &NoGate));
        check!(rt; demoted == Some(record(0, 2, 1, 387)));
        check!(rt; reads(rt, alloc, worker, Controller::Even, record(2, 1, 1, 258), 7));
    }
}

// Eight blocks fill both parity groups. One block of each is written again, which leaves a hole. There is a plug then, but no slot
// for a demotion.
struct RunsOut;

impl Story for RunsOut {
    fn layout(&self) -> Layout {
        Layout::Short
    }

    fn report<
        N: slot_words::Naming + Sizes,
        A: map_words::Naming,
        B: map_words::Naming,
        R: Abort + Wait,
    >(&self, rt: &R, alloc: Global, worker: &mut Worker<'_, MemDrive, N, A, B>) {
        for index in 0..8u8 {
            let block = u32::from(index) + 6;
            let place = 256 + 128 * u16::from(index / 4) + u16::from(index % 4);
            check!(rt; write(rt, alloc, worker, block, index) == Ok(record(block, 1, 0, 0)));
            let demoted = moved(worker.migrate(rt, alloc, 4, &NoGate));
            check!(rt; demoted == Some(record(block, 1, 1, place)));
        }
        check!(rt; write(rt, alloc, worker, 7, 21) == Ok(record(7, 2, 0, 0)));
        check!(rt; write(rt, alloc, worker, 12, 22) == Ok(record(12, 2, 0, 1)));
        check!(rt; matches!(worker.migrate(rt, alloc, 3, &NoGate), Ok(Migration::NoRoom)));
        let plugged = moved(worker.migrate(rt, alloc, 2, &NoGate));
        check!(rt; plugged == Some(record(10, 1, 2, 257)));
        check!(rt;
            reads(
                rt,
                alloc,
                worker,
                Controller::Even,
                record(10, 1, 2, 257),
                4
            )
        );
    }
}

#[test]
fn the_block_written_longest_ago_is_moved_where_slots_are_few(rt: HostRuntime) {
    let settled = lived(&rt, rt.alloc(), &[4], &MovesOne);
    check!(rt; settled == (Ok(()), 5));
}

#[test]
fn holes_are_plugged_and_groups_cleaned(rt: HostRuntime) {
    let settled = lived(&rt, rt.alloc(), &[4], &GathersThem);
    check!(rt; settled == (Ok(()), 5));
}

#[test]
fn a_demotion_without_a_slot_goes_on_to_no_plug(rt: HostRuntime) {
    let settled = lived(&rt, rt.alloc(), &[4], &RunsOut);
    check!(rt; settled == (Ok(()), 8));
}
