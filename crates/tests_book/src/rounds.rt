// Workers in threads that write, trim, move and read the same blocks at once.
use crate::asserts::check;
use crate::calls::{read, trim, write};
use crate::rig::{Story, lived};
use array_book::{Controller, NoGate, Sizes, WorkFault, Worker};
use std::alloc::Global;
use std::sync::Wait;
use step_core::{MemDrive, Refusal};

// Each worker plays 60 rounds, and trims in every fifth.
struct Rounds;

// Ok also where no slot was free or a record was ahead of the array, after which the worker goes on.
fn goes_on<T: Drop>(answer: Result<T, WorkFault>) -> Result<(), WorkFault> {
    match answer {
        Ok(_) | Err(WorkFault::NoRoom) | Err(WorkFault::Core(Refusal::Ahead(_))) => Ok(()),
        Err(fault) => Err(fault),
    }
}

impl Story for Rounds {
    fn work<N: slot_words::Naming + Sizes, A: map_words::Naming, B: map_words::Naming, R: Wait>(
        &self,
        rt: &R,
        alloc: Global,
        worker: &mut Worker<'_, MemDrive, N, A, B>,
    ) -> Result<(), WorkFault> {
        let number = worker.number();
        for round in 0..60u8 {
            let block = (u32::from(number) + u32::from(round)) % 16;
            if round % 5 == 4 {
                goes_on(trim(rt, alloc, worker, block))?;
            } else {
                goes_on(write(rt, alloc, worker, block, round))?;
            }
            goes_on(worker.migrate(rt, alloc, 44, &NoGate))?;
            goes_on(read(rt, alloc, worker, Controller::of(number % 2 + 1), block))?;
        }
        Ok(())
    }
}

// A trimmed block has a newest record, and so a slot.
#[test]
fn workers_that_trim_settle_and_give_all_slots_back(rt: HostRuntime) {
    for numbers in [[5, 2, 9], [4, 7, 12]] {
        let settled = lived(&rt, rt.alloc(), &numbers, &Rounds);
        check!(rt; settled == (Ok(()), 16));
    }
}
