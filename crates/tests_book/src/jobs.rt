// Workers whose jobs fail.
use crate::rig::{Story, lived};
use array_book::{RunFault, Sizes, WorkFault, Worker};
use std::alloc::Global;
use std::sync::Wait;
use step_core::{MemDrive, Refusal};

// Each worker from number `from` on fails, with its number in the fault. The fault of the lowest of them is reported.
#[derive(Drop)]
struct Fails {
    from: u8,
    lowest: u8,
}

// The fault of a worker.
fn fault(number: u8) -> WorkFault {
    WorkFault::Core(Refusal::Gone(u16::from(number)))
}

impl Story for Fails {
    fn ran(&self) -> Result<(), RunFault> {
        Err(RunFault::Job(self.lowest, fault(self.lowest)))
    }

    fn work<N: slot_words::Naming + Sizes, A: map_words::Naming, B: map_words::Naming, R: Wait>(
        &self,
        _rt: &R,
        _alloc: Global,
        worker: &mut Worker<'_, MemDrive, N, A, B>,
    ) -> Result<(), WorkFault> {
        let number = worker.number();
        if number >= self.from {
            return Err(fault(number));
        }
        Ok(())
    }
}

#[test]
fn the_fault_of_the_lowest_worker_is_reported(rt: HostRuntime) {
    for (from, lowest) in [(9, 9), (3, 5), (0, 2)] {
        let settled = lived(&rt, rt.alloc(), &[5, 2, 9], &Fails { from, lowest });
        assert!(rt; settled == (Ok(()), 0), "worker {lowest}");
    }
}
