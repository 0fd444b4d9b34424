// Workers in threads of their own.
ghost use Rattle.std.specs.Prelude.{◌≡◌, ℕ, map, OnOk, Ok};
ghost use Rattle.std.specs.List.{All};
ghost use Rattle.history.specs.Entries.{Carried};
ghost use Rattle.array_book.specs.Acts.{Act};
ghost use Rattle.array_book.specs.Numbers.{run_number};
ghost use Rattle.array_book.specs.Running.{AreDone, lowest_of};

use crate::claim::Sizes;
use crate::fault::WorkFault;
use crate::worker::Worker;
use extents::Drive;
use std::alloc::Global;
use std::sync::Wait;
use std::thread;
use std::thread::Threads;

/// What each worker does.
pub trait Job<D: Drive, N: slot_words::Naming + Sizes, A: map_words::Naming, B: map_words::Naming> {
    // What the job of a worker with this number leaves of its hand.
    ghost leaves: { Self → ℕ → Carried Act → Carried Act → Type 0 };

    fn work<R: Wait>(
        &self,
        rt: &R,
        alloc: Global,
        worker: &mut Worker<'_, D, N, A, B>,
    ) -> Result<(), WorkFault>
        ensures { OnOk result (leaves self.now worker.old.number worker.old.hand worker.new.hand) };
}

/// Why not all work was done.
#[derive(Clone, Copy, Debug, PartialEq, Eq)]
pub enum RunFault {
    /// Out of memory for what the workers have, before any job.
    Memory,
    /// The lowest number of a worker whose job failed, and the fault.
    Job(u8, WorkFault),
}

impl RunFault {
    /// The fault's number, 1 or 2 in the order above.
    pub fn number(&self) -> u8
        ensures { result ≡ run_number self.now }
    {
        match self {
            RunFault::Memory => 1,
            RunFault::Job(_, _) => 2,
        }
    }
}

/// Runs each worker in a thread of its own, or after another one where no thread can be made, until all jobs have ended.
pub fn run_workers<
    D: Drive + Send,
    N: slot_words::Naming + Sizes + Send + Sync,
    A: map_words::Naming + Send + Sync,
    B: map_words::Naming + Send + Sync,
    J: Job<D, N, A, B> + Sync,
    R: Threads + Wait + Sync,
>(rt: &R, alloc: Global, workers: &mut [Worker<'_, D, N, A, B>], job: &J) -> Result<(), RunFault>
    ensures { OnOk result (AreDone (J.leaves job.now) (map (λ w. w.number) workers.old) (map (λ w. w.hand) workers.old) (map (λ w. w.hand) workers.new)) }
{
    // `for_each_mut` requires a thread at least.
    if workers.is_empty() {
        return Ok(());
    }
    let threads = workers.len();
    let each = |_place: usize, worker: &mut Worker<'_, D, N, A, B>|
        ensures { OnOk worker.exit.now.outcome (J.leaves job.entry.now worker.entry.now.number worker.entry.now.hand worker.exit.now.hand) }
    { worker.outcome = job.work(rt, alloc, worker) };
    thread::for_each_mut(rt, workers, threads, &each);
    first_fault(workers)
}

// The fault of the worker of the lowest number whose job failed. Not that of the job that ended first, so that the answer
// doesn't depend on the threads' order.
fn first_fault<D: Drive, N: slot_words::Naming + Sizes, A: map_words::Naming, B: map_words::Naming>(
    workers: &[Worker<'_, D, N, A, B>],
) -> Result<(), RunFault>
    ensures { OnOk result (All (λ w. w.outcome ≡ Ok tt) workers.now) }
{
    let mut result = Ok(());
    for worker in workers {
        if let Err(fault) = worker.outcome {
            result = lowest(result, worker.number, fault);
        }
    }
    result
}

// The result of a run after one more job failed: the fault of the worker of the lower number, but out of memory stays.
fn lowest(before: Result<(), RunFault>, number: u8, fault: WorkFault) -> Result<(), RunFault>
    ensures { result ≡ lowest_of before number fault }
{
    match before {
        Err(RunFault::Memory) => before,
        Err(RunFault::Job(other, _)) if other <= number => before,
        Err(RunFault::Job(_, _)) | Ok(()) => Err(RunFault::Job(number, fault)),
    }
}
