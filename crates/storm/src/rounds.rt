// What each worker of a storm does.
ghost use Rattle.std.specs.Prelude.{◌≡◌, ◌*◌, ◌-◌, ◌++◌, length, drop, replicate, OnOk, IfOk};
ghost use Rattle.std.specs.Int.{w32, to_be_bytes};
ghost use Rattle.storm.specs.Rounds.{IsTolerated, HasPlayed, IsRound};

use crate::outcome::Tally;
use crate::setting::BLOCKS;
use array_book::{Controller, Job, Migration, NoGate, Sizes, WorkFault, Worker};
use extents::Drive;
use flat_machine::Refusal;
use std::alloc::Global;
use std::sync::Wait;
use std::sync::atomic::AtomicU64;
use std::sync::atomic::Ordering::SeqCst;

/// A demotion is due when fewer than this many of the 48 mirrored slots are free, so when more than four are held.
const LOW: u32 = 44;

// `writes` rounds with payloads of `payload` bytes, and what all workers that are done have carried out. Atomic, since all
// threads share it.
#[derive(Drop)]
pub(crate) struct Rounds {
    writes: u32,
    payload: u32,
    written: AtomicU64,
    moved: AtomicU64,
    read: AtomicU64,
    blank: AtomicU64,
}

impl Rounds {
    pub(crate) fn new(writes: u32, payload: u32) -> Rounds
        ensures { (result.writes ≡ writes) × (result.payload ≡ payload) }
    {
        Rounds {
            writes,
            payload,
            written: AtomicU64::new(0),
            moved: AtomicU64::new(0),
            read: AtomicU64::new(0),
            blank: AtomicU64::new(0),
        }
    }

    // Adds what one worker more has carried out.
    fn add(&self, tally: &Tally) {
        self.written.fetch_add(tally.writes, SeqCst);
        self.moved.fetch_add(tally.moves, SeqCst);
        self.read.fetch_add(tally.reads, SeqCst);
        self.blank.fetch_add(tally.blanks, SeqCst);
    }

    // What all have carried out, with no drive lost.
    pub(crate) fn tally(&self) -> Tally {
        Tally {
            writes: self.written.load(SeqCst),
            moves: self.moved.load(SeqCst),
            reads: self.read.load(SeqCst),
            blanks: self.blank.load(SeqCst),
            lost: 0,
        }
    }
}

impl<D: Drive, N: slot_words::Naming + Sizes, A: map_words::Naming, B: map_words::Naming> Job<
    D,
    N,
    A,
    B,
> for Rounds {
    ghost leaves = { λ job number v w. HasPlayed (record { blocks = N.blocks; payload = N.payload }) job.payload job.writes number v w };

    fn work<R: Wait>(
        &self,
        rt: &R,
        alloc: Global,
        worker: &mut Worker<'_, D, N, A, B>,
    ) -> Result<(), WorkFault> {
        let Ok(mut payload) = vec![in alloc; 0; self.payload as usize] else {
            return Err(WorkFault::Memory);
        };
        let mut tally = Tally::new();
        for round in 0..self.writes {
            play(rt, alloc, worker, &mut payload, round, &mut tally)?;
        }
        // At the end alone: a worker whose job fails adds nothing.
        self.add(&tally);
        Ok(())
    }
}

// One round: a write, a migration and a read at the other controller. The payload is the worker's number and the round's, with
// zeros after them. The tally counts what was done: no call that found no free slot, or whose record was ahead of the array.
fn play<
    R: Wait,
    D: Drive,
    N: slot_words::Naming + Sizes,
    A: map_words::Naming,
    B: map_words::Naming,
>(
    rt: &R,
    alloc: Global,
    worker: &mut Worker<'_, D, N, A, B>,
    payload: &mut [u8],
    round: u32,
    tally: &mut Tally,
) -> Result<(), WorkFault>
    requires { drop 8 payload.old ≡ replicate (length payload.old - 8) 0 }
    ensures played { OnOk result (IsRound (record { blocks = N.blocks; payload = N.payload }) (length payload.old) worker.old.number round worker.old.hand worker.new.hand) }
    ensures number { worker.new.number ≡ worker.old.number }
    ensures payload { (length payload.new ≡ length payload.old) × (drop 8 payload.new ≡ drop 8 payload.old) }
{
    let number = worker.number();
    // Of each worker of a storm this is false. It is tested, because a job may be given any worker.
    if worker.blocks() != BLOCKS
        || worker.payload() as usize != payload.len()
        || payload.len() < 8
    {
        return Err(WorkFault::NoRoom);
    }
    // The round's remainder first, since the sum of both numbers may be past 32 bits.
    let block = (u32::from(number) + round % BLOCKS) % BLOCKS;
    payload[..8].copy_from_slice(&numbers_of(u32::from(number), round));
    if let Some(_emitted) = passed_over(worker.write(rt, alloc, block, payload, &NoGate))? {
        tally.writes = tally.writes.saturating_add(1);
    }
    if let Some(Migration::Moved(_)) = passed_over(worker.migrate(rt, alloc, LOW, &NoGate))? {
        tally.moves = tally.moves.saturating_add(1);
    }
    // By the other controller's words, which may have an older record, or none: then the read learns, or finds nothing.
    match passed_over(worker.read(rt, alloc, Controller::of(number % 2 + 1), block))? {
        Some(Some(_)) => tally.reads = tally.reads.saturating_add(1),
        Some(None) => tally.blanks = tally.blanks.saturating_add(1),
        None => {}
    }
    Ok(())
}

// Two numbers, each with its highest byte first.
fn numbers_of(number: u32, round: u32) -> [u8; 8]
    ensures { result ≡ to_be_bytes w32 number ++ to_be_bytes w32 round }
{
    let mut numbers = [0; 8];
    numbers[..4].copy_from_slice(&number.to_be_bytes());
    numbers[4..].copy_from_slice(&round.to_be_bytes());
    numbers
}

// What a call returns; none where no slot was free or a record was ahead of the array, after which a worker goes on.
fn passed_over<T: Drop>(reported: Result<T, WorkFault>) -> Result<Option<T>, WorkFault>
    ensures { OnOk result (IsTolerated reported) }
{
    match reported {
        Ok(answer) => Ok(Some(answer)),
        Err(WorkFault::NoRoom) => Ok(None),
        Err(WorkFault::Core(Refusal::Ahead(_))) => Ok(None),
        Err(fault) => Err(fault),
    }
}
