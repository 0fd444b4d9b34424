// The workers of a storm.
ghost use Rattle.std.specs.Prelude.{◌≡◌, ◌∷◌, [], map, IfOk, IfSome};
ghost use Rattle.std.specs.List.{All};
ghost use Rattle.slot_tables.specs.Views.{ArrayView};
ghost use Rattle.history.specs.Entries.{entry};
ghost use Rattle.array_book.specs.Acts.{Opens};
ghost use Rattle.storm.specs.Ending.{HaveBegun};
ghost use Rattle.storm.specs.Rounds.{AreHired, HaveAllPlayed};

use crate::outcome::{StormFault, Tally};
use crate::rounds::Rounds;
use array_book::{Book, Deed, Ended, RunFault, Sizes, Worker, run_workers};
use extents::MemDrive;
use flat_machine::Refusal;
use history::Hand;
use std::alloc::Global;
use std::sync::Wait;
use std::thread::Threads;

// How many workers play how many rounds, with payloads of how many bytes.
#[derive(Clone, Copy)]
pub(crate) struct Crew {
    pub(crate) workers: u8,
    pub(crate) writes: u32,
    pub(crate) payload: u32,
}

// Runs the workers in threads, each with a part of what these hands have and one of the hands of the history. Returns what all
// had, the hands first, and what they carried out. A fault returns nothing of it: `close` then settles without hands.
pub(crate) fn run_all<
    N: slot_words::Naming + Sizes + Send + Sync,
    A: map_words::Naming + Send + Sync,
    B: map_words::Naming + Send + Sync,
    R: Threads + Wait + Sync,
>(
    rt: &R,
    alloc: Global,
    book: &Book<MemDrive, N, A, B>,
    hands: (Ended<N, A, B>, Vec<Hand<N, Deed>>),
    crew: Crew,
) -> Result<(Vec<Ended<N, A, B>>, Tally), StormFault>
    requires sizes { (N.blocks ≡ 16) × (N.payload ≡ crew.payload) }
    requires none { All (λ hand. hand.mine ≡ []) hands.1.items }
    ensures begun { (array : ArrayView) → hands.0.hand.seen ≡ entry 0 (Opens array) ∷ [] → IfOk result (λ r. HaveBegun (map (λ e. e.hand) r.0.items) array) }
    ensures played { IfOk result (λ r. HaveAllPlayed crew.payload crew.writes (map (λ e. e.hand) r.0.items)) }
{
    let (mut hands, parts) = hands;
    let mut hired = hire(alloc, book, &mut hands, parts, crew.workers)?;
    let rounds = Rounds::new(crew.writes, crew.payload);
    if let Err(fault) = run_workers(rt, alloc, &mut hired, &rounds) {
        return Err(StormFault::Run(fault));
    }
    match dismiss(alloc, hands, hired) {
        Some(ended) => Ok((ended, rounds.tally())),
        None => Err(StormFault::Run(RunFault::Memory)),
    }
}

// This many workers of the Book, from number 0 on.
fn hire<'a, N: slot_words::Naming + Sizes, A: map_words::Naming, B: map_words::Naming>(
    alloc: Global,
    book: &'a Book<MemDrive, N, A, B>,
    hands: &mut Ended<N, A, B>,
    parts: Vec<Hand<N, Deed>>,
    count: u8,
) -> Result<Vec<Worker<'a, MemDrive, N, A, B>>, StormFault>
    requires { All (λ hand. hand.mine ≡ []) parts.items }
    ensures hand { hands.new.hand ≡ hands.old.hand }
    ensures hired { IfOk result (λ hired. AreHired 0 (map (λ w. w.number) hired.items) (map (λ w. w.hand) hired.items)) }
{
    let mut parts = parts;
    let mut hired = Vec::new(alloc);
    for number in 0..count {
        let Some(part) = parts.pop() else {
            return Err(StormFault::Setup(Refusal::Full));
        };
        let Ok(
            Ended {
                pass,
                even,
                odd,
                hand,
            },
        ) = book.split(hands, part)
        else {
            return Err(StormFault::Setup(Refusal::Full));
        };
        let worker = Worker::new(book, number, pass, (even, odd), hand);
        if hired.push(worker).is_err() {
            return Err(StormFault::Run(RunFault::Memory));
        }
    }
    Ok(hired)
}

// What the hands and the workers had.
fn dismiss<N: slot_words::Naming + Sizes, A: map_words::Naming, B: map_words::Naming>(
    alloc: Global,
    hands: Ended<N, A, B>,
    hired: Vec<Worker<'_, MemDrive, N, A, B>>,
) -> Option<Vec<Ended<N, A, B>>>
    ensures { IfSome result (λ all. map (λ e. e.hand) all.items ≡ hands.hand ∷ map (λ w. w.hand) hired.entry.items) }
{
    let mut ended = Vec::new(alloc);
    // First, since `settle` joins all others into it.
    if ended.push(hands).is_err() {
        return None;
    }
    for worker in hired {
        if ended.push(worker.end()).is_err() {
            return None;
        }
    }
    Some(ended)
}
