// The whole life of a storm's tables.
ghost use Rattle.std.specs.Prelude.{◌≡◌, ◌≢◌, ℕ, ◌+◌, [], ◌∷◌, map, IfOk, IfErr, IfSome};
ghost use Rattle.std.specs.List.{All};
ghost use Rattle.array_book.specs.declared.settle_fault.SettleFault.TheVariants as settle_fault;
ghost use Rattle.slot_tables.specs.Represents.{ShowsArray};
ghost use Rattle.slot_tables.specs.Views.{ArrayView, key_at};
ghost use Rattle.history.specs.Entries.{entry};
ghost use Rattle.array_book.specs.Acts.{Opens};
ghost use Rattle.flat_machine.specs.Flat.{Flat};
ghost use Rattle.map_words.specs.Places.{blocks_of};
ghost use Rattle.slot_words.specs.Places.{table_slots};
ghost use Rattle.array_book.specs.Whole.{IsHistoryOf, IsMissing};
ghost use Rattle.storm.specs.Rounds.{HaveAllPlayed};
ghost use Rattle.storm.specs.Ending.{IsEnding, IsFreshArray, HaveBegun, HasStormed};

use crate::crew::{Crew, run_all};
use crate::outcome::{Storm, StormFault, Tally};
use crate::setting::{BLOCKS, PAYLOAD, release_all, storm_array};
use array_book::{Book, Claim, Deed, Ended, SettleFault, Settled, Sizes, begin, settle};
use extents::MemDrive;
use flat_machine::Refusal;
use history::{Chronicle, Hand, History, Keeper, Opened};
use map_words::MapWords;
use slot_words::{Pass, SlotWords};
use std::alloc::Global;
use std::marker::Brand;
use std::sync::Wait;
use std::thread::Threads;
use step_core::Array;

/// A drive that fails in mid-run, at its `calls`-th read or write after the groups are made (1 = the first).
#[derive(Clone, Copy, Debug, PartialEq, Eq)]
pub struct Fuse {
    pub drive: u8,
    pub calls: u64,
}

/// How many workers play how many rounds each, and which drive is lost in mid-run. At most 16 workers can be had.
#[derive(Clone, Copy, Debug, PartialEq, Eq)]
pub struct Orders {
    pub workers: u8,
    /// Rounds of each worker: a write, a migration and a read.
    pub writes: u32,
    /// Bytes of a payload: a multiple of 8, 8 to 65,536.
    pub payload: u32,
    pub fuse: Option<Fuse>,
}

/// Runs `workers` workers, each with `writes` rounds, over a new array of 16 blocks with payloads of 8 bytes, and settles. It may wait.
pub fn run_storm<R: Threads + Wait + Sync>(
    rt: &R,
    alloc: Global,
    workers: u8,
    writes: u32,
) -> Result<Storm, StormFault>
    ensures { IfOk result (HasStormed (workers + 1) 8 writes) }
{
    run_orders(
        rt,
        alloc,
        Orders {
            workers,
            writes,
            payload: PAYLOAD,
            fuse: None,
        },
    )
}

/// Runs the workers of these orders over a new array of 16 blocks, and settles. It may wait.
pub fn run_orders<R: Threads + Wait + Sync>(
    rt: &R,
    alloc: Global,
    orders: Orders,
) -> Result<Storm, StormFault>
    ensures { IfOk result (HasStormed (orders.workers + 1) orders.payload orders.writes) }
{
    let expected = StormFault::Setup(Refusal::Memory);
    let Ok(slots) = SlotWords::new(alloc, 65_536) else {
        return Err(expected);
    };
    let Ok(even) = MapWords::new(alloc, BLOCKS) else {
        return Err(expected);
    };
    let Ok(odd) = MapWords::new(alloc, BLOCKS) else {
        return Err(expected);
    };
    let Ok(opened) = Opened::new(alloc) else {
        return Err(expected);
    };
    play_out::<Brand, Brand, Brand, R>(rt, alloc, slots, (even, odd), opened, orders)
}

fn play_out<
    N: slot_words::Naming + Sizes + Send + Sync,
    A: map_words::Naming + Send + Sync,
    B: map_words::Naming + Send + Sync,
    R: Threads + Wait + Sync,
>(
    rt: &R,
    alloc: Global,
    slots: slot_words::Unnamed,
    maps: (map_words::Unnamed, map_words::Unnamed),
    opened: Opened<Deed>,
    orders: Orders,
) -> Result<Storm, StormFault>
    requires names { (slots ≡ N.table) × (maps.0 ≡ A.table) × (maps.1 ≡ B.table) × (opened ≡ N.chronicle) }
    requires sizes { (N.blocks ≡ 16) × (N.payload ≡ orders.payload) }
    requires hands { N.hands ≡ orders.workers + 1 }
    requires slots { table_slots slots ≡ 65536 }
    requires blocks { (blocks_of maps.0 ≡ 16) × (blocks_of maps.1 ≡ 16) }
    ensures { IfOk result (HasStormed N.hands N.payload orders.writes) }
{
    let (words, mut pass) = slots.named::<N>();
    let (even, one) = maps.0.named::<A>();
    let (odd, other) = maps.1.named::<B>();
    // A Pass for the array's claims, so that they are released also where the workers' Passes are lost.
    let mut spare = words.split(&mut pass);
    let (book, hand, parts) = open(alloc, words, (even, odd), &mut spare, opened, orders)?;
    let hands = Ended {
        pass,
        even: one,
        odd: other,
        hand,
    };
    let crew = Crew {
        workers: orders.workers,
        writes: orders.writes,
        payload: orders.payload,
    };
    match run_all(rt, alloc, &book, (hands, parts), crew) {
        Ok((ended, tally)) => close(alloc, book, ended, tally, crew.writes, &mut spare),
        Err(fault) => {
            // Nothing can be settled without hands: this only releases the claims, which can't be dropped.
            let _ = close(alloc, book, Vec::new(alloc), Tally::new(), 0, &mut spare);
            Err(fault)
        }
    }
}

// A Book around a storm's array, of which a drive may have a fuse, with the first hand of its history and one for each worker.
fn open<N: slot_words::Naming + Sizes, A: map_words::Naming, B: map_words::Naming>(
    alloc: Global,
    words: SlotWords<N>,
    maps: (MapWords<A>, MapWords<B>),
    spare: &mut Pass<N>,
    opened: Opened<Deed>,
    orders: Orders,
) -> Result<(Book<MemDrive, N, A, B>, Hand<N, Deed>, Vec<Hand<N, Deed>>), StormFault>
    requires sizes { (N.blocks ≡ 16) × (N.payload ≡ orders.payload) }
    requires hands { N.hands ≡ orders.workers + 1 }
    requires slots { table_slots N.table ≡ 65536 }
    requires blocks { (blocks_of A.table ≡ 16) × (blocks_of B.table ≡ 16) }
    requires name { opened ≡ N.chronicle }
    ensures first { IfOk result (λ r. (first : ArrayView) × IsFreshArray N.payload first × (r.1.seen ≡ entry 0 (Opens first) ∷ [])) }
    ensures parts { IfOk result (λ r. All (λ hand. hand.mine ≡ []) r.2.items) }
{
    let mut array = match storm_array(alloc, &words, spare, orders.payload) {
        Ok(array) => array,
        Err(refusal) => return Err(StormFault::Setup(refusal)),
    };
    // After the groups are made: what that reads and writes doesn't count for the fuse.
    if !is_fused(&mut array, orders.fuse) {
        // Before each return: the claims that the array keeps can't be dropped.
        release_all(&words, spare, array);
        return Err(StormFault::Setup(Refusal::BadMember));
    }
    let (history, mut keeper, hand) = begin(opened, &array);
    let Some(parts) = hire_hands(alloc, &history, &mut keeper, orders.workers) else {
        release_all(&words, spare, array);
        return Err(StormFault::Setup(Refusal::Memory));
    };
    match Book::new(alloc, array, words, maps, (history, keeper)) {
        Ok(book) => Ok((book, hand, parts)),
        Err((array, words, _maps, _history)) => {
            release_all(&words, spare, array);
            Err(StormFault::Setup(Refusal::Memory))
        }
    }
}

// This many more hands of a history. All hands of a Book's history are hired before the Book is made.
fn hire_hands<N: Chronicle>(
    alloc: Global,
    history: &History<N, Deed>,
    keeper: &mut Keeper<N, Deed>,
    count: u8,
) -> Option<Vec<Hand<N, Deed>>>
    ensures log { keeper.new.log ≡ keeper.old.log }
    ensures hired { IfSome result (λ hands. keeper.new.hired ≡ keeper.old.hired + count) }
    ensures none { IfSome result (λ hands. All (λ hand. hand.mine ≡ []) hands.items) }
{
    let mut hands = Vec::new(alloc);
    for _ in 0..count {
        let hand = keeper.hire(history)?;
        if hands.push(hand).is_err() {
            return None;
        }
    }
    Some(hands)
}

// Settles a Book, and releases the claims that its array kept. A fault where a hand of the history didn't come back.
fn close<N: slot_words::Naming + Sizes, A: map_words::Naming, B: map_words::Naming>(
    alloc: Global,
    book: Book<MemDrive, N, A, B>,
    ended: Vec<Ended<N, A, B>>,
    tally: Tally,
    rounds: u32,
    spare: &mut Pass<N>,
) -> Result<Storm, StormFault>
    ensures { (first : ArrayView) → IsFreshArray N.payload first → HaveBegun (map (λ e. e.hand) ended.items) first
        → HaveAllPlayed N.payload rounds (map (λ e. e.hand) ended.items) → IfOk result (HasStormed N.hands N.payload rounds) }
{
    let (reported, settled) = conclude(alloc, book, ended, tally);
    let Settled {
        array,
        words,
        pass: _,
        history: _,
        keeper: _,
        missing,
    } = settled;
    release_all(&words, spare, array);
    let storm = reported?;
    match missing {
        None => Ok(storm),
        Some(hand) => Err(StormFault::Missing(hand)),
    }
}

// Settles a Book: whether the map of what its workers took is that of its array. The array is at the end of one run of all that
// they did.
fn conclude<N: slot_words::Naming + Sizes, A: map_words::Naming, B: map_words::Naming>(
    alloc: Global,
    book: Book<MemDrive, N, A, B>,
    ended: Vec<Ended<N, A, B>>,
    tally: Tally,
) -> (Result<Storm, StormFault>, Settled<MemDrive, N>)
    ensures ok { IfOk result.0 (IsEnding (map (λ e. e.even) ended.items) (map (λ e. e.odd) ended.items) (key_at result.1.array)) }
    ensures err { IfErr result.0 (λ fault. (block : ℕ) → fault ≢ StormFault.Settle (settle_fault.Differs block)) }
    ensures history { IsHistoryOf N.hands (map (λ e. e.hand) ended.items) result.1.keeper result.1.array }
    ensures missing { IsMissing result.1.keeper (map (λ e. e.hand) ended.items) result.1.missing }
{
    match settle(alloc, book, ended) {
        Ok(settled) => {
            let mut tally = tally;
            // At the end, because drives are lost during the run.
            tally.lost = count_lost(&settled.array);
            (Ok(Storm::Agreed(tally)), settled)
        }
        Err((SettleFault::Differs(block), settled)) => (Ok(Storm::Differs(block)), settled),
        Err((fault, settled)) => (Err(StormFault::Settle(fault)), settled),
    }
}

// How many drives are lost.
fn count_lost<N: slot_words::Naming>(array: &Array<MemDrive, Claim<N>>) -> u8 {
    let mut lost = 0u8;
    for drive in 0..array.drive_count() {
        if array.is_lost(drive) {
            lost = lost.saturating_add(1);
        }
    }
    lost
}

// Whether the drive that is to be lost is there, if there is one; then it has its fuse.
fn is_fused<N: slot_words::Naming>(
    array: &mut Array<MemDrive, Claim<N>>,
    fuse: Option<Fuse>,
) -> bool
    ensures shows { (F : Flat) → ShowsArray array.old F → (G : Flat) × ShowsArray array.new G }
    ensures sizes { (array.new.parts.groups.blocks ≡ array.old.parts.groups.blocks) × (array.new.parts.groups.payload ≡ array.old.parts.groups.payload) }
    ensures log { array.new.log ≡ array.old.log }
{
    let Some(Fuse { drive, calls }) = fuse else {
        return true;
    };
    if drive >= array.drive_count() || calls == 0 {
        return false;
    }
    array.fuse(drive, calls);
    true
}
