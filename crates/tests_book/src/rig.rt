// The life of a Book over an array of 16 blocks and payloads of 40 bytes: its tables, its workers, who play a story, and how it
// is settled.
ghost use Rattle.std.specs.Prelude.{◌≡◌, ◌+◌, ◌-◌, length, ⊤};
ghost use Rattle.slot_tables.specs.Represents.{ShowsArray};
ghost use Rattle.flat_machine.specs.Flat.{Flat};
ghost use Rattle.map_words.specs.Places.{blocks_of};
ghost use Rattle.slot_words.specs.Places.{table_slots};
ghost use Rattle.array_book.specs.Acts.{IsEndOf};

use crate::asserts::check;
use array_book::{
    Book, Claim, Deed, Ended, Job, RunFault, SettleFault, Settled, Sizes, WorkFault, Worker, begin,
    run_workers, settle,
};
use history::{Hand, History, Keeper, Opened};
use map_join::Record;
use map_words::{MapWords, Taker};
use slot_words::{Pass, SlotWords};
use std::alloc::Global;
use std::marker::Brand;
use std::process::Abort;
use std::sync::Wait;
use std::thread::Threads;
use step_core::{Array, Class, Hold, MemDrive, Member, Shape, TakeBack};

/// The tables of a Book of 16 blocks, without names.
#[derive(Drop)]
pub(crate) struct Tables {
    pub(crate) slots: slot_words::Unnamed,
    pub(crate) even: map_words::Unnamed,
    pub(crate) odd: map_words::Unnamed,
    pub(crate) ghost many: { table_slots slots ≡ 65536 },
    pub(crate) ghost here: { blocks_of even ≡ 16 },
    pub(crate) ghost there: { blocks_of odd ≡ 16 },
}

/// What steps on the words.
#[derive(Drop)]
pub(crate) struct Shares<N: slot_words::Naming, A: map_words::Naming, B: map_words::Naming> {
    pub(crate) pass: Pass<N>,
    pub(crate) even: Taker<A>,
    pub(crate) odd: Taker<B>,
}

/// The words of a Book, and all that steps on them.
#[derive(Drop)]
pub(crate) struct Bench<N: slot_words::Naming, A: map_words::Naming, B: map_words::Naming> {
    pub(crate) words: SlotWords<N>,
    pub(crate) even: MapWords<A>,
    pub(crate) odd: MapWords<B>,
    pub(crate) shares: Shares<N, A, B>,
}

/// The words and the Pass that a Book left, with new maps under their names.
pub(crate) fn renewed<N: slot_words::Naming, A: map_words::Naming, B: map_words::Naming>(
    words: SlotWords<N>,
    pass: Pass<N>,
    even: map_words::Unnamed,
    odd: map_words::Unnamed,
) -> Bench<N, A, B>
    requires maps { (even ≡ A.table) × (odd ≡ B.table) }
{
    let (even, one) = even.named::<A>();
    let (odd, other) = odd.named::<B>();
    Bench {
        words,
        even,
        odd,
        shares: Shares {
            pass,
            even: one,
            odd: other,
        },
    }
}

/// The groups of a Book's array.
#[derive(Clone, Copy, Debug, PartialEq, Eq)]
pub(crate) enum Layout {
    /// Mirrored groups of 24 slots from 0 and from 128, parity groups of 32 slots from 256 and from 384.
    Storm,
    /// The groups of a storm, of one segment each: mirrored ones of 2 slots, parity ones of 4.
    Short,
    /// A mirrored group of slots 0 and 1, and a parity group of slots 128 to 131.
    Small,
}

/// What workers do while a Book lives.
pub(crate) trait Story {
    fn layout(&self) -> Layout {
        Layout::Storm
    }

    /// What the run of the workers in threads returns.
    fn ran(&self) -> Result<(), RunFault> {
        Ok(())
    }

    /// What each worker does in its own thread.
    fn work<N: slot_words::Naming + Sizes, A: map_words::Naming, B: map_words::Naming, R: Wait>(
        &self,
        _rt: &R,
        _alloc: Global,
        _worker: &mut Worker<'_, MemDrive, N, A, B>,
    ) -> Result<(), WorkFault> {
        Ok(())
    }

    /// What the first worker does when all threads have ended.
    fn report<
        N: slot_words::Naming + Sizes,
        A: map_words::Naming,
        B: map_words::Naming,
        R: Abort + Wait,
    >(&self, _rt: &R, _alloc: Global, _worker: &mut Worker<'_, MemDrive, N, A, B>) {}

    /// What all workers do, in one thread, when all threads have ended.
    fn report_all<
        N: slot_words::Naming + Sizes,
        A: map_words::Naming,
        B: map_words::Naming,
        R: Abort + Wait,
    >(&self, rt: &R, alloc: Global, workers: &mut [Worker<'_, MemDrive, N, A, B>]) {
        if let Some(first) = workers.first_mut() {
            self.report(rt, alloc, first);
        }
    }
}

// The work of a story that is done in threads.
#[derive(Drop)]
struct Works<'a, S> {
    story: &'a S,
}

impl<'a, S: Story, N: slot_words::Naming + Sizes, A: map_words::Naming, B: map_words::Naming> Job<
    MemDrive,
    N,
    A,
    B,
> for Works<'a, S> {
    ghost leaves = { λ _ _ _ _. ⊤ };

    fn work<R: Wait>(
        &self,
        rt: &R,
        alloc: Global,
        worker: &mut Worker<'_, MemDrive, N, A, B>,
    ) -> Result<(), WorkFault> {
        self.story.work(rt, alloc, worker)
    }
}

// Releases the claims that an array returns, and counts them.
#[derive(Drop)]
struct Releases<'a, N: slot_words::Naming> {
    words: &'a SlotWords<N>,
    pass: &'a mut Pass<N>,
    count: u32,
}

impl<'a, N: slot_words::Naming> TakeBack<Claim<N>> for Releases<'a, N> {
    fn take_back(&mut self, claim: Claim<N>) {
        self.words.release(self.pass, claim.into_inner());
        self.count = self.count.saturating_add(1);
    }
}

/// The words of one controller, without any record.
pub(crate) fn new_map(rt: &impl Abort, alloc: Global) -> map_words::Unnamed
    ensures { blocks_of result ≡ 16 }
{
    let Ok(map) = MapWords::new(alloc, 16) else {
        rt.panic("no map words")
    };
    map
}

/// New tables.
pub(crate) fn new_tables(rt: &impl Abort, alloc: Global) -> Tables {
    let Ok(slots) = SlotWords::new(alloc, 65_536) else {
        rt.panic("no slot words")
    };
    Tables {
        slots,
        even: new_map(rt, alloc),
        odd: new_map(rt, alloc),
    }
}

/// The tables under their names.
pub(crate) fn named<N: slot_words::Naming, A: map_words::Naming, B: map_words::Naming>(
    tables: Tables,
) -> Bench<N, A, B>
    requires names { (tables.slots ≡ N.table) × (tables.even ≡ A.table) × (tables.odd ≡ B.table) }
    ensures many { table_slots N.table ≡ 65536 }
    ensures blocks { (blocks_of A.table ≡ 16) × (blocks_of B.table ≡ 16) }
{
    let Tables { slots, even, odd } = tables;
    let (words, pass) = slots.named::<N>();
    let (even, one) = even.named::<A>();
    let (odd, other) = odd.named::<B>();
    Bench {
        words,
        even,
        odd,
        shares: Shares {
            pass,
            even: one,
            odd: other,
        },
    }
}

/// An array of four drives in memory, of 8 extents with this many segments, and of these groups: a class, the number of the
/// extent on each drive, and the drives.
pub(crate) fn grouped<C: Hold, R: Abort>(
    rt: &R,
    alloc: Global,
    segments: u32,
    groups: &[(Class, u16, [u8; 3])],
) -> Array<MemDrive, C>
    ensures shows { (F : Flat) × ShowsArray result F }
    ensures sizes { (result.parts.groups.blocks ≡ 16) × (result.parts.groups.payload ≡ 40) }
{
    let Ok(shape) = Shape::new(8, segments, 40, 16) else {
        rt.panic("no shape")
    };
    let Ok(mut array) = Array::in_memory(alloc, shape, 4) else {
        rt.panic("no array")
    };
    for (class, extent, drives) in groups {
        make_group(rt, alloc, &mut array, *class, *extent, *drives);
    }
    array
}

// Makes a group of an extent of this number on each of these drives.
fn make_group<C: Hold, R: Abort>(
    rt: &R,
    alloc: Global,
    array: &mut Array<MemDrive, C>,
    class: Class,
    extent: u16,
    drives: [u8; 3],
)
    ensures shows { (F : Flat) → ShowsArray array.old F → (G : Flat) × ShowsArray array.new G }
    ensures sizes { (array.new.parts.groups.blocks ≡ array.old.parts.groups.blocks) × (array.new.parts.groups.payload ≡ array.old.parts.groups.payload) }
{
    let members = drives.map(|drive| Member { drive, extent });
    let Ok((_group, claims)) = array.make_group(alloc, class, &members) else {
        rt.panic("no group")
    };
    assert!(rt; claims.is_empty());
    claims.destroy_empty();
}

// The groups of a storm's array.
const TWO_OF_EACH: [(Class, u16, [u8; 3]); 4] = [
    (Class::Mirrored, 0, [0, 1, 2]),
    (Class::Mirrored, 1, [1, 2, 3]),
    (Class::Parity, 2, [0, 1, 3]),
    (Class::Parity, 3, [0, 2, 3]),
];

// One group of each class, on three of four drives.
const ONE_OF_EACH: [(Class, u16, [u8; 3]); 2] = [
    (Class::Mirrored, 0, [0, 1, 2]),
    (Class::Parity, 1, [0, 1, 2]),
];

/// An array of these groups.
pub(crate) fn laid_out<C: Hold, R: Abort>(
    rt: &R,
    alloc: Global,
    layout: Layout,
) -> Array<MemDrive, C>
    ensures shows { (F : Flat) × ShowsArray result F }
    ensures sizes { (result.parts.groups.blocks ≡ 16) × (result.parts.groups.payload ≡ 40) }
{
    match layout {
        Layout::Storm => grouped(rt, alloc, 8, &TWO_OF_EACH),
        Layout::Short => grouped(rt, alloc, 1, &TWO_OF_EACH),
        Layout::Small => grouped(rt, alloc, 1, &ONE_OF_EACH),
    }
}

/// A history without a name.
pub(crate) fn new_history(rt: &impl Abort, alloc: Global) -> Opened<Deed> {
    let Ok(opened) = Opened::new(alloc) else {
        rt.panic("no history")
    };
    opened
}

/// One hand more.
pub(crate) fn hired<N: Sizes, R: Abort>(
    rt: &R,
    history: &History<N, Deed>,
    keeper: &mut Keeper<N, Deed>,
) -> Hand<N, Deed>
    ensures log { keeper.new.log ≡ keeper.old.log }
    ensures hired { keeper.new.hired ≡ keeper.old.hired + 1 }
{
    let Some(hand) = keeper.hire(history) else {
        rt.panic("no hand")
    };
    hand
}

// Hands for this many workers, or for one where there is none. The last has this hand of the history.
fn parted<N: slot_words::Naming + Sizes, A: map_words::Naming, B: map_words::Naming, R: Abort>(
    rt: &R,
    alloc: Global,
    words: (&SlotWords<N>, &MapWords<A>, &MapWords<B>, &History<N, Deed>),
    keeper: &mut Keeper<N, Deed>,
    hand: Hand<N, Deed>,
    shares: Shares<N, A, B>,
    count: usize,
) -> Vec<Ended<N, A, B>>
    ensures log { keeper.new.log ≡ keeper.old.log }
    ensures hired { keeper.new.hired ≡ keeper.old.hired + (count - 1) }
{
    let (words, even, odd, history) = words;
    let mut shares = shares;
    let mut all = Vec::new(alloc);
    for _ in 1..count {
        let (Ok(one), Ok(other)) = (even.split(&mut shares.even), odd.split(&mut shares.odd)) else {
            rt.panic("no share is left")
        };
        let part = Ended {
            pass: words.split(&mut shares.pass),
            even: one,
            odd: other,
            hand: hired(rt, history, keeper),
        };
        assert!(rt; all.push(part).is_ok());
    }
    let Shares { pass, even, odd } = shares;
    let last = Ended {
        pass,
        even,
        odd,
        hand,
    };
    assert!(rt; all.push(last).is_ok());
    all
}

// Has workers of these numbers play a story, and takes back what they had.
fn played<
    N: slot_words::Naming + Sizes + Send + Sync,
    A: map_words::Naming + Send + Sync,
    B: map_words::Naming + Send + Sync,
    S: Story + Sync,
    R: Abort + Threads + Wait + Sync,
>(
    rt: &R,
    alloc: Global,
    book: &Book<MemDrive, N, A, B>,
    hands: Vec<Ended<N, A, B>>,
    numbers: &[u8],
    story: &S,
) -> Vec<Ended<N, A, B>> {
    let mut hands = hands;
    let mut workers = Vec::new(alloc);
    for number in numbers {
        let Some(
            Ended {
                pass,
                even,
                odd,
                hand,
            },
        ) = hands.pop()
        else {
            rt.panic("too few hands")
        };
        let worker = Worker::new(book, *number, pass, (even, odd), hand);
        check!(rt; workers.push(worker).is_ok());
    }
    let works = Works { story };
    check!(rt; run_workers(rt, alloc, &mut workers, &works) == story.ran());
    story.report_all(rt, alloc, &mut workers);
    let mut ended = Vec::new(alloc);
    for worker in workers {
        check!(rt; ended.push(worker.end()).is_ok());
    }
    ended
}

/// An array with the history that leads to it, its keeper, and a hand.
pub(crate) type Begun<N> = (
    Array<MemDrive, Claim<N>>,
    History<N, Deed>,
    Keeper<N, Deed>,
    Hand<N, Deed>,
);

/// How a Book around an array is settled whose workers, of these numbers, played a story, and what is left of it.
pub(crate) fn play<
    N: slot_words::Naming + Sizes + Send + Sync,
    A: map_words::Naming + Send + Sync,
    B: map_words::Naming + Send + Sync,
    S: Story + Sync,
    R: Abort + Threads + Wait + Sync,
>(
    rt: &R,
    alloc: Global,
    array: Begun<N>,
    bench: Bench<N, A, B>,
    numbers: &[u8],
    story: &S,
) -> (Result<(), SettleFault>, Settled<MemDrive, N>)
    requires course { IsEndOf array.2.log array.0 }
    requires sizes { (array.0.parts.groups.blocks ≡ 16) × (array.0.parts.groups.payload ≡ 40) }
    requires named { (N.blocks ≡ 16) × (N.payload ≡ 40) }
    requires many { table_slots N.table ≡ 65536 }
    requires blocks { (blocks_of A.table ≡ 16) × (blocks_of B.table ≡ 16) }
    requires hands { array.2.hired + (length numbers.now - 1) ≡ N.hands }
    ensures course { IsEndOf result.1.keeper.log result.1.array }
    ensures hands { result.1.keeper.hired ≡ N.hands }
{
    let (array, history, mut keeper, hand) = array;
    let Bench {
        words,
        even,
        odd,
        shares,
    } = bench;
    let hands = parted(
        rt,
        alloc,
        (&words, &even, &odd, &history),
        &mut keeper,
        hand,
        shares,
        numbers.len(),
    );
    let book = match Book::new(alloc, array, words, (even, odd), (history, keeper)) {
        Ok(book) => book,
        Err(_back) => rt.panic("no book"),
    };
    let ended = played(rt, alloc, &book, hands, numbers, story);
    match settle(alloc, book, ended) {
        Ok(settled) => (Ok(()), settled),
        Err((fault, settled)) => (Err(fault), settled),
    }
}

/// Ends an array, releases the claims that it kept, and returns how many there were. Every slot can be claimed then.
pub(crate) fn released<N: slot_words::Naming, R: Abort>(
    rt: &R,
    words: &SlotWords<N>,
    pass: &mut Pass<N>,
    array: Array<MemDrive, Claim<N>>,
) -> u32
    requires { table_slots N.table ≡ 65536 }
{
    let mut to = Releases {
        words,
        pass,
        count: 0,
    };
    let _parts = array.end(&mut to);
    let Releases { words, pass, count } = to;
    for slot in 0..512u16 {
        let Ok(claim) = words.claim(pass, slot) else {
            panic!(rt; "slot {slot} was not given back")
        };
        words.release(pass, claim);
    }
    count
}

/// How a Book is settled whose workers, of these numbers, played a story, and how many claims its array kept.
pub(crate) fn lived<S: Story + Sync, R: Abort + Threads + Wait + Sync>(
    rt: &R,
    alloc: Global,
    numbers: &[u8],
    story: &S,
) -> (Result<(), SettleFault>, u32) {
    lived_after(rt, alloc, None, numbers, story)
}

/// How a Book is settled, and how many claims its array kept, where the even controller took a record before its workers did.
pub(crate) fn lived_after<S: Story + Sync, R: Abort + Threads + Wait + Sync>(
    rt: &R,
    alloc: Global,
    taken: Option<Record>,
    numbers: &[u8],
    story: &S,
) -> (Result<(), SettleFault>, u32) {
    let tables = new_tables(rt, alloc);
    let opened = new_history(rt, alloc);
    live::<Brand, Brand, Brand, S, R>(rt, alloc, (tables, opened), taken, numbers, story)
}

fn live<
    N: slot_words::Naming + Sizes + Send + Sync,
    A: map_words::Naming + Send + Sync,
    B: map_words::Naming + Send + Sync,
    S: Story + Sync,
    R: Abort + Threads + Wait + Sync,
>(
    rt: &R,
    alloc: Global,
    tables: (Tables, Opened<Deed>),
    taken: Option<Record>,
    numbers: &[u8],
    story: &S,
) -> (Result<(), SettleFault>, u32)
    requires names { (tables.0.slots ≡ N.table) × (tables.0.even ≡ A.table) × (tables.0.odd ≡ B.table) × (tables.1 ≡ N.chronicle) }
    requires sizes { (N.blocks ≡ 16) × (N.payload ≡ 40) }
    requires hands { N.hands ≡ 1 + (length numbers.now - 1) }
{
    let (tables, opened) = tables;
    let mut bench = named::<N, A, B>(tables);
    let mut spare = bench.words.split(&mut bench.shares.pass);
    if let Some(record) = taken {
        check!(rt; record.block < 16 && record.version > 0);
        bench.even.take(&mut bench.shares.even, record);
    }
    let array = laid_out(rt, alloc, story.layout());
    let (history, keeper, hand) = begin(opened, &array);
    let begun = (array, history, keeper, hand);
    let (settled, left) = play(rt, alloc, begun, bench, numbers, story);
    let Settled {
        array,
        words,
        pass: _,
        history: _,
        keeper: _,
        missing,
    } = left;
    check!(rt; missing.is_none() != numbers.is_empty());
    (settled, released(rt, &words, &mut spare, array))
}
