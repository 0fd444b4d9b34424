// Two Books around one array, one after the other.
ghost use Rattle.std.specs.Prelude.{◌≡◌, ◌≤◌};
ghost use Rattle.map_words.specs.Places.{blocks_of};
ghost use Rattle.slot_words.specs.Places.{table_slots};

use crate::asserts::check;
use crate::rig::{
    Layout, Story, Tables, hired, laid_out, named, new_history, new_map, new_tables, play,
    released, renewed,
};
use array_book::{Deed, Settled, Sizes, begin};
use history::Opened;
use slot_words::{Claim, Pass, SlotWords};
use std::alloc::Global;
use std::marker::Brand;
use std::process::Abort;
use std::sync::Wait;
use std::thread::Threads;

// Claims of the first `count` of the 48 mirrored slots. The last of all is slot 151.
fn claimed<N: slot_words::Naming, R: Abort>(
    rt: &R,
    alloc: Global,
    words: &SlotWords<N>,
    pass: &mut Pass<N>,
    count: u16,
) -> Vec<Claim<N>>
    requires slots { table_slots N.table ≡ 65536 }
    requires count { count ≤ 48 }
{
    let mut claims = Vec::new(alloc);
    for index in 0..count {
        let slot = 128 * (index / 24) + index % 24;
        let Ok(claim) = words.claim(pass, slot) else {
            panic!(rt; "slot {slot} is free")
        };
        if let Err(_kept) = claims.push(claim) {
            rt.panic("no memory")
        }
    }
    claims
}

// Releases the last of these claims, if there is one.
fn release_last<N: slot_words::Naming>(
    words: &SlotWords<N>,
    pass: &mut Pass<N>,
    claims: &mut Vec<Claim<N>>,
) {
    if let Some(claim) = claims.pop() {
        words.release(pass, claim);
    }
}

/// How many claims an array keeps after two Books, whose only worker, of number 4, plays the first story and then the second.
/// The first `count` of its 48 mirrored slots are claimed before the first Book; the last of these is released before the second.
pub(crate) fn one_after_other<F: Story + Sync, S: Story + Sync, R: Abort + Threads + Wait + Sync>(
    rt: &R,
    alloc: Global,
    count: u16,
    first: &F,
    second: &S,
) -> u32
    requires { count ≤ 48 }
{
    let tables = new_tables(rt, alloc);
    let (even, odd) = (new_map(rt, alloc), new_map(rt, alloc));
    let opened = new_history(rt, alloc);
    both::<Brand, Brand, Brand, Brand, Brand, F, S, R>(
        rt,
        alloc,
        (tables, opened),
        (even, odd),
        count,
        (first, second),
    )
}

fn both<
    N: slot_words::Naming + Sizes + Send + Sync,
    A: map_words::Naming + Send + Sync,
    B: map_words::Naming + Send + Sync,
    C: map_words::Naming + Send + Sync,
    D: map_words::Naming + Send + Sync,
    F: Story + Sync,
    S: Story + Sync,
    R: Abort + Threads + Wait + Sync,
>(
    rt: &R,
    alloc: Global,
    tables: (Tables, Opened<Deed>),
    maps: (map_words::Unnamed, map_words::Unnamed),
    count: u16,
    stories: (&F, &S),
) -> u32
    requires names { (tables.0.slots ≡ N.table) × (tables.0.even ≡ A.table) × (tables.0.odd ≡ B.table) × (tables.1 ≡ N.chronicle) }
    requires maps { (maps.0 ≡ C.table) × (maps.1 ≡ D.table) }
    requires blocks { (blocks_of maps.0 ≡ 16) × (blocks_of maps.1 ≡ 16) }
    requires sizes { (N.blocks ≡ 16) × (N.payload ≡ 40) × (N.hands ≡ 2) }
    requires count { count ≤ 48 }
{
    let (tables, opened) = tables;
    let mut bench = named::<N, A, B>(tables);
    let mut spare = bench.words.split(&mut bench.shares.pass);
    let mut claims = claimed(rt, alloc, &bench.words, &mut spare, count);
    let array = laid_out(rt, alloc, Layout::Storm);
    let (history, mut keeper, hand) = begin(opened, &array);
    // One hand for each Book: no more are hired while the array is in one.
    let later = hired(rt, &history, &mut keeper);
    let begun = (array, history, keeper, hand);
    let (settled, left) = play(rt, alloc, begun, bench, &[4], stories.0);
    check!(rt; settled == Ok(()));
    let Settled {
        array,
        words,
        pass,
        history,
        keeper,
        missing,
    } = left;
    // The second Book's hand waits.
    check!(rt; missing == Some(1));
    let Some(pass) = pass else {
        rt.panic("no Pass came back")
    };
    release_last(&words, &mut spare, &mut claims);
    let shape = array.shape();
    check!(rt; shape.blocks == 16 && shape.payload == 40);
    let bench = renewed::<N, C, D>(words, pass, maps.0, maps.1);
    let begun = (array, history, keeper, later);
    let (settled, left) = play(rt, alloc, begun, bench, &[4], stories.1);
    check!(rt; settled == Ok(()));
    let Settled {
        array,
        words,
        pass: _,
        history: _,
        keeper: _,
        missing,
    } = left;
    // The first Book's hand ended with it.
    check!(rt; missing == Some(0));
    while let Some(claim) = claims.pop() {
        words.release(&mut spare, claim);
    }
    claims.destroy_empty();
    released(rt, &words, &mut spare, array)
}
