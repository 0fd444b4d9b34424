ghost use Rattle.std.specs.Prelude.{◌≡◌, ◌<◌};
ghost use Rattle.map_words.specs.Places.{blocks_of};

use crate::asserts::check;
use map_join::{BlockMap, Record};
use map_words::{CloseRefusal, MapWords, Naming, SplitRefusal, Taker, Unnamed};
use std::alloc::Global;
use std::marker::Brand;
use std::process::Abort;
use std::test::Fail;
use std::thread;
use std::thread::Threads;

const NEWER: Record = Record {
    block: 3,
    version: 2,
    hop: 0,
    place: 5,
};

const OLDER: Record = Record {
    block: 3,
    version: 1,
    hop: 1,
    place: 128,
};

fn needs_send<T: Send>(_: &T) {}

fn needs_sync<T: Sync>(_: &T) {}

fn split_of<N: Naming, R: Abort>(rt: &R, words: &MapWords<N>, taker: &mut Taker<N>) -> Taker<N> {
    match words.split(taker) {
        Ok(other) => other,
        Err(_) => rt.panic("there is a share"),
    }
}

// Closes the words with a share that isn't whole, asserts the refusal with that share, and returns words and Taker.
fn not_whole<N: Naming, R: Abort>(
    rt: &R,
    words: MapWords<N>,
    alloc: Global,
    taker: Taker<N>,
    share: u32,
) -> (MapWords<N>, Taker<N>) {
    match words.close(alloc, taker) {
        Ok(_) => rt.panic("the share is not the whole"),
        Err((refusal, words, taker)) => {
            check!(rt; refusal == CloseRefusal::NotWhole(share));
            check!(rt; refusal.number() == 1);
            (words, taker)
        }
    }
}

fn closed<N: Naming, R: Abort>(
    rt: &R,
    words: MapWords<N>,
    alloc: Global,
    taker: Taker<N>,
) -> BlockMap {
    match words.close(alloc, taker) {
        Ok(map) => map,
        Err(_) => rt.panic("the share is whole"),
    }
}

// The key of the block before this record was taken.
fn key_before<N: Naming>(words: &MapWords<N>, taker: &mut Taker<N>, record: Record) -> u64
    requires block { «record».block < blocks_of N.table }
    requires written { 0 < «record».version }
{
    words.take(taker, record)
}

// Whether the words hold this record of the block.
fn finds<N: Naming>(
    words: &MapWords<N>,
    taker: &mut Taker<N>,
    block: u32,
    record: Option<Record>,
) -> bool
    requires { block < blocks_of N.table }
{
    words.find(taker, block) == record
}

fn splits_sixteen_times<N: Naming, R: Abort>(rt: &R, table: Unnamed, alloc: Global)
    requires { table ≡ N.table }
{
    let (mut words, mut taker) = table.named::<N>();
    for share in [
        32768, 16384, 8192, 4096, 2048, 1024, 512, 256, 128, 64, 32, 16, 8, 4, 2, 1,
    ] {
        let other = split_of(rt, &words, &mut taker);
        let (back, _) = not_whole(rt, words, alloc, other, share);
        words = back;
    }
    match words.split(&mut taker) {
        Ok(_) => rt.panic("the share is 1"),
        Err(refusal) => check!(rt; refusal == SplitRefusal::NoShare),
    }
}

#[test]
fn a_share_is_halved_sixteen_times(rt: HostRuntime) -> Result<(), Fail> {
    splits_sixteen_times::<Brand, HostRuntime>(&rt, MapWords::new(rt.alloc(), 4)?, rt.alloc());
    Ok(())
}

fn closes_after_the_join<N: Naming + Send + Sync, R: Abort>(rt: &R, table: Unnamed, alloc: Global)
    requires name { table ≡ N.table }
    requires blocks { blocks_of table ≡ 16 }
{
    let (words, mut taker) = table.named::<N>();
    needs_sync(&words);
    needs_send(&taker);
    check!(rt; key_before(&words, &mut taker, OLDER) == 0);
    let mut other = split_of(rt, &words, &mut taker);
    check!(rt; finds(&words, &mut other, 3, Some(OLDER)));
    check!(rt; finds(&words, &mut other, 4, None));
    let (words, mut taker) = not_whole(rt, words, alloc, taker, 32768);
    words.join(&mut taker, other);
    let map = closed(rt, words, alloc, taker);
    check!(rt; map.get(3) == Some(OLDER));
    check!(rt; map.get(4).is_none());
}

#[test]
fn a_table_is_closed_with_the_whole_share_alone(rt: HostRuntime) -> Result<(), Fail> {
    closes_after_the_join::<Brand, HostRuntime>(&rt, MapWords::new(rt.alloc(), 16)?, rt.alloc());
    Ok(())
}

fn takes_two<N: Naming, R: Abort>(
    rt: &R,
    table: Unnamed,
    alloc: Global,
    first: Record,
    second: Record,
    first_key: u64,
)
    requires name { table ≡ N.table }
    requires blocks { blocks_of table ≡ 16 }
    requires first { (first.block ≡ 3) × (0 < first.version) }
    requires second { (second.block ≡ 3) × (0 < second.version) }
{
    let (words, mut one) = table.named::<N>();
    let mut other = split_of(rt, &words, &mut one);
    check!(rt; finds(&words, &mut other, 3, None));
    check!(rt; key_before(&words, &mut one, first) == 0);
    check!(rt; key_before(&words, &mut other, second) == first_key);
    check!(rt; finds(&words, &mut one, 3, Some(NEWER)));
    check!(rt; finds(&words, &mut other, 3, Some(NEWER)));
    words.join(&mut one, other);
    let map = closed(rt, words, alloc, one);
    check!(rt; map.get(3) == Some(NEWER));
    let Ok(list) = map.to_list(alloc) else {
        rt.panic("no list")
    };
    check!(rt; list.len() == 1);
}

#[test]
fn the_newer_record_wins_in_either_order(rt: HostRuntime) -> Result<(), Fail> {
    let alloc = rt.alloc();
    let table = MapWords::new(alloc, 16)?;
    takes_two::<Brand, HostRuntime>(&rt, table, alloc, NEWER, OLDER, 8_589_934_597);
    let table = MapWords::new(alloc, 16)?;
    takes_two::<Brand, HostRuntime>(&rt, table, alloc, OLDER, NEWER, 4_295_032_960);
    Ok(())
}

// Four records of each of sixteen blocks; those of version 4 are the newest.
fn nth(n: u32) -> Record
    requires { n < 64 }
    ensures { (result.block < 16) × (0 < result.version) }
{
    Record {
        block: n % 16,
        version: 1 + n / 16,
        hop: (n * 7 % 3) as u16,
        place: n as u16,
    }
}

// Takes all records, in the order that `step` gives, and says whether a record at least as new was found after each.
fn take_all<N: Naming>(words: &MapWords<N>, taker: &mut Taker<N>, step: u8) -> bool
    requires { blocks_of N.table ≡ 16 }
{
    let mut found = true;
    for round in 0..6400u32 {
        let taken = nth(round * u32::from(step) % 64);
        words.take(taker, taken);
        found &= match words.find(taker, taken.block) {
            Some(newest) => newest.key() >= taken.key(),
            None => false,
        };
    }
    found
}

fn take_all_in_two<N: Naming + Send + Sync, R: Threads + Sync>(
    rt: &R,
    words: &MapWords<N>,
    one: &mut Taker<N>,
    other: &mut Taker<N>,
    steps: (u8, u8),
) -> bool
    requires { blocks_of N.table ≡ 16 }
{
    let (first, second) = thread::join(
        rt,
        ||
            requires { blocks_of N.table ≡ 16 }
        { take_all(words, one, steps.0) },
        ||
            requires { blocks_of N.table ≡ 16 }
        { take_all(words, other, steps.1) },
    );
    first & second
}

// Whether the map holds the newest record of each block.
fn holds_the_newest(map: &BlockMap) -> bool {
    for block in 0..16u32 {
        if map.get(block) != Some(nth(48 + block)) {
            return false;
        }
    }
    true
}

fn takes_in_four_threads<N: Naming + Send + Sync, R: Abort + Threads + Sync>(
    rt: &R,
    table: Unnamed,
    alloc: Global,
)
    requires name { table ≡ N.table }
    requires blocks { blocks_of table ≡ 16 }
{
    let (words, mut a) = table.named::<N>();
    let mut b = split_of(rt, &words, &mut a);
    let mut c = split_of(rt, &words, &mut a);
    let mut d = split_of(rt, &words, &mut b);
    let (first, second) = thread::join(
        rt,
        ||
            requires { blocks_of N.table ≡ 16 }
        { take_all_in_two(rt, &words, &mut a, &mut b, (1, 63)) },
        ||
            requires { blocks_of N.table ≡ 16 }
        { take_all_in_two(rt, &words, &mut c, &mut d, (5, 37)) },
    );
    check!(rt; first & second);
    words.join(&mut a, b);
    words.join(&mut a, c);
    words.join(&mut a, d);
    let map = closed(rt, words, alloc, a);
    check!(rt; holds_the_newest(&map));
}

#[test]
fn four_threads_leave_the_newest_record_of_each_block(rt: HostRuntime) -> Result<(), Fail> {
    takes_in_four_threads::<Brand, HostRuntime>(&rt, MapWords::new(rt.alloc(), 16)?, rt.alloc());
    Ok(())
}
