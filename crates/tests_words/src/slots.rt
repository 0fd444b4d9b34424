ghost use Rattle.std.specs.Prelude.{◌≡◌, ◌<◌, All, IfOk};
ghost use Rattle.slot_words.specs.Places.{table_slots};

use crate::asserts::check;
use slot_words::{Claim, ClaimRefusal, Naming, NoneFree, Pass, SlotWords, Unnamed};
use std::alloc::{AllocError, AllocFailed, Global};
use std::marker::Brand;
use std::process::Abort;
use std::sync::atomic::AtomicU64;
use std::sync::atomic::Ordering::SeqCst;
use std::test::Fail;
use std::thread;
use std::thread::Threads;

fn needs_send<T: Send>(_: &T) {}

fn needs_sync<T: Sync>(_: &T) {}

// Claims a slot, which must be free.
fn claimed<N: Naming, R: Abort>(
    rt: &R,
    words: &SlotWords<N>,
    pass: &mut Pass<N>,
    slot: u16,
) -> Claim<N>
    requires { slot < table_slots N.table }
    ensures { result.slot ≡ slot }
{
    match words.claim(pass, slot) {
        Ok(claim) => claim,
        Err(_) => rt.panic("the slot is free"),
    }
}

// The refusal of a claim of a slot, which must be held.
fn refused<N: Naming, R: Abort>(
    rt: &R,
    words: &SlotWords<N>,
    pass: &mut Pass<N>,
    slot: u16,
) -> ClaimRefusal
    requires { slot < table_slots N.table }
{
    match words.claim(pass, slot) {
        Ok(claim) => {
            words.release(pass, claim);
            rt.panic("the slot is held")
        }
        Err(refusal) => refusal,
    }
}

fn claims_one_slot_twice<N: Naming + Send + Sync, R: Abort>(rt: &R, table: Unnamed)
    requires name { table ≡ N.table }
    requires slots { table_slots table ≡ 8 }
{
    let (words, mut pass) = table.named::<N>();
    needs_sync(&words);
    needs_send(&pass);
    let first = claimed(rt, &words, &mut pass, 0);
    needs_send(&first);
    check!(rt; first.slot() == 0);
    check!(rt; first.generation() == 1);
    let taken = refused(rt, &words, &mut pass, 0);
    check!(rt; taken == ClaimRefusal::Taken(3));
    check!(rt; taken.number() == 1);
    words.release(&mut pass, first);
    let second = claimed(rt, &words, &mut pass, 0);
    check!(rt; second.generation() == 2);
    check!(rt; refused(rt, &words, &mut pass, 0) == ClaimRefusal::Taken(5));
    words.release(&mut pass, second);
}

#[test]
fn a_slot_gains_a_generation_with_each_claim(rt: HostRuntime) -> Result<(), Fail> {
    claims_one_slot_twice::<Brand, HostRuntime>(&rt, SlotWords::new(rt.alloc(), 8)?);
    Ok(())
}

// Claims the slot at this generation and releases it; meanwhile another is answered the slot's word.
fn claims_at<N: Naming, R: Abort>(
    rt: &R,
    words: &SlotWords<N>,
    passes: (&mut Pass<N>, &mut Pass<N>),
    slot: u16,
    generation: u64,
)
    requires slot { slot < table_slots N.table }
    requires generation { generation < 16 }
{
    let (pass, other) = passes;
    let claim = claimed(rt, words, pass, slot);
    check!(rt; claim.generation() == generation);
    let held = ClaimRefusal::Taken(2 * generation + 1);
    check!(rt; refused(rt, words, other, slot) == held);
    words.release(pass, claim);
}

fn claims_what_another_released<N: Naming, R: Abort>(rt: &R, table: Unnamed)
    requires name { table ≡ N.table }
    requires slots { table_slots table ≡ 8 }
{
    let (words, mut pass) = table.named::<N>();
    let mut second = words.split(&mut pass);
    claims_at(rt, &words, (&mut pass, &mut second), 5, 1);
    claims_at(rt, &words, (&mut second, &mut pass), 5, 2);
}

#[test]
fn a_refused_slot_is_claimed_once_it_is_released(rt: HostRuntime) -> Result<(), Fail> {
    claims_what_another_released::<Brand, HostRuntime>(&rt, SlotWords::new(rt.alloc(), 8)?);
    Ok(())
}

// Claims the first free slot of the list, which is this one, at this generation, and releases it.
fn claims_first_at<N: Naming, R: Abort>(
    rt: &R,
    words: &SlotWords<N>,
    pass: &mut Pass<N>,
    list: &[u16],
    slot: u16,
    generation: u64,
)
    requires { All (λ s. s < table_slots N.table) list.now }
{
    match words.claim_first(pass, list) {
        Ok(claim) => {
            check!(rt; claim.slot() == slot);
            check!(rt; claim.generation() == generation);
            words.release(pass, claim);
        }
        Err(_) => rt.panic("the slot is free"),
    }
}

fn counts_each_claim<N: Naming, R: Abort>(rt: &R, table: Unnamed)
    requires name { table ≡ N.table }
    requires slots { table_slots table ≡ 100 }
{
    let (words, mut pass) = table.named::<N>();
    let mut other = words.split(&mut pass);
    for generation in 1..4u64 {
        for slot in 0..100u16 {
            claims_at(rt, &words, (&mut pass, &mut other), slot, generation);
        }
    }
    for slot in 0..99u16 {
        claims_first_at(rt, &words, &mut pass, &[slot, slot + 1], slot, 4);
    }
    for slot in 0..99u16 {
        claims_at(rt, &words, (&mut pass, &mut other), slot, 5);
    }
    claims_at(rt, &words, (&mut pass, &mut other), 99, 4);
}

#[test]
fn a_hundred_slots_count_each_claim_once(rt: HostRuntime) -> Result<(), Fail> {
    counts_each_claim::<Brand, HostRuntime>(&rt, SlotWords::new(rt.alloc(), 100)?);
    Ok(())
}

fn let_go<N: Naming>(words: &SlotWords<N>, pass: &mut Pass<N>, given: &mut Option<Claim<N>>) {
    if let Some(claim) = given.take() {
        words.release(pass, claim);
    }
}

fn hands_a_claim_over<N: Naming + Send + Sync, R: Abort + Threads>(rt: &R, table: Unnamed)
    requires name { table ≡ N.table }
    requires slots { table_slots table ≡ 8 }
{
    let (words, mut pass) = table.named::<N>();
    let mut second = words.split(&mut pass);
    let claim = claimed(rt, &words, &mut pass, 2);
    check!(rt; refused(rt, &words, &mut second, 2) == ClaimRefusal::Taken(3));
    let mut given = Some(claim);
    thread::join(rt, || let_go(&words, &mut second, &mut given), || ());
    if let Some(kept) = given {
        words.release(&mut pass, kept);
    }
    let mut two = claimed(rt, &words, &mut pass, 2);
    check!(rt; two.generation() == 2);
    let mut three = claimed(rt, &words, &mut pass, 3);
    words.apart(&mut two, &mut three);
    check!(rt; (two.slot(), three.slot()) == (2, 3));
    words.release(&mut pass, two);
    words.release(&mut pass, three);
}

#[test]
fn a_claim_is_released_by_another_thread(rt: HostRuntime) -> Result<(), Fail> {
    hands_a_claim_over::<Brand, HostRuntime>(&rt, SlotWords::new(rt.alloc(), 8)?);
    Ok(())
}

fn finds_a_free_slot_in_a_list<N: Naming, R: Abort>(rt: &R, table: Unnamed, alloc: Global)
    requires name { table ≡ N.table }
    requires slots { table_slots table ≡ 8 }
{
    let (words, mut pass) = table.named::<N>();
    let all: [u16; 8] = [0, 1, 2, 3, 4, 5, 6, 7];
    let second = words.split(&mut pass);
    let claims = claim_all(&words, second, &all, alloc);
    check!(rt; claims.len() == 8);
    let last_refusal = NoneFree(Some(ClaimRefusal::Taken(3)));
    check!(rt; first_refusal(&words, &mut pass, &all) == Some(last_refusal));
    check!(rt; first_refusal(&words, &mut pass, &[]) == Some(NoneFree(None)));
    release_all(&words, &mut pass, claims, &mut [0; 64]);
    let zero = claimed(rt, &words, &mut pass, 0);
    let one = claimed(rt, &words, &mut pass, 1);
    claims_first_at(rt, &words, &mut pass, &all, 2, 2);
    words.release(&mut pass, zero);
    words.release(&mut pass, one);
}

// Why no listed slot could be claimed, if so.
fn first_refusal<N: Naming>(
    words: &SlotWords<N>,
    pass: &mut Pass<N>,
    list: &[u16],
) -> Option<NoneFree>
    requires { All (λ s. s < table_slots N.table) list.now }
{
    match words.claim_first(pass, list) {
        Ok(claim) => {
            words.release(pass, claim);
            None
        }
        Err(refusal) => Some(refusal),
    }
}

#[test]
fn the_first_free_slot_of_a_list_is_claimed(rt: HostRuntime) -> Result<(), Fail> {
    let table = SlotWords::new(rt.alloc(), 8)?;
    finds_a_free_slot_in_a_list::<Brand, HostRuntime>(&rt, table, rt.alloc());
    Ok(())
}

// Claims from the list until none is free.
fn claim_all<N: Naming>(
    words: &SlotWords<N>,
    mut pass: Pass<N>,
    list: &[u16],
    alloc: Global,
) -> Vec<Claim<N>>
    requires { All (λ s. s < table_slots N.table) list.now }
{
    let mut mine = Vec::new(alloc);
    for _ in 0..u64::MAX {
        let Ok(claim) = words.claim_first(&mut pass, list) else {
            return mine;
        };
        if let Err(AllocFailed { value }) = mine.push(claim) {
            words.release(&mut pass, value);
        }
    }
    mine
}

// Releases all, and counts each slot.
fn release_all<N: Naming>(
    words: &SlotWords<N>,
    pass: &mut Pass<N>,
    mut claims: Vec<Claim<N>>,
    counts: &mut [u8; 64],
) {
    while let Some(claim) = claims.pop() {
        if let Some(count) = counts.get_mut(usize::from(claim.slot())) {
            *count = count.saturating_add(1);
        }
        words.release(pass, claim);
    }
    claims.destroy_empty();
}

// Two threads claim from the list until none is free.
fn claim_all_in_two<N: Naming + Send + Sync, R: Threads + Sync>(
    rt: &R,
    words: &SlotWords<N>,
    one: Pass<N>,
    other: Pass<N>,
    list: &[u16],
    alloc: Global,
) -> (Vec<Claim<N>>, Vec<Claim<N>>)
    requires { All (λ s. s < table_slots N.table) list.now }
{
    thread::join(
        rt,
        ||
            requires { All (λ s. s < table_slots N.table) list.now }
        { claim_all(words, one, list, alloc) },
        ||
            requires { All (λ s. s < table_slots N.table) list.now }
        { claim_all(words, other, list, alloc) },
    )
}

fn shares_a_list_among_four<N: Naming + Send + Sync, R: Abort + Threads + Sync>(
    rt: &R,
    table: Unnamed,
    list: &[u16],
    alloc: Global,
)
    requires name { table ≡ N.table }
    requires listed { All (λ s. s < table_slots N.table) list.now }
{
    let (words, mut pass) = table.named::<N>();
    let (a, b) = (words.split(&mut pass), words.split(&mut pass));
    let (c, d) = (words.split(&mut pass), words.split(&mut pass));
    let ((first, second), (third, fourth)) = thread::join(
        rt,
        ||
            requires { All (λ s. s < table_slots N.table) list.now }
        { claim_all_in_two(rt, &words, a, b, list, alloc) },
        ||
            requires { All (λ s. s < table_slots N.table) list.now }
        { claim_all_in_two(rt, &words, c, d, list, alloc) },
    );
    let mut counts = [0u8; 64];
    release_all(&words, &mut pass, first, &mut counts);
    release_all(&words, &mut pass, second, &mut counts);
    release_all(&words, &mut pass, third, &mut counts);
    release_all(&words, &mut pass, fourth, &mut counts);
    check!(rt; counts == [1u8; 64]);
}

#[test]
fn four_threads_claim_each_listed_slot_once(rt: HostRuntime) -> Result<(), Fail> {
    let table = SlotWords::new(rt.alloc(), 64)?;
    let list = sixty_four(rt.alloc())?;
    shares_a_list_among_four::<Brand, HostRuntime>(&rt, table, &list, rt.alloc());
    Ok(())
}

fn sixty_four(alloc: Global) -> Result<Vec<u16>, AllocError>
    ensures { IfOk result (λ v. All (λ s. s < 64) v.items) }
{
    (0..64u16).collect(alloc)
}

// Claims and releases, and says whether each claim's holder was alone.
fn churn<N: Naming>(words: &SlotWords<N>, pass: &mut Pass<N>, holders: &[AtomicU64; 4]) -> bool
    requires { table_slots N.table ≡ 4 }
{
    let mut alone = true;
    for round in 0..100_000u32 {
        let slot = (round % 4) as u16;
        let Ok(claim) = words.claim(pass, slot) else {
            continue;
        };
        let holder = &holders[usize::from(slot)];
        alone &= holder.fetch_add(1, SeqCst) == 0;
        alone &= holder.fetch_sub(1, SeqCst) == 1;
        words.release(pass, claim);
    }
    alone
}

// Two threads churn, and say whether each claim's holder was alone.
fn churn_in_two<N: Naming + Send + Sync, R: Threads + Sync>(
    rt: &R,
    words: &SlotWords<N>,
    one: &mut Pass<N>,
    other: &mut Pass<N>,
    holders: &[AtomicU64; 4],
) -> bool
    requires { table_slots N.table ≡ 4 }
{
    let (first, second) = thread::join(
        rt,
        ||
            requires { table_slots N.table ≡ 4 }
        { churn(words, one, holders) },
        ||
            requires { table_slots N.table ≡ 4 }
        { churn(words, other, holders) },
    );
    first & second
}

fn churns_in_four_threads<N: Naming + Send + Sync, R: Abort + Threads + Sync>(
    rt: &R,
    table: Unnamed,
)
    requires name { table ≡ N.table }
    requires slots { table_slots table ≡ 4 }
{
    let (words, mut a) = table.named::<N>();
    let mut b = words.split(&mut a);
    let (mut c, mut d) = (words.split(&mut a), words.split(&mut a));
    let holders = [
        AtomicU64::new(0),
        AtomicU64::new(0),
        AtomicU64::new(0),
        AtomicU64::new(0),
    ];
    let (first, second) = thread::join(
        rt,
        ||
            requires { table_slots N.table ≡ 4 }
        { churn_in_two(rt, &words, &mut a, &mut b, &holders) },
        ||
            requires { table_slots N.table ≡ 4 }
        { churn_in_two(rt, &words, &mut c, &mut d, &holders) },
    );
    check!(rt; first & second);
    words.join(&mut a, b);
    for slot in 0..4u16 {
        let claim = claimed(rt, &words, &mut a, slot);
        words.release(&mut a, claim);
    }
}

#[test]
fn four_threads_never_hold_a_slot_twice(rt: HostRuntime) -> Result<(), Fail> {
    churns_in_four_threads::<Brand, HostRuntime>(&rt, SlotWords::new(rt.alloc(), 4)?);
    Ok(())
}
