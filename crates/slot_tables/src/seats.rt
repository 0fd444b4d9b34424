// Claims on their way into an array, and out of it. None is lost: their type has no `Drop`.
ghost use Rattle.std.specs.Prelude.{◌≡◌, ℕ, ◌+◌, ◌<◌, ◌≤◌, length, replicate, slice_index_or, slice_set};
ghost use Rattle.std.specs.Prelude.{vec_len, vec_capacity, IfOk, MatchOption, IsTrue, ◌↔◌, true, false, Some, None};
ghost use Rattle.slot_tables.specs.Views.{Nothing, Newest};
ghost use Rattle.slot_tables.specs.Kept.{kept_of, kepts_of, IsClaimOf, AreOf};
ghost use Rattle.slot_tables.specs.Claims.{how_many, claims_in, AreExpected, IsClaimed, IsLowestUnclaimed, LieBelow, kept_for, expected_at};

use crate::hold::Hold;
use crate::slot_state::{SlotState, put_in};
use map_join::Record;
use std::alloc::{AllocError, Global};

fn no_blocks(alloc: Global, count: usize) -> Result<Vec<Option<u32>>, AllocError>
    ensures { IfOk result (λ expected. expected.items ≡ replicate count None) }
{
    vec![in alloc; None; count]
}

fn no_marks(alloc: Global, count: usize) -> Result<Vec<bool>, AllocError>
    ensures { IfOk result (λ marks. marks.items ≡ replicate count false) }
{
    vec![in alloc; false; count]
}

// The block that each of the first `slots` slots is the newest place of.
pub(crate) fn blocks_by_slot(
    alloc: Global,
    records: &[Record],
    slots: usize,
) -> Result<Vec<Option<u32>>, AllocError>
    requires { LieBelow slots records.now }
    ensures { IfOk result (λ expected. AreExpected records.now slots expected.items) }
{
    let mut expected = no_blocks(alloc, slots)?;
    for index in 0..records.len() {
        let record = &records[index];
        expected[usize::from(record.place)] = Some(record.block);
    }
    Ok(expected)
}

// Marks a slot, if the table has a mark for it.
fn mark(marks: &mut Vec<bool>, slot: u16)
    ensures { marks.new.items ≡ slice_set marks.old.items slot true }
{
    if usize::from(slot) < marks.len() {
        marks[usize::from(slot)] = true;
    }
}

// Which of the first `slots` slots have a claim.
fn claimed<C: Hold>(alloc: Global, claims: &[C], slots: usize) -> Result<Vec<bool>, AllocError>
    ensures many { IfOk result (λ marks. length marks.items ≡ slots) }
    ensures each { IfOk result (λ marks. (slot : ℕ) → slot < slots → (IsTrue (slice_index_or marks.items slot true) ↔ (0 < how_many C.names claims.now slot))) }
{
    let mut marks = no_marks(alloc, slots)?;
    for index in 0..claims.len() {
        mark(&mut marks, claims[index].slot());
    }
    Ok(marks)
}

// The lowest slot that is wanted and of which there is no claim.
pub(crate) fn first_unclaimed<C: Hold>(
    alloc: Global,
    expected: &[Option<u32>],
    claims: &[C],
) -> Result<Option<u16>, AllocError>
    requires { length expected.now ≤ 65536 }
    ensures { IfOk result (λ found. MatchOption found ((slot : ℕ) → IsClaimed C.names claims.now expected.now slot)
        (IsLowestUnclaimed C.names claims.now expected.now)) }
{
    let marks = claimed(alloc, claims, expected.len())?;
    for slot in 0..expected.len() {
        if expected[slot].is_some() && !marks[slot] {
            return Ok(Some(slot as u16));
        }
    }
    Ok(None)
}

// The block that wants a slot; past the table's end there is none.
fn block_of(expected: &[Option<u32>], slot: u16) -> Option<u32>
    ensures { result ≡ expected_at expected.now slot }
{
    if usize::from(slot) < expected.len() {
        expected[usize::from(slot)]
    } else {
        None
    }
}

// Takes a claim into the place that wants it, or returns it.
fn seat<C: Hold>(
    expected: &mut Vec<Option<u32>>,
    places: &mut Vec<SlotState<C>>,
    claim: C,
) -> Option<C>
    requires many { vec_len expected.old ≡ vec_len places.old }
    requires claims { AreOf C.names places.old.items }
    requires free { (b : ℕ) → expected_at expected.old.items (C.names claim) ≡ Some b
        → slice_index_or (kepts_of places.old.items) (C.names claim) Nothing ≡ Nothing }
    ensures seated { (b : ℕ) → expected_at expected.old.items (C.names claim) ≡ Some b
        → (result ≡ None) × (expected.new.items ≡ slice_set expected.old.items (C.names claim) None)
        × (kepts_of places.new.items ≡ slice_set (kepts_of places.old.items) (C.names claim) (Newest b)) }
    ensures left { expected_at expected.old.items (C.names claim) ≡ None → (result ≡ Some claim) × (expected.new.items ≡ expected.old.items)
        × (kepts_of places.new.items ≡ kepts_of places.old.items) }
    ensures claims { AreOf C.names places.new.items }
    ensures room { vec_len places.new ≡ vec_len places.old }
    ensures slot { C.names claim < 65536 }
{
    let slot = claim.slot();
    match block_of(expected, slot) {
        None => Some(claim),
        Some(block) => {
            // Wanted only once, so that a second claim of the slot is left over.
            expected[usize::from(slot)] = None;
            put_in(places, slot, SlotState::Newest(block, claim));
            None
        }
    }
}

// Takes a claim into each place that wants one, and puts the other claims into `others`.
pub fn seat_all<C: Hold>(
    mut expected: Vec<Option<u32>>,
    mut claims: Vec<C>,
    places: &mut Vec<SlotState<C>>,
    others: &mut Vec<C>,
)
    requires many { vec_len expected ≡ vec_len places.old }
    requires all { (slot : ℕ) → IsClaimed C.names claims.items expected.items slot }
    requires free { (slot : ℕ) → slice_index_or (kepts_of places.old.items) slot Nothing ≡ Nothing }
    requires most { vec_len places.old ≤ 65536 }
    requires claims { AreOf C.names places.old.items }
    requires none { vec_len others.old ≡ 0 }
    requires room { vec_len claims ≤ vec_capacity others.old }
    ensures kept { (slot : ℕ) → slice_index_or (kepts_of places.new.items) slot Nothing ≡ kept_for (expected_at expected.items slot) }
    ensures shared { (slot : ℕ) → how_many C.names claims.items slot
        ≡ claims_in (slice_index_or (kepts_of places.new.items) slot Nothing) + how_many C.names others.new.items slot }
    ensures claims { AreOf C.names places.new.items }
    ensures places { vec_len places.new ≡ vec_len places.old }
{
    while let Some(claim) = claims.pop() {
        match seat(&mut expected, places, claim) {
            None => {}
            Some(other) => others.push_reserved(other),
        }
    }
    // Explicitly, because a list of claims has no `Drop`, even an empty one.
    claims.destroy_empty();
}

// The claim of a place, if it has one.
fn unseated<C: Hold>(place: SlotState<C>) -> Option<C>
    ensures { (slot : ℕ) → IsClaimOf C.names slot place
        → MatchOption result (claims_in (kept_of place) ≡ 0) (λ claim. (C.names claim ≡ slot) × (claims_in (kept_of place) ≡ 1)) }
{
    match place {
        SlotState::Free => None,
        SlotState::Pending(_, claim) => Some(claim),
        SlotState::Moving(_, _, claim) => Some(claim),
        SlotState::Newest(_, claim) => Some(claim),
        SlotState::Unmade(claim) => Some(claim),
    }
}

// Takes the claims out of all places, from the last slot to the first.
pub fn unseat_all<C: Hold>(mut places: Vec<SlotState<C>>, claims: &mut Vec<C>)
    requires of { AreOf C.names places.items }
    requires none { vec_len claims.old ≡ 0 }
    requires room { vec_len places ≤ vec_capacity claims.old }
    ensures { (slot : ℕ) → how_many C.names claims.new.items slot ≡ claims_in (slice_index_or (kepts_of places.items) slot Nothing) }
{
    while let Some(place) = places.pop() {
        if let Some(claim) = unseated(place) {
            claims.push_reserved(claim);
        }
    }
    places.destroy_empty();
}
