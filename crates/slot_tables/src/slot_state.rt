// What the array keeps of a slot, claims included. No claim can be lost: it goes in by `put_in`, and
// comes out by `take_out`.
ghost use Rattle.std.specs.Prelude.{◌≡◌, ◌+◌, ◌*◌, ◌<◌, ◌≤◌, vec_len, vec_capacity, slice_index_or, slice_set, true, MatchOption, IsOk, OnOk};
ghost use Rattle.slot_tables.specs.Kept.{kept_of, kepts_of, IsClaimOf, AreOf};
ghost use Rattle.slot_tables.specs.Views.{Nothing, is_waiting};

use crate::hold::Hold;
use crate::tables::SLOTS as ALL_SLOTS;
use extent_groups::SLOTS;
use extents::Kind;
use map_join::Record;
use std::alloc::AllocError;
use std::mem;

/// What an array keeps of a slot: nothing; the claim of a slot that waits to be committed, with fresh content of a kind or
/// with a copy of a record of a kind; the claim of a block's newest place; or that of a slot of a dissolved group.
#[derive(Drop)]
pub enum SlotState<C: Hold> {
    Free,
    Pending(Kind, C),
    Moving(Record, Kind, C),
    Newest(u32, C),
    Unmade(C),
}

// The state of a slot; past the table's end there is none, and nothing is kept of the slot.
#[tactic(auto, using(crate::proofs::Places::kept_there, crate::proofs::Places::kept_past))]
pub fn state_at<C: Hold>(places: &[SlotState<C>], slot: u16) -> Option<&SlotState<C>>
    ensures { MatchOption result (slice_index_or (kepts_of places.now) slot Nothing ≡ Nothing)
        (λ place. slice_index_or (kepts_of places.now) slot Nothing ≡ kept_of place.now) }
{
    let at = usize::from(slot);
    if at < places.len() {
        Some(&places[at])
    } else {
        None
    }
}

// What is kept of a slot, which is free then.
#[tactic(auto, using(crate::proofs::Places::kepts_set, crate::proofs::Places::kept_there, crate::proofs::Places::kept_past, crate::proofs::Places::kepts_past))]
pub fn take_out<C: Hold>(places: &mut Vec<SlotState<C>>, slot: u16) -> SlotState<C>
    requires claims { AreOf C.names places.old.items }
    ensures taken { kept_of result ≡ slice_index_or (kepts_of places.old.items) slot Nothing }
    ensures of { IsClaimOf C.names slot result }
    ensures left { kepts_of places.new.items ≡ slice_set (kepts_of places.old.items) slot Nothing }
    ensures claims { AreOf C.names places.new.items }
    ensures room { vec_len places.new ≡ vec_len places.old }
{
    if usize::from(slot) >= places.len() {
        return SlotState::Free;
    }
    mem::replace(&mut places[usize::from(slot)], SlotState::Free)
}

// Keeps something of a slot of which nothing is kept.
#[tactic(auto, using(crate::proofs::Places::kepts_set, crate::proofs::Places::free_there))]
pub fn put_in<C: Hold>(places: &mut Vec<SlotState<C>>, slot: u16, place: SlotState<C>)
    requires inside { slot < vec_len places.old }
    requires free { slice_index_or (kepts_of places.old.items) slot Nothing ≡ Nothing }
    requires of { IsClaimOf C.names slot place }
    requires claims { AreOf C.names places.old.items }
    ensures kept { kepts_of places.new.items ≡ slice_set (kepts_of places.old.items) slot (kept_of place) }
    ensures claims { AreOf C.names places.new.items }
    ensures room { vec_len places.new ≡ vec_len places.old }
{
    // What was there is free, but its type has no `Drop`, so it is ended case by case.
    spent(mem::replace(&mut places[usize::from(slot)], place));
}

// Ends a place that holds nothing.
fn spent<C: Hold>(place: SlotState<C>)
    requires { kept_of place ≡ Nothing }
{
    match place {
        SlotState::Free => {}
        SlotState::Pending(_, _claim) => unreachable!(),
        SlotState::Moving(_, _, _claim) => unreachable!(),
        SlotState::Newest(_, _claim) => unreachable!(),
        SlotState::Unmade(_claim) => unreachable!(),
    }
}

// Takes out the claim of a slot that waits; nothing is kept of the slot then.
pub fn take_waiting<C: Hold>(places: &mut Vec<SlotState<C>>, slot: u16) -> C
    requires waits { is_waiting (slice_index_or (kepts_of places.old.items) slot Nothing) ≡ true }
    requires claims { AreOf C.names places.old.items }
    ensures of { C.names result ≡ slot }
    ensures left { kepts_of places.new.items ≡ slice_set (kepts_of places.old.items) slot Nothing }
    ensures claims { AreOf C.names places.new.items }
    ensures room { vec_len places.new ≡ vec_len places.old }
{
    match take_out(places, slot) {
        SlotState::Pending(_, claim) => claim,
        SlotState::Moving(_, _, claim) => claim,
        SlotState::Free => unreachable!(),
        SlotState::Newest(_, _claim) => unreachable!(),
        SlotState::Unmade(_claim) => unreachable!(),
    }
}

// Makes places for the slots of all groups up to this one. If an allocation fails, the existing places stay. An allocation is
// for at least twice as many places as there were, up to one place for each slot number. So growing group by group copies each
// place a constant number of times on average.
pub fn grow_to<C: Hold>(places: &mut Vec<SlotState<C>>, group: u16) -> Result<(), AllocError>
    requires group { group < 512 }
    requires most { vec_len places.old ≤ 65536 }
    requires claims { AreOf C.names places.old.items }
    ensures ok { OnOk result (128 * group + 128 ≤ vec_len places.new) }
    ensures there { 128 * group + 128 ≤ vec_len places.old → IsOk result }
    ensures room { vec_capacity places.old ≤ 65536 → vec_capacity places.new ≤ 65536 }
    ensures kept { kepts_of places.new.items ≡ kepts_of places.old.items }
    ensures longer { vec_len places.old ≤ vec_len places.new }
    ensures most { vec_len places.new ≤ 65536 }
    ensures claims { AreOf C.names places.new.items }
{
    let count = usize::from(SLOTS) * (usize::from(group) + 1);
    if places.capacity() < count {
        places.reserve_exact(room_for(count, places.len()).saturating_sub(places.len()))?;
    }
    for _made in places.len()..count {
        places.push_reserved(SlotState::Free);
    }
    Ok(())
}

// The capacity to reserve where `there` places exist and `count` are needed.
fn room_for(count: usize, there: usize) -> usize
    requires { count ≤ 65536 }
    ensures enough { count ≤ result }
    ensures most { result ≤ 65536 }
{
    // All at once, because twice as many would be more than there are slot numbers.
    if there >= ALL_SLOTS / 2 {
        return ALL_SLOTS;
    }
    if count > 2 * there { count } else { 2 * there }
}
