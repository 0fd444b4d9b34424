// Claims of a group's slots, on their way into the places of its number, and out of them.
ghost use Rattle.std.specs.Prelude.{◌≡◌, ◌≢◌, ℕ, ◌+◌, ◌*◌, ◌<◌, ◌≤◌, ◌/◌, ◌%◌, slice_index_or};
ghost use Rattle.std.specs.Prelude.{slice_set, vec_len, vec_capacity, nat_lt, true, None, IfSome, IsNone, MatchOption};
ghost use Rattle.slot_tables.specs.Changes.{opened_of, IsOpened};
ghost use Rattle.slot_tables.specs.Views.{Nothing, Unmade};
ghost use Rattle.slot_tables.specs.Claims.{how_many};
ghost use Rattle.slot_tables.specs.Kept.{kepts_of, AreOf};
ghost use Rattle.slot_tables.specs.Shut.{one_of, shut_of, closed_of};

use crate::hold::Hold;
use crate::slot_state::{SlotState, put_in, state_at, take_out};
use extent_groups::SLOTS;

// The claim that is kept of a slot for a dissolved group, if there is one.
fn open_slot<C: Hold>(places: &mut Vec<SlotState<C>>, slot: u16) -> Option<C>
    requires claims { AreOf C.names places.old.items }
    ensures opened { kepts_of places.new.items
        ≡ slice_set (kepts_of places.old.items) slot (opened_of (slice_index_or (kepts_of places.old.items) slot Nothing)) }
    ensures claim { MatchOption result (slice_index_or (kepts_of places.old.items) slot Nothing ≢ Unmade)
        (λ claim. (C.names claim ≡ slot) × (slice_index_or (kepts_of places.old.items) slot Nothing ≡ Unmade)) }
    ensures claims { AreOf C.names places.new.items }
    ensures room { vec_len places.new ≡ vec_len places.old }
{
    // Looked at before it is taken out, because a claim that comes out can't be dropped.
    match state_at(places, slot) {
        Some(SlotState::Unmade(_)) => {}
        Some(SlotState::Free) => return None,
        Some(SlotState::Pending(_, _)) => return None,
        Some(SlotState::Moving(_, _, _)) => return None,
        Some(SlotState::Newest(_, _)) => return None,
        None => return None,
    }
    match take_out(places, slot) {
        SlotState::Unmade(claim) => Some(claim),
        SlotState::Free => unreachable!(),
        SlotState::Pending(_, _claim) => unreachable!(),
        SlotState::Moving(_, _, _claim) => unreachable!(),
        SlotState::Newest(_, _claim) => unreachable!(),
    }
}

// Takes out the claims that are kept of a group's number, by rising slots.
pub fn open_number<C: Hold>(places: &mut Vec<SlotState<C>>, group: u16, claims: &mut Vec<C>)
    requires group { group < 512 }
    requires most { vec_len places.old ≤ 65536 }
    requires of { AreOf C.names places.old.items }
    requires none { vec_len claims.old ≡ 0 }
    requires room { 128 ≤ vec_capacity claims.old }
    ensures opened { IsOpened group (kepts_of places.old.items) (kepts_of places.new.items) }
    ensures taken { (slot : ℕ) → how_many C.names claims.new.items slot ≡ shut_of group slot (slice_index_or (kepts_of places.old.items) slot Nothing) }
    ensures of { AreOf C.names places.new.items }
    ensures room { vec_len places.new ≡ vec_len places.old }
{
    for index in 0..SLOTS {
        if let Some(claim) = open_slot(places, SLOTS * group + index) {
            claims.push_reserved(claim);
        }
    }
}

// Takes claims of free slots into their places.
pub fn close_all<C: Hold>(places: &mut Vec<SlotState<C>>, mut claims: Vec<C>)
    requires inside { (slot : ℕ) → 0 < how_many C.names claims.items slot → slot < vec_len places.old }
    requires of { AreOf C.names places.old.items }
    requires once { (slot : ℕ) → how_many C.names claims.items slot ≤ 1 }
    requires free { (slot : ℕ) → 0 < how_many C.names claims.items slot → slice_index_or (kepts_of places.old.items) slot Nothing ≡ Nothing }
    ensures closed { (slot : ℕ) → slice_index_or (kepts_of places.new.items) slot Nothing
        ≡ closed_of (how_many C.names claims.items slot) (slice_index_or (kepts_of places.old.items) slot Nothing) }
    ensures of { AreOf C.names places.new.items }
    ensures room { vec_len places.new ≡ vec_len places.old }
{
    while let Some(claim) = claims.pop() {
        let slot = claim.slot();
        put_in(places, slot, SlotState::Unmade(claim));
    }
    claims.destroy_empty();
}

// Which of the first `count` slots of a group have a claim among these; none if a claim is of no such slot, or is the second of one.
pub fn marked<C: Hold>(group: u16, count: u16, claims: &[C]) -> Option<[bool; 128]>
    ensures known { IfSome result (λ marks. (slot : ℕ) → how_many C.names claims.now slot ≤ one_of group count slot) }
    ensures each { IfSome result (λ marks. (slot : ℕ) → slot / 128 ≡ group
        → slice_index_or marks (slot % 128) true ≡ nat_lt 0 (how_many C.names claims.now slot)) }
    ensures none { IsNone result → (slot : ℕ) × (one_of group count slot < how_many C.names claims.now slot) }
{
    let mut marks = [false; 128];
    for index in 0..claims.len() {
        let slot = claims[index].slot();
        let at = usize::from(slot % SLOTS);
        if slot / SLOTS != group || slot % SLOTS >= count || marks[at] {
            return None;
        }
        marks[at] = true;
    }
    Some(marks)
}
