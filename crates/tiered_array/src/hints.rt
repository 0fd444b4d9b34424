// Which slots may be free: each that is, and some that aren't. A claim clears no hint, so that claims, fills and copies
// needn't call here; a search clears what it finds held.
ghost use Rattle.std.specs.Prelude.{◌≡◌, ℕ, ◌/◌, ◌<◌, length, IfOk, MatchOption};
ghost use Rattle.migrator.specs.First.{IsFirst};
ghost use Rattle.step_core.specs.declared.step.Answer.TheVariants as Answer;
ghost use Rattle.tiered_array.specs.Hints.{IsHinted, AreHints, IsSought, IsFirstHint, InRow, InRows, Anywhere};

use crate::bits::{BITS, clear_bit, lowest_bit, set_bit};
use extent_groups::{GROUPS, SLOTS};
use migrator::Free;
use std::alloc::{AllocError, Global};
use std::marker::Model;
use step_core::Answer;

// Rows of 64 slots: 1,024 for 65,536 slots. 16 words have a bit for each row, so that a search skips rows without hints.
const ROWS: usize = 1024;

const WORDS: usize = 16;

/// Slots that may be free: a bit for each, and one above each row of 64 slots where there may be any.
#[derive(Drop)]
pub struct FreeHints {
    slots: Vec<u64>,
    rows: Vec<u64>,
}

impl Model for FreeHints {
    ghost use Rattle.std.specs.Prelude.{ℕ, List};
    ghost use Rattle.tiered_array.specs.Hints.{AreHints};

    ghost Value = { List ℕ };

    ghost view = { λ h. h.slots.items };

    ghost invariant = { λ h. AreHints h.slots.items h.rows.items };
}

impl FreeHints {
    /// Each of the 65,536 slots may be free. Those that aren't are cleared by the first searches, so no array has to be read.
    pub(crate) fn new(alloc: Global) -> Result<FreeHints, AllocError>
        ensures { IfOk result (λ hints. (slot : ℕ) → slot < 65536 → IsHinted hints slot) }
    {
        Ok(FreeHints {
            slots: vec![in alloc; u64::MAX; ROWS]?,
            rows: vec![in alloc; u64::MAX; WORDS]?,
        })
    }

    /// Records that a slot may be free.
    pub(crate) fn add(&mut self, slot: u16)
        ensures here { IsHinted self.new slot }
        ensures others { (other : ℕ) → IsHinted self.old other → IsHinted self.new other }
    {
        let slot = usize::from(slot);
        set_bit(&mut self.slots, slot);
        set_bit(&mut self.rows, slot / BITS);
    }

    /// The lowest hinted slot that is free. Hints of slots that aren't free are cleared on the way.
    pub(crate) fn first<F: Free>(&mut self, free: &F) -> Option<u16>
        ensures first { IsFirst (λ slot. IsHinted self.old slot × F.free free.now slot) result }
        ensures keeps { (slot : ℕ) → IsHinted self.old slot → F.free free.now slot → IsHinted self.new slot }
    {
        first_of_all(&mut self.slots, &mut self.rows, free)
    }
}

// Records that the place that a block had, if any, may be free.
pub(crate) fn hint_left(hints: &mut FreeHints, left: Option<u16>)
    ensures left { MatchOption left (Unit {0}) (λ slot. IsHinted hints.new slot) }
    ensures others { (other : ℕ) → IsHinted hints.old other → IsHinted hints.new other }
{
    if let Some(slot) = left {
        hints.add(slot);
    }
}

// Records that the slots of a group that was made may be free.
pub(crate) fn hint_made(hints: &mut FreeHints, answer: &Answer)
    ensures made { (group slot : ℕ) → answer.now ≡ Answer.Made group → group < 512 → slot / 128 ≡ group → IsHinted hints.new slot }
    ensures others { (other : ℕ) → IsHinted hints.old other → IsHinted hints.new other }
{
    if let Answer::Made(group) = answer {
        hint_group(hints, *group);
    }
}

// Records that each slot of a group may be free. All 128, also of a group that has fewer: those that it lacks aren't free, and
// the next search clears them.
fn hint_group(hints: &mut FreeHints, group: u16)
    ensures all { group < 512 → (slot : ℕ) → slot / 128 ≡ group → IsHinted hints.new slot }
    ensures others { (other : ℕ) → IsHinted hints.old other → IsHinted hints.new other }
{
    // Else the slot's number below wouldn't fit into 16 bits.
    if group >= GROUPS as u16 {
        return;
    }
    for index in 0..SLOTS {
        hints.add(SLOTS * group + index);
    }
}

// The lowest hinted slot that is free.
fn first_of_all<F: Free>(slots: &mut [u64], rows: &mut [u64], free: &F) -> Option<u16>
    requires { AreHints slots.old rows.old }
    ensures hints { AreHints slots.new rows.new }
    ensures sought { IsSought slots.old slots.new (F.free free.now) }
    ensures first { IsFirstHint Anywhere slots.new (F.free free.now) result }
{
    for word in 0..WORDS {
        if let Some(slot) = first_in_rows(slots, rows, word, free) {
            return Some(slot);
        }
    }
    None
}

// The lowest free slot among the rows whose bits a word has. The bit of a row without one is cleared.
fn first_in_rows<F: Free>(slots: &mut [u64], rows: &mut [u64], word: usize, free: &F) -> Option<u16>
    requires word { word < 16 }
    requires hints { AreHints slots.old rows.old }
    ensures hints { AreHints slots.new rows.new }
    ensures sought { IsSought slots.old slots.new (F.free free.now) }
    ensures first { IsFirstHint (InRows word) slots.new (F.free free.now) result }
{
    while let Some(bit) = lowest_bit(rows[word]) {
        let row = BITS * word + bit as usize;
        if let Some(slot) = first_in_row(slots, row, free) {
            return Some(slot);
        }
        // So that no search looks here again, until a slot of the row is hinted.
        clear_bit(rows, row);
    }
    None
}

// The lowest free slot of a row. The bit of a slot that isn't free is cleared.
fn first_in_row<F: Free>(slots: &mut [u64], row: usize, free: &F) -> Option<u16>
    requires row { row < 1024 }
    requires slots { length slots.old ≡ 1024 }
    ensures sought { IsSought slots.old slots.new (F.free free.now) }
    ensures first { IsFirstHint (InRow row) slots.new (F.free free.now) result }
{
    while let Some(bit) = lowest_bit(slots[row]) {
        let slot = BITS * row + bit as usize;
        if free.is_free(slot as u16) {
            return Some(slot as u16);
        }
        // Its release hints it again.
        clear_bit(slots, slot);
    }
    None
}
