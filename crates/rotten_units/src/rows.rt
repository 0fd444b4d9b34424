// Which slots have a rotten unit; of each pair of copies, and of each row, one unit at most is rotten.
ghost use Rattle.std.specs.Prelude.{◌≡◌, ◌/◌, ◌%◌, ◌+◌, ◌<◌, ℕ, List, Some, None, IfSome, IsTrue, false, slice_get};
ghost use Rattle.extent_groups.specs.declared.place.Place.{Place};
ghost use Rattle.extent_groups.specs.declared.class.Class.TheVariants.{Mirrored, Parity};
ghost use Rattle.extent_groups.specs.Groups.{group_at, slots_in};
ghost use Rattle.extent_groups.specs.Stores.{IsSlotOf};
ghost use Rattle.vault.specs.Marks.{Has};
ghost use Rattle.rotten_units.specs.Rows.{AreNotedOnce, FirstNotesOne, IsNotedOnce, IsUntouched};

use extent_groups::{Class, GROUPS, GroupTable, Place, SLOTS};
use vault::Places;

// Whether of a mirrored slot's two copies one at most is rotten.
fn is_pair_once(groups: &GroupTable, rotten: &Places, slot: u16) -> bool
    requires { IsSlotOf Mirrored groups.now slot }
    ensures { IsTrue result → IsNotedOnce (Has rotten.now.marks.items) groups.now slot }
{
    let (first, second) = groups.pair_of(slot);
    !(rotten.has(first) && rotten.has(second))
}

// Whether one of a row's first places is rotten, with one place more; none if that is the second.
fn see(rotten: &Places, place: Place, seen: bool) -> Option<bool>
    ensures { IfSome result (λ now. (row : List Place) (count : ℕ) → slice_get row count ≡ Some place
        → FirstNotesOne (Has rotten.now.marks.items) row count seen → FirstNotesOne (Has rotten.now.marks.items) row (count + 1) now) }
{
    if !rotten.has(place) {
        return Some(seen);
    }
    if seen {
        return None;
    }
    Some(true)
}

// Whether of a parity slot's row one unit at most is rotten.
fn is_row_once(groups: &GroupTable, rotten: &Places, slot: u16) -> bool
    requires { IsSlotOf Parity groups.now slot }
    ensures { IsTrue result → IsNotedOnce (Has rotten.now.marks.items) groups.now slot }
{
    let at = groups.row_of(slot);
    let mut seen = false;
    for member in 0..groups.members(slot / SLOTS).len() as u8 {
        let place = groups.place(slot / SLOTS, member, at.offset);
        let Some(now) = see(rotten, place, seen) else {
            return false;
        };
        seen = now;
    }
    true
}

// Whether of a slot's copies, or of its row, one unit at most is rotten. A number that is no slot's has none.
fn is_once(groups: &GroupTable, rotten: &Places, slot: u16) -> bool
    ensures { IsTrue result → IsNotedOnce (Has rotten.now.marks.items) groups.now slot }
{
    if slot % SLOTS >= groups.slots_of(slot / SLOTS) {
        return true;
    }
    match groups.class_of(slot / SLOTS) {
        Some(Class::Mirrored) => is_pair_once(groups, rotten, slot),
        Some(Class::Parity) => is_row_once(groups, rotten, slot),
        None => true,
    }
}

/// Tests that of each pair of copies, and of each row, one unit at most is rotten; else the lowest slot of which two are.
pub fn find_gone(groups: &GroupTable, rotten: &Places) -> Option<u16>
    ensures { result ≡ None → AreNotedOnce (Has rotten.now.marks.items) groups.now }
{
    // Nothing is read: this call's clause says what is true of every group table.
    let _groups = groups.members(0);
    for number in 0..GROUPS as u32 * SLOTS as u32 {
        let slot = number as u16;
        if !is_once(groups, rotten, slot) {
            return Some(slot);
        }
    }
    None
}

// Whether one of a mirrored slot's two copies is rotten.
fn is_pair_touched(groups: &GroupTable, rotten: &Places, slot: u16) -> bool
    requires { IsSlotOf Mirrored groups.now slot }
    ensures { result ≡ false → IsUntouched (Has rotten.now.marks.items) groups.now slot }
{
    let (first, second) = groups.pair_of(slot);
    rotten.has(first) || rotten.has(second)
}

// Whether one unit of a parity slot's row is rotten.
fn is_row_touched(groups: &GroupTable, rotten: &Places, slot: u16) -> bool
    requires { IsSlotOf Parity groups.now slot }
    ensures { result ≡ false → IsUntouched (Has rotten.now.marks.items) groups.now slot }
{
    let at = groups.row_of(slot);
    for member in 0..groups.members(slot / SLOTS).len() as u8 {
        let place = groups.place(slot / SLOTS, member, at.offset);
        if rotten.has(place) {
            return true;
        }
    }
    false
}

/// Whether one of a slot's copies, or of the units of its row, is rotten. False of a number that is no slot's.
pub fn is_touched(groups: &GroupTable, rotten: &Places, slot: u16) -> bool
    ensures slot { IsTrue result → slot % 128 < slots_in groups.now.segments (group_at groups.now (slot / 128)) }
    ensures untouched { result ≡ false → IsUntouched (Has rotten.now.marks.items) groups.now slot }
{
    if slot % SLOTS >= groups.slots_of(slot / SLOTS) {
        return false;
    }
    match groups.class_of(slot / SLOTS) {
        Some(Class::Mirrored) => is_pair_touched(groups, rotten, slot),
        Some(Class::Parity) => is_row_touched(groups, rotten, slot),
        None => false,
    }
}
