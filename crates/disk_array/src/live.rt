// How many of each group's slots are newest places of blocks.
ghost use Rattle.std.specs.Prelude.{◌≡◌, ℕ, ◌+◌, ◌-◌, ◌/◌, ◌<◌, ◌≤◌, length, slice_index, slice_index_or, slice_set};
ghost use Rattle.map_join.specs.Live.{IsLiveCount};
ghost use Rattle.extent_groups.specs.Groups.{group_at, slots_in};
ghost use Rattle.slot_tables.specs.Views.{Nothing, key_at};
ghost use Rattle.slot_tables.specs.Kept.{kepts_of};
ghost use Rattle.slot_tables.specs.Counted.{is_newest, newest_below, AreCounts};

use crate::array::Array;
use extent_groups::{GROUPS, SLOTS};
use extents::Drive;
use slot_tables::{Hold, SlotState, state_at};

impl<D: Drive, C: Hold> Array<D, C> {
    /// How many of a group's slots are newest places of blocks; no slot is looked at.
    pub fn live_count(&self, group: u16) -> u16
        requires { group < 512 }
        ensures { (slots : ℕ) → slots_in self.now.parts.groups.segments (group_at self.now.parts.groups group) ≤ slots
            → IsLiveCount (key_at self.now) group slots result }
    {
        self.live[usize::from(group)]
    }

    /// How many of each group's slots are newest places of blocks; none is looked at or copied.
    pub fn live_counts(&self) -> &[u16; GROUPS]
        ensures many { length result.now ≡ 512 }
        ensures each { (group : ℕ) → group < 512 → (slots : ℕ) → slots_in self.now.parts.groups.segments (group_at self.now.parts.groups group) ≤ slots
            → IsLiveCount (key_at self.now) group slots (slice_index result.now group) }
    {
        &self.live
    }
}

// One more newest place in the slot's group.
pub(crate) fn one_more(live: &mut [u16; GROUPS], slot: u16)
    requires { slice_index live.old (slot / 128) < 65535 }
    ensures { live.new ≡ slice_set live.old (slot / 128) (slice_index live.old (slot / 128) + 1) }
{
    live[usize::from(slot / SLOTS)] += 1;
}

// One fewer.
pub(crate) fn one_fewer(live: &mut [u16; GROUPS], slot: u16)
    requires { 0 < slice_index live.old (slot / 128) }
    ensures { live.new ≡ slice_set live.old (slot / 128) (slice_index live.old (slot / 128) - 1) }
{
    live[usize::from(slot / SLOTS)] -= 1;
}

// No newest place in any group.
pub(crate) fn none_live() -> [u16; GROUPS]
    ensures many { length result ≡ 512 }
    ensures none { (group : ℕ) → slice_index result group ≡ 0 }
{
    [0; GROUPS]
}

// The counts of these places.
pub(crate) fn counted<C: Hold>(places: &[SlotState<C>]) -> [u16; GROUPS]
    ensures { AreCounts (kepts_of places.now) result }
{
    let mut live = none_live();
    for group in 0..GROUPS as u16 {
        live[usize::from(group)] = count_newest(places, group);
    }
    live
}

// How many of a group's slots are newest places.
fn count_newest<C: Hold>(places: &[SlotState<C>], group: u16) -> u16
    requires { group < 512 }
    ensures { result ≡ newest_below (kepts_of places.now) group 128 }
{
    // Past the places nothing is kept, so a restart with few groups counts few slots.
    if usize::from(SLOTS * group) >= places.len() {
        return 0;
    }
    let mut count = 0;
    for index in 0..SLOTS {
        if is_live(places, SLOTS * group + index) {
            count += 1;
        }
    }
    count
}

// Whether a slot is kept as a block's newest place.
fn is_live<C: Hold>(places: &[SlotState<C>], slot: u16) -> bool
    ensures { result ≡ is_newest (slice_index_or (kepts_of places.now) slot Nothing) }
{
    match state_at(places, slot) {
        Some(SlotState::Free) => false,
        Some(SlotState::Pending(_, _)) => false,
        Some(SlotState::Moving(_, _, _)) => false,
        Some(SlotState::Newest(_, _)) => true,
        Some(SlotState::Unmade(_)) => false,
        None => false,
    }
}
