// The lowest slots of a parity group.
ghost use Rattle.std.specs.Prelude.{◌≡◌, ℕ, ◌/◌, ◌<◌, MatchOption, Some};
ghost use Rattle.map_join.specs.Live.{IsLive, MapsTo};
ghost use Rattle.extent_groups.specs.declared.class.Class.TheVariants.{Parity};
ghost use Rattle.extent_groups.specs.Groups.{group_at, class_in};
ghost use Rattle.extent_groups.specs.Stores.{IsSlotOf};
ghost use Rattle.cleaner.specs.Counts.{IsLiveOf, IsHoleOf, IsLowest};

use extent_groups::{GroupTable, SLOTS};
use map_join::Live;

// The lowest live slot of a parity group, and a block that lies there.
pub(crate) fn lowest_live<L: Live>(groups: &GroupTable, live: &L, group: u16) -> Option<(u16, u32)>
    requires low { group < 512 }
    requires made { class_in (group_at groups.now group) ≡ Some Parity }
    ensures { MatchOption result ((slot : ℕ) → IsLiveOf groups.now (L.keys live.now) group slot → ⊥)
        (λ found. IsLowest (IsLiveOf groups.now (L.keys live.now) group) found.0 × MapsTo (L.keys live.now) found.1 found.0) }
{
    let _members = groups.members(group);
    for index in 0..groups.slots_of(group) {
        let slot = SLOTS * group + index;
        match live.block_at(slot) {
            Some(block) => return Some((slot, block)),
            None => {}
        }
    }
    None
}

// The lowest hole of a parity group.
pub(crate) fn lowest_hole<L: Live>(groups: &GroupTable, live: &L, group: u16) -> Option<u16>
    requires low { group < 512 }
    requires made { class_in (group_at groups.now group) ≡ Some Parity }
    ensures { MatchOption result ((slot : ℕ) → IsSlotOf Parity groups.now slot → slot / 128 ≡ group → IsLive (L.keys live.now) slot)
        (λ slot. IsLowest (IsHoleOf groups.now (L.keys live.now) group) slot) }
{
    let _members = groups.members(group);
    for index in 0..groups.slots_of(group) {
        let slot = SLOTS * group + index;
        match live.block_at(slot) {
            Some(_) => {}
            None => return Some(slot),
        }
    }
    None
}
