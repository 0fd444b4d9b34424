// How many slots of each parity group are live.
ghost use Rattle.std.specs.Prelude.{◌≡◌, ℕ, ◌<◌, ◌≤◌, MatchOption, Some, length};
ghost use Rattle.extent_groups.specs.declared.class.Class.TheVariants.{Parity};
ghost use Rattle.extent_groups.specs.Groups.{group_at, class_in};
ghost use Rattle.cleaner.specs.Counts.{HasLive, AreLiveCounts};

use extent_groups::{Class, GROUPS, GroupTable};
use map_join::Live;

// The live slots of a group, none where it isn't a made parity group.
pub(crate) fn live_of<L: Live>(groups: &GroupTable, live: &L, group: u16) -> Option<u16>
    requires { group < 512 }
    ensures count { MatchOption result (class_in (group_at groups.now group) ≡ Some Parity → ⊥) (λ count. HasLive groups.now (L.keys live.now) group count) }
    ensures numbers { length groups.now.table ≡ 512 }
{
    // Nothing is read: by this call's clause the table has 512 numbers, so that callers' walks see all groups.
    let _members = groups.members(group);
    if groups.class_of(group) != Some(Class::Parity) {
        return None;
    }
    Some(live.count_live(group, groups.slots_of(group)))
}

// The live slots of each parity group.
pub(crate) fn counts_of<L: Live>(groups: &GroupTable, live: &L) -> [u16; GROUPS]
    ensures { AreLiveCounts groups.now (L.keys live.now) result }
{
    let mut counts = [0; GROUPS];
    for group in 0..GROUPS as u16 {
        if let Some(count) = live_of(groups, live, group) {
            counts[usize::from(group)] = count;
        }
    }
    counts
}
