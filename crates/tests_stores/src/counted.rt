// Counts of live slots, as an array keeps them.
ghost use Rattle.std.specs.Prelude.{◌≡◌, ◌↔◌, ◌<◌, Some};
ghost use Rattle.extent_groups.specs.declared.class.Class.TheVariants.{Parity};
ghost use Rattle.extent_groups.specs.Groups.{group_at, class_in};
ghost use Rattle.map_join.specs.Maps.{at};
ghost use Rattle.migrator.specs.Counts.{AreZeroIfIdle};
ghost use Rattle.migrator.specs.Slots.{IsDeadGroup};

use extent_groups::{GROUPS, GroupTable};
use map_join::{BlockMap, Live};

/// How many slots of each group are live.
pub(crate) fn live_counts(groups: &GroupTable, map: &BlockMap) -> [u16; GROUPS]
    ensures { AreZeroIfIdle groups.now (at map.now) result }
{
    let mut counts = [0; GROUPS];
    for group in 0..GROUPS as u16 {
        counts[usize::from(group)] = live_of(groups, map, group);
    }
    counts
}

// How many slots of a group are live.
fn live_of(groups: &GroupTable, map: &BlockMap, group: u16) -> u16
    requires { group < 512 }
    ensures { class_in (group_at groups.now group) ≡ Some Parity → (result ≡ 0) ↔ IsDeadGroup groups.now (at map.now) group }
{
    let _members = groups.members(group);
    map.count_live(group, groups.slots_of(group))
}
