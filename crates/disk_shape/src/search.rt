// How many segments and groups are enough.
ghost use Rattle.std.specs.Prelude.{◌≡◌, ℕ, ◌<◌, ◌≤◌};
ghost use Rattle.disk_shape.specs.Plans.{mirrored_of, slots_of};

use extent_groups::{Class, count_slots};

/// The most groups of an array: with 128 slot numbers each they have all 65,536.
pub(crate) const MOST_GROUPS: u16 = 512;

/// The most segments of an extent: with eight members a group has 112 slots then, and numbers for 128.
pub(crate) const MOST_SEGMENTS: u16 = 8;

// Of every five groups, begun fives too, one is mirrored: about an eighth of the slots.
pub(crate) fn mirrored_among(groups: u16) -> u16
    requires { groups ≤ 512 }
    ensures { result ≡ mirrored_of groups }
{
    (groups + 4) / 5
}

/// Slots of `groups` groups.
pub(crate) fn slot_total(members: u16, segments: u16, groups: u16) -> u32
    requires some { 1 ≤ members }
    requires few { members ≤ 8 }
    requires short { segments ≤ 8 }
    requires groups { groups ≤ 512 }
    ensures { result ≡ slots_of members segments groups }
{
    let mirrored = mirrored_among(groups);
    let pairs = count_slots(Class::Mirrored, members, segments);
    let rows = count_slots(Class::Parity, members, segments);
    u32::from(mirrored) * u32::from(pairs) + u32::from(groups - mirrored) * u32::from(rows)
}

/// The least number of segments with which the most groups have more slots than there are blocks. Eight segments aren't
/// tested: the caller knows that they are enough.
pub(crate) fn first_segments(members: u16, blocks: u32) -> u16
    requires some { 1 ≤ members }
    requires few { members ≤ 8 }
    requires enough { blocks < slots_of members 8 512 }
    ensures range { (1 ≤ result) × (result ≤ 8) }
    ensures enough { blocks < slots_of members result 512 }
    ensures least { (s : ℕ) → 1 ≤ s → s < result → slots_of members s 512 ≤ blocks }
{
    for segments in 1..MOST_SEGMENTS {
        if blocks < slot_total(members, segments, MOST_GROUPS) {
            return segments;
        }
    }
    MOST_SEGMENTS
}

/// The least number of groups, 2 at least, that have more slots than there are blocks. Two, because one is mirrored, and a
/// block that leaves it needs a parity group. 512 aren't tested: the caller knows that they are enough.
pub(crate) fn first_groups(members: u16, segments: u16, blocks: u32) -> u16
    requires some { 1 ≤ members }
    requires few { members ≤ 8 }
    requires short { segments ≤ 8 }
    requires enough { blocks < slots_of members segments 512 }
    ensures range { (2 ≤ result) × (result ≤ 512) }
    ensures enough { blocks < slots_of members segments result }
    ensures least { (g : ℕ) → 2 ≤ g → g < result → slots_of members segments g ≤ blocks }
{
    for groups in 2..MOST_GROUPS {
        if blocks < slot_total(members, segments, groups) {
            return groups;
        }
    }
    MOST_GROUPS
}
