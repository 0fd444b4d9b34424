// A slot with where it lies, and the step to the next slot of its group.
ghost use Rattle.std.specs.Prelude.{◌≡◌, ◌+◌, ◌*◌, ◌%◌, ◌<◌, ◌≤◌};
ghost use Rattle.extent_groups.specs.Cursors.{IsMirroredAt, IsParityAt};

use crate::geometry::{next_copies, next_stripe, one_stripe, two_copies};
use crate::{Copies, SLOTS, Stripe};

/// A mirrored slot and where its copies lie.
#[derive(Clone, Copy)]
pub struct MirroredAt {
    pub slot: u16,
    pub copies: Copies,
}

/// A parity slot and where it lies.
#[derive(Clone, Copy)]
pub struct ParityAt {
    pub slot: u16,
    pub stripe: Stripe,
}

impl MirroredAt {
    /// The first slot of a mirrored group, by its count of members, 3 to 8, and its number, 0 to 511.
    pub fn first(members: u8, group: u16) -> MirroredAt
        requires some { 1 ≤ members }
        requires group { group < 512 }
        ensures slot { result.slot ≡ 128 * group }
        ensures copies { IsMirroredAt members result }
    {
        MirroredAt {
            slot: SLOTS * group,
            copies: two_copies(members, 0),
        }
    }

    /// The next slot of a group of this count of members, which has fewer than 128 slots. It takes no division, since a scan
    /// takes this step for each slot.
    #[inline(always)]
    pub fn next(&self, members: u8) -> MirroredAt
        requires many { (2 ≤ members) × (members ≤ 8) }
        requires more { self.now.slot % 128 < 127 }
        requires copies { IsMirroredAt members self.now }
        ensures slot { result.slot ≡ self.now.slot + 1 }
        ensures copies { IsMirroredAt members result }
    {
        MirroredAt {
            slot: self.slot + 1,
            copies: next_copies(members, self.slot % SLOTS, &self.copies),
        }
    }
}

impl ParityAt {
    /// The first slot of a parity group, by its count of members, 3 to 8, and its number, 0 to 511.
    pub fn first(members: u8, group: u16) -> ParityAt
        requires some { 2 ≤ members }
        requires group { group < 512 }
        ensures slot { result.slot ≡ 128 * group }
        ensures stripe { IsParityAt members result }
    {
        ParityAt {
            slot: SLOTS * group,
            stripe: one_stripe(members, 0),
        }
    }

    /// The next slot of a group of this count of members, which has fewer than 128 slots. It takes no division, since a scan
    /// takes this step for each slot.
    #[inline(always)]
    pub fn next(&self, members: u8) -> ParityAt
        requires many { (2 ≤ members) × (members ≤ 8) }
        requires more { self.now.slot % 128 < 127 }
        requires stripe { IsParityAt members self.now }
        ensures slot { result.slot ≡ self.now.slot + 1 }
        ensures stripe { IsParityAt members result }
    {
        ParityAt {
            slot: self.slot + 1,
            stripe: next_stripe(members, self.slot % SLOTS, &self.stripe),
        }
    }
}
