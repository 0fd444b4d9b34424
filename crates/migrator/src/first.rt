// The first free slot where the log goes on, without a list of them all.
ghost use Rattle.std.specs.Prelude.{◌≡◌, ◌↔◌, ℕ, ◌/◌, ◌%◌, ◌<◌, IsTrue, length};
ghost use Rattle.extent_groups.specs.declared.class.Class.TheVariants.{Mirrored, Parity};
ghost use Rattle.extent_groups.specs.Stores.{IsSlotOf};
ghost use Rattle.migrator.specs.Counts.{AreZeroIfIdle, IsOtherZero};
ghost use Rattle.migrator.specs.First.{FreeAtTail, IsFirst, IsFirstAppend, IsFirstRoom, IsFreeParity, IsFreePick};

use crate::LogEnd;
use crate::append::GoingOn;
use crate::rows::{ROW, ROWS, has_zero};
use crate::slots::{Every, Picks, count_of, is_of};
use extent_groups::{Class, GROUPS, GroupTable, SLOTS};
use map_join::Live;

/// Says which slots are free. In most plans these have no holder; where a plan only looks for the log's end, any slot is
/// free.
pub trait Free {
    /// The slot is free.
    ghost free: { Self → ℕ → Type 0 };

    /// Whether the slot is free.
    fn is_free(&self, slot: u16) -> bool
        ensures { IsTrue result ↔ free self.now slot };
}

// The slots of the other groups with a count of 0.
#[derive(Drop)]
struct Zeros<'a> {
    end: &'a LogEnd,
    counts: &'a [u16; GROUPS],
}

impl<'a> Picks for Zeros<'a> {
    ghost group_is = { λ p group. IsOtherZero p.end.now p.counts.now group };

    ghost slot_is = { λ p slot. Unit {0} };

    fn picks_group(&self, group: u16) -> bool {
        self.end.group() != Some(group) && self.counts[usize::from(group)] == 0
    }

    fn picks_slot(&self, slot: u16) -> bool {
        true
    }
}

/// The first free slot of those where the log goes on. It allocates nothing. `counts` has each group's live slots: groups
/// that have some are skipped, sixteen at once.
pub fn first_append<L: Live, F: Free>(
    end: &LogEnd,
    groups: &GroupTable,
    live: &L,
    counts: &[u16; GROUPS],
    free: &F,
) -> Option<u16>
    requires { AreZeroIfIdle groups.now (L.keys live.now) counts.now }
    ensures { IsFirstAppend end.now groups.now (L.keys live.now) (F.free free.now) result }
{
    match first_following(end, groups, live, free) {
        Some(slot) => return Some(slot),
        None => {}
    }
    first_fresh(end, groups, counts, free)
}

// The lowest slot of the write group, from the log's next index on, that isn't live and that `free` says is free: in most
// plans, one without a holder. No other group is looked at.
fn first_following<L: Live, F: Free>(
    end: &LogEnd,
    groups: &GroupTable,
    live: &L,
    free: &F,
) -> Option<u16>
    ensures { IsFirst (FreeAtTail end.now groups.now (L.keys live.now) (F.free free.now)) result }
{
    // Nothing is read: by this call's clause the table has 512 numbers, so that a greater one is no group's.
    let _members = groups.members(0);
    match end.group() {
        // Compared, because nothing bounds the group number of a log's end.
        Some(group) if group < GROUPS as u16 => {
            first_in(
                groups,
                Class::Parity,
                group,
                end.next(),
                &GoingOn { end, live },
                free,
            )
        }
        _ => None,
    }
}

// The first of the other groups with a count of 0.
fn first_fresh<F: Free>(
    end: &LogEnd,
    groups: &GroupTable,
    counts: &[u16; GROUPS],
    free: &F,
) -> Option<u16>
    ensures first { IsFirst (IsFreePick Parity groups.now (IsOtherZero end.now counts.now) (λ slot. Unit {0}) (F.free free.now)) result }
    ensures numbers { length groups.now.table ≡ 512 }
{
    let slots = groups.parity_slots();
    for row in 0..ROWS {
        // By rows, because one comparison skips sixteen groups that have live slots.
        if has_zero(slots, counts, row) {
            match first_in_row(groups, Class::Parity, row, &Zeros { end, counts }, free) {
                Some(slot) => return Some(slot),
                None => {}
            }
        }
    }
    None
}

/// The lowest free slot of mirrored groups. It allocates nothing.
pub fn first_mirror<F: Free>(groups: &GroupTable, free: &F) -> Option<u16>
    ensures { IsFirst (λ slot. IsSlotOf Mirrored groups.now slot × F.free free.now slot) result }
{
    // Nothing is read: by this call's clause the table has 512 numbers, so that the walk sees all groups.
    let _members = groups.members(0);
    for row in 0..ROWS {
        match first_in_row(groups, Class::Mirrored, row, &Every, free) {
            Some(slot) => return Some(slot),
            None => {}
        }
    }
    None
}

/// The lowest free slot of parity groups: a hole of any of them. It allocates nothing.
pub fn first_parity<F: Free>(groups: &GroupTable, free: &F) -> Option<u16>
    ensures { IsFirst (IsFreeParity groups.now (F.free free.now)) result }
{
    // Nothing is read: by this call's clause the table has 512 numbers, so that the walk sees all groups.
    let _members = groups.members(0);
    for row in 0..ROWS {
        match first_in_row(groups, Class::Parity, row, &Every, free) {
            Some(slot) => return Some(slot),
            None => {}
        }
    }
    None
}

/// The first free slot for a block that has to leave the mirrored level: where the log goes on, else the lowest free slot of all
/// parity groups. None only where no parity slot is free. It allocates nothing.
pub fn first_room<L: Live, F: Free>(
    end: &LogEnd,
    groups: &GroupTable,
    live: &L,
    counts: &[u16; GROUPS],
    free: &F,
) -> Option<u16>
    requires { AreZeroIfIdle groups.now (L.keys live.now) counts.now }
    ensures { IsFirstRoom end.now groups.now (L.keys live.now) (F.free free.now) result }
{
    match first_append(end, groups, live, counts, free) {
        Some(slot) => return Some(slot),
        None => {}
    }
    first_parity(groups, free)
}

// The lowest of these in a row of groups.
fn first_in_row<P: Picks, F: Free>(
    groups: &GroupTable,
    class: Class,
    row: u16,
    which: &P,
    free: &F,
) -> Option<u16>
    requires { row < 32 }
    ensures { IsFirst (λ slot. (slot / 2048 ≡ row) × IsFreePick class groups.now (P.group_is which.now) (P.slot_is which.now) (F.free free.now) slot) result }
{
    for group in ROW * row..ROW * row + ROW {
        match first_in(groups, class, group, 0, which, free) {
            Some(slot) => return Some(slot),
            None => {}
        }
    }
    None
}

// The lowest of these in one group; none is picked before the index.
fn first_in<P: Picks, F: Free>(
    groups: &GroupTable,
    class: Class,
    group: u16,
    from: u16,
    which: &P,
    free: &F,
) -> Option<u16>
    requires group { group < 512 }
    requires from { (slot : ℕ) → slot % 128 < from → P.slot_is which.now slot → ⊥ }
    ensures { IsFirst (λ slot. (slot / 128 ≡ group) × IsFreePick class groups.now (P.group_is which.now) (P.slot_is which.now) (F.free free.now) slot) result }
{
    if !is_of(groups, class, group) {
        return None;
    }
    if !which.picks_group(group) {
        return None;
    }
    for index in from..count_of(groups, class, group) {
        let slot = SLOTS * group + index;
        if which.picks_slot(slot) && free.is_free(slot) {
            return Some(slot);
        }
    }
    None
}
