// Slots of the made groups of a class, in the order of their numbers.
ghost use Rattle.std.specs.Prelude.{◌≡◌, ◌↔◌, ℕ, ◌+◌, ◌*◌, ◌/◌, ◌%◌, ◌<◌, ◌≤◌, IsTrue, IfOk, OnOk, Some};
ghost use Rattle.extent_groups.specs.Groups.{class_in, group_at};
ghost use Rattle.extent_groups.specs.Stores.{IsSlotOf};
ghost use Rattle.map_join.specs.Lists.{Lists, ListsBelow};
ghost use Rattle.migrator.specs.Slots.{AreMirrorSlots};
ghost use Rattle.migrator.specs.Picking.{IsPicked};

use crate::rows::{ROW, ROWS, may_have};
use extent_groups::{Class, GROUPS, GroupTable, SLOTS};
use std::alloc::{AllocError, Global};

/// Says which groups are picked, and which slots of these.
pub(crate) trait Picks {
    /// The group is picked.
    ghost group_is: { Self → ℕ → Type 0 };

    /// The slot is picked, where its group is.
    ghost slot_is: { Self → ℕ → Type 0 };

    fn picks_group(&self, group: u16) -> bool
        requires { group < 512 }
        ensures { IsTrue result ↔ group_is self.now group };

    fn picks_slot(&self, slot: u16) -> bool
        ensures { IsTrue result ↔ slot_is self.now slot };
}

// Every slot.
pub(crate) struct Every;

impl Picks for Every {
    ghost group_is = { λ every group. Unit {0} };

    ghost slot_is = { λ every slot. Unit {0} };

    fn picks_group(&self, group: u16) -> bool {
        true
    }

    fn picks_slot(&self, slot: u16) -> bool {
        true
    }
}

/// All slots of mirrored groups, ascending.
pub fn mirror_slots(alloc: Global, groups: &GroupTable) -> Result<Vec<u16>, AllocError>
    ensures { IfOk result (λ slots. AreMirrorSlots groups.now slots.items) }
{
    picked_slots(alloc, groups, Class::Mirrored, &Every)
}

// The slots of a class that are picked, ascending.
pub(crate) fn picked_slots<P: Picks>(
    alloc: Global,
    groups: &GroupTable,
    class: Class,
    which: &P,
) -> Result<Vec<u16>, AllocError>
    ensures { IfOk result (λ slots. Lists (IsPicked class groups.now (P.group_is which.now) (P.slot_is which.now)) slots.items) }
{
    // Nothing is read: by this call's clause the table has 512 numbers, so that the walk sees all groups.
    let _members = groups.members(0);
    // Room for one group's, so that a list seldom grows.
    let mut slots = Vec::with_capacity(alloc, usize::from(SLOTS))?;
    for row in 0..ROWS {
        if may_have(groups, class, row) {
            push_row(&mut slots, groups, class, row, which)?;
        }
    }
    Ok(slots)
}

// Those of a row of groups, where those of all lower rows are listed.
fn push_row<P: Picks>(
    slots: &mut Vec<u16>,
    groups: &GroupTable,
    class: Class,
    row: u16,
    which: &P,
) -> Result<(), AllocError>
    requires row { row < 32 }
    requires lower { ListsBelow (IsPicked class groups.now (P.group_is which.now) (P.slot_is which.now)) (2048 * row) slots.old.items }
    ensures { OnOk result (ListsBelow (IsPicked class groups.now (P.group_is which.now) (P.slot_is which.now)) (2048 * (row + 1)) slots.new.items) }
{
    for group in ROW * row..ROW * row + ROW {
        push_group(slots, groups, class, group, which)?;
    }
    Ok(())
}

// The slots of a class that are picked, where they are in no other group than this one.
pub(crate) fn picked_in<P: Picks>(
    alloc: Global,
    groups: &GroupTable,
    class: Class,
    group: Option<u16>,
    which: &P,
) -> Result<Vec<u16>, AllocError>
    requires { (n : ℕ) → P.group_is which.now n → group ≡ Some n }
    ensures { IfOk result (λ slots. Lists (IsPicked class groups.now (P.group_is which.now) (P.slot_is which.now)) slots.items) }
{
    // Nothing is read: by this call's clause the table has 512 numbers, so that a greater one is no group's.
    let _members = groups.members(0);
    // Room for one group's, so that a list seldom grows.
    let mut slots = Vec::with_capacity(alloc, usize::from(SLOTS))?;
    match group {
        Some(group) if group < GROUPS as u16 => {
            push_group(&mut slots, groups, class, group, which)?;
        }
        _ => {}
    }
    Ok(slots)
}

// Those of one group, if it is picked, where those of all lower groups are listed.
fn push_group<P: Picks>(
    slots: &mut Vec<u16>,
    groups: &GroupTable,
    class: Class,
    group: u16,
    which: &P,
) -> Result<(), AllocError>
    requires group { group < 512 }
    requires lower { ListsBelow (IsPicked class groups.now (P.group_is which.now) (P.slot_is which.now)) (128 * group) slots.old.items }
    ensures { OnOk result (ListsBelow (IsPicked class groups.now (P.group_is which.now) (P.slot_is which.now)) (128 * (group + 1)) slots.new.items) }
{
    if !is_of(groups, class, group) {
        return Ok(());
    }
    if !which.picks_group(group) {
        return Ok(());
    }
    push_picked(slots, groups, class, group, which)
}

// Whether the group is a made one of the class.
pub(crate) fn is_of(groups: &GroupTable, class: Class, group: u16) -> bool
    ensures { IsTrue result ↔ (class_in (group_at groups.now group) ≡ Some class) }
{
    groups.class_of(group) == Some(class)
}

// Those of a group that is picked.
fn push_picked<P: Picks>(
    slots: &mut Vec<u16>,
    groups: &GroupTable,
    class: Class,
    group: u16,
    which: &P,
) -> Result<(), AllocError>
    requires group { group < 512 }
    requires picked { P.group_is which.now group }
    requires lower { ListsBelow (IsPicked class groups.now (P.group_is which.now) (P.slot_is which.now)) (128 * group) slots.old.items }
    ensures { OnOk result (ListsBelow (IsPicked class groups.now (P.group_is which.now) (P.slot_is which.now)) (128 * (group + 1)) slots.new.items) }
{
    for index in 0..count_of(groups, class, group) {
        let slot = SLOTS * group + index;
        if which.picks_slot(slot) {
            slots.push(slot)?;
        }
    }
    Ok(())
}

// How many slots the group has, none where it isn't a made group of the class.
pub(crate) fn count_of(groups: &GroupTable, class: Class, group: u16) -> u16
    ensures few { result ≤ 128 }
    ensures just { (slot : ℕ) → slot / 128 ≡ group → IsSlotOf class groups.now slot ↔ (slot % 128 < result) }
{
    // Nothing is read: by this call's clause a group has at most eight members, so that the count is at most 128.
    let _members = groups.members(group);
    if groups.class_of(group) == Some(class) {
        groups.slots_of(group)
    } else {
        0
    }
}
