// Where slots lie, against a model of the geometry that was written apart.
use crate::asserts::check;
use crate::cases::PLACES;
use crate::tables::{Tables, on};
use extent_groups::{Class, Copies, GroupTable, Role, Spot, Stripe};
use std::alloc::Global;
use std::process::Abort;
use std::test::Fail;

/// The copies of a slot, if it is one of a mirrored group.
pub(crate) fn copies_seen(groups: &GroupTable, group: u16, index: u16) -> Option<Copies> {
    if index >= groups.slots_of(group) {
        return None;
    }
    match groups.class_of(group) {
        Some(Class::Mirrored) => Some(groups.copies(group, index)),
        _ => None,
    }
}

/// The stripe of a slot, if it is one of a parity group.
pub(crate) fn stripe_seen(groups: &GroupTable, group: u16, index: u16) -> Option<Stripe> {
    if index >= groups.slots_of(group) {
        return None;
    }
    match groups.class_of(group) {
        Some(Class::Parity) => Some(groups.stripe_of(group, index)),
        _ => None,
    }
}

/// A group of `members` members, under number 0.
fn group_of(
    rt: &impl Abort,
    alloc: Global,
    class: Class,
    members: u8,
    segments: u8,
) -> Result<Tables, Fail> {
    let mut tables = Tables::new(rt, alloc, 8, segments as u32)?;
    let all = [
        on(0, 0),
        on(1, 0),
        on(2, 0),
        on(3, 0),
        on(4, 0),
        on(5, 0),
        on(6, 0),
        on(7, 0),
    ];
    check!(rt; members <= 8);
    check!(rt;
        tables
            .put(rt, alloc, 0, class, &all[..members as usize])
            .is_ok()
    );
    Ok(tables)
}

fn spot(member: u8, offset: u8) -> Spot {
    Spot {
        member,
        offset: offset as u16,
    }
}

/// What lies at a unit of a group, if the group has such a unit.
fn role_seen(groups: &GroupTable, group: u16, member: u8, offset: u8) -> Option<Role> {
    if member as usize >= groups.members(group).len() {
        return None;
    }
    if offset as u32 >= groups.shape().extent_units() {
        return None;
    }
    Some(groups.role(group, member, offset as u16))
}

/// A row of the table: a slot by its index, and two units: its copies, or its own and the parity's.
#[derive(Clone, Copy)]
struct Row {
    class: Class,
    members: u8,
    segments: u8,
    index: u16,
    member: u8,
    offset: u8,
    other: u8,
    other_offset: u8,
}

impl Row {
    fn of(row: &[u8; 8]) -> Row {
        let [
            class,
            members,
            segments,
            index,
            member,
            offset,
            other,
            other_offset,
        ] = *row;
        Row {
            class: if class == 0 {
                Class::Mirrored
            } else {
                Class::Parity
            },
            members,
            segments,
            index: index as u16,
            member,
            offset,
            other,
            other_offset,
        }
    }
}

/// Whether the units of a row give its index.
fn is_reported_back(groups: &GroupTable, row: Row) -> bool {
    let slot = Some(Role::Slot(row.index));
    let second = match row.class {
        Class::Mirrored => slot,
        Class::Parity => Some(Role::ParityUnit),
    };
    role_seen(groups, 0, row.member, row.offset) == slot
        && role_seen(groups, 0, row.other, row.other_offset) == second
}

/// Whether a row is what the geometry says.
fn is_reported(groups: &GroupTable, row: Row) -> bool {
    match row.class {
        Class::Mirrored => copies_seen(groups, 0, row.index)
            == Some(Copies {
                first: spot(row.member, row.offset),
                second: spot(row.other, row.other_offset),
            }),
        Class::Parity => {
            let reported = Stripe {
                stripe: row.offset / 2,
                member: row.member,
                offset: row.offset as u16,
                parity: row.other,
            };
            stripe_seen(groups, 0, row.index) == Some(reported) && row.offset == row.other_offset
        }
    }
}

#[test]
fn every_index_lies_where_the_table_says(rt: HostRuntime) -> Result<(), Fail> {
    for places in &PLACES {
        let row = Row::of(places);
        let tables = group_of(&rt, rt.alloc(), row.class, row.members, row.segments)?;
        check!(rt; is_reported(&tables.groups, row));
        check!(rt; is_reported_back(&tables.groups, row));
    }
    Ok(())
}

#[test]
fn an_odd_segment_is_used_by_no_mirrored_slot(rt: HostRuntime) -> Result<(), Fail> {
    for (class, members, segments, slots) in [
        (Class::Mirrored, 3, 2, 6),
        (Class::Mirrored, 3, 3, 8),
        (Class::Parity, 3, 2, 8),
        (Class::Parity, 8, 8, 112),
    ] {
        check!(rt;
            group_of(&rt, rt.alloc(), class, members, segments)?
                .groups
                .slots_of(0)
                == slots
        );
    }
    Ok(())
}

#[test]
fn an_odd_segment_lies_on_the_last_member_unused(rt: HostRuntime) -> Result<(), Fail> {
    let odd = group_of(&rt, rt.alloc(), Class::Mirrored, 3, 3)?;
    for offset in 4..6 {
        check!(rt; role_seen(&odd.groups, 0, 2, offset) == Some(Role::Unused));
        check!(rt; role_seen(&odd.groups, 0, 1, offset) == Some(Role::Slot(offset as u16 + 2)));
    }
    Ok(())
}
