//! What only one drive vouches for, while others are left out.
use extent_groups::{Class, GROUPS, GroupTable};

/// How many pairs of copies and how many rows there are, and how many of each miss a drive, so that nothing compares the rest.
#[derive(Clone, Copy, Debug, PartialEq, Eq)]
pub(crate) struct Witness {
    pub(crate) pairs: u32,
    pub(crate) lone_pairs: u32,
    pub(crate) rows: u32,
    pub(crate) lone_rows: u32,
}

// Whether a drive is lost.
fn is_lost(lost: &[bool], drive: u8) -> bool {
    let drive = usize::from(drive);
    drive < lost.len() && lost[drive]
}

// How many of a mirrored group's pairs miss a drive.
fn count_lone_pairs(groups: &GroupTable, lost: &[bool], group: u16) -> u32 {
    let mut count = 0u32;
    if groups.class_of(group) != Some(Class::Mirrored) {
        return 0;
    }
    let members = groups.members(group);
    for index in 0..groups.slots_of(group) {
        let copies = groups.copies(group, index);
        let first = members[copies.first.member as usize].drive;
        let second = members[copies.second.member as usize].drive;
        if is_lost(lost, first) || is_lost(lost, second) {
            count = count.saturating_add(1);
        }
    }
    count
}

// Whether a member of a group is on a lost drive.
fn misses_drive(groups: &GroupTable, lost: &[bool], group: u16) -> bool {
    groups
        .members(group)
        .iter()
        .any(|member| is_lost(lost, member.drive))
}

/// Counts pairs and rows, with these drives lost.
pub(crate) fn count_witnesses(groups: &GroupTable, lost: &[bool]) -> Witness {
    let mut witness = Witness {
        pairs: 0,
        lone_pairs: 0,
        rows: 0,
        lone_rows: 0,
    };
    let rows = groups.shape().extent_units();
    for group in 0..GROUPS as u16 {
        match groups.class_of(group) {
            Some(Class::Mirrored) => {
                let pairs = u32::from(groups.slots_of(group));
                witness.pairs = witness.pairs.saturating_add(pairs);
                let lone = count_lone_pairs(groups, lost, group);
                witness.lone_pairs = witness.lone_pairs.saturating_add(lone);
            }
            Some(Class::Parity) => {
                witness.rows = witness.rows.saturating_add(rows);
                if misses_drive(groups, lost, group) {
                    witness.lone_rows = witness.lone_rows.saturating_add(rows);
                }
            }
            None => {}
        }
    }
    witness
}
