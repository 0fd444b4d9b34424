// Where the log starts over, with the most groups that an array can have.
use crate::asserts::check;
use crate::counted::live_counts;
use crate::gathering::AllBut;
use crate::set_up::took;
use crate::tables::{Tables, on, shape_of};
use extent_groups::{Class, GROUPS};
use map_join::BlockMap;
use migrator::{LogEnd, first_append};
use std::alloc::{AllocError, Global};
use std::process::Abort;
use std::test::Fail;

/// 512 parity groups of four slots.
fn all_groups(rt: &impl Abort, alloc: Global) -> Result<Tables, AllocError> {
    let mut tables = Tables::of(alloc, 3, &shape_of(rt, 512, 1))?;
    for group in 0..GROUPS as u16 {
        let members = [on(0, group), on(1, group), on(2, group)];
        check!(rt;
            tables
                .put(rt, alloc, group, Class::Parity, &members)
                .is_ok()
        );
    }
    Ok(tables)
}

/// The first slot of each group is live, but in the group that is left out.
fn one_in_each(rt: &impl Abort, alloc: Global, left_out: Option<u16>) -> BlockMap {
    let mut map = BlockMap::new(alloc);
    for group in 0..GROUPS as u16 {
        if left_out != Some(group) {
            took(rt, &mut map, alloc, u32::from(group), 1, 1, 128 * group);
        }
    }
    map
}

/// The log's end after the slot.
fn end_after(slot: u16) -> LogEnd {
    let mut end = LogEnd::new();
    end.appended(slot);
    end
}

#[test]
fn no_group_of_512_is_started_over_where_each_has_a_live_slot(rt: HostRuntime) -> Result<(), Fail> {
    let tables = all_groups(&rt, rt.alloc())?;
    let map = one_in_each(&rt, rt.alloc(), None);
    let groups = &tables.groups;
    let counts = live_counts(groups, &map);
    check!(rt; first_append(&LogEnd::new(), groups, &map, &counts, &AllBut(0)) == None);
    let end = end_after(128 * 7 + 3);
    check!(rt; first_append(&end, groups, &map, &counts, &AllBut(0)) == None);
    let end = end_after(128 * 7 + 1);
    check!(rt; first_append(&end, groups, &map, &counts, &AllBut(0)) == Some(128 * 7 + 2));
    Ok(())
}

#[test]
fn the_last_group_of_512_is_started_over(rt: HostRuntime) -> Result<(), Fail> {
    let tables = all_groups(&rt, rt.alloc())?;
    let map = one_in_each(&rt, rt.alloc(), Some(511));
    let groups = &tables.groups;
    let counts = live_counts(groups, &map);
    let last = 128 * 511;
    check!(rt; first_append(&LogEnd::new(), groups, &map, &counts, &AllBut(0)) == Some(last));
    let end = end_after(128 * 7 + 3);
    check!(rt; first_append(&end, groups, &map, &counts, &AllBut(last)) == Some(last + 1));
    let end = end_after(128 * 7 + 1);
    check!(rt; first_append(&end, groups, &map, &counts, &AllBut(0)) == Some(128 * 7 + 2));
    Ok(())
}

#[test]
fn a_write_group_without_live_slots_is_not_started_over(rt: HostRuntime) -> Result<(), Fail> {
    let tables = all_groups(&rt, rt.alloc())?;
    let map = one_in_each(&rt, rt.alloc(), Some(7));
    let groups = &tables.groups;
    let counts = live_counts(groups, &map);
    let end = end_after(128 * 7 + 3);
    check!(rt; first_append(&end, groups, &map, &counts, &AllBut(0)) == None);
    let end = end_after(128 * 7 + 1);
    check!(rt; first_append(&end, groups, &map, &counts, &AllBut(0)) == Some(128 * 7 + 2));
    let end = end_after(128 * 8 + 3);
    check!(rt; first_append(&end, groups, &map, &counts, &AllBut(0)) == Some(128 * 7));
    Ok(())
}
