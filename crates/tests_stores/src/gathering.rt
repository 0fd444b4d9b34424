// How a hole is plugged, how a group is cleaned, and where the log goes on.
ghost use Rattle.std.specs.Prelude.{◌≢◌};

use crate::asserts::check;
use crate::counted::live_counts;
use crate::set_up::{four_groups, places, took};
use cleaner::{Move, clean_plan, empty_group, plug_plan};
use extent_groups::GroupTable;
use map_join::BlockMap;
use migrator::{Free, LogEnd, append_slots, first_append};
use std::alloc::Global;
use std::process::Abort;

#[test]
fn the_fullest_group_is_plugged_from_the_emptiest(rt: HostRuntime) {
    let groups = four_groups(&rt, rt.alloc());
    let mut map = places(&rt, rt.alloc());
    let plug = Move {
        block: 6,
        from: 258,
        to: 128,
    };
    check!(rt; plug_plan(&groups, &map, Some(3)) == Some(plug));
    check!(rt; clean_plan(&groups, &map, Some(3), Some(386)) == None);
    took(&rt, &mut map, rt.alloc(), 6, 1, 2, 128);
    check!(rt; plug_plan(&groups, &map, Some(3)) == None);
}

#[test]
fn the_last_block_of_a_group_goes_to_the_end_of_the_log(rt: HostRuntime) {
    let groups = four_groups(&rt, rt.alloc());
    let mut map = places(&rt, rt.alloc());
    took(&rt, &mut map, rt.alloc(), 6, 1, 2, 128);
    let clean = Move {
        block: 7,
        from: 259,
        to: 386,
    };
    check!(rt; clean_plan(&groups, &map, Some(3), Some(386)) == Some(clean));
    check!(rt; clean_plan(&groups, &map, Some(3), Some(257)) == None);
    check!(rt; clean_plan(&groups, &map, Some(3), None) == None);
    check!(rt; empty_group(&groups, &map, Some(3)) == None);
    took(&rt, &mut map, rt.alloc(), 7, 1, 2, 386);
    check!(rt; empty_group(&groups, &map, Some(3)) == Some(2));
    check!(rt; empty_group(&groups, &map, Some(2)) == None);
}

/// Whether the log goes on in exactly these slots.
fn appends(
    alloc: Global,
    end: &LogEnd,
    groups: &GroupTable,
    map: &BlockMap,
    expected: &[u16],
) -> bool {
    match append_slots(alloc, end, groups, map) {
        Ok(slots) => slots.as_slice() == expected,
        Err(_) => false,
    }
}

#[test]
fn the_log_goes_on_in_its_group_and_then_in_empty_ones(rt: HostRuntime) {
    let groups = four_groups(&rt, rt.alloc());
    let mut map = places(&rt, rt.alloc());
    let mut end = LogEnd::new();
    check!(rt; end.group() == None);
    end.appended(385);
    check!(rt; end.group() == Some(3));
    check!(rt; appends(rt.alloc(), &end, &groups, &map, &[386, 387]));
    took(&rt, &mut map, rt.alloc(), 6, 1, 2, 128);
    took(&rt, &mut map, rt.alloc(), 7, 1, 2, 386);
    check!(rt; appends(rt.alloc(), &end, &groups, &map, &[387, 256, 257, 258, 259]));
    end.appended(128 * 5);
    check!(rt; appends(rt.alloc(), &end, &groups, &map, &[256, 257, 258, 259]));
}

#[test]
fn a_new_log_begins_with_the_lowest_parity_slot(rt: HostRuntime) {
    let groups = four_groups(&rt, rt.alloc());
    let map = BlockMap::new(rt.alloc());
    let Ok(slots) = append_slots(rt.alloc(), &LogEnd::new(), &groups, &map) else {
        rt.panic("no slots")
    };
    check!(rt; slots.len() == 12);
    check!(rt; slots[0] == 128 && slots[4] == 256 && slots[11] == 387);
    check!(rt; empty_group(&groups, &map, None) == Some(1));
    check!(rt; plug_plan(&groups, &map, None) == None);
}

/// Every slot is free but one.
#[derive(Drop)]
pub(crate) struct AllBut(pub(crate) u16);

impl Free for AllBut {
    ghost free = { λ all slot. slot ≢ all.0 };

    fn is_free(&self, slot: u16) -> bool {
        slot != self.0
    }
}

#[test]
fn the_first_free_slot_following_the_log_is_found(rt: HostRuntime) {
    let groups = four_groups(&rt, rt.alloc());
    let map = places(&rt, rt.alloc());
    let counts = live_counts(&groups, &map);
    let mut end = LogEnd::new();
    check!(rt; first_append(&end, &groups, &map, &counts, &AllBut(0)) == None);
    end.appended(385);
    check!(rt; first_append(&end, &groups, &map, &counts, &AllBut(0)) == Some(386));
    check!(rt; first_append(&end, &groups, &map, &counts, &AllBut(386)) == Some(387));
    end.appended(387);
    check!(rt; first_append(&end, &groups, &map, &counts, &AllBut(0)) == None);
}
