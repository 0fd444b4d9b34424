// Which block is demoted next.
use crate::asserts::check;
use crate::set_up::{four_groups, places, took};
use extent_groups::GroupTable;
use map_join::BlockMap;
use migrator::{MarkedAges, Recency, mirror_slots, needs_demotion};
use std::alloc::Global;
use std::process::Abort;

/// Sixteen blocks in the order of their numbers.
fn sixteen(rt: &impl Abort, alloc: Global) -> Recency {
    let Ok(recency) = Recency::new(alloc, 16) else {
        rt.panic("no order")
    };
    recency
}

/// Notes a write of a block, after asserting that there is such a block.
fn wrote(rt: &impl Abort, recency: &mut Recency, block: u32) {
    check!(rt; (block as usize) < recency.len());
    recency.wrote(block);
}

/// Marks a block or removes its mark, after asserting that there is such a block.
fn mark(rt: &impl Abort, ages: &mut MarkedAges, block: u32, marked: bool) {
    check!(rt; (block as usize) < ages.len());
    ages.mark(block, marked);
}

/// Which block is demoted next.
fn next_of(recency: &Recency, groups: &GroupTable, map: &BlockMap) -> Option<u32> {
    recency.next_to_demote(groups, map)
}

#[test]
fn the_mirrored_block_written_longest_ago_goes_down(rt: HostRuntime) {
    let groups = four_groups(&rt, rt.alloc());
    let mut map = places(&rt, rt.alloc());
    let mut recency = sixteen(&rt, rt.alloc());
    check!(rt; recency.len() == 16);
    check!(rt; next_of(&recency, &groups, &map) == Some(4));
    for block in [0u32, 1, 2, 3, 4, 5] {
        wrote(&rt, &mut recency, block);
    }
    check!(rt; next_of(&recency, &groups, &map) == Some(4));
    wrote(&rt, &mut recency, 4);
    check!(rt; next_of(&recency, &groups, &map) == Some(5));
    took(&rt, &mut map, rt.alloc(), 5, 2, 1, 386);
    check!(rt; next_of(&recency, &groups, &map) == Some(4));
    took(&rt, &mut map, rt.alloc(), 4, 2, 1, 387);
    check!(rt; next_of(&recency, &groups, &map) == None);
}

#[test]
fn many_writes_keep_the_order(rt: HostRuntime) {
    let groups = four_groups(&rt, rt.alloc());
    let map = places(&rt, rt.alloc());
    let mut recency = sixteen(&rt, rt.alloc());
    for note in 0..100u32 {
        let block = 4 + note % 2;
        wrote(&rt, &mut recency, block);
        check!(rt; next_of(&recency, &groups, &map) == Some(9 - block));
    }
}

#[test]
fn the_oldest_marked_block_is_found_again(rt: HostRuntime) {
    let Ok(mut ages) = MarkedAges::new(rt.alloc(), 16) else {
        rt.panic("no ages")
    };
    check!(rt; ages.oldest_marked() == None);
    for block in [4u32, 5] {
        mark(&rt, &mut ages, block, true);
    }
    for note in 0..100u32 {
        let block = 4 + note % 2;
        check!(rt; (block as usize) < ages.len());
        ages.wrote(block);
        check!(rt; ages.oldest_marked() == Some(9 - block));
    }
    mark(&rt, &mut ages, 4, false);
    check!(rt; ages.oldest_marked() == Some(5));
    mark(&rt, &mut ages, 3, true);
    check!(rt; ages.oldest_marked() == Some(3));
}

#[test]
fn mirrored_slots_are_listed_and_few_free_ones_want_a_demotion(rt: HostRuntime) {
    let groups = four_groups(&rt, rt.alloc());
    let Ok(slots) = mirror_slots(rt.alloc(), &groups) else {
        rt.panic("no slots")
    };
    check!(rt; slots.as_slice() == [0, 1].as_slice());
    check!(rt; needs_demotion(1, 2) && !needs_demotion(2, 2));
}
