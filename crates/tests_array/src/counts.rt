// The counts of live slots by group, compared with plain counts of where a walk of writes and copies left each block.
ghost use Rattle.std.specs.Prelude.{◌≤◌};

use crate::asserts::check;
use crate::rig::Rig;
use header_scan::restart;
use std::alloc::Global;
use std::process::Abort;
use step_core::Class;

/// Writes and copies of the walk, those for which the slot is held among them.
const STEPS: u32 = 400;

/// The slots of the two mirrored groups, and of the two parity groups.
const MIRRORED: [u16; 12] = [0, 1, 2, 3, 4, 5, 128, 129, 130, 131, 132, 133];

const PARITY: [u16; 16] = [
    256, 257, 258, 259, 260, 261, 262, 263, 384, 385, 386, 387, 388, 389, 390, 391,
];

// Groups 0 and 1 are mirrored, 2 and 3 have parity.
fn four_groups(rt: &impl Abort, alloc: Global) -> Rig {
    let mut rig = Rig::new(rt, alloc, 4);
    check!(rt; rig.make(rt, Class::Mirrored, [0, 1, 2], 1) == 1);
    check!(rt; rig.make(rt, Class::Parity, [1, 2, 3], 2) == 2);
    check!(rt; rig.make(rt, Class::Parity, [0, 1, 3], 3) == 3);
    rig
}

// How many blocks lie in the group.
fn lying_in(places: &[Option<u16>; 16], group: u16) -> usize {
    let mut count = 0usize;
    for place in places {
        if let Some(slot) = place
            && *slot / 128 == group
        {
            count = count.wrapping_add(1);
        }
    }
    count
}

// Whether the array counts of each group what lies there.
fn counts_all(rig: &Rig, places: &[Option<u16>; 16]) -> bool {
    for group in 0..512u16 {
        if usize::from(rig.array.live_count(group)) != lying_in(places, group) {
            return false;
        }
    }
    true
}

// Writes a block at a mirrored slot, or copies it to one of a parity group, where the slot is free.
fn step(rt: &impl Abort, rig: &mut Rig, places: &mut [Option<u16>; 16], turn: u32)
    requires { turn ≤ 400 }
{
    let block = (turn * 11 / 3) % 16;
    let at = block as usize;
    let written = places[at].is_some();
    if turn % 3 == 1 && written {
        let slot = PARITY[(turn * 5 % 16) as usize];
        if !rig.array.is_held(slot) {
            places[at] = Some(rig.carry(rt, slot, block).place);
        }
    } else {
        let slot = MIRRORED[(turn * 7 % 12) as usize];
        if !rig.array.is_held(slot) {
            places[at] = Some(rig.write(rt, slot, block, (turn % 256) as u8).place);
        }
    }
}

// The array rebuilt from its headers.
fn made_afresh(rt: &impl Abort, rig: Rig) -> Rig {
    let Rig { array, alloc } = rig;
    let Ok((parts, claims)) = array.into_parts(alloc) else {
        rt.panic("not taken apart")
    };
    let Ok((array, _others)) = restart(alloc, parts, claims) else {
        rt.panic("not made anew")
    };
    Rig { array, alloc }
}

#[test]
fn each_group_counts_the_blocks_that_lie_there(rt: HostRuntime) {
    let mut rig = four_groups(&rt, rt.alloc());
    let mut places = [None; 16];
    check!(rt; counts_all(&rig, &places));
    for turn in 0..STEPS {
        step(&rt, &mut rig, &mut places, turn);
        check!(rt; counts_all(&rig, &places));
    }
    check!(rt; rig.array.record_count() > 200);
    let mut afresh = made_afresh(&rt, rig);
    check!(rt; counts_all(&afresh, &places));
    step(&rt, &mut afresh, &mut places, STEPS);
    check!(rt; counts_all(&afresh, &places));
}

// Whether the array counts `first` live slots in group 0, and `third` in group 2.
fn counts(rig: &Rig, first: u16, third: u16) -> bool {
    rig.array.live_count(0) == first && rig.array.live_count(2) == third
}

// Fills a slot, and copies block 3, which is the only one, to a slot that is given up.
fn give_up(rt: &impl Abort, rig: &mut Rig) {
    check!(rt; rig.fill(rt, 1, 0x22).is_ok());
    let Ok(ticket) = rig.copy(rt, 256, 3) else {
        rt.panic("not copied")
    };
    check!(rt; counts(rig, 1, 0));
    check!(rt; rig.array.discard(ticket).is_ok());
}

#[test]
fn what_waits_and_is_given_up_counts_nowhere(rt: HostRuntime) {
    let mut rig = four_groups(&rt, rt.alloc());
    check!(rt; rig.write(&rt, 0, 3, 0x11).place == 0);
    give_up(&rt, &mut rig);
    check!(rt; counts(&rig, 1, 0));
    check!(rt; rig.carry(&rt, 257, 3).place == 257);
    check!(rt; counts(&rig, 0, 1));
}
