// Members that are moved onto other extents: slots keep their units, also where they are rebuilt.
use crate::asserts::check;
use crate::rig::Rig;
use extent_groups::{Class, Member};
use flat_machine::Refusal;
use std::alloc::Global;
use std::process::Abort;

fn extent(drive: u8, extent: u16) -> Member {
    Member { drive, extent }
}

/// Fills slots from one on with units that bytes from another on name, one for each.
fn fill(rt: &impl Abort, rig: &mut Rig, first: u16, count: u8, byte: u8) {
    for index in 0..count {
        rig.writes(
            rt,
            first.wrapping_add(u16::from(index)),
            byte.wrapping_add(index),
        );
    }
}

/// Whether slots from one on hold units that bytes from another on name, one for each.
fn are_filled(rt: &impl Abort, rig: &mut Rig, first: u16, count: u8, byte: u8) -> bool {
    for index in 0..count {
        if !rig.holds(
            rt,
            first.wrapping_add(u16::from(index)),
            byte.wrapping_add(index),
        ) {
            return false;
        }
    }
    true
}

/// A mirrored group on drives 0 to 2, whose slots 0 to 5 hold 20 to 25.
fn mirrored(rt: &impl Abort, alloc: Global) -> Rig {
    let mut rig = Rig::new(rt, alloc);
    check!(rt;
        rig.enter(rt, alloc, 0, Class::Mirrored, &[0, 1, 2], 0)
            .is_ok()
    );
    fill(rt, &mut rig, 0, 6, 20);
    rig
}

/// Group 1 with parity on drives 0 to 2, whose slots 128 to 135 hold 40 to 47.
fn parity(rt: &impl Abort, alloc: Global) -> Rig {
    let mut rig = Rig::new(rt, alloc);
    check!(rt;
        rig.enter(rt, alloc, 1, Class::Parity, &[0, 1, 2], 1)
            .is_ok()
    );
    fill(rt, &mut rig, 128, 8, 40);
    rig
}

/// Whether group 0 has exactly these members.
fn is_on(rig: &Rig, members: &[Member]) -> bool {
    rig.parts.groups.members(0) == members
}

/// Whether a move of one of group 0's members onto drive 3 is refused so.
fn refuses(rt: &impl Abort, rig: &mut Rig, member: u8, expected: Refusal) -> bool {
    rig.shift(rt, 0, member, extent(3, 0)) == Err(expected)
}

#[test]
fn a_member_that_is_there_is_copied(rt: HostRuntime) {
    let alloc = rt.alloc();
    let mut rig = mirrored(&rt, alloc);
    check!(rt; rig.parts.groups.slots_of(0) == 6);
    rig.shifts(&rt, 0, 2, extent(3, 5));
    check!(rt; is_on(&rig, &[extent(0, 0), extent(1, 0), extent(3, 5)]));
    check!(rt; rig.is_owned(&rt, 2, 0, None));
    check!(rt; rig.is_owned(&rt, 3, 5, Some(0)));
    check!(rt; are_filled(&rt, &mut rig, 0, 6, 20));

    // Position 2 is of the pair of indexes 2 and 3, position 5 of that of 4 and 5.
    check!(rt; rig.drive_holds(&rt, 3, 20, 22));
    check!(rt; rig.drive_holds(&rt, 3, 21, 23));
    check!(rt; rig.drive_holds(&rt, 3, 22, 24));
    check!(rt; rig.drive_holds(&rt, 3, 23, 25));
    rig.lose(&rt, 0);
    rig.lose(&rt, 1);
    check!(rt; rig.is_gone(&rt, 0));
    check!(rt; are_filled(&rt, &mut rig, 2, 4, 22));
}

#[test]
fn a_lost_member_is_rebuilt_with_its_parity(rt: HostRuntime) {
    let alloc = rt.alloc();
    let mut rig = parity(&rt, alloc);
    rig.lose(&rt, 1);
    rig.shifts(&rt, 1, 1, extent(3, 0));
    check!(rt; are_filled(&rt, &mut rig, 128, 8, 40));

    // Index 2 is the first of the second member; the parity of the second stripe is on it.
    check!(rt; rig.drive_holds(&rt, 3, 0, 42));
    check!(rt; rig.drive_holds_both(&rt, 3, 2, 44, 46));
    rig.lose(&rt, 0);
    check!(rt; are_filled(&rt, &mut rig, 128, 8, 40));
    check!(rt; rig.is_first_gone(&rt, 1, None));
}

/// Whether the slots stay where a member's drive is lost at one of its calls in the midst of its move, and then another.
fn is_rebuilt(rt: &impl Abort, alloc: Global, calls: u64) -> bool {
    let mut rig = parity(rt, alloc);
    rig.fuse(rt, 1, calls);
    rig.shifts(rt, 1, 1, extent(3, 0));
    check!(rt; are_filled(rt, &mut rig, 128, 8, 40));
    rig.lose(rt, 2);
    are_filled(rt, &mut rig, 128, 8, 40)
}

#[test]
fn a_member_whose_drive_is_lost_in_the_midst_is_rebuilt(rt: HostRuntime) {
    for calls in 1..5 {
        check!(rt; is_rebuilt(&rt, rt.alloc(), calls));
    }
}

/// Moves members of a group two of whose drives are lost, which is refused where a slot is gone.
fn move_with_two_lost(rt: &impl Abort, alloc: Global) {
    let mut rig = mirrored(rt, alloc);
    rig.lose(rt, 0);
    rig.lose(rt, 2);
    check!(rt; rig.is_first_gone(rt, 0, Some(2)));
    check!(rt; refuses(rt, &mut rig, 2, Refusal::Gone(2)));
    // A member that is there is copied, regardless of what else the group misses.
    rig.shifts(rt, 0, 1, extent(3, 0));
    check!(rt; rig.holds(rt, 0, 20));
    check!(rt; is_on(&rig, &[extent(0, 0), extent(3, 0), extent(2, 0)]));
}

#[test]
fn a_move_is_refused_with_the_lowest_gone_slot_or_the_target(rt: HostRuntime) {
    let alloc = rt.alloc();
    let mut rig = mirrored(&rt, alloc);
    rig.fuse(&rt, 3, 3);
    check!(rt; refuses(&rt, &mut rig, 0, Refusal::DriveLost(3)));
    check!(rt; rig.is_owned(&rt, 3, 0, None));
    check!(rt; rig.is_owned(&rt, 0, 0, Some(0)));
    check!(rt; are_filled(&rt, &mut rig, 0, 6, 20));
    move_with_two_lost(&rt, alloc);
}
