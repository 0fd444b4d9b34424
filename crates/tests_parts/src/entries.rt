// Groups that enter: their extents are wiped and the tables have them, or a drive is lost and the tables stay.
use crate::asserts::check;
use crate::rig::Rig;
use extent_groups::Class;
use flat_machine::Refusal;
use std::alloc::Global;
use std::process::Abort;

/// Writes units that a seven names to the first two extents of all drives.
fn soil(rt: &impl Abort, rig: &mut Rig) {
    for drive in 0..4 {
        for at in 0..8 {
            check!(rt; rig.poke(rt, drive, at, 7));
        }
    }
}

/// Whether the units from one address on, before another, are what this byte names on each of these drives.
fn hold(rt: &impl Abort, rig: &mut Rig, drives: &[usize], first: u32, end: u32, byte: u8) -> bool {
    for drive in drives {
        for at in first..end {
            if !rig.drive_holds(rt, *drive, at, byte) {
                return false;
            }
        }
    }
    true
}

/// Whether no group owns an extent of this number on any drive.
fn are_unowned(rt: &impl Abort, rig: &Rig, extent: u16) -> bool {
    for drive in 0..4 {
        if !rig.is_owned(rt, drive, extent, None) {
            return false;
        }
    }
    true
}

/// Whether group 2 doesn't enter, for this drive is lost.
fn misses(
    rt: &impl Abort,
    alloc: Global,
    rig: &mut Rig,
    class: Class,
    drives: &[u8],
    lost: u8,
) -> bool {
    rig.enter(rt, alloc, 2, class, drives, 1) == Err(Refusal::DriveLost(lost))
}

#[test]
fn a_group_that_enters_is_wiped_and_the_tables_have_it(rt: HostRuntime) {
    let alloc = rt.alloc();
    let mut rig = Rig::new(&rt, alloc);
    soil(&rt, &mut rig);
    check!(rt;
        rig.enter(&rt, alloc, 0, Class::Mirrored, &[0, 1, 2], 0)
            .is_ok()
    );
    rig.unit.fill(7);
    check!(rt;
        rig.enter(&rt, alloc, 5, Class::Parity, &[3, 1, 2], 1)
            .is_ok()
    );

    check!(rt; hold(&rt, &mut rig, &[0, 1, 2], 0, 4, 0));
    check!(rt; hold(&rt, &mut rig, &[1, 2, 3], 4, 8, 0));
    check!(rt; hold(&rt, &mut rig, &[3], 0, 4, 7));
    check!(rt; hold(&rt, &mut rig, &[0], 4, 8, 7));

    check!(rt; rig.is_of(0, Class::Mirrored));
    check!(rt; rig.is_of(5, Class::Parity));
    check!(rt; rig.is_owned(&rt, 2, 0, Some(0)));
    check!(rt; rig.is_owned(&rt, 2, 1, Some(5)));
    check!(rt; rig.is_owned(&rt, 3, 0, None));

    // Index 0 is on the first member, its parity on the last.
    rig.writes(&rt, 640, 9);
    check!(rt; hold(&rt, &mut rig, &[3, 2], 4, 5, 9));
    check!(rt; hold(&rt, &mut rig, &[1], 4, 5, 0));
}

#[test]
fn a_group_is_refused_with_its_first_member_whose_drive_is_lost(rt: HostRuntime) {
    let alloc = rt.alloc();
    let mut rig = Rig::new(&rt, alloc);
    check!(rt;
        rig.enter(&rt, alloc, 1, Class::Mirrored, &[0, 1, 2], 0)
            .is_ok()
    );
    rig.fuse(&rt, 3, 2);
    check!(rt; rig.is_first_lost(&rt, alloc, &[1, 3, 0], None));
    check!(rt; misses(&rt, alloc, &mut rig, Class::Mirrored, &[1, 3, 0], 3));
    rig.lose(&rt, 0);
    check!(rt; misses(&rt, alloc, &mut rig, Class::Parity, &[1, 0, 3], 0));
    check!(rt; misses(&rt, alloc, &mut rig, Class::Parity, &[1, 3, 0], 3));

    check!(rt; rig.is_first_lost(&rt, alloc, &[1, 3, 0], Some(3)));
    check!(rt; rig.is_first_lost(&rt, alloc, &[1, 0, 3], Some(0)));
    check!(rt; rig.is_first_lost(&rt, alloc, &[2, 1], None));
    check!(rt; rig.parts.groups.is_free(2));
    check!(rt; rig.is_of(1, Class::Mirrored));
    check!(rt; are_unowned(&rt, &rig, 1));
    check!(rt; rig.is_owned(&rt, 0, 0, Some(1)));
}
