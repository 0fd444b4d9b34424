// Short stories of parts: reads and writes of both classes under losses, parity, and a group that isn't made.
use crate::asserts::check;
use crate::rig::Rig;
use extent_groups::Class;
use flat_machine::Refusal;

#[test]
fn a_mirrored_slot_matches_one_loss_and_is_gone_with_two(rt: HostRuntime) {
    let mut rig = Rig::mirrored(&rt, rt.alloc());
    check!(rt; rig.holds(&rt, 5, 0));
    rig.writes(&rt, 0, 7);
    rig.writes(&rt, 2, 9);
    rig.lose(&rt, 0);
    check!(rt; rig.holds(&rt, 0, 7));
    rig.fuse(&rt, 1, 1);
    check!(rt; rig.is_gone(&rt, 0));
    check!(rt; rig.write(&rt, 0, 8) == Err(Refusal::Gone(0)));
    check!(rt; rig.holds(&rt, 2, 9));
}

#[test]
fn the_parity_of_three_members_is_the_exclusive_or(rt: HostRuntime) {
    let alloc = rt.alloc();
    let mut rig = Rig::new(&rt, alloc);
    check!(rt;
        rig.make(&rt, alloc, 1, Class::Parity, &[1, 2, 3], 1)
            .is_ok()
    );
    rig.writes(&rt, 128, 0x5A);
    check!(rt; rig.drive_holds(&rt, 3, 4, 0x5A));
    rig.writes(&rt, 130, 0x33);
    check!(rt; rig.drive_holds_both(&rt, 3, 4, 0x5A, 0x33));
    rig.lose(&rt, 1);
    check!(rt; rig.holds(&rt, 128, 0x5A));
}

#[test]
fn a_group_whose_second_drive_fails_is_not_made(rt: HostRuntime) {
    let alloc = rt.alloc();
    let mut rig = Rig::new(&rt, alloc);
    rig.fuse(&rt, 1, 3);
    check!(rt;
        rig.make(&rt, alloc, 2, Class::Parity, &[0, 1, 2], 2) == Err(Refusal::DriveLost(1))
    );
    check!(rt; rig.parts.groups.is_free(2));
    check!(rt;
        rig.make(&rt, alloc, 2, Class::Parity, &[0, 2, 3], 2)
            .is_ok()
    );
}
