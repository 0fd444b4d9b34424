// What the units of an extent hold that aren't those of a slot: of an extent that is free, and past a group's last slot.
use crate::asserts::check;
use crate::lists::{Stop, both_of, unit_of};
use crate::rig::{Rig, members_on, record};
use crate::units::UNIT;
use extents::Drive;
use std::alloc::Global;
use std::process::Abort;
use step_core::{Class, Member, Plain, Refusal};

/// The addresses of extent 1's two units.
const FIRST: u32 = 2;

const SECOND: u32 = 3;

// The claims of slots 128 to 131.
fn parity_claims(rt: &impl Abort, alloc: Global) -> Vec<Plain> {
    let mut claims = Vec::new(alloc);
    for slot in 128..132u16 {
        check!(rt; claims.push(Plain { slot }).is_ok());
    }
    claims
}

// Group 0 is mirrored on drives 0, 1 and 3. Extent 1 of drives 0 to 2 had parity, with block 3 at its first slot and at its last;
// then the block was written to slot 1, and that group was dissolved.
fn dissolved(rt: &impl Abort, alloc: Global) -> Rig {
    let mut rig = Rig::odd(rt, alloc);
    check!(rt; rig.make(rt, Class::Mirrored, [0, 1, 3], 0) == 0);
    check!(rt; rig.make(rt, Class::Parity, [0, 1, 2], 1) == 1);
    check!(rt; rig.write(rt, 0, 3, 0x11) == record(3, 1, 0, 0));
    check!(rt; rig.carry(rt, 128, 3) == record(3, 1, 1, 128));
    check!(rt; rig.carry(rt, 131, 3) == record(3, 1, 2, 131));
    check!(rt; rig.write(rt, 1, 3, 0x22) == record(3, 2, 0, 1));
    check!(rt; rig.array.unmake_group(1, parity_claims(rt, alloc)).is_ok());
    rig
}

// What slots 128 and 131 held.
fn old_units() -> [[u8; UNIT]; 2] {
    [
        unit_of(record(3, 1, 1, 128), 0x11),
        unit_of(record(3, 1, 2, 131), 0x11),
    ]
}

#[test]
fn a_group_that_is_refused_leaves_the_units_of_its_extents(rt: HostRuntime) {
    let mut rig = dissolved(&rt, rt.alloc());
    rig.lose(&rt, 1);
    let members = members_on([0, 2, 1], 1);
    let made = rig.array.make_group(rig.alloc, Class::Mirrored, &members);
    check!(rt; matches!(made, Err(Refusal::DriveLost(1))));
    let [first, last] = old_units();
    let mut stop = Stop::of(&rt, rig);
    // Slot 128 was the first unit of drive 0, with its parity on drive 2, and slot 131 the second one of drive 2.
    check!(rt; stop.holds(&rt, 0, FIRST, first) && stop.holds(&rt, 2, FIRST, first));
    check!(rt; stop.holds(&rt, 2, SECOND, last));
}

#[test]
fn a_group_that_is_made_has_zeros_where_no_slot_is(rt: HostRuntime) {
    let mut rig = dissolved(&rt, rt.alloc());
    check!(rt; rig.make(&rt, Class::Mirrored, [0, 1, 2], 1) == 1);
    let mut stop = Stop::of(&rt, rig);
    for drive in 0..3 {
        check!(rt;
            stop.holds(&rt, drive, FIRST, [0; UNIT]) && stop.holds(&rt, drive, SECOND, [0; UNIT])
        );
    }
}

// Group 0 is mirrored on drives 0 to 2, and drive 2 has these bytes in its second unit, which is of no slot.
fn marked(rt: &impl Abort, alloc: Global, unit: &[u8; UNIT]) -> Rig {
    let mut rig = Rig::odd(rt, alloc);
    check!(rt; rig.make(rt, Class::Mirrored, [0, 1, 2], 0) == 0);
    let mut stop = Stop::of(rt, rig);
    stop.put(rt, 2, 1, unit);
    stop.restarted_with(rt, &[])
}

#[test]
fn a_member_that_moves_takes_the_units_of_no_slot_along(rt: HostRuntime) {
    let unit = both_of([0xA5; UNIT], unit_of(record(7, 7, 7, 7), 0x77));
    let mut rig = marked(&rt, rt.alloc(), &unit);
    let to = Member {
        drive: 3,
        extent: 1,
    };
    check!(rt; rig.array.move_extent(0, 2, to).is_ok());
    let mut stop = Stop::of(&rt, rig);
    check!(rt; stop.holds(&rt, 3, FIRST, [0; UNIT]) && stop.holds(&rt, 3, SECOND, unit));
}
