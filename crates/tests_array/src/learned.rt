// What is learned of a record whose place was overwritten. A drive that is lost elsewhere changes nothing.
use crate::asserts::check;
use crate::rig::{Rig, record};
use map_join::Record;
use std::alloc::Global;
use std::process::Abort;
use step_core::{Class, Refusal};

const FIRST: Record = Record {
    block: 3,
    version: 1,
    hop: 0,
    place: 0,
};

const SECOND: Record = Record {
    block: 3,
    version: 2,
    hop: 0,
    place: 2,
};

// Block 3 is written at slot 0 of four drives and again at slot 2, and then block 4 at slot 0.
fn written_over(rt: &impl Abort, alloc: Global) -> Rig {
    let mut rig = Rig::new(rt, alloc, 4);
    check!(rt; rig.write(rt, 0, 3, 0x11) == FIRST);
    check!(rt; rig.write(rt, 2, 3, 0x22) == SECOND);
    check!(rt; rig.write(rt, 0, 4, 0x33) == record(4, 1, 0, 0));
    rig
}

#[test]
fn the_newest_record_is_learned_where_another_lies(rt: HostRuntime) {
    let mut rig = written_over(&rt, rt.alloc());
    check!(rt; rig.learns(&rt, FIRST, SECOND, 0x22));
}

#[test]
fn the_newest_place_is_reported_gone_where_another_record_lies(rt: HostRuntime) {
    let mut rig = written_over(&rt, rt.alloc());
    rig.lose(&rt, 0);
    rig.lose(&rt, 2);
    check!(rt; rig.learn(&rt, FIRST).err() == Some(Refusal::Gone(2)));
    rig.lose(&rt, 1);
    check!(rt; rig.learn(&rt, FIRST).err() == Some(Refusal::Gone(0)));
}

#[test]
fn a_drive_that_is_lost_elsewhere_hinders_nothing(rt: HostRuntime) {
    let mut rig = written_over(&rt, rt.alloc());
    rig.lose(&rt, 3);
    check!(rt; rig.make(&rt, Class::Parity, [0, 1, 2], 1) == 1);
    check!(rt; rig.finds(&rt, SECOND, 0x22));
}

#[test]
fn a_fuse_burns_at_its_call(rt: HostRuntime) {
    let mut rig = written_over(&rt, rt.alloc());
    rig.lose(&rt, 0);
    rig.fuse(&rt, 2, 3);
    for _call in 1..3u8 {
        check!(rt; rig.read_at(&rt, SECOND).is_ok() && !rig.array.is_lost(2));
    }
    check!(rt; rig.read_at(&rt, SECOND).err() == Some(Refusal::Gone(2)));
    check!(rt; rig.array.is_lost(2));
}
