// Blocks that are trimmed: absent from then on, while their records and versions go on.
use crate::asserts::check;
use crate::rig::{Rig, is_refused, record};
use map_join::Record;
use std::alloc::Global;
use std::process::Abort;
use step_core::{At, Class, Refusal};

const WRITTEN: Record = Record {
    block: 3,
    version: 1,
    hop: 0,
    place: 0,
};

const TRIMMED: Record = Record {
    block: 3,
    version: 2,
    hop: 0,
    place: 1,
};

// Block 3 is written at slot 0 and trimmed at slot 1.
fn trimmed(rt: &impl Abort, alloc: Global) -> Rig {
    let mut rig = Rig::new(rt, alloc, 4);
    check!(rt; rig.write(rt, 0, 3, 0x11) == WRITTEN);
    check!(rt; rig.drop_block(rt, 1, 3) == TRIMMED);
    rig
}

#[test]
fn a_trimmed_block_is_absent_and_its_versions_go_on(rt: HostRuntime) {
    let mut rig = trimmed(&rt, rt.alloc());
    check!(rt; matches!(&rig.read(&rt, 3), Ok(None)));
    check!(rt; matches!(&rig.read_at(&rt, TRIMMED), Ok(At::Trimmed)));
    check!(rt; rig.finds(&rt, WRITTEN, 0x11));
    check!(rt; rig.write(&rt, 2, 3, 0x22) == record(3, 3, 0, 2));
    check!(rt; rig.reads(&rt, 3, 3, 0x22));
}

#[test]
fn the_reader_of_a_stale_record_learns_a_trim(rt: HostRuntime) {
    let mut rig = trimmed(&rt, rt.alloc());
    check!(rt; rig.write(&rt, 0, 4, 0x33) == record(4, 1, 0, 0));
    match rig.learn(&rt, WRITTEN) {
        Ok(reading) => check!(rt; reading.record() == TRIMMED && reading.payload().is_none()),
        Err(_) => rt.panic("not learned"),
    }
}

#[test]
fn a_copy_of_a_trim_is_a_trim(rt: HostRuntime) {
    let mut rig = trimmed(&rt, rt.alloc());
    check!(rt; rig.make(&rt, Class::Parity, [1, 2, 3], 1) == 1);
    let moved = rig.carry(&rt, 128, 3);
    check!(rt; moved == record(3, 2, 1, 128));
    check!(rt; matches!(&rig.read_at(&rt, moved), Ok(At::Trimmed)));
    check!(rt; matches!(&rig.read(&rt, 3), Ok(None)));
}

#[test]
fn a_trim_is_refused_where_a_fill_is(rt: HostRuntime) {
    let mut rig = trimmed(&rt, rt.alloc());
    check!(rt; rig.make(&rt, Class::Parity, [1, 2, 3], 1) == 1);
    check!(rt; is_refused(&rig.trim(6), Refusal::NoGroup, 6));
    check!(rt; is_refused(&rig.trim(129), Refusal::WrongClass, 129));
    check!(rt; is_refused(&rig.trim(1), Refusal::InUse, 1));
    rig.lose(&rt, 1);
    rig.lose(&rt, 2);
    check!(rt; is_refused(&rig.trim(4), Refusal::Gone(4), 4));
}
