// What an array reports of itself, and what is learned of a stale record.
use crate::asserts::check;
use crate::rig::{Rig, is_refused, record};
use map_join::Record;
use std::alloc::Global;
use std::process::Abort;
use step_core::Refusal;

const FIRST: Record = Record {
    block: 3,
    version: 1,
    hop: 0,
    place: 0,
};

// Block 3 is written at slot 0 of a mirrored group on three drives.
fn written(rt: &impl Abort, alloc: Global) -> Rig {
    let mut rig = Rig::new(rt, alloc, 3);
    let done = rig.put(rt, 0, 3, 0x11);
    check!(rt; done.emitted.record() == FIRST && done.old.is_none());
    rig
}

// How many records were emitted from the n-th on.
fn count_from(rt: &impl Abort, rig: &Rig, n: usize) -> usize {
    let Ok(records) = rig.array.records_from(rig.alloc, n) else {
        rt.panic("no memory")
    };
    records.len()
}

// What the running map has of a block.
fn mapped(rt: &impl Abort, rig: &Rig, block: u32) -> Option<Record> {
    let Ok(map) = rig.array.map(rig.alloc) else {
        rt.panic("no memory")
    };
    map.get(block)
}

#[test]
fn an_array_reports_its_log_its_map_and_its_slots(rt: HostRuntime) {
    let rig = written(&rt, rt.alloc());
    check!(rt; count_from(&rt, &rig, 0) == 1 && count_from(&rt, &rig, 2) == 0);
    check!(rt; mapped(&rt, &rig, 3) == Some(FIRST));
    check!(rt; rig.array.is_held(0) && !rig.array.is_held(1));
    check!(rt; rig.array.drive_count() == 3);
    check!(rt; !rig.array.is_lost(2) && rig.array.is_lost(3));
}

#[test]
fn an_array_hands_claims_back(rt: HostRuntime) {
    let mut rig = Rig::new(&rt, rt.alloc(), 3);
    check!(rt; is_refused(&rig.fill(&rt, 9, 7), Refusal::NoGroup, 9));
}

#[test]
fn a_slot_that_the_array_holds_is_in_use(rt: HostRuntime) {
    let mut rig = Rig::new(&rt, rt.alloc(), 3);
    check!(rt; rig.fill(&rt, 0, 7).is_ok());
    check!(rt; is_refused(&rig.fill(&rt, 0, 7), Refusal::InUse, 0));
    check!(rt; is_refused(&rig.copy(&rt, 0, 3), Refusal::InUse, 0));
}

#[test]
fn a_record_is_read_at_its_place_or_learned(rt: HostRuntime) {
    let mut rig = written(&rt, rt.alloc());
    check!(rt; rig.finds(&rt, FIRST, 0x11));
    let ahead = rig.learn(&rt, record(3, 1, 0, 1)).err();
    check!(rt; ahead == Some(Refusal::Ahead(Some(FIRST))));
    check!(rt; rig.learns(&rt, FIRST, FIRST, 0x11));
}

// What two copies on drives 0 and 1 hold of block 3 once drives are lost.
#[test]
fn a_block_is_read_until_both_its_copies_are_lost(rt: HostRuntime) {
    let mut rig = written(&rt, rt.alloc());
    rig.lose(&rt, 0);
    check!(rt; rig.reads(&rt, 3, 1, 0x11));
    rig.fuse(&rt, 1, 1);
    check!(rt; !rig.array.is_lost(1));
    check!(rt; rig.read(&rt, 3).err() == Some(Refusal::Gone(0)));
    check!(rt; rig.array.is_lost(1));
}
