// A flush syncs each drive that isn't lost, and is refused while more than one is.
use crate::asserts::check;
use crate::calls::{flush, is_lost};
use crate::rig::{plan_of, store_of};
use byte_store::{ByteStore, StoreFault};
use std::alloc::Alloc;
use std::sync::atomic::AtomicU64;
use std::sync::atomic::Ordering::SeqCst;

#[test]
fn a_flush_syncs_each_of_six_drives(rt: HostRuntime) {
    let syncs = AtomicU64::new(0);
    let plan = plan_of(&rt, 1000, 64);
    let mut store = store_of(&rt, rt.alloc(), &plan, &syncs, [false; 6]);
    check!(rt; 5 <= store.size());
    check!(rt; store.write(rt.alloc(), 3, &[1, 2]).is_ok());
    check!(rt; syncs.load(SeqCst) == 0);
    check!(rt; flush(&mut store).is_ok());
    check!(rt; syncs.load(SeqCst) == 6);
    check!(rt; flush(&mut store).is_ok());
    check!(rt; syncs.load(SeqCst) == 12);
}

#[test]
fn one_drive_may_fail_to_sync_and_two_may_not(rt: HostRuntime) {
    let syncs = AtomicU64::new(0);
    let plan = plan_of(&rt, 1000, 64);
    let mut store = store_of(
        &rt,
        rt.alloc(),
        &plan,
        &syncs,
        [false, true, false, false, false, false],
    );
    check!(rt; flush(&mut store).is_ok());
    check!(rt; is_lost(&store, 1));
    check!(rt; syncs.load(SeqCst) == 5);
    let mut store = store_of(
        &rt,
        rt.alloc(),
        &plan,
        &syncs,
        [true, true, false, false, false, false],
    );
    check!(rt; flush(&mut store) == Err(StoreFault::Sync));
    check!(rt; syncs.load(SeqCst) == 9);
}
