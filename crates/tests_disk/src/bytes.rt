// Bytes at any offset, in blocks of 64.
use crate::asserts::check;
use crate::model::{agree, write, zero};
use crate::rig::{plan_of, store_of};
use byte_store::ByteStore;
use std::alloc::{Alloc, Global};
use std::process::Abort;
use std::sync::atomic::AtomicU64;

// Writes, zeros and reads a store of 1,000 bytes.
fn test_bytes<S: ByteStore>(rt: &impl Abort, alloc: Global, store: &mut S) {
    check!(rt; store.size() == 1000);
    check!(rt; store.block_bytes() == 64);
    let mut model = [0u8; 1000];
    check!(rt; agree(rt, store, &model));
    for piece in [
        (60usize, 9usize, 1u8),
        (0, 64, 20),
        (63, 130, 3),
        (999, 1, 40),
        (500, 0, 5),
        (128, 128, 60),
    ] {
        write(rt, alloc, store, &mut model, piece);
        store.rest(alloc);
    }
    check!(rt; agree(rt, store, &model));
    for range in [(64usize, 64usize), (1, 2), (100, 300), (998, 2)] {
        zero(rt, alloc, store, &mut model, range);
    }
    check!(rt; agree(rt, store, &model));
}

#[test]
fn bytes_are_read_as_they_were_written(rt: HostRuntime) {
    let syncs = AtomicU64::new(0);
    let plan = plan_of(&rt, 1000, 64);
    let mut store = store_of(&rt, rt.alloc(), &plan, &syncs, [false; 6]);
    test_bytes(&rt, rt.alloc(), &mut store);
}
