// A disk that is full to its last block is written over and over, and its log stays short.
use crate::asserts::check;
use crate::calls::count_records;
use crate::model::{agree, write, zero};
use crate::rig::{plan_of, store_of};
use byte_store::ByteStore;
use std::alloc::{Alloc, Global};
use std::process::Abort;
use std::sync::atomic::AtomicU64;

// The first byte of the block of a turn: writes go by steps of 1, 3 and 5 blocks.
fn place_of(turn: usize) -> usize {
    let step = [1, 3, 5][turn / 7 % 3];
    turn % 7 * step % 7 * 8
}

// Fills a store of seven blocks, and goes on writing.
fn overfill<S: ByteStore>(rt: &impl Abort, alloc: Global, store: &mut S) {
    let mut model = [0u8; 56];
    for turn in 0..4800usize {
        let from = place_of(turn);
        if turn % 10 == 9 {
            zero(rt, alloc, store, &mut model, (from, 8));
        } else {
            let piece = (from, 8, (turn % 251) as u8);
            write(rt, alloc, store, &mut model, piece);
        }
        if turn % 2 == 0 {
            store.rest(alloc);
        }
    }
    check!(rt; agree(rt, store, &model));
}

// Two groups of six members of one segment: 6 / 2 mirrored slots and 5 with parity are 8, so a disk of 7 blocks has no slot to
// spare but one. Each write after the first seven takes the last free slot. Every tenth turn trims.
#[test]
fn a_full_disk_is_never_refused_room(rt: HostRuntime) {
    let syncs = AtomicU64::new(0);
    let plan = plan_of(&rt, 7 * 8, 8);
    check!(rt; plan.groups == 2 && plan.shape.segments == 1 && plan.shape.blocks == 7);
    let mut store = store_of(&rt, rt.alloc(), &plan, &syncs, [false; 6]);
    overfill(&rt, rt.alloc(), &mut store);
    // 4,096 records and four for each block stay at most, and those of the last turns.
    check!(rt; count_records(&store) < 4096 + 4 * 7 + 8);
}
