// Writes that find room up to the last slot but one.
use crate::asserts::check;
use crate::rig::{grouped, is_record, reads, shape_of, world_of};
use extents::{HotSwap, MemDrive};
use std::alloc::{Alloc, Global};
use std::process::Abort;
use step_core::Given;
use tiered_array::{Outcome, Tiers};

fn tiers_of(rt: &impl Abort, alloc: Global) -> Tiers {
    let shape = shape_of(rt);
    let mut drives = Vec::new(alloc);
    for _made in 0..4 {
        let Ok(drive) = MemDrive::fresh(alloc, &shape) else {
            rt.panic("no drive")
        };
        let pushed = drives.push(drive).is_ok();
        check!(rt; pushed);
    }
    let world = world_of(rt, alloc, drives);
    grouped(rt, alloc, world)
}

// What a write of a block answers that never gives up while there is room.
fn write(
    rt: &impl Abort,
    alloc: Global,
    tiers: &mut Tiers,
    block: u32,
    payload: [u8; 8],
) -> Outcome {
    let shape = tiers.world().array().shape();
    check!(rt; block < shape.blocks);
    check!(rt; shape.payload == 8);
    let Ok(outcome) = tiers.write_always(alloc, block, Given::Payload(&payload)) else {
        rt.panic("no memory")
    };
    outcome
}

// Fourteen slots hold thirteen blocks, each written ten times over in an order that changes; the fourteenth block still finds a
// slot, and the write after it doesn't.
#[test]
fn all_slots_but_one_can_be_written_over(rt: HostRuntime) {
    let alloc = rt.alloc();
    let mut tiers = tiers_of(&rt, alloc);
    for round in 0..10u8 {
        for turn in 0..13u8 {
            let block = turn * (round % 5 + 1) % 13;
            let outcome = write(
                &rt,
                alloc,
                &mut tiers,
                u32::from(block),
                [block, round, 1, 2, 3, 4, 5, 6],
            );
            check!(rt; matches!(outcome, Outcome::Placed(_)));
        }
    }
    for block in 0..13u8 {
        check!(rt;
            reads(
                &rt,
                &mut tiers,
                u32::from(block),
                10,
                [block, 9, 1, 2, 3, 4, 5, 6]
            )
        );
    }
    let last = write(&rt, alloc, &mut tiers, 13, [13, 0, 1, 2, 3, 4, 5, 6]);
    check!(rt; matches!(last, Outcome::Placed(_)));
    let full = write(&rt, alloc, &mut tiers, 0, [0, 10, 1, 2, 3, 4, 5, 6]);
    check!(rt; matches!(full, Outcome::NoRoom));
}

// Two drives are lost, and with them the two oldest mirrored blocks, in slots 0 and 1. The blocks after them make room, each in the
// next hole, until no hole is left.
#[test]
fn blocks_and_slots_that_are_gone_are_skipped(rt: HostRuntime) {
    let alloc = rt.alloc();
    let mut tiers = tiers_of(&rt, alloc);
    for block in 0..6u8 {
        let outcome = write(
            &rt,
            alloc,
            &mut tiers,
            u32::from(block),
            [block, 1, 2, 3, 4, 5, 6, 7],
        );
        check!(rt; is_placed(outcome, u32::from(block), u16::from(block)));
    }
    tiers.lose(0);
    tiers.lose(1);
    for turn in 0..8u8 {
        let block = 6 + turn;
        let outcome = write(
            &rt,
            alloc,
            &mut tiers,
            u32::from(block),
            [block, 1, 2, 3, 4, 5, 6, 7],
        );
        check!(rt; is_placed(outcome, u32::from(block), 2 + u16::from(turn % 4)));
        check!(rt;
            reads(
                &rt,
                &mut tiers,
                2 + u32::from(turn),
                1,
                [2 + turn, 1, 2, 3, 4, 5, 6, 7]
            )
        );
        check!(rt;
            tiers.world().array().block_at(128 + u16::from(turn)) == Some(2 + u32::from(turn))
        );
    }
    let full = write(&rt, alloc, &mut tiers, 14, [14, 1, 2, 3, 4, 5, 6, 7]);
    check!(rt; matches!(full, Outcome::NoRoom));
}

// Whether a block was written for the first time, into this slot.
fn is_placed(outcome: Outcome, block: u32, slot: u16) -> bool {
    match outcome {
        Outcome::Placed(record) => is_record(record, block, 1, 0, slot),
        _ => false,
    }
}

// With a slot kept free by calls between the writes, each write goes into it, and the next call demotes one block.
#[test]
fn a_spare_slot_is_made_between_writes(rt: HostRuntime) {
    let alloc = rt.alloc();
    let mut tiers = tiers_of(&rt, alloc);
    for block in 0..6u8 {
        check!(rt; matches!(tiers.make_spare(alloc), Ok(Outcome::Nothing)));
        let outcome = write(
            &rt,
            alloc,
            &mut tiers,
            u32::from(block),
            [block, 1, 2, 3, 4, 5, 6, 7],
        );
        check!(rt; is_placed(outcome, u32::from(block), u16::from(block)));
    }
    let Ok(Outcome::Placed(moved)) = tiers.make_spare(alloc) else {
        rt.panic("no spare slot")
    };
    check!(rt; is_record(moved, 0, 1, 1, 128));
    check!(rt; matches!(tiers.make_spare(alloc), Ok(Outcome::Nothing)));
    let outcome = write(&rt, alloc, &mut tiers, 6, [6, 1, 2, 3, 4, 5, 6, 7]);
    check!(rt; is_placed(outcome, 6, 0));
}
