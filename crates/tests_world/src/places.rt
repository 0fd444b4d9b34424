// Blocks that are placed into slots in one call: what is returned for each, and which slots are free after it.
use crate::asserts::check;
use crate::script::{Reported, answer, bytes_of, grouped, report};
use map_join::Record;
use std::alloc::Global;
use std::process::Abort;
use step_core::{Given, NotPlaced, Placed, Refusal, Step, World};

// Eight bytes that are all different, this one first, go into the slot.
fn write(
    rt: &impl Abort,
    alloc: Global,
    world: &mut World,
    slot: u16,
    block: u32,
    byte: u8,
) -> Result<Placed, NotPlaced> {
    let payload = bytes_of(byte);
    let shape = world.array().shape();
    check!(rt; block < shape.blocks && payload.len() == shape.payload as usize);
    world.place(alloc, slot, block, Some(Given::Payload(&payload)))
}

fn trim(
    rt: &impl Abort,
    alloc: Global,
    world: &mut World,
    slot: u16,
    block: u32,
) -> Result<Placed, NotPlaced> {
    check!(rt; block < world.array().shape().blocks);
    world.place(alloc, slot, block, Some(Given::Trim))
}

// A copy of the block's last write goes into the slot.
fn copy(
    rt: &impl Abort,
    alloc: Global,
    world: &mut World,
    slot: u16,
    block: u32,
) -> Result<Placed, NotPlaced> {
    check!(rt; block < world.array().shape().blocks);
    world.place(alloc, slot, block, None)
}

// A block was placed under this version and hop, and left this slot.
fn is_placed(reported: Result<Placed, NotPlaced>, newest: Record, left: Option<u16>) -> bool {
    match reported {
        Ok(placed) => placed.newest == newest && placed.left == left,
        Err(_) => false,
    }
}

fn record(version: u32, hop: u16, place: u16) -> Record {
    Record {
        block: 3,
        version,
        hop,
        place,
    }
}

// What a read of block 3 finds, by its first byte.
fn found(rt: &impl Abort, alloc: Global, world: &mut World) -> Reported {
    report(&answer(rt, alloc, world, &Step::Read { block: 3 }))
}

#[test]
fn a_block_goes_into_a_free_slot_and_leaves_its_old_one(rt: HostRuntime) {
    let alloc = rt.alloc();
    let mut world = grouped(&rt, alloc);
    let first = write(&rt, alloc, &mut world, 0, 3, 1);
    check!(rt; is_placed(first, record(1, 0, 0), None));
    let second = write(&rt, alloc, &mut world, 2, 3, 9);
    check!(rt; is_placed(second, record(2, 0, 2), Some(0)));
    check!(rt; world.is_free(0) && !world.is_free(2));
    check!(rt; found(&rt, alloc, &mut world) == Reported::Read(2, Some(9)));
    let third = copy(&rt, alloc, &mut world, 128, 3);
    check!(rt; is_placed(third, record(2, 1, 128), Some(2)));
    let last = trim(&rt, alloc, &mut world, 1, 3);
    check!(rt; is_placed(last, record(3, 0, 1), Some(128)));
    check!(rt; found(&rt, alloc, &mut world) == Reported::Other);
    check!(rt; world.is_free(2) && world.is_free(128) && world.array().record_count() == 4);
}

#[test]
fn a_block_that_is_refused_leaves_the_slot_free(rt: HostRuntime) {
    let alloc = rt.alloc();
    let mut world = grouped(&rt, alloc);
    let first = write(&rt, alloc, &mut world, 0, 3, 1);
    check!(rt; is_placed(first, record(1, 0, 0), None));
    let taken = write(&rt, alloc, &mut world, 0, 6, 2);
    check!(rt; matches!(taken, Err(NotPlaced::Taken)));
    let class = write(&rt, alloc, &mut world, 128, 3, 2);
    check!(rt; matches!(class, Err(NotPlaced::Refused(Refusal::WrongClass))));
    let group = trim(&rt, alloc, &mut world, 256, 3);
    check!(rt; matches!(group, Err(NotPlaced::Refused(Refusal::NoGroup))));
    let unwritten = copy(&rt, alloc, &mut world, 128, 6);
    check!(rt; matches!(unwritten, Err(NotPlaced::Refused(Refusal::Unwritten))));
    check!(rt; world.is_free(128) && world.is_free(256) && world.array().record_count() == 1);
}
