// The commands of a script, over two levels on drives of any kind. The answers are those of another program to the same commands.
use crate::asserts::check;
use crate::rig::{demote, is_record, make, reads, write};
use extents::Drive;
use map_join::Record;
use std::alloc::{AllocError, Global};
use std::process::Abort;
use step_core::{Class, Given, Shape, World};
use tiered_array::{Outcome, Regrouped, Tiers};

/// Eight extents of one segment, and payloads of eight bytes, for sixteen blocks.
pub(crate) fn small_shape(rt: &impl Abort) -> Shape {
    let Ok(shape) = Shape::new(8, 1, 8, 16) else {
        rt.panic("no shape")
    };
    shape
}

/// A mirrored group, and three parity groups of four slots each.
pub(crate) fn four_groups<D: Drive + Drop>(
    rt: &impl Abort,
    alloc: Global,
    world: World<D>,
) -> Tiers<D> {
    let Ok(mut tiers) = Tiers::new(alloc, world) else {
        rt.panic("no tiers")
    };
    make_parity(rt, alloc, &mut tiers);
    tiers
}

fn make_parity<D: Drive>(rt: &impl Abort, alloc: Global, tiers: &mut Tiers<D>) {
    make(rt, alloc, tiers, Class::Mirrored, [(0, 0), (1, 0), (2, 0)]);
    for members in [
        [(1, 1), (2, 1), (3, 1)],
        [(0, 1), (2, 2), (3, 2)],
        [(0, 2), (1, 2), (3, 3)],
    ] {
        make(rt, alloc, tiers, Class::Parity, members);
    }
}

// The payload that a block has after so many writes.
fn payload(block: u8, writes: u8) -> [u8; 8] {
    [block, writes, 1, 2, 3, 4, 5, 6]
}

// Writes a block for the first time, and demotes it into this slot.
fn age<D: Drive>(rt: &impl Abort, alloc: Global, tiers: &mut Tiers<D>, block: u8, slot: u16) {
    let number = u32::from(block);
    let written = write(rt, alloc, tiers, number, payload(block, 1));
    check!(rt; is_record(written, number, 1, 0, 0));
    let demoted = demote(rt, alloc, tiers);
    check!(rt; is_record(demoted, number, 1, 1, slot));
}

// Writes a block for the second time, into this slot.
fn write_again<D: Drive>(
    rt: &impl Abort,
    alloc: Global,
    tiers: &mut Tiers<D>,
    block: u8,
    slot: u16,
) {
    let written = write(rt, alloc, tiers, u32::from(block), payload(block, 2));
    check!(rt; is_record(written, u32::from(block), 2, 0, slot));
}

// The record of a block that was moved.
fn moved(rt: &impl Abort, outcome: Result<Outcome, AllocError>) -> Record {
    match outcome {
        Ok(Outcome::Placed(record)) => record,
        _ => rt.panic("not moved"),
    }
}

/// Nine blocks are written and demoted, and three of them written again. Then a hole is plugged, and a group cleaned. As the case
/// `a_plug_and_then_a_clean` of `raid_bench`.
pub(crate) fn use_plans<D: Drive>(rt: &impl Abort, alloc: Global, tiers: &mut Tiers<D>) {
    let slots = [128, 129, 130, 131, 256, 257, 258, 259, 384];
    for block in 0..9u8 {
        age(rt, alloc, tiers, block, slots[usize::from(block)]);
    }
    for (block, slot) in [(0, 0), (4, 1), (5, 0)] {
        write_again(rt, alloc, tiers, block, slot);
    }
    let plugged = moved(rt, tiers.plug(alloc));
    check!(rt; is_record(plugged, 6, 1, 2, 128));
    let none = matches!(tiers.plug(alloc), Ok(Outcome::Nothing));
    check!(rt; none);
    let cleaned = moved(rt, tiers.clean(alloc));
    check!(rt; is_record(cleaned, 7, 1, 2, 386));
}

/// Whether the nine blocks are read as they were written last.
pub(crate) fn reads_all<D: Drive>(rt: &impl Abort, tiers: &mut Tiers<D>) -> bool {
    for block in 0..9u8 {
        let writes = if matches!(block, 0 | 4 | 5) { 2 } else { 1 };
        let last = payload(block, writes);
        if !reads(rt, tiers, u32::from(block), u32::from(writes), last) {
            return false;
        }
    }
    true
}

/// Trims a block that was written once: it is a version of its own, and reads as absent.
pub(crate) fn trim<D: Drive>(rt: &impl Abort, alloc: Global, tiers: &mut Tiers<D>, block: u32) {
    check!(rt; block < tiers.world().array().shape().blocks);
    let trimmed = moved(rt, tiers.write(alloc, block, Given::Trim));
    check!(rt; trimmed.block == block && trimmed.version == 2 && trimmed.hop == 0);
    check!(rt; is_absent(tiers, block));
}

fn is_absent<D: Drive>(tiers: &mut Tiers<D>, block: u32) -> bool {
    let shape = tiers.world().array().shape();
    let mut found = [0; 8];
    block < shape.blocks && shape.payload == 8 && tiers.read_into(block, &mut found) == Ok(None)
}

/// Whether this member of a group is now on this extent.
pub(crate) fn is_shift(
    outcome: Result<Regrouped, AllocError>,
    group: u16,
    member: u8,
    to: (u8, u16),
) -> bool {
    match outcome {
        Ok(Regrouped::Moved(shift)) => {
            shift.group == group
                && shift.member == member
                && (shift.to.drive, shift.to.extent) == to
        }
        _ => false,
    }
}

/// Two groups on three of four drives are balanced by one move, and blocks of both levels stay.
pub(crate) fn use_balance<D: Drive + Drop>(rt: &impl Abort, alloc: Global, world: World<D>) {
    let Ok(mut tiers) = Tiers::new(alloc, world) else {
        rt.panic("no tiers")
    };
    balance_all(rt, alloc, &mut tiers);
}

fn balance_all<D: Drive>(rt: &impl Abort, alloc: Global, tiers: &mut Tiers<D>) {
    make(rt, alloc, tiers, Class::Mirrored, [(0, 0), (1, 0), (2, 0)]);
    make(rt, alloc, tiers, Class::Parity, [(0, 1), (1, 1), (2, 1)]);
    age(rt, alloc, tiers, 3, 128);
    let written = write(rt, alloc, tiers, 4, payload(4, 1));
    check!(rt; is_record(written, 4, 1, 0, 0));
    let balanced = is_shift(tiers.balance(), 0, 0, (3, 0));
    check!(rt; balanced);
    let none = matches!(tiers.balance(), Ok(Regrouped::Nothing));
    check!(rt; none);
    check!(rt; reads(rt, tiers, 3, 1, payload(3, 1)));
    check!(rt; reads(rt, tiers, 4, 1, payload(4, 1)));
}
