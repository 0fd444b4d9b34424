// Two levels over four drives of any kind.
ghost use Rattle.std.specs.Prelude.{◌≡◌, IsTrue};
ghost use Rattle.extent_groups.specs.Calls.{AreSized};
ghost use Rattle.unit_store.specs.Fit.{HaveUnitCount};

use crate::asserts::check;
use map_join::Record;
use std::alloc::Global;
use std::process::Abort;
use step_core::{Answer, Array, Class, Drive, Given, Member, Shape, World};
use tiered_array::{Outcome, Tiers};

/// Four drives of eight extents of two segments, and payloads of eight bytes, for sixteen blocks.
pub(crate) fn shape_of(rt: &impl Abort) -> Shape {
    let Ok(shape) = Shape::new(8, 2, 8, 16) else {
        rt.panic("no shape")
    };
    shape
}

fn are_sized<D: Drive>(drives: &[D], bytes: usize) -> bool
    ensures { IsTrue result → AreSized D.units bytes drives.now }
{
    drives.iter().all(|drive| drive.unit_bytes() == bytes)
}

fn have_units<D: Drive>(drives: &[D], units: u32) -> bool
    ensures { IsTrue result → HaveUnitCount D.units drives.now units }
{
    drives.iter().all(|drive| drive.units() == units)
}

/// A world over these drives, with nothing in it.
pub(crate) fn world_of<D: Drive + Drop>(
    rt: &impl Abort,
    alloc: Global,
    drives: Vec<D>,
) -> World<D> {
    world_with(rt, alloc, shape_of(rt), drives)
}

/// A world of this shape over these drives, with nothing in it.
pub(crate) fn world_with<D: Drive + Drop>(
    rt: &impl Abort,
    alloc: Global,
    shape: Shape,
    drives: Vec<D>,
) -> World<D> {
    check!(rt; 3 <= drives.len() && drives.len() <= 16);
    check!(rt; are_sized(&drives, shape.unit_bytes()));
    check!(rt; have_units(&drives, shape.drive_units()));
    let Ok(array) = Array::new(alloc, shape, drives) else {
        rt.panic("no array")
    };
    let Ok(world) = World::of(alloc, array) else {
        rt.panic("no world")
    };
    world
}

/// A mirrored group 0 of drives 0, 1, 2, and a parity group 1 of drives 1, 2, 3: six slots, and eight.
pub(crate) fn grouped<D: Drive + Drop>(
    rt: &impl Abort,
    alloc: Global,
    world: World<D>,
) -> Tiers<D> {
    let Ok(mut tiers) = Tiers::new(alloc, world) else {
        rt.panic("no tiers")
    };
    make(
        rt,
        alloc,
        &mut tiers,
        Class::Mirrored,
        [(0, 0), (1, 0), (2, 0)],
    );
    make(
        rt,
        alloc,
        &mut tiers,
        Class::Parity,
        [(1, 1), (2, 1), (3, 1)],
    );
    tiers
}

/// Makes a group of these members, each by its drive and its extent.
pub(crate) fn make<D: Drive>(
    rt: &impl Abort,
    alloc: Global,
    tiers: &mut Tiers<D>,
    class: Class,
    members: [(u8, u16); 3],
) {
    let members = members.map(|(drive, extent)| Member { drive, extent });
    let made = matches!(tiers.make(alloc, class, &members), Ok(Answer::Made(_)));
    check!(rt; made);
}

/// Writes a block: its record.
pub(crate) fn write<D: Drive>(
    rt: &impl Abort,
    alloc: Global,
    tiers: &mut Tiers<D>,
    block: u32,
    payload: [u8; 8],
) -> Record {
    let shape = tiers.world().array().shape();
    check!(rt; block < shape.blocks);
    check!(rt; shape.payload == 8);
    match tiers.write(alloc, block, Given::Payload(&payload)) {
        Ok(Outcome::Placed(record)) => record,
        _ => rt.panic("not written"),
    }
}

/// Demotes the block that was written longest ago: its record.
pub(crate) fn demote<D: Drive>(rt: &impl Abort, alloc: Global, tiers: &mut Tiers<D>) -> Record {
    match tiers.demote(alloc) {
        Ok(Outcome::Placed(record)) => record,
        _ => rt.panic("not demoted"),
    }
}

/// Whether a block's last write is this version with these bytes.
pub(crate) fn reads<D: Drive>(
    rt: &impl Abort,
    tiers: &mut Tiers<D>,
    block: u32,
    version: u32,
    payload: [u8; 8],
) -> bool {
    let shape = tiers.world().array().shape();
    check!(rt; block < shape.blocks);
    check!(rt; shape.payload == 8);
    let mut found = [0; 8];
    tiers.read_into(block, &mut found) == Ok(Some(version)) && found == payload
}

/// A record, in the order block, version, hop, slot.
pub(crate) fn is_record(record: Record, block: u32, version: u32, hop: u16, slot: u16) -> bool {
    record.block == block && record.version == version && record.hop == hop && record.place == slot
}
