// The map that the headers hold is the running map, with a drive lost too.
use crate::asserts::check;
use crate::script::{answers, grouped, lose, push_move, push_write, record_of};
use header_scan::{ScanFault, scan, scan_world};
use map_join::BlockMap;
use std::alloc::Global;
use std::process::Abort;
use step_core::World;

// Block 3 is written at slot 0 and copied to slot 128 of a parity group.
fn moved(rt: &impl Abort, alloc: Global) -> World {
    let mut world = grouped(rt, alloc);
    let mut script = Vec::new(alloc);
    push_write(rt, alloc, &mut script, 0, 3, 0x11);
    push_move(rt, &mut script, 3, 128, 0x11);
    check!(rt; answers(rt, alloc, &mut world, &script));
    world
}

// The map that a scan of the world's headers returns.
fn scanned(rt: &impl Abort, alloc: Global, world: &mut World) -> BlockMap {
    let Ok(map) = scan(alloc, world) else {
        rt.panic("no map")
    };
    map
}

/// The map that a scan of the world returns.
pub(crate) fn world_scanned(rt: &impl Abort, alloc: Global, world: &mut World) -> BlockMap {
    let Ok(map) = scan_world(alloc, world) else {
        rt.panic("no map")
    };
    map
}

/// The running map.
pub(crate) fn running(rt: &impl Abort, alloc: Global, world: &World) -> BlockMap {
    let Ok(map) = world.array().map(alloc) else {
        rt.panic("no map")
    };
    map
}

// Whether the map has the moved block's newest place, and equals the other map.
fn is_newest_and(map: &BlockMap, other: &BlockMap) -> bool {
    map.get(3) == Some(record_of(3, 1, 128)) && map.agrees(other)
}

// Whether a scan of the world's headers returns that slot 0 is gone.
fn is_gone(alloc: Global, world: &mut World) -> bool {
    matches!(scan(alloc, world), Err(ScanFault::Gone(0)))
}

#[test]
fn a_scan_of_a_world_finds_its_map_until_a_slot_is_gone(rt: HostRuntime) {
    let alloc = rt.alloc();
    let mut world = moved(&rt, alloc);
    let before = scanned(&rt, alloc, &mut world);
    check!(rt; is_newest_and(&before, &running(&rt, alloc, &world)));
    lose(&mut world, 1);
    let after = world_scanned(&rt, alloc, &mut world);
    check!(rt; is_newest_and(&after, &before));
    lose(&mut world, 0);
    check!(rt; is_gone(alloc, &mut world));
}
