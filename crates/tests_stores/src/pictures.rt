// What a picture shows of a small array, by the rules of the geometry.
use crate::asserts::check;
use crate::set_up::took;
use crate::tables::{Tables, on};
use extent_groups::Class;
use map_join::BlockMap;
use picture::{End, Mark, blocks_by_slot, draw, mark_of};
use std::alloc::Global;
use std::process::Abort;
use std::test::Fail;

/// Three drives of one segment an extent: mirrored group 1 is extent 0 of each, parity group 2 extent 1.
fn three_drives(rt: &impl Abort, alloc: Global) -> Result<Tables, Fail> {
    let mut tables = Tables::new(rt, alloc, 3, 1)?;
    let mirrored = [on(0, 0), on(1, 0), on(2, 0)];
    check!(rt; tables.put(rt, alloc, 1, Class::Mirrored, &mirrored) == Ok(()));
    let parity = [on(0, 1), on(1, 1), on(2, 1)];
    check!(rt; tables.put(rt, alloc, 2, Class::Parity, &parity) == Ok(()));
    Ok(tables)
}

/// What a unit is, if there is such a unit.
fn mark_seen(
    tables: &Tables,
    blocks: &[Option<u32>],
    drive: u8,
    extent: u16,
    offset: u16,
) -> Option<Mark> {
    if !tables.extents.has_extent(drive, extent) {
        return None;
    }
    if u32::from(offset) >= tables.groups.shape().extent_units() {
        return None;
    }
    Some(mark_of(
        &tables.groups,
        &tables.extents,
        blocks,
        drive,
        extent,
        offset,
    ))
}

/// Block 70 in the second mirrored slot, block 9 in the third parity slot, which block 8 left for the first mirrored slot.
fn three_blocks(rt: &impl Abort, alloc: Global) -> BlockMap {
    let mut map = BlockMap::new(alloc);
    took(rt, &mut map, alloc, 70, 1, 0, 129);
    took(rt, &mut map, alloc, 8, 1, 0, 258);
    took(rt, &mut map, alloc, 8, 2, 0, 128);
    took(rt, &mut map, alloc, 9, 1, 1, 258);
    map
}

#[test]
fn each_unit_is_what_the_geometry_says(rt: HostRuntime) -> Result<(), Fail> {
    let tables = three_drives(&rt, rt.alloc())?;
    let blocks = blocks_by_slot(rt.alloc(), &three_blocks(&rt, rt.alloc()))?;
    let marks = [
        (0u8, 0u16, 0u16, Mark::Unit(128, Some(8))),
        (1, 0, 1, Mark::SecondCopy(129, Some(70))),
        (0, 0, 1, Mark::Unit(129, Some(70))),
        (2, 0, 0, Mark::Unused(1)),
        (1, 1, 0, Mark::Unit(258, Some(9))),
        (1, 1, 1, Mark::Unit(259, None)),
        (2, 1, 1, Mark::Parity(2)),
        (0, 2, 0, Mark::Free),
    ];
    for (drive, extent, offset, mark) in &marks {
        check!(rt; mark_seen(&tables, &blocks, *drive, *extent, *offset) == Some(*mark));
    }
    Ok(())
}

#[test]
fn a_picture_has_the_numbers_of_live_blocks_alone(rt: HostRuntime) -> Result<(), Fail> {
    let tables = three_drives(&rt, rt.alloc())?;
    let map = three_blocks(&rt, rt.alloc());
    let end = End { group: 2, next: 3 };
    let text = draw(
        rt.alloc(),
        &tables.groups,
        &tables.extents,
        &map,
        &[false, false, true],
        Some(end),
    )?;
    for shown in [
        "Live blocks: 3",
        ">70</text>",
        ">8</text>",
        ">9</text>",
        "drive 2, lost",
    ] {
        check!(rt; text.contains(shown));
    }
    check!(rt; !text.contains(">10</text>"));
    Ok(())
}
