// Four drives, with a mirrored group of 2 slots and three parity groups of 4.
ghost use Rattle.std.specs.Prelude.{IfOk};
ghost use Rattle.extent_groups.specs.Groups.{Agree};

use crate::asserts::check;
use extent_groups::{Class, GroupTable, Member, are_there};
use extents::{ExtentTable, Shape};
use map_join::{BlockMap, Record};
use std::alloc::{AllocError, Global};
use std::process::Abort;

fn on(drive: u8, extent: u16) -> Member {
    Member { drive, extent }
}

/// The tables of four drives of 8 extents, without groups.
fn tables(rt: &impl Abort, alloc: Global) -> Result<(GroupTable, ExtentTable), AllocError>
    ensures { IfOk result (λ tables. Agree tables.0 tables.1) }
{
    let Ok(shape) = Shape::new(8, 1, 8, 16) else {
        rt.panic("no shape");
    };
    Ok((
        GroupTable::new(alloc, &shape)?,
        ExtentTable::new(alloc, 4, &shape)?,
    ))
}

/// Makes a group of members, after asserting that there are such extents.
fn put(
    rt: &impl Abort,
    alloc: Global,
    groups: &mut GroupTable,
    extents: &mut ExtentTable,
    group: u16,
    class: Class,
    members: &[Member],
)
    requires { Agree groups.old extents.old }
    ensures { Agree groups.new extents.new }
{
    check!(rt; are_there(extents, members));
    check!(rt; groups.is_free(group));
    check!(rt; groups.put_group(alloc, extents, group, class, members) == Ok(()));
}

/// Group 0 is mirrored, with slots 0 and 1; groups 1 to 3 are parity, with four slots each.
pub(crate) fn four_groups(rt: &impl Abort, alloc: Global) -> GroupTable {
    let Ok((mut groups, mut extents)) = tables(rt, alloc) else {
        rt.panic("no tables")
    };
    let table = &mut groups;
    let owners = &mut extents;
    let mirrored = [on(0, 0), on(1, 0), on(2, 0)];
    put(rt, alloc, table, owners, 0, Class::Mirrored, &mirrored);
    let first = [on(1, 1), on(2, 1), on(3, 1)];
    put(rt, alloc, table, owners, 1, Class::Parity, &first);
    let second = [on(0, 1), on(2, 2), on(3, 2)];
    put(rt, alloc, table, owners, 2, Class::Parity, &second);
    let third = [on(0, 2), on(1, 2), on(3, 3)];
    put(rt, alloc, table, owners, 3, Class::Parity, &third);
    groups
}

/// Takes a record.
pub(crate) fn took(
    rt: &impl Abort,
    map: &mut BlockMap,
    alloc: Global,
    block: u32,
    version: u32,
    hop: u16,
    place: u16,
) {
    let record = Record {
        block,
        version,
        hop,
        place,
    };
    check!(rt; version > 0);
    check!(rt; map.take(alloc, record).is_ok());
}

/// The places after blocks 0 to 8 were written and demoted, blocks 0, 4 and 5 were written again, and block 0 was demoted
/// once more: group 1 has three live slots, groups 2 and 3 have two.
pub(crate) fn places(rt: &impl Abort, alloc: Global) -> BlockMap {
    let mut map = BlockMap::new(alloc);
    let taken = [
        (0, 2, 1, 385),
        (1, 1, 1, 129),
        (2, 1, 1, 130),
        (3, 1, 1, 131),
        (4, 2, 0, 1),
        (5, 2, 0, 0),
        (6, 1, 1, 258),
        (7, 1, 1, 259),
        (8, 1, 1, 384),
    ];
    for (block, version, hop, place) in &taken {
        took(rt, &mut map, alloc, *block, *version, *hop, *place);
    }
    map
}
