// Groups are made, swapped and dissolved, and each refusal comes with its number's name.
use crate::asserts::check;
use crate::geometry::{copies_seen, stripe_seen};
use crate::tables::{Tables, on, shape_of};
use extent_groups::{Class, Copies, GroupRefusal, Spot, Stripe};
use extents::ExtentTable;
use std::test::Fail;

#[test]
fn members_that_make_no_group_are_refused(rt: HostRuntime) -> Result<(), Fail> {
    let mut tables = Tables::new(&rt, rt.alloc(), 10, 2)?;
    let few = [on(0, 0), on(1, 0)];
    check!(rt; tables.put(&rt, rt.alloc(), 0, Class::Mirrored, &few) == Err(GroupRefusal::TooFew));
    let nine = [
        on(0, 0),
        on(1, 0),
        on(2, 0),
        on(3, 0),
        on(4, 0),
        on(5, 0),
        on(6, 0),
        on(7, 0),
        on(7, 0),
    ];
    check!(rt;
        tables.put(&rt, rt.alloc(), 0, Class::Mirrored, &nine) == Err(GroupRefusal::TooMany)
    );
    let same = [on(0, 0), on(1, 0), on(0, 1)];
    check!(rt;
        tables.put(&rt, rt.alloc(), 0, Class::Mirrored, &same) == Err(GroupRefusal::SameDrive)
    );
    Ok(())
}

#[test]
fn a_group_is_made_swapped_and_unmade(rt: HostRuntime) -> Result<(), Fail> {
    let mut tables = Tables::new(&rt, rt.alloc(), 10, 2)?;
    let members = [on(0, 0), on(1, 0), on(2, 0)];
    check!(rt; tables.put(&rt, rt.alloc(), 0, Class::Mirrored, &members) == Ok(()));
    check!(rt; tables.groups.class_of(0) == Some(Class::Mirrored));
    check!(rt; tables.groups.slots_of(0) == 6);
    check!(rt; tables.groups.shape() == shape_of(&rt, 8, 2));
    check!(rt; tables.swap(&rt, 0, 2, on(0, 1)) == Err(GroupRefusal::SameDrive));
    check!(rt; tables.swap(&rt, 0, 2, on(9, 0)) == Ok(()));
    check!(rt; tables.groups.members(0).len() == 3);
    check!(rt; tables.is_owned_by(on(2, 0), None));
    check!(rt; tables.is_owned_by(on(9, 0), Some(0)));
    check!(rt; tables.take(0) == Ok(()));
    check!(rt; tables.take(0) == Err(GroupRefusal::NoGroup));
    Ok(())
}

#[test]
fn an_owned_extent_is_refused_and_slots_are_looked_up(rt: HostRuntime) -> Result<(), Fail> {
    let mut tables = Tables::new(&rt, rt.alloc(), 10, 2)?;
    let mirrored = [on(0, 0), on(1, 0), on(2, 0)];
    check!(rt; tables.put(&rt, rt.alloc(), 0, Class::Mirrored, &mirrored) == Ok(()));
    let over = [on(2, 0), on(3, 0), on(4, 0)];
    check!(rt;
        tables.put(&rt, rt.alloc(), 1, Class::Parity, &over) == Err(GroupRefusal::ExtentTaken)
    );
    let parity = [on(3, 0), on(4, 0), on(5, 0)];
    check!(rt; tables.put(&rt, rt.alloc(), 1, Class::Parity, &parity) == Ok(()));
    check!(rt; tables.swap(&rt, 0, 2, on(3, 0)) == Err(GroupRefusal::ExtentTaken));
    let first = Spot {
        member: 2,
        offset: 0,
    };
    let second = Spot {
        member: 0,
        offset: 2,
    };
    check!(rt; copies_seen(&tables.groups, 0, 2) == Some(Copies { first, second }));
    check!(rt; copies_seen(&tables.groups, 0, 6) == None);
    let stripe = Stripe {
        stripe: 1,
        member: 0,
        offset: 2,
        parity: 1,
    };
    check!(rt; stripe_seen(&tables.groups, 1, 4) == Some(stripe));
    check!(rt; stripe_seen(&tables.groups, 0, 4) == None);
    Ok(())
}

#[test]
fn groups_and_owners_that_differ_do_not_agree(rt: HostRuntime) -> Result<(), Fail> {
    let mut tables = Tables::new(&rt, rt.alloc(), 4, 2)?;
    let members = [on(0, 0), on(1, 0), on(2, 0)];
    check!(rt; tables.groups.agrees(&tables.extents));
    check!(rt; tables.put(&rt, rt.alloc(), 511, Class::Parity, &members) == Ok(()));
    check!(rt; tables.groups.agrees(&tables.extents));
    let free = ExtentTable::new(rt.alloc(), 4, &shape_of(&rt, 8, 2))?;
    check!(rt; !tables.groups.agrees(&free));
    let Tables {
        groups,
        mut extents,
    } = tables;
    check!(rt; extents.has_extent(3, 7));
    extents.set_owner(3, 7, Some(511));
    check!(rt; !groups.agrees(&extents));
    Ok(())
}
