// The plans' answers over a few groups, as worked out manually.
ghost use Rattle.extent_groups.specs.Groups.{Agree};

use crate::asserts::check;
use crate::tables::{Tables, on};
use extent_groups::Class;
use extents::DRIVES;
use rebalancer::{Shift, balance_plan, rebuild_plan};
use std::process::Abort;
use std::test::Fail;

/// Carries a shift out.
fn shift(rt: &impl Abort, tables: &mut Tables, plan: Option<Shift>)
    requires { Agree tables.old.groups tables.old.extents }
    ensures { Agree tables.new.groups tables.new.extents }
{
    if let Some(plan) = plan {
        check!(rt; tables.swap(rt, plan.group, plan.member, plan.to).is_ok());
    }
}

#[test]
fn loads_are_evened_onto_a_new_drive(rt: HostRuntime) -> Result<(), Fail> {
    let mut tables = Tables::new(&rt, rt.alloc(), 3, 2)?;
    for group in 0..6u16 {
        let members = [on(0, group), on(1, group), on(2, group)];
        check!(rt;
            tables
                .put(&rt, rt.alloc(), group, Class::Mirrored, &members)
                .is_ok()
        );
    }
    let lost = [false; DRIVES];
    check!(rt; balance_plan(&tables.extents, &tables.groups, &lost) == None);
    tables.add_drive(rt.alloc())?;
    for (group, member, extent) in [(0, 0, 0), (1, 1, 1), (2, 2, 2), (3, 0, 3)] {
        let plan = balance_plan(&tables.extents, &tables.groups, &lost);
        check!(rt;
            plan == Some(Shift {
                group,
                member,
                to: on(3, extent)
            })
        );
        shift(&rt, &mut tables, plan);
    }
    check!(rt; balance_plan(&tables.extents, &tables.groups, &lost) == None);
    Ok(())
}

#[test]
fn a_lost_drive_is_emptied_group_by_group(rt: HostRuntime) -> Result<(), Fail> {
    let mut tables = Tables::new(&rt, rt.alloc(), 4, 2)?;
    let upper = [on(0, 0), on(1, 0), on(2, 0)];
    check!(rt;
        tables
            .put(&rt, rt.alloc(), 0, Class::Mirrored, &upper)
            .is_ok()
    );
    let lower = [on(1, 1), on(2, 1), on(3, 1)];
    check!(rt;
        tables
            .put(&rt, rt.alloc(), 1, Class::Parity, &lower)
            .is_ok()
    );
    let mut lost = [false; DRIVES];
    check!(rt; rebuild_plan(&tables.extents, &tables.groups, &lost, 1) == None);
    lost[1] = true;
    for (group, member, to) in [(0, 1, on(3, 0)), (1, 0, on(0, 1))] {
        let plan = rebuild_plan(&tables.extents, &tables.groups, &lost, 1);
        check!(rt; plan == Some(Shift { group, member, to }));
        shift(&rt, &mut tables, plan);
    }
    check!(rt; rebuild_plan(&tables.extents, &tables.groups, &lost, 1) == None);
    Ok(())
}
