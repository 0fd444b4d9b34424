// A disk whose groups are changed.
use crate::added::{form, resume};
use crate::asserts::check;
use crate::recovered::formatted;
use crate::removed::test_drives;
use crate::stopped::{layout_of, new_files};
use disk_shape::{Plan, plan_disk};
use extent_groups::{Class, GroupTable, Member};
use extents::DRIVES;
use file_vault::{FileVault, MemFiles};
use group_changes::{GroupChange, GroupChangeFault, change_groups};
use group_form::{Spelled, find_groups};
use std::alloc::Global;
use std::process::Abort;
use step_core::Refusal;
use vault::{Stop, Vault};

// How many calls of files lie between one stop and the next, and the most stops.
const STRIDE: u32 = 97;

const STOPS: u32 = 200;

// The groups that a vault's table has, with the owners of the extents.
fn found_in<V: Vault>(rt: &impl Abort, alloc: Global, plan: &Plan, vault: &mut V) -> Spelled {
    let Ok(found) = find_groups(alloc, vault, &plan.shape) else {
        rt.panic("no groups")
    };
    check!(rt; found.drives == plan.drives);
    found
}

fn groups_in<V: Vault>(rt: &impl Abort, alloc: Global, plan: &Plan, vault: &mut V) -> GroupTable {
    found_in(rt, alloc, plan, vault).groups
}

fn change_found<V: Vault>(
    alloc: Global,
    plan: &Plan,
    vault: &mut V,
    found: Spelled,
    change: &GroupChange,
) -> Result<(), GroupChangeFault> {
    change_groups(
        alloc,
        vault,
        &plan.shape,
        found.groups,
        found.extents,
        found.drives,
        change,
    )
}

fn changed<V: Vault>(
    rt: &impl Abort,
    alloc: Global,
    plan: &Plan,
    vault: &mut V,
    change: &GroupChange,
) -> Result<(), GroupChangeFault> {
    let found = found_in(rt, alloc, plan, vault);
    change_found(alloc, plan, vault, found, change)
}

// A parity group of the extents of one number on these drives.
fn making(rt: &impl Abort, alloc: Global, group: u16, drives: &[u8], extent: u16) -> GroupChange {
    let mut members = Vec::new(alloc);
    for drive in drives {
        let member = Member {
            drive: *drive,
            extent,
        };
        let pushed = members.push(member).is_ok();
        check!(rt; pushed);
    }
    GroupChange::Make {
        group,
        class: Class::Parity,
        members,
    }
}

fn moving(group: u16, member: u8, drive: u8, extent: u16) -> GroupChange {
    GroupChange::Move {
        group,
        member,
        to: Member { drive, extent },
    }
}

// Whether two tables have the same groups under the first numbers.
fn are_same(one: &GroupTable, other: &GroupTable) -> bool {
    for group in 0..4 {
        if one.class_of(group) != other.class_of(group)
            || one.members(group) != other.members(group)
        {
            return false;
        }
    }
    true
}

// Tests that a change is refused, and that the groups are as they were.
fn test_refused<V: Vault>(
    rt: &impl Abort,
    alloc: Global,
    plan: &Plan,
    vault: &mut V,
    change: GroupChange,
    fault: GroupChangeFault,
) {
    let before = groups_in(rt, alloc, plan, vault);
    let done = changed(rt, alloc, plan, vault, &change);
    check!(rt; done == Err(fault));
    check!(rt; are_same(&groups_in(rt, alloc, plan, vault), &before));
}

// Tests what is refused of a disk of ten drives and two groups of eight members, of which the first has blocks.
fn test_refusals<V: Vault>(rt: &impl Abort, alloc: Global, plan: &Plan, vault: &mut V) {
    let held = changed(rt, alloc, plan, vault, &GroupChange::Dissolve { group: 0 });
    check!(rt; matches!(held, Err(GroupChangeFault::Refused(Refusal::SlotsHeld(_)))));
    for group in [2, 600] {
        let none = GroupChangeFault::Refused(Refusal::NoGroup);
        test_refused(
            rt,
            alloc,
            plan,
            vault,
            GroupChange::Dissolve { group },
            none,
        );
    }
    for (drives, extent, refusal) in [
        ([0u8, 1, 2], 0u16, Refusal::ExtentTaken),
        ([0, 1, 0], 0, Refusal::SameDrive),
        ([0, 1, 10], 0, Refusal::BadMember),
        ([0, 1, 2], 2, Refusal::BadMember),
    ] {
        let change = making(rt, alloc, 2, &drives, extent);
        let fault = GroupChangeFault::Refused(refusal);
        test_refused(rt, alloc, plan, vault, change, fault);
    }
    for (group, member, drive, refusal) in [
        (2u16, 0u8, 7u8, Refusal::NoGroup),
        (1, 8, 7, Refusal::NoGroup),
        (1, 0, 10, Refusal::BadMember),
        (1, 0, 1, Refusal::SameDrive),
        (1, 0, 7, Refusal::ExtentTaken),
    ] {
        let change = moving(group, member, drive, 0);
        let fault = GroupChangeFault::Refused(refusal);
        test_refused(rt, alloc, plan, vault, change, fault);
    }
    let other = making(rt, alloc, 3, &[6, 7, 8], 1);
    test_refused(rt, alloc, plan, vault, other, GroupChangeFault::Number(2));
}

// The plan of a disk of ten drives. The groups have all extents but the last of drives 6 to 9.
fn ten_drives(rt: &impl Abort) -> Plan {
    let Ok(plan) = plan_disk(1000, 64, 10) else {
        rt.panic("no plan")
    };
    check!(rt; plan.groups == 2 && plan.members == 8 && plan.shape.extents == 2);
    plan
}

#[test]
fn groups_are_made_dissolved_and_moved(rt: HostRuntime) {
    let alloc = rt.alloc();
    let plan = ten_drives(&rt);
    let mut vault = formatted(&rt, alloc, &plan);
    let mut model = [0u8; 1000];
    form(&rt, alloc, &plan, &mut vault);
    let first = resume(&rt, alloc, &plan, &mut vault, &[false; DRIVES], &mut model);
    check!(&rt; first.is_ok());
    test_refusals(&rt, alloc, &plan, &mut vault);

    let group = making(&rt, alloc, 2, &[6, 7, 8], 1);
    let done = changed(&rt, alloc, &plan, &mut vault, &group);
    check!(&rt; done.is_ok());
    let groups = groups_in(&rt, alloc, &plan, &mut vault);
    check!(&rt; groups.class_of(2) == Some(Class::Parity) && groups.members(2).len() == 3);
    let done = changed(
        &rt,
        alloc,
        &plan,
        &mut vault,
        &GroupChange::Dissolve { group: 2 },
    );
    check!(&rt; done.is_ok());
    let groups = groups_in(&rt, alloc, &plan, &mut vault);
    check!(&rt; groups.class_of(2) == None);
    // The mirrored group, which has the blocks.
    let done = changed(&rt, alloc, &plan, &mut vault, &moving(0, 2, 8, 1));
    check!(&rt; done.is_ok());
    let groups = groups_in(&rt, alloc, &plan, &mut vault);
    check!(&rt; groups.members(0).len() == 8 && groups.members(0)[2] == Member { drive: 8, extent: 1 });
    test_drives(&rt, alloc, &plan, &mut vault, 10);

    let mut absent = [false; DRIVES];
    absent[3] = true;
    let less = resume(&rt, alloc, &plan, &mut vault, &absent, &mut model);
    check!(&rt; less.is_ok());
    let lost = changed(&rt, alloc, &plan, &mut vault, &group);
    check!(&rt; lost == Err(GroupChangeFault::Lost(3)));
}

// The vault that a stop leaves of files.
fn vault_left(
    rt: &impl Abort,
    alloc: Global,
    plan: &Plan,
    files: &MemFiles,
    stop: (Stop, u64),
) -> FileVault<MemFiles> {
    let Ok(left) = files.left(stop.0, stop.1) else {
        rt.panic("no memory")
    };
    match FileVault::open(alloc, left, layout_of(plan)) {
        Ok(vault) => vault,
        Err(_) => rt.panic("not opened"),
    }
}

// Makes a change over files whose calls fail after so many. The files then, and whether it was made.
fn change_stopped(
    rt: &impl Abort,
    alloc: Global,
    plan: &Plan,
    first: &MemFiles,
    change: &GroupChange,
    calls: u32,
) -> (MemFiles, bool) {
    let Ok(mut files) = first.left(Stop::Killed, 0) else {
        rt.panic("no memory")
    };
    let mut whole = vault_left(rt, alloc, plan, first, (Stop::Killed, 0));
    let found = found_in(rt, alloc, plan, &mut whole);
    files.fail_after(calls);
    let mut vault = match FileVault::open(alloc, files, layout_of(plan)) {
        Ok(vault) => vault,
        Err((_, files)) => return (files, false),
    };
    let done = change_found(alloc, plan, &mut vault, found, change);
    (vault.into_files(), done.is_ok())
}

// Stops a change after each of some numbers of calls of files: what is left has the same bytes, and the groups of before or of afterwards.
// The files with the change.
fn test_stops(
    rt: &impl Abort,
    alloc: Global,
    plan: &Plan,
    first: &MemFiles,
    change: &GroupChange,
    model: &mut [u8],
) -> MemFiles {
    let (whole, done) = change_stopped(rt, alloc, plan, first, change, u32::MAX);
    check!(rt; done);
    let mut vault = vault_left(rt, alloc, plan, first, (Stop::Killed, 0));
    let before = groups_in(rt, alloc, plan, &mut vault);
    let mut vault = vault_left(rt, alloc, plan, &whole, (Stop::PowerLost, 1));
    let after = groups_in(rt, alloc, plan, &mut vault);
    check!(rt; !are_same(&before, &after));
    for step in 0..STOPS {
        let (files, done) = change_stopped(rt, alloc, plan, first, change, step * STRIDE);
        if done {
            check!(rt; step > 3);
            break;
        }
        for stop in [(Stop::Killed, 0u64), (Stop::PowerLost, u64::from(step))] {
            let mut vault = vault_left(rt, alloc, plan, &files, stop);
            let groups = groups_in(rt, alloc, plan, &mut vault);
            check!(rt; are_same(&groups, &before) || are_same(&groups, &after));
            let again = resume(rt, alloc, plan, &mut vault, &[false; DRIVES], model);
            check!(rt; again.is_ok());
        }
    }
    vault.into_files()
}

#[test]
fn a_change_that_is_stopped_leaves_the_groups_of_before_or_afterwards(rt: HostRuntime) {
    let alloc = rt.alloc();
    let plan = ten_drives(&rt);
    let mut model = [0u8; 1000];
    let files = new_files(&rt, alloc, &plan);
    let mut vault = vault_left(&rt, alloc, &plan, &files, (Stop::Killed, 0));
    form(&rt, alloc, &plan, &mut vault);
    let first = resume(&rt, alloc, &plan, &mut vault, &[false; DRIVES], &mut model);
    check!(&rt; first.is_ok());
    let mut files = vault.into_files();
    for change in [
        making(&rt, alloc, 2, &[6, 7, 8], 1),
        GroupChange::Dissolve { group: 2 },
        moving(0, 2, 8, 1),
    ] {
        files = test_stops(&rt, alloc, &plan, &files, &change, &mut model);
    }
}
