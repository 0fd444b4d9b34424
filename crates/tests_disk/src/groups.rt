// The groups of a disk are found again in its vault's table.
use crate::asserts::check;
use crate::recovered::groups_of;
use crate::rig::plan_of;
use disk_shape::Plan;
use extent_groups::{GROUPS, GroupTable, Place};
use extents::{DRIVES, Shape};
use file_vault::{FileVault, Files, Layout, MemFiles};
use group_form::{FORM_BYTES, FORM_UNITS, FormFault, find_groups, write_groups};
use std::alloc::Global;
use std::process::Abort;
use vault::{Batch, MemVault, Stop, TABLE, Vault, keep, settle};

// A vault with zeros in the table.
fn blank(rt: &impl Abort, alloc: Global) -> MemVault {
    let mut vault = MemVault::new(alloc);
    let mut written = true;
    for address in 0..u32::from(FORM_UNITS) + 1 {
        let place = Place {
            drive: TABLE,
            address,
        };
        written &= vault.write_unit(place, &[0; FORM_BYTES]).is_ok();
    }
    check!(rt; written);
    vault
}

// The table has these groups and no others, and this number of drives.
fn test_found<V: Vault>(
    rt: &impl Abort,
    alloc: Global,
    vault: &mut V,
    shape: &Shape,
    groups: &GroupTable,
    drives: u8,
) {
    let Ok(found) = find_groups(alloc, vault, shape) else {
        rt.panic("no groups")
    };
    check!(rt; found.drives == drives);
    for group in 0..GROUPS as u16 {
        check!(rt; found.groups.class_of(group) == groups.class_of(group));
        check!(rt; found.groups.members(group) == groups.members(group));
    }
}

// Puts groups into the journal.
fn put<V: Vault>(rt: &impl Abort, alloc: Global, vault: &mut V, groups: &GroupTable, drives: u8) {
    let mut batch = Batch::new(alloc);
    let put = write_groups(alloc, &mut batch, groups, drives).is_ok();
    check!(rt; put && keep(vault, &batch).is_ok());
}

// The same files, with their writes in their bytes, so that reads are fast.
fn folded(rt: &impl Abort, files: MemFiles) -> MemFiles {
    match files.left(Stop::Killed, 0) {
        Ok(files) => files,
        Err(_) => rt.panic("no memory"),
    }
}

fn opened(rt: &impl Abort, alloc: Global, files: MemFiles, layout: Layout) -> FileVault<MemFiles> {
    match FileVault::open(alloc, files, layout) {
        Ok(vault) => vault,
        Err(_) => rt.panic("not opened"),
    }
}

// The files of a vault with a table and without drives.
fn made(rt: &impl Abort, alloc: Global, layout: Layout) -> MemFiles {
    let mut empty = Vec::new(alloc);
    let mut pushed = true;
    for _ in 0..18 {
        pushed &= empty.push(Vec::new(alloc)).is_ok();
    }
    check!(rt; pushed);
    match FileVault::create(alloc, MemFiles::new(alloc, empty), layout) {
        Ok(vault) => folded(rt, vault.into_files()),
        Err(_) => rt.panic("not made"),
    }
}

// Tears nine units of the groups.
fn tear(rt: &impl Abort, files: &mut MemFiles, layout: Layout) {
    let mut written = true;
    for index in 0..9 {
        let place = Place {
            drive: TABLE,
            address: 128 * index + 1,
        };
        let offset = layout.offset(place).unwrap_or(0);
        written &= files.write_at(TABLE, offset, &[1]).is_ok();
    }
    check!(rt; written);
}

#[test]
fn torn_units_of_groups_are_read_from_the_journal_alone(rt: HostRuntime) {
    let alloc = rt.alloc();
    let plan = plan_of(&rt, 100_000, 64);
    let (groups, _extents) = groups_of(&rt, alloc, &plan);
    let layout = Layout {
        unit_bytes: plan.shape.unit_bytes() as u32,
        table_bytes: FORM_BYTES as u32,
        counts: [0; DRIVES],
    };
    let mut vault = opened(&rt, alloc, made(&rt, alloc, layout), layout);
    put(&rt, alloc, &mut vault, &groups, 6);
    let mut files = folded(&rt, vault.into_files());
    tear(&rt, &mut files, layout);
    let mut vault = opened(&rt, alloc, files, layout);
    test_found(&rt, alloc, &mut vault, &plan.shape, &groups, 6);
    let mut files = made(&rt, alloc, layout);
    tear(&rt, &mut files, layout);
    let mut vault = opened(&rt, alloc, files, layout);
    check!(rt; find_groups(alloc, &mut vault, &plan.shape).err() == Some(FormFault::Missing));
}

fn none_of(rt: &impl Abort, alloc: Global, plan: &Plan) -> GroupTable {
    let Ok(groups) = GroupTable::new(alloc, &plan.shape) else {
        rt.panic("no memory")
    };
    groups
}

#[test]
fn groups_are_found_in_the_journal_and_once_it_is_settled(rt: HostRuntime) {
    let alloc = rt.alloc();
    let plan = plan_of(&rt, 2_000_000, 64);
    let (groups, _extents) = groups_of(&rt, alloc, &plan);
    let mut vault = blank(&rt, alloc);
    put(&rt, alloc, &mut vault, &groups, plan.drives);
    test_found(&rt, alloc, &mut vault, &plan.shape, &groups, plan.drives);
    let mut batch = Batch::new(alloc);
    check!(rt; settle(&mut vault, &mut batch, &[false; DRIVES]).is_ok());
    test_found(&rt, alloc, &mut vault, &plan.shape, &groups, plan.drives);
}

#[test]
fn later_groups_are_found_and_none_in_zeros(rt: HostRuntime) {
    let alloc = rt.alloc();
    let plan = plan_of(&rt, 100_000, 64);
    let (mut groups, mut extents) = groups_of(&rt, alloc, &plan);
    let mut vault = blank(&rt, alloc);
    test_found(
        &rt,
        alloc,
        &mut vault,
        &plan.shape,
        &none_of(&rt, alloc, &plan),
        0,
    );
    put(&rt, alloc, &mut vault, &groups, 6);
    check!(rt; groups.agrees(&extents) && groups.take_group(&mut extents, 1).is_ok());
    put(&rt, alloc, &mut vault, &groups, 7);
    test_found(&rt, alloc, &mut vault, &plan.shape, &groups, 7);
}

#[test]
fn a_table_without_units_or_with_others_has_no_groups(rt: HostRuntime) {
    let alloc = rt.alloc();
    let plan = plan_of(&rt, 100_000, 64);
    let mut none = MemVault::new(alloc);
    check!(rt; find_groups(alloc, &mut none, &plan.shape).err() == Some(FormFault::Missing));
    // A member of a group that has no number of a class.
    let mut vault = blank(&rt, alloc);
    let place = Place {
        drive: TABLE,
        address: 2,
    };
    let mut unit = [0; FORM_BYTES];
    unit[4] = 1;
    check!(rt; vault.write_unit(place, &unit).is_ok());
    check!(rt; find_groups(alloc, &mut vault, &plan.shape).err() == Some(FormFault::Misfit));
}
