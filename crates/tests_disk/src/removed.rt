// A disk that gives up its last drives.
use crate::added::{added, attach, form, load_of, resume};
use crate::asserts::check;
use crate::recovered::{begin, formatted};
use crate::rig::plan_of;
use array_recovery::find;
use disk_shape::Plan;
use drive_rebuild::scrub_parts;
use drive_removal::{RemovalFault, remove_drive};
use extents::DRIVES;
use group_form::find_groups;
use std::alloc::Global;
use std::process::Abort;
use unit_store::Parts;
use vault::Vault;

fn removed<V: Vault>(
    rt: &impl Abort,
    alloc: Global,
    plan: &Plan,
    vault: &mut V,
) -> Result<(), RemovalFault> {
    let Ok(found) = find_groups(alloc, vault, &plan.shape) else {
        rt.panic("no groups")
    };
    remove_drive(
        alloc,
        vault,
        &plan.shape,
        found.groups,
        found.extents,
        found.drives,
    )
}

// Tests that the disk has so many drives, that no group has a member past them, and that all slots are sound.
pub(crate) fn test_drives<V: Vault>(
    rt: &impl Abort,
    alloc: Global,
    plan: &Plan,
    vault: &mut V,
    drives: u8,
) {
    let Ok(form) = find_groups(alloc, vault, &plan.shape) else {
        rt.panic("no groups")
    };
    check!(rt; form.drives == drives);
    for drive in drives..16 {
        check!(rt; load_of(&form.groups, drive) == 0);
    }
    let Ok(found) = find(alloc, vault, &plan.shape, drives, &[false; DRIVES]) else {
        rt.panic("nothing is found")
    };
    let mut parts = Parts {
        shape: plan.shape,
        groups: form.groups,
        extents: form.extents,
        drives: found.caches,
        note: None,
    };
    let Ok(findings) = scrub_parts(alloc, &mut parts) else {
        rt.panic("no memory")
    };
    check!(rt; findings.slots > 0 && findings.unsound == 0);
}

#[test]
fn a_grown_disk_gives_up_a_drive_and_one_that_is_lost(rt: HostRuntime) {
    let alloc = rt.alloc();
    let plan = plan_of(&rt, 1000, 64);
    let mut vault = formatted(&rt, alloc, &plan);
    let mut model = [0u8; 1000];
    form(&rt, alloc, &plan, &mut vault);
    begin(&rt, alloc, &plan, &mut vault, &mut model);
    for drive in 6..8u8 {
        attach(&rt, alloc, &plan, &mut vault, drive);
        let done = added(&rt, alloc, &plan, &mut vault);
        check!(&rt; done.is_ok());
    }
    let less = removed(&rt, alloc, &plan, &mut vault);
    check!(&rt; less.is_ok());
    test_drives(&rt, alloc, &plan, &mut vault, 7);
    let mut absent = [false; DRIVES];
    absent[6] = true;
    let lost = resume(&rt, alloc, &plan, &mut vault, &absent, &mut model);
    check!(&rt; lost.is_ok());
    let less = removed(&rt, alloc, &plan, &mut vault);
    check!(&rt; less.is_ok());
    test_drives(&rt, alloc, &plan, &mut vault, 6);
    let again = resume(&rt, alloc, &plan, &mut vault, &[false; DRIVES], &mut model);
    check!(&rt; again.is_ok());
    // Each group has a member on each drive.
    check!(&rt; removed(&rt, alloc, &plan, &mut vault) == Err(RemovalFault::Stuck));
    let mut absent = [false; DRIVES];
    absent[2] = true;
    let lost = resume(&rt, alloc, &plan, &mut vault, &absent, &mut model);
    check!(&rt; lost.is_ok());
    check!(&rt; removed(&rt, alloc, &plan, &mut vault) == Err(RemovalFault::Lost(2)));
}
