// A disk that gets one more drive.
ghost use Rattle.std.specs.Prelude.{◌≡◌};

use crate::asserts::check;
use crate::calls::publish_call;
use crate::model::{agree, write};
use crate::recovered::{begin, formatted, groups_of, opened_in};
use crate::rig::plan_of;
use array_recovery::{RecoveryFault, find, recover};
use cached_drive::Saved;
use disk_shape::Plan;
use drive_addition::{AdditionFault, add_drive};
use drive_rebuild::scrub_parts;
use extent_groups::{GROUPS, GroupTable, Place};
use extents::DRIVES;
use group_form::{FORM_BYTES, FORM_UNITS, find_groups, write_groups};
use history::{Chronicle, Opened};
use std::alloc::Global;
use std::marker::Brand;
use std::process::Abort;
use unit_store::Parts;
use vault::{Batch, TABLE, Vault, keep};

// Puts the groups of a plan into the table.
pub(crate) fn form<V: Vault>(rt: &impl Abort, alloc: Global, plan: &Plan, vault: &mut V) {
    let mut written = true;
    for index in 0..u32::from(FORM_UNITS) {
        let place = Place {
            drive: TABLE,
            address: index + 1,
        };
        written &= vault.write_unit(place, &[0; FORM_BYTES]).is_ok();
    }
    check!(rt; written);
    let (groups, _extents) = groups_of(rt, alloc, plan);
    let mut batch = Batch::new(alloc);
    let put = write_groups(alloc, &mut batch, &groups, plan.drives).is_ok();
    check!(rt; put && keep(vault, &batch).is_ok());
}

// Gives a drive units of any bytes.
pub(crate) fn attach<V: Vault>(
    rt: &impl Abort,
    alloc: Global,
    plan: &Plan,
    vault: &mut V,
    drive: u8,
) {
    let Ok(rubbish) = vec![in alloc; 0xa5u8; plan.shape.unit_bytes()] else {
        rt.panic("no memory")
    };
    for address in 0..plan.shape.drive_units() {
        let put = vault.write_unit(Place { drive, address }, &rubbish).is_ok();
        check!(rt; put);
    }
}

// How many members of groups lie on a drive.
pub(crate) fn load_of(groups: &GroupTable, drive: u8) -> usize {
    let mut load = 0usize;
    for group in 0..GROUPS as u16 {
        for member in groups.members(group) {
            if member.drive == drive {
                load = load.saturating_add(1);
            }
        }
    }
    load
}

pub(crate) fn added<V: Vault>(
    rt: &impl Abort,
    alloc: Global,
    plan: &Plan,
    vault: &mut V,
) -> Result<(), AdditionFault> {
    let Ok(found) = find_groups(alloc, vault, &plan.shape) else {
        rt.panic("no groups")
    };
    add_drive(
        alloc,
        vault,
        &plan.shape,
        found.groups,
        found.extents,
        found.drives,
    )
}

// Opens the disk with the groups that the table has; its bytes are the model's. Writes, and publishes that.
fn open_found<N: Chronicle, V: Vault>(
    rt: &impl Abort,
    alloc: Global,
    plan: &Plan,
    opened: Opened<Saved>,
    vault: &mut V,
    absent: &[bool; DRIVES],
    model: &mut [u8],
) -> Result<(), RecoveryFault>
    requires { opened ≡ N.chronicle }
{
    let Ok(form) = find_groups(alloc, vault, &plan.shape) else {
        rt.panic("no groups")
    };
    let (mut store, mut changes) = recover::<N, V>(
        alloc,
        vault,
        opened,
        &plan.shape,
        form.groups,
        form.extents,
        form.drives,
        plan.size,
        absent,
    )?;
    check!(rt; agree(rt, &mut store, model));
    write(rt, alloc, &mut store, model, (300, 100, 9));
    publish_call(rt, &mut store, &mut changes, vault);
    Ok(())
}

pub(crate) fn resume<V: Vault>(
    rt: &impl Abort,
    alloc: Global,
    plan: &Plan,
    vault: &mut V,
    absent: &[bool; DRIVES],
    model: &mut [u8],
) -> Result<(), RecoveryFault> {
    let opened = opened_in(rt, alloc);
    open_found::<Brand, V>(rt, alloc, plan, opened, vault, absent, model)
}

// Tests that all slots are sound, and that the loads of no two drives are two apart.
fn test_spread<V: Vault>(rt: &impl Abort, alloc: Global, plan: &Plan, vault: &mut V, drives: u8) {
    let Ok(form) = find_groups(alloc, vault, &plan.shape) else {
        rt.panic("no groups")
    };
    check!(rt; form.drives == drives);
    let first = load_of(&form.groups, 0);
    for drive in 0..drives {
        let load = load_of(&form.groups, drive);
        check!(rt; load > 0 && load <= first.saturating_add(1) && first <= load.saturating_add(1));
    }
    let Ok(found) = find(alloc, vault, &plan.shape, drives, &[false; DRIVES]) else {
        rt.panic("nothing is found")
    };
    let mut parts = Parts {
        shape: plan.shape,
        groups: form.groups,
        extents: form.extents,
        drives: found.caches,
        note: None,
    };
    let Ok(findings) = scrub_parts(alloc, &mut parts) else {
        rt.panic("no memory")
    };
    check!(rt; findings.slots > 0 && findings.unsound == 0);
}

#[test]
fn a_disk_grows_to_nine_drives_and_loses_any(rt: HostRuntime) {
    let alloc = rt.alloc();
    let plan = plan_of(&rt, 1000, 64);
    let mut vault = formatted(&rt, alloc, &plan);
    let mut model = [0u8; 1000];
    form(&rt, alloc, &plan, &mut vault);
    begin(&rt, alloc, &plan, &mut vault, &mut model);
    // Its places aren't there.
    check!(&rt; added(&rt, alloc, &plan, &mut vault) == Err(AdditionFault::Misfit));
    for drive in 6..9u8 {
        attach(&rt, alloc, &plan, &mut vault, drive);
        let done = added(&rt, alloc, &plan, &mut vault);
        check!(&rt; done.is_ok());
        test_spread(&rt, alloc, &plan, &mut vault, drive + 1);
        let again = resume(&rt, alloc, &plan, &mut vault, &[false; DRIVES], &mut model);
        check!(&rt; again.is_ok());
    }
    let mut absent = [false; DRIVES];
    absent[8] = true;
    let less = resume(&rt, alloc, &plan, &mut vault, &absent, &mut model);
    check!(&rt; less.is_ok());
    check!(&rt; added(&rt, alloc, &plan, &mut vault) == Err(AdditionFault::Lost(8)));
}
