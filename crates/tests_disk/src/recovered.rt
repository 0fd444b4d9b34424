// A disk that is opened again from the vault of an earlier run.
ghost use Rattle.std.specs.Prelude.{◌≡◌, ◌<◌};
ghost use Rattle.extent_groups.specs.Groups.{Agree};

use crate::asserts::check;
use crate::calls::publish_call;
use crate::journaled::disk_of;
use crate::model::{agree, write};
use crate::rig::plan_of;
use array_recovery::{RecoveryFault, recover};
use cached_drive::Saved;
use disk_shape::{Plan, class_of, member_at};
use extent_groups::{GroupTable, Place, are_there};
use extents::{DRIVES, ExtentTable};
use history::{Chronicle, Opened};
use std::alloc::Global;
use std::marker::Brand;
use std::process::Abort;
use vault::{MemVault, TABLE, Vault};

/// A vault with zeros in all units of the drives, and no lost drive in the table.
pub(crate) fn formatted(rt: &impl Abort, alloc: Global, plan: &Plan) -> MemVault {
    let mut vault = MemVault::new(alloc);
    let Ok(zeros) = vec![in alloc; 0u8; plan.shape.unit_bytes()] else {
        rt.panic("no memory")
    };
    let table = Place {
        drive: TABLE,
        address: 0,
    };
    let mut written = vault.write_unit(table, &[0; DRIVES]).is_ok();
    for drive in 0..plan.drives {
        for address in 0..plan.shape.drive_units() {
            written &= vault.write_unit(Place { drive, address }, &zeros).is_ok();
        }
    }
    check!(rt; written);
    vault
}

// Writes, and publishes each write.
fn run_once<N: Chronicle, V: Vault>(
    rt: &impl Abort,
    alloc: Global,
    plan: &Plan,
    opened: Opened<Saved>,
    vault: &mut V,
    model: &mut [u8],
)
    requires { opened ≡ N.chronicle }
{
    let (mut store, mut changes) = disk_of::<N>(rt, alloc, plan, opened);
    publish_call(rt, &mut store, &mut changes, vault);
    for piece in [
        (60usize, 9usize, 1u8),
        (0, 64, 20),
        (63, 130, 3),
        (999, 1, 40),
    ] {
        write(rt, alloc, &mut store, model, piece);
        publish_call(rt, &mut store, &mut changes, vault);
    }
}

/// The groups of a plan, and the owners of the extents.
pub(crate) fn groups_of(rt: &impl Abort, alloc: Global, plan: &Plan) -> (GroupTable, ExtentTable) {
    let (Ok(mut groups), Ok(mut extents)) = (
        GroupTable::new(alloc, &plan.shape),
        ExtentTable::new(alloc, plan.drives, &plan.shape),
    ) else {
        rt.panic("no memory")
    };
    check!(rt; groups.agrees(&extents));
    for group in 0..plan.groups {
        enter(rt, alloc, plan, group, &mut groups, &mut extents);
    }
    (groups, extents)
}

// Enters a group of a plan.
fn enter(
    rt: &impl Abort,
    alloc: Global,
    plan: &Plan,
    group: u16,
    groups: &mut GroupTable,
    extents: &mut ExtentTable,
)
    requires group { group < plan.now.groups }
    requires agree { Agree groups.old extents.old }
    ensures agree { Agree groups.new extents.new }
{
    let mut members = Vec::new(alloc);
    for index in 0..plan.members {
        let pushed = members.push(member_at(plan, group, index)).is_ok();
        check!(rt; pushed);
    }
    check!(rt; are_there(extents, &members) && groups.is_free(group));
    let put = groups.put_group(alloc, extents, group, class_of(plan, group), &members);
    check!(rt; put.is_ok());
}

// Opens the disk without the drives that are named; its bytes are the model's.
fn open_again<N: Chronicle, V: Vault>(
    rt: &impl Abort,
    alloc: Global,
    plan: &Plan,
    opened: Opened<Saved>,
    vault: &mut V,
    absent: &[bool; DRIVES],
    model: &mut [u8],
) -> Result<(), RecoveryFault>
    requires { opened ≡ N.chronicle }
{
    let (groups, extents) = groups_of(rt, alloc, plan);
    let (mut store, mut changes) = recover::<N, V>(
        alloc,
        vault,
        opened,
        &plan.shape,
        groups,
        extents,
        plan.drives,
        plan.size,
        absent,
    )?;
    check!(rt; agree(rt, &mut store, model));
    write(rt, alloc, &mut store, model, (500, 100, 7));
    publish_call(rt, &mut store, &mut changes, vault);
    Ok(())
}

/// A history that nobody has.
pub(crate) fn opened_in(rt: &impl Abort, alloc: Global) -> Opened<Saved> {
    let Ok(opened) = Opened::new(alloc) else {
        rt.panic("no memory")
    };
    opened
}

/// The first run of a disk.
pub(crate) fn begin<V: Vault>(
    rt: &impl Abort,
    alloc: Global,
    plan: &Plan,
    vault: &mut V,
    model: &mut [u8],
) {
    let opened = opened_in(rt, alloc);
    run_once::<Brand, V>(rt, alloc, plan, opened, vault, model);
}

/// Each later run, without the drives that are named.
pub(crate) fn go_on<V: Vault>(
    rt: &impl Abort,
    alloc: Global,
    plan: &Plan,
    vault: &mut V,
    absent: &[bool; DRIVES],
    model: &mut [u8],
) -> Result<(), RecoveryFault> {
    let opened = opened_in(rt, alloc);
    open_again::<Brand, V>(rt, alloc, plan, opened, vault, absent, model)
}

#[test]
fn a_disk_is_opened_with_the_bytes_that_were_published(rt: HostRuntime) {
    let alloc = rt.alloc();
    let plan = plan_of(&rt, 1000, 64);
    let mut vault = formatted(&rt, alloc, &plan);
    let mut model = [0u8; 1000];
    begin(&rt, alloc, &plan, &mut vault, &mut model);

    let all = [false; DRIVES];
    let again = go_on(&rt, alloc, &plan, &mut vault, &all, &mut model);
    check!(&rt; again.is_ok());

    // Without a drive, and then with the mark that it is lost.
    let mut absent = all;
    absent[2] = true;
    let again = go_on(&rt, alloc, &plan, &mut vault, &absent, &mut model);
    check!(&rt; again.is_ok());
    let again = go_on(&rt, alloc, &plan, &mut vault, &all, &mut model);
    check!(&rt; again.is_ok());

    absent[3] = true;
    let again = go_on(&rt, alloc, &plan, &mut vault, &absent, &mut model);
    check!(&rt; matches!(again, Err(RecoveryFault::Gone(_))));
}
