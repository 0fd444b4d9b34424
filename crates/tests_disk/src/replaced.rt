// A disk of which a drive is lost and replaced.
use crate::asserts::check;
use crate::recovered::{begin, formatted, go_on, groups_of};
use crate::rig::plan_of;
use array_recovery::find;
use disk_shape::Plan;
use drive_rebuild::{RebuildFault, Watch, replace_drive, scrub_parts};
use extent_groups::Place;
use extents::DRIVES;
use std::alloc::Global;
use std::process::Abort;
use unit_store::Parts;
use vault::Vault;

// Keeps the last counts.
struct Counted {
    units: u32,
    of: u32,
}

impl Watch for Counted {
    fn wrote(&mut self, units: u32, of: u32) {
        self.units = units;
        self.of = of;
    }
}

fn replaced<V: Vault>(
    rt: &impl Abort,
    alloc: Global,
    plan: &Plan,
    vault: &mut V,
    number: u8,
) -> Result<(), RebuildFault> {
    let (groups, extents) = groups_of(rt, alloc, plan);
    let mut counted = Counted { units: 0, of: 0 };
    let done = replace_drive(
        alloc,
        vault,
        &mut counted,
        &plan.shape,
        groups,
        extents,
        plan.drives,
        number,
    );
    check!(rt;
        done.is_err() || (counted.units == plan.shape.drive_units() && counted.of == counted.units)
    );
    let Counted { units: _, of: _ } = counted;
    done
}

// How many slots of the disk that a vault has aren't sound.
fn unsound<V: Vault>(rt: &impl Abort, alloc: Global, plan: &Plan, vault: &mut V) -> u32 {
    let Ok(found) = find(alloc, vault, &plan.shape, plan.drives, &[false; DRIVES]) else {
        rt.panic("nothing is found")
    };
    let (groups, extents) = groups_of(rt, alloc, plan);
    let mut parts = Parts {
        shape: plan.shape,
        groups,
        extents,
        drives: found.caches,
        note: None,
    };
    let Ok(findings) = scrub_parts(alloc, &mut parts) else {
        rt.panic("no memory")
    };
    check!(rt; findings.slots > 0 && findings.named.len() == findings.unsound as usize);
    findings.unsound
}

// Loses a drive, replaces it, and then loses another.
fn lose_and_replace(rt: &impl Abort, alloc: Global, plan: &Plan, number: u8, other: u8) {
    let mut vault = formatted(rt, alloc, plan);
    let mut model = [0u8; 1000];
    begin(rt, alloc, plan, &mut vault, &mut model);
    check!(rt; replaced(rt, alloc, plan, &mut vault, number) == Err(RebuildFault::NotLost));
    let mut absent = [false; DRIVES];
    absent[usize::from(number % 16)] = true;
    let gone = go_on(rt, alloc, plan, &mut vault, &absent, &mut model);
    check!(rt; gone.is_ok());

    // What lies at its places doesn't matter.
    let Ok(rubbish) = vec![in alloc; 0xa5u8; plan.shape.unit_bytes()] else {
        rt.panic("no memory")
    };
    for address in 0..plan.shape.drive_units() {
        let drive = number;
        let put = vault.write_unit(Place { drive, address }, &rubbish).is_ok();
        check!(rt; put);
    }
    check!(rt; replaced(rt, alloc, plan, &mut vault, number).is_ok());
    check!(rt; unsound(rt, alloc, plan, &mut vault) == 0);

    let all = go_on(rt, alloc, plan, &mut vault, &[false; DRIVES], &mut model);
    check!(rt; all.is_ok());
    let mut absent = [false; DRIVES];
    absent[usize::from(other % 16)] = true;
    let less = go_on(rt, alloc, plan, &mut vault, &absent, &mut model);
    check!(rt; less.is_ok());
    check!(rt; replaced(rt, alloc, plan, &mut vault, other).is_ok());
}

#[test]
fn each_drive_is_replaced_and_each_other_one_lost(rt: HostRuntime) {
    let alloc = rt.alloc();
    let plan = plan_of(&rt, 1000, 64);
    for number in 0..plan.drives {
        lose_and_replace(&rt, alloc, &plan, number, (number + 1) % 6);
        lose_and_replace(&rt, alloc, &plan, number, (number + 4) % 6);
    }
}

#[test]
fn a_changed_unit_is_found_and_stops_a_replacement(rt: HostRuntime) {
    let alloc = rt.alloc();
    let plan = plan_of(&rt, 1000, 64);
    let mut vault = formatted(&rt, alloc, &plan);
    let mut model = [0u8; 1000];
    begin(&rt, alloc, &plan, &mut vault, &mut model);
    let Ok(rubbish) = vec![in alloc; 1u8; plan.shape.unit_bytes()] else {
        rt.panic("no memory")
    };
    let place = Place {
        drive: 1,
        address: 0,
    };
    let settled = go_on(&rt, alloc, &plan, &mut vault, &[false; DRIVES], &mut model);
    check!(&rt; settled.is_ok());
    let mut batch = vault::Batch::new(alloc);
    let put = batch.push(place, &rubbish).is_ok() && vault.append(&batch).is_ok();
    check!(&rt; put);
    check!(&rt; unsound(&rt, alloc, &plan, &mut vault) == 1);
}
