// Two levels over drives in files, which are closed and opened again.
ghost use Rattle.std.specs.Prelude.{IsTrue};
ghost use Rattle.unit_store.specs.Fit.{IsFit};

use crate::asserts::check;
use crate::commands::{four_groups, reads_all, small_shape, trim, use_balance, use_plans};
use crate::rig::{demote, grouped, is_record, reads, shape_of, world_with, write};
use crate::steps::run_all;
use extents::{Drive, Shape};
use file_drive::{FileDrive, OnFile};
use header_scan::restart;
use std::alloc::{Alloc, Global};
use std::fs::{File, Files, OpenOptions};
use std::process::Abort;
use step_core::{Array, Plain, World};
use tiered_array::Tiers;
use unit_store::Parts;

type Filed = FileDrive<OnFile>;

// The names of the drives' files.
const NAMES: [&str; 4] = ["zero", "one", "two", "three"];

// Makes a file of a drive's length, all zero.
fn make_file(rt: &(impl Abort + Files<File = File>), name: &str, shape: &Shape) {
    let bytes = shape.unit_bytes() as u64 * u64::from(shape.drive_units());
    let opened = OpenOptions::new()
        .write(true)
        .create(true)
        .truncate(true)
        .open(rt, name);
    let Ok(file) = opened else {
        rt.panic("no file")
    };
    let sized = file.set_len(bytes).is_ok();
    check!(rt; sized);
}

// The drive that a file holds.
fn open(rt: &(impl Abort + Files<File = File>), alloc: Global, name: &str, shape: &Shape) -> Filed {
    let Ok(file) = OpenOptions::new().read(true).write(true).open(rt, name) else {
        rt.panic("no file")
    };
    let Ok(drive) = FileDrive::open(alloc, shape, OnFile { file }) else {
        rt.panic("no drive")
    };
    drive
}

fn open_all(rt: &(impl Abort + Files<File = File>), alloc: Global, shape: &Shape) -> Vec<Filed> {
    let mut drives = Vec::new(alloc);
    for name in NAMES {
        let pushed = drives.push(open(rt, alloc, name, shape)).is_ok();
        check!(rt; pushed);
    }
    drives
}

// Writes blocks 3 and 5, demotes 3, writes 5 again, and trims nothing.
fn use_all(rt: &(impl Abort + Files<File = File>), alloc: Global, tiers: &mut Tiers<Filed>) {
    check!(rt;
        is_record(
            write(rt, alloc, tiers, 3, [3, 1, 2, 3, 4, 5, 6, 7]),
            3,
            1,
            0,
            0
        )
    );
    check!(rt;
        is_record(
            write(rt, alloc, tiers, 5, [5, 9, 8, 7, 6, 5, 4, 3]),
            5,
            1,
            0,
            1
        )
    );
    check!(rt; is_record(demote(rt, alloc, tiers), 3, 1, 1, 128));
    check!(rt;
        is_record(
            write(rt, alloc, tiers, 5, [6, 6, 7, 7, 8, 8, 9, 9]),
            5,
            2,
            0,
            0
        )
    );
}

fn holds_all(rt: &(impl Abort + Files<File = File>), tiers: &mut Tiers<Filed>) -> bool {
    reads(rt, tiers, 3, 1, [3, 1, 2, 3, 4, 5, 6, 7])
        && reads(rt, tiers, 5, 2, [6, 6, 7, 7, 8, 8, 9, 9])
}

// The array's parts over the same files, opened again, and the claims of the places.
fn reopened(
    rt: &(impl Abort + Files<File = File>),
    alloc: Global,
    tiers: Tiers<Filed>,
) -> (Parts<Filed>, Vec<Plain>) {
    let Ok((parts, claims)) = tiers.into_world().into_array().into_parts(alloc) else {
        rt.panic("no memory")
    };
    let Parts {
        shape,
        groups,
        extents,
        drives,
        note,
    } = parts;
    for drive in drives {
        check!(rt; drive.close().is_ok());
    }
    let drives = open_all(rt, alloc, &shape);
    (
        Parts {
            shape,
            groups,
            extents,
            drives,
            note,
        },
        claims,
    )
}

fn are_fit<D: Drive>(parts: &Parts<D>) -> bool
    ensures { IsTrue result → IsFit D.units parts.now }
{
    parts.is_fit()
}

fn restarted(
    rt: &(impl Abort + Files<File = File>),
    alloc: Global,
    parts: Parts<Filed>,
    claims: Vec<Plain>,
) -> Tiers<Filed> {
    check!(rt; are_fit(&parts));
    let (array, _free): (Array<Filed, Plain>, Vec<Plain>) = match restart(alloc, parts, claims) {
        Ok(made) => made,
        Err(_) => rt.panic("no restart"),
    };
    let Ok(world) = World::of(alloc, array) else {
        rt.panic("no world")
    };
    let Ok(tiers) = Tiers::new(alloc, world) else {
        rt.panic("no tiers")
    };
    tiers
}

// A world over empty files.
fn filed_world(
    rt: &(impl Abort + Files<File = File>),
    alloc: Global,
    shape: Shape,
) -> World<Filed> {
    for name in NAMES {
        make_file(rt, name, &shape);
    }
    world_with(rt, alloc, shape, open_all(rt, alloc, &shape))
}

// A file may fail by itself, so a run over files neither adds nor loses a drive.
#[test]
fn steps_that_swap_no_drive_run_over_files(rt: HostRuntime) {
    let alloc = rt.alloc();
    run_all(&rt, alloc, filed_world(&rt, alloc, shape_of(&rt)));
}

#[test]
fn commands_of_a_script_work_over_files(rt: HostRuntime) {
    let alloc = rt.alloc();
    let world = filed_world(&rt, alloc, small_shape(&rt));
    let mut tiers = four_groups(&rt, alloc, world);
    use_plans(&rt, alloc, &mut tiers);
    check!(&rt; reads_all(&rt, &mut tiers));
    trim(&rt, alloc, &mut tiers, 2);
}

#[test]
fn groups_are_balanced_over_files(rt: HostRuntime) {
    let alloc = rt.alloc();
    use_balance(&rt, alloc, filed_world(&rt, alloc, small_shape(&rt)));
}

#[test]
fn blocks_of_two_levels_are_read_from_files_that_were_closed(rt: HostRuntime) {
    let alloc = rt.alloc();
    let world = filed_world(&rt, alloc, shape_of(&rt));
    let mut tiers = grouped(&rt, alloc, world);
    use_all(&rt, alloc, &mut tiers);
    check!(rt; holds_all(&rt, &mut tiers));
    let (parts, claims) = reopened(&rt, alloc, tiers);
    let mut tiers = restarted(&rt, alloc, parts, claims);
    check!(rt; holds_all(&rt, &mut tiers));
}
