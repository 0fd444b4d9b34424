//! A tour of the library: a disk, a drive and a claim of one's own, an array and two levels over them, a lost drive, a restart,
//! and block maps.
#![tactic(auto)]

mod counted;
mod desk;
mod disk;
mod kept;
mod levels;
mod maps;
mod restarts;
mod volume;
mod watched;

use anyhow::Result;
use counted::Counted;
use desk::Desk;
use kept::keep;
use levels::use_levels;
use map_join::{BlockMap, Record};
use maps::{backwards, map_of, merge};
use std::alloc::Global;
use std::process::ExitCode;
use step_core::{Class, MemDrive, Shape};
use volume::{Volume, new_drives};

// The drives that the tour counts the calls of.
type Tested = Counted<MemDrive>;

fn main(rt: HostRuntime) -> ExitCode {
    match tour(&rt, rt.alloc()) {
        Ok(()) => ExitCode::SUCCESS,
        Err(error) => {
            let _ = eprintln!(rt; "tour: {error}");
            ExitCode::FAILURE
        }
    }
}

fn tour(rt: &impl Print, alloc: Global) -> Result<()> {
    let (shape, drives) = new_drives(alloc)?;
    use_disks(rt, alloc, shape)?;
    println!(rt; "drives: {} of {} units", drives.len(), shape.drive_units())?;
    use_volume(rt, alloc, Volume::new(alloc, shape, drives, Desk::new())?)
}

// An array over disks crashes, and a block of another one is demoted.
fn use_disks(rt: &impl Print, alloc: Global, shape: Shape) -> Result<()> {
    let (durable, other) = keep(alloc, shape)?;
    println!(rt; "after a crash: {durable:?}, without a sync: {other:?}")?;
    report(rt, "demote", use_levels(alloc, shape)?)
}

fn use_volume(rt: &impl Print, alloc: Global, volume: Volume<Tested>) -> Result<()> {
    let mut volume = volume;
    let records = use_all(rt, &mut volume)?;
    let volume = lose_one(rt, volume)?;
    let volume = compare(rt, alloc, volume, &records)?;
    let (desk, calls) = volume.end();
    println!(rt;
        "calls of the drives: {calls:?}, all claims are at the desk: {}",
        desk.is_full()
    )?;
    Ok(())
}

// Two blocks are written, one is copied into the parity group, the other is trimmed: their records.
fn use_all(rt: &impl Print, volume: &mut Volume<Tested>) -> Result<Vec<Record>> {
    let mirrored = volume.make(Class::Mirrored, [0, 1, 2], 0)?;
    let parity = volume.make(Class::Parity, [1, 2, 3], 1)?;
    println!(rt; "groups: {mirrored} is mirrored, {parity} has parity")?;
    report(rt, "write", volume.write(0, 3, &[3; 8])?)?;
    report(rt, "write", volume.write(1, 5, &[5; 8])?)?;
    report(rt, "copy", volume.copy(128, 3)?)?;
    report(rt, "trim", volume.trim(2, 5)?)?;
    let free = [0, 1, 2, 128].map(|slot| volume.is_free(slot));
    println!(rt; "claims of slots 0, 1, 2, 128 are at the desk: {free:?}")?;
    Ok(volume.array.records_from(volume.alloc, 0)?)
}

// Prints a record.
fn report(rt: &impl Print, what: &str, record: Record) -> Result<()> {
    println!(rt;
        "{what}: block {}, version {}, hop {}, slot {}",
        record.block, record.version, record.hop, record.place
    )?;
    Ok(())
}

// Reads block 3, loses the drive that has its unit, and reads it again.
fn lose_one(rt: &impl Print, mut volume: Volume<Tested>) -> Result<Volume<Tested>> {
    let before = volume.read(3)?;
    let mut volume = volume.restart_without(1)?;
    let after = volume.read(3)?;
    println!(rt;
        "block 3 without drive 1: {after:?}, as before: {}",
        before == after
    )?;
    Ok(volume)
}

// Maps of the records in two orders agree, and merged they are the map of the headers.
fn merge_both(
    rt: &impl Print,
    alloc: Global,
    scanned: &BlockMap,
    records: &[Record],
) -> Result<()> {
    let mut one = map_of(alloc, records)?;
    let other = map_of(alloc, &backwards(alloc, records)?)?;
    let same = one.agrees(&other);
    merge(alloc, &mut one, &other)?;
    let merged = one.agrees(scanned);
    println!(rt;
        "two maps of {} records agree: {same}, merged with the scan: {merged}",
        records.len()
    )?;
    Ok(())
}

// The map of the headers is the array's, and that of the records in any order.
fn compare(
    rt: &impl Print,
    alloc: Global,
    volume: Volume<Tested>,
    records: &[Record],
) -> Result<Volume<Tested>> {
    let (volume, scanned, headers) = volume.scan()?;
    let running = volume.array.map(alloc)?;
    let same = scanned.agrees(&running);
    println!(rt; "a scan of {headers} headers has the array's map: {same}")?;
    merge_both(rt, alloc, &scanned, records)?;
    Ok(volume)
}
