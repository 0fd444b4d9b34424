// Two levels over disks of one's own.
use crate::disk::Disk;
use crate::kept::open_disks;
use crate::volume::array_over;
use anyhow::{Result, bail, ensure};
use file_drive::FileDrive;
use map_join::Record;
use std::alloc::Global;
use step_core::{Array, Class, Drive, Given, Member, Plain, Shape, World};
use tiered_array::{Outcome, Tiers};

// Two levels over an array.
fn tiers_of<D: Drive + Drop>(alloc: Global, array: Array<D, Plain>) -> Result<Tiers<D>> {
    match World::of(alloc, array) {
        Ok(world) => Ok(Tiers::new(alloc, world)?),
        Err(_array) => bail!("no memory"),
    }
}

// Makes a group of an extent of this number on each of three drives.
fn make<D: Drive>(alloc: Global, tiers: &mut Tiers<D>, class: Class, extent: u16) -> Result<()> {
    let members = [0, 1, 2].map(|drive| Member { drive, extent });
    tiers.make(alloc, class, &members)?;
    Ok(())
}

// Writes a block of eight bytes: two copies.
fn write<D: Drive>(
    alloc: Global,
    tiers: &mut Tiers<D>,
    block: u32,
    payload: [u8; 8],
) -> Result<()> {
    let shape = tiers.world().array().shape();
    ensure!(block < shape.blocks && shape.payload == 8, "another shape");
    tiers.write(alloc, block, Given::Payload(&payload))?;
    Ok(())
}

// Demotes the block that was written longest ago: its record in a parity group.
fn demote<D: Drive>(alloc: Global, tiers: &mut Tiers<D>) -> Result<Record> {
    match tiers.demote(alloc)? {
        Outcome::Placed(record) => Ok(record),
        _ => bail!("not demoted"),
    }
}

// Makes a group of each class, writes two blocks in two copies, and demotes the older one: its record in the parity group.
fn demote_older<D: Drive>(alloc: Global, tiers: &mut Tiers<D>) -> Result<Record> {
    make(alloc, tiers, Class::Mirrored, 0)?;
    make(alloc, tiers, Class::Parity, 1)?;
    write(alloc, tiers, 3, [7; 8])?;
    write(alloc, tiers, 5, [9; 8])?;
    let record = demote(alloc, tiers)?;
    tiers.sync();
    Ok(record)
}

/// Writes two blocks over three disks of zeros, and demotes the older one: its record there.
pub(crate) fn use_levels(alloc: Global, shape: Shape) -> Result<Record> {
    let disks: Vec<FileDrive<Disk>> = open_disks(alloc, &shape)?;
    let mut tiers = tiers_of(alloc, array_over(alloc, shape, disks)?)?;
    demote_older(alloc, &mut tiers)
}
