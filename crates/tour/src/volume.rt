// An array over drives of any type, with claims from a desk.
ghost use Rattle.std.specs.Prelude.{◌≡◌, IsTrue};
ghost use Rattle.extent_groups.specs.Calls.{AreSized};
ghost use Rattle.unit_store.specs.Fit.{HaveUnitCount};

use crate::counted::Counted;
use crate::desk::{Desk, Seat};
use anyhow::{Context, Result, bail, ensure};
use map_join::Record;
use std::alloc::Global;
use step_core::{Array, Class, Drive, Hold, MemDrive, Member, Refusal, Shape, TakeBack, Ticket};

/// An array, and the desk that its claims come from.
#[derive(Drop)]
pub(crate) struct Volume<D: Drive> {
    pub(crate) alloc: Global,
    pub(crate) array: Array<D, Seat>,
    pub(crate) desk: Desk,
}

/// Four drives of eight extents of two segments, and payloads of eight bytes, for sixteen blocks.
pub(crate) fn new_drives(alloc: Global) -> Result<(Shape, Vec<Counted<MemDrive>>)> {
    let Ok(shape) = Shape::new(8, 2, 8, 16) else {
        bail!("a size is out of range");
    };
    let mut drives = Vec::new(alloc);
    for _made in 0..4 {
        drives.push(Counted::new(MemDrive::new(alloc, &shape)?))?;
    }
    Ok((shape, drives))
}

/// Whether each unit of the drives has `bytes` bytes.
pub(crate) fn are_sized<D: Drive>(drives: &[D], bytes: usize) -> bool
    ensures { IsTrue result → AreSized D.units bytes drives.now }
{
    drives.iter().all(|drive| drive.unit_bytes() == bytes)
}

// Whether each drive has `units` units.
fn have_units<D: Drive>(drives: &[D], units: u32) -> bool
    ensures { IsTrue result → HaveUnitCount D.units drives.now units }
{
    drives.iter().all(|drive| drive.units() == units)
}

/// An array over these drives, with no group.
pub(crate) fn array_over<D: Drive + Drop, C: Hold>(
    alloc: Global,
    shape: Shape,
    drives: Vec<D>,
) -> Result<Array<D, C>> {
    ensure!(3 <= drives.len() && drives.len() <= 16, "3 to 16 drives");
    ensure!(
        are_sized(&drives, shape.unit_bytes()),
        "units of another size"
    );
    ensure!(
        have_units(&drives, shape.drive_units()),
        "drives of another size"
    );
    match Array::new(alloc, shape, drives) {
        Ok(array) => Ok(array),
        Err((refusal, _drives)) => Err(refusal.into()),
    }
}

impl<D: Drive + Drop> Volume<D> {
    /// An array over these drives, with no group.
    pub(crate) fn new(
        alloc: Global,
        shape: Shape,
        drives: Vec<D>,
        desk: Desk,
    ) -> Result<Volume<D>> {
        let array = array_over(alloc, shape, drives)?;
        Ok(Volume { alloc, array, desk })
    }

    /// Makes a group of an extent of this number on each of three drives: its number.
    pub(crate) fn make(&mut self, class: Class, drives: [u8; 3], extent: u16) -> Result<u16> {
        let members = drives.map(|drive| Member { drive, extent });
        // No seats come: the array keeps those of a dissolved group, and none was dissolved.
        let (group, _seats) = self.array.make_group(self.alloc, class, &members)?;
        Ok(group)
    }

    /// Writes a block at a slot.
    pub(crate) fn write(&mut self, slot: u16, block: u32, payload: &[u8; 8]) -> Result<Record> {
        ensure!(self.array.shape().payload == 8, "another length");
        let seat = self.desk.take(slot).context("the claim is out")?;
        let filled = self.array.fill(seat, payload);
        self.commit(filled, block)
    }

    /// Copies a block to a slot.
    pub(crate) fn copy(&mut self, slot: u16, block: u32) -> Result<Record> {
        ensure!(block < self.array.shape().blocks, "no such block");
        let seat = self.desk.take(slot).context("the claim is out")?;
        let copied = self.array.copy(seat, block);
        self.commit(copied, block)
    }

    /// Trims a block, with its record at a slot.
    pub(crate) fn trim(&mut self, slot: u16, block: u32) -> Result<Record> {
        let seat = self.desk.take(slot).context("the claim is out")?;
        let trimmed = self.array.trim(seat);
        self.commit(trimmed, block)
    }

    // Commits what waits. The claim that is free then goes to the desk. A refusal is taken too, so that its claim goes back
    // here and nowhere else.
    fn commit(&mut self, waits: Result<Ticket, (Refusal, Seat)>, block: u32) -> Result<Record> {
        let ticket = match waits {
            Ok(ticket) => ticket,
            Err((refusal, seat)) => {
                self.desk.take_back(seat);
                return Err(refusal.into());
            }
        };
        // `commit` requires a block of the array. The ticket is discarded, else it would hold its slot.
        if block >= self.array.shape().blocks {
            self.give_up(ticket);
            bail!("no such block");
        }
        match self.array.commit(self.alloc, ticket, block) {
            Ok(done) => {
                if let Some(seat) = done.old {
                    self.desk.take_back(seat);
                }
                Ok(done.emitted.record())
            }
            Err((refusal, ticket)) => {
                self.give_up(ticket);
                Err(refusal.into())
            }
        }
    }

    // Lets go of a slot that waits: its claim goes to the desk.
    fn give_up(&mut self, ticket: Ticket) {
        if let Ok(seat) = self.array.discard(ticket) {
            self.desk.take_back(seat);
        }
    }

    /// The payload of a block, none where it is absent.
    pub(crate) fn find(&mut self, block: u32) -> Result<Option<[u8; 8]>> {
        let shape = self.array.shape();
        ensure!(block < shape.blocks && shape.payload == 8, "no such block");
        let mut payload = [0; 8];
        let version = self.array.read_into(block, &mut payload)?;
        Ok(version.map(|_| payload))
    }

    /// The payload of a block that isn't absent.
    pub(crate) fn read(&mut self, block: u32) -> Result<[u8; 8]> {
        self.find(block)?.context("the block is absent")
    }

    /// Whether the claim of a slot is at the desk.
    pub(crate) fn is_free(&self, slot: u16) -> bool {
        self.desk.has(slot)
    }
}
