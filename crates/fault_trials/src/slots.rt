// Drives whose units are written manually, and scans of them.
ghost use Rattle.std.specs.Prelude.{◌≡◌, IsTrue};
ghost use Rattle.extent_groups.specs.Stores.{unit_bytes};
ghost use Rattle.unit_store.specs.Fit.{IsFit};
ghost use Rattle.unit_store.specs.Memory.{held_units};
ghost use Rattle.unit_store.specs.Slots.{IsSlot};

use crate::case::read_case;
use crate::runs::run;
use crate::trouble::Trouble;
use crate::walk::Placed;
use extent_groups::{GroupTable, SLOTS};
use header_scan::{ScanFault, restart, scan};
use map_join::BlockMap;
use std::alloc::{AllocError, Global};
use step_core::{MemDrive, Plain, World};
use unit_store::Parts;

/// Slots 0 to 5 are mirrored, slots 128 to 135 have parity.
const GROUPS: &str =
    "array 4 8 2 8 16\nmirrored 0 0 1 0 2 0 > made 0\nparity 1 1 2 1 3 1 > made 1\n";

/// Bytes of a unit, and of two.
const UNIT: usize = 40;

const TWO_UNITS: usize = 80;

/// Drives with two groups, and the header of each of their slots, by number.
#[derive(Drop)]
pub(crate) struct Slots {
    parts: Parts<MemDrive>,
    pub(crate) placed: Vec<Placed>,
}

/// Whether the parts fit one another.
pub(crate) fn are_fit(parts: &Parts<MemDrive>) -> bool
    ensures { IsTrue result → IsFit held_units parts.now }
{
    parts.is_fit()
}

// Whether the slot is one of a made group.
fn is_slot(groups: &GroupTable, slot: u16) -> bool
    ensures { IsTrue result → IsSlot groups.now slot }
{
    slot % SLOTS < groups.slots_of(slot / SLOTS)
}

// A world with the two groups.
fn grouped(alloc: Global) -> Result<World, Trouble> {
    let case = read_case(alloc, GROUPS)?;
    let part = &case.following;
    run(alloc, case.world(alloc)?, &part.steps, &part.expected)
}

// The slots of the two groups, each with a blank header.
fn blank(alloc: Global) -> Result<Vec<Placed>, AllocError> {
    let mut placed = Vec::new(alloc);
    for slot in (0..6u16).chain(128..136) {
        placed.push((slot, [0; 32]))?;
    }
    Ok(placed)
}

fn unit_of(header: [u8; 32], payload: [u8; 8]) -> [u8; UNIT] {
    let mut unit = [0; UNIT];
    unit[..32].copy_from_slice(&header);
    unit[32..].copy_from_slice(&payload);
    unit
}

impl Slots {
    /// Blank slots.
    pub(crate) fn new(alloc: Global) -> Result<Slots, Trouble> {
        Slots::of(alloc, grouped(alloc)?)
    }

    // Whether the parts fit, and units have their length. Reads and writes of slots require it.
    fn is_ready(&self) -> bool
        ensures fit { IsTrue result → IsFit held_units self.now.parts }
        ensures unit { IsTrue result → 40 ≡ unit_bytes self.now.parts.groups }
    {
        self.parts.groups.shape().unit_bytes() == UNIT && are_fit(&self.parts)
    }

    // Notes a header at one of the slots, counted from 0: the slot.
    fn place(&mut self, at: usize, header: [u8; 32]) -> Option<u16> {
        let place = self.placed.get_mut(at)?;
        place.1 = header;
        Some(place.0)
    }

    /// The drives of a world that has the two groups.
    pub(crate) fn of(alloc: Global, world: World) -> Result<Slots, Trouble> {
        let Ok((parts, _claims)) = world.into_array().into_parts(alloc) else {
            return Err(Trouble::Memory);
        };
        Ok(Slots {
            parts,
            placed: blank(alloc)?,
        })
    }

    /// Loses a drive.
    pub(crate) fn lose(&mut self, drive: u8) -> Result<(), Trouble> {
        if !self.is_ready() || usize::from(drive) >= self.parts.drives.len() {
            return Err(Trouble::Input);
        }
        self.parts.lose(drive);
        Ok(())
    }

    /// Writes a header and a payload to a slot.
    pub(crate) fn put_at(
        &mut self,
        slot: u16,
        header: [u8; 32],
        payload: [u8; 8],
    ) -> Result<(), Trouble> {
        match self.placed.iter().position(|placed| placed.0 == slot) {
            Some(at) => self.put(at, header, payload),
            None => Err(Trouble::Input),
        }
    }

    /// The unit of a slot.
    pub(crate) fn unit(&mut self, slot: u16) -> Result<[u8; UNIT], Trouble> {
        if !self.is_ready() || !is_slot(&self.parts.groups, slot) {
            return Err(Trouble::Input);
        }
        let mut unit = [0; UNIT];
        match self.parts.read(slot, &mut unit, &mut [0; TWO_UNITS]) {
            Ok(()) => Ok(unit),
            Err(_) => Err(Trouble::Wrong),
        }
    }

    /// A world of the array that is restarted over these drives, with a claim of each slot; or the restart's fault. All slots,
    /// because which ones the restart keeps is what it finds.
    pub(crate) fn restart(self, alloc: Global) -> Result<Result<World, ScanFault>, Trouble> {
        let mut claims = Vec::new(alloc);
        for placed in &self.placed {
            claims.push(Plain { slot: placed.0 })?;
        }
        if !are_fit(&self.parts) {
            return Err(Trouble::Input);
        }
        match restart(alloc, self.parts, claims) {
            Ok((array, _others)) => match World::of(alloc, array) {
                Ok(world) => Ok(Ok(world)),
                Err(_) => Err(Trouble::Memory),
            },
            Err((ScanFault::Memory, _, _)) => Err(Trouble::Memory),
            Err((fault, _, _)) => Ok(Err(fault)),
        }
    }

    /// Writes a header and a payload to one of the slots, counted from 0.
    pub(crate) fn put(
        &mut self,
        at: usize,
        header: [u8; 32],
        payload: [u8; 8],
    ) -> Result<(), Trouble> {
        let slot = self.place(at, header).ok_or(Trouble::Input)?;
        if !self.is_ready() || !is_slot(&self.parts.groups, slot) {
            return Err(Trouble::Input);
        }
        match self
            .parts
            .write(slot, &unit_of(header, payload), &mut [0; TWO_UNITS])
        {
            Ok(()) => Ok(()),
            Err(_) => Err(Trouble::Wrong),
        }
    }

    /// The map of the headers of all slots, or the first fault.
    pub(crate) fn scan(&mut self, alloc: Global) -> Result<Result<BlockMap, ScanFault>, Trouble> {
        if !self.is_ready() {
            return Err(Trouble::Input);
        }
        match scan(alloc, &mut self.parts) {
            Err(ScanFault::Memory) => Err(Trouble::Memory),
            reported => Ok(reported),
        }
    }
}
