// A drive in memory that is written through to a backing. It reads from memory, so that its promises depend on nothing that the
// system does. Where the backing's type knows its bytes, they are the units' image.
ghost use Rattle.std.specs.Prelude.{◌≡◌, ◌+◌, ◌*◌, ◌<◌, true, false, length, slice_set, is_err, IfOk, IfErr, OnOk, IsTrue};
ghost use Rattle.extents.specs.declared.mem_drive.Condition.TheVariants.{Present};
ghost use Rattle.extents.specs.declared.shape.TheConstants.{HEADER_BYTES};
ghost use Rattle.extents.specs.Failures.{CountsFailure, StaysSteady, unsteady};
ghost use Rattle.extents.specs.Sizes.{extent_units};
ghost use Rattle.extents.specs.Units.{AreUnitsSized, loss};
ghost use Rattle.file_drive.specs.Files.{AreImageOf, HoldsImage, Overwrites};
ghost use Rattle.file_drive.specs.Refusals.{RefusesFor};

use crate::{Backing, OpenRefusal};
use extents::{Drive, DriveLost, MemDrive, Shape};
use images::ImageRefusal;
use std::alloc::Global;

/// Units in memory, and the backing that they are written through to. A write goes to the backing first, so that no read
/// returns what the backing lacks. One that fails or falls short loses the drive, whose backing may then hold a part of the
/// unit.
#[derive(Drop)]
pub struct FileDrive<B: Backing> {
    cache: MemDrive,
    backing: B,
    /// Bytes of each unit, in 32 bits, so that an address times it fits 64.
    size: u32,
    /// Kept here, because the cache is never lost: only the backing fails.
    lost: bool,
    ghost present: { cache.condition ≡ Present },
    ghost held: { lost ≡ false → HoldsImage (B.bytes backing) size cache.units },
}

impl<B: Backing + Drop> FileDrive<B> {
    /// The drive whose image the backing holds. Reads all of it and writes nothing. The refusals in order: Read, Length, Memory.
    pub fn open(alloc: Global, shape: &Shape, backing: B) -> Result<FileDrive<B>, OpenRefusal>
        ensures ok { IfOk result (λ d. HoldsImage (B.bytes backing) (HEADER_BYTES + shape.now.payload) d.cache.units) }
        ensures many { IfOk result (λ d. length d.cache.units ≡ shape.now.extents * extent_units shape.now.segments) }
        ensures sized { IfOk result (λ d. AreUnitsSized (HEADER_BYTES + shape.now.payload) d.cache.units) }
        ensures present { IfOk result (λ d. d.lost ≡ false) }
        ensures err { IfErr result (RefusesFor shape.now (B.bytes backing)) }
    {
        let mut backing = backing;
        let Ok(image) = backing.read_all(alloc) else {
            return Err(OpenRefusal::Read);
        };
        let cache = match images::load(alloc, shape, &image) {
            Ok(cache) => cache,
            Err(ImageRefusal::Memory) => return Err(OpenRefusal::Memory),
            Err(ImageRefusal::Length) => return Err(OpenRefusal::Length),
        };
        Ok(FileDrive {
            cache,
            backing,
            size: shape.unit_bytes() as u32,
            lost: false,
        })
    }

    /// The backing, which holds the units' image; refused where the drive is lost.
    pub fn close(self) -> Result<B, DriveLost>
        ensures ok { IfOk result (λ b. AreImageOf (B.bytes b) self.cache.units) }
        ensures lost { is_err result ≡ self.lost }
    {
        if self.lost {
            return Err(DriveLost);
        }
        Ok(self.backing)
    }
}

// Whether one write puts all of a piece.
fn is_written<B: Backing>(backing: &mut B, start: u64, piece: &[u8]) -> bool
    ensures { IsTrue result → Overwrites (B.bytes backing.old) start piece.now (B.bytes backing.new) }
{
    match backing.write_at(start, piece) {
        Ok(count) => count == piece.len(),
        Err(_) => false,
    }
}

// Writes a unit of a drive in memory that answers.
fn keep(cache: &mut MemDrive, at: u32, unit: &[u8])
    requires at { at < length cache.old.units }
    requires size { AreUnitsSized (length unit.now) cache.old.units }
    requires present { cache.old.condition ≡ Present }
    ensures present { cache.new.condition ≡ Present }
    ensures written { cache.new.units ≡ slice_set cache.old.units at unit.now }
{
    // The cache has no fuse and is never lost, so this write can't fail.
    let _ = cache.write_unit(at, unit);
}

impl<B: Backing> Drive for FileDrive<B> {
    ghost units = { λ d. d.cache.units };

    ghost lost = { λ d. d.lost };

    ghost failures = { λ d. unsteady (loss false d.lost) };

    fn units(&self) -> u32 {
        self.cache.units()
    }

    fn unit_bytes(&self) -> usize {
        self.cache.unit_bytes()
    }

    fn is_lost(&self) -> bool {
        self.lost
    }

    fn read_unit(&mut self, at: u32, unit: &mut [u8]) -> Result<(), DriveLost> {
        if self.lost {
            return Err(DriveLost);
        }
        self.cache.read_unit(at, unit)
    }

    fn read_front(
        &mut self,
        at: u32,
        front: &mut [u8],
        scratch: &mut [u8],
    ) -> Result<(), DriveLost> {
        if self.lost {
            return Err(DriveLost);
        }
        self.cache.read_front(at, front, scratch)
    }

    fn write_unit(&mut self, at: u32, unit: &[u8]) -> Result<(), DriveLost> {
        if self.lost {
            return Err(DriveLost);
        }
        let start = u64::from(at) * u64::from(self.size);
        // First the backing: where it fails, memory keeps the old unit.
        if !is_written(&mut self.backing, start, unit) {
            self.lost = true;
            return Err(DriveLost);
        }
        keep(&mut self.cache, at, unit);
        Ok(())
    }
    /// `sync` of the backing. No other call makes writes durable.
    fn sync(&mut self) -> Result<(), DriveLost>
        ensures units { self.new.cache.units ≡ self.old.cache.units }
        ensures lost { self.new.lost ≡ is_err result }
        ensures stays { self.old.lost ≡ true → self.new.lost ≡ true }
        ensures count { CountsFailure self.old.lost self.new.lost (unsteady (loss false self.old.lost)) (unsteady (loss false self.new.lost)) }
        ensures steady { StaysSteady self.old.lost self.new.lost (unsteady (loss false self.old.lost)) (unsteady (loss false self.new.lost)) }
        ensures durable { OnOk result (AreImageOf (B.durable self.new.backing) self.new.cache.units) }
    {
        // A failed sync loses the drive, since nobody knows which writes the backing keeps.
        if self.lost || self.backing.sync().is_err() {
            self.lost = true;
            return Err(DriveLost);
        }
        Ok(())
    }
}
