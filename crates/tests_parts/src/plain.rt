// A drive that has the methods which a drive has to have, and no more.
ghost use Rattle.std.specs.Prelude.{◌≡◌};
ghost use Rattle.extents.specs.Condition.{is_gone, failures_of};

use extents::{Drive, DriveLost, MemDrive, Shape};
use std::alloc::Global;
use std::process::Abort;

/// A drive in memory of which units are read and written whole.
#[derive(Drop)]
pub(crate) struct PlainDrive {
    drive: MemDrive,
}

impl PlainDrive {
    /// A drive of zeros, with the units of this shape, that answers `left` calls.
    pub(crate) fn new(rt: &impl Abort, alloc: Global, shape: &Shape, left: u64) -> PlainDrive {
        let Ok(mut drive) = MemDrive::new(alloc, shape) else {
            rt.panic("no drive")
        };
        drive.fuse(left.saturating_add(1));
        PlainDrive { drive }
    }

    /// Loses the drive at its next call.
    pub(crate) fn end(&mut self) {
        self.drive.fuse(1);
    }
}

impl Drive for PlainDrive {
    ghost units = { λ p. p.drive.units };

    ghost lost = { λ p. is_gone p.drive.condition };

    ghost failures = { λ p. failures_of p.drive.condition };

    fn units(&self) -> u32 {
        self.drive.units()
    }

    fn unit_bytes(&self) -> usize {
        self.drive.unit_bytes()
    }

    fn is_lost(&self) -> bool {
        self.drive.is_lost()
    }

    fn read_unit(&mut self, at: u32, unit: &mut [u8]) -> Result<(), DriveLost> {
        self.drive.read_unit(at, unit)
    }

    fn write_unit(&mut self, at: u32, unit: &[u8]) -> Result<(), DriveLost> {
        self.drive.write_unit(at, unit)
    }

    fn sync(&mut self) -> Result<(), DriveLost> {
        self.drive.sync()
    }
}
