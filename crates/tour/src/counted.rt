// A drive that counts its calls.
ghost use Rattle.std.specs.Prelude.{◌≡◌, true};
ghost use Rattle.extents.specs.Condition.{is_gone};
ghost use Rattle.extents.specs.Units.{AreUnitsSized};

use extents::{Drive, DriveLost, HotSwap, MemDrive};

/// A drive, and how many reads and writes it was asked for.
#[derive(Drop)]
pub(crate) struct Counted<D> {
    drive: D,
    calls: u64,
}

impl<D: Drive> Counted<D> {
    /// A drive that was asked for none.
    pub(crate) fn new(drive: D) -> Counted<D> {
        Counted { drive, calls: 0 }
    }

    /// How many reads and writes it was asked for, those that failed too.
    pub(crate) fn calls(&self) -> u64 {
        self.calls
    }

    // Counts a call, before it is made: one that fails counts too.
    fn count(&mut self)
        ensures { self.new.drive ≡ self.old.drive }
    {
        self.calls = self.calls.saturating_add(1);
    }
}

impl<D: Drive> Drive for Counted<D> {
    ghost units = { λ c. D.units c.drive };

    ghost lost = { λ c. D.lost c.drive };

    ghost failures = { λ c. D.failures c.drive };

    fn units(&self) -> u32 {
        self.drive.units()
    }

    fn unit_bytes(&self) -> usize {
        self.drive.unit_bytes()
    }

    fn is_lost(&self) -> bool {
        self.drive.is_lost()
    }

    fn read_unit(&mut self, at: u32, unit: &mut [u8]) -> Result<(), DriveLost> {
        self.count();
        self.drive.read_unit(at, unit)
    }

    fn write_unit(&mut self, at: u32, unit: &[u8]) -> Result<(), DriveLost> {
        self.count();
        self.drive.write_unit(at, unit)
    }

    fn sync(&mut self) -> Result<(), DriveLost> {
        self.drive.sync()
    }
}

impl Counted<MemDrive> {
    /// Loses the drive.
    pub(crate) fn lose(&mut self)
        ensures lost { is_gone self.new.drive.condition ≡ true }
        ensures units { self.new.drive.units ≡ self.old.drive.units }
    {
        self.drive.lose();
    }
}
