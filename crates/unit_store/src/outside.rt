// Drives that are lost from outside.
ghost use Rattle.std.specs.Prelude.{◌≡◌, ◌<◌, ℕ, true, length};
ghost use Rattle.extents.specs.Failures.{settled};
ghost use Rattle.extent_groups.specs.Stores.{AreSound, KeepsUnits};
ghost use Rattle.flat_machine.specs.Flat.{put};
ghost use Rattle.unit_store.specs.Fit.{IsFit};
ghost use Rattle.unit_store.specs.Losses.{KeepsTables, LosesDrive, failures_by_drive};
ghost use Rattle.unit_store.specs.Slots.{cells_in, missing_in};

use crate::Parts;
use extents::HotSwap;

impl<D: HotSwap> Parts<D> {
    /// Loses a drive from outside.
    pub fn lose(&mut self, drive: u8)
        requires fit { IsFit D.units self.old }
        requires drive { drive < length self.old.drives.items }
        ensures lost { LosesDrive D.units D.lost D.failures self.old.drives.items self.new.drives.items drive }
        ensures missing { (d : ℕ) → missing_in D.lost self.new d ≡ put (missing_in D.lost self.old) drive true d }
        ensures failures { (d : ℕ) → failures_by_drive D.failures self.new.drives.items d
            ≡ put (failures_by_drive D.failures self.old.drives.items) drive (settled (failures_by_drive D.failures self.old.drives.items drive)) d }
        ensures units { AreSound self.old.groups (cells_in D.units D.lost self.old)
            → KeepsUnits self.old.groups (cells_in D.units D.lost self.old) (cells_in D.units D.lost self.new) }
        ensures sound { AreSound self.old.groups (cells_in D.units D.lost self.old) → AreSound self.new.groups (cells_in D.units D.lost self.new) }
        ensures tables { KeepsTables self.old self.new }
        ensures fit { IsFit D.units self.new }
    {
        self.drives[drive as usize].lose();
    }
}
