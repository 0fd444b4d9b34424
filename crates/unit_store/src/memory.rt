// Drives in memory that are given a fuse.
ghost use Rattle.std.specs.Prelude.{◌≡◌, ◌<◌, ◌≤◌, ℕ, true, length};
ghost use Rattle.extents.specs.Condition.{after_fuse};
ghost use Rattle.extents.specs.Failures.{fused};
ghost use Rattle.extent_groups.specs.Stores.{AreSound, KeepsUnits};
ghost use Rattle.flat_machine.specs.Flat.{put};
ghost use Rattle.unit_store.specs.Fit.{IsFit};
ghost use Rattle.unit_store.specs.Losses.{KeepsTables, failures_by_drive};
ghost use Rattle.unit_store.specs.Memory.{held_units, held_lost, held_failures, IsSetTo};
ghost use Rattle.unit_store.specs.Slots.{cells_in, missing_in};

use crate::Parts;
use extents::MemDrive;

impl Parts<MemDrive> {
    /// Makes a drive fail at its `calls`-th read or write from now (1 = the next) and at all later ones. A lost drive stays
    /// as it is.
    pub fn fuse(&mut self, drive: u8, calls: u64)
        requires fit { IsFit held_units self.old }
        requires drive { drive < length self.old.drives.items }
        requires calls { 1 ≤ calls }
        ensures fused { IsSetTo (λ c. after_fuse c calls) self.old.drives.items self.new.drives.items drive }
        ensures missing { (d : ℕ) → missing_in held_lost self.new d ≡ missing_in held_lost self.old d }
        ensures failures { (d : ℕ) → failures_by_drive held_failures self.new.drives.items d
            ≡ put (failures_by_drive held_failures self.old.drives.items) drive
            (fused (missing_in held_lost self.old drive) (failures_by_drive held_failures self.old.drives.items drive)) d }
        ensures units { AreSound self.old.groups (cells_in held_units held_lost self.old)
            → KeepsUnits self.old.groups (cells_in held_units held_lost self.old) (cells_in held_units held_lost self.new) }
        ensures sound { AreSound self.old.groups (cells_in held_units held_lost self.old) → AreSound self.new.groups (cells_in held_units held_lost self.new) }
        ensures tables { KeepsTables self.old self.new }
        ensures fit { IsFit held_units self.new }
    {
        self.drives[drive as usize].fuse(calls);
    }
}
