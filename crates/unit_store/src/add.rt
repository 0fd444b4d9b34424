// Adding a drive.
ghost use Rattle.std.specs.Prelude.{◌≡◌, ◌<◌, ◌*◌, length, IfOk, IfErr, OnErr};
ghost use Rattle.extents.specs.Sizes.{extent_units};
ghost use Rattle.extents.specs.Units.{AreUnitsSized};
ghost use Rattle.extent_groups.specs.Stores.{unit_bytes};
ghost use Rattle.unit_store.specs.Fit.{IsFit};
ghost use Rattle.unit_store.specs.Views.{view_of, WasAdded};

use crate::Parts;
use extents::Drive;
use std::alloc::Global;

impl<D: Drive> Parts<D> {
    /// Adds a drive under the number after the last; its extents are free. It has the units that the shape asks for, with any
    /// content. If out of memory, it returns the drive.
    pub fn add(&mut self, alloc: Global, drive: D) -> Result<(), D>
        requires fit { IsFit D.units self.old }
        requires room { length self.old.drives.items < 16 }
        requires many { length (D.units drive) ≡ self.old.groups.extents * extent_units self.old.groups.segments }
        requires sized { AreUnitsSized (unit_bytes self.old.groups) (D.units drive) }
        ensures ok { IfOk result (λ done. WasAdded (view_of D.units D.lost D.failures self.old) (D.lost drive) (D.failures drive)
            (view_of D.units D.lost D.failures self.new)) }
        ensures err { IfErr result (λ back. back ≡ drive) }
        ensures same { OnErr result (view_of D.units D.lost D.failures self.new ≡ view_of D.units D.lost D.failures self.old) }
        ensures fit { IsFit D.units self.new }
    {
        // Reserved first, so that nothing can fail once the extents are in the table.
        if self.drives.reserve(1).is_err() {
            return Err(drive);
        }
        match self.extents.add_drive(alloc) {
            Ok(()) => {
                self.drives.push_reserved(drive);
                Ok(())
            }
            Err(_) => Err(drive),
        }
    }
}
