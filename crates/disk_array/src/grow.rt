// A drive more.
ghost use Rattle.std.specs.Prelude.{◌≡◌, ◌<◌, ◌*◌, length, IfOk, IfErr, MatchResult};
ghost use Rattle.extents.specs.Sizes.{extent_units};
ghost use Rattle.extents.specs.Units.{AreUnitsSized};
ghost use Rattle.extent_groups.specs.Stores.{unit_bytes};
ghost use Rattle.unit_store.specs.Views.{WasAdded};
ghost use Rattle.flat_machine.specs.Cases.{AddCase, IsAllocating, most_drives};
ghost use Rattle.flat_machine.specs.Flat.{Flat};
ghost use Rattle.flat_machine.specs.Moves.{with_new_drive};
ghost use Rattle.flat_machine.specs.Steps as say;
ghost use Rattle.slot_tables.specs.Changes.{MayRefuse};
ghost use Rattle.slot_tables.specs.Represents.{ShowsArray};
ghost use Rattle.slot_tables.specs.Views.{with_parts};

use crate::array::Array;
use extents::Drive;
use flat_machine::Refusal;
use slot_tables::Hold;
use std::alloc::Global;

/// The greatest number of drives.
pub const DRIVES: u8 = 16;

impl<D: Drive, C: Hold> Array<D, C> {
    /// Adds a drive under the number after the last; its extents are free. It has the units that the shape asks for, with any
    /// content. If there are sixteen drives (`Full`) or out of memory, it returns the drive.
    pub fn add_drive(&mut self, alloc: Global, drive: D) -> Result<u8, (Refusal, D)>
        requires many { length (D.units drive) ≡ self.old.parts.groups.extents * extent_units self.old.parts.groups.segments }
        requires sized { AreUnitsSized (unit_bytes self.old.parts.groups) (D.units drive) }
        ensures ok { IfOk result (λ number. (number ≡ length self.old.parts.drives)
            × WasAdded self.old.parts (D.lost drive) (D.failures drive) self.new.parts) }
        ensures err { IfErr result (λ e. (e.1 ≡ drive) × (self.new ≡ self.old)) }
        ensures rest { self.new ≡ with_parts self.old self.new.parts }
        ensures flat { (F : Flat) → ShowsArray self.old F → MatchResult result
            (λ number. (number ≡ F.drives) × (F.drives < most_drives) × ShowsArray self.new (with_new_drive F (D.lost drive) (D.failures drive)))
            (λ e. MayRefuse e.0 (IsAllocating F say.AddDrive) (AddCase F (say.Refused e.0) F)) }
    {
        let number = self.drive_count();
        // Before the allocation, so that sixteen drives are Full even if out of memory.
        if number >= DRIVES {
            return Err((Refusal::Full, drive));
        }
        match self.attach(alloc, drive) {
            Ok(()) => Ok(number),
            Err(drive) => Err((Refusal::Memory, drive)),
        }
    }

    // Adds a drive where a number is left for it.
    fn attach(&mut self, alloc: Global, drive: D) -> Result<(), D>
        requires room { length self.old.parts.drives < most_drives }
        requires many { length (D.units drive) ≡ self.old.parts.groups.extents * extent_units self.old.parts.groups.segments }
        requires sized { AreUnitsSized (unit_bytes self.old.parts.groups) (D.units drive) }
        ensures ok { IfOk result (λ done. WasAdded self.old.parts (D.lost drive) (D.failures drive) self.new.parts) }
        ensures err { IfErr result (λ back. (back ≡ drive) × (self.new ≡ self.old)) }
        ensures rest { self.new ≡ with_parts self.old self.new.parts }
    {
        self.parts.add(alloc, drive)
    }
}
