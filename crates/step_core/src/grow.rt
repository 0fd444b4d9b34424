// Adding a drive.
ghost use Rattle.std.specs.Prelude.{◌≡◌, IfOk, OnErr};
ghost use Rattle.flat_machine.specs.Cases.{Case, IsAllocating};
ghost use Rattle.flat_machine.specs.Flat.{Flat};
ghost use Rattle.flat_machine.specs.Steps as say;
ghost use Rattle.slot_tables.specs.Represents.{Represents};
ghost use Rattle.slot_tables.specs.Views.{SameSizes};
ghost use Rattle.step_core.specs.Reported.{flat_answer};

use crate::step::Answer;
use crate::world::{World, refused};
use disk_array::DRIVES;
use extents::HotSwap;
use flat_machine::Refusal;
use std::alloc::{AllocError, Global};

impl<D: HotSwap + Drop> World<D> {
    /// Adds a new drive, all of whose units are zero.
    pub fn add_drive(&mut self, alloc: Global) -> Result<Answer, AllocError>
        ensures ok { IfOk result (λ answer. (F : Flat) → Represents self.old F
            → (G : Flat) × Case F say.AddDrive (flat_answer answer) G × Represents self.new G) }
        ensures err { OnErr result (self.new ≡ self.old) }
        ensures needs { OnErr result ((F : Flat) → Represents self.old F → IsAllocating F say.AddDrive) }
        ensures room { SameSizes self.old.array self.new.array }
    {
        // Before the drive is made, so that sixteen drives are Full even if out of memory.
        if self.array.drive_count() >= DRIVES {
            return Ok(Answer::Refused(Refusal::Full));
        }
        let Ok(drive) = D::fresh(alloc, &self.array.shape()) else {
            return Err(AllocError);
        };
        match self.array.add_drive(alloc, drive) {
            Ok(number) => Ok(Answer::Added(number)),
            Err((refusal, _drive)) => refused(refusal),
        }
    }
}
