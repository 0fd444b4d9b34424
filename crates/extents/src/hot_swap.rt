// What happens to the drives of an array from outside: a new one comes, one is pulled.
ghost use Rattle.std.specs.Prelude.{◌≡◌, ◌+◌, ◌*◌, false, true, IfOk};
ghost use Rattle.extents.specs.declared.shape.TheConstants.{HEADER_BYTES};
ghost use Rattle.extents.specs.Condition.{is_gone, failures_of, after_loss};
ghost use Rattle.extents.specs.Failures.{no_failures, settled};
ghost use Rattle.extents.specs.Sizes.{extent_units};
ghost use Rattle.extents.specs.Units.{zero_units};

use crate::mem_drive::Condition;
use crate::{Drive, MemDrive, Shape};
use std::alloc::{AllocError, Global};

/// A drive of a kind that a run of steps can add to an array and take from it. A kind that may fail spontaneously, as one over
/// files, can't be one: its new drive isn't steady.
pub trait HotSwap: Drive {
    /// A new drive of this shape, present and steady, all its units zero; refused if out of memory.
    fn fresh(alloc: Global, shape: &Shape) -> Result<Self, AllocError>
        ensures units { IfOk result (λ drive. Self.units drive
            ≡ zero_units (HEADER_BYTES + shape.now.payload) (shape.now.extents * extent_units shape.now.segments)) }
        ensures there { IfOk result (λ drive. (Self.lost drive ≡ false) × (Self.failures drive ≡ no_failures)) };

    /// Loses the drive from outside: it answers no later call. It counts as no spontaneous failure, and none lies ahead.
    fn lose(&mut self)
        ensures units { Self.units self.new ≡ Self.units self.old }
        ensures lost { Self.lost self.new ≡ true }
        ensures failures { Self.failures self.new ≡ settled (Self.failures self.old) };
}

impl HotSwap for MemDrive {
    fn fresh(alloc: Global, shape: &Shape) -> Result<MemDrive, AllocError> {
        MemDrive::new(alloc, shape)
    }

    // A drive that its fuse has lost stays as it is, so that its failure stays counted.
    fn lose(&mut self)
        ensures units { self.new.units ≡ self.old.units }
        ensures lost { is_gone self.new.condition ≡ true }
        ensures failures { failures_of self.new.condition ≡ settled (failures_of self.old.condition) }
        ensures condition { self.new.condition ≡ after_loss self.old.condition }
    {
        if let Condition::Burnt = self.condition {
            return;
        }
        self.condition = Condition::Lost;
    }
}
