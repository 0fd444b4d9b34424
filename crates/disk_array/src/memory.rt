// Arrays of drives in memory.
ghost use Rattle.std.specs.Prelude.{◌≡◌, ℕ, ◌+◌, ◌*◌, ◌<◌, ◌≤◌, length, nat_le, slice_get, Some, IfOk, IfErr};
ghost use Rattle.extents.specs.Condition.{Held};
ghost use Rattle.extents.specs.Failures.{no_failures};
ghost use Rattle.extents.specs.Shapes.{IsShapeOf};
ghost use Rattle.extents.specs.Sizes.{extent_units};
ghost use Rattle.extents.specs.declared.mem_drive.Condition.TheVariants.{Present};
ghost use Rattle.extents.specs.declared.shape.TheConstants.{HEADER_BYTES};
ghost use Rattle.extent_groups.specs.Calls.{AreSized};
ghost use Rattle.flat_machine.specs.Flat.{Flat, new_flat};
ghost use Rattle.flat_machine.specs.Groups.{IsEmpty};
ghost use Rattle.flat_machine.specs.Moves.{with_fuse};
ghost use Rattle.unit_store.specs.Fit.{HaveUnitCount};
ghost use Rattle.unit_store.specs.Memory.{held_units};
ghost use Rattle.slot_tables.specs.Represents.{ShowsArray};
ghost use Rattle.slot_tables.specs.Views.{with_parts};
ghost use Rattle.disk_array.specs.Losing.{WasFused};

use crate::array::Array;
use extents::{MemDrive, Shape};
use flat_machine::Refusal;
use slot_tables::Hold;
use std::alloc::{AllocError, Global};

// Drives of a shape, all of whose units are zero.
fn new_drives(alloc: Global, shape: &Shape, count: u8) -> Result<Vec<MemDrive>, AllocError>
    ensures count { IfOk result (λ drives. length drives.items ≡ count) }
    ensures units { IfOk result (λ drives. HaveUnitCount held_units drives.items (shape.now.extents * extent_units shape.now.segments)) }
    ensures sized { IfOk result (λ drives. AreSized held_units (HEADER_BYTES + shape.now.payload) drives.items) }
    ensures present { IfOk result (λ drives. (d : ℕ) (m : Held) → slice_get drives.items d ≡ Some m → m.condition ≡ Present) }
{
    let mut drives = Vec::with_capacity(alloc, usize::from(count))?;
    for _made in 0..count {
        drives.push_reserved(MemDrive::new(alloc, shape)?);
    }
    Ok(drives)
}

impl<C: Hold> Array<MemDrive, C> {
    /// A new array of drives in memory, all of whose units are zero. There are 3 to 16 drives.
    pub fn in_memory(alloc: Global, shape: Shape, drives: u8) -> Result<Array<MemDrive, C>, Refusal>
        requires { (3 ≤ drives) × (drives ≤ 16) }
        ensures sizes { IfOk result (λ array. IsShapeOf shape array.parts.groups.extents array.parts.groups.segments array.parts.groups.payload
            array.parts.groups.blocks) }
        ensures empty { IfOk result (λ array. IsEmpty array.parts.groups) }
        ensures ok { IfOk result (λ array. ShowsArray array (new_flat array.parts.groups drives (nat_le drives) (λ _. no_failures))) }
        ensures err { IfErr result (λ refusal. refusal ≡ Refusal.Memory) }
    {
        let Ok(units) = new_drives(alloc, &shape, drives) else {
            return Err(Refusal::Memory);
        };
        match Array::new(alloc, shape, units) {
            Ok(array) => Ok(array),
            Err((refusal, _drives)) => Err(refusal),
        }
    }

    /// Makes a drive fail at its `calls`-th read or write from now (1 = the next) and at all later ones. Until then it
    /// answers as it did, and isn't steady. A lost drive stays as it is.
    pub fn fuse(&mut self, drive: u8, calls: u64)
        requires drive { drive < length self.old.parts.drives }
        requires calls { 1 ≤ calls }
        ensures fused { WasFused self.old.parts self.new.parts drive }
        ensures rest { self.new ≡ with_parts self.old self.new.parts }
        ensures flat { (F : Flat) → ShowsArray self.old F → ShowsArray self.new (with_fuse F drive) }
    {
        self.parts.fuse(drive, calls);
    }
}
