// The buffers of an array for the calls of its drives.
ghost use Rattle.std.specs.Prelude.{◌+◌, IfOk};
ghost use Rattle.extents.specs.declared.shape.TheConstants.{HEADER_BYTES};
ghost use Rattle.disk_array.specs.Inside.{AreBuffers};

use extents::Shape;
use std::alloc::{AllocError, Global};

// A buffer of a unit's length, and one of two units'.
#[derive(Drop)]
pub struct Buffers {
    pub unit: Vec<u8>,
    pub scratch: Vec<u8>,
}

impl Buffers {
    // Buffers for the units of this shape.
    pub fn new(alloc: Global, shape: &Shape) -> Result<Buffers, AllocError>
        ensures { IfOk result (AreBuffers (HEADER_BYTES + shape.now.payload)) }
    {
        let size = shape.unit_bytes();
        let unit = vec![in alloc; 0; size]?;
        let scratch = vec![in alloc; 0; 2 * size]?;
        Ok(Buffers { unit, scratch })
    }
}
