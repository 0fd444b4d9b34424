// A drive from its image.
ghost use Rattle.std.specs.Prelude.{◌≡◌, ◌+◌, ◌*◌, ◌<◌, length, slice_set, IfOk, IfErr};
ghost use Rattle.extents.specs.declared.mem_drive.Condition.TheVariants.{Present};
ghost use Rattle.extents.specs.declared.shape.TheConstants.{HEADER_BYTES};
ghost use Rattle.extents.specs.Sizes.{extent_units};
ghost use Rattle.extents.specs.Units.{AreUnitsSized};
ghost use Rattle.images.specs.Images.{IsImage};
ghost use Rattle.images.specs.Refusals.{RefusesFor};

use crate::ImageRefusal;
use extents::{Drive, MemDrive, Shape};
use std::alloc::Global;

/// A drive in memory whose units are those of the image, at the same addresses. The image has `shape.drive_units()` units of
/// `shape.unit_bytes()` bytes each. Any other length is refused as Length, before memory is allocated; a failed allocation is
/// refused as Memory. What the bytes of a unit say is not examined.
pub fn load(alloc: Global, shape: &Shape, image: &[u8]) -> Result<MemDrive, ImageRefusal>
    ensures ok { IfOk result (λ m. IsImage (HEADER_BYTES + shape.now.payload) image.now m.units) }
    ensures many { IfOk result (λ m. length m.units ≡ shape.now.extents * extent_units shape.now.segments) }
    ensures sized { IfOk result (λ m. AreUnitsSized (HEADER_BYTES + shape.now.payload) m.units) }
    ensures present { IfOk result (λ m. m.condition ≡ Present) }
    ensures err { IfErr result (RefusesFor shape.now (length image.now)) }
{
    let size = shape.unit_bytes();
    let count = shape.drive_units();
    // Before the drive is made, so that Memory is never the answer to a wrong length.
    if image.len() != count as usize * size {
        return Err(ImageRefusal::Length);
    }
    let Ok(mut drive) = MemDrive::new(alloc, shape) else {
        return Err(ImageRefusal::Memory);
    };
    for at in 0..count {
        let start = at as usize * size;
        put(&mut drive, at, &image[start..start + size]);
    }
    Ok(drive)
}

// Writes a unit of a drive that answers.
fn put(drive: &mut MemDrive, at: u32, unit: &[u8])
    requires at { at < length drive.old.units }
    requires size { AreUnitsSized (length unit.now) drive.old.units }
    requires present { drive.old.condition ≡ Present }
    ensures present { drive.new.condition ≡ Present }
    ensures written { drive.new.units ≡ slice_set drive.old.units at unit.now }
{
    // A new drive has no fuse, so this write can't fail.
    let _ = drive.write_unit(at, unit);
}
