// The image of a drive.
ghost use Rattle.std.specs.Prelude.{◌≡◌, ◌+◌, ◌*◌, ◌<◌, false, length, slice_get, slice_range, Some, IfOk, IfSome, is_none};
ghost use Rattle.extents.specs.Units.{AreUnitsSized};
ghost use Rattle.images.specs.Images.{IsImage};

use extents::Drive;
use std::alloc::{AllocError, Global};

/// The drive's units next to each other in address order, `size` bytes each; None if the drive is lost or fails while it is
/// read. Each unit is read once, from address 0 on, and none is written. Refused if out of memory; the drive may have failed
/// in a read before.
pub fn image_of<D: Drive>(
    alloc: Global,
    drive: &mut D,
    size: usize,
) -> Result<Option<Vec<u8>>, AllocError>
    requires size { AreUnitsSized size (D.units drive.old) }
    ensures ok { IfOk result (λ image. IfSome image (λ v. IsImage size v.items (D.units drive.old))) }
    ensures lost { IfOk result (λ image. is_none image ≡ D.lost drive.new) }
    ensures units { D.units drive.new ≡ D.units drive.old }
{
    // Before the buffer, so that a lost drive is None even if out of memory.
    if drive.is_lost() {
        return Ok(None);
    }
    let mut unit = vec![in alloc; 0u8; size]?;
    let mut image = Vec::new(alloc);
    for at in 0..drive.units() {
        if drive.read_unit(at, &mut unit).is_err() {
            return Ok(None);
        }
        image.extend_from_slice(&unit)?;
    }
    Ok(Some(image))
}
