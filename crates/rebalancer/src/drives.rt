// Which drives an extent may come from or go to.
ghost use Rattle.std.specs.Prelude.{◌↔◌, ◌<◌, IsTrue};
ghost use Rattle.rebalancer.specs.Drives.{IsPresent, HasFreeExtent};

use extents::{DRIVES, ExtentTable};

/// Whether there is such a drive, and it isn't lost.
pub(crate) fn is_present(extents: &ExtentTable, lost: &[bool; DRIVES], drive: u8) -> bool
    requires { drive < 16 }
    ensures { IsTrue result ↔ IsPresent extents.now lost.now drive }
{
    // Each drive has an extent 0, so this says whether the drive exists.
    extents.has_extent(drive, 0) && !lost[drive as usize]
}

/// Whether the drive is present and one of its extents is free.
pub(crate) fn has_room(extents: &ExtentTable, lost: &[bool; DRIVES], drive: u8) -> bool
    requires { drive < 16 }
    ensures { IsTrue result ↔ HasFreeExtent extents.now lost.now drive }
{
    is_present(extents, lost, drive) && extents.lowest_free(drive).is_some()
}
