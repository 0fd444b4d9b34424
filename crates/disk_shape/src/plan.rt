// The sizes of a disk's array.
ghost use Rattle.disk_shape.specs.Plans.{AreConsistent};

use extents::Shape;

/// The sizes of the array that keeps a disk. The first groups are mirrored, the others have parity.
#[derive(Clone, Copy, Debug, PartialEq, Eq)]
pub struct Plan {
    /// Bytes of the disk. The last block may reach past them.
    pub size: u64,
    /// Drives, 3 to 16.
    pub drives: u8,
    /// Drives of each group: all of them, 8 at most.
    pub members: u8,
    /// Groups, 2 to 512.
    pub groups: u16,
    /// Mirrored groups, the first ones.
    pub mirrored: u16,
    /// Extents of each drive, segments of each extent, bytes of a block, and blocks.
    pub shape: Shape,
    pub ghost whole: { AreConsistent drives members groups mirrored shape.extents },
}
