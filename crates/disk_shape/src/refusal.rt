// Why there is no disk of given sizes.

/// Why there is no disk of the given sizes.
#[derive(Clone, Copy, Debug, PartialEq, Eq)]
pub enum ShapeFault {
    /// The number of drives isn't 3 to 16.
    Drives,
    /// The bytes of a block aren't 8 to 65,536, or no multiple of 8.
    Block,
    /// The disk has no bytes.
    Empty,
    /// The disk is greater than the largest of these drives and blocks, which has this many bytes.
    TooLarge(u64),
}
