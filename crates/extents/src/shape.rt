// The sizes of an array.
ghost use Rattle.std.specs.Prelude.{◌≡◌, ◌+◌, ◌*◌, ◌<◌, IsOk, IfOk, IfErr};
ghost use Rattle.extents.specs.Sizes.{AreInRange, IsFirstOut, extent_units, unit_address};

/// How many bytes the header of a unit has.
pub const HEADER_BYTES: usize = 32;

/// The sizes of an array, the same for all its drives.
#[derive(Clone, Copy, Debug, PartialEq, Eq)]
pub struct Shape {
    /// Extents of each drive, 1 to 512.
    pub extents: u32,
    /// Segments of each extent, 1 to 8, of two units each: so no group has more than 112 slots, of the 128 numbers that it
    /// gets.
    pub segments: u32,
    /// Bytes of a unit's payload, 8 to 65,536 in steps of 8, so that sums by eight bytes leave none over.
    pub payload: u32,
    /// Blocks that the array may hold, 1 to 65,536.
    pub blocks: u32,
    pub ghost in_range: { AreInRange extents segments payload blocks },
}

/// Why four numbers are no shape.
#[derive(Clone, Copy, Debug, PartialEq, Eq)]
pub enum ShapeRefusal {
    /// The first field out of its limit, counted from 1.
    Range(u8),
}

impl ShapeRefusal {
    ghost use Rattle.extents.specs.Shapes.{refusal_number};

    /// The refusal's number, 1.
    pub fn number(self) -> u8
        ensures { result ≡ refusal_number self }
    {
        match self {
            ShapeRefusal::Range(_) => 1,
        }
    }
}

impl Shape {
    ghost use Rattle.extents.specs.Shapes.{IsShapeOf, refused_field};

    /// The shape of these sizes, refused where one of them is out of its limit.
    pub fn new(
        extents: u32,
        segments: u32,
        payload: u32,
        blocks: u32,
    ) -> Result<Shape, ShapeRefusal>
        ensures ok { IfOk result (λ s. IsShapeOf s extents segments payload blocks) }
        ensures err { IfErr result (λ e. IsFirstOut (refused_field e) extents segments payload blocks) }
        ensures succeeds { AreInRange extents segments payload blocks → IsOk result }
    {
        // In the order of the fields, so that the refusal names the first that is out of its limit.
        if extents < 1 || extents > 512 {
            return Err(ShapeRefusal::Range(1));
        }
        if segments < 1 || segments > 8 {
            return Err(ShapeRefusal::Range(2));
        }
        if payload < 8 || payload > 65536 || payload % 8 != 0 {
            return Err(ShapeRefusal::Range(3));
        }
        if blocks < 1 || blocks > 65536 {
            return Err(ShapeRefusal::Range(4));
        }
        Ok(Shape {
            extents,
            segments,
            payload,
            blocks,
        })
    }

    /// Bytes of a unit: its header and its payload.
    pub fn unit_bytes(&self) -> usize
        ensures { result ≡ HEADER_BYTES + self.now.payload }
    {
        HEADER_BYTES + self.payload as usize
    }

    /// Units of one extent.
    pub fn extent_units(&self) -> u32
        ensures { result ≡ extent_units self.now.segments }
    {
        2 * self.segments
    }

    /// Units of one drive.
    pub fn drive_units(&self) -> u32
        ensures { result ≡ self.now.extents * extent_units self.now.segments }
    {
        self.extents * self.extent_units()
    }

    /// Where the unit at an offset of an extent lies on its drive.
    pub fn unit_address(&self, extent: u16, offset: u16) -> u32
        requires { offset < extent_units self.now.segments }
        ensures { result ≡ unit_address self.now.segments extent offset }
    {
        extent as u32 * self.extent_units() + offset as u32
    }
}
