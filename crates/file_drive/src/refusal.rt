// Why a drive isn't opened.
ghost use Rattle.std.specs.Prelude.{◌≡◌};
ghost use Rattle.file_drive.specs.Refusals.{refusal_number};

/// Why a backing isn't opened as a drive. It is then closed, its bytes as they were.
#[derive(Clone, Copy, Debug, PartialEq, Eq)]
pub enum OpenRefusal {
    /// Out of memory for the drive.
    Memory = 1,
    /// The backing's length differs from that of an image of the shape.
    Length = 2,
    /// The backing can't be read, or its bytes take more memory than there is.
    Read = 3,
}

impl OpenRefusal {
    /// The refusal's number, 1 to 3.
    pub fn number(self) -> u8
        ensures { result ≡ refusal_number self }
    {
        self as u8
    }
}
