// Why an image isn't loaded.
ghost use Rattle.std.specs.Prelude.{◌≡◌};
ghost use Rattle.images.specs.Refusals.{refusal_number};

/// Why bytes aren't loaded as a drive.
#[derive(Clone, Copy, Debug, PartialEq, Eq)]
pub enum ImageRefusal {
    /// Out of memory.
    Memory = 1,
    /// The image's length differs from that of a drive of the shape.
    Length = 2,
}

impl ImageRefusal {
    /// The refusal's number, 1 or 2.
    pub fn number(self) -> u8
        ensures { result ≡ refusal_number self }
    {
        self as u8
    }
}
