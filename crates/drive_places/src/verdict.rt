// What is said of a drive's file.
ghost use Rattle.std.specs.Prelude.{◌≡◌, List, Some, slice_get};
ghost use Rattle.drive_places.specs.Claims.{IsUnclaimedPath, IsVerdict};

use crate::choice::{Choice, choose};
use crate::sight::Sight;

/// What is said of a drive's file.
#[derive(Clone, Copy, Debug, PartialEq, Eq)]
pub enum Verdict {
    /// One path has it.
    Present,
    /// There is nothing at the drive's own place, and no other path has it.
    Absent,
    /// What is at the drive's own place isn't of this disk.
    Foreign,
    /// What is at the drive's own place is another file of this disk.
    Misplaced,
    /// The file at the drive's own place is cut or longer.
    Resized,
    /// What is at the drive's own place can't be opened or read.
    Unreadable,
    /// More than one path has it.
    Doubled,
}

impl Verdict {
    /// The word for it.
    pub fn word(self) -> &'static str {
        match self {
            Verdict::Present => "present",
            Verdict::Absent => "absent",
            Verdict::Foreign => "foreign",
            Verdict::Misplaced => "misplaced",
            Verdict::Resized => "resized",
            Verdict::Unreadable => "unreadable",
            Verdict::Doubled => "doubled",
        }
    }
}

// What is said of a drive whose file was seen nowhere, by what is at its own place.
fn verdict_without(sight: Sight, drive: u8) -> Verdict
    ensures { (sights : List Sight) → slice_get sights drive ≡ Some sight → IsUnclaimedPath sights drive → IsVerdict sights drive result }
{
    match sight {
        Sight::Absent => Verdict::Absent,
        Sight::Unreadable(_) => Verdict::Unreadable,
        Sight::Foreign => Verdict::Foreign,
        Sight::Resized(number) if number == drive => Verdict::Resized,
        _ => Verdict::Misplaced,
    }
}

/// What is said of a drive's file, by what was seen at each path. The first paths are the drives' own places, in the order of their
/// numbers; a drive that has none is absent.
pub fn verdict_of(sights: &[Sight], drive: u8) -> Verdict
    ensures { IsVerdict sights.now drive result }
{
    match choose(sights, drive) {
        Choice::At(_) => Verdict::Present,
        Choice::Twice => Verdict::Doubled,
        Choice::Nowhere => match sights.get(usize::from(drive)) {
            Some(sight) => verdict_without(*sight, drive),
            None => Verdict::Absent,
        },
    }
}
