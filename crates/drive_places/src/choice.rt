// Which of several paths has a drive's file.
ghost use Rattle.std.specs.Prelude.{◌≡◌, ◌≢◌, ◌+◌, ℕ, List, Some, slice_get};
ghost use Rattle.drive_places.specs.Claims.{IsPathChoice, IsChoiceUpTo};

use crate::sight::Sight;

/// Which of several paths has a drive's file.
#[derive(Clone, Copy, Debug, PartialEq, Eq)]
pub enum Choice {
    /// No path has it.
    Nowhere,
    /// The path of this index alone.
    At(usize),
    /// More than one path.
    Twice,
}

// Takes one more path into account.
fn with_next(choice: Choice, sight: Sight, drive: u8, index: usize) -> Choice
    ensures { (sights : List Sight) → slice_get sights index ≡ Some sight → IsChoiceUpTo index sights drive choice
        → IsChoiceUpTo (index + 1) sights drive result }
{
    if sight != Sight::Drive(drive) {
        return choice;
    }
    match choice {
        Choice::Nowhere => Choice::At(index),
        _ => Choice::Twice,
    }
}

/// Which of several paths has a drive's file.
pub fn choose(sights: &[Sight], drive: u8) -> Choice
    ensures { IsPathChoice sights.now drive result }
{
    let mut choice = Choice::Nowhere;
    for index in 0..sights.len() {
        choice = with_next(choice, sights[index], drive, index);
    }
    choice
}
