//! Which of two files is the image that a table names.
ghost use Rattle.std.specs.Prelude.{◌≡◌, ◌↔◌, ℕ, Some, IsTrue, IfSome, IfNone, slice_get};
ghost use Rattle.raid_images.specs.Choice.{IsFileChoice};

use crate::digest::Sum;

/// Where the image that a table names is.
#[derive(Clone, Copy, Debug, PartialEq, Eq)]
pub(crate) enum Choice {
    /// In the file of the image's name.
    Kept,
    /// In the file of that name with `.new` appended: the save was cut short after its table was put in place.
    Fresh,
    /// In neither.
    Neither,
}

/// Which file has the image of this digest. The files are given by their digests, none where there is no file.
pub(crate) fn choose(expected: &Sum, kept: &Option<Sum>, fresh: &Option<Sum>) -> Choice
    ensures { IsFileChoice expected.now kept.now fresh.now result }
{
    if is_sum(kept, expected) {
        return Choice::Kept;
    }
    if is_sum(fresh, expected) {
        return Choice::Fresh;
    }
    Choice::Neither
}

// Whether a digest is there, and is this one.
fn is_sum(named: &Option<Sum>, sum: &Sum) -> bool
    ensures { IsTrue result ↔ (named.now ≡ Some sum.now) }
{
    *named == Some(*sum)
}

/// The drive whose image has this digest, if the table names one: the lowest.
pub(crate) fn owner_of(sums: &[Option<Sum>], sum: &Sum) -> Option<usize>
    ensures some { IfSome result (λ drive. slice_get sums.now drive ≡ Some (Some sum.now)) }
    ensures none { IfNone result ((drive : ℕ) → slice_get sums.now drive ≡ Some (Some sum.now) → ⊥) }
{
    for drive in 0..sums.len() {
        if is_sum(&sums[drive], sum) {
            return Some(drive);
        }
    }
    None
}
