//! The steps of a save, in their order.
ghost use Rattle.std.specs.Prelude.{◌≡◌, ℕ, List, Option, length, IfOk};
ghost use Rattle.raid_images.specs.Saving.{Disk, IsAtHome, IsSaved, AllAlong, IsOneSave, after_all, steps_of, writes_to, renames_to};

use std::alloc::{AllocError, Global};

/// A step of a save. All writes are durable before the commit, and that before the first rename. So a stop at any moment
/// leaves all images of one table.
#[derive(Clone, Copy, Debug, PartialEq, Eq)]
pub(crate) enum Step {
    /// The image of this drive is written under its name with `.new` appended.
    Write(usize),
    /// The new table takes the place of the older one.
    Commit,
    /// The image of this drive takes its name.
    Rename(usize),
}

// The steps before the table is put in place.
fn writes(alloc: Global, drives: usize) -> Result<Vec<Step>, AllocError>
    ensures { IfOk result (λ steps. steps.items ≡ writes_to drives) }
{
    let mut steps = Vec::new(alloc);
    for drive in 0..drives {
        steps.push(Step::Write(drive))?;
    }
    Ok(steps)
}

/// The steps of a save of `drives` drives.
#[tactic(auto, using(crate::proofs::Saving::along_steps, crate::proofs::Saving::steps_end))]
pub(crate) fn plan(alloc: Global, drives: usize) -> Result<Vec<Step>, AllocError>
    ensures steps { IfOk result (λ steps. steps.items ≡ steps_of drives) }

    // At each moment a reader finds all images of the older table, or all of the newer one.
    ensures along { IfOk result (λ steps. (sums : List (Option (List ℕ))) (disk : Disk) → length sums ≡ drives → IsAtHome disk
        → AllAlong (IsOneSave disk.table sums) sums steps.items disk) }
    ensures ends { IfOk result (λ steps. (sums : List (Option (List ℕ))) (disk : Disk) → length sums ≡ drives
        → IsSaved sums (after_all sums steps.items disk)) }
{
    let mut steps = writes(alloc, drives)?;
    steps.push(Step::Commit)?;
    for drive in 0..drives {
        steps.push(Step::Rename(drive))?;
    }
    Ok(steps)
}
