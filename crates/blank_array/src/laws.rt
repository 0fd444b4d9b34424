// What blank units show.
ghost use Rattle.std.specs.Prelude.{[], ℕ, List, Bool, replicate};
ghost use Rattle.extent_groups.specs.Cells.{Cells};
ghost use Rattle.extent_groups.specs.Groups.{Groups};
ghost use Rattle.array_store.specs.Blocks.{Holds};
ghost use Rattle.journaled_store.specs.Left.{HasBoth, HasKeys, IsLeftOf};
ghost use Rattle.blank_array.specs.Blank.{CanBeMade, IsBlankArray, zeros_shown};

/// Blank units, with a table that has the groups and marks no drive, are those of an array that shows zeros, of any size, and in which
/// no block was written. Of absent drives nothing is asked.
pub fn blank_law()
    ensures both { (groups : Groups) (drives size : ℕ) (absent : List Bool) (c : Cells) → CanBeMade groups drives → IsBlankArray groups drives absent c
        → IsLeftOf HasBoth (zeros_shown size) groups drives absent c }
    ensures bytes { (groups : Groups) (drives size : ℕ) (absent : List Bool) (c : Cells) → CanBeMade groups drives → IsBlankArray groups drives absent c
        → IsLeftOf Holds (replicate size 0) groups drives absent c }
    ensures map { (groups : Groups) (drives : ℕ) (absent : List Bool) (c : Cells) → CanBeMade groups drives → IsBlankArray groups drives absent c
        → IsLeftOf HasKeys [] groups drives absent c }
{
    // The law is the contract: there is nothing to do.
}
