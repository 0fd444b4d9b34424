//! A law of the order of last writes, proved of all lists of notes, as the contract of a function that does nothing.
ghost use Rattle.std.specs.Prelude.{ℕ, ◌<◌, ◌↔◌, List, Bool, Option};
ghost use Rattle.extent_groups.specs.Groups.{Groups};
ghost use Rattle.migrator.specs.Slots.{IsMirrored};
ghost use Rattle.migrator.specs.Ages.{after_notes, IsOlder, WasBefore, IsMarked, IsOldest};

/// After any notes, the one of two blocks is the older exactly where it was last written before the other.
pub fn age_law()
    ensures { (blocks : ℕ) (notes : List ℕ) (b c : ℕ) → b < blocks → c < blocks
        → IsOlder (after_notes blocks notes) b c ↔ WasBefore notes b c }
{
    // The law is the contract: there is nothing to do.
}

/// The oldest of the marked blocks is the oldest of the mirrored ones, where exactly these are marked.
pub fn mark_law()
    ensures { (order : List ℕ) (groups : Groups) (keys : ℕ → ℕ) (marks : List Bool) (chosen : Option ℕ)
        → ((b : ℕ) → IsMarked marks b ↔ IsMirrored groups keys b)
        → IsOldest order (IsMarked marks) chosen → IsOldest order (IsMirrored groups keys) chosen }
{
    // The law is the contract: there is nothing to do.
}
