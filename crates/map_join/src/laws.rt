//! Laws of joined maps. Each is proved of all maps, as the contract of a function that does nothing.
ghost use Rattle.std.specs.Prelude.{ℕ, List, ◌++◌};
ghost use Rattle.map_join.specs.Maps.{IsSame, IsBelow, join, IsMapOf};

use crate::records::Record;

/// Maps may be joined in any order, grouping and number of times, and the join is the least map above both.
pub fn join_laws()
    ensures associative { (L M N : ℕ → ℕ) → IsSame (join (join L M) N) (join L (join M N)) }
    ensures commutative { (M N : ℕ → ℕ) → IsSame (join M N) (join N M) }
    ensures idempotent { (M : ℕ → ℕ) → IsSame (join M M) M }
    ensures above { (M N : ℕ → ℕ) → IsBelow M (join M N) × IsBelow N (join M N) }
    ensures least { (L M N : ℕ → ℕ) → IsBelow M L → IsBelow N L → IsBelow (join M N) L }
{
    // The laws are the contract: there is nothing to do.
}

/// The map of two lists together is the join of theirs.
pub fn list_laws()
    ensures { (xs ys : List Record) (M N : ℕ → ℕ) → IsMapOf xs M → IsMapOf ys N → IsMapOf (xs ++ ys) (join M N) }
{
    // The law is the contract: there is nothing to do.
}
