// Laws of scans, as the contracts of functions that do nothing.
ghost use Rattle.std.specs.Prelude.{◌^◌, ◌≤◌, ℕ, Option, List};
ghost use Rattle.map_join.specs.Maps.{IsSame, join};
ghost use Rattle.extent_groups.specs.Groups.{Groups};
ghost use Rattle.extent_groups.specs.Cells.{Cells};
ghost use Rattle.extent_groups.specs.Stores.{unit_of, KeepsUnits};
ghost use Rattle.flat_machine.specs.Scanned.{IsScanned};
ghost use Rattle.header_scan.specs.Faults.{between};
ghost use Rattle.header_scan.specs.Ranges.{MakeUp, IsMapOfRange, HasNoTwice, ShareNoStamp};

/// Headers give one map, and the maps of two parts that make up the whole join to the map of the whole.
pub fn scan_laws()
    ensures one { (bytes : ℕ → Option (List ℕ)) (M N : ℕ → ℕ) → IsScanned bytes M → IsScanned bytes N → IsSame M N }
    ensures parts { (whole one other : ℕ → Option (List ℕ)) (K M N : ℕ → ℕ) → MakeUp whole one other → IsScanned whole K → IsScanned one M → IsScanned other N
        → IsSame (join M N) K }
{
    // The laws are the contract: there is nothing to do.
}

/// Scans of two ranges of slots that follow each other: their maps, joined in either order, are the map of the whole range. A
/// scan's answer is also one over what the drives held before earlier scans, so that the scans may come in any order. Where no
/// block has one stamp in both maps, and none is twice in a range, none is twice in the whole range.
pub fn parts_laws()
    // Of the same units.
    ensures same { (bytes : ℕ → Option (List ℕ)) (low middle high : ℕ) (K M N : ℕ → ℕ) → low ≤ middle → middle ≤ high
        → IsScanned (between low middle bytes) M → IsScanned (between middle high bytes) N → IsScanned (between low high bytes) K → IsSame (join M N) K }
    ensures joined { (bytes : ℕ → Option (List ℕ)) (low middle high : ℕ) (M N : ℕ → ℕ) → low ≤ middle → middle ≤ high
        → IsScanned (between low middle bytes) M → IsScanned (between middle high bytes) N → IsScanned (between low high bytes) (join M N) }

    // Of units of which some are lost between the scans.
    ensures earlier { (groups : Groups) (start now : Cells) (low high : ℕ) (M : ℕ → ℕ) → KeepsUnits groups start now
        → IsMapOfRange groups now low high M → IsMapOfRange groups start low high M }
    ensures earlier_once { (groups : Groups) (start now : Cells) (low high : ℕ) (M : ℕ → ℕ) → KeepsUnits groups start now
        → IsMapOfRange groups now low high M → HasNoTwice (between low high (unit_of groups now)) → HasNoTwice (between low high (unit_of groups start)) }
    ensures calls { (groups : Groups) (c : Cells) (low middle high : ℕ) (M N : ℕ → ℕ) → low ≤ middle → middle ≤ high
        → IsMapOfRange groups c low middle M → IsMapOfRange groups c middle high N → IsMapOfRange groups c low high (join M N) }
    ensures whole { (groups : Groups) (c : Cells) (low high : ℕ) (K M : ℕ → ℕ) → IsMapOfRange groups c low high M → IsMapOfRange groups c low high K
        → IsSame M K }

    // No block twice.
    ensures once { (groups : Groups) (c : Cells) (low middle high : ℕ) (M N : ℕ → ℕ) → low ≤ middle → middle ≤ high → high ≤ 2 ^ 16
        → IsMapOfRange groups c low middle M → IsMapOfRange groups c middle high N
        → HasNoTwice (between low middle (unit_of groups c)) → HasNoTwice (between middle high (unit_of groups c))
        → ShareNoStamp M N → HasNoTwice (between low high (unit_of groups c)) }

    // In any order.
    ensures order { (M N : ℕ → ℕ) → IsSame (join M N) (join N M) }
    ensures three { (K M N : ℕ → ℕ) → IsSame (join (join K M) N) (join K (join M N)) }
{
    // The laws are the contract: there is nothing to do.
}
