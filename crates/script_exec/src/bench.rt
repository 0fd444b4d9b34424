//! What the commands of a script work on.
ghost use Rattle.std.specs.Prelude.{◌≡◌};
ghost use Rattle.script_exec.specs.State.{nothing_taken};
ghost use Rattle.script_exec.specs.Carrying.{AreMapsOf};

use map_join::BlockMap;
use std::alloc::Global;
use tiered_array::Tiers;

/// The world of the array with what its plans keep, and next to it four block maps in which a script joins records.
#[derive(Drop)]
pub struct Bench {
    pub tiers: Tiers,
    pub maps: [BlockMap; 4],
}

impl Bench {
    /// The array and four empty maps.
    pub fn new(alloc: Global, tiers: Tiers) -> Bench
        ensures tiers { result.tiers ≡ tiers }
        ensures maps { AreMapsOf result.maps nothing_taken }
    {
        Bench {
            tiers,
            maps: [
                BlockMap::new(alloc),
                BlockMap::new(alloc),
                BlockMap::new(alloc),
                BlockMap::new(alloc),
            ],
        }
    }
}
