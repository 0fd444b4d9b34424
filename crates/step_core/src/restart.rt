// A world made of an array, its array taken out of it, and a world that is restarted.
ghost use Rattle.std.specs.Prelude.{◌≡◌, ℕ, IfOk, IfErr};
ghost use Rattle.map_join.specs.Maps.{at, IsMapOf};
ghost use Rattle.flat_machine.specs.Flat.{Flat};
ghost use Rattle.flat_machine.specs.Restarted.{HasDistinctSlots, restarted};
ghost use Rattle.slot_tables.specs.Views.{hand_at, SameSizes};
ghost use Rattle.slot_tables.specs.Represents.{ShowsArray, Represents};
ghost use Rattle.slot_tables.specs.Claims.{IsWorkerFree, WasRestarted};

use crate::world::World;
use disk_array::{Array, Hands};
use extents::Drive;
use map_join::BlockMap;
use slot_tables::{Hand, NotAdopted, Plain};
use std::alloc::Global;

impl<D: Drive> World<D> {
    /// The array alone; what the workers had in hand is given up.
    pub fn into_array(self) -> Array<D, Plain>
        ensures { result ≡ self.array }
    {
        self.array
    }

    /// A world of an array, in which no worker has anything in hand; nothing may be pending in it. If out of memory, it returns
    /// the array.
    pub fn of(alloc: Global, array: Array<D, Plain>) -> Result<World<D>, Array<D, Plain>>
        ensures array { IfOk result (λ world. world.array ≡ array) }
        ensures hands { IfOk result (λ world. (s : ℕ) → hand_at world.hands s ≡ Hand.Empty) }
        ensures flat { IfOk result (λ world. (F : Flat) → ShowsArray array F → IsWorkerFree F → Represents world F) }
        ensures err { IfErr result (λ refused. refused ≡ array) }
    {
        match Hands::new(alloc) {
            Ok(hands) => Ok(World { array, hands }),
            Err(_) => Err(array),
        }
    }

    // The world of an array in which nothing is pending, with these hands emptied.
    fn at_rest(array: Array<D, Plain>, mut hands: Hands) -> World<D>
        ensures array { result.array ≡ array }
        ensures hands { (s : ℕ) → hand_at result.hands s ≡ Hand.Empty }
        ensures flat { (F : Flat) → ShowsArray array F → IsWorkerFree F → Represents result F }
    {
        // Emptied, not made again, so that nothing is allocated here.
        hands.clear_all();
        World { array, hands }
    }
}

impl<D: Drive + Drop> World<D> {
    /// The world restarted with a map of its headers: the map's list is the log, each block's newest place is held and no other
    /// slot, and nothing is pending. It allocates about 30 bytes for each slot number up to the last made group's, about half of
    /// it in place of the old tables. If an allocation fails, the world is dropped.
    pub fn restarted(self, alloc: Global, map: BlockMap) -> Result<World<D>, NotAdopted>
        requires { HasDistinctSlots self.array.parts.groups (at map) }
        ensures ok { IfOk result (λ world. (F : Flat) → Represents self F → IsMapOf F.emitted (at map) → WasRestarted F (at map) world) }
        ensures err { IfErr result (λ why. (F : Flat) → Represents self F → IsMapOf F.emitted (at map) → why ≡ NotAdopted.Memory) }
        ensures room { IfOk result (λ world. SameSizes self.array world.array) }
    {
        match self.array.restarted(alloc, map) {
            Ok((array, _free)) => Ok(World::at_rest(array, self.hands)),
            Err(why) => Err(why),
        }
    }
}
