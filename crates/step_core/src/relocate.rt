// Moving a member of a group to another extent.
ghost use Rattle.std.specs.Prelude.{◌≡◌, IfErr, IfOk, MatchResult};
ghost use Rattle.unit_store.specs.Views.{Shifted};
ghost use Rattle.flat_machine.specs.Cases.{Case, IsAllocating};
ghost use Rattle.flat_machine.specs.Flat.{Flat};
ghost use Rattle.flat_machine.specs.Steps as say;
ghost use Rattle.slot_tables.specs.Changes.{MayRefuse};
ghost use Rattle.slot_tables.specs.Represents.{Represents};
ghost use Rattle.slot_tables.specs.Views.{SameSizes};

use crate::world::World;
use extents::Drive;
use flat_machine::{Member, Refusal};

impl<D: Drive> World<D> {
    /// Moves a member of a group onto another extent, as `Array::move_extent` does.
    pub fn move_extent(&mut self, group: u16, member: u8, to: Member) -> Result<(), Refusal>
        ensures flat { (F : Flat) → Represents self.old F → MatchResult result
            (λ done. (G : Flat) × Case F (say.MoveExtent group member to) say.MovedExtent G × Represents self.new G)
            (λ refusal. MayRefuse refusal
            (IsAllocating F (say.MoveExtent group member to))
            ((G : Flat) × Case F (say.MoveExtent group member to) (say.Refused refusal) G × Represents self.new G)) }
        ensures err { IfErr result (λ refusal. refusal ≡ Refusal.Memory → self.new ≡ self.old) }
        ensures shifted { IfOk result (λ done. Shifted self.old.array.parts group member to self.new.array.parts) }
        ensures room { SameSizes self.old.array self.new.array }
    {
        self.array.move_extent(group, member, to)
    }
}
