// Moving a member of a group to another extent.
ghost use Rattle.std.specs.Prelude.{◌≡◌, ◌≢◌, ◌<◌, length, IfErr, OnOk, MatchResult, None};
ghost use Rattle.unit_store.specs.Views.{NotShifted, Shifted};
ghost use Rattle.flat_machine.specs.Cases.{IsAllocating, MoveCase};
ghost use Rattle.flat_machine.specs.Flat.{Flat};
ghost use Rattle.flat_machine.specs.Moves.{IsMoveReason};
ghost use Rattle.flat_machine.specs.Steps as say;
ghost use Rattle.slot_tables.specs.Changes.{MayRefuse};
ghost use Rattle.slot_tables.specs.Represents.{ShowsArray};
ghost use Rattle.slot_tables.specs.Views.{with_parts, IsWhole};
ghost use Rattle.disk_array.specs.Refused.{IsRefused};
ghost use Rattle.disk_array.specs.Shifting.{CanShift};

use crate::array::Array;
use crate::make::reported;
use extent_groups::swap_check;
use extents::Drive;
use flat_machine::{Member, Refusal};
use slot_tables::Hold;

impl<D: Drive, C: Hold> Array<D, C> {
    /// Copies the units of a group's member onto another extent, or rebuilds them from the other members if the member's
    /// drive is lost, also during the move. Then that extent is the member, and the old one is free. Refused where there is
    /// no such member, or the other extent doesn't exist, is on a drive of one of the members, is owned, or is on a drive that
    /// is lost by then; and as gone, with the lowest slot of the group that is gone, where a unit can't be rebuilt. A refused
    /// move leaves tables and slots as they were, but for drives that were lost; the other extent may have been written.
    pub fn move_extent(&mut self, group: u16, member: u8, to: Member) -> Result<(), Refusal>
        ensures ok { OnOk result (Shifted self.old.parts group member to self.new.parts) }
        ensures err { IfErr result (IsRefused self.old self.new) }
        ensures memory { IfErr result (λ refusal. refusal ≢ Refusal.Memory) }
        ensures rest { self.new ≡ with_parts self.old self.new.parts }
        ensures flat { (F : Flat) → ShowsArray self.old F → MatchResult result
            (λ done. (G : Flat) × MoveCase F group member to say.MovedExtent G × ShowsArray self.new G)
            (λ refusal. MayRefuse refusal
            (IsAllocating F (say.MoveExtent group member to))
            ((G : Flat) × MoveCase F group member to (say.Refused refusal) G × ShowsArray self.new G)) }
    {
        if let Some(refusal) = self.move_fault(group, member, to) {
            return Err(refusal);
        }
        // Before any unit is read, so that no move is begun onto a lost drive.
        if self.is_lost(to.drive) {
            return Err(Refusal::DriveLost(to.drive));
        }
        self.shift(group, member, to)
    }

    // Why the group's member can't go onto the extent, lost drives aside.
    fn move_fault(&self, group: u16, member: u8, to: Member) -> Option<Refusal>
        ensures reason { IsMoveReason self.now.parts.groups (length self.now.parts.drives) group member to result }
        ensures fits { result ≡ None → CanShift self.now.parts group member to }
    {
        let members = self.parts.groups.members(group);
        if usize::from(member) >= members.len() {
            return Some(Refusal::NoGroup);
        }
        if !self.parts.extents.has_extent(to.drive, to.extent) {
            return Some(Refusal::BadMember);
        }
        reported(swap_check(&self.parts.extents, members, to))
    }

    // Moves a member onto an extent against which nothing speaks.
    fn shift(&mut self, group: u16, member: u8, to: Member) -> Result<(), Refusal>
        requires reason { IsMoveReason self.old.parts.groups (length self.old.parts.drives) group member to None }
        requires fits { CanShift self.old.parts group member to }
        ensures ok { OnOk result (Shifted self.old.parts group member to self.new.parts) }
        ensures err { IfErr result (NotShifted self.old.parts group member to self.new.parts) }
        ensures rest { self.new ≡ with_parts self.old self.new.parts }
        ensures whole { IsWhole self.old }
    {
        let unit: &mut [u8] = &mut self.unit;
        let scratch: &mut [u8] = &mut self.scratch;
        self.parts.shift(group, member, to, unit, scratch)
    }
}
