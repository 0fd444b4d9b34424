// A group is dissolved.
ghost use Rattle.std.specs.Prelude.{◌≡◌, ◌≢◌, ℕ, ◌<◌, ◌≤◌, None, IsNone, IfSome, IfErr, OnOk, MatchOption, MatchResult};
ghost use Rattle.extent_groups.specs.Groups.{group_at};
ghost use Rattle.flat_machine.specs.Steps as say;
ghost use Rattle.flat_machine.specs.Flat.{Flat};
ghost use Rattle.flat_machine.specs.Cases.{UnmakeCase};
ghost use Rattle.unit_store.specs.Views.{WasTaken};
ghost use Rattle.slot_tables.specs.Changes.{opened_view, IsClosed};
ghost use Rattle.slot_tables.specs.Represents.{ShowsArray};
ghost use Rattle.slot_tables.specs.Views.{IsWhole};
ghost use Rattle.slot_tables.specs.Shut.{slots_in_group, CanUnmake, IsUnmakeReason, AreWorkers};

use crate::array::Array;
use extent_groups::SLOTS;
use extents::Drive;
use flat_machine::Refusal;
use slot_tables::{Hold, close_all, marked};

impl<D: Drive, C: Hold> Array<D, C> {
    /// Dissolves a group of which all claims are given, one of each slot, and keeps them until its number is made again. No
    /// drive is used and nothing is allocated. On a refusal it returns the claims, and nothing has changed: `NoGroup` where
    /// the group isn't made, or a claim is of none of its slots or a second one of a slot; `SlotsHeld` with the lowest slot of
    /// which there is no claim, or that the array itself holds.
    pub fn unmake_group(&mut self, group: u16, claims: Vec<C>) -> Result<(), (Refusal, Vec<C>)>
        ensures ok { OnOk result (CanUnmake C.names self.old group claims.items) }
        ensures taken { OnOk result (WasTaken self.old.parts group self.new.parts × IsClosed group (slots_in_group self.old group) self.old.kept self.new.kept) }
        ensures rest { OnOk result (self.new ≡ opened_view self.old self.new.parts self.new.kept) }
        ensures err { IfErr result (λ e. IsUnmakeReason C.names self.old group claims.items e.0 × (e.1 ≡ claims) × (self.new ≡ self.old)) }
        ensures flat { (F : Flat) (w : ℕ) → ShowsArray self.old F → AreWorkers C.names F w group claims.items
            → MatchResult result
            (λ done. (G : Flat) × UnmakeCase F w group (say.UnmadeGroup group) G × ShowsArray self.new G)
            (λ e. UnmakeCase F w group (say.Refused e.0) F) }
    {
        match self.unmake_fault(group, &claims) {
            Some(refusal) => Err((refusal, claims)),
            None => {
                self.close(group, claims);
                Ok(())
            }
        }
    }

    /// How many slots a group has, none where its number is free.
    pub fn slots_in(&self, group: u16) -> Option<u16>
        ensures none { IsNone result → group_at self.now.parts.groups group ≡ None }
        ensures made { IfSome result (λ count. group_at self.now.parts.groups group ≢ None) }
        ensures count { IfSome result (λ count. (count ≡ slots_in_group self.now group) × (count ≤ 128) × (group < 512)) }
    {
        if self.parts.groups.class_of(group).is_none() {
            return None;
        }
        Some(self.parts.groups.slots_of(group))
    }

    // Why a group can't be dissolved with these claims.
    fn unmake_fault(&self, group: u16, claims: &[C]) -> Option<Refusal>
        ensures { MatchOption result (CanUnmake C.names self.now group claims.now) (IsUnmakeReason C.names self.now group claims.now) }
    {
        let Some(count) = self.slots_in(group) else {
            return Some(Refusal::NoGroup);
        };
        let Some(marks) = marked(group, count, claims) else {
            return Some(Refusal::NoGroup);
        };
        for index in 0..count {
            let slot = SLOTS * group + index;
            if !marks[usize::from(index)] || self.is_held(slot) {
                return Some(Refusal::SlotsHeld(slot));
            }
        }
        None
    }

    // Dissolves a group with the claims of all its slots.
    fn close(&mut self, group: u16, claims: Vec<C>)
        requires { CanUnmake C.names self.old group claims.items }
        ensures taken { WasTaken self.old.parts group self.new.parts }
        ensures closed { IsClosed group (slots_in_group self.old group) self.old.kept self.new.kept }
        ensures rest { self.new ≡ opened_view self.old self.new.parts self.new.kept }
        ensures whole { IsWhole self.old }
    {
        // Kept by the group's number, because no claim may be lost.
        close_all(&mut self.places, claims);
        self.parts.take(group);
    }
}
