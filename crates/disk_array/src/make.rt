// A group is made.
ghost use Rattle.std.specs.Prelude.{◌≡◌, ◌↔◌, ◌≤◌, length, IsTrue, IsNone, IfSome, MatchResult, IfOk, IfErr, None};
ghost use Rattle.extent_groups.specs.Faults.{put_fault};
ghost use Rattle.extent_groups.specs.Groups.{AreThere};
ghost use Rattle.unit_store.specs.Views.{Entered};
ghost use Rattle.flat_machine.specs.Groups.{IsLowestFree, IsTableFull};
ghost use Rattle.flat_machine.specs.Steps as say;
ghost use Rattle.flat_machine.specs.Flat.{Flat};
ghost use Rattle.flat_machine.specs.Cases.{IsAllocating, MakeCase};
ghost use Rattle.slot_tables.specs.Changes.{opened_view, IsOpened, MayRefuse};
ghost use Rattle.slot_tables.specs.Making.{reported_of, IsMakeReason};
ghost use Rattle.slot_tables.specs.Represents.{ShowsArray};
ghost use Rattle.disk_array.specs.Refused.{IsRefused};
ghost use Rattle.slot_tables.specs.Shut.{AreShutOf};

use crate::array::Array;
use extent_groups::{GROUPS, GroupRefusal, GroupTable, SLOTS, are_there, put_check};
use extents::{Drive, ExtentTable};
use flat_machine::{Class, Member, Refusal};
use slot_tables::Hold;
use std::alloc::Global;

impl<D: Drive, C: Hold> Array<D, C> {
    /// Makes a group under the lowest number that isn't made, and wipes its extents first. It returns the claims that are kept
    /// since that number was dissolved, by rising slots, of which there are at most 128. Refused with a member's drive that is
    /// lost, before or while extents are wiped, the tables are as they were, and so is every slot of a group.
    pub fn make_group(
        &mut self,
        alloc: Global,
        class: Class,
        members: &[Member],
    ) -> Result<(u16, Vec<C>), Refusal>
        ensures claims { IfOk result (λ made. AreShutOf C.names self.old made.0 made.1.items) }
        ensures opened { IfOk result (λ made. IsOpened made.0 self.old.kept self.new.kept) }
        ensures ok { IfOk result (λ made. Entered self.old.parts made.0 class members.now self.new.parts) }
        ensures err { IfErr result (IsRefused self.old self.new) }
        ensures rest { IfOk result (λ made. self.new ≡ opened_view self.old self.new.parts self.new.kept) }
        ensures flat { (F : Flat) → ShowsArray self.old F
            → MatchResult result
            (λ made. (G : Flat) × MakeCase F class members.now (say.MadeGroup made.0) G × ShowsArray self.new G)
            (λ refusal. MayRefuse refusal
            (IsAllocating F (say.Make class members.now))
            ((G : Flat) × MakeCase F class members.now (say.Refused refusal) G × ShowsArray self.new G)) }
    {
        if let Some(refusal) = self.make_fault(members) {
            return Err(refusal);
        }
        let Some(number) = lowest_free(&self.parts.groups) else {
            return Err(Refusal::Full);
        };
        // All checks come before this, so that Memory is only the answer to a group that could be made.
        let members = match members.to_vec(alloc) {
            Ok(members) => members,
            Err(_) => return Err(Refusal::Memory),
        };
        // Room for all that may be kept of a number, so that taking them out can't fail.
        let mut claims = match Vec::with_capacity(alloc, usize::from(SLOTS)) {
            Ok(claims) => claims,
            Err(_) => return Err(Refusal::Memory),
        };
        match self.enter(number, class, members, &mut claims) {
            Ok(()) => Ok((number, claims)),
            Err(refusal) => {
                // Explicitly, because a list of claims has no `Drop`, even an empty one.
                claims.destroy_empty();
                Err(refusal)
            }
        }
    }

    // Why a group of these members can't be made, a free number aside.
    fn make_fault(&self, members: &[Member]) -> Option<Refusal>
        ensures reason { IsMakeReason self.now members.now result }
        ensures fits { result ≡ None → AreThere self.now.parts.owners members.now × (put_fault self.now.parts.owners members.now ≡ None) }
    {
        // Each test looks at all members, so that the refusal doesn't depend on their order, but for which lost drive it
        // names.
        if !are_members(&self.parts.extents, members) {
            return Some(Refusal::BadMember);
        }
        if let Some(refusal) = reported(put_check(&self.parts.extents, members)) {
            return Some(refusal);
        }
        match self.parts.first_lost(members) {
            Some(drive) => Some(Refusal::DriveLost(drive)),
            None => None,
        }
    }
}

// The refusal of a fault.
pub(crate) fn reported(fault: Option<GroupRefusal>) -> Option<Refusal>
    ensures value { result ≡ reported_of fault }
    ensures none { result ≡ None → fault ≡ None }
{
    match fault {
        None => None,
        Some(GroupRefusal::SameDrive) => Some(Refusal::SameDrive),
        // Too few or too many members are BadMember already, so this is the one that is left.
        Some(_) => Some(Refusal::ExtentTaken),
    }
}

// Three to eight members, each an extent that exists, on any drive.
fn are_members(extents: &ExtentTable, members: &[Member]) -> bool
    ensures { IsTrue result ↔ ((3 ≤ length members.now) × (length members.now ≤ 8) × AreThere extents.now members.now) }
{
    members.len() >= 3 && members.len() <= 8 && are_there(extents, members)
}

// The lowest number of which there is no group.
fn lowest_free(groups: &GroupTable) -> Option<u16>
    ensures some { IfSome result (IsLowestFree groups.now) }
    ensures none { IsNone result → IsTableFull groups.now }
{
    // Nothing is read: by this call's clause the table has 512 numbers, so that the walk sees all of them.
    let _members = groups.members(0);
    for number in 0..GROUPS as u16 {
        if groups.is_free(number) {
            return Some(number);
        }
    }
    None
}
