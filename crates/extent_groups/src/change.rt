// Making and dissolving a group, and swapping a member: the groups and the owners change together.
ghost use Rattle.std.specs.Prelude.{◌≡◌, ◌↔◌, IsTrue, ℕ, ◌<◌, ◌⊎◌, Bool, length, Some, None, IsSome, OnOk, OnErr, IfErr, option_map};
ghost use Rattle.std.specs.List.{list_any};
ghost use Rattle.extents.specs.Owners.{IsExtent, with_owner, owner_of};
ghost use Rattle.extent_groups.specs.Faults.{is_on, shares_drive, is_owned, put_fault, swap_check_of, swap_fault, FailsFor};
ghost use Rattle.extent_groups.specs.Groups.{Group, AreThere, with_owners, group_at, members_of, with_group, with_member, Agree, IsFree, IsSwap, IsMove};
ghost use Rattle.extent_groups.specs.Kept.{group_of};
ghost use Rattle.extent_groups.specs.declared.refusal.GroupRefusal.TheVariants.{NoGroup, Memory};

use crate::table::{Kept, count_parity};
use crate::{Class, GroupRefusal, GroupTable, Member};
use extents::ExtentTable;
use std::alloc::Global;

/// Whether each of the members names a drive and an extent that exist; the drive may be lost.
pub fn are_there(extents: &ExtentTable, members: &[Member]) -> bool
    ensures { IsTrue result ↔ AreThere extents.now members.now }
{
    members
        .iter()
        .all(|member| extents.has_extent(member.drive, member.extent))
}

/// Whether one of the members is on the drive.
fn is_on(drive: u8, members: &[Member]) -> bool
    ensures { result ≡ is_on drive members.now }
{
    members.iter().any(|member| member.drive == drive)
}

/// Whether two of the members are on one drive.
fn shares_drive(members: &[Member]) -> bool
    ensures { result ≡ shares_drive members.now }
{
    for (at, member) in members.iter().enumerate() {
        if is_on(member.drive, &members[at + 1..]) {
            return true;
        }
    }
    false
}

/// Gives the extents of the members to a group, or frees them.
fn give(extents: &mut ExtentTable, members: &[Member], owner: Option<u16>)
    requires { AreThere extents.old members.now }
    ensures { extents.new ≡ with_owners extents.old members.now owner }
{
    for member in members {
        extents.set_owner(member.drive, member.extent, owner);
    }
}

/// Whether a group owns one of the extents.
fn is_any_owned(extents: &ExtentTable, members: &[Member]) -> bool
    requires { AreThere extents.now members.now }
    ensures { result ≡ list_any (is_owned extents.now) members.now }
{
    for member in members {
        if extents.owner(member.drive, member.extent).is_some() {
            return true;
        }
    }
    false
}

/// Why the members can't be a group, none where they can.
pub fn put_check(extents: &ExtentTable, members: &[Member]) -> Option<GroupRefusal>
    requires { AreThere extents.now members.now }
    ensures { result ≡ put_fault extents.now members.now }
{
    if members.len() < 3 {
        return Some(GroupRefusal::TooFew);
    }
    if members.len() > 8 {
        return Some(GroupRefusal::TooMany);
    }
    // Each test looks at all members, so that the refusal doesn't depend on their order.
    if shares_drive(members) {
        return Some(GroupRefusal::SameDrive);
    }
    if is_any_owned(extents, members) {
        return Some(GroupRefusal::ExtentTaken);
    }
    None
}

/// Why a member isn't swapped for an extent that exists: one of the members, the swapped one too, is on its drive, or a group
/// owns it.
pub fn swap_check(extents: &ExtentTable, members: &[Member], to: Member) -> Option<GroupRefusal>
    requires { IsExtent extents.now to.drive to.extent }
    ensures { result ≡ swap_check_of extents.now members.now to }
{
    if is_on(to.drive, members) {
        return Some(GroupRefusal::SameDrive);
    }
    if extents.owner(to.drive, to.extent).is_some() {
        return Some(GroupRefusal::ExtentTaken);
    }
    None
}

/// Puts another extent in the place of a member of an optional group, if there are such a group and member.
fn replace(kept: &mut Option<Kept>, member: usize, to: Member)
    ensures { option_map group_of kept.new ≡ option_map (λ g. with_member g member to) (option_map group_of kept.old) }
{
    if let Some(kept) = kept {
        if member < kept.members.len() {
            kept.members[member] = to;
        }
    }
}

impl GroupTable {
    /// Makes a group, of members that pass every check, under a free number. It takes their vector, so that nothing is
    /// allocated and nothing can fail.
    pub fn enter_group(
        &mut self,
        extents: &mut ExtentTable,
        group: u16,
        class: Class,
        members: Vec<Member>,
    )
        requires free { IsFree self.old group }
        requires there { AreThere extents.old members.items }
        requires fine { put_fault extents.old members.items ≡ None }
        requires agree { Agree self.old extents.old }
        ensures made { self.new ≡ with_group self.old group (Some (record { class = class; members = members.items })) }
        ensures owned { extents.new ≡ with_owners extents.old members.items (Some group) }
        ensures agree { Agree self.new extents.new }
    {
        give(extents, &members, Some(group));
        let slots = count_parity(class, members.len() as u16, self.shape.segments as u16);
        self.parity_slots[group as usize] = slots;
        self.groups[group as usize] = Some(Kept { class, members });
    }

    /// Makes a group under a free number; refused, with nothing changed, where the members make none, or if out of memory.
    pub fn put_group(
        &mut self,
        alloc: Global,
        extents: &mut ExtentTable,
        group: u16,
        class: Class,
        members: &[Member],
    ) -> Result<(), GroupRefusal>
        requires free { IsFree self.old group }
        requires there { AreThere extents.old members.now }
        requires agree { Agree self.old extents.old }
        ensures made { OnOk result (self.new ≡ with_group self.old group (Some (record { class = class; members = members.now }))) }
        ensures owned { OnOk result (extents.new ≡ with_owners extents.old members.now (Some group)) }
        ensures passed { OnOk result (put_fault extents.old members.now ≡ None) }
        ensures refused { IfErr result (λ e. FailsFor Memory (put_fault extents.old members.now) e) }
        ensures err { OnErr result ((self.new ≡ self.old) × (extents.new ≡ extents.old)) }
        ensures agree { Agree self.new extents.new }
    {
        if let Some(refusal) = put_check(extents, members) {
            return Err(refusal);
        }
        // After the check, so that Memory is only the answer to members that could be a group.
        let Ok(kept) = Vec::from_slice(alloc, members) else {
            return Err(GroupRefusal::Memory);
        };
        self.enter_group(extents, group, class, kept);
        Ok(())
    }

    /// Dissolves a group, and frees its extents; refused where the number is free.
    pub fn take_group(&mut self, extents: &mut ExtentTable, group: u16) -> Result<(), GroupRefusal>
        requires { Agree self.old extents.old }
        ensures made { OnOk result (IsSome (group_at self.old group)) }
        ensures taken { OnOk result (self.new ≡ with_group self.old group None) }
        ensures freed { OnOk result (extents.new ≡ with_owners extents.old (members_of self.old group) None) }
        ensures refused { IfErr result (λ e. (e ≡ NoGroup) × (group_at self.old group ≡ None)) }
        ensures err { OnErr result ((self.new ≡ self.old) × (extents.new ≡ extents.old)) }
        ensures agree { Agree self.new extents.new }
    {
        let Some(kept) = self.find(group) else {
            return Err(GroupRefusal::NoGroup);
        };
        give(extents, &kept.members, None);
        self.parity_slots[group as usize] = 0;
        self.groups[group as usize] = None;
        Ok(())
    }

    /// Why a member of a group isn't swapped for the extent, none where it may be.
    pub fn swap_refusal(
        &self,
        extents: &ExtentTable,
        group: u16,
        to: Member,
    ) -> Option<GroupRefusal>
        requires { IsExtent extents.now to.drive to.extent }
        ensures { result ≡ swap_fault extents.now (group_at self.now group) to }
    {
        match self.find(group) {
            Some(kept) => swap_check(extents, &kept.members, to),
            None => Some(GroupRefusal::NoGroup),
        }
    }

    /// Puts another extent in the place of a member, which keeps its number, and frees the member's old extent.
    pub fn swap_member(
        &mut self,
        extents: &mut ExtentTable,
        group: u16,
        member: u8,
        to: Member,
    ) -> Result<(), GroupRefusal>
        requires member { IsSome (group_at self.old group) → member < length (members_of self.old group) }
        requires there { IsExtent extents.old to.drive to.extent }
        requires agree { Agree self.old extents.old }
        ensures passed { OnOk result (swap_fault extents.old (group_at self.old group) to ≡ None) }
        ensures swapped { OnOk result (IsSwap self.old self.new group member to) }
        ensures moved { OnOk result (IsMove self.old extents.old extents.new group member to) }
        ensures refused { IfErr result (λ e. swap_fault extents.old (group_at self.old group) to ≡ Some e) }
        ensures err { OnErr result ((self.new ≡ self.old) × (extents.new ≡ extents.old)) }
        ensures agree { Agree self.new extents.new }
    {
        let Some(kept) = self.find(group) else {
            return Err(GroupRefusal::NoGroup);
        };
        let members: &[Member] = &kept.members;
        if let Some(refusal) = swap_check(extents, members, to) {
            return Err(refusal);
        }
        // After all checks: from here on both tables change, and nothing can fail, so they always agree.
        let was = members[member as usize];
        extents.set_owner(was.drive, was.extent, None);
        extents.set_owner(to.drive, to.extent, Some(group));
        replace(&mut self.groups[group as usize], member as usize, to);
        Ok(())
    }
}
