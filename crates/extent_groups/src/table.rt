// The groups by number.
ghost use Rattle.std.specs.Prelude.{◌≡◌, ◌↔◌, IsTrue, ℕ, ◌+◌, ◌/◌, ◌<◌, ◌≤◌, Bool, length};
ghost use Rattle.std.specs.Prelude.{Some, None, IfOk, OnOk, OnErr, IfErr, MatchOption, OnSome, slice_get, replicate};
ghost use Rattle.extent_groups.specs.Groups.{parity_count};
ghost use Rattle.extent_groups.specs.Geometry.{slot_count, copies_of, parity_of, stripe_of, AreCopies, IsStripe};

use crate::{Class, Copies, Member, MirroredAt, ParityAt, Place, Stripe, geometry};
use extents::Shape;
use std::alloc::{AllocError, Global};
use std::marker::Model;

/// How many numbers there are for groups.
pub const GROUPS: usize = 512;

/// How many slot numbers belong to each group number: 128, so that the slots of 512 groups take all numbers of 16 bits.
pub const SLOTS: u16 = 128;

/// A group that is made.
#[derive(Drop)]
pub(crate) struct Kept {
    pub(crate) class: Class,
    pub(crate) members: Vec<Member>,
}

/// The groups of an array, by number: which are made, with which class and members.
#[derive(Drop)]
pub struct GroupTable {
    pub(crate) shape: Shape,
    pub(crate) groups: Vec<Option<Kept>>,
    // How many slots each parity group has, by number; plans walk these, and not the groups.
    pub(crate) parity_slots: Vec<u16>,
}

impl Model for GroupTable {
    ghost use Rattle.extent_groups.specs.Groups.{Groups};

    ghost Value = { Groups };

    ghost use Rattle.extent_groups.specs.Kept.{IsSoundTable, groups_in};

    ghost view = { λ t. groups_in t.shape t.groups.items };

    ghost invariant = { λ t. IsSoundTable t.shape t.groups.items t.parity_slots.items };
}

/// `count` numbers that are free.
fn free_numbers(alloc: Global, count: usize) -> Result<Vec<Option<Kept>>, AllocError>
    ensures { IfOk result (λ v. v.items ≡ replicate count None) }
{
    let mut numbers = Vec::with_capacity(alloc, count)?;
    // One by one, because a group can't be copied.
    for _number in 0..count {
        numbers.push(None)?;
    }
    Ok(numbers)
}

// How many slots a group of `members` members and `segments` segments has, if it is a parity group, and else 0.
pub(crate) fn count_parity(class: Class, members: u16, segments: u16) -> u16
    requires some { 1 ≤ members }
    requires few { members ≤ 8 }
    requires short { segments ≤ 8 }
    ensures { result ≡ parity_count class members segments }
{
    match class {
        Class::Mirrored => 0,
        Class::Parity => count_slots(class, members, segments),
    }
}

/// How many slots a group of `members` members and `segments` segments has.
pub fn count_slots(class: Class, members: u16, segments: u16) -> u16
    requires some { 1 ≤ members }
    requires few { members ≤ 8 }
    requires short { segments ≤ 8 }
    ensures { result ≡ slot_count class members segments }
{
    match class {
        Class::Mirrored => 2 * (members * segments / 2),
        Class::Parity => 2 * segments * (members - 1),
    }
}

impl GroupTable {
    ghost use Rattle.extents.specs.Shapes.{IsShapeOf};
    ghost use Rattle.extents.specs.Owners.{all_free};
    ghost use Rattle.extent_groups.specs.Groups.{group_at, class_in, slots_in, parity_slots_of, members_of, AreGroups, Agree, IsFree};
    ghost use Rattle.extent_groups.specs.Kept.{group_of};
    ghost use Rattle.extents.specs.Sizes.{extent_units};
    ghost use Rattle.extent_groups.specs.Layout.{IsLayout};
    ghost use Rattle.extent_groups.specs.Units.{Pair, InStripe, site_of, places_of};
    ghost use Rattle.extent_groups.specs.Stores.{IsSlotOf, IsGroupOf};
    ghost use Rattle.extent_groups.specs.Cursors.{IsMirroredAt, IsParityAt};
    ghost use Rattle.extent_groups.specs.declared.class.Class.TheVariants.{Mirrored, Parity};

    /// A table of this shape, without groups; refused if out of memory.
    pub fn new(alloc: Global, shape: &Shape) -> Result<GroupTable, AllocError>
        ensures shape { IfOk result (λ t. IsShapeOf shape.now t.extents t.segments t.payload t.blocks) }
        ensures free { IfOk result (λ t. (g : ℕ) → group_at t g ≡ None) }
        ensures groups { IfOk result AreGroups }
        ensures agree { IfOk result (λ t. (drives : ℕ) → Agree t (all_free drives shape.now.extents)) }
    {
        Ok(GroupTable {
            shape: *shape,
            groups: free_numbers(alloc, GROUPS)?,
            parity_slots: vec![in alloc; 0; GROUPS]?,
        })
    }

    /// The sizes of the array.
    pub fn shape(&self) -> Shape
        ensures { IsShapeOf result self.now.extents self.now.segments self.now.payload self.now.blocks }
    {
        self.shape
    }

    pub(crate) fn find(&self, group: u16) -> Option<&Kept>
        ensures made { MatchOption result (group_at self.now group ≡ None) (λ k. group_at self.now group ≡ Some (group_of k.now)) }
        ensures within { OnSome result (group < length self.now.table) }
        ensures groups { AreGroups self.now }
    {
        let group = group as usize;
        if group >= self.groups.len() {
            return None;
        }
        self.groups[group].as_ref()
    }

    /// Whether the number is one for groups, and free.
    pub fn is_free(&self, group: u16) -> bool
        ensures { IsTrue result ↔ IsFree self.now group }
    {
        (group as usize) < self.groups.len() && self.find(group).is_none()
    }

    /// The class of a group, none where the number is free.
    pub fn class_of(&self, group: u16) -> Option<Class>
        ensures { result ≡ class_in (group_at self.now group) }
    {
        let kept = self.find(group)?;
        Some(kept.class)
    }

    /// The members of a group in the order in which they were given, none where the number is free.
    pub fn members(&self, group: u16) -> &[Member]
        ensures members { result.now ≡ members_of self.now group }
        ensures groups { AreGroups self.now }
    {
        match self.find(group) {
            Some(kept) => &kept.members,
            None => &[],
        }
    }

    /// How many slots a group has, 0 where the number is free; any two slots of the table lie apart.
    pub fn slots_of(&self, group: u16) -> u16
        ensures count { result ≡ slots_in self.now.segments (group_at self.now group) }
        ensures layout { IsLayout self.now }
    {
        match self.find(group) {
            Some(kept) => {
                let members: &[Member] = &kept.members;
                count_slots(kept.class, members.len() as u16, self.shape.segments as u16)
            }
            None => 0,
        }
    }

    /// How many slots each parity group has, by its number; 0 where the number is free or its group mirrored.
    pub fn parity_slots(&self) -> &[u16]
        ensures slots { result.now ≡ parity_slots_of self.now }
        ensures groups { AreGroups self.now }
    {
        &self.parity_slots
    }

    /// The two copies of a mirrored slot.
    pub fn copies(&self, group: u16, index: u16) -> Copies
        requires mirrored { class_in (group_at self.now group) ≡ Some Mirrored }
        requires slot { index < slots_in self.now.segments (group_at self.now group) }
        ensures at { result ≡ copies_of (length (members_of self.now group)) index }
        ensures law { AreCopies (length (members_of self.now group)) self.now.segments index result }
    {
        self.copies_among(self.members(group), group, index)
    }

    // The two copies of a mirrored slot, by its group's members.
    #[inline(always)]
    fn copies_among(&self, members: &[Member], group: u16, index: u16) -> Copies
        requires mirrored { class_in (group_at self.now group) ≡ Some Mirrored }
        requires slot { index < slots_in self.now.segments (group_at self.now group) }
        requires members { IsGroupOf self.now group members.now }
        ensures at { result ≡ copies_of (length members.now) index }
        ensures law { AreCopies (length members.now) self.now.segments index result }
    {
        geometry::two_copies(members.len() as u8, index)
    }

    /// The place at an offset of a group's member.
    pub fn place(&self, group: u16, member: u8, offset: u16) -> Place
        requires member { member < length (members_of self.now group) }
        requires offset { offset < extent_units self.now.segments }
        ensures place { slice_get (places_of self.now.segments (members_of self.now group) offset) member ≡ Some result }
        ensures groups { AreGroups self.now }
    {
        self.place_among(self.members(group), member, offset)
    }

    /// The place at an offset of one of these members, for a caller that has found a group's members already.
    #[inline(always)]
    pub fn place_among(&self, members: &[Member], member: u8, offset: u16) -> Place
        requires member { member < length members.now }
        requires offset { offset < extent_units self.now.segments }
        ensures place { slice_get (places_of self.now.segments members.now offset) member ≡ Some result }
    {
        let member = members[member as usize];
        Place {
            drive: member.drive,
            address: self.shape.unit_address(member.extent, offset),
        }
    }

    /// The two places of a mirrored slot.
    pub fn pair_of(&self, slot: u16) -> (Place, Place)
        requires { IsSlotOf Mirrored self.now slot }
        ensures site { site_of self.now slot ≡ Some (Pair result.0 result.1) }
        ensures groups { AreGroups self.now }
    {
        let members = self.members(slot / SLOTS);
        self.pair_among(members, &self.locate_mirrored(members, slot))
    }

    /// A mirrored slot with where its copies lie, by the members of its group.
    #[inline(always)]
    pub fn locate_mirrored(&self, members: &[Member], slot: u16) -> MirroredAt
        requires slot { IsSlotOf Mirrored self.now slot }
        requires members { IsGroupOf self.now (slot / 128) members.now }
        ensures slot { result.slot ≡ slot }
        ensures copies { IsMirroredAt (length members.now) result }
    {
        MirroredAt {
            slot,
            copies: self.copies_among(members, slot / SLOTS, slot % SLOTS),
        }
    }

    /// The two places of a mirrored slot, by the members of its group, which a caller that reads many of its slots finds once.
    #[inline(always)]
    pub fn pair_among(&self, members: &[Member], at: &MirroredAt) -> (Place, Place)
        requires slot { IsSlotOf Mirrored self.now at.now.slot }
        requires members { IsGroupOf self.now (at.now.slot / 128) members.now }
        requires copies { IsMirroredAt (length members.now) at.now }
        ensures site { site_of self.now at.now.slot ≡ Some (Pair result.0 result.1) }
    {
        let first = self.place_among(members, at.copies.first.member, at.copies.first.offset);
        let second = self.place_among(members, at.copies.second.member, at.copies.second.offset);
        (first, second)
    }

    /// The stripe of a parity slot.
    pub fn row_of(&self, slot: u16) -> Stripe
        requires { IsSlotOf Parity self.now slot }
        ensures site { site_of self.now slot
            ≡ Some (InStripe (places_of self.now.segments (members_of self.now (slot / 128)) result.offset) result.parity result.member) }
        ensures inside { (result.offset < extent_units self.now.segments) × (length (members_of self.now (slot / 128)) ≤ 8) }
        ensures groups { AreGroups self.now }
    {
        let members = self.members(slot / SLOTS);
        self.row_among(members, &self.locate_parity(members, slot))
    }

    /// A parity slot with where it lies, by the members of its group.
    #[inline(always)]
    pub fn locate_parity(&self, members: &[Member], slot: u16) -> ParityAt
        requires slot { IsSlotOf Parity self.now slot }
        requires members { IsGroupOf self.now (slot / 128) members.now }
        ensures slot { result.slot ≡ slot }
        ensures stripe { IsParityAt (length members.now) result }
    {
        ParityAt {
            slot,
            stripe: self.stripe_among(members, slot / SLOTS, slot % SLOTS),
        }
    }

    /// The stripe of a parity slot, by the members of its group, which a caller that reads many of its slots finds once.
    #[inline(always)]
    pub fn row_among(&self, members: &[Member], at: &ParityAt) -> Stripe
        requires slot { IsSlotOf Parity self.now at.now.slot }
        requires members { IsGroupOf self.now (at.now.slot / 128) members.now }
        requires stripe { IsParityAt (length members.now) at.now }
        ensures site { site_of self.now at.now.slot ≡ Some (InStripe (places_of self.now.segments members.now result.offset) result.parity result.member) }
        ensures inside { (result.offset < extent_units self.now.segments) × (length members.now ≤ 8) }
    {
        at.stripe
    }

    /// Where a parity slot lies, and the parity of its offset.
    pub fn stripe_of(&self, group: u16, index: u16) -> Stripe
        requires parity { class_in (group_at self.now group) ≡ Some Parity }
        requires slot { index < slots_in self.now.segments (group_at self.now group) }
        ensures at { result ≡ stripe_of (length (members_of self.now group)) index }
        ensures law { IsStripe (length (members_of self.now group)) self.now.segments index result }
    {
        self.stripe_among(self.members(group), group, index)
    }

    // The stripe of a parity slot, by its group's members.
    #[inline(always)]
    fn stripe_among(&self, members: &[Member], group: u16, index: u16) -> Stripe
        requires parity { class_in (group_at self.now group) ≡ Some Parity }
        requires slot { index < slots_in self.now.segments (group_at self.now group) }
        requires members { IsGroupOf self.now group members.now }
        ensures at { result ≡ stripe_of (length members.now) index }
        ensures law { IsStripe (length members.now) self.now.segments index result }
        ensures few { length members.now ≤ 8 }
    {
        geometry::one_stripe(members.len() as u8, index)
    }

    /// The member that holds the parity of an offset of a parity group.
    pub fn parity_member(&self, group: u16, offset: u16) -> u8
        requires parity { class_in (group_at self.now group) ≡ Some Parity }
        requires offset { offset < extent_units self.now.segments }
        ensures member { result ≡ parity_of (length (members_of self.now group)) (offset / 2) }
        ensures inside { (result < length (members_of self.now group)) × (length (members_of self.now group) ≤ 8) }
        ensures groups { AreGroups self.now }
    {
        let members = self.members(group).len() as u8;
        geometry::parity_at(members, (offset / 2) as u8)
    }
}
