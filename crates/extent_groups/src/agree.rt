// Whether groups and owners agree, for tables that come from outside.
ghost use Rattle.std.specs.Prelude.{◌≡◌, ◌↔◌, IsTrue, ℕ, ◌<◌, Option, Some, List, length, slice_get};
ghost use Rattle.std.specs.List.{list_any};
ghost use Rattle.extents.specs.Owners.{IsExtent, owner_of, owner_row};
ghost use Rattle.extent_groups.specs.Groups.{members_of, AreOwned, HasMemberAt, RowMatches, Agree, is_extent};

use crate::{GROUPS, GroupTable, Member};
use extents::ExtentTable;

/// Whether a member names an extent that exists, and the group owns it.
fn is_owned_by(extents: &ExtentTable, member: Member, group: u16) -> bool
    ensures { IsTrue result ↔ (IsExtent extents.now member.drive member.extent × (owner_of extents.now member.drive member.extent ≡ Some group)) }
{
    if !extents.has_extent(member.drive, member.extent) {
        return false;
    }
    match extents.owner(member.drive, member.extent) {
        Some(owner) => owner == group,
        None => false,
    }
}

/// Whether all members name extents that exist, and the group owns them.
fn are_owned(extents: &ExtentTable, members: &[Member], group: u16) -> bool
    ensures { IsTrue result ↔ AreOwned extents.now members.now group }
{
    members
        .iter()
        .all(|member| is_owned_by(extents, *member, group))
}

/// Whether one of the members is this extent.
fn matches(members: &[Member], drive: usize, extent: usize) -> bool
    ensures { result ≡ list_any (is_extent drive extent) members.now }
{
    members.iter().any(|member| member.drive as usize == drive && member.extent as usize == extent)
}

impl GroupTable {
    /// Whether each member of each group names an extent that exists, and its group owns it.
    fn owns_its_extents(&self, extents: &ExtentTable) -> bool
        ensures { IsTrue result ↔ ((g : ℕ) → AreOwned extents.now (members_of self.now g) g) }
    {
        // Nothing is read: by this call's clause the table has 512 numbers, so that the walk sees all groups.
        let _members = self.members(0);
        for group in 0..GROUPS as u16 {
            if !are_owned(extents, self.members(group), group) {
                return false;
            }
        }
        true
    }

    /// Whether the group that owns an extent of a drive's row, if one does, has it as a member.
    fn has_owned(&self, row: &[Option<u16>], drive: usize, extent: usize) -> bool
        requires { extent < length row.now }
        ensures { IsTrue result ↔ ((g : ℕ) → slice_get row.now extent ≡ Some (Some g) → HasMemberAt (members_of self.now g) drive extent) }
    {
        match row[extent] {
            None => true,
            Some(group) => matches(self.members(group), drive, extent),
        }
    }

    /// Whether each owned extent of a drive's row is a member of its owner.
    fn has_row(&self, row: &[Option<u16>], drive: usize) -> bool
        ensures { IsTrue result ↔ RowMatches self.now row.now drive }
    {
        for extent in 0..row.len() {
            if !self.has_owned(row, drive, extent) {
                return false;
            }
        }
        true
    }

    /// Whether each owned extent is a member of its owner.
    fn has_what_is_owned(&self, extents: &ExtentTable) -> bool
        ensures { IsTrue result ↔ ((drive : ℕ) → drive < length extents.now.rows → RowMatches self.now (owner_row extents.now drive) drive) }
    {
        for drive in 0..extents.drives() {
            if !self.has_row(extents.owners(drive), drive) {
                return false;
            }
        }
        true
    }

    /// Whether the groups and the owners agree.
    pub fn agrees(&self, extents: &ExtentTable) -> bool
        ensures { IsTrue result ↔ Agree self.now extents.now }
    {
        // Nothing is read: by this call's clause each row has all extents, so that the walk sees all owners.
        let _drives = extents.drives();
        // Both ways, because a table from outside may have a member without its owner, or an owner without its member.
        self.owns_its_extents(extents) && self.has_what_is_owned(extents)
    }
}
