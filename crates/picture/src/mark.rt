// What a unit of a drive is.
ghost use Rattle.std.specs.Prelude.{◌≡◌, ◌<◌, ◌≤◌, ◌*◌, ◌+◌, ℕ, length, Some, None, IfSome, IfNone, IsSome, slice_get};
ghost use Rattle.extents.specs.Owners.{IsExtent};
ghost use Rattle.extents.specs.Sizes.{extent_units};
ghost use Rattle.extent_groups.specs.declared.class.Member.{Member};
ghost use Rattle.extent_groups.specs.Groups.{group_at, members_of, slots_in, HasMemberAt};
ghost use Rattle.extent_groups.specs.Roles.{IsRoleIn};
ghost use Rattle.extent_groups.specs.Units.{place_of};
ghost use Rattle.picture.specs.Blocks.{block_in};
ghost use Rattle.picture.specs.Marks.{IsMark, IsMarkIn, is_second_in};

use extent_groups::{Class, GroupTable, Role, SLOTS};
use extents::ExtentTable;

/// What a unit of a drive is.
#[derive(Clone, Copy, Debug, PartialEq, Eq)]
pub enum Mark {
    /// Its extent is in no group.
    Free,
    /// The unit of a slot, or the first copy of a mirrored one; with the block that is live there, if one is.
    Unit(u16, Option<u32>),
    /// The second copy of a slot; with the block that is live there, if one is.
    SecondCopy(u16, Option<u32>),
    /// The parity of a row of this group.
    Parity(u16),
    /// In this group, and no slot's: a segment of a mirrored group that has no partner.
    Unused(u16),
    /// Its extent is owned by this group, which doesn't have it as a member.
    Stray(u16),
}

// Which member of a group an extent is, if it is one.
fn member_at(groups: &GroupTable, group: u16, drive: u8, extent: u16) -> Option<u8>
    ensures some { IfSome result (λ m. slice_get (members_of groups.now group) m ≡ Some (record { drive = drive; extent = extent })) }
    ensures none { IfNone result (HasMemberAt (members_of groups.now group) drive extent → ⊥) }
{
    let members = groups.members(group);
    for index in 0..members.len() {
        let member = members[index];
        if member.drive == drive && member.extent == extent {
            return Some(index as u8);
        }
    }
    None
}

// The block that is live in a slot.
fn block_at(blocks: &[Option<u32>], slot: u16) -> Option<u32>
    ensures { result ≡ block_in blocks.now slot }
{
    let slot = slot as usize;
    if slot < blocks.len() {
        blocks[slot]
    } else {
        None
    }
}

// Whether a member has the second copy of an index.
fn is_second(groups: &GroupTable, group: u16, index: u16, member: u8) -> bool
    requires { index < slots_in groups.now.segments (group_at groups.now group) }
    ensures { result ≡ is_second_in (group_at groups.now group) index member }
{
    match groups.class_of(group) {
        Some(Class::Mirrored) => groups.copies(group, index).second.member == member,
        _ => false,
    }
}

// The number of a group's slot.
fn slot_of(groups: &GroupTable, group: u16, index: u16) -> u16
    requires { index < slots_in groups.now.segments (group_at groups.now group) }
    ensures number { result ≡ 128 * group + index }
    ensures low { index < 128 }
{
    // Nothing is read: by this call's clause the table has 512 numbers, so that a slot's number fits 16 bits.
    let _members = groups.members(group);
    group * SLOTS + index
}

// What lies at an offset of a group's member.
fn mark_in(groups: &GroupTable, blocks: &[Option<u32>], group: u16, member: u8, offset: u16) -> Mark
    requires member { member < length (members_of groups.now group) }
    requires offset { offset < extent_units groups.now.segments }
    ensures { (m : Member) → slice_get (members_of groups.now group) member ≡ Some m
        → IsMarkIn groups.now blocks.now group (place_of groups.now.segments offset m) result }
{
    let _members = groups.members(group);
    match groups.role(group, member, offset) {
        Role::ParityUnit => Mark::Parity(group),
        Role::Unused => Mark::Unused(group),
        Role::Slot(index) => {
            let slot = slot_of(groups, group, index);
            let block = block_at(blocks, slot);
            if is_second(groups, group, index, member) {
                Mark::SecondCopy(slot, block)
            } else {
                Mark::Unit(slot, block)
            }
        }
    }
}

/// What the unit at an offset of a drive's extent is, with blocks as `blocks_by_slot` has them. Takes constant time.
pub fn mark_of(
    groups: &GroupTable,
    extents: &ExtentTable,
    blocks: &[Option<u32>],
    drive: u8,
    extent: u16,
    offset: u16,
) -> Mark
    requires extent { IsExtent extents.now drive extent }
    requires offset { offset < extent_units groups.now.segments }
    ensures { IsMark groups.now extents.now blocks.now drive extent offset result }
{
    let Some(group) = extents.owner(drive, extent) else {
        return Mark::Free;
    };
    let Some(member) = member_at(groups, group, drive, extent) else {
        return Mark::Stray(group);
    };
    mark_in(groups, blocks, group, member, offset)
}
