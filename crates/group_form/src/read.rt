// Groups from their units.
ghost use Rattle.std.specs.Prelude.{◌≡◌, ◌<◌, ℕ, Some, length, slice_get, IsTrue, IfOk, OnOk};
ghost use Rattle.extents.specs.Shapes.{IsShapeOf};
ghost use Rattle.extent_groups.specs.Groups.{Agree, AreGroups, Groups};
ghost use Rattle.group_form.specs.Form.{SpellsGroups, group_unit};

use crate::fault::FormFault;
use crate::spell::{FORM_BYTES, FORM_UNITS, GROUP_UNITS, put_count, put_group_unit};
use extent_groups::{Class, GROUPS, GroupRefusal, GroupTable, Member, are_there};
use extents::{ExtentTable, Shape};
use std::alloc::{AllocError, Global};

/// What units spell.
#[derive(Drop)]
pub struct Spelled {
    pub groups: GroupTable,
    /// The owners of the extents.
    pub extents: ExtentTable,
    /// The number of drives.
    pub drives: u8,
}

// The class of a number.
fn class_of(number: u8) -> Option<Class> {
    match number {
        1 => Some(Class::Mirrored),
        2 => Some(Class::Parity),
        _ => None,
    }
}

// The member with these bytes, if there is one.
fn member_of(number: u8, drive: u8, low: u8, high: u8) -> Option<Member> {
    if number == 0 {
        return None;
    }
    Some(Member {
        drive,
        extent: u16::from(high) * 256 + u16::from(low),
    })
}

// Puts the members of a unit after others.
fn take_members(members: &mut Vec<Member>, unit: [u8; FORM_BYTES]) -> Result<(), AllocError> {
    for index in 0..4usize {
        let at = 4 * index;
        if let Some(member) = member_of(unit[at], unit[at + 1], unit[at + 2], unit[at + 3]) {
            members.push(member)?;
        }
    }
    Ok(())
}

// Makes a group of these members.
fn enter(
    alloc: Global,
    groups: &mut GroupTable,
    extents: &mut ExtentTable,
    group: u16,
    class: Class,
    members: &[Member],
) -> Result<(), FormFault>
    requires agree { Agree groups.old extents.old }
    ensures agree { Agree groups.new extents.new }
    ensures sizes { (groups.new.extents ≡ groups.old.extents) × (groups.new.segments ≡ groups.old.segments)
        × (groups.new.payload ≡ groups.old.payload) × (groups.new.blocks ≡ groups.old.blocks) }
{
    if !are_there(extents, members) || !groups.is_free(group) {
        return Err(FormFault::Misfit);
    }
    match groups.put_group(alloc, extents, group, class, members) {
        Ok(()) => Ok(()),
        Err(GroupRefusal::Memory) => Err(FormFault::Memory),
        Err(_) => Err(FormFault::Misfit),
    }
}

// Makes the group that two units have, if they have one.
fn take_group(
    alloc: Global,
    groups: &mut GroupTable,
    extents: &mut ExtentTable,
    members: &mut Vec<Member>,
    group: u16,
    first: [u8; FORM_BYTES],
    second: [u8; FORM_BYTES],
) -> Result<(), FormFault>
    requires agree { Agree groups.old extents.old }
    ensures agree { Agree groups.new extents.new }
    ensures sizes { (groups.new.extents ≡ groups.old.extents) × (groups.new.segments ≡ groups.old.segments)
        × (groups.new.payload ≡ groups.old.payload) × (groups.new.blocks ≡ groups.old.blocks) }
{
    members.clear();
    take_members(members, first)?;
    take_members(members, second)?;
    let Some(class) = class_of(first[0]) else {
        return Ok(());
    };
    enter(alloc, groups, extents, group, class, members)
}

// The groups that units have. What isn't right in the units may make other groups: `spells` tells.
fn build(
    alloc: Global,
    shape: &Shape,
    units: &[[u8; FORM_BYTES]],
    drives: u8,
) -> Result<(GroupTable, ExtentTable), FormFault>
    requires many { length units.now ≡ 1025 }
    ensures shape { IfOk result (λ t. IsShapeOf shape.now t.0.extents t.0.segments t.0.payload t.0.blocks) }
    ensures agree { IfOk result (λ t. Agree t.0 t.1) }
{
    let mut groups = GroupTable::new(alloc, shape)?;
    let mut extents = ExtentTable::new(alloc, drives, shape)?;
    let mut members = Vec::new(alloc);
    for group in 0..GROUPS as u16 {
        let at = 2 * group as usize;
        take_group(
            alloc,
            &mut groups,
            &mut extents,
            &mut members,
            group,
            units[at],
            units[at + 1],
        )?;
    }
    Ok((groups, extents))
}

// Whether two units are the same.
fn is_same(unit: &[u8; FORM_BYTES], other: &[u8]) -> bool
    ensures { IsTrue result → unit.now ≡ other.now }
{
    unit[..] == other[..]
}

// Whether the units are those of these groups.
fn spells(
    alloc: Global,
    groups: &GroupTable,
    drives: u8,
    units: &[[u8; FORM_BYTES]],
) -> Result<bool, AllocError>
    requires many { length units.now ≡ 1025 }
    ensures spelled { IfOk result (λ is. IsTrue is → SpellsGroups groups.now drives units.now) }
    ensures groups { AreGroups groups.now }
{
    let mut unit = Vec::new(alloc);
    let _ = groups.parity_slots();
    for index in 0..GROUP_UNITS {
        put_group_unit(&mut unit, groups, index)?;
        if !is_same(&units[index as usize], &unit) {
            return Ok(false);
        }
    }
    put_count(&mut unit, drives)?;
    Ok(is_same(&units[GROUP_UNITS as usize], &unit))
}

/// The groups that units spell, and the number of drives. `Misfit` where they spell none of these sizes.
pub fn read_groups(
    alloc: Global,
    shape: &Shape,
    units: &[[u8; FORM_BYTES]],
) -> Result<Spelled, FormFault>
    ensures spelled { IfOk result (λ s. SpellsGroups s.groups s.drives units.now) }
    ensures shape { IfOk result (λ s. IsShapeOf shape.now s.groups.extents s.groups.segments s.groups.payload s.groups.blocks) }
    ensures agree { IfOk result (λ s. Agree s.groups s.extents) }

    // They spell no others.
    ensures only { (other : Groups) (count : ℕ) → AreGroups other → IsShapeOf shape.now other.extents other.segments other.payload other.blocks
        → SpellsGroups other count units.now → IfOk result (λ s. (s.groups ≡ other) × (s.drives ≡ count)) }
{
    if units.len() != FORM_UNITS as usize {
        return Err(FormFault::Misfit);
    }
    let drives = units[GROUP_UNITS as usize][0];
    let (groups, extents) = build(alloc, shape, units, drives)?;
    if !spells(alloc, &groups, drives, units)? {
        return Err(FormFault::Misfit);
    }
    Ok(Spelled {
        groups,
        extents,
        drives,
    })
}
