// Whether the units of the drives agree: copies with each other, and parities with the units that they cover.
ghost use Rattle.std.specs.Prelude.{IsTrue};
ghost use Rattle.extent_groups.specs.declared.class.Class.TheVariants.{Mirrored};
ghost use Rattle.extent_groups.specs.Stores.{IsSlotOf};

use crate::stopped::Stopped;
use crate::trouble::Trouble;
use extent_groups::{GROUPS, GroupTable, Place, SLOTS};
use extents::Drive;
use std::alloc::Global;
use step_core::{Class, MemDrive};

// Whether the slot is one of a mirrored group.
fn is_mirrored(groups: &GroupTable, slot: u16) -> bool
    ensures { IsTrue result → IsSlotOf Mirrored groups.now slot }
{
    groups.class_of(slot / SLOTS) == Some(Class::Mirrored)
        && slot % SLOTS < groups.slots_of(slot / SLOTS)
}

/// The unit at a place, none where the drive is lost.
pub(crate) fn unit_at(
    alloc: Global,
    drives: &mut [MemDrive],
    place: Place,
) -> Result<Option<Vec<u8>>, Trouble> {
    let Some(drive) = drives.get_mut(usize::from(place.drive)) else {
        return Err(Trouble::Form);
    };
    if place.address >= drive.units() {
        return Err(Trouble::Form);
    }
    let mut unit = vec![in alloc; 0; drive.unit_bytes()]?;
    Ok(match drive.read_unit(place.address, &mut unit) {
        Ok(()) => Some(unit),
        Err(_) => None,
    })
}

/// Whether the copies of each mirrored slot are equal where both drives are present.
pub(crate) fn are_equal(alloc: Global, parts: &mut Stopped) -> Result<bool, Trouble> {
    let groups = &parts.groups;
    let drives: &mut [MemDrive] = &mut parts.drives;
    for slot in 0..=u16::MAX {
        if is_mirrored(groups, slot) && !is_pair(alloc, groups, drives, slot)? {
            return Ok(false);
        }
    }
    Ok(true)
}

// Whether the copies of a mirrored slot are equal, or one's drive is lost.
fn is_pair(
    alloc: Global,
    groups: &GroupTable,
    drives: &mut [MemDrive],
    slot: u16,
) -> Result<bool, Trouble> {
    if !is_mirrored(groups, slot) {
        return Err(Trouble::Form);
    }
    let (first, second) = groups.pair_of(slot);
    Ok(
        match (
            unit_at(alloc, drives, first)?,
            unit_at(alloc, drives, second)?,
        ) {
            (Some(one), Some(other)) => one.as_slice() == other.as_slice(),
            _ => true,
        },
    )
}

/// Whether the units at each offset of each parity group add up to zero where none of its drives is lost.
pub(crate) fn add_up(alloc: Global, parts: &mut Stopped) -> Result<bool, Trouble> {
    let groups = &parts.groups;
    let drives: &mut [MemDrive] = &mut parts.drives;
    for group in 0..GROUPS as u16 {
        if groups.class_of(group) == Some(Class::Parity)
            && !is_zero_group(alloc, groups, drives, group)?
        {
            return Ok(false);
        }
    }
    Ok(true)
}

fn is_zero_group(
    alloc: Global,
    groups: &GroupTable,
    drives: &mut [MemDrive],
    group: u16,
) -> Result<bool, Trouble> {
    for offset in 0..groups.shape().extent_units() as u16 {
        if !is_zero_row(alloc, groups, drives, group, offset)? {
            return Ok(false);
        }
    }
    Ok(true)
}

// Whether the units of a group's members at an offset add up to zero, or a drive is lost.
fn is_zero_row(
    alloc: Global,
    groups: &GroupTable,
    drives: &mut [MemDrive],
    group: u16,
    offset: u16,
) -> Result<bool, Trouble> {
    let shape = groups.shape();
    if u32::from(offset) >= shape.extent_units() {
        return Err(Trouble::Form);
    }
    let mut sum = vec![in alloc; 0; shape.unit_bytes()]?;
    for member in groups.members(group) {
        let place = Place {
            drive: member.drive,
            address: shape.unit_address(member.extent, offset),
        };
        let Some(unit) = unit_at(alloc, drives, place)? else {
            // A row without all its units can't be added up.
            return Ok(true);
        };
        for (byte, with) in sum.iter_mut().zip(unit.iter()) {
            *byte ^= *with;
        }
    }
    Ok(sum.iter().all(|byte| *byte == 0))
}

/// All units of the drives that are present, one after the other. Also those of no slot: a refused restart changes none.
pub(crate) fn all_units(alloc: Global, parts: &mut Stopped) -> Result<Vec<u8>, Trouble> {
    let mut units = Vec::new(alloc);
    for drive in &mut parts.drives {
        for address in 0..drive.units() {
            // The test never fails; `read_unit` requires it.
            if address < drive.units() {
                let mut unit = vec![in alloc; 0; drive.unit_bytes()]?;
                if drive.read_unit(address, &mut unit).is_ok() {
                    units.extend_from_slice(&unit)?;
                }
            }
        }
    }
    Ok(units)
}
