// Copying the units of a group's member to another extent, one by one.
ghost use Rattle.std.specs.Prelude.{◌≡◌, ◌⊎◌, ◌*◌, ◌<◌, true, length, replicate, OnOk, IfErr};
ghost use Rattle.std.specs.Bool.{MatchBool};
ghost use Rattle.extents.specs.Sizes.{extent_units};
ghost use Rattle.extent_groups.specs.declared.role.Role.TheVariants.{Slot, ParityUnit, Unused};
ghost use Rattle.extent_groups.specs.Calls.{AreSized, IsPlace, NoPlace, Only, SameBut, KeepsDrives};
ghost use Rattle.extent_groups.specs.Cells.{cells, held};
ghost use Rattle.extent_groups.specs.Groups.{group_at};
ghost use Rattle.extent_groups.specs.Missing.{missing_of};
ghost use Rattle.extent_groups.specs.Roles.{IsRoleIn};
ghost use Rattle.extent_groups.specs.Stores.{unit_bytes, HasMemberOn};
ghost use Rattle.extent_groups.specs.Units.{place_of};
ghost use Rattle.extent_groups.specs.Wiping.{IsInExtent};
ghost use Rattle.flat_machine.specs.Moves.{IsUnrecoverable};
ghost use Rattle.unit_store.specs.Shifting.{IsRoute, IsUnitFor, IsOnTarget, AreOnTarget, IsUsed, StopsFor};

use crate::slots::read_slot;
use crate::unit::clear;
use extent_groups::{GroupTable, Member, Place, Role, SLOTS, read_place, write_place};
use extents::Drive;
use parity_store::read_parity;

/// Which member of a group goes onto which extent.
#[derive(Clone, Copy)]
pub(crate) struct Route {
    pub(crate) group: u16,
    pub(crate) member: u8,
    pub(crate) from: Member,
    pub(crate) to: Member,
}

/// Why copying a member's units to another extent stopped.
#[derive(Clone, Copy)]
pub(crate) enum Stop {
    /// A unit of the member can't be read or rebuilt: its drive is lost, and so is another that the rebuild needs.
    Beyond,
    /// The other extent's drive is lost.
    TargetLost,
}

/// The place at an offset of an extent.
fn place_in(groups: &GroupTable, member: Member, offset: u16) -> Place
    requires { offset < extent_units groups.now.segments }
    ensures { result ≡ place_of groups.now.segments offset member }
{
    let shape = groups.shape();
    Place {
        drive: member.drive,
        address: shape.unit_address(member.extent, offset),
    }
}

/// Reads the unit at a place, or fills the buffer with zeros if its drive is lost.
fn read_or_clear<D: Drive>(drives: &mut [D], place: Place, unit: &mut [u8])
    requires place { IsPlace D.units drives.old place }
    requires size { AreSized D.units (length unit.old) drives.old }
    ensures reported { (held (cells D.units D.lost drives.new) place ≡ Some unit.new)
        ⊎ ((missing_of D.lost drives.new place.drive ≡ true) × (unit.new ≡ replicate (length unit.old) 0)) }
    ensures touched { KeepsDrives D.units D.lost D.failures NoPlace drives.old drives.new }
    ensures elsewhere { SameBut (λ d. d ≡ place.drive) drives.old drives.new }
{
    if !read_place(drives, place, unit) {
        clear(unit);
    }
}

/// Reads the unit of the slot that has a unit at an offset of the member; false if it is unavailable.
fn read_index<D: Drive>(
    groups: &GroupTable,
    drives: &mut [D],
    at: Route,
    offset: u16,
    index: u16,
    unit: &mut [u8],
    scratch: &mut [u8],
) -> bool
    requires route { IsRoute D.units groups.now at.group at.member at.from at.to drives.old }
    requires offset { offset < extent_units groups.now.segments }
    requires role { IsRoleIn (group_at groups.now at.group) groups.now.segments at.member offset (Slot index) }
    requires unit { length unit.old ≡ unit_bytes groups.now }
    requires scratch { length scratch.old ≡ 2 * unit_bytes groups.now }
    ensures outcome { MatchBool result
        (IsUnitFor groups.now at.group at.member at.from offset (cells D.units D.lost drives.new) (missing_of D.lost drives.new)
        (missing_of D.lost drives.new) unit.new) (IsUnrecoverable groups.now (missing_of D.lost drives.new) at.group at.from.drive) }
    ensures touched { KeepsDrives D.units D.lost D.failures NoPlace drives.old drives.new }
    ensures elsewhere { SameBut (HasMemberOn groups.now at.group) drives.old drives.new }
{
    // By slot, not by place: the effective unit is rebuilt where the member's drive is lost.
    match read_slot(groups, drives, SLOTS * at.group + index, unit, scratch) {
        Ok(()) => true,
        Err(_) => false,
    }
}

/// Reads the parity unit at an offset of the member; false if it is unavailable.
fn read_wandering<D: Drive>(
    groups: &GroupTable,
    drives: &mut [D],
    at: Route,
    offset: u16,
    unit: &mut [u8],
    scratch: &mut [u8],
) -> bool
    requires route { IsRoute D.units groups.now at.group at.member at.from at.to drives.old }
    requires offset { offset < extent_units groups.now.segments }
    requires role { IsRoleIn (group_at groups.now at.group) groups.now.segments at.member offset ParityUnit }
    requires unit { length unit.old ≡ unit_bytes groups.now }
    requires scratch { length scratch.old ≡ 2 * unit_bytes groups.now }
    ensures outcome { MatchBool result
        (IsUnitFor groups.now at.group at.member at.from offset (cells D.units D.lost drives.new) (missing_of D.lost drives.new)
        (missing_of D.lost drives.new) unit.new) (IsUnrecoverable groups.now (missing_of D.lost drives.new) at.group at.from.drive) }
    ensures touched { KeepsDrives D.units D.lost D.failures NoPlace drives.old drives.new }
    ensures elsewhere { SameBut (HasMemberOn groups.now at.group) drives.old drives.new }
{
    read_parity(groups, drives, at.group, offset, unit, scratch)
}

/// Reads the unit at an offset where no slot lies, or fills the buffer with zeros if the member's drive is lost.
fn read_unused<D: Drive>(
    groups: &GroupTable,
    drives: &mut [D],
    at: Route,
    offset: u16,
    unit: &mut [u8],
)
    requires route { IsRoute D.units groups.now at.group at.member at.from at.to drives.old }
    requires offset { offset < extent_units groups.now.segments }
    requires role { IsRoleIn (group_at groups.now at.group) groups.now.segments at.member offset Unused }
    requires unit { length unit.old ≡ unit_bytes groups.now }
    ensures had { IsUnitFor groups.now at.group at.member at.from offset (cells D.units D.lost drives.new) (missing_of D.lost drives.new)
        (missing_of D.lost drives.new) unit.new }
    ensures touched { KeepsDrives D.units D.lost D.failures NoPlace drives.old drives.new }
    ensures elsewhere { SameBut (HasMemberOn groups.now at.group) drives.old drives.new }
{
    // Nothing depends on these bytes, so a lost one is replaced by zeros, not rebuilt.
    read_or_clear(drives, place_in(groups, at.from, offset), unit);
}

/// Reads the unit for an offset of the member, with a buffer of a unit's length and one of two units'; false if it is
/// unavailable.
fn unit_for<D: Drive>(
    groups: &GroupTable,
    drives: &mut [D],
    at: Route,
    offset: u16,
    unit: &mut [u8],
    scratch: &mut [u8],
) -> bool
    requires route { IsRoute D.units groups.now at.group at.member at.from at.to drives.old }
    requires offset { offset < extent_units groups.now.segments }
    requires unit { length unit.old ≡ unit_bytes groups.now }
    requires scratch { length scratch.old ≡ 2 * unit_bytes groups.now }
    ensures outcome { MatchBool result
        (IsUnitFor groups.now at.group at.member at.from offset (cells D.units D.lost drives.new) (missing_of D.lost drives.new)
        (missing_of D.lost drives.new) unit.new) (IsUnrecoverable groups.now (missing_of D.lost drives.new) at.group at.from.drive) }
    ensures touched { KeepsDrives D.units D.lost D.failures NoPlace drives.old drives.new }
    ensures elsewhere { SameBut (HasMemberOn groups.now at.group) drives.old drives.new }
{
    match groups.role(at.group, at.member, offset) {
        Role::Slot(index) => read_index(groups, drives, at, offset, index, unit, scratch),
        Role::ParityUnit => read_wandering(groups, drives, at, offset, unit, scratch),
        Role::Unused => {
            read_unused(groups, drives, at, offset, unit);
            true
        }
    }
}

/// Puts the unit for an offset of the member on the other extent.
fn shift_unit<D: Drive>(
    groups: &GroupTable,
    drives: &mut [D],
    at: Route,
    offset: u16,
    unit: &mut [u8],
    scratch: &mut [u8],
) -> Result<(), Stop>
    requires route { IsRoute D.units groups.now at.group at.member at.from at.to drives.old }
    requires offset { offset < extent_units groups.now.segments }
    requires unit { length unit.old ≡ unit_bytes groups.now }
    requires scratch { length scratch.old ≡ 2 * unit_bytes groups.now }
    ensures ok { OnOk result (IsOnTarget D.units D.lost groups.now at.group at.member at.from at.to offset drives.old drives.new) }
    ensures err { IfErr result (StopsFor groups.now (missing_of D.lost drives.new) at.group at.from at.to) }
    ensures touched { KeepsDrives D.units D.lost D.failures (Only (place_of groups.now.segments offset at.to)) drives.old drives.new }
    ensures elsewhere { SameBut (IsUsed groups.now at.group at.to) drives.old drives.new }
{
    if !unit_for(groups, drives, at, offset, unit, scratch) {
        return Err(Stop::Beyond);
    }
    if !write_place(drives, place_in(groups, at.to, offset), unit) {
        return Err(Stop::TargetLost);
    }
    Ok(())
}

/// Puts the units for all offsets of the member on the other extent, with a buffer of a unit's length and one
/// of two units'.
pub(crate) fn shift_units<D: Drive>(
    groups: &GroupTable,
    drives: &mut [D],
    at: Route,
    unit: &mut [u8],
    scratch: &mut [u8],
) -> Result<(), Stop>
    requires route { IsRoute D.units groups.now at.group at.member at.from at.to drives.old }
    requires unit { length unit.old ≡ unit_bytes groups.now }
    requires scratch { length scratch.old ≡ 2 * unit_bytes groups.now }
    ensures ok { OnOk result (AreOnTarget D.units D.lost D.failures groups.now at.group at.member at.from at.to
        (extent_units groups.now.segments) drives.old drives.new) }
    ensures err { IfErr result (StopsFor groups.now (missing_of D.lost drives.new) at.group at.from at.to) }
    ensures touched { KeepsDrives D.units D.lost D.failures (IsInExtent groups.now.segments at.to) drives.old drives.new }
    ensures elsewhere { SameBut (IsUsed groups.now at.group at.to) drives.old drives.new }
{
    let shape = groups.shape();
    for offset in 0..shape.extent_units() as u16 {
        if let Err(stop) = shift_unit(groups, drives, at, offset, unit, scratch) {
            return Err(stop);
        }
    }
    Ok(())
}
