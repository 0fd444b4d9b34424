//! Reads and writes of mirrored slots: each lies in two copies, on two drives.
#![tactic(auto)]

mod planning;

ghost use Rattle.std.specs.Prelude.{◌≡◌, ◌<◌, ◌≤◌, ◌⊎◌, ◌+◌, ◌*◌, ◌/◌, ◌++◌, true, false, length, Some, None, [], OnOk, OnErr, IfErr};
ghost use Rattle.extent_groups.specs.declared.class.Class.TheVariants.{Mirrored};
ghost use Rattle.extents.specs.declared.shape.TheConstants.{HEADER_BYTES};
ghost use Rattle.extent_groups.specs.Cells.{cells, front, front_units};
ghost use Rattle.extent_groups.specs.Units.{Pair, unit_at};
ghost use Rattle.extent_groups.specs.Calls.{HaveFronts, HaveRoom, IsPlace, if_ok, NoPlace, SameBut, KeepsDrives, FadesAt};
ghost use Rattle.extent_groups.specs.Cursors.{IsMirroredAt};
ghost use Rattle.extent_groups.specs.Groups.{group_at, class_in, slots_in};
ghost use Rattle.extent_groups.specs.Stores.{unit_bytes, unit_of, header_of, IsBuffer, AreHeaders, AreSound, IsSlotOf, AreDrives};
ghost use Rattle.extent_groups.specs.Stores.{WroteSlot, NamesGone, IsOwnOf, AreCopies, IsGroupOf, ReadLeaves};
ghost use Rattle.extent_groups.specs.declared.place.Place.{Place};
ghost use Rattle.extent_groups.specs.Planned.{after, WroteByPlan};

use extent_groups::{GroupTable, Member, MirroredAt, Place, SLOTS, StoreRefusal, read_front};
use extents::{Drive, HEADER_BYTES};
pub use planning::plan;

/// Reads the first bytes of a slot's effective unit, `buffer.len()` of them, from the first copy whose drive isn't lost;
/// false where both are lost. Takes another buffer of a unit's length or, for a whole unit, an empty one.
#[inline(always)]
fn read_fronts<D: Drive>(
    groups: &GroupTable,
    members: &[Member],
    drives: &mut [D],
    at: &MirroredAt,
    buffer: &mut [u8],
    scratch: &mut [u8],
) -> bool
    requires slot { IsSlotOf Mirrored groups.now at.now.slot }
    requires members { IsGroupOf groups.now (at.now.slot / 128) members.now }
    requires copies { IsMirroredAt (length members.now) at.now }
    requires drives { AreDrives D.units groups.now drives.old }
    requires size { length buffer.old ≤ unit_bytes groups.now }
    requires scratch { IsBuffer (unit_bytes groups.now) (length buffer.old) (length scratch.old) }
    ensures front { front (length buffer.old) (unit_of groups.now (cells D.units D.lost drives.new) at.now.slot) ≡ if_ok result buffer.new }
    ensures whole { length buffer.old ≡ unit_bytes groups.now
        → unit_of groups.now (cells D.units D.lost drives.new) at.now.slot ≡ if_ok result buffer.new }
    ensures leaves { ReadLeaves D.units D.lost D.failures groups.now (at.now.slot / 128) drives.old drives.new }
{
    let (first, second) = groups.pair_among(members, at);
    // The first before the second, because the slot's effective unit is the first copy even where the two differ.
    if read_front(drives, first, buffer, scratch) {
        return true;
    }
    read_front(drives, second, buffer, scratch)
}

/// Reads the effective unit of a slot; refused where both copies' drives are lost.
pub fn read<D: Drive>(
    groups: &GroupTable,
    drives: &mut [D],
    slot: u16,
    unit: &mut [u8],
) -> Result<(), StoreRefusal>
    requires slot { IsSlotOf Mirrored groups.now slot }
    requires drives { AreDrives D.units groups.now drives.old }
    requires unit { length unit.old ≡ unit_bytes groups.now }
    ensures ok { OnOk result (unit_of groups.now (cells D.units D.lost drives.new) slot ≡ Some unit.new) }
    ensures gone { IfErr result (NamesGone groups.now (cells D.units D.lost drives.new) slot) }
    ensures leaves { ReadLeaves D.units D.lost D.failures groups.now (slot / 128) drives.old drives.new }
{
    let members = groups.members(slot / SLOTS);
    let at = groups.locate_mirrored(members, slot);
    read_fronts(groups, members, drives, &at, unit, &mut [])
        .then_some(())
        .ok_or(StoreRefusal::Gone(slot))
}

/// Reads the header of a slot's effective unit alone, with a buffer of two units' length; refused where that unit's read is.
pub fn read_header<D: Drive>(
    groups: &GroupTable,
    drives: &mut [D],
    slot: u16,
    header: &mut [u8],
    scratch: &mut [u8],
) -> Result<(), StoreRefusal>
    requires slot { IsSlotOf Mirrored groups.now slot }
    requires drives { AreDrives D.units groups.now drives.old }
    requires header { length header.old ≡ HEADER_BYTES }
    requires scratch { length scratch.old ≡ 2 * unit_bytes groups.now }
    ensures ok { OnOk result (header_of groups.now (cells D.units D.lost drives.new) slot ≡ Some header.new) }
    ensures gone { IfErr result (NamesGone groups.now (cells D.units D.lost drives.new) slot) }
    ensures leaves { ReadLeaves D.units D.lost D.failures groups.now (slot / 128) drives.old drives.new }
{
    let members = groups.members(slot / SLOTS);
    let at = groups.locate_mirrored(members, slot);
    read_header_at(groups, members, drives, &at, header, scratch)
        .then_some(())
        .ok_or(StoreRefusal::Gone(slot))
}

/// Reads the header of a slot by where it lies, with a buffer of two units' length; false where both copies' drives are lost.
#[inline(always)]
fn read_header_at<D: Drive>(
    groups: &GroupTable,
    members: &[Member],
    drives: &mut [D],
    at: &MirroredAt,
    header: &mut [u8],
    scratch: &mut [u8],
) -> bool
    requires slot { IsSlotOf Mirrored groups.now at.now.slot }
    requires members { IsGroupOf groups.now (at.now.slot / 128) members.now }
    requires copies { IsMirroredAt (length members.now) at.now }
    requires drives { AreDrives D.units groups.now drives.old }
    requires header { length header.old ≡ HEADER_BYTES }
    requires scratch { length scratch.old ≡ 2 * unit_bytes groups.now }
    ensures header { header_of groups.now (cells D.units D.lost drives.new) at.now.slot ≡ if_ok result header.new }
    ensures leaves { ReadLeaves D.units D.lost D.failures groups.now (at.now.slot / 128) drives.old drives.new }
{
    let (whole, _part) = scratch.split_at_mut(scratch.len() / 2);
    read_fronts(groups, members, drives, at, header, whole)
}

/// Reads the headers of a mirrored group's slots in ascending order, that of index i into `headers[i]`, with a buffer of two
/// units' length. `headers` has one buffer for each of the group's slots. Returns the index of the first slot both of whose
/// copies' drives are lost, or the count of slots. Each slot's place is found from that of the slot before it.
pub fn read_headers<D: Drive>(
    groups: &GroupTable,
    drives: &mut [D],
    group: u16,
    headers: &mut [[u8; HEADER_BYTES]],
    scratch: &mut [u8],
) -> u16
    requires group { group < 512 }
    requires mirrored { class_in (group_at groups.now group) ≡ Some Mirrored }
    requires many { length headers.old ≡ slots_in groups.now.segments (group_at groups.now group) }
    requires drives { AreDrives D.units groups.now drives.old }
    requires scratch { length scratch.old ≡ 2 * unit_bytes groups.now }
    ensures read { AreSound groups.now (cells D.units D.lost drives.old)
        → AreHeaders groups.now (cells D.units D.lost drives.old) group result headers.new }
    ensures gone { result < length headers.old → unit_of groups.now (cells D.units D.lost drives.new) (128 * group + result) ≡ None }
    ensures within { result ≤ length headers.old }
    ensures leaves { ReadLeaves D.units D.lost D.failures groups.now group drives.old drives.new }
{
    let members = groups.members(group);
    let count = groups.slots_of(group);
    let mut at = MirroredAt::first(members.len() as u8, group);
    for index in 0..count {
        let header = &mut headers[index as usize];
        if !read_header_at(groups, members, drives, &at, header, scratch) {
            return index;
        }
        at = at.next(members.len() as u8);
    }
    count
}

/// Writes the unit of a slot to the copies whose drives aren't lost; refused where both are lost.
pub fn write<D: Drive>(
    groups: &GroupTable,
    drives: &mut [D],
    slot: u16,
    unit: &[u8],
    scratch: &mut [u8],
) -> Result<(), StoreRefusal>
    requires slot { IsSlotOf Mirrored groups.now slot }
    requires drives { AreDrives D.units groups.now drives.old }
    requires unit { length unit.now ≡ unit_bytes groups.now }
    requires scratch { length scratch.old ≡ 2 * unit_bytes groups.now }
    ensures ok { OnOk result (unit_of groups.now (cells D.units D.lost drives.new) slot ≡ Some unit.now) }
    ensures gone { IfErr result (NamesGone groups.now (cells D.units D.lost drives.new) slot) }
    ensures wrote { WroteSlot groups.now (cells D.units D.lost drives.old) (cells D.units D.lost drives.new) slot unit.now }
    ensures copies { AreCopies (IsOwnOf groups.now slot) (cells D.units D.lost drives.new) unit.now }
    ensures planned { OnOk result (WroteByPlan groups.now (cells D.units D.lost drives.old) (cells D.units D.lost drives.new) slot unit.now) }
    ensures unwritten { OnErr result ((x : Place) → FadesAt (cells D.units D.lost drives.old) (cells D.units D.lost drives.new) x) }
    ensures touched { KeepsDrives D.units D.lost D.failures (IsOwnOf groups.now slot) drives.old drives.new }
    ensures drives { AreDrives D.units groups.now drives.new }
{
    let (whole, _part) = scratch.split_at_mut(unit.len());
    write_gathered(groups, drives, slot, unit, &[], whole)
}

/// Writes the unit of a slot, given as `front` and the bytes after it, `rest`, from where they lie, with a buffer of a unit's
/// length; else as `write` does.
#[inline(always)]
pub fn write_gathered<D: Drive>(
    groups: &GroupTable,
    drives: &mut [D],
    slot: u16,
    front: &[u8],
    rest: &[u8],
    scratch: &mut [u8],
) -> Result<(), StoreRefusal>
    requires slot { IsSlotOf Mirrored groups.now slot }
    requires drives { AreDrives D.units groups.now drives.old }
    requires pieces { length front.now + length rest.now ≡ unit_bytes groups.now }
    requires scratch { length scratch.old ≡ unit_bytes groups.now }
    ensures ok { OnOk result (unit_of groups.now (cells D.units D.lost drives.new) slot ≡ Some (front.now ++ rest.now)) }
    ensures gone { IfErr result (NamesGone groups.now (cells D.units D.lost drives.new) slot) }
    ensures wrote { WroteSlot groups.now (cells D.units D.lost drives.old) (cells D.units D.lost drives.new) slot (front.now ++ rest.now) }
    ensures copies { AreCopies (IsOwnOf groups.now slot) (cells D.units D.lost drives.new) (front.now ++ rest.now) }
    ensures planned { OnOk result (WroteByPlan groups.now (cells D.units D.lost drives.old) (cells D.units D.lost drives.new) slot (front.now ++ rest.now)) }
    ensures unwritten { OnErr result ((x : Place) → FadesAt (cells D.units D.lost drives.old) (cells D.units D.lost drives.new) x) }
    ensures touched { KeepsDrives D.units D.lost D.failures (IsOwnOf groups.now slot) drives.old drives.new }
    ensures drives { AreDrives D.units groups.now drives.new }
{
    let (first, second) = groups.pair_of(slot);
    // Both in any case: after a success so that the copies are equal, after a failure so that one has the unit.
    let one = extent_groups::write_gathered(drives, first, front, rest, scratch);
    let two = extent_groups::write_gathered(drives, second, front, rest, scratch);
    (one | two).then_some(()).ok_or(StoreRefusal::Gone(slot))
}
