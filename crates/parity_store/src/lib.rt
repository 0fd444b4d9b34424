//! Reads and writes of parity slots: each lies once, and each offset of a group has the exclusive or of its units.
#![tactic(auto)]

mod carry;
mod exclusive_or;
mod listing;
mod others;
mod parity;
mod stripe;
mod target;
mod way;

ghost use Rattle.std.specs.Prelude.{◌≡◌, ◌<◌, ◌≤◌, ◌+◌, ◌*◌, ◌/◌, length, Some, None, OnOk, OnErr, IfErr};
ghost use Rattle.extents.specs.declared.shape.TheConstants.{HEADER_BYTES};
ghost use Rattle.extent_groups.specs.declared.class.Class.TheVariants.{Parity};
ghost use Rattle.extent_groups.specs.Cells.{cells, front};
ghost use Rattle.extent_groups.specs.Calls.{if_ok, NoPlace, SameBut, KeepsDrives, FadesAt};
ghost use Rattle.extent_groups.specs.Cursors.{IsParityAt};
ghost use Rattle.extent_groups.specs.Groups.{group_at, class_in, slots_in};
ghost use Rattle.extent_groups.specs.Stores.{unit_bytes, unit_of, header_of, IsBuffer, AreHeaders, AreSound, IsSlotOf};
ghost use Rattle.extent_groups.specs.Stores.{AreDrives, WroteSlot, NamesGone, IsOwnOf, IsGroupOf, ReadLeaves};
ghost use Rattle.extent_groups.specs.declared.place.Place.{Place};
ghost use Rattle.extent_groups.specs.Planned.{WroteByPlan};

pub use exclusive_or::xor_into;
use extent_groups::{GroupTable, Member, ParityAt, SLOTS, StoreRefusal};
use extents::{Drive, HEADER_BYTES};
pub use listing::plan;
pub use parity::read_parity;
pub use way::Way;

/// Reads the effective unit of a slot, with two buffers of a unit's length; refused where the unit's drive and another member's
/// are lost.
pub fn read<D: Drive>(
    groups: &GroupTable,
    drives: &mut [D],
    slot: u16,
    unit: &mut [u8],
    scratch: &mut [u8],
) -> Result<(), StoreRefusal>
    requires slot { IsSlotOf Parity groups.now slot }
    requires drives { AreDrives D.units groups.now drives.old }
    requires unit { length unit.old ≡ unit_bytes groups.now }
    requires scratch { length scratch.old ≡ 2 * unit_bytes groups.now }
    ensures ok { OnOk result (unit_of groups.now (cells D.units D.lost drives.new) slot ≡ Some unit.new) }
    ensures gone { IfErr result (NamesGone groups.now (cells D.units D.lost drives.new) slot) }
    ensures leaves { ReadLeaves D.units D.lost D.failures groups.now (slot / 128) drives.old drives.new }
{
    let size = unit.len();
    let group = slot / SLOTS;
    let members = groups.members(group);
    let at = groups.locate_parity(members, slot);
    let row = groups.row_among(members, &at);
    let part = &mut scratch[..size];
    stripe::read_stripe(groups, members, drives, group, &row, unit, part, &mut [])
        .then_some(())
        .ok_or(StoreRefusal::Gone(slot))
}

/// Reads the header of a slot's effective unit alone, with a buffer of two units' length; refused where that unit's read is.
pub fn read_header<D: Drive>(
    groups: &GroupTable,
    drives: &mut [D],
    slot: u16,
    header: &mut [u8],
    scratch: &mut [u8],
) -> Result<(), StoreRefusal>
    requires slot { IsSlotOf Parity groups.now slot }
    requires drives { AreDrives D.units groups.now drives.old }
    requires header { length header.old ≡ HEADER_BYTES }
    requires scratch { length scratch.old ≡ 2 * unit_bytes groups.now }
    ensures ok { OnOk result (header_of groups.now (cells D.units D.lost drives.new) slot ≡ Some header.new) }
    ensures gone { IfErr result (NamesGone groups.now (cells D.units D.lost drives.new) slot) }
    ensures leaves { ReadLeaves D.units D.lost D.failures groups.now (slot / 128) drives.old drives.new }
{
    let members = groups.members(slot / SLOTS);
    let at = groups.locate_parity(members, slot);
    read_header_at(groups, members, drives, &at, header, scratch)
        .then_some(())
        .ok_or(StoreRefusal::Gone(slot))
}

/// Reads the header of a slot by where it lies, with a buffer of two units' length; false where the unit's drive and another
/// member's are lost.
#[inline(always)]
fn read_header_at<D: Drive>(
    groups: &GroupTable,
    members: &[Member],
    drives: &mut [D],
    at: &ParityAt,
    header: &mut [u8],
    scratch: &mut [u8],
) -> bool
    requires slot { IsSlotOf Parity groups.now at.now.slot }
    requires members { IsGroupOf groups.now (at.now.slot / 128) members.now }
    requires stripe { IsParityAt (length members.now) at.now }
    requires drives { AreDrives D.units groups.now drives.old }
    requires header { length header.old ≡ HEADER_BYTES }
    requires scratch { length scratch.old ≡ 2 * unit_bytes groups.now }
    ensures header { header_of groups.now (cells D.units D.lost drives.new) at.now.slot ≡ if_ok result header.new }
    ensures leaves { ReadLeaves D.units D.lost D.failures groups.now (at.now.slot / 128) drives.old drives.new }
{
    let row = groups.row_among(members, at);
    let group = at.slot / SLOTS;
    let (whole, rest) = scratch.split_at_mut(scratch.len() / 2);
    let part = &mut rest[..header.len()];
    stripe::read_stripe(groups, members, drives, group, &row, header, part, whole)
}

/// Reads the headers of a parity group's slots in ascending order, that of index i into `headers[i]`, with a buffer of two
/// units' length. `headers` has one buffer for each of the group's slots. Returns the index of the first slot whose drive and
/// another member's are lost, or the count of slots. Each slot's place is found from that of the slot before it.
pub fn read_headers<D: Drive>(
    groups: &GroupTable,
    drives: &mut [D],
    group: u16,
    headers: &mut [[u8; HEADER_BYTES]],
    scratch: &mut [u8],
) -> u16
    requires group { group < 512 }
    requires parity { class_in (group_at groups.now group) ≡ Some Parity }
    requires many { length headers.old ≡ slots_in groups.now.segments (group_at groups.now group) }
    requires drives { AreDrives D.units groups.now drives.old }
    requires scratch { length scratch.old ≡ 2 * unit_bytes groups.now }
    ensures read { AreSound groups.now (cells D.units D.lost drives.old)
        → AreHeaders groups.now (cells D.units D.lost drives.old) group result headers.new }
    ensures gone { result < length headers.old → unit_of groups.now (cells D.units D.lost drives.new) (128 * group + result) ≡ None }
    ensures within { result ≤ length headers.old }
    ensures leaves { ReadLeaves D.units D.lost D.failures groups.now group drives.old drives.new }
{
    let members = groups.members(group);
    let count = groups.slots_of(group);
    let mut at = ParityAt::first(members.len() as u8, group);
    for index in 0..count {
        let header = &mut headers[index as usize];
        if !read_header_at(groups, members, drives, &at, header, scratch) {
            return index;
        }
        at = at.next(members.len() as u8);
    }
    count
}

/// Writes the unit of a slot and its parity, as far as their drives aren't lost. Takes two buffers of a unit's length.
/// Refused where the unit's drive and another member's are lost.
pub fn write<D: Drive>(
    groups: &GroupTable,
    drives: &mut [D],
    slot: u16,
    unit: &[u8],
    scratch: &mut [u8],
) -> Result<(), StoreRefusal>
    requires slot { IsSlotOf Parity groups.now slot }
    requires drives { AreDrives D.units groups.now drives.old }
    requires unit { length unit.now ≡ unit_bytes groups.now }
    requires scratch { length scratch.old ≡ 2 * unit_bytes groups.now }
    ensures ok { OnOk result (unit_of groups.now (cells D.units D.lost drives.new) slot ≡ Some unit.now) }
    ensures gone { IfErr result (NamesGone groups.now (cells D.units D.lost drives.new) slot) }
    ensures wrote { WroteSlot groups.now (cells D.units D.lost drives.old) (cells D.units D.lost drives.new) slot unit.now }
    ensures planned { OnOk result (WroteByPlan groups.now (cells D.units D.lost drives.old) (cells D.units D.lost drives.new) slot unit.now) }
    ensures unwritten { OnErr result ((x : Place) → FadesAt (cells D.units D.lost drives.old) (cells D.units D.lost drives.new) x) }
    ensures touched { KeepsDrives D.units D.lost D.failures (IsOwnOf groups.now slot) drives.old drives.new }
    ensures drives { AreDrives D.units groups.now drives.new }
{
    let target = target::Target::of_slot(groups, slot);
    let (part, sum) = scratch.split_at_mut(unit.len());
    carry::write_stripe(groups, drives, &target, unit, part, sum)
        .then_some(())
        .ok_or(StoreRefusal::Gone(slot))
}
