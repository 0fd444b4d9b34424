// Reads of slots of either class.
ghost use Rattle.std.specs.Prelude.{◌≡◌, ◌+◌, ◌*◌, ◌/◌, ◌<◌, ◌≤◌, length, Some, None, OnOk, IfErr};
ghost use Rattle.extents.specs.declared.shape.TheConstants.{HEADER_BYTES};
ghost use Rattle.extent_groups.specs.Cells.{cells};
ghost use Rattle.extent_groups.specs.Groups.{group_at, slots_in};
ghost use Rattle.extent_groups.specs.Stores.{unit_bytes, unit_of, header_of, AreHeaders, AreSound, AreDrives, NamesGone, ReadLeaves};
ghost use Rattle.unit_store.specs.Slots.{IsSlot};

use extent_groups::{Class, GroupTable, SLOTS, StoreRefusal};
use extents::{Drive, HEADER_BYTES};

/// Reads the effective unit of a slot of either class.
pub(crate) fn read_slot<D: Drive>(
    groups: &GroupTable,
    drives: &mut [D],
    slot: u16,
    unit: &mut [u8],
    scratch: &mut [u8],
) -> Result<(), StoreRefusal>
    requires slot { IsSlot groups.now slot }
    requires drives { AreDrives D.units groups.now drives.old }
    requires unit { length unit.old ≡ unit_bytes groups.now }
    requires scratch { length scratch.old ≡ 2 * unit_bytes groups.now }
    ensures ok { OnOk result (unit_of groups.now (cells D.units D.lost drives.new) slot ≡ Some unit.new) }
    ensures gone { IfErr result (NamesGone groups.now (cells D.units D.lost drives.new) slot) }
    ensures leaves { ReadLeaves D.units D.lost D.failures groups.now (slot / 128) drives.old drives.new }
{
    match groups.class_of(slot / SLOTS) {
        Some(Class::Mirrored) => mirrored_store::read(groups, drives, slot, unit),
        _ => parity_store::read(groups, drives, slot, unit, scratch),
    }
}

/// Reads only the header of the effective unit of a slot of either class, with a buffer of two units' length.
pub(crate) fn read_slot_header<D: Drive>(
    groups: &GroupTable,
    drives: &mut [D],
    slot: u16,
    header: &mut [u8],
    scratch: &mut [u8],
) -> Result<(), StoreRefusal>
    requires slot { IsSlot groups.now slot }
    requires drives { AreDrives D.units groups.now drives.old }
    requires header { length header.old ≡ HEADER_BYTES }
    requires scratch { length scratch.old ≡ 2 * unit_bytes groups.now }
    ensures ok { OnOk result (header_of groups.now (cells D.units D.lost drives.new) slot ≡ Some header.new) }
    ensures gone { IfErr result (NamesGone groups.now (cells D.units D.lost drives.new) slot) }
    ensures leaves { ReadLeaves D.units D.lost D.failures groups.now (slot / 128) drives.old drives.new }
{
    match groups.class_of(slot / SLOTS) {
        Some(Class::Mirrored) => mirrored_store::read_header(groups, drives, slot, header, scratch),
        _ => parity_store::read_header(groups, drives, slot, header, scratch),
    }
}

/// Reads the headers of a group's slots in ascending order, that of index i into `headers[i]`, with a buffer of two units'
/// length. Returns how many come before the first slot that is gone: all where none is.
pub(crate) fn read_group_headers<D: Drive>(
    groups: &GroupTable,
    drives: &mut [D],
    group: u16,
    headers: &mut [[u8; HEADER_BYTES]],
    scratch: &mut [u8],
) -> u16
    requires group { group < 512 }
    requires many { length headers.old ≡ slots_in groups.now.segments (group_at groups.now group) }
    requires drives { AreDrives D.units groups.now drives.old }
    requires scratch { length scratch.old ≡ 2 * unit_bytes groups.now }
    ensures read { AreSound groups.now (cells D.units D.lost drives.old)
        → AreHeaders groups.now (cells D.units D.lost drives.old) group result headers.new }
    ensures gone { result < length headers.old → unit_of groups.now (cells D.units D.lost drives.new) (128 * group + result) ≡ None }
    ensures within { result ≤ length headers.old }
    ensures leaves { ReadLeaves D.units D.lost D.failures groups.now group drives.old drives.new }
{
    match groups.class_of(group) {
        Some(Class::Mirrored) => {
            mirrored_store::read_headers(groups, drives, group, headers, scratch)
        }
        Some(Class::Parity) => parity_store::read_headers(groups, drives, group, headers, scratch),
        None => 0,
    }
}
