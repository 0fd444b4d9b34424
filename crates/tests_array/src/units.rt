// The units of an array and of a world by slot number, against what was written there.
ghost use Rattle.std.specs.Prelude.{IsTrue};
ghost use Rattle.unit_store.specs.Slots.{IsSlot};

use crate::asserts::check;
use crate::rig::{Rig, payload_of, record};
use extent_groups::{GroupTable, SLOTS};
use map_join::Record;
use std::alloc::Global;
use std::process::Abort;
use step_core::{Class, Refusal, World};
use unit_store::Units;

/// Bytes of a unit, header and payload.
pub(crate) const UNIT: usize = 56;

// Bytes of two units.
const TWO_UNITS: usize = 112;

/// Whether the slot is one of a made group.
pub(crate) fn is_slot(groups: &GroupTable, slot: u16) -> bool
    ensures { IsTrue result → IsSlot groups.now slot }
{
    slot % SLOTS < groups.slots_of(slot / SLOTS)
}

// The unit of a slot.
fn unit_of<U: Units>(rt: &impl Abort, units: &mut U, slot: u16) -> Result<[u8; UNIT], Refusal>
    requires { U.fits units.old }
    ensures { U.fits units.new }
{
    check!(rt; is_slot(units.groups(), slot));
    check!(rt; units.groups().shape().unit_bytes() == UNIT);
    let mut unit = [9; UNIT];
    units.unit(slot, &mut unit, &mut [7; TWO_UNITS])?;
    Ok(unit)
}

/// The header of a record in layout 2, of data (0) or of a trim (1).
pub(crate) fn header_of(reported: Record, kind: u8) -> [u8; 32] {
    let mut header = [0; 32];
    header[..4].copy_from_slice(b"RBH2");
    header[4..8].copy_from_slice(&reported.block.to_be_bytes());
    header[8..12].copy_from_slice(&reported.version.to_be_bytes());
    header[12..14].copy_from_slice(&reported.hop.to_be_bytes());
    header[14..16].copy_from_slice(&reported.place.to_be_bytes());
    header[16] = kind;
    header
}

/// A header and a payload, one after the other.
pub(crate) fn unit_with(header: [u8; 32], payload: [u8; 24]) -> [u8; UNIT] {
    let mut unit = [0; UNIT];
    unit[..32].copy_from_slice(&header);
    unit[32..].copy_from_slice(&payload);
    unit
}

// Slots 0 to 5 are mirrored on drives 0 to 2, slots 128 to 135 have parity on drives 1 to 3. Block 3 is at slot 2, and was at slot
// 0; block 5 is at slot 130, and was at slot 1; block 6 was trimmed at slot 4; a payload waits at slot 3, and one at slot 128.
fn written(rt: &impl Abort, alloc: Global) -> Rig {
    let mut rig = Rig::new(rt, alloc, 4);
    check!(rt; rig.make(rt, Class::Parity, [1, 2, 3], 1) == 1);
    check!(rt; rig.write(rt, 0, 3, 0x11) == record(3, 1, 0, 0));
    check!(rt; rig.write(rt, 1, 5, 0x22) == record(5, 1, 0, 1));
    check!(rt; rig.write(rt, 2, 3, 0x33) == record(3, 2, 0, 2));
    check!(rt; rig.carry(rt, 130, 5) == record(5, 1, 1, 130));
    check!(rt; rig.drop_block(rt, 4, 6) == record(6, 1, 0, 4));
    check!(rt; rig.fill(rt, 3, 0x44).is_ok());
    check!(rt; rig.copy(rt, 128, 3).is_ok());
    rig
}

// What `written` left in a slot.
fn requested(slot: u16) -> [u8; UNIT] {
    match slot {
        0 => unit_with(header_of(record(3, 1, 0, 0), 0), payload_of(0x11)),
        1 => unit_with(header_of(record(5, 1, 0, 1), 0), payload_of(0x22)),
        2 => unit_with(header_of(record(3, 2, 0, 2), 0), payload_of(0x33)),
        3 => unit_with([0; 32], payload_of(0x44)),
        4 => unit_with(header_of(record(6, 1, 0, 4), 1), [0; 24]),
        128 => unit_with([0; 32], payload_of(0x33)),
        130 => unit_with(header_of(record(5, 1, 1, 130), 0), payload_of(0x22)),
        _ => [0; UNIT],
    }
}

// Whether these slots are gone, and the others hold what `written` left.
fn are_as_written<U: Units>(rt: &impl Abort, units: &mut U, gone: &[u16]) -> bool
    requires { U.fits units.old }
    ensures { U.fits units.new }
{
    for slot in (0..6u16).chain(128..136) {
        let expected = if gone.contains(&slot) {
            Err(Refusal::Gone(slot))
        } else {
            Ok(requested(slot))
        };
        if unit_of(rt, units, slot) != expected {
            return false;
        }
    }
    true
}

#[test]
fn an_array_reads_a_unit_as_the_drives_hold_it(rt: HostRuntime) {
    let mut rig = written(&rt, rt.alloc());
    check!(rt; are_as_written(&rt, &mut rig.array, &[]));
    rig.lose(&rt, 1);
    check!(rt; are_as_written(&rt, &mut rig.array, &[]));
    rig.fuse(&rt, 0, 1);
    check!(rt; are_as_written(&rt, &mut rig.array, &[0, 1]));
}

#[test]
fn a_world_reads_a_unit_as_the_drives_hold_it(rt: HostRuntime) {
    let rig = written(&rt, rt.alloc());
    let Ok(mut world) = World::of(rt.alloc(), rig.array) else {
        rt.panic("no world")
    };
    check!(rt; are_as_written(&rt, &mut world, &[]));
    check!(rt; 3 < world.array().drive_count());
    world.lose(2);
    check!(rt; are_as_written(&rt, &mut world, &[]));
    world.lose(3);
    check!(rt; are_as_written(&rt, &mut world, &[130, 131, 134, 135]));
}
