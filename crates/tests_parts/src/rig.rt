// The parts of an array of drives in memory, with buffers for their calls.
ghost use Rattle.std.specs.Prelude.{◌≡◌, ◌*◌, ◌<◌, ◌≤◌, ℕ, length, slice_get, None, Some, IsTrue};
ghost use Rattle.extent_groups.specs.declared.class.Member.{Member};
ghost use Rattle.extent_groups.specs.Faults.{put_fault};
ghost use Rattle.extent_groups.specs.Groups.{AreThere, IsFree};
ghost use Rattle.extent_groups.specs.Stores.{unit_bytes};
ghost use Rattle.unit_store.specs.Fit.{IsFit};
ghost use Rattle.unit_store.specs.Memory.{held_units};
ghost use Rattle.unit_store.specs.Slots.{IsSlot};

use crate::asserts::check;
use consistency_check::{find_unsound, is_sound};
use extent_groups::{Class, GroupTable, Member, SLOTS, are_there, put_check};
use extents::{Drive, ExtentTable, Header, Kind, MemDrive, Shape};
use flat_machine::Refusal;
use header_scan::{ScanFault, restart, scan, scan_groups};
use map_join::{BlockMap, Record};
use std::alloc::Global;
use std::process::Abort;
use step_core::{Array, Plain};
use unit_store::{Parts, Sight};

/// Bytes of a unit, header and payload.
pub(crate) const SIZE: usize = 56;

/// Four drives of eight extents of two segments, and payloads of 24 bytes.
#[derive(Drop)]
pub(crate) struct Rig {
    pub(crate) parts: Parts<MemDrive>,
    /// What the last read gave, or what the next write writes.
    pub(crate) unit: Vec<u8>,
    /// What the last sight or reading of a payload gave.
    pub(crate) payload: [u8; 24],
    scratch: Vec<u8>,
}

pub(crate) fn record(block: u32, version: u32, hop: u16, place: u16) -> Record {
    Record {
        block,
        version,
        hop,
        place,
    }
}

/// The byte at an index of the bytes that a first byte names: all different, or zeros for 0.
pub(crate) fn byte_at(first: u8, at: usize) -> u8 {
    if first == 0 {
        return 0;
    }
    first.wrapping_add(((at % 256) as u8).wrapping_mul(29))
}

/// Fills a buffer with the bytes that this first one names.
pub(crate) fn fill_from(bytes: &mut [u8], first: u8) {
    for (at, byte) in bytes.iter_mut().enumerate() {
        *byte = byte_at(first, at);
    }
}

/// Whether these are the bytes that this first one names.
pub(crate) fn is_of(bytes: &[u8], first: u8) -> bool {
    bytes
        .iter()
        .enumerate()
        .all(|(at, byte)| *byte == byte_at(first, at))
}

/// Whether these are the exclusive or of what two first bytes name.
fn is_of_both(bytes: &[u8], one: u8, other: u8) -> bool {
    bytes.iter().enumerate().all(|(at, byte)| *byte == byte_at(one, at) ^ byte_at(other, at))
}

/// A buffer of `size` zeros.
pub(crate) fn zeros(rt: &impl Abort, alloc: Global, size: usize) -> Vec<u8> {
    let Ok(bytes) = vec![in alloc; 0; size] else {
        rt.panic("no buffer")
    };
    bytes
}

/// Four drives of a shape, all of whose units are zero.
fn four_drives(rt: &impl Abort, alloc: Global, shape: &Shape) -> Vec<MemDrive> {
    let mut drives = Vec::new(alloc);
    for _drive in 0..4 {
        let Ok(drive) = MemDrive::new(alloc, shape) else {
            rt.panic("no drive")
        };
        check!(rt; drives.push(drive).is_ok());
    }
    drives
}

/// An extent of this number on each of these drives in turn.
pub(crate) fn members_on(
    rt: &impl Abort,
    alloc: Global,
    drives: &[u8],
    extent: u16,
) -> Vec<Member> {
    let mut members = Vec::new(alloc);
    for drive in drives {
        let member = Member {
            drive: *drive,
            extent,
        };
        check!(rt; members.push(member).is_ok());
    }
    members
}

/// Whether each member's drive number is below `drives`.
fn are_on(drives: usize, members: &[Member]) -> bool
    ensures { IsTrue result → (k : ℕ) (m : Member) → slice_get members.now k ≡ Some m → m.drive < drives }
{
    members
        .iter()
        .all(|member| (member.drive as usize) < drives)
}

/// Whether the slot is one of a made group.
pub(crate) fn is_slot(groups: &GroupTable, slot: u16) -> bool
    ensures { IsTrue result → IsSlot groups.now slot }
{
    slot % SLOTS < groups.slots_of(slot / SLOTS)
}

/// What a restart makes of drives in memory: an array and the claims left over, or a fault, the parts and
/// all claims.
pub(crate) type Restarted = Result<
    (Array<MemDrive, Plain>, Vec<Plain>),
    (ScanFault, Parts<MemDrive>, Vec<Plain>),
>;

/// Rebuilds an array from parts that fit, with these claims.
pub(crate) fn restart_parts(
    rt: &impl Abort,
    alloc: Global,
    parts: Parts<MemDrive>,
    claims: Vec<Plain>,
) -> Restarted {
    check!(rt; parts.is_fit());
    restart(alloc, parts, claims)
}

impl Rig {
    /// Drives all of whose units are zero, and no group.
    pub(crate) fn new(rt: &impl Abort, alloc: Global) -> Rig {
        let Ok(shape) = Shape::new(8, 2, 24, 16) else {
            rt.panic("no shape")
        };
        let Ok(groups) = GroupTable::new(alloc, &shape) else {
            rt.panic("no groups")
        };
        let Ok(extents) = ExtentTable::new(alloc, 4, &shape) else {
            rt.panic("no extents")
        };
        let drives = four_drives(rt, alloc, &shape);
        Rig {
            parts: Parts {
                shape,
                groups,
                extents,
                drives,
                note: None,
            },
            unit: zeros(rt, alloc, SIZE),
            payload: [0; 24],
            scratch: zeros(rt, alloc, 2 * SIZE),
        }
    }

    /// Slots 0 to 5 are mirrored on drives 0 to 2.
    pub(crate) fn mirrored(rt: &impl Abort, alloc: Global) -> Rig {
        let mut rig = Rig::new(rt, alloc);
        check!(rt;
            rig.make(rt, alloc, 0, Class::Mirrored, &[0, 1, 2], 0)
                .is_ok()
        );
        rig
    }

    /// Slots 0 to 5 are mirrored on drives 0 to 2, and slots 128 to 135 have parity on drives 1 to 3.
    pub(crate) fn grouped(rt: &impl Abort, alloc: Global) -> Rig {
        let mut rig = Rig::mirrored(rt, alloc);
        check!(rt; rig.make(rt, alloc, 1, Class::Parity, &[1, 2, 3], 1).is_ok());
        rig
    }

    /// Whether the parts fit, and the buffers them.
    fn is_ready(&self) -> bool
        ensures fit { IsTrue result → IsFit held_units self.now.parts }
        ensures unit { IsTrue result → length self.now.unit.items ≡ unit_bytes self.now.parts.groups }
        ensures scratch { IsTrue result → length self.now.scratch.items ≡ 2 * unit_bytes self.now.parts.groups }
    {
        let size = self.parts.groups.shape().unit_bytes();
        if self.unit.len() != size || self.scratch.len() != 2 * size {
            return false;
        }
        self.parts.is_fit()
    }

    /// Reads a slot into the buffer.
    pub(crate) fn read(&mut self, rt: &impl Abort, slot: u16) -> Result<(), Refusal> {
        check!(rt; self.is_ready());
        check!(rt; is_slot(&self.parts.groups, slot));
        self.parts.read(slot, &mut self.unit, &mut self.scratch)
    }

    /// Writes what the buffer holds to a slot.
    fn store(&mut self, rt: &impl Abort, slot: u16) -> Result<(), Refusal> {
        check!(rt; self.is_ready());
        check!(rt; is_slot(&self.parts.groups, slot));
        self.parts.write(slot, &self.unit, &mut self.scratch)
    }

    /// Writes a unit that this byte names to a slot.
    pub(crate) fn write(&mut self, rt: &impl Abort, slot: u16, byte: u8) -> Result<(), Refusal> {
        fill_from(&mut self.unit, byte);
        self.store(rt, slot)
    }

    /// Writes a unit that this byte names to a slot, which is not refused.
    pub(crate) fn writes(&mut self, rt: &impl Abort, slot: u16, byte: u8) {
        check!(rt; self.write(rt, slot, byte).is_ok());
    }

    /// Puts a payload that this byte names under a blank header in a slot, which is not refused.
    pub(crate) fn put(&mut self, rt: &impl Abort, slot: u16, byte: u8) {
        check!(rt; self.is_ready());
        check!(rt; is_slot(&self.parts.groups, slot));
        check!(rt; self.parts.groups.shape().payload == 24);
        let mut payload = [0; 24];
        fill_from(&mut payload, byte);
        let put = self
            .parts
            .put(slot, &payload, &mut self.unit, &mut self.scratch);
        check!(rt; put.is_ok());
    }

    /// Writes what a slot holds into a slot, under a record's header, which is not refused.
    pub(crate) fn carry(&mut self, rt: &impl Abort, from: u16, to: u16, record: Record) {
        check!(rt; self.is_ready());
        check!(rt; is_slot(&self.parts.groups, from));
        check!(rt; is_slot(&self.parts.groups, to));
        check!(rt; record.version > 0);
        let header = Header::Is(record, Kind::Data);
        let carried = self
            .parts
            .carry(from, to, &header, &mut self.unit, &mut self.scratch);
        check!(rt; carried.is_ok());
    }

    /// Carries what a slot holds to another, or the same, each under a record's header.
    pub(crate) fn carry_all(&mut self, rt: &impl Abort, carried: &[(u16, Record)]) {
        for (from, reported) in carried {
            self.carry(rt, *from, reported.place, *reported);
        }
    }

    /// Whether a slot's unit is what this byte names.
    pub(crate) fn holds(&mut self, rt: &impl Abort, slot: u16, byte: u8) -> bool {
        self.read(rt, slot).is_ok() && is_of(&self.unit, byte)
    }

    /// Whether a read of a slot is refused as gone.
    pub(crate) fn is_gone(&mut self, rt: &impl Abort, slot: u16) -> bool {
        self.read(rt, slot) == Err(Refusal::Gone(slot))
    }

    /// Whether the unit at an address of a drive is what this byte names.
    pub(crate) fn drive_holds(&mut self, rt: &impl Abort, drive: usize, at: u32, byte: u8) -> bool {
        self.peek(rt, drive, at) && is_of(&self.unit, byte)
    }

    /// Whether the unit at an address of a drive is the exclusive or of what two bytes name.
    pub(crate) fn drive_holds_both(
        &mut self,
        rt: &impl Abort,
        drive: usize,
        at: u32,
        one: u8,
        other: u8,
    ) -> bool {
        self.peek(rt, drive, at) && is_of_both(&self.unit, one, other)
    }

    /// Sets a byte of what a slot holds, which is not refused.
    pub(crate) fn set(&mut self, rt: &impl Abort, slot: u16, at: usize, byte: u8) {
        check!(rt; self.read(rt, slot).is_ok());
        check!(rt; at < self.unit.len());
        self.unit[at] = byte;
        check!(rt; self.store(rt, slot).is_ok());
    }

    /// The map of the headers of all groups.
    pub(crate) fn scan(&mut self, rt: &impl Abort, alloc: Global) -> Result<BlockMap, ScanFault> {
        check!(rt; self.is_ready());
        scan(alloc, &mut self.parts)
    }

    /// The map of the headers of a range of groups.
    pub(crate) fn scan_groups(
        &mut self,
        rt: &impl Abort,
        alloc: Global,
        first: u16,
        end: u16,
    ) -> Result<BlockMap, ScanFault> {
        check!(rt; self.is_ready());
        check!(rt; first <= end);
        check!(rt; end <= 512);
        scan_groups(alloc, &mut self.parts, first, end)
    }

    /// The lowest slot that isn't sound.
    pub(crate) fn find_unsound(&mut self, rt: &impl Abort) -> Option<u16> {
        check!(rt; self.is_ready());
        let size = self.unit.len();
        find_unsound(&mut self.parts, &mut self.unit, &mut self.scratch[..size])
    }

    /// Whether a slot is sound.
    pub(crate) fn is_sound(&mut self, rt: &impl Abort, slot: u16) -> bool {
        check!(rt; self.is_ready());
        check!(rt; is_slot(&self.parts.groups, slot));
        let size = self.unit.len();
        is_sound(
            &mut self.parts,
            slot,
            &mut self.unit,
            &mut self.scratch[..size],
        )
    }

    /// Makes a group of an extent of this number on each of these drives in turn.
    pub(crate) fn make(
        &mut self,
        rt: &impl Abort,
        alloc: Global,
        group: u16,
        class: Class,
        drives: &[u8],
        extent: u16,
    ) -> Result<(), Refusal> {
        let members = members_on(rt, alloc, drives, extent);
        check!(rt; self.is_ready());
        check!(rt; self.parts.groups.shape().payload == 24);
        check!(rt; self.parts.groups.is_free(group));
        check!(rt; are_there(&self.parts.extents, &members));
        check!(rt; put_check(&self.parts.extents, &members).is_none());
        let zeros = [0; SIZE];
        self.parts.make(group, class, members, &zeros)
    }

    /// Lets a group enter, of an extent of this number on each of these drives in turn.
    pub(crate) fn enter(
        &mut self,
        rt: &impl Abort,
        alloc: Global,
        group: u16,
        class: Class,
        drives: &[u8],
        extent: u16,
    ) -> Result<(), Refusal> {
        let members = members_on(rt, alloc, drives, extent);
        check!(rt; self.is_ready());
        check!(rt; self.parts.groups.is_free(group));
        check!(rt; are_there(&self.parts.extents, &members));
        check!(rt; put_check(&self.parts.extents, &members).is_none());
        self.parts.enter(group, class, members, &mut self.unit)
    }

    /// Moves a group's member onto another extent.
    pub(crate) fn shift(
        &mut self,
        rt: &impl Abort,
        group: u16,
        member: u8,
        to: Member,
    ) -> Result<(), Refusal> {
        check!(rt; self.is_ready());
        check!(rt; (member as usize) < self.parts.groups.members(group).len());
        check!(rt; self.parts.extents.has_extent(to.drive, to.extent));
        check!(rt;
            self.parts
                .groups
                .swap_refusal(&self.parts.extents, group, to)
                .is_none()
        );
        self.parts
            .shift(group, member, to, &mut self.unit, &mut self.scratch)
    }

    /// Moves a group's member onto another extent, which is not refused.
    pub(crate) fn shifts(&mut self, rt: &impl Abort, group: u16, member: u8, to: Member) {
        check!(rt; self.shift(rt, group, member, to).is_ok());
    }

    /// Whether this is the lowest slot of a group that is gone, or none is.
    pub(crate) fn is_first_gone(&self, rt: &impl Abort, group: u16, expected: Option<u16>) -> bool {
        check!(rt; self.is_ready());
        self.parts.first_gone(group) == expected
    }

    /// Whether this is the first of these drives, in the order given, that is lost, or none is.
    pub(crate) fn is_first_lost(
        &self,
        rt: &impl Abort,
        alloc: Global,
        drives: &[u8],
        expected: Option<u8>,
    ) -> bool {
        let members = members_on(rt, alloc, drives, 0);
        check!(rt; are_on(self.parts.drives.len(), &members));
        self.parts.first_lost(&members) == expected
    }

    /// Reads the payload of a slot into the buffer, and returns its kind.
    pub(crate) fn take_payload(&mut self, rt: &impl Abort, slot: u16) -> Result<Kind, Refusal> {
        check!(rt; self.is_ready());
        check!(rt; is_slot(&self.parts.groups, slot));
        check!(rt; self.parts.groups.shape().payload == 24);
        self.parts
            .payload(slot, &mut self.payload, &mut self.unit, &mut self.scratch)
    }

    /// Looks for a record at its place, and reads the payload there into the buffer.
    pub(crate) fn see(&mut self, rt: &impl Abort, asked: Record) -> Result<Sight, Refusal> {
        check!(rt; self.is_ready());
        check!(rt; is_slot(&self.parts.groups, asked.place));
        check!(rt; self.parts.groups.shape().payload == 24);
        self.parts.see(&asked, &mut self.payload, &mut self.unit, &mut self.scratch)
    }

    /// Whether this group owns an extent, or none does.
    pub(crate) fn is_owned(
        &self,
        rt: &impl Abort,
        drive: u8,
        extent: u16,
        expected: Option<u16>,
    ) -> bool {
        check!(rt; self.parts.extents.has_extent(drive, extent));
        self.parts.extents.owner(drive, extent) == expected
    }

    /// Whether a group is made, of this class.
    pub(crate) fn is_of(&self, group: u16, class: Class) -> bool {
        self.parts.groups.class_of(group) == Some(class)
    }

    /// Loses a drive.
    pub(crate) fn lose(&mut self, rt: &impl Abort, drive: u8) {
        check!(rt; self.is_ready());
        check!(rt; (drive as usize) < self.parts.drives.len());
        self.parts.lose(drive);
    }

    /// Makes a drive fail at its `calls`-th read or write from now (1 = the next), and at all later ones.
    pub(crate) fn fuse(&mut self, rt: &impl Abort, drive: u8, calls: u64) {
        check!(rt; self.is_ready());
        check!(rt; (drive as usize) < self.parts.drives.len());
        check!(rt; calls >= 1);
        self.parts.fuse(drive, calls);
    }

    /// The unit at an address of a drive, read from the drive itself.
    pub(crate) fn peek(&mut self, rt: &impl Abort, drive: usize, at: u32) -> bool {
        let Some(drive) = self.parts.drives.get_mut(drive) else {
            rt.panic("no drive")
        };
        check!(rt; drive.unit_bytes() == self.unit.len());
        check!(rt; at < drive.units());
        drive.read_unit(at, &mut self.unit).is_ok()
    }

    /// Writes a unit that this byte names at an address of a drive, on the drive itself.
    pub(crate) fn poke(&mut self, rt: &impl Abort, drive: usize, at: u32, byte: u8) -> bool {
        fill_from(&mut self.unit, byte);
        let Some(drive) = self.parts.drives.get_mut(drive) else {
            rt.panic("no drive")
        };
        check!(rt; drive.unit_bytes() == self.unit.len());
        check!(rt; at < drive.units());
        drive.write_unit(at, &self.unit).is_ok()
    }

    /// Flips the bits of a byte of the unit at an address of a drive, on the drive itself.
    pub(crate) fn flip(&mut self, rt: &impl Abort, drive: usize, at: u32, byte: usize) {
        check!(rt; self.peek(rt, drive, at));
        check!(rt; byte < self.unit.len());
        self.unit[byte] ^= 0xFF;
        let Some(drive) = self.parts.drives.get_mut(drive) else {
            rt.panic("no drive")
        };
        check!(rt; drive.unit_bytes() == self.unit.len());
        check!(rt; at < drive.units());
        check!(rt; drive.write_unit(at, &self.unit).is_ok());
    }
}
