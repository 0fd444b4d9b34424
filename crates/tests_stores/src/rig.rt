// Two groups of drives in memory, with buffers for a store's calls.
ghost use Rattle.std.specs.Prelude.{◌≡◌, ◌*◌, ◌+◌, ℕ, length, slice_get, Some, IfOk, IsTrue};
ghost use Rattle.extents.specs.Condition.{Held};
ghost use Rattle.extents.specs.Units.{zero_units};
ghost use Rattle.extents.specs.Sizes.{extent_units};
ghost use Rattle.extents.specs.declared.shape.TheConstants.{HEADER_BYTES};
ghost use Rattle.extent_groups.specs.declared.class.Class.TheVariants.{Mirrored, Parity};
ghost use Rattle.extent_groups.specs.Groups.{Agree, class_in, group_at};
ghost use Rattle.extent_groups.specs.Stores.{IsSlotOf, AreDrives};

use crate::asserts::check;
use crate::tables::shape_of;
use extent_groups::{Class, GroupTable, Member, SLOTS, StoreRefusal, are_there, wipe_extent};
use extents::{Drive, ExtentTable, HEADER_BYTES, HotSwap, MemDrive, Shape};
use std::alloc::{AllocError, Global};
use std::process::Abort;

/// Bytes of a unit, header and payload.
pub(crate) const SIZE: usize = 40;

/// Two groups of one class over all drives, one of each extent.
#[derive(Drop)]
pub(crate) struct Rig {
    pub(crate) class: Class,
    groups: GroupTable,
    drives: Vec<MemDrive>,
    /// What the last read gave, or what the next write writes.
    pub(crate) unit: Vec<u8>,
    scratch: Vec<u8>,
    ghost ready: { AreDrives (λ (m : Held). m.units) groups drives.items },
}

/// `count` drives of zeros.
fn new_drives(alloc: Global, shape: &Shape, count: usize) -> Result<Vec<MemDrive>, AllocError>
    ensures many { IfOk result (λ v. length v.items ≡ count) }
    ensures zero { IfOk result (λ v. (d : ℕ) (x : Held) → slice_get v.items d ≡ Some x
        → x.units ≡ zero_units (HEADER_BYTES + shape.now.payload) (shape.now.extents * extent_units shape.now.segments)) }
{
    let mut drives = Vec::with_capacity(alloc, count)?;
    for _drive in 0..count {
        drives.push(MemDrive::new(alloc, shape)?)?;
    }
    Ok(drives)
}

/// The extent of this number of each drive.
pub(crate) fn across(alloc: Global, drives: u8, extent: u16) -> Result<Vec<Member>, AllocError> {
    let mut members = Vec::with_capacity(alloc, drives as usize)?;
    for drive in 0..drives {
        members.push(Member { drive, extent })?;
    }
    Ok(members)
}

/// Makes a group of the members, under the number of their extent.
pub(crate) fn make(
    rt: &impl Abort,
    alloc: Global,
    groups: &mut GroupTable,
    extents: &mut ExtentTable,
    class: Class,
    group: u16,
    members: &[Member],
)
    requires { Agree groups.old extents.old }
    ensures agree { Agree groups.new extents.new }
    ensures sizes { (groups.new.extents ≡ groups.old.extents) × (groups.new.segments ≡ groups.old.segments) × (groups.new.payload ≡ groups.old.payload) }
    ensures rows { (length extents.new.rows ≡ length extents.old.rows) × (extents.new.extents ≡ extents.old.extents) }
{
    check!(rt; are_there(extents, members));
    check!(rt; groups.is_free(group));
    let Ok(()) = groups.put_group(alloc, extents, group, class, members) else {
        rt.panic("no group");
    };
}

/// Two groups of all drives, and drives of zeros.
fn set_up(
    rt: &impl Abort,
    alloc: Global,
    class: Class,
    drives: u8,
    segments: u32,
) -> Result<(GroupTable, Vec<MemDrive>), AllocError>
    ensures { IfOk result (λ r. AreDrives (λ (m : Held). m.units) r.0 r.1.items) }
{
    let shape = shape_of(rt, 2, segments);
    let mut extents = ExtentTable::new(alloc, drives, &shape)?;
    let mut groups = GroupTable::new(alloc, &shape)?;
    let first = across(alloc, drives, 0)?;
    let second = across(alloc, drives, 1)?;
    make(rt, alloc, &mut groups, &mut extents, class, 0, &first);
    make(rt, alloc, &mut groups, &mut extents, class, 1, &second);
    let all = new_drives(alloc, &shape, drives as usize)?;
    Ok((groups, all))
}

/// Whether the slot is one of a group of this class.
pub(crate) fn is_slot(groups: &GroupTable, class: Class, slot: u16) -> bool
    ensures { IsTrue result → IsSlotOf class groups.now slot }
{
    if slot % SLOTS >= groups.slots_of(slot / SLOTS) {
        return false;
    }
    match (groups.class_of(slot / SLOTS), class) {
        (Some(Class::Mirrored), Class::Mirrored) | (Some(Class::Parity), Class::Parity) => true,
        _ => false,
    }
}

/// Whether the group is a parity group.
fn has_parity(groups: &GroupTable, group: u16) -> bool
    ensures { IsTrue result → class_in (group_at groups.now group) ≡ Some Parity }
{
    match groups.class_of(group) {
        Some(Class::Parity) => true,
        _ => false,
    }
}

/// Writes a unit to a mirrored slot in two pieces, its header and its payload.
fn write_pieces(
    groups: &GroupTable,
    drives: &mut [MemDrive],
    slot: u16,
    unit: &[u8],
    scratch: &mut [u8],
) -> Result<(), StoreRefusal>
    requires slot { IsSlotOf Mirrored groups.now slot }
    requires drives { AreDrives (λ (m : Held). m.units) groups.now drives.old }
    requires unit { length unit.now ≡ HEADER_BYTES + groups.now.payload }
    requires scratch { length scratch.old ≡ 2 * (HEADER_BYTES + groups.now.payload) }
    ensures drives { AreDrives (λ (m : Held). m.units) groups.now drives.new }
{
    let (header, payload) = unit.split_at(HEADER_BYTES);
    let (whole, _part) = scratch.split_at_mut(unit.len());
    mirrored_store::write_gathered(groups, drives, slot, header, payload, whole)
}

impl Rig {
    /// Two groups of all drives, and zeros on them.
    pub(crate) fn new(
        rt: &impl Abort,
        alloc: Global,
        class: Class,
        drives: u8,
        segments: u32,
    ) -> Result<Rig, AllocError> {
        let (groups, drives) = set_up(rt, alloc, class, drives, segments)?;
        Ok(Rig {
            class,
            groups,
            drives,
            unit: vec![in alloc; 0; SIZE]?,
            scratch: vec![in alloc; 0; 2 * SIZE]?,
        })
    }

    /// Whether the slot is one of the groups.
    pub(crate) fn has(&self, slot: u16) -> bool {
        is_slot(&self.groups, self.class, slot)
    }

    fn has_buffers(&self) -> bool
        ensures { IsTrue result → (length self.now.unit.items ≡ HEADER_BYTES + self.now.groups.payload)
            × (length self.now.scratch.items ≡ 2 * (HEADER_BYTES + self.now.groups.payload)) }
    {
        let size = self.groups.shape().unit_bytes();
        self.unit.len() == size && self.scratch.len() == 2 * size
    }

    /// Writes the buffered unit to a slot, in two pieces to a mirrored one of odd number.
    pub(crate) fn write(&mut self, rt: &impl Abort, slot: u16) -> Result<(), StoreRefusal> {
        check!(rt; self.has_buffers());
        let drives: &mut [MemDrive] = &mut self.drives;
        if is_slot(&self.groups, Class::Mirrored, slot) {
            if slot % 2 == 1 {
                return write_pieces(&self.groups, drives, slot, &self.unit, &mut self.scratch);
            }
            return mirrored_store::write(&self.groups, drives, slot, &self.unit, &mut self.scratch);
        }
        check!(rt; is_slot(&self.groups, Class::Parity, slot));
        parity_store::write(&self.groups, drives, slot, &self.unit, &mut self.scratch)
    }

    /// Reads a slot into the buffer.
    pub(crate) fn read(&mut self, rt: &impl Abort, slot: u16) -> Result<(), StoreRefusal> {
        check!(rt; self.has_buffers());
        let drives: &mut [MemDrive] = &mut self.drives;
        if is_slot(&self.groups, Class::Mirrored, slot) {
            return mirrored_store::read(&self.groups, drives, slot, &mut self.unit);
        }
        check!(rt; is_slot(&self.groups, Class::Parity, slot));
        parity_store::read(
            &self.groups,
            drives,
            slot,
            &mut self.unit,
            &mut self.scratch,
        )
    }

    /// Reads the header of a slot alone.
    pub(crate) fn read_header(
        &mut self,
        rt: &impl Abort,
        slot: u16,
        header: &mut [u8],
    ) -> Result<(), StoreRefusal> {
        check!(rt; self.has_buffers());
        check!(rt; header.len() == HEADER_BYTES);
        let drives: &mut [MemDrive] = &mut self.drives;
        if is_slot(&self.groups, Class::Mirrored, slot) {
            return mirrored_store::read_header(
                &self.groups,
                drives,
                slot,
                header,
                &mut self.scratch,
            );
        }
        check!(rt; is_slot(&self.groups, Class::Parity, slot));
        parity_store::read_header(&self.groups, drives, slot, header, &mut self.scratch)
    }

    /// Reads the parity at an offset of a group, after asserting that it is a parity group.
    pub(crate) fn read_parity(&mut self, rt: &impl Abort, group: u16, offset: u16) -> bool {
        check!(rt; self.has_buffers());
        check!(rt; has_parity(&self.groups, group));
        check!(rt; (offset as u32) < self.groups.shape().extent_units());
        let drives: &mut [MemDrive] = &mut self.drives;
        parity_store::read_parity(
            &self.groups,
            drives,
            group,
            offset,
            &mut self.unit,
            &mut self.scratch,
        )
    }

    /// Writes the buffered unit over an extent, after asserting that there is such an extent.
    pub(crate) fn wipe(&mut self, rt: &impl Abort, member: Member) -> bool {
        check!(rt; self.has_buffers());
        let shape = self.groups.shape();
        assert!(rt; (member.drive as usize) < self.drives.len());
        assert!(rt; (member.extent as u32) < shape.extents);
        let drives: &mut [MemDrive] = &mut self.drives;
        wipe_extent(drives, &shape, member, &self.unit)
    }

    /// Writes a unit of one byte throughout.
    pub(crate) fn write_all(
        &mut self,
        rt: &impl Abort,
        slot: u16,
        byte: u8,
    ) -> Result<(), StoreRefusal> {
        self.unit.fill(byte);
        self.write(rt, slot)
    }

    /// Makes a drive fail at its `calls`-th read or write from now (1 = the next).
    pub(crate) fn fuse(&mut self, rt: &impl Abort, drive: usize, calls: u64) {
        check!(rt; drive < self.drives.len());
        check!(rt; calls >= 1);
        self.drives[drive].fuse(calls);
    }

    /// Whether a drive is lost.
    pub(crate) fn is_lost(&self, rt: &impl Abort, drive: usize) -> bool {
        check!(rt; drive < self.drives.len());
        self.drives[drive].is_lost()
    }

    /// Loses a drive.
    pub(crate) fn lose(&mut self, rt: &impl Abort, drive: usize) {
        check!(rt; drive < self.drives.len());
        self.drives[drive].lose();
    }

    /// The groups and the drives, for reads of the drives alone.
    pub(crate) fn open(self) -> (GroupTable, Vec<MemDrive>) {
        (self.groups, self.drives)
    }
}
