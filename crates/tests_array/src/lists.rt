// The parts of a stopped array: a step's list of single writes, carried out in part, and a restart after it.
ghost use Rattle.std.specs.Prelude.{◌≡◌, ℕ, Some, [], ◌∷◌, length, slice_get, IsTrue};
ghost use Rattle.extent_groups.specs.declared.class.Class.TheVariants.{Mirrored, Parity};
ghost use Rattle.extent_groups.specs.Stores.{IsSlotOf};
ghost use Rattle.unit_store.specs.Fit.{IsFit};
ghost use Rattle.unit_store.specs.Memory.{held_units};
ghost use Rattle.unit_store.specs.Micros.{AreWrites};
ghost use Rattle.unit_store.specs.declared.micro.Micro.{Micro};

use crate::asserts::check;
use crate::rig::{Rig, payload_of, record};
use crate::units::{UNIT, header_of, is_slot, unit_with};
use extent_groups::{GroupTable, Planned, SLOTS};
use extents::Drive;
use header_scan::{ScanFault, restart};
use map_join::Record;
use std::alloc::Global;
use std::process::Abort;
use step_core::{Class, MemDrive, Plain};
use unit_store::{Micro, Note, Parts, run_micro};

/// Units of a drive: eight extents of four.
const DRIVE_UNITS: u32 = 32;

/// What an array is stopped with.
#[derive(Drop)]
pub(crate) struct Stop {
    pub(crate) parts: Parts<MemDrive>,
    pub(crate) alloc: Global,
}

/// Byte for byte, the exclusive or of two units.
pub(crate) fn both_of(one: [u8; UNIT], other: [u8; UNIT]) -> [u8; UNIT] {
    let mut both = one;
    for (byte, with) in both.iter_mut().zip(other.iter()) {
        *byte ^= *with;
    }
    both
}

/// The unit of a record with a payload that this byte names.
pub(crate) fn unit_of(reported: Record, byte: u8) -> [u8; UNIT] {
    unit_with(header_of(reported, 0), payload_of(byte))
}

/// A unit under a blank header, with a payload that this byte names.
pub(crate) fn blank_of(byte: u8) -> [u8; UNIT] {
    unit_with([0; 32], payload_of(byte))
}

/// A vector of these bytes.
pub(crate) fn bytes_of(rt: &impl Abort, alloc: Global, bytes: &[u8]) -> Vec<u8> {
    let Ok(bytes) = bytes.to_vec(alloc) else {
        rt.panic("no bytes")
    };
    bytes
}

/// The claims of these slots, in this order.
fn claims_of(rt: &impl Abort, alloc: Global, slots: &[u16]) -> Vec<Plain> {
    let mut claims = Vec::new(alloc);
    for slot in slots {
        check!(rt; claims.push(Plain { slot: *slot }).is_ok());
    }
    claims
}

// Whether the slot is one of a mirrored group.
fn is_mirrored(groups: &GroupTable, slot: u16) -> bool
    ensures { IsTrue result → IsSlotOf Mirrored groups.now slot }
{
    groups.class_of(slot / SLOTS) == Some(Class::Mirrored) && is_slot(groups, slot)
}

// Whether the slot is one of a parity group.
fn has_parity(groups: &GroupTable, slot: u16) -> bool
    ensures { IsTrue result → IsSlotOf Parity groups.now slot }
{
    groups.class_of(slot / SLOTS) == Some(Class::Parity) && is_slot(groups, slot)
}

// Whether what the entry writes is a unit, to a place of one of the drives.
fn is_write(parts: &Parts<MemDrive>, micro: &Micro) -> bool
    ensures { IsTrue result → AreWrites held_units parts.now (micro.now ∷ []) }
{
    let Micro::Write { drive, at, unit } = micro else {
        return true;
    };
    let Some(drive) = parts.drives.get(*drive as usize) else {
        return false;
    };
    *at < drive.units() && unit.len() == parts.groups.shape().unit_bytes()
}

// Whether what each entry writes is a unit, to a place of one of the drives.
fn is_each_write(parts: &Parts<MemDrive>, list: &[Micro]) -> bool
    ensures { IsTrue result → (k : ℕ) (m : Micro) → slice_get list.now k ≡ Some m → AreWrites held_units parts.now (m ∷ []) }
{
    list.iter().all(|micro| is_write(parts, micro))
}

// Whether what the list writes are units, to places of the drives.
fn are_writes(parts: &Parts<MemDrive>, list: &Vec<Micro>) -> bool
    ensures { IsTrue result → AreWrites held_units parts.now list.now.items }
{
    is_each_write(parts, list)
}

// The list of a note of a slot and its planned writes.
fn list_of(rt: &impl Abort, alloc: Global, slot: u16, unit: &[u8], planned: Planned) -> Vec<Micro> {
    let Planned { writes, parity } = planned;
    let unit = bytes_of(rt, alloc, unit);
    let mut list = Vec::new(alloc);
    check!(rt;
        list.push(Micro::NoteSet(Note { slot, unit, parity }))
            .is_ok()
    );
    for (drive, at, unit) in writes {
        check!(rt; list.push(Micro::Write { drive, at, unit }).is_ok());
    }
    check!(rt; list.push(Micro::NoteClear).is_ok());
    list
}

impl Stop {
    /// What an array is stopped with.
    pub(crate) fn of(rt: &impl Abort, rig: Rig) -> Stop {
        let Rig { array, alloc } = rig;
        let Ok((parts, _claims)) = array.into_parts(alloc) else {
            rt.panic("not taken apart")
        };
        Stop { parts, alloc }
    }

    /// Slots 0 to 5 are mirrored on drives 0 to 2, slots 128 to 135 have parity on drives 1 to 3. Block 3 is at slot 0, block 4
    /// at slot 130, and was at slot 1. Block 3 is copied to slot 128, and not committed there.
    pub(crate) fn written(rt: &impl Abort, alloc: Global) -> Stop {
        let mut rig = Rig::new(rt, alloc, 4);
        check!(rt; rig.make(rt, Class::Parity, [1, 2, 3], 1) == 1);
        check!(rt; rig.write(rt, 0, 3, 0x11) == record(3, 1, 0, 0));
        check!(rt; rig.write(rt, 1, 4, 0x44) == record(4, 1, 0, 1));
        check!(rt; rig.carry(rt, 130, 4) == record(4, 1, 1, 130));
        check!(rt; rig.copy(rt, 128, 3).is_ok());
        Stop::of(rt, rig)
    }

    // Whether the parts fit.
    fn is_ready(&self) -> bool
        ensures { IsTrue result → IsFit held_units self.now.parts }
    {
        self.parts.is_fit()
    }

    /// Loses these drives.
    pub(crate) fn lose(&mut self, rt: &impl Abort, drives: &[u8]) {
        for drive in drives {
            check!(rt; self.is_ready());
            check!(rt; (*drive as usize) < self.parts.drives.len());
            self.parts.lose(*drive);
        }
    }

    /// The unit at an address of a drive, none where the drive is lost.
    pub(crate) fn peek(&mut self, rt: &impl Abort, drive: usize, at: u32) -> Option<[u8; UNIT]> {
        let Some(drive) = self.parts.drives.get_mut(drive) else {
            rt.panic("no drive")
        };
        check!(rt; drive.unit_bytes() == UNIT);
        check!(rt; at < drive.units());
        let mut unit = [0; UNIT];
        match drive.read_unit(at, &mut unit) {
            Ok(()) => Some(unit),
            Err(_) => None,
        }
    }

    /// Whether the unit at an address of a drive is this one.
    pub(crate) fn holds(
        &mut self,
        rt: &impl Abort,
        drive: usize,
        at: u32,
        unit: [u8; UNIT],
    ) -> bool {
        self.peek(rt, drive, at) == Some(unit)
    }

    /// Writes the unit at an address of a drive.
    pub(crate) fn put(&mut self, rt: &impl Abort, drive: usize, at: u32, unit: &[u8; UNIT]) {
        let Some(drive) = self.parts.drives.get_mut(drive) else {
            rt.panic("no drive")
        };
        check!(rt; drive.unit_bytes() == UNIT);
        check!(rt; at < drive.units());
        check!(rt; drive.write_unit(at, unit).is_ok());
    }

    /// All units of the drives that are present, one after the other.
    pub(crate) fn all_units(&mut self, rt: &impl Abort) -> Vec<u8> {
        let mut units = Vec::new(self.alloc);
        for drive in 0..4 {
            for at in 0..DRIVE_UNITS {
                if let Some(unit) = self.peek(rt, drive, at) {
                    check!(rt; units.extend_from_slice(&unit).is_ok());
                }
            }
        }
        units
    }

    // Plans the writes that give a slot the unit.
    fn planned(&mut self, rt: &impl Abort, slot: u16, unit: &[u8; UNIT]) -> Planned {
        check!(rt; self.is_ready());
        check!(rt; self.parts.groups.shape().unit_bytes() == UNIT);
        let groups = &self.parts.groups;
        let drives: &mut [MemDrive] = &mut self.parts.drives;
        let planned = if is_mirrored(groups, slot) {
            mirrored_store::plan(self.alloc, groups, drives, slot, unit)
        } else {
            check!(rt; has_parity(groups, slot));
            parity_store::plan(self.alloc, groups, drives, slot, unit)
        };
        let Ok(planned) = planned else {
            rt.panic("not planned")
        };
        planned
    }

    /// The list of a step that gives a slot the unit.
    pub(crate) fn plan(&mut self, rt: &impl Abort, slot: u16, unit: [u8; UNIT]) -> Vec<Micro> {
        let planned = self.planned(rt, slot, &unit);
        list_of(rt, self.alloc, slot, &unit, planned)
    }

    /// Carries out the first `n` entries of a list.
    pub(crate) fn run(&mut self, rt: &impl Abort, list: Vec<Micro>, n: usize) {
        check!(rt; self.is_ready());
        assert!(rt; are_writes(&self.parts, &list));
        run_micro(&mut self.parts, list, n);
    }

    /// Whether the note is of this slot and has these units.
    pub(crate) fn notes(&self, slot: u16, unit: &[u8], parity: Option<&[u8]>) -> bool {
        let Some(note) = &self.parts.note else {
            return false;
        };
        let same = match (&note.parity, parity) {
            (Some(sum), Some(expected)) => sum.as_slice() == expected,
            (None, None) => true,
            _ => false,
        };
        same && note.slot == slot && note.unit.as_slice() == unit
    }

    /// The slot of the note, if it can't be finished.
    pub(crate) fn bad_note(&self, rt: &impl Abort) -> Option<u16> {
        check!(rt; self.is_ready());
        self.parts.bad_note()
    }

    /// The array that a restart makes of this, with the claims of all slots.
    pub(crate) fn restarted(self, rt: &impl Abort) -> Rig {
        let mut slots = [0; 14];
        for (at, slot) in slots.iter_mut().enumerate() {
            *slot = if at < 6 { at as u16 } else { at as u16 + 122 };
        }
        self.restarted_with(rt, &slots)
    }

    /// The array that a restart makes of this, with the claims of these slots.
    pub(crate) fn restarted_with(self, rt: &impl Abort, slots: &[u16]) -> Rig {
        check!(rt; self.is_ready());
        let Stop { parts, alloc } = self;
        let Ok((array, _others)) = restart(alloc, parts, claims_of(rt, alloc, slots)) else {
            rt.panic("not restarted")
        };
        Rig { array, alloc }
    }

    /// The fault of a restart with a claim of slot 5 alone, and what it leaves.
    pub(crate) fn refused(self, rt: &impl Abort) -> (ScanFault, Stop) {
        check!(rt; self.is_ready());
        let Stop { parts, alloc } = self;
        let Err((fault, parts, claims)) = restart(alloc, parts, claims_of(rt, alloc, &[5])) else {
            rt.panic("restarted")
        };
        check!(rt; claims.as_slice() == [Plain { slot: 5 }].as_slice());
        (fault, Stop { parts, alloc })
    }
}
