// Both classes over drives in memory and over plain ones: what is read and written is the same, with drives lost too.
ghost use Rattle.std.specs.Prelude.{◌≡◌, ◌*◌, length, IsTrue};
ghost use Rattle.extent_groups.specs.Stores.{unit_bytes};
ghost use Rattle.unit_store.specs.Fit.{IsFit};

use crate::asserts::check;
use crate::plain::PlainDrive;
use crate::rig::{SIZE, byte_at, fill_from, is_of, is_slot, members_on, zeros};
use extent_groups::{Class, GroupTable, are_there, put_check};
use extents::{Drive, ExtentTable, HEADER_BYTES, HotSwap, MemDrive, Shape};
use flat_machine::Refusal;
use std::alloc::Global;
use std::process::Abort;
use unit_store::{Parts, Units};

/// More calls than a test makes of one drive.
const CALLS: u64 = 1_000_000;

/// A drive that a test can make and lose.
trait Tried: Drive + Drop {
    /// A drive of zeros that is lost at the call of this number, counted from 1.
    fn made(rt: &impl Abort, alloc: Global, shape: &Shape, call: u64) -> Self;

    /// Loses the drive, at its next call at the latest.
    fn lose_it(&mut self);
}

impl Tried for MemDrive {
    fn made(rt: &impl Abort, alloc: Global, shape: &Shape, call: u64) -> MemDrive {
        let Ok(mut drive) = MemDrive::new(alloc, shape) else {
            rt.panic("no drive")
        };
        check!(rt; call > 0);
        drive.fuse(call);
        drive
    }

    fn lose_it(&mut self) {
        self.lose();
    }
}

impl Tried for PlainDrive {
    fn made(rt: &impl Abort, alloc: Global, shape: &Shape, call: u64) -> PlainDrive {
        check!(rt; call > 0);
        PlainDrive::new(rt, alloc, shape, call - 1)
    }

    fn lose_it(&mut self) {
        self.end();
    }
}

/// Slots 0 to 5 are mirrored on drives 0 to 2, and slots 128 to 135 have parity on drives 1 to 3. Slots 128, 129, 132 and 133
/// lie on drive 1, slots 130 and 131 on drive 2, slots 134 and 135 on drive 3.
#[derive(Drop)]
struct Trial<D> {
    parts: Parts<D>,
    unit: Vec<u8>,
    scratch: Vec<u8>,
}

const SLOTS: [u16; 14] = [0, 1, 2, 3, 4, 5, 128, 129, 130, 131, 132, 133, 134, 135];

/// The byte that names what a slot is given at first, and then: no two slots have the same.
fn first_of(slot: u16) -> u8 {
    (slot % 128) as u8 + if slot < 128 { 11 } else { 31 }
}

fn second_of(slot: u16) -> u8 {
    first_of(slot).wrapping_add(100)
}

/// Four drives, of which one is lost at the call of this number.
fn four<D: Tried>(rt: &impl Abort, alloc: Global, shape: &Shape, lost: usize, call: u64) -> Vec<D> {
    let mut drives = Vec::new(alloc);
    for drive in 0..4 {
        let calls = if drive == lost { call } else { CALLS };
        check!(rt; drives.push(D::made(rt, alloc, shape, calls)).is_ok());
    }
    drives
}

impl<D: Tried> Trial<D> {
    fn new(rt: &impl Abort, alloc: Global, lost: usize, call: u64) -> Trial<D> {
        let Ok(shape) = Shape::new(8, 2, 24, 16) else {
            rt.panic("no shape")
        };
        let Ok(groups) = GroupTable::new(alloc, &shape) else {
            rt.panic("no groups")
        };
        let Ok(extents) = ExtentTable::new(alloc, 4, &shape) else {
            rt.panic("no extents")
        };
        let drives = four(rt, alloc, &shape, lost, call);
        let parts = Parts {
            shape,
            groups,
            extents,
            drives,
            note: None,
        };
        let mut trial = Trial {
            parts,
            unit: zeros(rt, alloc, SIZE),
            scratch: zeros(rt, alloc, 2 * SIZE),
        };
        trial.make(rt, alloc, 0, Class::Mirrored, &[0, 1, 2]);
        trial.make(rt, alloc, 1, Class::Parity, &[1, 2, 3]);
        trial
    }

    /// Whether the parts fit, and the buffers them.
    fn is_ready(&self) -> bool
        ensures fit { IsTrue result → IsFit D.units self.now.parts }
        ensures unit { IsTrue result → length self.now.unit.items ≡ unit_bytes self.now.parts.groups }
        ensures scratch { IsTrue result → length self.now.scratch.items ≡ 2 * unit_bytes self.now.parts.groups }
    {
        let size = self.parts.groups.shape().unit_bytes();
        if self.unit.len() != size || self.scratch.len() != 2 * size {
            return false;
        }
        self.parts.is_fit()
    }

    /// Lets a group enter, of the extent of its number on each of these drives.
    fn make(&mut self, rt: &impl Abort, alloc: Global, group: u16, class: Class, drives: &[u8]) {
        let members = members_on(rt, alloc, drives, group);
        check!(rt; self.is_ready());
        check!(rt; self.parts.groups.is_free(group));
        check!(rt; are_there(&self.parts.extents, &members));
        check!(rt; put_check(&self.parts.extents, &members).is_none());
        let made = self.parts.enter(group, class, members, &mut self.unit);
        check!(rt; made.is_ok());
    }

    /// Writes the unit that a byte names to a slot.
    fn write(&mut self, rt: &impl Abort, slot: u16, byte: u8) -> Result<(), Refusal> {
        check!(rt; self.is_ready());
        check!(rt; is_slot(&self.parts.groups, slot));
        fill_from(&mut self.unit, byte);
        self.parts.write(slot, &self.unit, &mut self.scratch)
    }

    /// Puts the payload that a byte names under a blank header in a slot, from two pieces in a mirrored one.
    fn put(&mut self, rt: &impl Abort, slot: u16, byte: u8) -> Result<(), Refusal> {
        check!(rt; self.is_ready());
        check!(rt; is_slot(&self.parts.groups, slot));
        check!(rt; self.parts.groups.shape().payload == 24);
        let mut payload = [0; 24];
        fill_from(&mut payload, byte);
        self.parts
            .put(slot, &payload, &mut self.unit, &mut self.scratch)
    }

    /// Writes a slot whole, or puts a payload into one of odd number.
    fn give(&mut self, rt: &impl Abort, slot: u16, byte: u8) -> Result<(), Refusal> {
        if slot % 2 == 0 {
            return self.write(rt, slot, byte);
        }
        self.put(rt, slot, byte)
    }

    /// Reads a slot's unit into the buffer.
    fn read(&mut self, rt: &impl Abort, slot: u16) -> Result<(), Refusal> {
        check!(rt; self.is_ready());
        check!(rt; is_slot(&self.parts.groups, slot));
        self.unit.fill(1);
        self.parts.read(slot, &mut self.unit, &mut self.scratch)
    }

    /// Reads a slot's unit into the buffer, as a source of units.
    fn unit(&mut self, rt: &impl Abort, slot: u16) -> Result<(), Refusal> {
        check!(rt; self.is_ready());
        check!(rt; is_slot(&self.parts.groups, slot));
        self.unit.fill(1);
        self.parts.unit(slot, &mut self.unit, &mut self.scratch)
    }

    /// Reads a slot's header.
    fn header(&mut self, rt: &impl Abort, slot: u16) -> Result<[u8; 32], Refusal> {
        check!(rt; self.is_ready());
        check!(rt; is_slot(&self.parts.groups, slot));
        let mut header = [1; HEADER_BYTES];
        self.parts.header(slot, &mut header, &mut self.scratch)?;
        Ok(header)
    }

    /// Whether the buffered unit is what `give` gave.
    fn is_given(&self, slot: u16, byte: u8) -> bool {
        if slot % 2 == 0 {
            return is_of(&self.unit, byte);
        }
        // A blank header, and then the payload.
        self.unit.iter().enumerate().all(|(at, value)| *value
            == at
                .checked_sub(HEADER_BYTES)
                .map_or(0, |at| byte_at(byte, at)))
    }

    /// Whether a slot's unit and its header are what `give` gave, in each way to read them.
    fn holds(&mut self, rt: &impl Abort, slot: u16, byte: u8) -> bool {
        if self.read(rt, slot).is_err() || !self.is_given(slot, byte) {
            return false;
        }
        if self.unit(rt, slot).is_err() || !self.is_given(slot, byte) {
            return false;
        }
        match self.header(rt, slot) {
            Ok(header) => is_of(&header, if slot % 2 == 0 { byte } else { 0 }),
            Err(_) => false,
        }
    }

    /// Whether each way to read a slot, and to write it, is refused as gone.
    fn is_gone(&mut self, rt: &impl Abort, slot: u16) -> bool {
        let gone = Err(Refusal::Gone(slot));
        self.read(rt, slot) == gone
            && self.unit(rt, slot) == gone
            && self.header(rt, slot).err() == Some(Refusal::Gone(slot))
            && self.give(rt, slot, 77) == gone
    }

    fn give_all(&mut self, rt: &impl Abort) {
        for slot in SLOTS {
            check!(rt; self.give(rt, slot, first_of(slot)) == Ok(()));
        }
    }

    /// Whether each slot holds what it was given at first, then is given something else and holds that, with no other changed.
    fn keeps_all(&mut self, rt: &impl Abort) -> bool {
        for slot in SLOTS {
            if !self.holds(rt, slot, first_of(slot)) {
                return false;
            }
            if self.give(rt, slot, second_of(slot)) != Ok(()) {
                return false;
            }
        }
        for slot in SLOTS {
            if !self.holds(rt, slot, second_of(slot)) {
                return false;
            }
        }
        true
    }

    fn lose(&mut self, rt: &impl Abort, drive: usize) {
        let Some(drive) = self.parts.drives.get_mut(drive) else {
            rt.panic("no drive")
        };
        drive.lose_it();
    }

    /// Whether one call reads `expected` headers of a group, each equal to what `header` reads.
    fn reads_headers(&mut self, rt: &impl Abort, group: u16, expected: u16) -> bool {
        check!(rt; self.is_ready());
        let count = self.parts.groups.slots_of(group);
        check!(rt; group < 2 && count <= 8);
        let mut buffers = [[1; HEADER_BYTES]; 8];
        let headers = &mut buffers[..count as usize];
        let read = self.parts.headers(group, headers, &mut self.scratch);
        if read != expected {
            return false;
        }
        for index in 0..read {
            match self.header(rt, 128 * group + index) {
                Ok(header) if header == buffers[index as usize] => {}
                _ => return false,
            }
        }
        true
    }

    /// Whether these slots are gone, and the others hold what they were given last.
    fn are_gone(&mut self, rt: &impl Abort, gone: &[u16]) -> bool {
        for slot in SLOTS {
            let is_right = if gone.contains(&slot) {
                self.is_gone(rt, slot)
            } else {
                self.holds(rt, slot, second_of(slot))
            };
            if !is_right {
                return false;
            }
        }
        self.reads_headers(rt, 0, count_before(gone, 0))
            && self.reads_headers(rt, 1, count_before(gone, 1))
    }
}

/// How many slots of a group come before its first one that is gone.
fn count_before(gone: &[u16], group: u16) -> u16 {
    let mut count = 0;
    for slot in SLOTS {
        if slot / 128 != group {
            continue;
        }
        if gone.contains(&slot) {
            return count;
        }
        count = count.saturating_add(1);
    }
    count
}

/// Loses each drive at each of its first calls.
fn lose_one<D: Tried>(rt: &impl Abort, alloc: Global, last: u64) {
    for lost in 0..4 {
        // A group enters by four writes of each of its drives: the loss is after them.
        for call in 9..last {
            let mut trial: Trial<D> = Trial::new(rt, alloc, lost, call);
            trial.give_all(rt);
            assert!(rt; trial.keeps_all(rt), "drive {lost} lost at call {call}");
        }
    }
}

/// Loses two drives after all was written.
fn lose_two<D: Tried>(rt: &impl Abort, alloc: Global, one: usize, other: usize, gone: &[u16]) {
    let mut trial: Trial<D> = Trial::new(rt, alloc, 0, CALLS);
    trial.give_all(rt);
    check!(rt; trial.keeps_all(rt));
    trial.lose(rt, one);
    check!(rt; trial.are_gone(rt, &[]));
    trial.lose(rt, other);
    assert!(rt; trial.are_gone(rt, gone), "drives {one} and {other}");
}

/// Of each pair of drives the slots that are gone without them.
fn lose_pairs<D: Tried>(rt: &impl Abort, alloc: Global) {
    lose_two::<D>(rt, alloc, 0, 1, &[0, 1]);
    lose_two::<D>(rt, alloc, 2, 0, &[2, 3]);
    lose_two::<D>(rt, alloc, 0, 3, &[]);
    lose_two::<D>(rt, alloc, 1, 2, &[4, 5, 128, 129, 130, 131, 132, 133]);
    lose_two::<D>(rt, alloc, 3, 1, &[128, 129, 132, 133, 134, 135]);
    lose_two::<D>(rt, alloc, 2, 3, &[130, 131, 134, 135]);
}

#[test]
fn a_plain_drive_lost_at_any_call_changes_no_answer(rt: HostRuntime) {
    lose_one::<PlainDrive>(&rt, rt.alloc(), 40);
    lose_one::<MemDrive>(&rt, rt.alloc(), 40);
}

#[test]
fn a_slot_is_gone_with_two_drives_of_either_kind(rt: HostRuntime) {
    lose_pairs::<PlainDrive>(&rt, rt.alloc());
    lose_pairs::<MemDrive>(&rt, rt.alloc());
}
