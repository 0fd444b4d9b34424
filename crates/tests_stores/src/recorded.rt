// What the drives take in a write, compared with what was planned for it.
ghost use Rattle.std.specs.Prelude.{◌≡◌, ◌*◌, ◌+◌, ℕ, length, slice_get, Some, IfOk};
ghost use Rattle.extents.specs.Condition.{is_gone, failures_of};
ghost use Rattle.extents.specs.Units.{zero_units};
ghost use Rattle.extents.specs.Sizes.{extent_units};
ghost use Rattle.extents.specs.declared.shape.TheConstants.{HEADER_BYTES};
ghost use Rattle.extent_groups.specs.Stores.{AreDrives};
ghost use Rattle.tests_stores.specs.declared.recorded.Recorder.{Recorder};

use crate::asserts::check;
use crate::rig::{SIZE, across, is_slot, make};
use crate::tables::shape_of;
use extent_groups::{Class, GroupTable, Planned};
use extents::{Drive, DriveLost, ExtentTable, HotSwap, MemDrive, Shape};
use std::alloc::{AllocError, Global};
use std::process::Abort;
use std::sync::atomic::AtomicU64;
use std::sync::atomic::Ordering::SeqCst;
use std::test::Fail;

/// The last write that a drive took, and how many it took.
#[derive(Drop)]
struct Taken {
    writes: u64,
    /// How many all drives had taken before it.
    tick: u64,
    at: u32,
    unit: [u8; SIZE],
}

impl Taken {
    fn take(&mut self, tick: u64, at: u32, front: &[u8], rest: &[u8]) {
        self.writes = self.writes.saturating_add(1);
        self.tick = tick;
        self.at = at;
        for (i, byte) in front.iter().enumerate() {
            if i < SIZE {
                self.unit[i] = *byte;
            }
        }
        for (i, byte) in rest.iter().enumerate() {
            let i = i.saturating_add(front.len());
            if i < SIZE {
                self.unit[i] = *byte;
            }
        }
    }
}

/// A drive that records the writes that it takes, by a clock of all drives.
#[derive(Drop)]
struct Recorder<'a> {
    drive: MemDrive,
    clock: &'a AtomicU64,
    taken: Taken,
}

impl<'a> Drive for Recorder<'a> {
    ghost units = { λ r. r.drive.units };

    ghost lost = { λ r. is_gone r.drive.condition };

    ghost failures = { λ r. failures_of r.drive.condition };

    fn units(&self) -> u32 {
        self.drive.units()
    }

    fn unit_bytes(&self) -> usize {
        self.drive.unit_bytes()
    }

    fn is_lost(&self) -> bool {
        self.drive.is_lost()
    }

    fn read_unit(&mut self, at: u32, unit: &mut [u8]) -> Result<(), DriveLost> {
        self.drive.read_unit(at, unit)
    }

    fn read_front(
        &mut self,
        at: u32,
        front: &mut [u8],
        scratch: &mut [u8],
    ) -> Result<(), DriveLost> {
        self.drive.read_front(at, front, scratch)
    }

    fn write_unit(&mut self, at: u32, unit: &[u8]) -> Result<(), DriveLost> {
        let result = self.drive.write_unit(at, unit);
        if result.is_ok() {
            let tick = self.clock.fetch_add(1, SeqCst);
            self.taken.take(tick, at, unit, &[]);
        }
        result
    }

    fn write_gathered(
        &mut self,
        at: u32,
        front: &[u8],
        rest: &[u8],
        scratch: &mut [u8],
    ) -> Result<(), DriveLost> {
        let result = self.drive.write_gathered(at, front, rest, scratch);
        if result.is_ok() {
            let tick = self.clock.fetch_add(1, SeqCst);
            self.taken.take(tick, at, front, rest);
        }
        result
    }

    fn sync(&mut self) -> Result<(), DriveLost> {
        self.drive.sync()
    }
}

/// A recording drive of zeros.
fn new_recorder<'a>(
    alloc: Global,
    shape: &Shape,
    clock: &'a AtomicU64,
    lost: bool,
) -> Result<Recorder<'a>, AllocError>
    ensures { IfOk result (λ r. r.drive.units ≡ zero_units (HEADER_BYTES + shape.now.payload) (shape.now.extents * extent_units shape.now.segments)) }
{
    let mut drive = MemDrive::new(alloc, shape)?;
    if lost {
        drive.lose();
    }
    let taken = Taken {
        writes: 0,
        tick: 0,
        at: 0,
        unit: [0; SIZE],
    };
    Ok(Recorder {
        drive,
        clock,
        taken,
    })
}

/// Recording drives of zeros, one of them lost.
fn new_recorders<'a>(
    alloc: Global,
    shape: &Shape,
    clock: &'a AtomicU64,
    count: usize,
    lost: usize,
) -> Result<Vec<Recorder<'a>>, AllocError>
    ensures many { IfOk result (λ v. length v.items ≡ count) }
    ensures zero { IfOk result (λ v. (d : ℕ) (x : Recorder) → slice_get v.items d ≡ Some x
        → x.drive.units ≡ zero_units (HEADER_BYTES + shape.now.payload) (shape.now.extents * extent_units shape.now.segments)) }
{
    let mut drives = Vec::with_capacity(alloc, count)?;
    for number in 0..count {
        drives.push(new_recorder(alloc, shape, clock, number == lost)?)?;
    }
    Ok(drives)
}

/// A group of three recording drives, one of them lost where there is one of this number.
fn set_up<'a>(
    rt: &impl Abort,
    alloc: Global,
    clock: &'a AtomicU64,
    class: Class,
    lost: usize,
) -> Result<(GroupTable, Vec<Recorder<'a>>), AllocError>
    ensures { IfOk result (λ r. AreDrives (λ (m : Recorder). m.drive.units) r.0 r.1.items) }
{
    let shape = shape_of(rt, 2, 2);
    let mut extents = ExtentTable::new(alloc, 3, &shape)?;
    let mut groups = GroupTable::new(alloc, &shape)?;
    let first = across(alloc, 3, 0)?;
    let second = across(alloc, 3, 1)?;
    make(rt, alloc, &mut groups, &mut extents, class, 0, &first);
    make(rt, alloc, &mut groups, &mut extents, class, 1, &second);
    let all = new_recorders(alloc, &shape, clock, 3, lost)?;
    Ok((groups, all))
}

/// Writes a slot with a byte throughout.
fn write(rt: &impl Abort, groups: &GroupTable, drives: &mut [Recorder], slot: u16, byte: u8) -> bool
    requires { AreDrives (λ (m : Recorder). m.drive.units) groups.now drives.old }
    ensures { AreDrives (λ (m : Recorder). m.drive.units) groups.now drives.new }
{
    let unit = [byte; SIZE];
    let mut scratch = [0; 2 * SIZE];
    check!(rt; groups.shape().unit_bytes() == SIZE);
    if is_slot(groups, Class::Mirrored, slot) {
        return mirrored_store::write(groups, drives, slot, &unit, &mut scratch).is_ok();
    }
    check!(rt; is_slot(groups, Class::Parity, slot));
    parity_store::write(groups, drives, slot, &unit, &mut scratch).is_ok()
}

/// The plan of such a write.
fn plan(
    rt: &impl Abort,
    alloc: Global,
    groups: &GroupTable,
    drives: &mut [Recorder],
    slot: u16,
    byte: u8,
) -> Planned
    requires { AreDrives (λ (m : Recorder). m.drive.units) groups.now drives.old }
    ensures { AreDrives (λ (m : Recorder). m.drive.units) groups.now drives.new }
{
    let unit = [byte; SIZE];
    check!(rt; groups.shape().unit_bytes() == SIZE);
    let planned = if is_slot(groups, Class::Mirrored, slot) {
        mirrored_store::plan(alloc, groups, drives, slot, &unit)
    } else {
        check!(rt; is_slot(groups, Class::Parity, slot));
        parity_store::plan(alloc, groups, drives, slot, &unit)
    };
    let Ok(planned) = planned else {
        rt.panic("no plan")
    };
    planned
}

/// Whether a unit has this byte throughout.
fn is_filled(unit: &[u8], byte: u8) -> bool {
    unit.len() == SIZE && unit.iter().all(|one| *one == byte)
}

/// Compares a planned write, with the number that it has, with the last write that its drive took.
fn check_write(rt: &impl Abort, taken: &Taken, number: usize, address: u32, unit: &[u8]) {
    check!(rt; taken.tick == number as u64 && taken.at == address);
    check!(rt; taken.unit.as_slice() == unit);
}

/// Compares the planned writes with those that the drives took, and with the expected drives and bytes.
fn check_writes(
    rt: &impl Abort,
    drives: &[Recorder<'_>],
    writes: &[(u8, u32, Vec<u8>)],
    expected: &[(u8, u8)],
) {
    check!(rt; writes.len() == expected.len());
    for (number, (drive, address, unit)) in writes.iter().enumerate() {
        check!(rt; number < expected.len());
        let (wanted, byte) = expected[number];
        check!(rt; *drive == wanted && *address == 0);
        check!(rt; is_filled(unit, byte));
        check!(rt; (*drive as usize) < drives.len());
        check_write(rt, &drives[*drive as usize].taken, number, *address, unit);
    }
}

/// Compares the parity that was planned with its expected byte.
fn check_parity(rt: &impl Abort, planned: &Option<Vec<u8>>, expected: Option<u8>) {
    match (planned, expected) {
        (Some(unit), Some(byte)) => check!(rt; is_filled(unit, byte)),
        (None, None) => {}
        _ => rt.panic("one parity alone"),
    }
}

/// Plans a write of slot 0, and carries it out: as many writes as these.
fn planned_and_written(
    rt: &impl Abort,
    alloc: Global,
    clock: &AtomicU64,
    groups: &GroupTable,
    drives: &mut [Recorder<'_>],
    count: usize,
) -> Planned
    requires { AreDrives (λ (r : Recorder). r.drive.units) groups.now drives.old }
{
    clock.store(0, SeqCst);
    let planned = plan(rt, alloc, groups, drives, 0, 7);
    check!(rt; clock.load(SeqCst) == 0);
    check!(rt; write(rt, groups, drives, 0, 7));
    check!(rt; clock.load(SeqCst) == count as u64);
    planned
}

/// Slot 0 is planned and written, after slot 2: the drives take exactly the plan's writes, in its order, which are these
/// bytes at the first addresses of these drives.
fn is_taken(
    rt: &impl Abort,
    alloc: Global,
    class: Class,
    lost: usize,
    expected: &[(u8, u8)],
    parity: Option<u8>,
) -> Result<(), AllocError> {
    let clock = AtomicU64::new(0);
    let (groups, mut drives) = set_up(rt, alloc, &clock, class, lost)?;
    check!(rt; write(rt, &groups, &mut drives, 2, 5));
    let count = expected.len();
    let planned = planned_and_written(rt, alloc, &clock, &groups, &mut drives, count);
    check_writes(rt, &drives, &planned.writes, expected);
    check_parity(rt, &planned.parity, parity);
    Ok(())
}

#[test]
fn drives_take_the_writes_of_the_plan_in_its_order(rt: HostRuntime) -> Result<(), Fail> {
    let alloc = rt.alloc();
    is_taken(&rt, alloc, Class::Mirrored, 3, &[(0, 7), (1, 7)], None)?;
    is_taken(&rt, alloc, Class::Mirrored, 0, &[(1, 7)], None)?;
    is_taken(&rt, alloc, Class::Mirrored, 1, &[(0, 7)], None)?;
    is_taken(&rt, alloc, Class::Parity, 3, &[(0, 7), (2, 2)], Some(2))?;
    is_taken(&rt, alloc, Class::Parity, 2, &[(0, 7)], None)?;
    is_taken(&rt, alloc, Class::Parity, 0, &[(2, 2)], Some(2))?;
    Ok(())
}
