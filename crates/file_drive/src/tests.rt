use crate::faulty::{Fault, Faulty};
use crate::{Backing, FileDrive, InMemory, OpenRefusal};
use extents::{Drive, Shape};
use std::alloc::{Alloc, Global};
use std::process::Abort;

// The shape of two units, of 40 bytes each.
fn two_units(rt: &impl Abort) -> Shape {
    let Ok(shape) = Shape::new(1, 1, 8, 1) else {
        panic!(rt; "no shape");
    };
    shape
}

fn zeros(rt: &impl Abort, alloc: Global, count: usize) -> InMemory {
    let Ok(bytes) = vec![in alloc; 0u8; count] else {
        panic!(rt; "no memory");
    };
    InMemory { bytes }
}

// Whether a unit of these bytes is written.
pub(crate) fn writes<B: Backing>(
    rt: &impl Abort,
    drive: &mut FileDrive<B>,
    at: u32,
    byte: u8,
) -> bool {
    let units = drive.units();
    assert!(rt; at < units);
    let size = drive.unit_bytes();
    assert!(rt; size == 40);
    drive.write_unit(at, &[byte; 40]).is_ok()
}

// Whether a unit is read, and has these bytes.
pub(crate) fn reads<B: Backing>(
    rt: &impl Abort,
    drive: &mut FileDrive<B>,
    at: u32,
    byte: u8,
) -> bool {
    let units = drive.units();
    assert!(rt; at < units);
    let size = drive.unit_bytes();
    assert!(rt; size == 40);
    let mut unit = [0; 40];
    drive.read_unit(at, &mut unit).is_ok() && unit == [byte; 40]
}

#[test]
fn a_backing_holds_what_was_written(rt: HostRuntime) {
    let opened = FileDrive::open(rt.alloc(), &two_units(&rt), zeros(&rt, rt.alloc(), 80));
    let Ok(mut drive) = opened else {
        panic!(rt; "no drive");
    };
    assert!(rt; writes(&rt, &mut drive, 1, 7));
    assert!(rt; drive.sync().is_ok());
    assert!(rt; reads(&rt, &mut drive, 0, 0));
    assert!(rt; reads(&rt, &mut drive, 1, 7));
    let Ok(backing) = drive.close() else {
        panic!(rt; "no backing");
    };
    let mut image = [0; 80];
    image[40..].fill(7);
    assert!(rt; backing.bytes[..] == image[..]);
}

// A drive of two units whose backing accepts one write.
fn one_write(rt: &impl Abort, alloc: Global, fault: Fault) -> FileDrive<Faulty> {
    let backing = Faulty {
        inner: zeros(rt, alloc, 80),
        left: 1,
        fault,
    };
    let Ok(drive) = FileDrive::open(alloc, &two_units(rt), backing) else {
        panic!(rt; "no drive");
    };
    drive
}

#[test]
fn a_second_write_that_fails_or_falls_short_loses_the_drive(rt: HostRuntime) {
    for fault in [Fault::Refused, Fault::Short] {
        let mut drive = one_write(&rt, rt.alloc(), fault);
        assert!(rt; writes(&rt, &mut drive, 0, 7));
        assert!(rt; reads(&rt, &mut drive, 0, 7));
        assert!(rt; !writes(&rt, &mut drive, 1, 7));
        assert!(rt; drive.is_lost());
        assert!(rt; !reads(&rt, &mut drive, 0, 7));
        assert!(rt; drive.close().is_err());
    }
}

#[test]
fn a_sync_that_fails_loses_the_drive(rt: HostRuntime) {
    let mut drive = one_write(&rt, rt.alloc(), Fault::Refused);
    assert!(rt; drive.sync().is_err());
    assert!(rt; drive.is_lost());
}

#[test]
fn a_backing_of_a_wrong_length_is_refused(rt: HostRuntime) {
    for length in [0, 79, 81] {
        let opened = FileDrive::open(rt.alloc(), &two_units(&rt), zeros(&rt, rt.alloc(), length));
        assert!(rt; matches!(opened, Err(OpenRefusal::Length)));
    }
    assert!(rt; OpenRefusal::Length.number() == 2);
}
