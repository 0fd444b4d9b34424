// Drives over files of the system, of which no clause says what they hold.
ghost use Rattle.std.specs.Prelude.{None};

use crate::tests::{reads, writes};
use crate::{Backing, FileDrive, OnFile};
use extents::{Drive, Shape};
use std::alloc::Global;
use std::fs::{self, OpenOptions};
use std::io;
use std::process::Abort;

// The shape of six units, of 40 bytes each.
fn six_units(rt: &impl Abort) -> Shape {
    let Ok(shape) = Shape::new(3, 1, 8, 1) else {
        panic!(rt; "no shape");
    };
    shape
}

// The file of this name, which is made if it isn't there.
fn named(rt: &HostRuntime, name: &str) -> io::Result<OnFile> {
    let file = OpenOptions::new()
        .read(true)
        .write(true)
        .create(true)
        .open(rt, name)?;
    Ok(OnFile { file })
}

// A file of six units of zeros.
fn zeros(rt: &HostRuntime, name: &str) -> io::Result<OnFile> {
    let mut backing = named(rt, name)?;
    match backing.write_at(0, &[0; 240])? {
        240 => Ok(backing),
        _ => Err(io::Error::from(io::ErrorKind::WriteZero)),
    }
}

fn opened<B: Backing + Drop>(
    rt: &impl Abort,
    alloc: Global,
    backing: io::Result<B>,
) -> FileDrive<B> {
    let Ok(backing) = backing else {
        panic!(rt; "no file");
    };
    let Ok(drive) = FileDrive::open(alloc, &six_units(rt), backing) else {
        panic!(rt; "no drive");
    };
    drive
}

// What each unit holds: a byte of its own, or zeros.
const HELD: [u8; 6] = [11, 0, 13, 14, 0, 16];

fn assert_held<B: Backing>(rt: &impl Abort, drive: &mut FileDrive<B>) {
    for at in 0..6u32 {
        assert!(rt; reads(rt, drive, at, HELD[at as usize]));
    }
}

#[test]
fn a_file_holds_each_unit_at_its_place(rt: HostRuntime) {
    let mut drive = opened(&rt, rt.alloc(), zeros(&rt, "drive"));
    for (at, byte) in [(5, 16), (2, 99), (3, 14), (2, 13), (0, 11)] {
        assert!(rt; writes(&rt, &mut drive, at, byte));
    }
    assert!(rt; drive.sync().is_ok());
    assert_held(&rt, &mut drive);
    let Ok(backing) = drive.close() else {
        panic!(rt; "no backing");
    };

    // By the system, by the same file read once more, and by the file opened once more.
    let Ok(bytes) = fs::read(&rt, "drive") else {
        panic!(rt; "no bytes");
    };
    assert!(rt; bytes.len() == 240);
    for at in 0..240usize {
        assert!(rt; bytes[at] == HELD[at / 40]);
    }
    assert_held(&rt, &mut opened(&rt, rt.alloc(), Ok(backing)));
    assert_held(&rt, &mut opened(&rt, rt.alloc(), named(&rt, "drive")));
}

/// A file that counts its writes and syncs.
#[derive(Drop)]
struct Counted {
    inner: OnFile,
    writes: u32,
    syncs: u32,
}

impl Backing for Counted {
    ghost bytes = { λ _. None };

    ghost durable = { λ _. None };

    fn read_all(&mut self, alloc: Global) -> io::Result<Vec<u8>> {
        self.inner.read_all(alloc)
    }

    fn write_at(&mut self, start: u64, piece: &[u8]) -> io::Result<usize> {
        self.writes = self.writes.wrapping_add(1);
        self.inner.write_at(start, piece)
    }

    fn sync(&mut self) -> io::Result<()> {
        self.syncs = self.syncs.wrapping_add(1);
        self.inner.sync()
    }
}

fn counting(rt: &HostRuntime, name: &str) -> io::Result<Counted> {
    Ok(Counted {
        inner: zeros(rt, name)?,
        writes: 0,
        syncs: 0,
    })
}

#[test]
fn a_unit_is_one_write_and_a_sync_is_one_sync(rt: HostRuntime) {
    let counted = counting(&rt, "counted");
    let mut drive = opened(&rt, rt.alloc(), counted);
    for at in [4, 1, 4] {
        assert!(rt; writes(&rt, &mut drive, at, 5));
    }
    for _ in 0..2 {
        assert!(rt; drive.sync().is_ok());
    }
    let Ok(backing) = drive.close() else {
        panic!(rt; "no backing");
    };
    assert!(rt; backing.writes == 3 && backing.syncs == 2);
}

#[test]
fn a_sync_is_asked_of_the_system(rt: HostRuntime) {
    // A device that keeps nothing has no sync: the system refuses it.
    let Ok(mut device) = named(&rt, "/dev/null") else {
        panic!(rt; "no device");
    };
    assert!(rt; device.sync().is_err());
    let Ok(mut file) = zeros(&rt, "synced") else {
        panic!(rt; "no file");
    };
    assert!(rt; file.sync().is_ok());
}
