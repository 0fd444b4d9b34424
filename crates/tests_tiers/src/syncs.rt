// A sync of two levels: it reaches each drive that isn't lost, and one whose sync fails is lost.
ghost use Rattle.std.specs.Prelude.{None};

use crate::asserts::check;
use crate::rig::{demote, grouped, reads, shape_of, world_of, write};
use extents::Shape;
use file_drive::{Backing, FileDrive, InMemory};
use std::alloc::{Alloc, Global};
use std::io;
use std::process::Abort;
use tiered_array::Tiers;

// Bytes in memory that count their syncs, of which the one after `left` others fails, and each later one.
#[derive(Drop)]
struct Synced {
    inner: InMemory,
    syncs: u64,
    left: u64,
}

impl Backing for Synced {
    ghost bytes = { λ _. None };

    ghost durable = { λ _. None };

    fn read_all(&mut self, alloc: Global) -> io::Result<Vec<u8>> {
        self.inner.read_all(alloc)
    }

    fn write_at(&mut self, start: u64, piece: &[u8]) -> io::Result<usize> {
        self.inner.write_at(start, piece)
    }

    fn sync(&mut self) -> io::Result<()> {
        self.syncs = self.syncs.saturating_add(1);
        if self.left == 0 {
            return Err(io::Error::from(io::ErrorKind::StorageFull));
        }
        self.left -= 1;
        self.inner.sync()
    }
}

fn opened(rt: &impl Abort, alloc: Global, shape: &Shape, left: u64) -> FileDrive<Synced> {
    let length = shape.unit_bytes() * shape.drive_units() as usize;
    let Ok(bytes) = vec![in alloc; 0u8; length] else {
        rt.panic("no memory")
    };
    let inner = InMemory { bytes };
    let backing = Synced {
        inner,
        syncs: 0,
        left,
    };
    let Ok(drive) = FileDrive::open(alloc, shape, backing) else {
        rt.panic("no drive")
    };
    drive
}

// Two levels over four drives, of which that of number 1 accepts so many syncs.
fn tiers_of(rt: &impl Abort, alloc: Global, left: u64) -> Tiers<FileDrive<Synced>> {
    let shape = shape_of(rt);
    let mut drives = Vec::new(alloc);
    for lefts in [9, left, 9, 9] {
        let pushed = drives.push(opened(rt, alloc, &shape, lefts)).is_ok();
        check!(rt; pushed);
    }
    let world = world_of(rt, alloc, drives);
    grouped(rt, alloc, world)
}

// How often each drive that isn't lost was synced; 0 for one that is.
fn syncs_of(rt: &impl Abort, alloc: Global, tiers: Tiers<FileDrive<Synced>>) -> [u64; 4] {
    let Ok((parts, _claims)) = tiers.into_world().into_array().into_parts(alloc) else {
        rt.panic("no memory")
    };
    let mut counts = [0; 4];
    for (number, drive) in parts.drives.into_iter().enumerate() {
        if let Ok(backing) = drive.close() {
            if number < 4 {
                counts[number] = backing.syncs;
            }
        }
    }
    counts
}

#[test]
fn a_sync_reaches_each_drive(rt: HostRuntime) {
    let alloc = rt.alloc();
    let mut tiers = tiers_of(&rt, alloc, 9);
    let _ = write(&rt, alloc, &mut tiers, 3, [3, 1, 2, 3, 4, 5, 6, 7]);
    tiers.sync();
    tiers.sync();
    check!(rt; syncs_of(&rt, alloc, tiers) == [2, 2, 2, 2]);
}

#[test]
fn a_drive_whose_sync_fails_is_lost_and_the_others_are_synced(rt: HostRuntime) {
    let alloc = rt.alloc();
    let mut tiers = tiers_of(&rt, alloc, 1);
    let _ = write(&rt, alloc, &mut tiers, 3, [3, 1, 2, 3, 4, 5, 6, 7]);
    tiers.sync();
    check!(rt; !tiers.world().array().is_lost(1));
    tiers.sync();
    for (number, lost) in [(0, false), (1, true), (2, false), (3, false)] {
        check!(rt; tiers.world().array().is_lost(number) == lost);
    }
    tiers.sync();
    check!(rt; reads(&rt, &mut tiers, 3, 1, [3, 1, 2, 3, 4, 5, 6, 7]));
    check!(rt; syncs_of(&rt, alloc, tiers) == [3, 0, 3, 3]);
}

// A log of five records of two blocks is shortened to the two newest; the block that was written longest ago still leaves first.
#[test]
fn a_shortened_log_has_each_block_once_and_leaves_the_order(rt: HostRuntime) {
    let alloc = rt.alloc();
    let mut tiers = tiers_of(&rt, alloc, 9);
    for (block, byte) in [(3, 1), (5, 2), (3, 3), (5, 4), (3, 5)] {
        let _ = write(&rt, alloc, &mut tiers, block, [byte, 1, 2, 3, 4, 5, 6, 7]);
    }
    check!(rt; tiers.world().array().record_count() == 5);
    check!(rt; tiers.shorten_log(alloc).is_ok());
    let Ok(log) = tiers.world().array().records_from(alloc, 0) else {
        rt.panic("no memory")
    };
    check!(rt; log.len() == 2);
    for (at, block, version) in [(0, 3, 3), (1, 5, 2)] {
        let Some(record) = log.get(at) else {
            rt.panic("no record")
        };
        check!(rt; record.block == block && record.version == version && record.hop == 0);
    }
    let left = demote(&rt, alloc, &mut tiers);
    check!(rt; left.block == 5 && left.version == 2 && left.hop == 1);
    check!(rt; reads(&rt, &mut tiers, 3, 3, [5, 1, 2, 3, 4, 5, 6, 7]));
    check!(rt; reads(&rt, &mut tiers, 5, 2, [4, 1, 2, 3, 4, 5, 6, 7]));
}
