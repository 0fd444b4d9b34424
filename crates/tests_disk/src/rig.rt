// Disks of six drives whose backings are in memory and count their syncs.
ghost use Rattle.std.specs.Prelude.{◌≡◌, ◌+◌, ◌≤◌, None, IsTrue, length};
ghost use Rattle.extent_groups.specs.Calls.{AreSized};
ghost use Rattle.unit_store.specs.Fit.{HaveUnitCount};

use crate::asserts::check;
use array_store::ArrayStore;
use disk_shape::{Plan, class_of, member_at, plan_disk};
use extents::Shape;
use file_drive::{Backing, FileDrive, InMemory};
use std::alloc::Global;
use std::io;
use std::process::Abort;
use std::sync::atomic::AtomicU64;
use std::sync::atomic::Ordering::SeqCst;
use step_core::{Answer, Array, Drive, World};
use tiered_array::Tiers;

/// Bytes in memory whose syncs are counted together, and of which each sync is refused where `refuses` is set.
#[derive(Drop)]
pub(crate) struct Counted<'a> {
    inner: InMemory,
    syncs: &'a AtomicU64,
    refuses: bool,
}

impl<'a> Backing for Counted<'a> {
    ghost bytes = { λ _. None };

    ghost durable = { λ _. None };

    fn read_all(&mut self, alloc: Global) -> io::Result<Vec<u8>> {
        self.inner.read_all(alloc)
    }

    fn write_at(&mut self, start: u64, piece: &[u8]) -> io::Result<usize> {
        self.inner.write_at(start, piece)
    }

    fn sync(&mut self) -> io::Result<()> {
        if self.refuses {
            return Err(io::Error::from(io::ErrorKind::StorageFull));
        }
        let _ = self.syncs.fetch_add(1, SeqCst);
        self.inner.sync()
    }
}

/// A disk over such drives.
pub(crate) type Store<'a> = ArrayStore<FileDrive<Counted<'a>>>;

/// The plan of a disk of six drives.
pub(crate) fn plan_of(rt: &impl Abort, size: u64, block: u32) -> Plan {
    let Ok(plan) = plan_disk(size, block, 6) else {
        rt.panic("no plan")
    };
    plan
}

fn opened<'a>(
    rt: &impl Abort,
    alloc: Global,
    shape: &Shape,
    syncs: &'a AtomicU64,
    refuses: bool,
) -> FileDrive<Counted<'a>> {
    let length = shape.unit_bytes() * shape.drive_units() as usize;
    let Ok(bytes) = vec![in alloc; 0u8; length] else {
        rt.panic("no memory")
    };
    let backing = Counted {
        inner: InMemory { bytes },
        syncs,
        refuses,
    };
    let Ok(drive) = FileDrive::open(alloc, shape, backing) else {
        rt.panic("no drive")
    };
    drive
}

fn are_sized<D: Drive>(drives: &[D], bytes: usize) -> bool
    ensures { IsTrue result → AreSized D.units bytes drives.now }
{
    drives.iter().all(|drive| drive.unit_bytes() == bytes)
}

fn have_units<D: Drive>(drives: &[D], units: u32) -> bool
    ensures { IsTrue result → HaveUnitCount D.units drives.now units }
{
    drives.iter().all(|drive| drive.units() == units)
}

fn world_of<D: Drive + Drop>(
    rt: &impl Abort,
    alloc: Global,
    shape: Shape,
    drives: Vec<D>,
) -> World<D> {
    check!(rt; 3 <= drives.len() && drives.len() <= 16);
    check!(rt; are_sized(&drives, shape.unit_bytes()));
    check!(rt; have_units(&drives, shape.drive_units()));
    let Ok(array) = Array::new(alloc, shape, drives) else {
        rt.panic("no array")
    };
    let Ok(world) = World::of(alloc, array) else {
        rt.panic("no world")
    };
    world
}

fn make_groups<D: Drive>(rt: &impl Abort, alloc: Global, plan: &Plan, tiers: &mut Tiers<D>) {
    for group in 0..plan.groups {
        let mut members = Vec::new(alloc);
        for index in 0..plan.members {
            let pushed = members.push(member_at(plan, group, index)).is_ok();
            check!(rt; pushed);
        }
        let made = tiers.make(alloc, class_of(plan, group), &members);
        check!(rt; matches!(made, Ok(Answer::Made(_))));
    }
}

/// A disk of a plan, of zeros, on which the drives that are named refuse each sync.
pub(crate) fn store_of<'a>(
    rt: &impl Abort,
    alloc: Global,
    plan: &Plan,
    syncs: &'a AtomicU64,
    refusing: [bool; 6],
) -> Store<'a> {
    let mut drives = Vec::new(alloc);
    for refuses in refusing {
        let pushed = drives
            .push(opened(rt, alloc, &plan.shape, syncs, refuses))
            .is_ok();
        check!(rt; pushed);
    }
    store_over(rt, alloc, plan, drives)
}

/// A disk of a plan over drives whose units are all zero.
pub(crate) fn store_over<D: Drive + Drop>(
    rt: &impl Abort,
    alloc: Global,
    plan: &Plan,
    drives: Vec<D>,
) -> ArrayStore<D> {
    let world = world_of(rt, alloc, plan.shape, drives);
    let Ok(mut tiers) = Tiers::new(alloc, world) else {
        rt.panic("no tiers")
    };
    make_groups(rt, alloc, plan, &mut tiers);
    let shape = tiers.world().array().shape();
    check!(rt; plan.size <= u64::from(shape.blocks) * u64::from(shape.payload));
    let Ok(store) = ArrayStore::new(alloc, tiers, plan.size) else {
        rt.panic("no store")
    };
    store
}
