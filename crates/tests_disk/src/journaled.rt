// A disk whose calls are batches of a journal.
ghost use Rattle.std.specs.Prelude.{◌≡◌, []};
ghost use Rattle.extents.specs.declared.mem_drive.Condition.TheVariants.{Present};

use crate::asserts::check;
use crate::calls::publish_call;
use crate::model::{agree, write, zero};
use crate::rig::{plan_of, store_over};
use array_store::ArrayStore;
use byte_store::{ByteStore, StoreFault};
use cached_drive::{CachedDrive, Saved};
use disk_shape::Plan;
use extents::{DRIVES, Drive, MemDrive};
use file_vault::{FileVault, Layout, MemFiles};
use history::{Chronicle, Hand, History, Keeper, Opened};
use journaled_store::{Changes, JournaledStore, sync};
use std::alloc::{Alloc, Global};
use std::marker::Brand;
use std::process::Abort;
use vault::{Batch, MemVault, Vault};

// A drive of zeros with a hand.
fn drive_of<N: Chronicle>(
    rt: &impl Abort,
    alloc: Global,
    plan: &Plan,
    history: &History<N, Saved>,
    keeper: &mut Keeper<N, Saved>,
    hand: Hand<N, Saved>,
) -> CachedDrive<N>
    requires { hand.mine ≡ [] }
{
    let Ok(cache) = MemDrive::new(alloc, &plan.shape) else {
        rt.panic("no drive")
    };
    CachedDrive::new(alloc, cache, history, keeper, hand)
}

/// A disk of zeros, and what no vault has of it.
pub(crate) fn disk_of<N: Chronicle>(
    rt: &impl Abort,
    alloc: Global,
    plan: &Plan,
    opened: Opened<Saved>,
) -> (ArrayStore<CachedDrive<N>>, Changes<N>)
    requires { opened ≡ N.chronicle }
{
    let (history, mut keeper, first) = opened.named::<N>();
    let mut drives = Vec::new(alloc);
    let pushed = drives
        .push(drive_of(rt, alloc, plan, &history, &mut keeper, first))
        .is_ok();
    check!(rt; pushed);
    for _drive in 1..6u8 {
        let Some(hand) = keeper.hire(&history) else {
            rt.panic("no hand")
        };
        let pushed = drives
            .push(drive_of(rt, alloc, plan, &history, &mut keeper, hand))
            .is_ok();
        check!(rt; pushed);
    }
    let store = store_over(rt, alloc, plan, drives);
    let bytes = plan.shape.unit_bytes();
    let Ok(changes) = Changes::new(alloc, history, keeper, bytes, [0; DRIVES]) else {
        rt.panic("no changes")
    };
    (store, changes)
}

// A batch for the groups that were made, and one for each call that wrote.
fn write_all<N: Chronicle, V: Vault>(
    rt: &impl Abort,
    alloc: Global,
    plan: &Plan,
    opened: Opened<Saved>,
    vault: &mut V,
)
    requires { opened ≡ N.chronicle }
{
    let (mut store, mut changes) = disk_of::<N>(rt, alloc, plan, opened);
    let mut model = [0u8; 1000];
    publish_call(rt, &mut store, &mut changes, vault);
    for piece in [
        (60usize, 9usize, 1u8),
        (0, 64, 20),
        (63, 130, 3),
        (999, 1, 40),
    ] {
        write(rt, alloc, &mut store, &mut model, piece);
        publish_call(rt, &mut store, &mut changes, vault);
    }
    check!(rt; agree(rt, &mut store, &model));
    publish_call(rt, &mut store, &mut changes, vault);
    let synced = sync(vault);
    check!(rt; synced.is_ok());
    check!(rt; vault.batches() == Ok(5));
    // The first write lies in two blocks of the mirrored level, so in four units.
    let mut batch = Batch::new(alloc);
    let read = vault.read_batch(1, &mut batch);
    check!(rt; read.is_ok() && batch.len() == 4);
}

#[test]
fn each_call_is_one_batch(rt: HostRuntime) {
    let Ok(opened) = Opened::new(rt.alloc()) else {
        rt.panic("no memory")
    };
    let plan = plan_of(&rt, 1000, 64);
    let mut vault = MemVault::new(rt.alloc());
    write_all::<Brand, MemVault>(&rt, rt.alloc(), &plan, opened, &mut vault);
}

// Writes, flushes, settles and rests, and reads it all back.
fn keep_all<N: Chronicle, V: Vault + Drop>(
    rt: &impl Abort,
    alloc: Global,
    plan: &Plan,
    opened: Opened<Saved>,
    vault: V,
)
    requires { opened ≡ N.chronicle }
{
    let (store, changes) = disk_of::<N>(rt, alloc, plan, opened);
    let mut disk = JournaledStore::new(alloc, store, changes, vault, 4);
    let mut model = [0u8; 1000];
    for piece in [
        (60usize, 9usize, 1u8),
        (0, 64, 20),
        (63, 130, 3),
        (999, 1, 40),
    ] {
        write(rt, alloc, &mut disk, &mut model, piece);
        disk.rest(alloc);
    }
    zero(rt, alloc, &mut disk, &mut model, (70, 30));
    let flushed = disk.flush();
    check!(rt; flushed.is_ok());
    check!(rt; agree(rt, &mut disk, &model));
    let settled = disk.settle();
    check!(rt; settled.is_ok());
    for piece in [(500usize, 100usize, 7u8), (400, 130, 9)] {
        write(rt, alloc, &mut disk, &mut model, piece);
    }
    check!(rt; agree(rt, &mut disk, &model));
}

#[test]
fn bytes_are_read_as_they_were_kept(rt: HostRuntime) {
    let Ok(opened) = Opened::new(rt.alloc()) else {
        rt.panic("no memory")
    };
    let plan = plan_of(&rt, 1000, 64);
    let vault = MemVault::new(rt.alloc());
    keep_all::<Brand, MemVault>(&rt, rt.alloc(), &plan, opened, vault);
}

// A vault over files in memory, where the file of drive 1 fails its first write.
fn failing_vault(rt: &impl Abort, alloc: Global, plan: &Plan) -> FileVault<MemFiles> {
    let mut counts = [0; 16];
    for drive in 0..6usize {
        counts[drive] = plan.shape.drive_units();
    }
    let layout = Layout {
        unit_bytes: plan.shape.unit_bytes() as u32,
        table_bytes: DRIVES as u32,
        counts,
    };
    let mut empty = Vec::new(alloc);
    for _ in 0..18 {
        let pushed = empty.push(Vec::new(alloc)).is_ok();
        check!(rt; pushed);
    }
    let made = FileVault::create(alloc, MemFiles::new(alloc, empty), layout);
    let Ok(vault) = made else {
        rt.panic("not made")
    };
    let mut files = vault.into_files();
    files.fail_file_after(1, 1);
    let Ok(vault) = FileVault::open(alloc, files, layout) else {
        rt.panic("not opened")
    };
    vault
}

// A drive that fails the vault is lost, and the journal is settled without it.
fn lose_one<N: Chronicle, V: Vault + Drop>(
    rt: &impl Abort,
    alloc: Global,
    plan: &Plan,
    opened: Opened<Saved>,
    vault: V,
)
    requires { opened ≡ N.chronicle }
{
    let (store, changes) = disk_of::<N>(rt, alloc, plan, opened);
    let mut disk = JournaledStore::new(alloc, store, changes, vault, 4);
    let mut model = [0u8; 1000];
    write(rt, alloc, &mut disk, &mut model, (60, 130, 1));
    let settled = disk.settle();
    check!(rt; settled == Err(StoreFault::Sync));
    check!(rt; disk.world().array().drive_count() == 6);
    check!(rt; disk.world().array().is_lost(1));
    check!(rt; !disk.world().array().is_lost(0));
    let settled = disk.settle();
    check!(rt; settled.is_ok());
    write(rt, alloc, &mut disk, &mut model, (300, 100, 5));
    check!(rt; agree(rt, &mut disk, &model));
    let flushed = disk.flush();
    check!(rt; flushed.is_ok());
}

#[test]
fn a_drive_that_fails_the_vault_is_lost(rt: HostRuntime) {
    let Ok(opened) = Opened::new(rt.alloc()) else {
        rt.panic("no memory")
    };
    let plan = plan_of(&rt, 1000, 64);
    let vault = failing_vault(&rt, rt.alloc(), &plan);
    lose_one::<Brand, FileVault<MemFiles>>(&rt, rt.alloc(), &plan, opened, vault);
}

// A doomed drive is lost by a sync, and by a read.
fn lose_doomed<N: Chronicle>(rt: &impl Abort, alloc: Global, plan: &Plan, opened: Opened<Saved>)
    requires { opened ≡ N.chronicle }
{
    let (history, mut keeper, first) = opened.named::<N>();
    let mut drive = drive_of(rt, alloc, plan, &history, &mut keeper, first);
    check!(rt; drive.sync().is_ok());
    drive.doom();
    check!(rt; !drive.is_lost());
    check!(rt; drive.sync().is_err());
    check!(rt; drive.is_lost());
    let Some(hand) = keeper.hire(&history) else {
        rt.panic("no hand")
    };
    let mut drive = drive_of(rt, alloc, plan, &history, &mut keeper, hand);
    check!(rt; drive.units() > 0);
    let Ok(mut unit) = vec![in alloc; 0u8; drive.unit_bytes()] else {
        rt.panic("no memory")
    };
    check!(rt; drive.read_unit(0, &mut unit).is_ok());
    drive.doom();
    check!(rt; drive.read_unit(0, &mut unit).is_err());
    check!(rt; drive.is_lost());
}

#[test]
fn a_doomed_drive_is_lost_by_its_next_call(rt: HostRuntime) {
    let Ok(opened) = Opened::new(rt.alloc()) else {
        rt.panic("no memory")
    };
    let plan = plan_of(&rt, 1000, 64);
    lose_doomed::<Brand>(&rt, rt.alloc(), &plan, opened);
}
