//! A disk over files in memory that is stopped at each call of a file. Opened again, it has the bytes after a request: of those that
//! were begun no later one, and no earlier one than the last that was answered, or after a loss of power that was flushed.
ghost use Rattle.std.specs.Prelude.{◌≡◌};

use crate::asserts::check;
use crate::model::{PIECE, is_within, piece_of, set};
use crate::recovered::{groups_of, opened_in};
use crate::rig::plan_of;
use array_recovery::open_store;
use byte_store::ByteStore;
use cached_drive::Saved;
use disk_shape::Plan;
use extent_groups::Place;
use extents::DRIVES;
use file_vault::{FileVault, HEADER, JOURNAL, Layout, MemFiles};
use history::{Chronicle, Opened};
use journaled_store::JournaledStore;
use std::alloc::Global;
use std::marker::Brand;
use std::process::Abort;
use vault::{Batch, Stop, TABLE, UnitRead, Vault, settle};

pub(crate) type Store<N> = JournaledStore<N, FileVault<MemFiles>>;

/// Requests of a run: an offset, a length, and the first byte that is written.
const REQUESTS: [(usize, usize, u8); 10] = [
    (60, 9, 1),
    (0, 64, 20),
    (63, 130, 3),
    (999, 1, 40),
    (500, 100, 5),
    (0, 130, 60),
    (640, 128, 7),
    (64, 64, 80),
    (900, 100, 9),
    (10, 120, 100),
];

/// How far a run came: requests that were begun, that were answered, and that were flushed.
#[derive(Clone, Copy)]
pub(crate) struct Reached {
    pub(crate) begun: usize,
    pub(crate) answered: usize,
    pub(crate) flushed: usize,
}

// Where the units of a disk lie.
pub(crate) fn layout_of(plan: &Plan) -> Layout {
    let mut counts = [0u32; DRIVES];
    for drive in 0..DRIVES {
        if drive < usize::from(plan.drives) {
            counts[drive] = plan.shape.drive_units();
        }
    }
    Layout {
        unit_bytes: plan.shape.unit_bytes() as u32,
        table_bytes: DRIVES as u32,
        counts,
    }
}

// The files of a new disk: zeros in all units, and no lost drive.
pub(crate) fn new_files(rt: &impl Abort, alloc: Global, plan: &Plan) -> MemFiles {
    let mut first = Vec::new(alloc);
    let units = plan.shape.unit_bytes() * plan.shape.drive_units() as usize;
    for number in 0..=JOURNAL {
        let length = if number < plan.drives {
            HEADER as usize + units
        } else if number == TABLE {
            HEADER as usize + DRIVES
        } else {
            0
        };
        let Ok(zeros) = vec![in alloc; 0u8; length] else {
            rt.panic("no memory")
        };
        let pushed = first.push(zeros).is_ok();
        check!(rt; pushed);
    }
    let files = MemFiles::new(alloc, first);
    let Ok(vault) = FileVault::create(alloc, files, layout_of(plan)) else {
        rt.panic("not made")
    };
    // Without the calls of it, which each read would look through.
    let Ok(files) = vault.into_files().left(Stop::Killed, 0) else {
        rt.panic("no memory")
    };
    files
}

// The bytes after the first requests.
fn bytes_after(rt: &impl Abort, count: usize) -> [u8; 1000] {
    let mut bytes = [0u8; 1000];
    for (offset, length, first) in REQUESTS.iter().take(count) {
        check!(rt; *length <= PIECE);
        set(rt, &mut bytes, *offset, &piece_of(*first)[..*length]);
    }
    bytes
}

// Makes the requests until one is refused. Each third one is flushed, and after each the store rests.
fn request_all<S: ByteStore>(rt: &impl Abort, alloc: Global, store: &mut S, reached: &mut Reached) {
    for (offset, length, first) in REQUESTS {
        reached.begun = reached.begun.saturating_add(1);
        check!(rt; length <= PIECE && is_within(offset, length, store.size()));
        if store
            .write(alloc, offset as u64, &piece_of(first)[..length])
            .is_err()
        {
            return;
        }
        reached.answered = reached.begun;
        store.rest(alloc);
        if reached.begun % 3 == 0 {
            if store.flush().is_err() {
                return;
            }
            reached.flushed = reached.begun;
        }
    }
}

// Opens the store that a vault has.
fn open_over<N: Chronicle, V: Vault + Drop>(
    rt: &impl Abort,
    alloc: Global,
    plan: &Plan,
    opened: Opened<Saved>,
    vault: V,
    absent: &[bool; DRIVES],
) -> Result<JournaledStore<N, V>, V>
    requires { opened ≡ N.chronicle }
{
    let (groups, extents) = groups_of(rt, alloc, plan);
    match open_store::<N, V>(
        alloc,
        vault,
        opened,
        &plan.shape,
        groups,
        extents,
        plan.drives,
        plan.size,
        absent,
        6,
    ) {
        Ok(store) => Ok(store),
        Err((_, vault)) => Err(vault),
    }
}

// Opens the store that files have.
pub(crate) fn store_of<N: Chronicle>(
    rt: &impl Abort,
    alloc: Global,
    plan: &Plan,
    opened: Opened<Saved>,
    files: MemFiles,
    absent: &[bool; DRIVES],
) -> Result<Store<N>, MemFiles>
    requires { opened ≡ N.chronicle }
{
    let vault = match FileVault::open(alloc, files, layout_of(plan)) {
        Ok(vault) => vault,
        Err((_, files)) => return Err(files),
    };
    match open_over::<N, FileVault<MemFiles>>(rt, alloc, plan, opened, vault, absent) {
        Ok(store) => Ok(store),
        Err(vault) => Err(vault.into_files()),
    }
}

// The files after a run whose calls of files fail after so many.
fn run<N: Chronicle>(
    rt: &impl Abort,
    alloc: Global,
    plan: &Plan,
    opened: Opened<Saved>,
    calls: u32,
    reached: &mut Reached,
) -> MemFiles
    requires { opened ≡ N.chronicle }
{
    let mut files = new_files(rt, alloc, plan);
    files.fail_after(calls);
    match store_of::<N>(rt, alloc, plan, opened, files, &[false; DRIVES]) {
        Ok(mut store) => {
            request_all(rt, alloc, &mut store, reached);
            store.into_vault().into_files()
        }
        Err(files) => files,
    }
}

fn run_stopped(
    rt: &impl Abort,
    alloc: Global,
    plan: &Plan,
    calls: u32,
    reached: &mut Reached,
) -> MemFiles {
    let opened = opened_in(rt, alloc);
    run::<Brand>(rt, alloc, plan, opened, calls, reached)
}

// The bytes of a store.
fn read_all<S: ByteStore>(rt: &impl Abort, store: &mut S) -> [u8; 1000] {
    let mut out = [7u8; 1000];
    check!(rt; is_within(0, out.len(), store.size()));
    let read = store.read(0, &mut out);
    check!(rt; read.is_ok());
    out
}

// The bytes of a disk that is opened again.
fn read_again<N: Chronicle>(
    rt: &impl Abort,
    alloc: Global,
    plan: &Plan,
    opened: Opened<Saved>,
    files: MemFiles,
    absent: &[bool; DRIVES],
) -> ([u8; 1000], FileVault<MemFiles>)
    requires { opened ≡ N.chronicle }
{
    let Ok(mut store) = store_of::<N>(rt, alloc, plan, opened, files, absent) else {
        rt.panic("not opened")
    };
    let out = read_all(rt, &mut store);
    (out, store.into_vault())
}

pub(crate) fn bytes_again(
    rt: &impl Abort,
    alloc: Global,
    plan: &Plan,
    files: MemFiles,
    absent: &[bool; DRIVES],
) -> ([u8; 1000], FileVault<MemFiles>) {
    let opened = opened_in(rt, alloc);
    read_again::<Brand>(rt, alloc, plan, opened, files, absent)
}

// The drive that a vault says is lost.
fn lost_in<V: Vault + Drop>(rt: &impl Abort, alloc: Global, vault: V) -> Option<usize> {
    let mut vault = vault;
    let mut room = Batch::new(alloc);
    let settled = settle(&mut vault, &mut room, &[false; DRIVES]).is_ok();
    check!(rt; settled);
    let mut marks = [0u8; DRIVES];
    let place = Place {
        drive: TABLE,
        address: 0,
    };
    let read = vault.read_unit(place, &mut marks);
    check!(rt; read == Ok(UnitRead::Whole));
    marks.iter().position(|mark| *mark != 0)
}

// Whether these are the bytes after so many requests or more, and no more than were begun.
fn is_allowed(rt: &impl Abort, bytes: &[u8; 1000], least: usize, begun: usize) -> bool {
    for count in 0..=REQUESTS.len() {
        if least <= count && count <= begun && bytes_after(rt, count)[..] == bytes[..] {
            return true;
        }
    }
    false
}

// Opens what a stop left, and tests its bytes.
fn opened_bytes(
    rt: &impl Abort,
    alloc: Global,
    plan: &Plan,
    files: &MemFiles,
    stop: (Stop, u64),
    absent: &[bool; DRIVES],
    least: usize,
    reached: Reached,
) -> FileVault<MemFiles> {
    let Ok(left) = files.left(stop.0, stop.1) else {
        rt.panic("no memory")
    };
    let (bytes, vault) = bytes_again(rt, alloc, plan, left, absent);
    check!(rt; is_allowed(rt, &bytes, least, reached.begun));
    vault
}

// Stops a run after so many calls, and opens what is left, also without a drive. Whether the run came to its end.
fn stop_at(rt: &impl Abort, alloc: Global, plan: &Plan, calls: u32) -> bool {
    let mut reached = Reached {
        begun: 0,
        answered: 0,
        flushed: 0,
    };
    let files = run_stopped(rt, alloc, plan, calls, &mut reached);
    for (stop, choice) in [
        (Stop::Killed, 0u64),
        (Stop::PowerLost, u64::from(calls)),
        (Stop::PowerLost, 977 * u64::from(calls) + 5),
    ] {
        let least = match stop {
            Stop::Killed => reached.answered,
            Stop::PowerLost => reached.flushed,
        };
        let mut absent = [false; DRIVES];
        let vault = opened_bytes(
            rt,
            alloc,
            plan,
            &files,
            (stop, choice),
            &absent,
            least,
            reached,
        );
        // A batch whose write failed may be there, and say that a drive is lost: then no other one may be.
        let without = lost_in(rt, alloc, vault).unwrap_or(calls as usize % 6);
        check!(rt; without < DRIVES);
        absent[without] = true;
        let _ = opened_bytes(
            rt,
            alloc,
            plan,
            &files,
            (stop, choice),
            &absent,
            least,
            reached,
        );
    }
    reached.answered == REQUESTS.len()
}

#[test]
fn a_disk_that_is_stopped_has_all_that_was_answered(rt: HostRuntime) {
    let alloc = rt.alloc();
    let plan = plan_of(&rt, 1000, 64);
    let mut stops = 0u32;
    for calls in 0..2000u32 {
        if stop_at(&rt, alloc, &plan, calls) {
            break;
        }
        stops = stops.saturating_add(1);
    }
    check!(&rt; 100 < stops && stops < 2000);
}
