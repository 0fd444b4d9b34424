//! A disk that is served.
ghost use Rattle.std.specs.Prelude.{◌≡◌};

use crate::any_vault::serve_array;
use crate::disk_vault::DiskVault;
use crate::drives::Drives;
use crate::folder::{Folder, Name};
use crate::mending::mend_disk;
use crate::notes::name_lost;
use crate::opened::{OpenFiles, Use, groups_in, open_disk_files, units_in, unopened};
use crate::pairs::{Condition, Pair, Pairs};
use crate::progress;
use crate::resting::{read_position, write_position};
use crate::status::served_text;
use crate::trouble::Trouble;
use array_recovery::RecoveryFault;
use byte_store::StoreFault;
use cached_drive::Saved;
use disk_shape::Plan;
use file_vault::Twin;
use group_form::Spelled;
use history::{Chronicle, Opened};
use journaled_store::JournaledStore;
use nbd_serve::End;
use std::io;
use std::io::{BufReader, Read};
use std::marker::Brand;
use vault::Vault;
use vault_server::Served;
use watched_store::Sees;

/// After so many units that were compared it is written down where the next one is.
const SAVE_EVERY: u64 = 4096;

/// Bytes that are read from the client at once.
const READ_AHEAD: usize = 65_536;

/// How a disk is served.
#[derive(Clone, Copy)]
struct Serving {
    /// Bytes of units in the journal from which on these are written to their places.
    journal: u64,
    /// Units that weren't as their digests say, and were written again before.
    mended: u32,
}

// Names the drives that are lost when the disk is open and while it is served, and writes it for `status`.
#[derive(Drop)]
struct LossWatch<'a> {
    rt: &'a HostRuntime,
    folder: Folder<'a>,
    drives: &'a Drives,
    mended: u32,
    // How many drives were lost when they were last named.
    named: Option<u8>,
    // How many units had been compared when that was last written down.
    saved: u64,
    // How many units had been written again when a warning last said so.
    warned: u64,
}

impl<'a> LossWatch<'a> {
    // Writes down where units are compared next, and warns of units that were written again.
    fn note_scrub<N: Chronicle, V: Vault + Drop>(&mut self, store: &JournaledStore<N, V>) {
        if store.repaired() > self.warned {
            self.warned = store.repaired();
            // Nothing is left to do where standard error can't be written.
            let _ = warn_repaired(self.rt, self.folder, self.warned);
            say_served(self.rt, self.folder, store, self.drives, self.mended);
        }
        if store.scrubbed() >= self.saved.saturating_add(SAVE_EVERY) {
            self.saved = store.scrubbed();
            write_position(self.rt, self.folder, store.scrub_position());
        }
    }
}

impl<'a, N: Chronicle, V: Vault + Drop> Sees<JournaledStore<N, V>> for LossWatch<'a> {
    fn sees(&mut self, store: &JournaledStore<N, V>) {
        let lost = lost_count(store);
        let more = match self.named {
            Some(named) => lost > named,
            None => true,
        };
        if more {
            self.named = Some(lost);
            // Nothing is left to do where standard error can't be written.
            let _ = name_lost(self.rt, self.folder, store, self.drives);
            say_served(self.rt, self.folder, store, self.drives, self.mended);
        }
        self.note_scrub(store);
    }
}

// Says how many units were written again since the disk was opened.
fn warn_repaired(rt: &HostRuntime, folder: Folder<'_>, count: u64) -> io::Result<()> {
    let path = folder.path(rt.alloc(), Name::Folder)?;
    eprintln!(rt;
        "raid_disk: {path}: {count} units on files weren't as the array has them, and are written again"
    )
}

// Names the files of a pair that are missing, older or fail, on standard error.
fn name_pair(rt: &HostRuntime, folder: Folder<'_>, pairs: &Pairs, pair: Pair) -> io::Result<()> {
    let found = pairs.of(pair);
    for twin in [Twin::First, Twin::Second] {
        let path = folder.path(rt.alloc(), pair.name(twin))?;
        let other = folder.path(rt.alloc(), pair.name(twin.other()))?;
        match found.of(twin) {
            Condition::Present => {}
            Condition::Missing => eprintln!(rt;
                "raid_disk: {path} was missing: {other} was copied to it if it could be made"
            )?,
            Condition::Older => eprintln!(rt;
                "raid_disk: {path} was older than {other}, which was copied to it"
            )?,
            Condition::Failed => eprintln!(rt;
                "raid_disk: {path} can't be read or written: {other} goes on without it"
            )?,
        }
    }
    Ok(())
}

// How a session ended, for the caller of the program.
fn outcome_of(end: End) -> Result<u8, Trouble> {
    match end {
        End::Disconnected | End::Aborted => Ok(0),
        End::Memory => Err(Trouble::Memory),
        _ => Err(Trouble::Stream(end)),
    }
}

// How many drives are lost.
fn lost_count<N: Chronicle, V: Vault + Drop>(store: &JournaledStore<N, V>) -> u8 {
    let array = store.world().array();
    let mut count = 0u8;
    for drive in 0..array.drive_count() {
        if array.is_lost(drive) {
            count = count.saturating_add(1);
        }
    }
    count
}

// Whether all was made durable, for the caller of the program.
fn test_flushed(flushed: Result<(), StoreFault>) -> Result<(), Trouble> {
    match flushed {
        Ok(()) => Ok(()),
        Err(StoreFault::Memory) => Err(Trouble::Memory),
        Err(_) => Err(Trouble::Sync),
    }
}

// Writes for `status` what the disk is like.
fn say_served<N: Chronicle, V: Vault + Drop>(
    rt: &HostRuntime,
    folder: Folder<'_>,
    store: &JournaledStore<N, V>,
    drives: &Drives,
    mended: u32,
) {
    if let Ok(text) = served_text(rt.alloc(), store, drives, mended) {
        progress::say(rt, folder, &text);
    }
}

// How a session went.
struct Session {
    end: End,
    // Whether all bytes are durable.
    flushed: Result<(), StoreFault>,
}

// Serves the array of a vault to the client that the reader reads from. Writes down where units are compared next.
fn serve_spelled<N: Chronicle, V: Vault + Drop, R: Read>(
    rt: &HostRuntime,
    folder: Folder<'_>,
    vault: V,
    plan: &Plan,
    spelled: Spelled,
    drives: &Drives,
    serving: Serving,
    opened: Opened<Saved>,
    reader: &mut R,
) -> Result<Session, (RecoveryFault, V)>
    requires { opened ≡ N.chronicle }
{
    let watch = LossWatch {
        rt,
        folder,
        drives,
        mended: serving.mended,
        named: None,
        saved: 0,
        warned: 0,
    };
    let served = serve_array::<N, V, _, _, _>(
        rt.alloc(),
        vault,
        opened,
        &plan.shape,
        spelled,
        plan.size,
        &drives.absent(),
        units_in(serving.journal, plan),
        read_position(rt, folder),
        watch,
        reader,
        &mut rt.stdout(),
    );
    let Served {
        store,
        flushed,
        end,
        ..
    } = served?;
    write_position(rt, folder, store.scrub_position());
    Ok(Session { end, flushed })
}

// Serves a disk whose files are open. What a server before has left in the journal is settled first, and at the end all is synced
// and settled.
fn serve_files<N: Chronicle, V: Vault + Drop>(
    rt: &HostRuntime,
    folder: Folder<'_>,
    files: OpenFiles<V>,
    serving: Serving,
    opened: Opened<Saved>,
) -> Result<u8, Trouble>
    requires { opened ≡ N.chronicle }
{
    let OpenFiles {
        table,
        mut vault,
        drives,
        ..
    } = files;
    let plan = table.plan;
    let spelled = groups_in(rt.alloc(), &mut vault, &table)?;
    let count = spelled.drives;
    let Ok(mut reader) = BufReader::with_capacity(rt.alloc(), READ_AHEAD, rt.stdin()) else {
        return Err(Trouble::Memory);
    };
    let session = serve_spelled::<N, V, _>(
        rt,
        folder,
        vault,
        &plan,
        spelled,
        &drives,
        serving,
        opened,
        &mut reader,
    );
    progress::end(rt, folder);
    match session {
        Ok(Session { end, flushed }) => {
            test_flushed(flushed)?;
            outcome_of(end)
        }
        Err((fault, vault)) => Err(unopened(rt, folder, fault, vault, &plan, count, &drives)),
    }
}

// Serves a disk.
fn serve_opened<N: Chronicle>(
    rt: &HostRuntime,
    folder: Folder<'_>,
    serving: Serving,
    opened: Opened<Saved>,
) -> Result<u8, Trouble>
    requires { opened ≡ N.chronicle }
{
    // The folder is locked as long as it is open.
    let (_lock, files) = open_disk_files(rt, folder, Use::Serves)?;
    // Nothing is left to do where standard error can't be written.
    let _ = name_pair(rt, folder, &files.pairs, Pair::State);
    let _ = name_pair(rt, folder, &files.pairs, Pair::Journal);
    serve_files::<N, DiskVault>(rt, folder, files, serving, opened)
}

// Serves a disk, unless a unit isn't as its digest says.
fn serve_once(rt: &HostRuntime, folder: Folder<'_>, serving: Serving) -> Result<u8, Trouble> {
    let opened = Opened::new(rt.alloc())?;
    serve_opened::<Brand>(rt, folder, serving, opened)
}

/// Serves a disk to one client, on standard input and output. Units that aren't as their digests say are written again first. From
/// `journal` bytes of units in the journal on these are written to their places while nobody waits.
pub(crate) fn serve_disk(
    rt: &HostRuntime,
    folder: Folder<'_>,
    journal: u64,
) -> Result<u8, Trouble> {
    let serving = Serving { journal, mended: 0 };
    match serve_once(rt, folder, serving) {
        Err(Trouble::Rotten(_, _)) => {}
        ended => return ended,
    }
    let mended = mend_disk(rt, folder)?;
    serve_once(rt, folder, Serving { journal, mended })
}
