//! What a disk has in two files: its state, and its journal.
use crate::create::write_zeros;
use crate::disk_files::{DiskFiles, OF_JOURNAL, OF_STATE};
use crate::folder::{Folder, Name};
use crate::opened::{Use, header_of, open_file};
use crate::pair_files::{JournalFiles, PairFiles};
use crate::table::Table;
use crate::trouble::{Trouble, unread};
use extent_groups::Place;
use extents::DRIVES;
use file_vault::{
    FileFault, Files, HEADER, Header, Held, Layout, TABLE_SECOND, Twin, TwinFiles, read_count,
    read_header, write_header,
};
use std::fs::{File, OpenOptions};
use std::io;
use unit_digest::{DIGEST_BYTES, digest_of};
use vault::TABLE;

/// What lies in two files.
#[derive(Clone, Copy, Debug, PartialEq, Eq)]
pub(crate) enum Pair {
    /// The vault's table: which drives are lost, the groups, and the number of drives.
    State,
    Journal,
}

impl Pair {
    /// The name of a file.
    pub(crate) fn name(self, twin: Twin) -> Name {
        match self {
            Pair::State => Name::State(twin),
            Pair::Journal => Name::Journal(twin),
        }
    }

    /// The number of a file.
    pub(crate) fn number(self, twin: Twin) -> u8 {
        match (self, twin) {
            (Pair::State, Twin::First) => TABLE,
            (Pair::State, Twin::Second) => TABLE_SECOND,
            (Pair::Journal, _) => twin.number(),
        }
    }

    // The refusal where neither file can be taken.
    fn refusal(self) -> Trouble {
        match self {
            Pair::State => Trouble::NoState,
            Pair::Journal => Trouble::NoJournal,
        }
    }
}

/// What was found of a file of a pair.
#[derive(Clone, Copy, Debug, PartialEq, Eq)]
pub(crate) enum Condition {
    /// It is there.
    Present,
    /// It isn't there, or wasn't made to its end.
    Missing,
    /// The disk went on without it.
    Older,
    /// It can't be opened, read or written, or isn't marked as a file of a disk.
    Failed,
}

impl Condition {
    /// The word for it.
    pub(crate) fn word(self) -> &'static str {
        match self {
            Condition::Present => "present",
            Condition::Missing => "missing",
            Condition::Older => "older",
            Condition::Failed => "failed",
        }
    }
}

/// What was found of both.
#[derive(Clone, Copy)]
pub(crate) struct Conditions {
    pub(crate) first: Condition,
    pub(crate) second: Condition,
}

impl Conditions {
    /// What was found of one.
    pub(crate) fn of(&self, twin: Twin) -> Condition {
        match twin {
            Twin::First => self.first,
            Twin::Second => self.second,
        }
    }

    /// Whether both are there and as new.
    pub(crate) fn are_present(&self) -> bool {
        self.first == Condition::Present && self.second == Condition::Present
    }

    fn set(&mut self, twin: Twin, condition: Condition) {
        match twin {
            Twin::First => self.first = condition,
            Twin::Second => self.second = condition,
        }
    }

    // Notes a file that failed while both were opened.
    fn note_failed(&mut self, held: Held) {
        if let Held::Only(twin, _) = held {
            if self.of(twin.other()) == Condition::Present {
                self.set(twin.other(), Condition::Failed);
            }
        }
    }
}

/// What was found of both pairs.
#[derive(Clone, Copy)]
pub(crate) struct Pairs {
    pub(crate) state: Conditions,
    pub(crate) journal: Conditions,
}

impl Pairs {
    /// Files that are there and as new.
    pub(crate) fn new() -> Pairs {
        let both = Conditions {
            first: Condition::Present,
            second: Condition::Present,
        };
        Pairs {
            state: both,
            journal: both,
        }
    }

    /// What was found of a pair.
    pub(crate) fn of(&self, pair: Pair) -> Conditions {
        match pair {
            Pair::State => self.state,
            Pair::Journal => self.journal,
        }
    }

    /// Whether all four files are there and as new.
    pub(crate) fn are_present(&self) -> bool {
        self.state.are_present() && self.journal.are_present()
    }
}

// Opens a file if it is there. Says how many bytes it has, or why it can't be opened.
fn put_there(
    rt: &HostRuntime,
    folder: Folder<'_>,
    files: &mut DiskFiles,
    pair: Pair,
    twin: Twin,
    usage: Use,
) -> Result<Result<u64, io::Error>, Trouble> {
    let file = match open_file(rt, folder, pair.name(twin), usage) {
        Ok(Some(file)) => file,
        Ok(None) => return Ok(Ok(0)),
        Err(Trouble::Read(_, error)) => return Ok(Err(error)),
        Err(trouble) => return Err(trouble),
    };
    match file.metadata() {
        Ok(data) => {
            files.put(pair.number(twin), file)?;
            Ok(Ok(data.len()))
        }
        Err(error) => Ok(Err(error)),
    }
}

// Whether a file has no mark yet, since it was being made when that was stopped.
fn is_unmarked(files: &mut DiskFiles, number: u8) -> bool {
    let mut mark = [0u8; 8];
    files.read_at(number, 0, &mut mark).is_ok() && mark == [0; 8]
}

// What a file is. One of another disk, or another one of this, is refused.
fn condition_of(
    files: &mut DiskFiles,
    layout: &Layout,
    number: u8,
    table: &Table,
    length: &Result<u64, io::Error>,
) -> Result<Condition, Trouble> {
    match length {
        Err(_) => return Ok(Condition::Failed),
        Ok(0) => return Ok(Condition::Missing),
        Ok(_) => {}
    }
    match read_header(files, number) {
        Ok(Some(header)) if header == header_of(layout, number, table.identity) => {
            Ok(Condition::Present)
        }
        Ok(Some(_)) => Err(Trouble::Foreign(number)),
        Ok(None) if is_unmarked(files, number) => Ok(Condition::Missing),
        Ok(None) | Err(_) => Ok(Condition::Failed),
    }
}

// Makes a file of zeros as long as the other one.
fn make_blank(rt: &HostRuntime, folder: Folder<'_>, name: Name, length: u64) -> io::Result<File> {
    let Ok(path) = folder.path(rt.alloc(), name) else {
        return Err(io::Error::from(io::ErrorKind::OutOfMemory));
    };
    let mut file = OpenOptions::new()
        .read(true)
        .write(true)
        .create(true)
        .truncate(true)
        .open(rt, &path)?;
    write_zeros(&mut file, length)?;
    folder.sync(rt)?;
    Ok(file)
}

// Makes a file that is missing, so that the other one is copied into it. The disk goes on without it where it can't be made.
fn make_again(
    rt: &HostRuntime,
    folder: Folder<'_>,
    files: &mut DiskFiles,
    header: &Header,
    name: Name,
    length: u64,
) -> Result<(), Trouble> {
    if let Ok(file) = make_blank(rt, folder, name, length) {
        files.put(header.number, file)?;
        if write_header(files, header).is_err() {
            files.leave_out(header.number);
        }
    }
    Ok(())
}

// Finds which of two files is older.
fn compare(files: &mut DiskFiles, pair: Pair, found: &mut Conditions, usage: Use) {
    if !found.are_present() {
        return;
    }
    let Ok(first) = read_count(files, pair.number(Twin::First)) else {
        found.first = Condition::Failed;
        return;
    };
    let Ok(second) = read_count(files, pair.number(Twin::Second)) else {
        found.second = Condition::Failed;
        return;
    };
    let lower = if first < second {
        Twin::First
    } else {
        Twin::Second
    };
    if first != second {
        found.set(lower, Condition::Older);
    }
    // A disk that is only looked at has no file made equal: the newer one is read alone.
    if usage == Use::Looks && first != second {
        files.leave_out(pair.number(lower));
    }
}

// Whether a unit of a file of the state can't be read, or isn't as its digest says. The file is read whole.
fn is_rotten(files: &mut DiskFiles, layout: &Layout, number: u8) -> bool {
    let mut unit = [0u8; DRIVES];
    let mut digest = [0u8; DIGEST_BYTES];
    for address in 0..layout.count(TABLE) {
        let place = Place {
            drive: TABLE,
            address,
        };
        let Some(at) = layout.offset(place) else {
            return true;
        };
        let past = at.saturating_add(DRIVES as u64);
        if files.read_at(number, at, &mut unit).is_err()
            || files.read_at(number, past, &mut digest).is_err()
            || digest != digest_of(TABLE, address, &unit)
        {
            return true;
        }
    }
    false
}

// A first file of the state that is rotten is taken for missing where the second one isn't, and is as new: else it would be copied over
// that.
fn leave_rotten(files: &mut DiskFiles, layout: &Layout, found: &mut Conditions) {
    if !found.are_present() {
        return;
    }
    let (Ok(first), Ok(second)) = (read_count(files, TABLE), read_count(files, TABLE_SECOND)) else {
        return;
    };
    if first == second
        && is_rotten(files, layout, TABLE)
        && !is_rotten(files, layout, TABLE_SECOND)
    {
        found.first = Condition::Missing;
    }
}

// Finds both files of a pair, or one. A server makes one that is missing again, as long as the other is.
fn find_pair(
    rt: &HostRuntime,
    folder: Folder<'_>,
    files: &mut DiskFiles,
    layout: &Layout,
    table: &Table,
    pair: Pair,
    usage: Use,
) -> Result<Conditions, Trouble> {
    let one = put_there(rt, folder, files, pair, Twin::First, usage)?;
    let two = put_there(rt, folder, files, pair, Twin::Second, usage)?;
    let mut found = Conditions {
        first: condition_of(files, layout, pair.number(Twin::First), table, &one)?,
        second: condition_of(files, layout, pair.number(Twin::Second), table, &two)?,
    };
    if pair == Pair::State {
        leave_rotten(files, layout, &mut found);
    }
    if found.first != Condition::Present && found.second != Condition::Present {
        return Err(match one {
            Err(error) => unread(error, pair.name(Twin::First)),
            Ok(_) => pair.refusal(),
        });
    }
    let length = one.unwrap_or(0).max(two.unwrap_or(0));
    for twin in [Twin::First, Twin::Second] {
        let number = pair.number(twin);
        if found.of(twin) != Condition::Present {
            files.leave_out(number);
        }
        if found.of(twin) == Condition::Missing && usage == Use::Serves {
            let header = header_of(layout, number, table.identity);
            make_again(rt, folder, files, &header, pair.name(twin), length)?;
        }
    }
    compare(files, pair, &mut found, usage);
    Ok(found)
}

// The number of a file of a pair that is there and as new.
fn current(pair: Pair, found: &Conditions) -> u8 {
    if found.first == Condition::Present {
        pair.number(Twin::First)
    } else {
        pair.number(Twin::Second)
    }
}

// The number that a generation's bytes are: each is the difference of a digit of base 256 to the digit above it, the lowest first.
fn generation_of(bytes: &[u8; 8]) -> u64 {
    let mut digit = 0u8;
    let mut number = 0u64;
    for byte in bytes.iter().rev() {
        digit = digit.wrapping_add(*byte);
        number = number.wrapping_mul(256).wrapping_add(u64::from(digit));
    }
    number
}

// Whether a journal with batches was begun before the state was raised last but one. One that was begun before the last time is there
// where a stop came between that and the journal's end; its units are written then, and may be written again.
fn is_older(files: &mut DiskFiles, journal: u8, state: &[u8; 8]) -> Result<bool, FileFault> {
    let mut begun = [0u8; 8];
    files.read_at(journal, OF_JOURNAL, &mut begun)?;
    let mut batch = [0u8; 1];
    files.read_at(journal, HEADER, &mut batch)?;
    // A file of before the journal had a generation has zeros.
    let is_known = begun != [0; 8] && batch != [0];
    Ok(is_known && generation_of(&begun).saturating_add(1) < generation_of(state))
}

// Refuses a journal that was set back, in both files: its units would be written over newer ones.
fn test_journal(files: &mut DiskFiles, pairs: &Pairs) -> Result<(), Trouble> {
    let mut state = [0u8; 8];
    let read = files.read_at(current(Pair::State, &pairs.state), OF_STATE, &mut state);
    if read.is_err() {
        return Err(Trouble::NoState);
    }
    files.set_generation(state);
    match is_older(files, current(Pair::Journal, &pairs.journal), &state) {
        Ok(false) => Ok(()),
        Ok(true) => Err(Trouble::OlderJournal),
        Err(_) => Err(Trouble::NoJournal),
    }
}

// Takes the two files with the journal's numbers as one, of which the newer one is copied over the other.
fn join<F: Files + Drop>(
    files: F,
    pair: Pair,
    found: &mut Conditions,
) -> Result<TwinFiles<F>, Trouble> {
    match TwinFiles::open(files) {
        Ok(twins) => {
            found.note_failed(twins.held());
            Ok(twins)
        }
        Err(_) => Err(pair.refusal()),
    }
}

/// Takes both pairs as one file each.
pub(crate) fn join_pairs(files: DiskFiles, pairs: &mut Pairs) -> Result<PairFiles, Trouble> {
    let files = join(files, Pair::Journal, &mut pairs.journal)?;
    let files = join(JournalFiles::of(files), Pair::State, &mut pairs.state)?;
    Ok(PairFiles::of(files))
}

/// Opens the files of both pairs.
pub(crate) fn open_pairs(
    rt: &HostRuntime,
    folder: Folder<'_>,
    files: DiskFiles,
    layout: &Layout,
    table: &Table,
    usage: Use,
) -> Result<(PairFiles, Pairs), Trouble> {
    let mut files = files;
    let mut pairs = Pairs {
        state: find_pair(rt, folder, &mut files, layout, table, Pair::State, usage)?,
        journal: find_pair(rt, folder, &mut files, layout, table, Pair::Journal, usage)?,
    };
    test_journal(&mut files, &pairs)?;
    let found = pairs;
    let files = join_pairs(files, &mut pairs)?;
    // Of a disk that is only looked at nothing is written, and no file fails by that.
    Ok((files, if usage == Use::Looks { found } else { pairs }))
}
