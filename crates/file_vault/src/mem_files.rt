// Files in memory that keep their calls. A stop leaves all that the contract of files lets it leave.
ghost use Rattle.std.specs.Prelude.{◌≡◌, ◌<◌, ◌≤◌, ◌+◌, ◌^◌, ◌++◌, [], ◌∷◌, ℕ, ⊤, length, slice_get, OnOk, OnErr, IfSome};
ghost use Rattle.file_vault.specs.Folders.{Reads};
ghost use Rattle.file_vault.specs.Calls.{folder_of, length_of, seen_from, seen_after, leaves_at, LeftSince, left_now, only_left};

use crate::files::{FileFault, Files};
use std::alloc::{AllocError, Global};
use vault::Stop;

/// The highest offset of a byte, and the most bytes of one call.
const LIMIT: u64 = 1 << 62;

/// A call that was made.
#[derive(Drop)]
enum FileCall {
    Write(u8, u64, Vec<u8>),
    /// A write that failed.
    TornWrite(u8, u64, Vec<u8>),
    Cut(u8, u64),
    /// A cut that failed.
    TornCut(u8, u64),
    Sync(u8),
}

/// Files in memory, for tests. Each call may be made to fail.
#[derive(Drop)]
pub struct MemFiles {
    alloc: Global,
    first: Vec<Vec<u8>>,
    calls: Vec<FileCall>,
    faults: u32,
    fuse: Fuse,
}

impl MemFiles {
    /// Files that hold these bytes.
    pub fn new(alloc: Global, first: Vec<Vec<u8>>) -> MemFiles {
        MemFiles {
            alloc,
            first,
            calls: Vec::new(alloc),
            faults: 0,
            fuse: Fuse {
                alive: u32::MAX,
                weak: 0,
                weak_alive: u32::MAX,
            },
        }
    }

    /// Makes all calls fail after so many more.
    pub fn fail_after(&mut self, calls: u32) {
        self.fuse.alive = calls;
    }

    /// Makes the calls of one file fail after so many more of it.
    pub fn fail_file_after(&mut self, file: u8, calls: u32) {
        self.fuse.weak = file;
        self.fuse.weak_alive = calls;
    }

    /// Makes a file what it was at first in others.
    pub fn take_file(&mut self, file: u8, others: &MemFiles) -> Result<(), AllocError> {
        let file = file as usize;
        if file < self.first.len() && file < others.first.len() {
            let bytes = others.first[file].to_vec(self.alloc)?;
            self.first[file] = bytes;
        }
        Ok(())
    }

    /// How many calls were made.
    pub fn count(&self) -> usize {
        self.calls.len()
    }

    /// Files as a stop leaves them; `choice` picks one of the ways.
    pub fn left(&self, stop: Stop, choice: u64) -> Result<MemFiles, AllocError> {
        let mut held = Vec::new(self.alloc);
        for bytes in &self.first {
            held.push(bytes.to_vec(self.alloc)?)?;
        }
        let mut random = choice;
        for index in 0..self.calls.len() {
            let whole = stop == Stop::Killed || is_synced(&self.calls[index..]);
            replay(&mut held, &self.calls[index], whole, &mut random)?;
        }
        Ok(MemFiles::new(self.alloc, held))
    }
}

/// How many calls succeed before all of them fail, and the same for the calls of one file.
#[derive(Drop)]
struct Fuse {
    alive: u32,
    weak: u8,
    weak_alive: u32,
}

impl Fuse {
    // Whether this call fails; it counts.
    fn is_blown(&mut self, file: u8) -> bool {
        if self.alive == 0 || (file == self.weak && self.weak_alive == 0) {
            return true;
        }
        self.alive -= 1;
        if file == self.weak {
            self.weak_alive -= 1;
        }
        false
    }
}

// One failure more.
pub(crate) fn one_more(faults: u32) -> u32
    ensures later { faults ≤ result }
    ensures some { 0 < result }
{
    faults.saturating_add(1)
}

// Keeps a call.
fn keep(calls: &mut Vec<FileCall>, call: FileCall) -> Result<(), AllocError>
    ensures ok { OnOk result (calls.new.items ≡ calls.old.items ++ call ∷ []) }
    ensures err { OnErr result (calls.new.items ≡ calls.old.items) }
{
    calls.push(call)?;
    Ok(())
}

// The byte that the files held at first.
fn first_byte(first: &[Vec<u8>], file: u8, at: u64) -> u8
    ensures { result ≡ folder_of first.now file at }
{
    match first.get(file as usize) {
        Some(bytes) => match bytes.get(at as usize) {
            Some(byte) => *byte,
            None => 0,
        },
        None => 0,
    }
}

// A byte after these calls.
fn byte_at(first: &[Vec<u8>], calls: &[FileCall], file: u8, at: u64) -> u8
    ensures { result ≡ seen_from (folder_of first.now) calls.now file at }
{
    let mut byte = first_byte(first, file, at);
    for call in calls {
        byte = byte_after(call, file, at, byte);
    }
    byte
}

// A byte after one call more.
fn byte_after(call: &FileCall, file: u8, at: u64, byte: u8) -> u8
    ensures { (f : ℕ → ℕ → ℕ) → byte ≡ f file at → result ≡ seen_after call.now f file at }
{
    match call {
        FileCall::Write(to, from, bytes) => {
            if *to != file || at < *from {
                return byte;
            }
            match bytes.get((at - *from) as usize) {
                Some(written) => *written,
                None => byte,
            }
        }
        FileCall::Cut(to, from) => {
            if *to != file || at < *from {
                return byte;
            }
            0
        }
        _ => byte,
    }
}

// Reads bytes after these calls.
fn read(first: &[Vec<u8>], calls: &[FileCall], file: u8, at: u64, out: &mut [u8])
    requires { at + length out.old < 2 ^ 64 }
    ensures { Reads (seen_from (folder_of first.now) calls.now file) at out.new }
{
    for index in 0..out.len() {
        out[index] = byte_at(first, calls, file, at + index as u64);
    }
}

// Bytes that a file had at first.
fn first_length(first: &[Vec<u8>], file: u8) -> u64
    ensures { result ≡ length_of (slice_get first.now file) }
{
    match first.get(file as usize) {
        Some(bytes) => bytes.len() as u64,
        None => 0,
    }
}

// Where a file ends after one call more; none past what a number holds.
fn end_after(call: &FileCall, file: u8, end: u64) -> Option<u64>
    ensures { (f : ℕ → ℕ → ℕ) → ((k : ℕ) → end ≤ k → f file k ≡ 0) → IfSome result (λ end. (k : ℕ) → end ≤ k → seen_after call.now f file k ≡ 0) }
{
    match call {
        FileCall::Write(to, from, bytes) => {
            if *to != file {
                return Some(end);
            }
            let past = from.checked_add(bytes.len() as u64)?;
            Some(end.max(past))
        }
        FileCall::TornWrite(_, _, _) => Some(end),
        FileCall::Cut(_, _) => Some(end),
        FileCall::TornCut(_, _) => Some(end),
        FileCall::Sync(_) => Some(end),
    }
}

// Where a file ends after these calls.
fn end_of(first: &[Vec<u8>], calls: &[FileCall], file: u8) -> Option<u64>
    ensures { IfSome result (λ end. (k : ℕ) → end ≤ k → seen_from (folder_of first.now) calls.now file k ≡ 0) }
{
    let mut end = first_length(first, file);
    for call in calls {
        end = end_after(call, file, end)?;
    }
    Some(end)
}

impl Files for MemFiles {
    ghost known = { λ m. ⊤ };

    ghost seen = { λ m. seen_from (folder_of m.first.items) m.calls.items };

    ghost may_leave = { λ m stop g. leaves_at stop (folder_of m.first.items) m.calls.items g };

    ghost moment = { λ m. length m.calls.items };

    ghost left_since = { λ m stop t g. LeftSince stop (folder_of m.first.items) m.calls.items t g };

    ghost faults = { λ m. m.faults };

    ghost counts_now = { λ m known stop t g le now. left_now stop (folder_of m.first.items) m.calls.items t g le now };

    ghost only_now = { λ m known stop g left. only_left stop (folder_of m.first.items) m.calls.items g left };

    fn write_at(&mut self, file: u8, at: u64, bytes: &[u8]) -> Result<(), FileFault> {
        let Ok(copy) = bytes.to_vec(self.alloc) else {
            self.faults = one_more(self.faults);
            return Err(FileFault);
        };
        if self.fuse.is_blown(file) {
            self.faults = one_more(self.faults);
            let _ = keep(&mut self.calls, FileCall::TornWrite(file, at, copy));
            return Err(FileFault);
        }
        if keep(&mut self.calls, FileCall::Write(file, at, copy)).is_err() {
            self.faults = one_more(self.faults);
            return Err(FileFault);
        }
        Ok(())
    }

    fn cut(&mut self, file: u8, at: u64) -> Result<(), FileFault> {
        if self.fuse.is_blown(file) {
            self.faults = one_more(self.faults);
            let _ = keep(&mut self.calls, FileCall::TornCut(file, at));
            return Err(FileFault);
        }
        if keep(&mut self.calls, FileCall::Cut(file, at)).is_err() {
            self.faults = one_more(self.faults);
            return Err(FileFault);
        }
        Ok(())
    }

    fn sync(&mut self, file: u8) -> Result<(), FileFault> {
        if self.fuse.is_blown(file) || keep(&mut self.calls, FileCall::Sync(file)).is_err() {
            self.faults = one_more(self.faults);
            return Err(FileFault);
        }
        Ok(())
    }

    fn read_at(&mut self, file: u8, at: u64, out: &mut [u8]) -> Result<(), FileFault> {
        if at > LIMIT || out.len() as u64 > LIMIT || self.fuse.is_blown(file) {
            self.faults = one_more(self.faults);
            return Err(FileFault);
        }
        read(&self.first, &self.calls, file, at, out);
        Ok(())
    }

    fn length(&mut self, file: u8) -> Result<u64, FileFault> {
        if !self.fuse.is_blown(file) {
            if let Some(end) = end_of(&self.first, &self.calls, file) {
                return Ok(end);
            }
        }
        self.faults = one_more(self.faults);
        Err(FileFault)
    }
}

// Whether the file of the first of these calls is synced by a later one.
fn is_synced(calls: &[FileCall]) -> bool {
    let file = match calls.first() {
        Some(FileCall::Write(file, _, _)) => *file,
        Some(FileCall::Cut(file, _)) => *file,
        _ => return false,
    };
    for call in calls {
        if let FileCall::Sync(synced) = call {
            if *synced == file {
                return true;
            }
        }
    }
    false
}

// Makes a call again, whole or in part.
fn replay(
    held: &mut Vec<Vec<u8>>,
    call: &FileCall,
    whole: bool,
    random: &mut u64,
) -> Result<(), AllocError> {
    match call {
        FileCall::Write(file, at, bytes) => put_some(held, *file, *at, bytes, whole, random),
        FileCall::TornWrite(file, at, bytes) => put_some(held, *file, *at, bytes, false, random),
        FileCall::Cut(file, at) => {
            cut_some(held, *file, *at, whole, random);
            Ok(())
        }
        FileCall::TornCut(file, at) => {
            cut_some(held, *file, *at, false, random);
            Ok(())
        }
        FileCall::Sync(_) => Ok(()),
    }
}

// Makes the bytes from an offset on zeros, all or some of them.
fn cut_some(held: &mut Vec<Vec<u8>>, file: u8, at: u64, whole: bool, random: &mut u64) {
    let file = file as usize;
    if file >= held.len() {
        return;
    }
    let from = at as usize;
    let how = if whole { 1 } else { roll(random) % 4 };
    let past = from.saturating_add(roll(random) as usize % (held[file].len() + 1));
    cut_bytes(&mut held[file], from, how, past, random);
}

// Makes the bytes from an offset on zeros: none of them (`how` 0), all (1), those past another (2), or those that a coin chooses (3).
fn cut_bytes(held: &mut [u8], from: usize, how: u64, past: usize, random: &mut u64) {
    for spot in from..held.len() {
        if takes_effect(how, spot >= past, random) {
            held[spot] = 0;
        }
    }
}

// Writes bytes, all or some of them.
fn put_some(
    held: &mut Vec<Vec<u8>>,
    file: u8,
    at: u64,
    bytes: &[u8],
    whole: bool,
    random: &mut u64,
) -> Result<(), AllocError> {
    let file = file as usize;
    if file >= held.len() {
        return Ok(());
    }
    let from = at as usize;
    let end = from.saturating_add(bytes.len());
    if held[file].len() < end {
        held[file].resize(end, 0)?;
    }
    let how = if whole { 1 } else { roll(random) % 4 };
    let cut = roll(random) as usize % (bytes.len() + 1);
    put_bytes(&mut held[file], from, bytes, how, cut, random);
    Ok(())
}

// Writes none of the bytes (`how` 0), all (1), those before a cut (2), or those that a coin chooses (3).
fn put_bytes(held: &mut [u8], from: usize, bytes: &[u8], how: u64, cut: usize, random: &mut u64) {
    for index in 0..bytes.len() {
        let kept = takes_effect(how, index < cut, random);
        let spot = from.saturating_add(index);
        if kept && spot < held.len() {
            held[spot] = bytes[index];
        }
    }
}

// Whether a call takes effect on a byte: never (`how` 0), always (1), inside a range (2), or as a coin says (3).
fn takes_effect(how: u64, inside: bool, random: &mut u64) -> bool {
    match how {
        0 => false,
        1 => true,
        2 => inside,
        _ => roll(random) % 2 == 0,
    }
}

// The next of a row of numbers without order.
fn roll(random: &mut u64) -> u64 {
    *random = random
        .wrapping_mul(6364136223846793005)
        .wrapping_add(1442695040888963407);
    *random >> 33
}
