// Files of the system. What has to be read and believed, since no contract says what a real file holds:
// - A write is one `pwrite`. What it left out, as on a full disk, makes it fail.
// - `cut` is one `ftruncate`. A stop leaves of it that each byte from there on is as it was, or 0, also where it made the file longer.
// - `sync` is `fdatasync`, which makes the file's length durable too. After a failed write, cut or sync of a file each later one
//   fails, since a later `fdatasync` may return without an error although bytes of before were dropped.
// - A read past the end of a file gives zeros. `length` is where it ends.
// - A killed process leaves what `pwrite` took, and a loss of power leaves what `fdatasync` returned for. A byte is written whole.
ghost use Rattle.std.specs.Prelude.{◌<◌, IfOk, length};

use crate::files::{FileFault, Files};
use std::alloc::{AllocError, Global};
use std::fs::File;
use std::os::unix::fs::FileExt;

/// A file, and whether a write, a cut or a sync of it failed.
#[derive(Drop)]
struct Held {
    number: u8,
    file: File,
    failed: bool,
}

/// Files of the system by number, open for reading and writing, and not for appending.
#[derive(Drop)]
pub struct RealFiles {
    held: Vec<Held>,
}

impl RealFiles {
    /// No files.
    pub fn new(alloc: Global) -> RealFiles {
        RealFiles {
            held: Vec::new(alloc),
        }
    }

    /// Adds the file of a number. Refused if out of memory.
    pub fn put(&mut self, number: u8, file: File) -> Result<(), AllocError> {
        let held = Held {
            number,
            file,
            failed: false,
        };
        self.held.push(held)?;
        Ok(())
    }

    /// Leaves out the file of a number: calls of it fail.
    pub fn leave_out(&mut self, number: u8) {
        if let Ok(spot) = self.spot(number) {
            self.held.swap_remove(spot);
        }
    }

    // Where the file of a number lies.
    fn spot(&self, number: u8) -> Result<usize, FileFault>
        ensures { IfOk result (λ spot. spot < length self.now.held.items) }
    {
        for index in 0..self.held.len() {
            if self.held[index].number == number {
                return Ok(index);
            }
        }
        Err(FileFault)
    }
}

// Writes bytes by one write; false if not all were written.
fn is_written(file: &File, at: u64, bytes: &[u8]) -> bool {
    match file.write_at(bytes, at) {
        Ok(count) => count == bytes.len(),
        Err(_) => false,
    }
}

// Reads bytes, zeros past the end of the file; false where a read fails.
fn is_read(file: &File, at: u64, out: &mut [u8]) -> bool {
    let mut done = 0;
    while done < out.len() {
        match file.read_at(&mut out[done..], at.saturating_add(done as u64)) {
            Ok(0) => {
                out[done..].fill(0);
                return true;
            }
            Ok(count) => done += count,
            Err(_) => return false,
        }
    }
    true
}

impl Files for RealFiles {
    ghost known = { λ r. ⊥ };

    ghost seen = { λ r file at. 0 };

    ghost may_leave = { λ r stop g. ⊥ };

    ghost moment = { λ r. 0 };

    ghost left_since = { λ r stop t g. ⊥ };

    ghost faults = { λ r. 0 };

    ghost counts_now = { λ r known stop t g le now. now };

    ghost only_now = { λ r known stop g left. left };

    fn write_at(&mut self, file: u8, at: u64, bytes: &[u8]) -> Result<(), FileFault> {
        let spot = self.spot(file)?;
        if self.held[spot].failed || !is_written(&self.held[spot].file, at, bytes) {
            self.held[spot].failed = true;
            return Err(FileFault);
        }
        Ok(())
    }

    fn cut(&mut self, file: u8, at: u64) -> Result<(), FileFault> {
        let spot = self.spot(file)?;
        if self.held[spot].failed || self.held[spot].file.set_len(at).is_err() {
            self.held[spot].failed = true;
            return Err(FileFault);
        }
        Ok(())
    }

    fn sync(&mut self, file: u8) -> Result<(), FileFault> {
        let spot = self.spot(file)?;
        if self.held[spot].failed || self.held[spot].file.sync_data().is_err() {
            self.held[spot].failed = true;
            return Err(FileFault);
        }
        Ok(())
    }

    fn read_at(&mut self, file: u8, at: u64, out: &mut [u8]) -> Result<(), FileFault> {
        let spot = self.spot(file)?;
        if is_read(&self.held[spot].file, at, out) {
            Ok(())
        } else {
            Err(FileFault)
        }
    }

    fn length(&mut self, file: u8) -> Result<u64, FileFault> {
        let spot = self.spot(file)?;
        match self.held[spot].file.metadata() {
            Ok(data) => Ok(data.len()),
            Err(_) => Err(FileFault),
        }
    }
}
