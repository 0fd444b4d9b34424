//! The files of a disk, by the numbers that a vault gives them.
ghost use Rattle.std.specs.Prelude.{◌≡◌, IfSome, length as the_length};

use extents::DRIVES;
use file_vault::{FileFault, Files, JOURNAL, RealFiles, SECOND, TABLE_FILE, TABLE_SECOND};
use std::alloc::{AllocError, Global};
use std::fs::File;
use vault::TABLE;

/// Bytes that are read at once while nothing is written.
const READ_AHEAD: usize = 65_536;

/// Where a file of the state has its generation, in eight bytes.
pub(crate) const OF_STATE: u64 = TABLE_FILE - 8;

/// Where a file of the journal has the generation of the state with which it was begun, as a drive's file has its own.
pub(crate) const OF_JOURNAL: u64 = 128;

/// Bytes of a file from an offset on.
#[derive(Drop)]
struct Piece {
    file: u8,
    at: u64,
    bytes: Vec<u8>,
}

impl Piece {
    // Bytes of a file, if the piece has them.
    fn part(&self, file: u8, at: u64, length: usize) -> Option<&[u8]>
        ensures { IfSome result (λ part. the_length part.now ≡ length) }
    {
        if self.file != file || at < self.at {
            return None;
        }
        let from = (at - self.at) as usize;
        if from > self.bytes.len() || length > self.bytes.len() - from {
            return None;
        }
        Some(&self.bytes[from..from + length])
    }

    // Reads the piece that begins at an offset; zeros past the end of the file. False if it can't be read: then it has no bytes.
    fn read(&mut self, files: &mut RealFiles, file: u8, at: u64) -> bool {
        if self.bytes.resize(READ_AHEAD, 0).is_err() {
            self.bytes.clear();
            return false;
        }
        self.file = file;
        self.at = at;
        if files.read_at(file, at, &mut self.bytes).is_err() {
            self.bytes.clear();
            return false;
        }
        true
    }
}

/// Files that are read and written; or only read, and then all that would be written is dropped.
#[derive(Drop)]
pub(crate) struct DiskFiles {
    files: RealFiles,
    /// Nothing is written.
    looks: bool,
    /// What was read of a drive's file, of which more may be asked next. Only where nothing is written: a server that compares its
    /// units reads each one anew.
    ahead: Piece,
    /// The state's generation, as its bytes; none where it isn't known yet.
    generation: Option<[u8; 8]>,
    /// What each file of the journal has of it, as far as that was written here.
    stamped: [Option<[u8; 8]>; 2],
}

impl DiskFiles {
    /// These files. If it looks, nothing is written.
    pub(crate) fn over(alloc: Global, files: RealFiles, looks: bool) -> DiskFiles {
        let ahead = Piece {
            file: 0,
            at: 0,
            bytes: Vec::new(alloc),
        };
        DiskFiles {
            files,
            looks,
            ahead,
            generation: None,
            stamped: [None; 2],
        }
    }

    /// Says which generation the state has.
    pub(crate) fn set_generation(&mut self, bytes: [u8; 8]) {
        self.generation = Some(bytes);
    }

    // Notes the generation that was written to the state.
    fn note_generation(&mut self, bytes: &[u8]) {
        let mut generation = [0u8; 8];
        if bytes.len() == generation.len() {
            generation.copy_from_slice(bytes);
            self.set_generation(generation);
        }
    }

    // Gives a file of the journal the state's generation, durably, unless it has it. Else a loss of power could leave a batch and not the
    // generation, and the batch would be taken for one of before.
    fn stamp(&mut self, file: u8) -> Result<(), FileFault> {
        let spot = if file == SECOND { 1 } else { 0 };
        let Some(generation) = self.generation else {
            return Ok(());
        };
        if self.stamped[spot] == Some(generation) {
            return Ok(());
        }
        self.files.write_at(file, OF_JOURNAL, &generation)?;
        self.files.sync(file)?;
        self.stamped[spot] = Some(generation);
        Ok(())
    }

    /// Whether nothing is written.
    pub(crate) fn looks(&self) -> bool {
        self.looks
    }

    /// Adds the file of a number. Refused if out of memory.
    pub(crate) fn put(&mut self, number: u8, file: File) -> Result<(), AllocError> {
        // Another file may have had the number.
        self.ahead.bytes.clear();
        self.files.put(number, file)
    }

    /// Leaves out the file of a number: calls of it fail.
    pub(crate) fn leave_out(&mut self, number: u8) {
        self.ahead.bytes.clear();
        self.files.leave_out(number);
    }
}

impl Files for DiskFiles {
    ghost known = { λ _. ⊥ };

    ghost seen = { λ _ file at. 0 };

    ghost may_leave = { λ _ stop g. ⊥ };

    ghost moment = { λ _. 0 };

    ghost left_since = { λ _ stop t g. ⊥ };

    ghost faults = { λ _. 0 };

    ghost counts_now = { λ _ known stop t g le now. now };

    ghost only_now = { λ _ known stop g left. left };

    fn write_at(&mut self, file: u8, at: u64, bytes: &[u8]) -> Result<(), FileFault> {
        if self.looks {
            return Ok(());
        }
        if file == JOURNAL || file == SECOND {
            self.stamp(file)?;
        }
        self.files.write_at(file, at, bytes)?;
        if at == OF_STATE && (file == TABLE || file == TABLE_SECOND) {
            self.note_generation(bytes);
        }
        Ok(())
    }

    fn cut(&mut self, file: u8, at: u64) -> Result<(), FileFault> {
        if self.looks {
            return Ok(());
        }
        self.files.cut(file, at)
    }

    fn sync(&mut self, file: u8) -> Result<(), FileFault> {
        if self.looks {
            return Ok(());
        }
        self.files.sync(file)
    }

    fn read_at(&mut self, file: u8, at: u64, out: &mut [u8]) -> Result<(), FileFault> {
        if self.looks && usize::from(file) < DRIVES && out.len() <= READ_AHEAD {
            if let Some(part) = self.ahead.part(file, at, out.len()) {
                out.copy_from_slice(part);
                return Ok(());
            }
            if self.ahead.read(&mut self.files, file, at) {
                if let Some(part) = self.ahead.part(file, at, out.len()) {
                    out.copy_from_slice(part);
                    return Ok(());
                }
            }
        }
        // Also where the piece can't be read: these bytes of it may be.
        self.files.read_at(file, at, out)
    }

    fn length(&mut self, file: u8) -> Result<u64, FileFault> {
        self.files.length(file)
    }
}
