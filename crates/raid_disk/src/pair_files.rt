//! A disk's files, of which those that lie in two files are taken as one.
use crate::disk_files::DiskFiles;
use file_vault::{FileFault, Files, Renumbered, TwinFiles};

/// A disk's files, of which the journal's two are one, as a type with a name of its own: each level of a type that is spelled out takes a
/// function over it four times as long to check. Of a process's files no contract says what they keep, so its clauses say nothing.
#[derive(Drop)]
pub(crate) struct JournalFiles {
    files: Renumbered<TwinFiles<DiskFiles>>,
}

impl JournalFiles {
    /// These files, under the numbers by which the state's two files are the journal's.
    pub(crate) fn of(files: TwinFiles<DiskFiles>) -> JournalFiles {
        JournalFiles {
            files: Renumbered::new(files),
        }
    }
}

/// A disk's files, of which the journal's two are one, and the state's two as well.
#[derive(Drop)]
pub(crate) struct PairFiles {
    files: Renumbered<TwinFiles<JournalFiles>>,
}

impl PairFiles {
    /// These files, under their own numbers again.
    pub(crate) fn of(files: TwinFiles<JournalFiles>) -> PairFiles {
        PairFiles {
            files: Renumbered::new(files),
        }
    }
}

impl Files for JournalFiles {
    ghost known = { λ _. ⊥ };

    ghost seen = { λ _ file at. 0 };

    ghost may_leave = { λ _ stop g. ⊥ };

    ghost moment = { λ _. 0 };

    ghost left_since = { λ _ stop t g. ⊥ };

    ghost faults = { λ _. 0 };

    ghost counts_now = { λ _ known stop t g le now. now };

    ghost only_now = { λ _ known stop g left. left };

    fn write_at(&mut self, file: u8, at: u64, bytes: &[u8]) -> Result<(), FileFault> {
        write_at(&mut self.files, file, at, bytes)
    }

    fn cut(&mut self, file: u8, at: u64) -> Result<(), FileFault> {
        cut(&mut self.files, file, at)
    }

    fn sync(&mut self, file: u8) -> Result<(), FileFault> {
        sync(&mut self.files, file)
    }

    fn read_at(&mut self, file: u8, at: u64, out: &mut [u8]) -> Result<(), FileFault> {
        read_at(&mut self.files, file, at, out)
    }

    fn length(&mut self, file: u8) -> Result<u64, FileFault> {
        length(&mut self.files, file)
    }
}

impl Files for PairFiles {
    ghost known = { λ _. ⊥ };

    ghost seen = { λ _ file at. 0 };

    ghost may_leave = { λ _ stop g. ⊥ };

    ghost moment = { λ _. 0 };

    ghost left_since = { λ _ stop t g. ⊥ };

    ghost faults = { λ _. 0 };

    ghost counts_now = { λ _ known stop t g le now. now };

    ghost only_now = { λ _ known stop g left. left };

    fn write_at(&mut self, file: u8, at: u64, bytes: &[u8]) -> Result<(), FileFault> {
        write_at(&mut self.files, file, at, bytes)
    }

    fn cut(&mut self, file: u8, at: u64) -> Result<(), FileFault> {
        cut(&mut self.files, file, at)
    }

    fn sync(&mut self, file: u8) -> Result<(), FileFault> {
        sync(&mut self.files, file)
    }

    fn read_at(&mut self, file: u8, at: u64, out: &mut [u8]) -> Result<(), FileFault> {
        read_at(&mut self.files, file, at, out)
    }

    fn length(&mut self, file: u8) -> Result<u64, FileFault> {
        length(&mut self.files, file)
    }
}

// Calls of any files, without their contracts.

fn write_at<F: Files>(files: &mut F, file: u8, at: u64, bytes: &[u8]) -> Result<(), FileFault> {
    files.write_at(file, at, bytes)
}

fn cut<F: Files>(files: &mut F, file: u8, at: u64) -> Result<(), FileFault> {
    files.cut(file, at)
}

fn sync<F: Files>(files: &mut F, file: u8) -> Result<(), FileFault> {
    files.sync(file)
}

fn read_at<F: Files>(files: &mut F, file: u8, at: u64, out: &mut [u8]) -> Result<(), FileFault> {
    files.read_at(file, at, out)
}

fn length<F: Files>(files: &mut F, file: u8) -> Result<u64, FileFault> {
    files.length(file)
}
