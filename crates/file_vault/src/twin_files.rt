// Files whose journal lies in two of them, so that one may be lost at any moment.
ghost use Rattle.std.specs.Prelude.{◌+◌, ◌≡◌, OnOk, IfOk, IsOk, MatchResult};
ghost use Rattle.vault.specs.declared.store.Stop.{Stop};
ghost use Rattle.file_vault.specs.Folders.{HasFault};
ghost use Rattle.file_vault.specs.Twins.{seen_as, lead_of, shown, IsHeld, IsAvailable, IsBoth, IsRaised, newer_of, IsNotNewer, IsFoundIn, ShownElapses};

use crate::files::{FileFault, Files};
use crate::held::{Held, cut_both, read_both, sync_both, write_both};
use crate::joined::{Found, join};
use crate::layout::{HEADER, JOURNAL};
use crate::mem_files::one_more;
use crate::twin::SECOND;

/// Files whose journal lies in two of them. The first block of the journal is that of each file alone: calls begin after it.
#[derive(Drop)]
pub struct TwinFiles<F: Files + Drop> {
    pub(crate) files: F,
    pub(crate) held: Held,
    pub(crate) found: Found,
    // Calls that were refused.
    pub(crate) faults: u32,
}

impl<F: Files + Drop> TwinFiles<F> {
    ghost use Rattle.file_vault.specs.Twins.{seen_as, lead_of, shown, IsHeld, IsBoth, IsRaised, newer_of, IsNotNewer, IsFoundIn, ShownElapses};

    /// Files that a stop may have left. A file of the journal that can't be read or synced is left out, and can't be taken for the
    /// other's equal later. An error says which could be read, and hands the files back.
    pub fn open(files: F) -> Result<TwinFiles<F>, (Found, F)>
        ensures known { F.known files → IfOk result (λ t. IsNotNewer F.may_leave files t.found → F.known t.files × IsHeld F.seen F.may_leave t.files t.held) }

        // What the files show that count is found; where both are left, what the newer one shows.
        ensures seen { F.known files → IfOk result (λ t. IsFoundIn t.found (F.seen files) (seen_as (lead_of t.held) (F.seen t.files))) }
        ensures newest { F.known files → IfOk result (λ t. IsBoth t.held
            → seen_as (lead_of t.held) (F.seen t.files) ≡ seen_as (newer_of (F.seen files)) (F.seen files)) }

        // A file of before that comes back isn't as new.
        ensures raised { F.known files → IfOk result (λ t. IsRaised (F.seen files) t.held) }

        // A stop at any moment of it leaves what it left before.
        ensures time { F.known files
            → MatchResult result (λ t. IsNotNewer F.may_leave files t.found
            → (stop : Stop) → ShownElapses F.moment F.left_since F.may_leave files t.files stop (λ h. shown (F.may_leave files stop) h))
            (λ e. IsNotNewer F.may_leave files e.0
            → (stop : Stop) → ShownElapses F.moment F.left_since F.may_leave files e.1 stop (λ h. shown (F.may_leave files stop) h)) }
    {
        let mut files = files;
        let (found, held) = join(&mut files);
        match held {
            Held::Neither => Err((found, files)),
            _ => Ok(TwinFiles {
                files,
                held,
                found,
                faults: 0,
            }),
        }
    }

    /// Which files of the journal could be read when they were opened.
    pub fn found(&self) -> Found
        ensures { result ≡ self.now.found }
    {
        self.found
    }

    /// Which files of the journal are written and read.
    pub fn held(&self) -> Held
        ensures { result ≡ self.now.held }
    {
        self.held
    }

    /// The files.
    pub fn into_files(self) -> F
        ensures { result ≡ self.files }
    {
        self.files
    }
}

// What a call returns that was made of the files that are left.
fn outcome(held: Held, faults: &mut u32) -> Result<(), FileFault>
    ensures kept { OnOk result (IsAvailable held) }
    ensures ok { IsAvailable held → IsOk result }
    ensures cause { HasFault faults.old faults.new result }
{
    match held {
        Held::Neither => {
            *faults = one_more(*faults);
            Err(FileFault)
        }
        _ => Ok(()),
    }
}

impl<F: Files + Drop> Files for TwinFiles<F> {
    ghost known = { λ t. F.Files.known t.files × IsHeld F.Files.seen F.Files.may_leave t.files t.held };

    ghost seen = { λ t. seen_as (lead_of t.held) (F.Files.seen t.files) };

    // What either copy shows that counts: so each stop may also lose one of two such copies.
    ghost may_leave = { λ t stop h. shown (F.Files.may_leave t.files stop) h };

    ghost moment = { λ t. F.Files.moment t.files };

    ghost left_since = { λ t stop time h. shown (F.Files.left_since t.files stop time) h };

    ghost faults = { λ t. F.Files.faults t.files + t.faults };

    ghost counts_now = { λ t known stop time h le now. (now.0, F.Files.counts_now t.files known.0 stop time now.0 le now.1, now.2) };

    ghost only_now = { λ t known stop h left. (left.0, F.Files.only_now t.files known.0 stop left.0 left.1, left.2) };

    fn write_at(&mut self, file: u8, at: u64, bytes: &[u8]) -> Result<(), FileFault> {
        if file == SECOND {
            self.faults = one_more(self.faults);
            return Err(FileFault);
        }
        if file != JOURNAL {
            return self.files.write_at(file, at, bytes);
        }
        if at < HEADER {
            self.faults = one_more(self.faults);
            return Err(FileFault);
        }
        match self.held {
            Held::Both(count) => {
                self.held = write_both(&mut self.files, count, at, bytes);
                outcome(self.held, &mut self.faults)
            }
            Held::Only(twin, _) => self.files.write_at(twin.number(), at, bytes),
            Held::Neither => outcome(self.held, &mut self.faults),
        }
    }

    fn cut(&mut self, file: u8, at: u64) -> Result<(), FileFault> {
        if file == SECOND {
            self.faults = one_more(self.faults);
            return Err(FileFault);
        }
        if file != JOURNAL {
            return self.files.cut(file, at);
        }
        if at < HEADER {
            self.faults = one_more(self.faults);
            return Err(FileFault);
        }
        match self.held {
            Held::Both(count) => {
                self.held = cut_both(&mut self.files, count, at);
                outcome(self.held, &mut self.faults)
            }
            Held::Only(twin, _) => self.files.cut(twin.number(), at),
            Held::Neither => outcome(self.held, &mut self.faults),
        }
    }

    fn sync(&mut self, file: u8) -> Result<(), FileFault> {
        if file == SECOND {
            return Ok(());
        }
        if file != JOURNAL {
            return self.files.sync(file);
        }
        match self.held {
            Held::Both(count) => {
                self.held = sync_both(&mut self.files, count);
                outcome(self.held, &mut self.faults)
            }
            Held::Only(twin, _) => self.files.sync(twin.number()),
            Held::Neither => outcome(self.held, &mut self.faults),
        }
    }

    fn read_at(&mut self, file: u8, at: u64, out: &mut [u8]) -> Result<(), FileFault> {
        if file == SECOND {
            self.faults = one_more(self.faults);
            return Err(FileFault);
        }
        if file != JOURNAL {
            return self.files.read_at(file, at, out);
        }
        if at < HEADER {
            self.faults = one_more(self.faults);
            return Err(FileFault);
        }
        match self.held {
            Held::Both(count) => {
                self.held = read_both(&mut self.files, count, at, out);
                outcome(self.held, &mut self.faults)
            }
            Held::Only(twin, _) => self.files.read_at(twin.number(), at, out),
            Held::Neither => outcome(self.held, &mut self.faults),
        }
    }

    fn length(&mut self, file: u8) -> Result<u64, FileFault> {
        if file == SECOND {
            return Ok(0);
        }
        if file != JOURNAL {
            return self.files.length(file);
        }
        match self.held {
            Held::Both(_) => self.files.length(JOURNAL),
            Held::Only(twin, _) => self.files.length(twin.number()),
            Held::Neither => self.files.length(JOURNAL),
        }
    }
}
