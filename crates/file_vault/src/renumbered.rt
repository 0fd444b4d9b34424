// Files under other numbers, so that a file which isn't the journal may lie in two files as well: see `PairedFiles`.
ghost use Rattle.std.specs.Prelude.{◌≡◌};
ghost use Rattle.file_vault.specs.Renumbering.{exchanged, renumbered};

use crate::files::{FileFault, Files};
use crate::layout::JOURNAL;
use crate::twin::SECOND;
use crate::twin_files::TwinFiles;
use vault::TABLE;

/// The number of the table's second file, where it lies in two.
pub const TABLE_SECOND: u8 = SECOND + 1;

/// Files whose table lies in two of them, 16 and 19, and whose journal lies in two, 17 and 18.
pub type PairedFiles<F> = Renumbered<TwinFiles<Renumbered<TwinFiles<F>>>>;

/// Files whose numbers 16 and 17 are exchanged, and 18 and 19: the table has the journal's number, and the journal the table's.
#[derive(Drop)]
pub struct Renumbered<F: Files + Drop> {
    files: F,
}

impl<F: Files + Drop> Renumbered<F> {
    /// These files, renumbered.
    pub fn new(files: F) -> Renumbered<F>
        ensures { result.files ≡ files }
    {
        Renumbered { files }
    }

    /// The files under their own numbers.
    pub fn into_files(self) -> F
        ensures { result ≡ self.files }
    {
        self.files
    }
}

// The number with which a number is exchanged.
fn exchanged(file: u8) -> u8
    ensures { result ≡ exchanged file }
{
    match file {
        TABLE => JOURNAL,
        JOURNAL => TABLE,
        SECOND => TABLE_SECOND,
        TABLE_SECOND => SECOND,
        other => other,
    }
}

impl<F: Files + Drop> Files for Renumbered<F> {
    ghost known = { λ r. F.Files.known r.files };

    ghost seen = { λ r. renumbered (F.Files.seen r.files) };

    ghost may_leave = { λ r stop g. F.Files.may_leave r.files stop (renumbered g) };

    ghost moment = { λ r. F.Files.moment r.files };

    ghost left_since = { λ r stop t g. F.Files.left_since r.files stop t (renumbered g) };

    ghost faults = { λ r. F.Files.faults r.files };

    ghost counts_now = { λ r known stop t g le now. F.Files.counts_now r.files known stop t (renumbered g) le now };

    ghost only_now = { λ r known stop g left. F.Files.only_now r.files known stop (renumbered g) left };

    fn write_at(&mut self, file: u8, at: u64, bytes: &[u8]) -> Result<(), FileFault> {
        self.files.write_at(exchanged(file), at, bytes)
    }

    fn cut(&mut self, file: u8, at: u64) -> Result<(), FileFault> {
        self.files.cut(exchanged(file), at)
    }

    fn sync(&mut self, file: u8) -> Result<(), FileFault> {
        self.files.sync(exchanged(file))
    }

    fn read_at(&mut self, file: u8, at: u64, out: &mut [u8]) -> Result<(), FileFault> {
        self.files.read_at(exchanged(file), at, out)
    }

    fn length(&mut self, file: u8) -> Result<u64, FileFault> {
        self.files.length(exchanged(file))
    }
}
