// One of the two files of a journal, and its count: in the first block, at 72 where byte 64 is 0, else at 80. So the write of one
// byte makes it another.
ghost use Rattle.std.specs.Prelude.{◌≡◌, ◌≤◌, not, OnOk, IfOk};
ghost use Rattle.std.specs.Int.{w64, to_le_bytes};
ghost use Rattle.vault.specs.Moments.{Elapses};
ghost use Rattle.vault.specs.declared.store.Stop.{Stop};
ghost use Rattle.file_vault.specs.Folders.{HasFault, HasFile, Wrote, Mixed, mixed_at};
ghost use Rattle.file_vault.specs.Headers.{SameAfterHeader};
ghost use Rattle.file_vault.specs.Twins.{file_of, other, which_in, count_offset, mark_of, count_in, counted_at};

use crate::files::{FileFault, Files};
use crate::header::read_part;
use crate::layout::JOURNAL;

/// The number of the journal's second file, where it lies in two. No drive and no caller of such files has it.
pub const SECOND: u8 = JOURNAL + 1;

/// The byte that says where the count is.
const WHERE: u64 = 64;

/// A file of a journal that lies in two.
#[derive(Clone, Copy, Debug, PartialEq, Eq)]
pub enum Twin {
    /// The file with the journal's number.
    First,
    /// The one after it.
    Second,
}

impl Twin {
    /// The other one.
    pub fn other(self) -> Twin
        ensures { result ≡ other self }
    {
        match self {
            Twin::First => Twin::Second,
            Twin::Second => Twin::First,
        }
    }

    /// The number of its file.
    pub fn number(self) -> u8
        ensures { result ≡ file_of self }
    {
        match self {
            Twin::First => JOURNAL,
            Twin::Second => SECOND,
        }
    }
}

// Where a file's count may be.
fn place_of(second: bool) -> u64
    ensures { result ≡ count_offset second }
{
    if second { 80 } else { 72 }
}

// The byte that says so.
fn mark_of(second: bool) -> u8
    ensures { result ≡ mark_of second }
{
    if second { 1 } else { 0 }
}

// Reads in which of its places a file's count is.
fn read_which<F: Files>(files: &mut F, number: u8) -> Result<bool, FileFault>
    ensures stays { F.known files.old → F.known files.new }
    ensures which { F.known files.old → IfOk result (λ second. second ≡ which_in (F.seen files.old number)) }
    ensures seen { F.known files.old → F.seen files.new ≡ F.seen files.old }
    ensures time { F.known files.old
        → (stop : Stop) → Elapses (F.moment files.old) (F.moment files.new) (F.left_since files.old stop) (F.left_since files.new stop)
        (F.may_leave files.old stop) (F.may_leave files.new stop) }
    ensures cause { F.known files.old → HasFault (F.faults files.old) (F.faults files.new) result }
{
    let mut which = [0; 1];
    read_part(files, number, WHERE, &mut which)?;
    Ok(which[0] != 0)
}

/// Reads the count of a file of a journal that lies in two: how often it was opened, and three for each time that it went on alone.
#[tactic(auto, unfolding(vault::specs::Coding::number))]
pub fn read_count<F: Files>(files: &mut F, number: u8) -> Result<u64, FileFault>
    ensures stays { F.known files.old → F.known files.new }
    ensures count { F.known files.old → IfOk result (λ count. count ≡ count_in (F.seen files.old number)) }
    ensures seen { F.known files.old → F.seen files.new ≡ F.seen files.old }
    ensures time { F.known files.old
        → (stop : Stop) → Elapses (F.moment files.old) (F.moment files.new) (F.left_since files.old stop) (F.left_since files.new stop)
        (F.may_leave files.old stop) (F.may_leave files.new stop) }
    ensures cause { F.known files.old → HasFault (F.faults files.old) (F.faults files.new) result }
{
    let second = read_which(files, number)?;
    let mut word = [0; 8];
    read_part(files, number, place_of(second), &mut word)?;
    Ok(u64::from_le_bytes(word))
}

// Writes bytes, and makes the file durable.
fn put_durable<F: Files>(files: &mut F, number: u8, at: u64, bytes: &[u8]) -> Result<(), FileFault>
    ensures stays { F.known files.old → F.known files.new }
    ensures wrote { F.known files.old → OnOk result (Wrote number at bytes.now (F.seen files.old) (F.seen files.new)) }
    ensures mixed { F.known files.old → Mixed number at bytes.now (F.seen files.old) (F.seen files.new) }
    ensures durable { F.known files.old → OnOk result ((stop : Stop) → HasFile number (F.seen files.new) (F.may_leave files.new stop)) }
    ensures time { F.known files.old
        → (stop : Stop) → Elapses (F.moment files.old) (F.moment files.new) (F.left_since files.old stop) (F.left_since files.new stop)
        (mixed_at number at bytes.now (F.may_leave files.old stop)) (F.may_leave files.new stop) }
    ensures cause { F.known files.old → HasFault (F.faults files.old) (F.faults files.new) result }
{
    files.write_at(number, at, bytes)?;
    files.sync(number)
}

// Writes a number of eight bytes, and makes the file durable.
fn put_number<F: Files>(files: &mut F, number: u8, at: u64, value: u64) -> Result<(), FileFault>
    ensures stays { F.known files.old → F.known files.new }
    ensures wrote { F.known files.old → OnOk result (Wrote number at (to_le_bytes w64 value) (F.seen files.old) (F.seen files.new)) }
    ensures mixed { F.known files.old → Mixed number at (to_le_bytes w64 value) (F.seen files.old) (F.seen files.new) }
    ensures durable { F.known files.old → OnOk result ((stop : Stop) → HasFile number (F.seen files.new) (F.may_leave files.new stop)) }
    ensures time { F.known files.old
        → (stop : Stop) → Elapses (F.moment files.old) (F.moment files.new) (F.left_since files.old stop) (F.left_since files.new stop)
        (mixed_at number at (to_le_bytes w64 value) (F.may_leave files.old stop)) (F.may_leave files.new stop) }
    ensures cause { F.known files.old → HasFault (F.faults files.old) (F.faults files.new) result }
{
    put_durable(files, number, at, &value.to_le_bytes())
}

// Makes the count of a file another, and the file durable. A stop in it leaves either count.
pub(crate) fn put_count<F: Files>(files: &mut F, number: u8, count: u64) -> Result<(), FileFault>
    ensures stays { F.known files.old → F.known files.new }
    ensures following { F.known files.old → SameAfterHeader number (F.seen files.old) (F.seen files.new) }
    ensures count { F.known files.old → OnOk result (count_in (F.seen files.new number) ≡ count) }
    ensures durable { F.known files.old → OnOk result ((stop : Stop) → HasFile number (F.seen files.new) (F.may_leave files.new stop)) }
    ensures time { F.known files.old
        → (stop : Stop) → Elapses (F.moment files.old) (F.moment files.new) (F.left_since files.old stop) (F.left_since files.new stop)
        (counted_at number count (F.may_leave files.old stop)) (F.may_leave files.new stop) }
    ensures cause { F.known files.old → HasFault (F.faults files.old) (F.faults files.new) result }
{
    files.sync(number)?;
    let second = read_which(files, number)?;
    put_number(files, number, place_of(!second), count)?;
    put_durable(files, number, WHERE, &[mark_of(!second)])
}
