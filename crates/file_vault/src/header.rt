// The first block of each file: eight bytes of a mark, the disk's identity, the file's number, and how long its units are and how
// many, in four bytes each, the lowest first.
ghost use Rattle.std.specs.Prelude.{◌≡◌, ◌≢◌, ◌<◌, ◌^◌, length, OnOk, IfOk, IfSome, IfNone};
ghost use Rattle.std.specs.Int.{w32, to_le_bytes};
ghost use Rattle.vault.specs.Moments.{Elapses};
ghost use Rattle.vault.specs.declared.store.Stop.{Stop};
ghost use Rattle.file_vault.specs.Folders.{HasFault, HasFile, Mixed, Wrote, part};
ghost use Rattle.file_vault.specs.Headers.{HasFileHeader, SameAfterHeader, mark as the_mark, number_at};

use crate::files::{FileFault, Files};

/// Marks a file of a vault.
const MARK: [u8; 8] = *b"behkuna1";

/// What a file is.
#[derive(Clone, Copy, Debug, PartialEq, Eq)]
pub struct Header {
    /// The same for all files of a disk, and for no other disk.
    pub identity: [u8; 16],
    /// The number of the drive, or that of the table or the journal.
    pub number: u8,
    /// Bytes of a unit.
    pub unit_bytes: u32,
    /// Units of the file.
    pub count: u32,
}

/// Writes what a file is, and makes it durable. The mark is written last.
pub fn write_header<F: Files>(files: &mut F, header: &Header) -> Result<(), FileFault>
    ensures stays { F.known files.old → F.known files.new }
    ensures following { F.known files.old → SameAfterHeader header.now.number (F.seen files.old) (F.seen files.new) }
    ensures header { F.known files.old → OnOk result (HasFileHeader (F.seen files.new header.now.number) header.now) }
    ensures durable { F.known files.old → OnOk result ((stop : Stop) → HasFile header.now.number (F.seen files.new) (F.may_leave files.new stop)) }
{
    let number = header.number;
    write_identity(files, number, &header.identity)?;
    files.write_at(number, 24, &[number])?;
    write_number(files, number, 25, header.unit_bytes)?;
    write_number(files, number, 29, header.count)?;
    files.sync(number)?;
    files.write_at(number, 0, &MARK)?;
    files.sync(number)
}

// Writes the disk's identity.
fn write_identity<F: Files>(files: &mut F, number: u8, identity: &[u8; 16]) -> Result<(), FileFault>
    ensures stays { F.known files.old → F.known files.new }
    ensures wrote { F.known files.old → OnOk result (Wrote number 8 identity.now (F.seen files.old) (F.seen files.new)) }
    ensures mixed { F.known files.old → Mixed number 8 identity.now (F.seen files.old) (F.seen files.new) }
    ensures long { length identity.now ≡ 16 }
{
    files.write_at(number, 8, identity)
}

// Writes a number of four bytes.
fn write_number<F: Files>(files: &mut F, number: u8, at: u64, value: u32) -> Result<(), FileFault>
    ensures stays { F.known files.old → F.known files.new }
    ensures wrote { F.known files.old → OnOk result (Wrote number at (to_le_bytes w32 value) (F.seen files.old) (F.seen files.new)) }
    ensures mixed { F.known files.old → Mixed number at (to_le_bytes w32 value) (F.seen files.old) (F.seen files.new) }
    ensures small { value < 2 ^ 32 }
{
    files.write_at(number, at, &value.to_le_bytes())
}

/// What a file is; none if it isn't marked as a vault's.
pub fn read_header<F: Files>(files: &mut F, number: u8) -> Result<Option<Header>, FileFault>
    ensures stays { F.known files.old → F.known files.new }
    ensures header { F.known files.old → IfOk result (λ found. IfSome found (λ header. HasFileHeader (F.seen files.old number) header)) }
    ensures none { F.known files.old → IfOk result (λ found. IfNone found (part (F.seen files.old number) 0 8 ≢ the_mark)) }
    ensures seen { F.known files.old → F.seen files.new ≡ F.seen files.old }
{
    let mut mark = [0; 8];
    let mut identity = [0; 16];
    let mut own = [0; 1];
    read_part(files, number, 0, &mut mark)?;
    read_part(files, number, 8, &mut identity)?;
    read_part(files, number, 24, &mut own)?;
    let unit_bytes = read_number(files, number, 25)?;
    let count = read_number(files, number, 29)?;
    if mark != MARK {
        return Ok(None);
    }
    Ok(Some(Header {
        identity,
        number: own[0],
        unit_bytes,
        count,
    }))
}

// Reads bytes from an offset on.
pub(crate) fn read_part<F: Files>(
    files: &mut F,
    number: u8,
    at: u64,
    out: &mut [u8],
) -> Result<(), FileFault>
    ensures stays { F.known files.old → F.known files.new }
    ensures bytes { F.known files.old → OnOk result (out.new ≡ part (F.seen files.old number) at (length out.old)) }
    ensures seen { F.known files.old → F.seen files.new ≡ F.seen files.old }
    ensures time { F.known files.old
        → (stop : Stop) → Elapses (F.moment files.old) (F.moment files.new) (F.left_since files.old stop) (F.left_since files.new stop)
        (F.may_leave files.old stop) (F.may_leave files.new stop) }
    ensures cause { F.known files.old → HasFault (F.faults files.old) (F.faults files.new) result }
{
    files.read_at(number, at, out)
}

// Reads a number of four bytes.
fn read_number<F: Files>(files: &mut F, number: u8, at: u64) -> Result<u32, FileFault>
    ensures stays { F.known files.old → F.known files.new }
    ensures value { F.known files.old → IfOk result (λ value. value ≡ number_at (F.seen files.old number) at) }
    ensures seen { F.known files.old → F.seen files.new ≡ F.seen files.old }
{
    let mut bytes = [0; 4];
    read_part(files, number, at, &mut bytes)?;
    Ok(u32::from_le_bytes(bytes))
}
