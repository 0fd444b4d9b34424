// The generation of a drive's file, or of the table, in eight bytes of its file.
ghost use Rattle.std.specs.Prelude.{◌≡◌, ◌⊎◌, ◌<◌, ◌^◌, ℕ, true, length, suc, OnOk, IfOk, IfSome};
ghost use Rattle.vault.specs.Moments.{Elapses};
ghost use Rattle.vault.specs.declared.store.Stop.{Stop};
ghost use Rattle.file_vault.specs.Folders.{Folder, HasFault, Wrote, Mixed, mixed_at};
ghost use Rattle.file_vault.specs.Generations.{stamp_bytes, stamp_offset, HasGeneration, IsCurrent};

use crate::files::{FileFault, Files};
use crate::header::read_part;
use vault::TABLE;

/// The place in a drive's file.
const OF_DRIVE: u64 = 128;

/// The place in the table's, past the table.
pub(crate) const OF_TABLE: u64 = 65_536;

/// Bytes of the table's file, with its generation.
pub const TABLE_FILE: u64 = OF_TABLE + 8;

// Where a file has its generation.
fn stamp_offset(file: u8) -> u64
    ensures { result ≡ stamp_offset file }
{
    if file == TABLE { OF_TABLE } else { OF_DRIVE }
}

// Writes a generation's bytes, as many as there are.
fn put_code(out: &mut [u8], generation: u64)
    ensures { out.new ≡ stamp_bytes (length out.old) generation }
{
    let mut rest = generation;
    for byte in out.iter_mut() {
        *byte = ((rest % 256 + 256 - rest / 256 % 256) % 256) as u8;
        rest /= 256;
    }
}

// A generation's bytes.
fn code_of(generation: u64) -> [u8; 8]
    ensures { result ≡ stamp_bytes 8 generation }
{
    let mut out = [0; 8];
    put_code(&mut out, generation);
    out
}

// The generation of which these would be the bytes.
fn number_in(bytes: &[u8; 8]) -> u64 {
    let mut number = 0u64;
    for index in 0..8 {
        let low = (bytes[7 - index] as u64 + number % 256) % 256;
        number = number.wrapping_mul(256).wrapping_add(low);
    }
    number
}

// Whether these are the bytes of a generation.
fn is_code(bytes: &[u8; 8], generation: u64) -> bool
    ensures own { result ≡ true → bytes.now ≡ stamp_bytes 8 generation }
    ensures all { bytes.now ≡ stamp_bytes 8 generation → result ≡ true }
{
    let own = code_of(generation);
    *bytes == own
}

// Reads the bytes of a file's generation.
fn read_code<F: Files>(files: &mut F, file: u8) -> Result<[u8; 8], FileFault>
    ensures stays { F.known files.old → F.known files.new }
    ensures bytes { F.known files.old → IfOk result (λ bytes. (n : ℕ) → bytes ≡ stamp_bytes 8 n → HasGeneration (F.seen files.old) file n) }
    ensures back { F.known files.old → IfOk result (λ bytes. (n : ℕ) → HasGeneration (F.seen files.old) file n → bytes ≡ stamp_bytes 8 n) }
    ensures seen { F.known files.old → F.seen files.new ≡ F.seen files.old }
    ensures time { F.known files.old
        → (stop : Stop) → Elapses (F.moment files.old) (F.moment files.new) (F.left_since files.old stop) (F.left_since files.new stop)
        (F.may_leave files.old stop) (F.may_leave files.new stop) }
    ensures cause { F.known files.old → HasFault (F.faults files.old) (F.faults files.new) result }
{
    let mut bytes = [0; 8];
    read_part(files, file, stamp_offset(file), &mut bytes)?;
    Ok(bytes)
}

/// Reads the generation of a file of a vault's; none if its bytes aren't a generation's.
pub fn read_generation<F: Files>(files: &mut F, file: u8) -> Result<Option<u64>, FileFault>
    ensures stays { F.known files.old → F.known files.new }
    ensures some { F.known files.old → IfOk result (λ found. IfSome found (λ generation. HasGeneration (F.seen files.old) file generation)) }
    ensures seen { F.known files.old → F.seen files.new ≡ F.seen files.old }
    ensures time { F.known files.old
        → (stop : Stop) → Elapses (F.moment files.old) (F.moment files.new) (F.left_since files.old stop) (F.left_since files.new stop)
        (F.may_leave files.old stop) (F.may_leave files.new stop) }
    ensures cause { F.known files.old → HasFault (F.faults files.old) (F.faults files.new) result }
{
    let bytes = read_code(files, file)?;
    let generation = number_in(&bytes);
    if is_code(&bytes, generation) {
        Ok(Some(generation))
    } else {
        Ok(None)
    }
}

// Whether these are the bytes of a generation, or of the next.
fn is_code_of(bytes: &[u8; 8], generation: u64) -> bool
    ensures either { result ≡ true → (bytes.now ≡ stamp_bytes 8 generation) ⊎ ((suc generation < 2 ^ 64) × (bytes.now ≡ stamp_bytes 8 (suc generation))) }
    ensures all { (bytes.now ≡ stamp_bytes 8 generation) ⊎ ((suc generation < 2 ^ 64) × (bytes.now ≡ stamp_bytes 8 (suc generation))) → result ≡ true }
{
    if is_code(bytes, generation) {
        return true;
    }
    match generation.checked_add(1) {
        Some(next) => is_code(bytes, next),
        None => false,
    }
}

/// Whether a drive's file has this generation or the next.
pub fn is_current<F: Files>(files: &mut F, file: u8, generation: u64) -> Result<bool, FileFault>
    ensures stays { F.known files.old → F.known files.new }
    ensures current { F.known files.old → IfOk result (λ current. current ≡ true → IsCurrent (F.seen files.old) file generation) }
    ensures all { F.known files.old → IfOk result (λ current. IsCurrent (F.seen files.old) file generation → current ≡ true) }
    ensures seen { F.known files.old → F.seen files.new ≡ F.seen files.old }
    ensures time { F.known files.old
        → (stop : Stop) → Elapses (F.moment files.old) (F.moment files.new) (F.left_since files.old stop) (F.left_since files.new stop)
        (F.may_leave files.old stop) (F.may_leave files.new stop) }
    ensures cause { F.known files.old → HasFault (F.faults files.old) (F.faults files.new) result }
{
    let bytes = read_code(files, file)?;
    Ok(is_code_of(&bytes, generation))
}

// Writes a generation into a file.
pub(crate) fn write_generation<F: Files>(
    files: &mut F,
    file: u8,
    generation: u64,
) -> Result<(), FileFault>
    ensures stays { F.known files.old → F.known files.new }
    ensures wrote { F.known files.old → OnOk result (Wrote file (stamp_offset file) (stamp_bytes 8 generation) (F.seen files.old) (F.seen files.new)) }
    ensures mixed { F.known files.old → Mixed file (stamp_offset file) (stamp_bytes 8 generation) (F.seen files.old) (F.seen files.new) }
    ensures time { F.known files.old
        → (stop : Stop) → Elapses (F.moment files.old) (F.moment files.new) (F.left_since files.old stop) (F.left_since files.new stop)
        (mixed_at file (stamp_offset file) (stamp_bytes 8 generation) (F.may_leave files.old stop)) (F.may_leave files.new stop) }
    ensures cause { F.known files.old → HasFault (F.faults files.old) (F.faults files.new) result }
{
    let code = code_of(generation);
    files.write_at(file, stamp_offset(file), &code)
}

/// As a law: a file of a lower generation, like an older copy, isn't current.
#[tactic(auto, using(crate::proofs::Stamps::older_not_current))]
pub fn lower_generation_law()
    ensures { (f : Folder) (d m n : ℕ) → m < n → n < 2 ^ 64 → HasGeneration f d m → IsCurrent f d n → ⊥ }
{}
