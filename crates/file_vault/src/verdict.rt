// Whether a drive's file may be taken.
ghost use Rattle.std.specs.Prelude.{◌≡◌, IfOk};
ghost use Rattle.file_vault.specs.Headers.{HasFileHeader};
ghost use Rattle.file_vault.specs.Generations.{IsCurrent};
ghost use Rattle.file_vault.specs.declared.verdict.Verdict.TheVariants.{Good, Stale};

use crate::files::{FileFault, Files};
use crate::header::{Header, read_header};
use crate::stamp::is_current;

/// What a file is, compared with what it should be. The first of these that holds.
#[derive(Clone, Copy, Debug, PartialEq, Eq)]
pub enum Verdict {
    /// The file that is expected, as new as the table.
    Good,
    /// It isn't marked as a vault's, or has another identity.
    Foreign,
    /// It is another drive's.
    Misplaced,
    /// It has another count of units, or units of another size.
    Resized,
    /// It is a copy of before.
    Stale,
}

// Why a header isn't the one that is expected.
fn why(found: &Header, expected: &Header) -> Verdict
    ensures good { result ≡ Good → found.now ≡ expected.now }
    ensures all { found.now ≡ expected.now → result ≡ Good }
    ensures never { result ≡ Stale → ⊥ }
{
    if *found == *expected {
        return Verdict::Good;
    }
    if found.identity != expected.identity {
        return Verdict::Foreign;
    }
    if found.number != expected.number {
        return Verdict::Misplaced;
    }
    Verdict::Resized
}

/// Compares a drive's file with the header that it should have and with the table's generation.
pub fn judge<F: Files>(
    files: &mut F,
    expected: &Header,
    generation: u64,
) -> Result<Verdict, FileFault>
    ensures stays { F.known files.old → F.known files.new }
    ensures good { F.known files.old → IfOk result (λ verdict. verdict ≡ Good
        → HasFileHeader (F.seen files.old expected.now.number) expected.now × IsCurrent (F.seen files.old) expected.now.number generation) }
    ensures all { F.known files.old → IfOk result (λ verdict. HasFileHeader (F.seen files.old expected.now.number) expected.now
        → IsCurrent (F.seen files.old) expected.now.number generation → verdict ≡ Good) }
    ensures stale { F.known files.old → IfOk result (λ verdict. verdict ≡ Stale
        → HasFileHeader (F.seen files.old expected.now.number) expected.now × (IsCurrent (F.seen files.old) expected.now.number generation → ⊥)) }
    ensures seen { F.known files.old → F.seen files.new ≡ F.seen files.old }
{
    let Some(header) = read_header(files, expected.number)? else {
        return Ok(Verdict::Foreign);
    };
    let verdict = why(&header, expected);
    if verdict != Verdict::Good {
        return Ok(verdict);
    }
    if is_current(files, expected.number, generation)? {
        Ok(Verdict::Good)
    } else {
        Ok(Verdict::Stale)
    }
}
