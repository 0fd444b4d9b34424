// The journal's file: records, one after the other, and then zeros.
//
// A batch is appended by one write of its record. A flush is one sync. After a stop the whole records are taken, up to the first
// that isn't: see `record`.
ghost use Rattle.std.specs.Prelude.{◌≡◌, OnOk};
ghost use Rattle.file_vault.specs.Journals.{SameUnitFiles, IsEnded, ended_at};
ghost use Rattle.file_vault.specs.Folders.{HasFault, HasFile, part};
ghost use Rattle.vault.specs.Moments.{Elapses, HasCause, no_drive};
ghost use Rattle.vault.specs.declared.store.Stop.{Stop};

use crate::files::{FileFault, Files};
use crate::header::read_part;
use crate::layout::JOURNAL;
use vault::VaultError;

// Ends the journal at a place. Its byte there is made 0 first, and durable: so what a stop leaves of the cut begins with no record.
pub(crate) fn end_at<F: Files>(files: &mut F, at: u64) -> Result<(), FileFault>
    ensures stays { F.known files.old → F.known files.new }
    ensures others { F.known files.old → SameUnitFiles (F.seen files.old) (F.seen files.new) }
    ensures ended { F.known files.old → OnOk result (IsEnded at (F.seen files.old 17) (F.seen files.new 17)) }
    ensures durable { F.known files.old → OnOk result ((stop : Stop) → HasFile 17 (F.seen files.new) (F.may_leave files.new stop)) }
    ensures time { F.known files.old
        → (stop : Stop) → Elapses (F.moment files.old) (F.moment files.new) (F.left_since files.old stop) (F.left_since files.new stop)
        (ended_at at (F.may_leave files.old stop)) (F.may_leave files.new stop) }
    ensures cause { F.known files.old → HasFault (F.faults files.old) (F.faults files.new) result }
{
    files.write_at(JOURNAL, at, &[0])?;
    files.sync(JOURNAL)?;
    files.cut(JOURNAL, at)?;
    files.sync(JOURNAL)
}

// Reads so many bytes of the journal's file.
pub(crate) fn read_body<F: Files>(
    files: &mut F,
    at: u64,
    length: u64,
    body: &mut Vec<u8>,
) -> Result<(), VaultError>
    ensures stays { F.known files.old → F.known files.new }
    ensures bytes { F.known files.old → OnOk result (body.new.items ≡ part (F.seen files.old 17) at length) }
    ensures seen { F.known files.old → F.seen files.new ≡ F.seen files.old }
    ensures time { F.known files.old
        → (stop : Stop) → Elapses (F.moment files.old) (F.moment files.new) (F.left_since files.old stop) (F.left_since files.new stop)
        (F.may_leave files.old stop) (F.may_leave files.new stop) }
    ensures cause { F.known files.old → HasCause no_drive (F.faults files.old) (F.faults files.new) result }
{
    let length = length as usize;
    // What is there is written over, so that no more is filled than it must grow.
    body.truncate(length);
    body.resize(length, 0)?;
    match read_part(files, JOURNAL, at, body) {
        Ok(()) => Ok(()),
        Err(_) => Err(VaultError::Journal),
    }
}
