// The two files of a journal: which of them are written, and that one which fails is left out.
ghost use Rattle.std.specs.Prelude.{◌+◌, ◌≡◌, ◌≤◌, true};
ghost use Rattle.vault.specs.Moments.{Elapses, Within};
ghost use Rattle.vault.specs.declared.store.Stop.{Stop};
ghost use Rattle.vault.specs.declared.store.Stop.TheVariants.{Killed};
ghost use Rattle.file_vault.specs.Folders.{Folder, HasFile, Wrote, Mixed, WasCut, CutShort, Reads, wrote_at, mixed_at, cut_at};
ghost use Rattle.file_vault.specs.Headers.{SameAfterHeader};
ghost use Rattle.file_vault.specs.declared.twin.Twin.TheVariants.{First};
ghost use Rattle.file_vault.specs.Twins.{lead_of, file_of, seen_as, shown, IsHeld, IsAvailable, IsOnly, HasCount, HasSucceeded, AreEven, AreAlike, MayLead, SameBoth, ShownElapses};

use crate::files::Files;
use crate::layout::JOURNAL;
use crate::twin::{SECOND, Twin, put_count};

/// By how much a file's count is raised where the journal goes on without the other.
const AHEAD: u64 = 3;

/// Which files of a journal are written and read.
#[derive(Clone, Copy, Debug, PartialEq, Eq)]
pub enum Held {
    /// Both, with this count.
    Both(u64),
    /// One alone, with this count. The other one doesn't count.
    Only(Twin, u64),
    /// None: both have failed.
    Neither,
}

// Goes on with one file alone, once that is durable.
pub(crate) fn go_alone<F: Files>(files: &mut F, twin: Twin, count: u64) -> Held
    ensures stays { F.known files.old → F.known files.new }
    ensures later { F.known files.old → F.faults files.old ≤ F.faults files.new }
    ensures only { IsOnly twin result }
    ensures raised { HasCount (count + 3) result }
    ensures held { F.known files.old → MayLead F.may_leave files.old twin count → IsHeld F.seen F.may_leave files.new result }
    ensures following { F.known files.old → SameAfterHeader (file_of twin) (F.seen files.old) (F.seen files.new) }
    ensures left { F.known files.old → (stop : Stop) (g : Folder) → F.may_leave files.new stop g
        → (f : Folder) × F.may_leave files.old stop f × SameAfterHeader (file_of twin) f g }
    ensures time { F.known files.old → MayLead F.may_leave files.old twin count
        → (stop : Stop) → ShownElapses F.moment F.left_since F.may_leave files.old files.new stop (λ h. shown (F.may_leave files.old stop) h) }
{
    let Some(next) = count.checked_add(AHEAD) else {
        return Held::Neither;
    };
    match put_count(files, twin.number(), next) {
        Ok(()) => Held::Only(twin, next),
        Err(_) => Held::Neither,
    }
}

// Goes on with the files of which this call succeeded.
fn keep<F: Files>(files: &mut F, count: u64, first: bool, second: bool) -> Held
    ensures stays { F.known files.old → F.known files.new }
    ensures later { F.known files.old → F.faults files.old ≤ F.faults files.new }
    ensures succeeded { HasSucceeded first second result }
    ensures held { F.known files.old → AreEven F.may_leave files.old count → (first ≡ true → second ≡ true → AreAlike (F.seen files.old))
        → IsHeld F.seen F.may_leave files.new result }
    ensures following { F.known files.old → SameBoth (F.seen files.old) (F.seen files.new) }
    ensures left { F.known files.old → (stop : Stop) (g : Folder) → F.may_leave files.new stop g
        → (f : Folder) × F.may_leave files.old stop f × SameBoth f g }
    ensures time { F.known files.old → AreEven F.may_leave files.old count
        → (stop : Stop) → ShownElapses F.moment F.left_since F.may_leave files.old files.new stop (λ h. shown (F.may_leave files.old stop) h) }
{
    if first && second {
        return Held::Both(count);
    }
    if first {
        return go_alone(files, Twin::First, count);
    }
    if second {
        return go_alone(files, Twin::Second, count);
    }
    Held::Neither
}

// Writes bytes to both files.
pub(crate) fn write_both<F: Files>(files: &mut F, count: u64, at: u64, bytes: &[u8]) -> Held
    requires { 4096 ≤ at }
    ensures stays { F.known files.old → F.known files.new }
    ensures later { F.known files.old → F.faults files.old ≤ F.faults files.new }
    ensures held { F.known files.old → AreEven F.may_leave files.old count → AreAlike (F.seen files.old)
        → IsHeld F.seen F.may_leave files.new result }
    ensures wrote { F.known files.old → AreAlike (F.seen files.old) → IsAvailable result
        → Wrote 17 at bytes.now (seen_as First (F.seen files.old)) (seen_as (lead_of result) (F.seen files.new)) }
    ensures mixed { F.known files.old → AreAlike (F.seen files.old)
        → Mixed 17 at bytes.now (seen_as First (F.seen files.old)) (seen_as (lead_of result) (F.seen files.new)) }
    ensures killed { F.known files.old → AreEven F.may_leave files.old count → AreAlike (F.seen files.old) → IsAvailable result
        → Within (λ h. shown (F.may_leave files.new Killed) h) (wrote_at 17 at bytes.now (λ h. shown (F.may_leave files.old Killed) h)) }
    ensures time { F.known files.old → AreEven F.may_leave files.old count
        → (stop : Stop) → ShownElapses F.moment F.left_since F.may_leave files.old files.new stop
        (mixed_at 17 at bytes.now (λ h. shown (F.may_leave files.old stop) h)) }
{
    let first = files.write_at(JOURNAL, at, bytes).is_ok();
    let second = files.write_at(SECOND, at, bytes).is_ok();
    keep(files, count, first, second)
}

// Cuts both files at an offset.
pub(crate) fn cut_both<F: Files>(files: &mut F, count: u64, at: u64) -> Held
    requires { 4096 ≤ at }
    ensures stays { F.known files.old → F.known files.new }
    ensures later { F.known files.old → F.faults files.old ≤ F.faults files.new }
    ensures held { F.known files.old → AreEven F.may_leave files.old count → AreAlike (F.seen files.old)
        → IsHeld F.seen F.may_leave files.new result }
    ensures cut { F.known files.old → AreAlike (F.seen files.old) → IsAvailable result
        → WasCut 17 at (seen_as First (F.seen files.old)) (seen_as (lead_of result) (F.seen files.new)) }
    ensures short { F.known files.old → AreAlike (F.seen files.old)
        → CutShort 17 at (seen_as First (F.seen files.old)) (seen_as (lead_of result) (F.seen files.new)) }
    ensures time { F.known files.old → AreEven F.may_leave files.old count
        → (stop : Stop) → ShownElapses F.moment F.left_since F.may_leave files.old files.new stop
        (cut_at 17 at (λ h. shown (F.may_leave files.old stop) h)) }
{
    let first = files.cut(JOURNAL, at).is_ok();
    let second = files.cut(SECOND, at).is_ok();
    keep(files, count, first, second)
}

// Makes both files durable.
pub(crate) fn sync_both<F: Files>(files: &mut F, count: u64) -> Held
    ensures stays { F.known files.old → F.known files.new }
    ensures later { F.known files.old → F.faults files.old ≤ F.faults files.new }
    ensures held { F.known files.old → AreEven F.may_leave files.old count → AreAlike (F.seen files.old)
        → IsHeld F.seen F.may_leave files.new result }
    ensures seen { F.known files.old → AreAlike (F.seen files.old)
        → seen_as (lead_of result) (F.seen files.new) ≡ seen_as First (F.seen files.old) }
    ensures durable { F.known files.old → AreAlike (F.seen files.old) → IsHeld F.seen F.may_leave files.new result → IsAvailable result
        → (stop : Stop) → HasFile 17 (seen_as First (F.seen files.old)) (λ h. shown (F.may_leave files.new stop) h) }
    ensures time { F.known files.old → AreEven F.may_leave files.old count
        → (stop : Stop) → ShownElapses F.moment F.left_since F.may_leave files.old files.new stop (λ h. shown (F.may_leave files.old stop) h) }
{
    let first = files.sync(JOURNAL).is_ok();
    let second = files.sync(SECOND).is_ok();
    keep(files, count, first, second)
}

// Reads bytes of the first file, or of the second one if that fails.
pub(crate) fn read_both<F: Files>(files: &mut F, count: u64, at: u64, out: &mut [u8]) -> Held
    requires { 4096 ≤ at }
    ensures stays { F.known files.old → F.known files.new }
    ensures later { F.known files.old → F.faults files.old ≤ F.faults files.new }
    ensures held { F.known files.old → AreEven F.may_leave files.old count → AreAlike (F.seen files.old)
        → IsHeld F.seen F.may_leave files.new result }
    ensures seen { F.known files.old → AreAlike (F.seen files.old)
        → seen_as (lead_of result) (F.seen files.new) ≡ seen_as First (F.seen files.old) }
    ensures bytes { F.known files.old → AreAlike (F.seen files.old) → IsAvailable result
        → Reads (seen_as First (F.seen files.old) 17) at out.new }
    ensures time { F.known files.old → AreEven F.may_leave files.old count
        → (stop : Stop) → ShownElapses F.moment F.left_since F.may_leave files.old files.new stop (λ h. shown (F.may_leave files.old stop) h) }
{
    if files.read_at(JOURNAL, at, out).is_ok() {
        return Held::Both(count);
    }
    let second = files.read_at(SECOND, at, out).is_ok();
    keep(files, count, false, second)
}
