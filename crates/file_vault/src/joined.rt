// The two files of a journal are opened, and made equal. The newer one is copied over the other; where both count, each byte of
// the other is meanwhile one of the two, and the files may be opened again. Then both counts are raised, one after the other.
ghost use Rattle.std.specs.Prelude.{◌≡◌, ◌≤◌, ◌+◌, ◌<◌, ◌^◌, ℕ, length, OnOk, IfOk, IfSome};
ghost use Rattle.vault.specs.Moments.{Elapses};
ghost use Rattle.vault.specs.declared.store.Stop.{Stop};
ghost use Rattle.file_vault.specs.Folders.{HasFile};
ghost use Rattle.file_vault.specs.Twins.{file_of, other, count_in, lead_of, seen_as, shown, MergesTwins, IsHeld, IsAvailable, IsBoth, IsRaised, newer_of, IsNotNewer, IsFoundIn, AreAlike, AreSettled, CopiedOver, copied_at, ShownElapses};

use crate::files::{FileFault, Files};
use crate::held::{Held, go_alone};
use crate::layout::HEADER;
use crate::twin::{Twin, put_count, read_count};

/// Bytes that are copied at once.
const PIECE: usize = 4096;

/// The most bytes of a journal's file.
const MOST: u64 = 1 << 62;

/// Which files of a journal could be read and synced when they were opened.
#[derive(Clone, Copy, Debug, PartialEq, Eq)]
pub enum Found {
    /// Both.
    Pair,
    /// This one.
    One(Twin),
    /// None.
    None,
}

/// Which of two files failed.
#[derive(Clone, Copy, Debug, PartialEq, Eq)]
enum Failed {
    /// The one that is copied.
    Lead,
    /// The one that is written over.
    Mate,
}

// The count of a file that is there, once it is durable; none if it can't be read or synced.
fn admit<F: Files>(files: &mut F, twin: Twin) -> Option<u64>
    ensures stays { F.known files.old → F.known files.new }
    ensures later { F.known files.old → F.faults files.old ≤ F.faults files.new }
    ensures seen { F.known files.old → F.seen files.new ≡ F.seen files.old }
    ensures time { F.known files.old
        → (stop : Stop) → Elapses (F.moment files.old) (F.moment files.new) (F.left_since files.old stop) (F.left_since files.new stop)
        (F.may_leave files.old stop) (F.may_leave files.new stop) }
    ensures count { F.known files.old → IfSome result (λ count. count ≡ count_in (F.seen files.old (file_of twin))) }
    ensures durable { F.known files.old → IfSome result (λ count. (stop : Stop) → HasFile (file_of twin) (F.seen files.old) (F.may_leave files.new stop)) }
{
    let Ok(count) = read_count(files, twin.number()) else {
        return None;
    };
    match files.sync(twin.number()) {
        Ok(()) => Some(count),
        Err(_) => None,
    }
}

// The end of the longer file.
fn end_of<F: Files>(files: &mut F, lead: Twin) -> Result<u64, Failed>
    ensures stays { F.known files.old → F.known files.new }
    ensures later { F.known files.old → F.faults files.old ≤ F.faults files.new }
    ensures seen { F.known files.old → F.seen files.new ≡ F.seen files.old }
    ensures time { F.known files.old
        → (stop : Stop) → Elapses (F.moment files.old) (F.moment files.new) (F.left_since files.old stop) (F.left_since files.new stop)
        (F.may_leave files.old stop) (F.may_leave files.new stop) }
    ensures zeros { F.known files.old
        → IfOk result (λ end. (k : ℕ) → end ≤ k → (F.seen files.old (file_of lead) k ≡ 0) × (F.seen files.old (file_of (other lead)) k ≡ 0)) }
{
    let Ok(ours) = files.length(lead.number()) else {
        return Err(Failed::Lead);
    };
    match files.length(lead.other().number()) {
        Ok(theirs) => Ok(ours.max(theirs)),
        Err(_) => Err(Failed::Mate),
    }
}

// Copies some bytes, unless they are the same.
fn copy_piece<F: Files>(
    files: &mut F,
    lead: Twin,
    at: u64,
    ours: &mut [u8],
    theirs: &mut [u8],
) -> Result<(), Failed>
    requires { (4096 ≤ at) × (length theirs.old ≡ length ours.old) }
    ensures stays { F.known files.old → F.known files.new }
    ensures later { F.known files.old → F.faults files.old ≤ F.faults files.new }
    ensures seen { F.known files.old → CopiedOver lead (F.seen files.old) (F.seen files.old) (F.seen files.new) }
    ensures done { F.known files.old → OnOk result ((k : ℕ) → at ≤ k → k < at + length ours.old
        → F.seen files.new (file_of (other lead)) k ≡ F.seen files.old (file_of lead) k) }
    ensures time { F.known files.old
        → (stop : Stop) → Elapses (F.moment files.old) (F.moment files.new) (F.left_since files.old stop) (F.left_since files.new stop)
        (copied_at lead (F.seen files.old) (F.may_leave files.old stop)) (F.may_leave files.new stop) }
{
    if files.read_at(lead.number(), at, ours).is_err() {
        return Err(Failed::Lead);
    }
    let mate = lead.other().number();
    if files.read_at(mate, at, theirs).is_err() {
        return Err(Failed::Mate);
    }
    if &*ours == &*theirs {
        return Ok(());
    }
    match files.write_at(mate, at, ours) {
        Ok(()) => Ok(()),
        Err(_) => Err(Failed::Mate),
    }
}

// Copies the bytes up to an end.
fn copy_to<F: Files>(files: &mut F, lead: Twin, end: u64) -> Result<(), Failed>
    requires { end ≤ 2 ^ 62 }
    ensures stays { F.known files.old → F.known files.new }
    ensures later { F.known files.old → F.faults files.old ≤ F.faults files.new }
    ensures seen { F.known files.old → CopiedOver lead (F.seen files.old) (F.seen files.old) (F.seen files.new) }
    ensures done { F.known files.old → OnOk result ((k : ℕ) → 4096 ≤ k → k < end
        → F.seen files.new (file_of (other lead)) k ≡ F.seen files.old (file_of lead) k) }
    ensures time { F.known files.old
        → (stop : Stop) → Elapses (F.moment files.old) (F.moment files.new) (F.left_since files.old stop) (F.left_since files.new stop)
        (copied_at lead (F.seen files.old) (F.may_leave files.old stop)) (F.may_leave files.new stop) }
{
    let mut ours = [0; PIECE];
    let mut theirs = [0; PIECE];
    let mut at = HEADER;
    while at < end {
        let count = (end - at).min(PIECE as u64) as usize;
        copy_piece(files, lead, at, &mut ours[..count], &mut theirs[..count])?;
        at += count as u64;
    }
    Ok(())
}

// Makes a file the same as the other one, after the first block, and durable.
fn copy_over<F: Files>(files: &mut F, lead: Twin) -> Result<(), Failed>
    ensures stays { F.known files.old → F.known files.new }
    ensures later { F.known files.old → F.faults files.old ≤ F.faults files.new }
    ensures seen { F.known files.old → CopiedOver lead (F.seen files.old) (F.seen files.old) (F.seen files.new) }
    ensures alike { F.known files.old → OnOk result (AreAlike (F.seen files.new)) }
    ensures durable { F.known files.old → OnOk result ((stop : Stop) → HasFile (file_of (other lead)) (F.seen files.new) (F.may_leave files.new stop)) }
    ensures time { F.known files.old
        → (stop : Stop) → Elapses (F.moment files.old) (F.moment files.new) (F.left_since files.old stop) (F.left_since files.new stop)
        (copied_at lead (F.seen files.old) (F.may_leave files.old stop)) (F.may_leave files.new stop) }
{
    let end = end_of(files, lead)?;
    if end > MOST {
        return Err(Failed::Lead);
    }
    copy_to(files, lead, end)?;
    match files.sync(lead.other().number()) {
        Ok(()) => Ok(()),
        Err(_) => Err(Failed::Mate),
    }
}

// Raises the counts of two files that are the same.
fn raise<F: Files>(files: &mut F, lead: Twin, count: u64) -> Held
    ensures stays { F.known files.old → F.known files.new }
    ensures later { F.known files.old → F.faults files.old ≤ F.faults files.new }
    ensures held { F.known files.old → AreSettled F.seen F.may_leave files.old → AreAlike (F.seen files.old)
        → count ≡ count_in (F.seen files.old (file_of lead)) → count_in (F.seen files.old (file_of (other lead))) ≤ count
        → IsHeld F.seen F.may_leave files.new result }
    ensures raised { F.known files.old
        → count ≡ count_in (F.seen files.old (file_of lead)) → count_in (F.seen files.old (file_of (other lead))) ≤ count
        → IsRaised (F.seen files.old) result }
    ensures seen { F.known files.old → AreAlike (F.seen files.old)
        → seen_as (lead_of result) (F.seen files.new) ≡ seen_as lead (F.seen files.old) }
    ensures time { F.known files.old → AreSettled F.seen F.may_leave files.old → AreAlike (F.seen files.old)
        → count ≡ count_in (F.seen files.old (file_of lead)) → count_in (F.seen files.old (file_of (other lead))) ≤ count
        → (stop : Stop) → ShownElapses F.moment F.left_since F.may_leave files.old files.new stop (λ h. shown (F.may_leave files.old stop) h) }
{
    let mate = lead.other();
    if put_count(files, mate.number(), count).is_err() {
        return go_alone(files, lead, count);
    }
    let Some(next) = count.checked_add(1) else {
        return Held::Neither;
    };
    if put_count(files, lead.number(), next).is_err() {
        return go_alone(files, mate, count);
    }
    if put_count(files, mate.number(), next).is_err() {
        return go_alone(files, lead, next);
    }
    Held::Both(next)
}

// Makes a file the same as the newer one. If that fails, the other goes on alone where it counts.
fn pair<F: Files>(files: &mut F, lead: Twin, count: u64, least: u64) -> Held
    ensures stays { F.known files.old → F.known files.new }
    ensures later { F.known files.old → F.faults files.old ≤ F.faults files.new }
    ensures held { F.known files.old → AreSettled F.seen F.may_leave files.old
        → count ≡ count_in (F.seen files.old (file_of lead)) → least ≡ count_in (F.seen files.old (file_of (other lead))) → least ≤ count
        → IsHeld F.seen F.may_leave files.new result }
    ensures seen { F.known files.old
        → count ≡ count_in (F.seen files.old (file_of lead)) → least ≡ count_in (F.seen files.old (file_of (other lead))) → least ≤ count
        → IsAvailable result → MergesTwins (F.seen files.old) (seen_as (lead_of result) (F.seen files.new)) }
    ensures raised { F.known files.old
        → count ≡ count_in (F.seen files.old (file_of lead)) → least ≡ count_in (F.seen files.old (file_of (other lead))) → least ≤ count
        → IsRaised (F.seen files.old) result }
    ensures newest { F.known files.old → IsBoth result → seen_as (lead_of result) (F.seen files.new) ≡ seen_as lead (F.seen files.old) }
    ensures time { F.known files.old → AreSettled F.seen F.may_leave files.old
        → count ≡ count_in (F.seen files.old (file_of lead)) → least ≡ count_in (F.seen files.old (file_of (other lead))) → least ≤ count
        → (stop : Stop) → ShownElapses F.moment F.left_since F.may_leave files.old files.new stop (λ h. shown (F.may_leave files.old stop) h) }
{
    match copy_over(files, lead) {
        Ok(()) => raise(files, lead, count),
        Err(Failed::Mate) => go_alone(files, lead, count),
        Err(Failed::Lead) => {
            if count <= least.saturating_add(1) {
                go_alone(files, lead.other(), least)
            } else {
                Held::Neither
            }
        }
    }
}

// Opens the files of a journal. The newer one is taken, of two as new the first.
pub(crate) fn join<F: Files>(files: &mut F) -> (Found, Held)
    ensures stays { F.known files.old → F.known files.new }
    ensures later { F.known files.old → F.faults files.old ≤ F.faults files.new }
    ensures held { F.known files.old → IsNotNewer F.may_leave files.old result.0 → IsHeld F.seen F.may_leave files.new result.1 }
    ensures seen { F.known files.old → IsAvailable result.1
        → IsFoundIn result.0 (F.seen files.old) (seen_as (lead_of result.1) (F.seen files.new)) }
    ensures raised { F.known files.old → IsRaised (F.seen files.old) result.1 }
    ensures newest { F.known files.old → IsBoth result.1
        → seen_as (lead_of result.1) (F.seen files.new) ≡ seen_as (newer_of (F.seen files.old)) (F.seen files.old) }
    ensures time { F.known files.old → IsNotNewer F.may_leave files.old result.0
        → (stop : Stop) → ShownElapses F.moment F.left_since F.may_leave files.old files.new stop (λ h. shown (F.may_leave files.old stop) h) }
{
    let first = admit(files, Twin::First);
    let second = admit(files, Twin::Second);
    match (first, second) {
        (Some(first), Some(second)) => {
            if first < second {
                (Found::Pair, pair(files, Twin::Second, second, first))
            } else {
                (Found::Pair, pair(files, Twin::First, first, second))
            }
        }
        (Some(first), None) => (Found::One(Twin::First), go_alone(files, Twin::First, first)),
        (None, Some(second)) => (
            Found::One(Twin::Second),
            go_alone(files, Twin::Second, second),
        ),
        (None, None) => (Found::None, Held::Neither),
    }
}
