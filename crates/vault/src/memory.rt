// A vault in memory that keeps its calls. A stop leaves all that the contract of a vault lets it leave.
ghost use Rattle.std.specs.Prelude.{◌≡◌, ◌++◌, [], ◌∷◌, ◌<◌, ◌≤◌, ◌+◌, ◌^◌, ℕ, List, length, IfOk, OnOk, OnErr, IfErr, ⊤};
ghost use Rattle.vault.specs.Images.{Image};
ghost use Rattle.vault.specs.Moments.{IsUnitThere, read_of as the_read_of};
ghost use Rattle.vault.specs.Replay.{seen_at, seen_after, HasBatchAt, leaves_at, LeftSince, left_now, only_left};
ghost use Rattle.vault.specs.declared.memory.Call.{Call};
ghost use Rattle.vault.specs.declared.store.VaultError.TheVariants.{Memory};

use crate::batch::Batch;
use crate::store::{UnitRead, Vault, VaultError};
use extent_groups::Place;
use extents::DRIVES;
use std::alloc::Global;

/// A call that was carried out. Calls are kept, not what they did, because what a stop leaves depends on which were synced.
#[derive(Drop)]
enum Call {
    Unit(Place, Vec<u8>),
    SyncUnits([bool; DRIVES]),
    Append(Batch),
    SyncJournal,
    Clear,
}

/// At first each place holds a unit without bytes, and the journal is empty.
#[derive(Drop)]
pub struct MemVault {
    alloc: Global,
    calls: Vec<Call>,
}

impl MemVault {
    ghost use Rattle.vault.specs.Memory.{calls_of};

    pub fn new(alloc: Global) -> MemVault
        ensures { calls_of result ≡ [] }
    {
        MemVault {
            alloc,
            calls: Vec::new(alloc),
        }
    }
}

// Keeps a call.
fn note(calls: &mut Vec<Call>, call: Call) -> Result<(), VaultError>
    ensures ok { OnOk result (calls.new.items ≡ calls.old.items ++ call ∷ []) }
    ensures err { OnErr result (calls.new.items ≡ calls.old.items) }
    ensures why { IfErr result (λ e. e ≡ Memory) }
{
    calls.push(call)?;
    Ok(())
}

// A copy of a batch.
fn copied(alloc: Global, batch: &Batch) -> Result<Batch, VaultError>
    ensures ok { IfOk result (λ copy. copy ≡ batch.now) }
    ensures why { IfErr result (λ e. e ≡ Memory) }
{
    let mut copy = Batch::new(alloc);
    copy.copy_from(batch)?;
    Ok(copy)
}

// How many batches are in the journal after these calls.
fn count_batches(calls: &[Call]) -> usize
    ensures { result ≡ length (Image.journal (seen_at calls.now)) }
{
    let mut count = 0;
    for call in calls {
        count = count_after(count, call);
    }
    count
}

// How many batches are in the journal after one call more.
fn count_after(count: usize, call: &Call) -> usize
    requires { count + 1 < 2 ^ 64 }
    ensures grows { result ≤ count + 1 }
    ensures count { (s : Image) → count ≡ length s.journal → result ≡ length (Image.journal (seen_after call.now s)) }
{
    match call {
        Call::Unit(_, _) => count,
        Call::SyncUnits(_) => count,
        Call::Append(_) => count + 1,
        Call::SyncJournal => count,
        Call::Clear => 0,
    }
}

// The batch of this index in the journal after these calls; any where there is none.
fn find_batch(calls: &[Call], index: usize, found: &mut Batch) -> Result<(), VaultError>
    ensures found { OnOk result (HasBatchAt index (seen_at calls.now) found.new) }
    ensures why { IfErr result (λ e. e ≡ Memory) }
{
    let mut count = 0;
    for call in calls {
        find_in(call, count, index, found)?;
        count = count_after(count, call);
    }
    Ok(())
}

// The batch of this index after one call more, which comes after `count` batches.
fn find_in(call: &Call, count: usize, index: usize, found: &mut Batch) -> Result<(), VaultError>
    ensures found { OnOk result ((s : Image) → count ≡ length s.journal → HasBatchAt index s found.old → HasBatchAt index (seen_after call.now s) found.new) }
    ensures why { IfErr result (λ e. e ≡ Memory) }
{
    if let Call::Append(batch) = call {
        if count == index {
            found.copy_from(batch)?;
        }
    }
    Ok(())
}

// Whether a unit of this length is at a place after these calls, and that unit.
fn find_unit(calls: &[Call], place: Place, out: &mut [u8]) -> bool
    ensures { IsUnitThere (Image.cells (seen_at calls.now)) place out.new result }
{
    // At first each place holds a unit without bytes.
    let mut there = out.is_empty();
    for call in calls {
        there = unit_after(call, place, there, out);
    }
    there
}

// Whether a unit of this length is at a place after one call more, and that unit.
fn unit_after(call: &Call, place: Place, there: bool, out: &mut [u8]) -> bool
    ensures { (calls : List Call) → IsUnitThere (Image.cells (seen_at calls)) place out.old there → IsUnitThere (Image.cells (seen_after call.now (seen_at calls))) place out.new result }
{
    let Call::Unit(at, unit) = call else {
        return there;
    };
    if *at != place {
        return there;
    }
    if unit.len() != out.len() {
        return false;
    }
    out.copy_from_slice(unit);
    true
}

// What a read answers, by whether a unit of this length is there.
fn read_of(there: bool) -> UnitRead
    ensures { result ≡ the_read_of there }
{
    if there {
        UnitRead::Whole
    } else {
        UnitRead::Absent
    }
}

impl Vault for MemVault {
    ghost known = { λ m. ⊤ };

    ghost seen = { λ m. seen_at m.calls.items };

    ghost attested = { λ m x. ⊤ };

    ghost may_leave = { λ m stop i. leaves_at stop m.calls.items i };

    ghost moment = { λ m. length m.calls.items };

    ghost left_since = { λ m stop t i. LeftSince stop m.calls.items t i };

    ghost faults = { λ m. 0 };

    ghost counts_now = { λ m known stop t i le now. left_now stop m.calls.items t i le now };

    ghost only_now = { λ m known stop i left. only_left stop m.calls.items i left };

    fn write_unit(&mut self, place: Place, unit: &[u8]) -> Result<(), VaultError> {
        let unit = unit.to_vec(self.alloc)?;
        note(&mut self.calls, Call::Unit(place, unit))
    }

    fn sync_units(&mut self, lost: &[bool; DRIVES]) -> Result<(), VaultError> {
        note(&mut self.calls, Call::SyncUnits(*lost))
    }

    fn read_unit(&mut self, place: Place, out: &mut [u8]) -> Result<UnitRead, VaultError> {
        Ok(read_of(find_unit(&self.calls, place, out)))
    }

    fn append(&mut self, batch: &Batch) -> Result<(), VaultError> {
        let batch = copied(self.alloc, batch)?;
        note(&mut self.calls, Call::Append(batch))
    }

    fn sync_journal(&mut self) -> Result<(), VaultError> {
        note(&mut self.calls, Call::SyncJournal)
    }

    fn clear(&mut self) -> Result<(), VaultError> {
        note(&mut self.calls, Call::Clear)
    }

    fn batches(&mut self) -> Result<usize, VaultError> {
        Ok(count_batches(&self.calls))
    }

    fn read_batch(&mut self, index: usize, batch: &mut Batch) -> Result<(), VaultError> {
        find_batch(&self.calls, index, batch)
    }
}
