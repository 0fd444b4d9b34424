// Batches of the journal's file are found again: those of its whole records, up to the first that isn't.
ghost use Rattle.std.specs.Prelude.{◌≡◌, ◌≤◌, ◌+◌, ◌^◌, false, [], OnOk, IfOk, IsTrue};
ghost use Rattle.file_vault.specs.Folders.{Bytes};
ghost use Rattle.file_vault.specs.Recoveries.{HasChain, HasFoundBatches, IsNextRecord, IsHeadAt, OnlyRead};

use crate::files::{FileFault, Files};
use crate::header::read_part;
use crate::journal::read_body;
use crate::layout::{HEADER, JOURNAL};
use crate::over_files::{LIMIT, decode_into};
use crate::record::{HEAD, Head, head_in, nonzero};
use std::alloc::{AllocError, Global};
use vault::{Batch, VaultError};

/// Records that were found.
#[derive(Drop)]
pub(crate) struct Chain {
    // Their places.
    pub(crate) places: Vec<u64>,
    // The place after them.
    pub(crate) end: u64,
    ghost end_is: { (4096 ≤ end) × (end ≤ 2 ^ 62) },
}

impl Chain {
    fn new(alloc: Global) -> Chain
        ensures places { result.places.items ≡ [] }
        ensures end { result.end ≡ 4096 }
    {
        Chain {
            places: Vec::new(alloc),
            end: HEADER,
        }
    }

    // Takes the record at the end, with a batch as long as this.
    fn push(&mut self, length: u64) -> Result<(), AllocError>
        requires { (self.old.end ≤ 2 ^ 60) × (length ≤ 2 ^ 60) }
        ensures more { (f : Bytes) → HasChain f self.old.places.items self.old.end → IsNextRecord f self.old.end length
            → OnOk result (HasChain f self.new.places.items self.new.end) }
        ensures end { OnOk result (self.new.end ≡ self.old.end + 18 + length) }
    {
        self.places.push(self.end)?;
        self.end += HEAD as u64 + length;
        Ok(())
    }
}

// Reads the head at a place; none where a byte of it can't be a head's.
fn read_head<F: Files>(files: &mut F, at: u64) -> Result<Option<Head>, FileFault>
    ensures read { F.known files.old → OnlyRead F.known F.seen F.may_leave F.moment F.left_since F.faults files.old files.new }
    ensures head { F.known files.old → IfOk result (λ found. IsHeadAt (F.seen files.old 17) at found) }
{
    let mut bytes = [0; HEAD];
    read_part(files, JOURNAL, at, &mut bytes)?;
    Ok(head_in(&bytes))
}

// Takes the record at the end of a chain, if that is whole.
fn take_next<F: Files>(
    files: &mut F,
    chain: &mut Chain,
    body: &mut Vec<u8>,
    batch: &mut Batch,
) -> Result<bool, VaultError>
    requires { chain.old.end ≤ 2 ^ 60 }
    ensures read { F.known files.old → OnlyRead F.known F.seen F.may_leave F.moment F.left_since F.faults files.old files.new }
    ensures more { F.known files.old → HasChain (F.seen files.old 17) chain.old.places.items chain.old.end
        → IfOk result (λ more. IsTrue more → HasChain (F.seen files.old 17) chain.new.places.items chain.new.end) }
    ensures last { F.known files.old → HasChain (F.seen files.old 17) chain.old.places.items chain.old.end
        → IfOk result (λ more. more ≡ false → HasFoundBatches (F.seen files.old 17) chain.new.places.items chain.new.end) }
    ensures grows { IfOk result (λ more. IsTrue more → (chain.old.end + 18 ≤ chain.new.end) × (chain.new.end ≤ 2 ^ 62)) }
{
    let Some(head) = read_head(files, chain.end)? else {
        return Ok(false);
    };
    if head.length > LIMIT {
        return Err(VaultError::Journal);
    }
    read_body(files, chain.end + HEAD as u64, head.length, body)?;
    if nonzero(body) as u64 != head.nonzero {
        return Ok(false);
    }
    decode_into(batch, body)?;
    chain.push(head.length)?;
    Ok(true)
}

// Finds the batches of the whole records.
pub(crate) fn find_chain<F: Files>(alloc: Global, files: &mut F) -> Result<Chain, VaultError>
    ensures read { F.known files.old → OnlyRead F.known F.seen F.may_leave F.moment F.left_since F.faults files.old files.new }
    ensures found { F.known files.old → IfOk result (λ chain. HasFoundBatches (F.seen files.old 17) chain.places.items chain.end) }
{
    let mut chain = Chain::new(alloc);
    let mut body = Vec::new(alloc);
    let mut batch = Batch::new(alloc);
    while chain.end < LIMIT {
        if !take_next(files, &mut chain, &mut body, &mut batch)? {
            return Ok(chain);
        }
    }
    Err(VaultError::Journal)
}
