// The newest record of one block in a list of records.
ghost use Rattle.std.specs.Prelude.{◌≡◌, ◌<◌, ◌≤◌, ◌++◌, ◌∷◌, [], List, IfOk, IfErr};
ghost use Rattle.map_join.specs.Record.{key_of};
ghost use Rattle.raid_c.specs.Status.{Returns};
ghost use Rattle.raid_c.specs.Lists.{AreRecords, IsNoList};
ghost use Rattle.raid_c.specs.Newest.{FindsNewest, IsNewest};

use crate::join::{RECORD, record_at};
use crate::record::StampedRecord;
use crate::status::Status;
use map_join::Record;

// The newest record of a block in a list that ends with this record, by the newest before it.
fn newer(block: u32, newest: Option<Record>, record: Record) -> Option<Record>
    ensures { (records : List Record) → IsNewest records block newest → IsNewest (records ++ «record» ∷ []) block result }
{
    if record.block != block {
        return newest;
    }
    match newest {
        Some(kept) => Some(later(kept, record)),
        None => Some(record),
    }
}

// The record of the greater key, the first where the keys are the same.
fn later(kept: Record, record: Record) -> Record
    ensures kept { key_of «record» ≤ key_of kept → result ≡ kept }
    ensures newer { key_of kept < key_of «record» → result ≡ «record» }
{
    if record.key() <= kept.key() {
        return kept;
    }
    record
}

// The newest record of a block in a list of records, if one has the block.
fn newest_of(records: &[u8], block: u32) -> Result<Option<Record>, Status>
    ensures ok { IfOk result (λ newest. (list : List Record) × AreRecords records.now list × IsNewest list block newest) }
    ensures err { IfErr result (λ status. IsNoList status records.now) }
{
    if records.len() % RECORD != 0 {
        return Err(Status::Length);
    }
    let mut newest = None;
    for index in 0..records.len() / RECORD {
        newest = newer(block, newest, record_at(records, index)?);
    }
    Ok(newest)
}

/// The newest record of a block in a list of records; allocates nothing. Absent if no record has the block; Length and Version
/// as of `behkuna_join`. Only Done changes `record`.
#[unsafe(no_mangle)]
pub extern "C" fn behkuna_newest(records: &[u8], block: u32, record: &mut StampedRecord) -> u32
    ensures { Returns result (λ status. FindsNewest status records.now block «record».old «record».new) }
{
    match newest_of(records, block) {
        Ok(Some(newest)) => {
            *record = StampedRecord::of(newest);
            Status::Done.number()
        }
        Ok(None) => Status::Absent.number(),
        Err(status) => status.number(),
    }
}
