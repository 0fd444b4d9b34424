// Records of commits.
ghost use Rattle.std.specs.Prelude.{◌≡◌};
ghost use Rattle.map_join.specs.Record.{key_of};
ghost use Rattle.raid_c.specs.Status.{Returns};
ghost use Rattle.raid_c.specs.Records.{as_record, DecodesRecord, EncodesRecord, HasRecordKey};

use crate::status::Status;
use map_join::{Record, RecordFault};

/// A record of a commit, as C sees it.
#[repr(C)]
#[derive(Clone, Copy)]
pub struct StampedRecord {
    /// A block's number.
    pub block: u32,
    /// Counts the acknowledged writes of the block; no record has version 0.
    pub version: u32,
    /// Counts the moves of the block since that write.
    pub hop: u16,
    /// The slot's number: 128 times its group's, and its index there.
    pub place: u16,
}

impl StampedRecord {
    /// The record with the same fields.
    pub(crate) fn record(&self) -> Record
        ensures { result ≡ as_record self.now }
    {
        Record {
            block: self.block,
            version: self.version,
            hop: self.hop,
            place: self.place,
        }
    }

    /// The fields of a record.
    pub(crate) fn of(record: Record) -> StampedRecord
        ensures { as_record result ≡ «record» }
    {
        StampedRecord {
            block: record.block,
            version: record.version,
            hop: record.hop,
            place: record.place,
        }
    }
}

/// Writes the twelve bytes of a record: block, version, hop and place, each with its highest byte first. Version if the record
/// has version 0: then `bytes` is unchanged.
#[unsafe(no_mangle)]
pub extern "C" fn behkuna_record_encode(record: &StampedRecord, bytes: &mut [u8; 12]) -> u32
    ensures { Returns result (λ status. EncodesRecord status «record».now bytes.old bytes.new) }
{
    // Else the bytes would be those of no record.
    if record.version == 0 {
        return Status::Version.number();
    }
    *bytes = record.record().to_bytes();
    Status::Done.number()
}

/// The record that twelve bytes spell. Length if there aren't twelve; Version if they spell version 0. With both, `record` is
/// unchanged.
#[unsafe(no_mangle)]
pub extern "C" fn behkuna_record_decode(bytes: &[u8], record: &mut StampedRecord) -> u32
    ensures { Returns result (λ status. DecodesRecord status bytes.now «record».old «record».new) }
{
    match Record::of_bytes(bytes) {
        Ok(spelled) => {
            *record = StampedRecord::of(spelled);
            Status::Done.number()
        }
        Err(RecordFault::Length) => Status::Length.number(),
        Err(RecordFault::ZeroVersion) => Status::Version.number(),
    }
}

/// The number by which records of one block are compared, the greater the newer: `version * 2^32 + hop * 2^16 + place`.
#[unsafe(no_mangle)]
pub extern "C" fn behkuna_record_key(record: &StampedRecord) -> u64
    ensures { result ≡ key_of (as_record «record».now) }
{
    record.record().key()
}

/// The record of a block that has this key. Version if the key is below 2^32: then `record` is unchanged.
#[unsafe(no_mangle)]
pub extern "C" fn behkuna_record_of_key(block: u32, key: u64, record: &mut StampedRecord) -> u32
    ensures { Returns result (λ status. HasRecordKey status block key «record».old «record».new) }
{
    match Record::of_key(block, key) {
        Some(found) => {
            *record = StampedRecord::of(found);
            Status::Done.number()
        }
        None => Status::Version.number(),
    }
}
