// A record of a commit. Its key is `version * 2^32 + hop * 2^16 + place`; its twelve bytes are block
// (4), version (4), hop (2) and place (2), each with the highest byte first.
ghost use Rattle.std.specs.Prelude.{◌≡◌, IfOk, IfErr, ◌<◌, ℕ, ◌++◌, ◌^◌, Some};
ghost use Rattle.map_join.specs.Record.{IsRecord, Spells, record_bytes, key_of, record_at};
ghost use Rattle.byteorder.specs.Endian.{big_bytes};
ghost use Rattle.map_join.specs.Faults.{IsNoRecord};
ghost use Rattle.map_join.specs.Numbers.{fault_number};

use byteorder::{BigEndian, ByteOrder};

/// A commit of a block: its version (1 at its first write), the moves since that write, and the slot
/// that it was written to.
#[derive(Clone, Copy, Debug, PartialEq, Eq)]
pub struct Record {
    /// A block's number.
    pub block: u32,
    /// Counts the acknowledged writes of the block; no record has version 0.
    pub version: u32,
    /// Counts the moves of the block since that write.
    pub hop: u16,
    /// The slot's number: 128 times its group's, and its index there.
    pub place: u16,
}

/// Why bytes are no record.
#[derive(Clone, Copy, Debug, PartialEq, Eq)]
pub enum RecordFault {
    /// There aren't twelve bytes.
    Length,
    /// They spell version 0.
    ZeroVersion,
}

impl RecordFault {
    /// The fault's number: 1 for a length other than twelve bytes, 2 for version 0.
    pub fn number(&self) -> u8
        ensures { result ≡ fault_number self.now }
    {
        match self {
            RecordFault::Length => 1,
            RecordFault::ZeroVersion => 2,
        }
    }
}

/// The byte of a record at which its version begins.
const VERSION_AT: usize = 4;

/// The byte at which its hop begins.
const HOP_AT: usize = 8;

/// The byte at which its place begins.
const PLACE_AT: usize = 10;

/// Bytes of a record.
const RECORD_LEN: usize = 12;

/// The least key: that of version 1, hop 0 and place 0.
const LEAST_KEY: u64 = 0x1_0000_0000;

impl Record {
    /// The number by which records of one block are compared.
    pub fn key(&self) -> u64
        ensures value { result ≡ key_of self.now }
        ensures again { 0 < self.now.version → record_at self.now.block result ≡ Some self.now }
    {
        // The version is highest, because a write is newer than any move of an earlier write.
        (u64::from(self.version) << 32) + (u64::from(self.hop) << 16) + u64::from(self.place)
    }

    /// The record of a block that has this key; none if the key is below 2^32.
    pub fn of_key(block: u32, key: u64) -> Option<Record>
        ensures { result ≡ record_at block key }
    {
        // Its version would be 0, which no record has.
        if key < LEAST_KEY {
            return None;
        }
        Some(Record {
            block,
            version: (key >> 32) as u32,
            hop: ((key >> 16) % 0x1_0000) as u16,
            place: (key % 0x1_0000) as u16,
        })
    }

    /// The twelve bytes of the record.
    pub fn to_bytes(&self) -> [u8; 12]
        ensures value { result ≡ record_bytes self.now }
        ensures again { Spells result self.now }
    {
        spelled(self.block, self.version, self.hop, self.place)
    }

    /// The record that twelve bytes spell.
    pub fn of_bytes(bytes: &[u8]) -> Result<Record, RecordFault>
        ensures ok { IfOk result (λ r. Spells bytes.now r × (0 < r.version)) }
        ensures err { IfErr result (IsNoRecord bytes.now) }
    {
        // First, because the reads below need all twelve bytes.
        if bytes.len() != RECORD_LEN {
            return Err(RecordFault::Length);
        }
        let version = BigEndian::read_u32(&bytes[VERSION_AT..]);
        if version == 0 {
            return Err(RecordFault::ZeroVersion);
        }
        Ok(Record {
            block: BigEndian::read_u32(bytes),
            version,
            hop: BigEndian::read_u16(&bytes[HOP_AT..]),
            place: BigEndian::read_u16(&bytes[PLACE_AT..]),
        })
    }
}

fn spelled(block: u32, version: u32, hop: u16, place: u16) -> [u8; 12]
    ensures value { result ≡ big_bytes 4 block ++ (big_bytes 4 version ++ (big_bytes 2 hop ++ big_bytes 2 place)) }
    ensures ranges { (block < 2 ^ 32) × (version < 2 ^ 32) × (hop < 2 ^ 16) × (place < 2 ^ 16) }
{
    let mut bytes = [0; RECORD_LEN];
    BigEndian::write_u32(&mut bytes, block);
    BigEndian::write_u32(&mut bytes[VERSION_AT..], version);
    BigEndian::write_u16(&mut bytes[HOP_AT..], hop);
    BigEndian::write_u16(&mut bytes[PLACE_AT..], place);
    bytes
}
