// Headers of units.
ghost use Rattle.std.specs.Prelude.{IfOk, IfErr};
ghost use Rattle.extents.specs.Header.{IsCommittable};
ghost use Rattle.raid_c.specs.Status.{Returns};
ghost use Rattle.raid_c.specs.Headers.{Decoded, DecodesHeader, EncodesHeader, IsNoHeader, ShowsHeader};

use crate::record::StampedRecord;
use crate::status::Status;
use extents::{Header, Kind};

/// The numbers of a header's kinds: blank, and then a write of data and a trim.
const BLANK: u32 = 0;

const DATA: u32 = 1;

const TRIM: u32 = 2;

/// A unit's header, as C sees it.
#[repr(C)]
#[derive(Clone, Copy)]
pub struct UnitHeader {
    /// 0 for a blank header, 1 for a write of data, 2 for a trim.
    pub kind: u32,
    /// What the unit was committed with; all zero in a blank header.
    pub record: StampedRecord,
}

impl UnitHeader {
    /// The header's kind and record.
    fn of(header: Header) -> UnitHeader
        ensures { Decoded result header }
    {
        match header {
            Header::Blank => UnitHeader {
                kind: BLANK,
                record: StampedRecord {
                    block: 0,
                    version: 0,
                    hop: 0,
                    place: 0,
                },
            },
            Header::Is(record, Kind::Data) => UnitHeader {
                kind: DATA,
                record: StampedRecord::of(record),
            },
            Header::Is(record, Kind::Trim) => UnitHeader {
                kind: TRIM,
                record: StampedRecord::of(record),
            },
        }
    }

    /// The header with this kind and record, if there is one.
    fn header(&self) -> Result<Header, Status>
        ensures ok { IfOk result (λ header. ShowsHeader self.now header × IsCommittable header) }
        ensures err { IfErr result (λ status. IsNoHeader status self.now) }
    {
        match self.kind {
            BLANK => Ok(Header::Blank),
            // No header has version 0: its bytes would decode as a bad one.
            DATA | TRIM if self.record.version == 0 => Err(Status::Version),
            DATA => Ok(Header::Is(self.record.record(), Kind::Data)),
            TRIM => Ok(Header::Is(self.record.record(), Kind::Trim)),
            _ => Err(Status::Range),
        }
    }
}

/// The header that 32 bytes spell, in either layout. NoHeader if they spell none: then `header` is unchanged.
#[unsafe(no_mangle)]
pub extern "C" fn behkuna_header_decode(bytes: &[u8; 32], header: &mut UnitHeader) -> u32
    ensures { Returns result (λ status. DecodesHeader status bytes.now header.old header.new) }
{
    match Header::decode(bytes) {
        Ok(spelled) => {
            *header = UnitHeader::of(spelled);
            Status::Done.number()
        }
        Err(_) => Status::NoHeader.number(),
    }
}

/// Writes the 32 bytes of a header in layout 2; of a blank one the record isn't read. Range if the kind is above 2; Version if
/// it is 1 or 2 and the record has version 0. With both, `bytes` is unchanged.
#[unsafe(no_mangle)]
pub extern "C" fn behkuna_header_encode(header: &UnitHeader, bytes: &mut [u8; 32]) -> u32
    ensures { Returns result (λ status. EncodesHeader status header.now bytes.old bytes.new) }
{
    match header.header() {
        Ok(header) => {
            *bytes = header.encode();
            Status::Done.number()
        }
        Err(status) => status.number(),
    }
}
