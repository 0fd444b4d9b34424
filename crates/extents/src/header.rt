// The header of a unit, 32 bytes, numbers with their highest byte first: mark `RBH2` (bytes 0 to 3), block (4 to 7), version
// (8 to 11), hop (12 and 13), slot number (14 and 15), kind (16: 0 data, 1 trim), zero (17 to 31). A blank header is all
// zero. Layout 1 is read, and never written: its mark is `RBH1`, bytes 16 to 31 are zero, and each of its records is data.
// Nothing rewrites such a unit alone, because that would break its row's parity.
ghost use Rattle.std.specs.Prelude.{◌≡◌, ◌-◌, ◌≤◌, ◌<◌, ◌↔◌, ◌⊎◌, IsTrue, IfOk, Some, length, take, drop, replicate};
ghost use Rattle.extents.specs.declared.shape.TheConstants.{HEADER_BYTES};
ghost use Rattle.extents.specs.declared.header.Kind.TheVariants as kind;
ghost use Rattle.extents.specs.Stamp.{first_mark, second_mark, kind_byte, stamped_bytes, SpellsRecord, ReportsKind};

use map_join::Record;

/// The mark of layout 1.
const FIRST_MARK: [u8; 4] = *b"RBH1";

/// The mark of layout 2.
const SECOND_MARK: [u8; 4] = *b"RBH2";

/// A blank header.
const ZEROS: [u8; 32] = [0; 32];

/// The byte at which the record begins.
const RECORD_AT: usize = 4;

/// The byte of the kind, after the record.
const KIND_AT: usize = 16;

/// The byte from which on layout 2 has zeros.
const REST_AT: usize = 17;

/// Whether a committed write put a payload, or trimmed its block.
#[derive(Clone, Copy, Debug, PartialEq, Eq)]
pub enum Kind {
    /// The block holds the unit's payload.
    Data = 0,
    /// The block is absent, as after a host's discard.
    Trim = 1,
}

impl Kind {
    /// The kind as byte 16 of a header.
    fn byte(self) -> u8
        ensures { result ≡ kind_byte self }
    {
        self as u8
    }
}

/// What the header of a unit says.
#[derive(Clone, Copy, Debug, PartialEq, Eq)]
pub enum Header {
    /// The unit's payload belongs to no committed record.
    Blank,
    /// The unit was committed with this record, as a write of this kind.
    Is(Record, Kind),
}

/// Why bytes are no header.
#[derive(Clone, Copy, Debug, PartialEq, Eq)]
pub enum HeaderFault {
    /// They are neither blank nor spell a record.
    BadHeader = 1,
}

impl HeaderFault {
    ghost use Rattle.extents.specs.Header.{fault_number};

    /// The fault's number.
    pub fn number(self) -> u8
        ensures { result ≡ fault_number self }
    {
        self as u8
    }
}

/// Whether all bytes are zero, without a branch for each.
fn are_zero(bytes: &[u8]) -> bool
    ensures { IsTrue result ↔ (bytes.now ≡ replicate (length bytes.now) 0) }
{
    let mut any = 0;
    for byte in bytes {
        any |= *byte;
    }
    any == 0
}

/// Whether all bytes of a header are zero.
fn is_blank(bytes: &[u8; 32]) -> bool
    ensures { IsTrue result ↔ (bytes.now ≡ replicate 32 0) }
{
    are_zero(bytes)
}

/// Whether the bytes begin with a mark.
fn begin_with(bytes: &[u8; 32], mark: &[u8; 4]) -> bool
    ensures { IsTrue result ↔ (take 4 bytes.now ≡ mark.now) }
{
    bytes[0] == mark[0] && bytes[1] == mark[1] && bytes[2] == mark[2] && bytes[3] == mark[3]
}

/// Whether the bytes from this one on are zero.
fn end_in_zeros(bytes: &[u8; 32], from: usize) -> bool
    requires { from ≤ 32 }
    ensures { IsTrue result ↔ (drop from bytes.now ≡ replicate (32 - from) 0) }
{
    are_zero(&bytes[from..])
}

/// Whether the bytes begin with the mark of either layout.
fn have_mark(bytes: &[u8; 32]) -> bool
    ensures { IsTrue result ↔ ((take 4 bytes.now ≡ second_mark) ⊎ (take 4 bytes.now ≡ first_mark)) }
{
    begin_with(bytes, &SECOND_MARK) || begin_with(bytes, &FIRST_MARK)
}

/// Whether the bytes around the record are those of a trim: layout 2's mark, the byte 1, and fifteen zeros.
fn are_trim(bytes: &[u8; 32]) -> bool
    ensures { IsTrue result ↔ ReportsKind bytes.now kind.Trim }
{
    bytes[KIND_AT] == 1 && begin_with(bytes, &SECOND_MARK) && end_in_zeros(bytes, REST_AT)
}

/// The kind that a header's mark and its bytes 16 to 31 spell; none where they are of neither layout. Sixteen zeros are
/// tested first: one vector's comparison settles all headers of data.
fn reported_kind(bytes: &[u8; 32]) -> Option<Kind>
    ensures { (kind : Kind) → (result ≡ Some kind) ↔ ReportsKind bytes.now kind }
{
    if end_in_zeros(bytes, KIND_AT) {
        return if have_mark(bytes) {
            Some(Kind::Data)
        } else {
            None
        };
    }
    if are_trim(bytes) {
        Some(Kind::Trim)
    } else {
        None
    }
}

/// The header of a record and its kind.
fn stamped(stamp: &Record, kind: Kind) -> [u8; 32]
    ensures bytes { result ≡ stamped_bytes stamp.now kind }
    ensures spelled { 0 < stamp.now.version → SpellsRecord result stamp.now × ReportsKind result kind }
{
    let mut bytes = ZEROS;
    bytes[KIND_AT] = kind.byte();
    bytes[..RECORD_AT].copy_from_slice(&SECOND_MARK);
    bytes[RECORD_AT..KIND_AT].copy_from_slice(&stamp.to_bytes());
    bytes
}

impl Header {
    ghost use Rattle.extents.specs.Header.{Spells, header_bytes, IsCommittable, record_in, kind_in};

    /// The record that the unit was committed with, if any.
    pub fn record(&self) -> Option<Record>
        ensures { result ≡ record_in self.now }
    {
        match self {
            Header::Blank => None,
            Header::Is(record, _) => Some(*record),
        }
    }

    /// How the unit's payload is read; data under a blank header.
    pub fn kind(&self) -> Kind
        ensures { result ≡ kind_in self.now }
    {
        match self {
            Header::Blank => Kind::Data,
            Header::Is(_, kind) => *kind,
        }
    }

    /// The kind of the header that the first 32 bytes spell, from byte 16 alone: for a reader that knows that they spell one.
    pub fn kind_at_front(unit: &[u8]) -> Kind
        requires { HEADER_BYTES ≤ length unit.now }
        ensures { (header : Header) → Spells (take HEADER_BYTES unit.now) header → result ≡ kind_in header }
    {
        match unit[KIND_AT] {
            1 => Kind::Trim,
            _ => Kind::Data,
        }
    }

    /// The 32 bytes of the header, in layout 2.
    pub fn encode(&self) -> [u8; 32]
        ensures bytes { result ≡ header_bytes self.now }
        ensures spelled { IsCommittable self.now → Spells result self.now }
    {
        match self {
            Header::Blank => ZEROS,
            Header::Is(record, kind) => stamped(record, *kind),
        }
    }

    /// The header that 32 bytes spell, in either layout; refused where they spell none. Inlined, since a scan decodes each
    /// slot's.
    #[inline(always)]
    pub fn decode(bytes: &[u8; 32]) -> Result<Header, HeaderFault>
        ensures ok { IfOk result (Spells bytes.now) }
        ensures only { (header : Header) → Spells bytes.now header → result ≡ Ok header }
    {
        // First, because a blank header has no mark, and would be refused as bad.
        if is_blank(bytes) {
            return Ok(Header::Blank);
        }
        let Some(kind) = reported_kind(bytes) else {
            return Err(HeaderFault::BadHeader);
        };
        match Record::of_bytes(&bytes[RECORD_AT..KIND_AT]) {
            Ok(record) => Ok(Header::Is(record, kind)),
            Err(_) => Err(HeaderFault::BadHeader),
        }
    }
}
