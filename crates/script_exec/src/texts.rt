//! The texts of answers, appended to a buffer.
ghost use Rattle.std.specs.Prelude.{◌≡◌, ◌≢◌, ◌≤◌, ◌∷◌, ◌++◌, [], OnOk, codes, decimal, length, Some, None};
ghost use Rattle.hex.specs.Hex.{encode_lower};
ghost use Rattle.step_core.specs.Reported.{read_answer, flat_answer, seen_of};
ghost use Rattle.script_exec.specs.Text.{answer_text, data_text, detail, difference_text, fault_detail, fault_text, header_text};
ghost use Rattle.script_exec.specs.Text.{outcome_text, regrouped_text, shift_text, seen_text, listing, record_text};
ghost use Rattle.script_exec.specs.Prefix.{IsPrefix};
ghost use Rattle.flat_machine.specs.Steps as s;

use header_scan::ScanFault;
use hex_lanes::encode_hex;
use itoa::Buffer;
use map_join::Record;
use rebalancer::Shift;
use std::alloc::AllocError;
use step_core::{Answer, At, Refusal};
use tiered_array::{Outcome, Regrouped};

/// How many bytes are encoded in hex in one step.
const STEP: usize = 8;

/// The most bytes that are encoded aside, and appended by one call. Longer ones are encoded in place, which first fills the
/// output with zeros.
const MOST_SHORT: usize = 64;

/// The bytes of a record.
const RECORD_BYTES: usize = 12;

/// The bytes of a record, rounded up to whole steps.
const STEPPED_BYTES: usize = 16;

/// The digits of a record in hex.
const RECORD_DIGITS: usize = 24;

/// The bytes of the word before an emitted record, and a space.
const EMITTED_WORD: usize = 7;

/// Appends a text unchanged.
pub fn put(out: &mut Vec<u8>, text: &[u8]) -> Result<(), AllocError>
    ensures reported { OnOk result (out.new.items ≡ out.old.items ++ text.now) }
    ensures kept { IsPrefix out.old.items out.new.items }
{
    out.extend_from_slice(text)
}

/// Appends a number in decimal.
pub fn put_number(out: &mut Vec<u8>, number: u64) -> Result<(), AllocError>
    ensures reported { OnOk result (out.new.items ≡ out.old.items ++ decimal number) }
    ensures kept { IsPrefix out.old.items out.new.items }
{
    let mut buffer = Buffer::new();
    out.extend_from_slice(buffer.format(number).as_bytes())
}

/// Appends bytes in hex.
pub fn put_hex(out: &mut Vec<u8>, bytes: &[u8]) -> Result<(), AllocError>
    ensures reported { OnOk result (out.new.items ≡ out.old.items ++ encode_lower bytes.now) }
    ensures kept { IsPrefix out.old.items out.new.items }
{
    if bytes.len() == STEP {
        return put_step(out, bytes);
    }
    if bytes.len() <= MOST_SHORT {
        return put_short_hex(out, bytes);
    }
    let start = out.len();
    let Some(end) = start.checked_add(2 * bytes.len()) else {
        return Err(AllocError);
    };
    out.resize(end, 0)?;
    encode_hex(bytes, &mut out[start..]);
    Ok(())
}

// Appends one step of bytes in hex.
#[inline(always)]
fn put_step(out: &mut Vec<u8>, bytes: &[u8]) -> Result<(), AllocError>
    requires { length bytes.now ≡ 8 }
    ensures reported { OnOk result (out.new.items ≡ out.old.items ++ encode_lower bytes.now) }
    ensures kept { IsPrefix out.old.items out.new.items }
{
    let mut digits = [0; 2 * STEP];
    encode_hex(bytes, &mut digits);
    put(out, &digits)
}

// Appends a few bytes in hex, without filling the output with zeros first.
fn put_short_hex(out: &mut Vec<u8>, bytes: &[u8]) -> Result<(), AllocError>
    requires { length bytes.now ≤ 64 }
    ensures reported { OnOk result (out.new.items ≡ out.old.items ++ encode_lower bytes.now) }
    ensures kept { IsPrefix out.old.items out.new.items }
{
    let mut digits = [0; 2 * MOST_SHORT];
    let digits = &mut digits[..2 * bytes.len()];
    encode_hex(bytes, digits);
    put(out, digits)
}

/// Appends a record in hex.
pub fn put_record(out: &mut Vec<u8>, record: &Record) -> Result<(), AllocError>
    ensures reported { OnOk result (out.new.items ≡ out.old.items ++ record_text «record».now) }
    ensures kept { IsPrefix out.old.items out.new.items }
{
    // Two whole steps take less time than one and the digits of four single bytes.
    let mut bytes = [0; STEPPED_BYTES];
    bytes[..RECORD_BYTES].copy_from_slice(&record.to_bytes());
    let mut digits = [0; 2 * STEPPED_BYTES];
    encode_hex(&bytes, &mut digits);
    put(out, &digits[..RECORD_DIGITS])
}

// Appends a space and a record in hex by one call, since listings have thousands of records.
#[inline(always)]
fn put_listed(out: &mut Vec<u8>, record: &Record) -> Result<(), AllocError>
    ensures reported { OnOk result (out.new.items ≡ out.old.items ++ (32 ∷ record_text «record».now)) }
    ensures kept { IsPrefix out.old.items out.new.items }
{
    let mut bytes = [0; STEPPED_BYTES];
    bytes[..RECORD_BYTES].copy_from_slice(&record.to_bytes());
    let mut text = [b' '; 1 + 2 * STEPPED_BYTES];
    encode_hex(&bytes, &mut text[1..]);
    put(out, &text[..1 + RECORD_DIGITS])
}

/// Appends a word and a number in decimal.
pub fn put_numbered(out: &mut Vec<u8>, word: &[u8], number: u64) -> Result<(), AllocError>
    ensures reported { OnOk result (out.new.items ≡ out.old.items ++ (word.now ++ decimal number)) }
    ensures kept { IsPrefix out.old.items out.new.items }
{
    put(out, word)?;
    put_number(out, number)
}

// Appends a version and its payload in hex.
fn put_data(out: &mut Vec<u8>, version: u32, payload: &[u8]) -> Result<(), AllocError>
    ensures reported { OnOk result (out.new.items ≡ out.old.items ++ data_text version payload.now) }
    ensures kept { IsPrefix out.old.items out.new.items }
{
    put_version(out, version)?;
    put_hex(out, payload)
}

// Appends the word before a payload, a version and a space: by one call where the version has one digit, as most have.
fn put_version(out: &mut Vec<u8>, version: u32) -> Result<(), AllocError>
    ensures reported { OnOk result (out.new.items ≡ out.old.items ++ (codes "data " ++ (decimal version ++ (32 ∷ [])))) }
    ensures kept { IsPrefix out.old.items out.new.items }
{
    if version < 10 {
        let digit = b'0' + version as u8;
        return put(out, &[b'd', b'a', b't', b'a', b' ', digit, b' ']);
    }
    put_numbered(out, b"data ", u64::from(version))?;
    Ok(out.push(b' ')?)
}

/// Appends what a read of a block into a buffer returned.
pub fn put_found(
    out: &mut Vec<u8>,
    found: Result<Option<u32>, Refusal>,
    payload: &[u8],
) -> Result<(), AllocError>
    ensures reported { OnOk result (out.new.items ≡ out.old.items ++ answer_text 0 (read_answer found payload.now)) }
    ensures kept { IsPrefix out.old.items out.new.items }
{
    match found {
        Ok(Some(version)) => put_data(out, version, payload),
        Ok(None) => put(out, b"none"),
        Err(refusal) => put_refusal(out, &refusal),
    }
}

// Appends what was found at the place of a record of this version.
fn put_seen(out: &mut Vec<u8>, version: u32, seen: &At) -> Result<(), AllocError>
    ensures reported { OnOk result (out.new.items ≡ out.old.items ++ seen_text version (seen_of seen.now)) }
    ensures kept { IsPrefix out.old.items out.new.items }
{
    match seen {
        At::Data(payload) => put_data(out, version, payload),
        At::Trimmed => put_numbered(out, b"trimmed ", u64::from(version)),
        At::Stale(Some(header)) => put_header(out, header),
        At::Stale(None) => put(out, b"stale none"),
    }
}

// Appends the header that was found at a record's place instead of the record's own.
fn put_header(out: &mut Vec<u8>, header: &Record) -> Result<(), AllocError>
    ensures reported { OnOk result (out.new.items ≡ out.old.items ++ (codes "stale " ++ header_text header.now)) }
    ensures kept { IsPrefix out.old.items out.new.items }
{
    put_numbered(out, b"stale ", u64::from(header.block))?;
    put_numbered(out, b" ", u64::from(header.version))?;
    put_numbered(out, b" ", u64::from(header.hop))?;
    put_numbered(out, b" ", u64::from(header.place))
}

/// Appends the answer to a step. `asked` is the version that is printed with the content found at a record's place.
pub fn put_answer(out: &mut Vec<u8>, answer: &Answer, asked: u32) -> Result<(), AllocError>
    ensures reported { OnOk result (out.new.items ≡ out.old.items ++ answer_text asked (flat_answer answer.now)) }
    ensures kept { IsPrefix out.old.items out.new.items }
{
    match answer {
        Answer::Claimed(slot) => put_numbered(out, b"claimed ", u64::from(*slot)),
        Answer::Taken(slot) => put_numbered(out, b"taken ", u64::from(*slot)),
        Answer::Released(slot) => put_numbered(out, b"released ", u64::from(*slot)),
        Answer::NotHeld(slot) => put_numbered(out, b"notheld ", u64::from(*slot)),
        Answer::Filled(slot) => put_numbered(out, b"filled ", u64::from(*slot)),
        Answer::Copied(slot) => put_numbered(out, b"copied ", u64::from(*slot)),
        Answer::Committed(record) => put_emitted(out, record),
        Answer::Discarded(slot) => put_numbered(out, b"discarded ", u64::from(*slot)),
        Answer::Read(Some((version, payload))) => put_data(out, *version, payload),
        Answer::Read(None) => put(out, b"none"),
        Answer::Found(seen) => put_seen(out, asked, seen),
        Answer::Made(group) => put_numbered(out, b"made ", u64::from(*group)),
        Answer::Unmade(group) => put_numbered(out, b"unmade ", u64::from(*group)),
        Answer::Shifted => put(out, b"moved"),
        Answer::Added(drive) => put_numbered(out, b"added ", u64::from(*drive)),
        Answer::Lost(drive) => put_numbered(out, b"lost ", u64::from(*drive)),
        Answer::Refused(refusal) => put_refusal(out, refusal),
    }
}

/// Appends the outcome of a step by a plan.
pub fn put_outcome(out: &mut Vec<u8>, outcome: Outcome) -> Result<(), AllocError>
    ensures reported { OnOk result (out.new.items ≡ out.old.items ++ outcome_text outcome) }
    ensures kept { IsPrefix out.old.items out.new.items }
{
    match outcome {
        Outcome::Placed(record) => put_emitted(out, &record),
        Outcome::Refused(refusal) => put_refusal(out, &refusal),
        Outcome::NoRoom => put(out, b"noroom"),
        Outcome::Nothing => put(out, b"nothing"),
    }
}

/// Appends the outcome of a shift by a plan.
pub fn put_regrouped(out: &mut Vec<u8>, outcome: Regrouped) -> Result<(), AllocError>
    ensures reported { OnOk result (out.new.items ≡ out.old.items ++ regrouped_text outcome) }
    ensures kept { IsPrefix out.old.items out.new.items }
{
    match outcome {
        Regrouped::Moved(shift) => put_shift(out, shift),
        Regrouped::Refused(refusal) => put_refusal(out, &refusal),
        Regrouped::Nothing => put(out, b"nothing"),
    }
}

// Appends a shift: the group, the number of its member, and the extent that the member was moved onto.
fn put_shift(out: &mut Vec<u8>, shift: Shift) -> Result<(), AllocError>
    ensures reported { OnOk result (out.new.items ≡ out.old.items ++ shift_text shift) }
    ensures kept { IsPrefix out.old.items out.new.items }
{
    put_numbered(out, b"moved ", u64::from(shift.group))?;
    put_numbered(out, b" ", u64::from(shift.member))?;
    put_numbered(out, b" ", u64::from(shift.to.drive))?;
    put_numbered(out, b".", u64::from(shift.to.extent))
}

// Appends a record that was emitted.
fn put_emitted(out: &mut Vec<u8>, record: &Record) -> Result<(), AllocError>
    ensures reported { OnOk result (out.new.items ≡ out.old.items ++ answer_text 0 (s.Committed «record».now)) }
    ensures kept { IsPrefix out.old.items out.new.items }
{
    // By one call: a commit's answer is the record alone.
    let mut bytes = [0; STEPPED_BYTES];
    bytes[..RECORD_BYTES].copy_from_slice(&record.to_bytes());
    let mut text = *b"record                                 ";
    encode_hex(&bytes, &mut text[EMITTED_WORD..]);
    put(out, &text[..EMITTED_WORD + RECORD_DIGITS])
}

/// Appends a refusal: its number, and what it names.
fn put_refusal(out: &mut Vec<u8>, refusal: &Refusal) -> Result<(), AllocError>
    ensures reported { OnOk result (out.new.items ≡ out.old.items ++ answer_text 0 (s.Refused refusal.now)) }
    ensures kept { IsPrefix out.old.items out.new.items }
{
    put_numbered(out, b"refused ", u64::from(refusal.number()))?;
    put_detail(out, refusal)
}

// Appends the record, the slot or the drive that a refusal names.
fn put_detail(out: &mut Vec<u8>, refusal: &Refusal) -> Result<(), AllocError>
    ensures reported { OnOk result (out.new.items ≡ out.old.items ++ detail refusal.now) }
    ensures kept { IsPrefix out.old.items out.new.items }
{
    match refusal {
        Refusal::Outrun(record) | Refusal::Ahead(Some(record)) => {
            put(out, b" ")?;
            put_record(out, record)
        }
        Refusal::Ahead(None) => put(out, b" none"),
        Refusal::Gone(slot) | Refusal::SlotsHeld(slot) => put_numbered(out, b" ", u64::from(*slot)),
        Refusal::DriveLost(drive) => put_numbered(out, b" ", u64::from(*drive)),
        _ => Ok(()),
    }
}

/// Appends a scan's fault: its number, and what it names. Out of memory has no text: it is an `AllocError`.
pub fn put_fault(out: &mut Vec<u8>, fault: &ScanFault) -> Result<(), AllocError>
    ensures reported { OnOk result (out.new.items ≡ out.old.items ++ fault_text fault.now) }
    ensures memory { OnOk result (fault.now ≢ ScanFault.Memory) }
    ensures kept { IsPrefix out.old.items out.new.items }
{
    if let ScanFault::Memory = fault {
        return Err(AllocError);
    }
    put_numbered(out, b"scan fault ", u64::from(fault.number()))?;
    put_fault_detail(out, fault)
}

// Appends the slots and the block that a scan's fault names.
fn put_fault_detail(out: &mut Vec<u8>, fault: &ScanFault) -> Result<(), AllocError>
    ensures reported { OnOk result (out.new.items ≡ out.old.items ++ fault_detail fault.now) }
    ensures kept { IsPrefix out.old.items out.new.items }
{
    match fault {
        ScanFault::Memory => Ok(()),
        ScanFault::BadHeader(slot)
        | ScanFault::Gone(slot)
        | ScanFault::NoClaim(slot)
        | ScanFault::BadNote(slot) => { put_numbered(out, b" ", u64::from(*slot)) }
        ScanFault::WrongSlot(slot, reported) => {
            put_numbered(out, b" ", u64::from(*slot))?;
            put_numbered(out, b" ", u64::from(*reported))
        }
        ScanFault::Twice(block, first, second) => {
            put_numbered(out, b" ", u64::from(*block))?;
            put_numbered(out, b" ", u64::from(*first))?;
            put_numbered(out, b" ", u64::from(*second))
        }
    }
}

/// Appends the lowest block of which two maps differ, or that they are the same.
pub fn put_difference(out: &mut Vec<u8>, lowest: Option<u32>) -> Result<(), AllocError>
    ensures reported { OnOk result (out.new.items ≡ out.old.items ++ difference_text lowest) }
    ensures kept { IsPrefix out.old.items out.new.items }
{
    match lowest {
        None => put(out, b"same"),
        Some(block) => put_numbered(out, b"differs ", u64::from(block)),
    }
}

/// Appends a word, the number of records, and the records in hex.
pub fn put_listing(out: &mut Vec<u8>, word: &[u8], records: &[Record]) -> Result<(), AllocError>
    ensures reported { OnOk result (out.new.items ≡ out.old.items ++ (word.now ++ listing records.now)) }
    ensures kept { IsPrefix out.old.items out.new.items }
{
    put_numbered(out, word, records.len() as u64)?;
    for record in records {
        put_listed(out, record)?;
    }
    Ok(())
}
