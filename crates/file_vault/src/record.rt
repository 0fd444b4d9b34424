// A record of the journal: a head and a batch's bytes. The head has how many bytes the batch has, and how many of these aren't 0, in
// nine bytes each: seven bits in each, the lowest first, with 128 added. So no byte of it is 0, and a record of which a stop left
// bytes out, zeros in their place, is told from a whole one: a byte of its head is 0, or its batch has fewer that aren't.
ghost use Rattle.std.specs.Prelude.{◌≡◌, ◌≤◌, ◌-◌, ◌++◌, length, take, drop, true, false, OnOk, IfSome, IfNone};
ghost use Rattle.file_vault.specs.Records.{digits, from_digits, are_digits, nonzero, IsBatchRecord};

use std::alloc::AllocError;
use vault::Batch;

/// Bytes of a head.
pub(crate) const HEAD: usize = 18;

/// Bytes that are counted at once.
const PIECE: usize = 128;

/// The numbers of a head.
#[derive(Clone, Copy, Debug)]
pub(crate) struct Head {
    /// Bytes of the batch.
    pub(crate) length: u64,
    /// How many of them aren't 0.
    pub(crate) nonzero: u64,
}

// How many bytes of a piece aren't 0: counted in one byte, so that the processor counts many at once.
#[inline(always)]
fn nonzero_in_piece(bytes: &[u8]) -> usize
    requires { length bytes.now ≤ 128 }
    ensures { result ≡ nonzero bytes.now }
{
    let mut count = 0u8;
    for byte in bytes {
        count += (*byte != 0) as u8;
    }
    count as usize
}

// How many bytes aren't 0.
pub(crate) fn nonzero(bytes: &[u8]) -> usize
    ensures { result ≡ nonzero bytes.now }
{
    let whole = bytes.len() / PIECE;
    let mut count = 0;
    for piece in 0..whole {
        let at = PIECE * piece;
        count += nonzero_in_piece(&bytes[at..at + PIECE]);
    }
    count + nonzero_in_piece(&bytes[PIECE * whole..])
}

// Writes a number, in as many bytes as there are.
fn put_digits(out: &mut [u8], number: u64)
    ensures { out.new ≡ digits (length out.old) number }
{
    let mut rest = number;
    for digit in out.iter_mut() {
        *digit = 128 + (rest % 128) as u8;
        rest /= 128;
    }
}

// The number that nine bytes are; none if one of them is below 128.
fn number_in(bytes: &[u8]) -> Option<u64>
    requires { length bytes.now ≡ 9 }
    ensures some { IfSome result (λ number. (are_digits bytes.now ≡ true) × (number ≡ from_digits bytes.now)) }
    ensures none { IfNone result (are_digits bytes.now ≡ false) }
{
    let mut number = 0;
    for index in 0..9 {
        let byte = bytes[8 - index];
        if byte < 128 {
            return None;
        }
        number = number * 128 + (byte - 128) as u64;
    }
    Some(number)
}

// The numbers of a head; none if one of its bytes is below 128.
pub(crate) fn head_in(bytes: &[u8]) -> Option<Head>
    requires { length bytes.now ≡ 18 }
    ensures some { IfSome result (λ head. (are_digits bytes.now ≡ true)
        × (head.length ≡ from_digits (take 9 bytes.now)) × (head.nonzero ≡ from_digits (drop 9 bytes.now))) }
    ensures none { IfNone result (are_digits bytes.now ≡ false) }
{
    let length = number_in(&bytes[..9])?;
    let nonzero = number_in(&bytes[9..])?;
    Some(Head { length, nonzero })
}

// Writes the head of the batch's bytes that come after it.
fn put_head(bytes: &mut [u8])
    requires { 18 ≤ length bytes.old }
    ensures { bytes.new ≡ (digits 9 (length bytes.old - 18) ++ digits 9 (nonzero (drop 18 bytes.old))) ++ drop 18 bytes.old }
{
    let length = bytes.len() - HEAD;
    let count = nonzero(&bytes[HEAD..]);
    put_digits(&mut bytes[..9], length as u64);
    put_digits(&mut bytes[9..18], count as u64);
}

// Makes a batch's record. Needs memory alone.
pub(crate) fn make_record(bytes: &mut Vec<u8>, batch: &Batch) -> Result<(), AllocError>
    ensures { OnOk result (IsBatchRecord bytes.new.items batch.now) }
{
    bytes.clear();
    bytes.extend_from_slice(&[0; HEAD])?;
    batch.encode(bytes)?;
    put_head(bytes);
    Ok(())
}
