//! Digests of images and tables, by SHA-256.
ghost use Rattle.std.specs.Prelude.{◌≡◌, ◌++◌, OnOk, IfSome, Ok};
ghost use Rattle.hex.specs.Hex.{decode_of, encode_lower};
ghost use Rattle.sha2.specs.Sha256.{sha256};

use hex::{decode_to_slice, encode_to_slice};
use script_exec::put;
use sha2::{Digest, Sha256};
use std::alloc::AllocError;

/// The bytes of a digest.
pub(crate) const SUM_BYTES: usize = 32;

/// The digest of a file's bytes.
pub(crate) type Sum = [u8; SUM_BYTES];

/// The digest of these bytes.
pub(crate) fn sum_of(bytes: &[u8]) -> Sum
    ensures { result ≡ sha256 bytes.now }
{
    Sha256::digest(bytes)
}

/// The digest that a word of 64 hex digits spells, if it spells one.
pub(crate) fn sum_in(word: &[u8]) -> Option<Sum>
    ensures { IfSome result (λ sum. decode_of word.now ≡ Ok sum) }
{
    let mut sum = [0; SUM_BYTES];
    match decode_to_slice(word, &mut sum) {
        Ok(()) => Some(sum),
        Err(_) => None,
    }
}

/// Appends a digest in 64 hex digits.
pub(crate) fn put_sum(out: &mut Vec<u8>, sum: &Sum) -> Result<(), AllocError>
    ensures { OnOk result (out.new.items ≡ out.old.items ++ encode_lower sum.now) }
{
    let mut digits = [0; 2 * SUM_BYTES];
    match encode_to_slice(sum.as_slice(), &mut digits) {
        Ok(()) => put(out, &digits),
        // Doesn't come: there is room for two digits a byte.
        Err(_) => Err(AllocError),
    }
}
