// Payloads of bytes that are all different, for the tables' payloads, whose bytes are all the same.
//
// A table names a payload by a byte. Here byte i of the payload is that byte times 2 to the power i, in the field of 256
// elements whose polynomial is x^8 + x^4 + x^3 + x^2 + 1. 2 has the order 255 there, so up to 255 bytes of a payload are all
// different, except that a payload of 0 is zeros. At each place the product is one-to-one and linear over exclusive or. So a
// table's parity, translated byte by byte, is the parity of the translated units.
use crate::trouble::Trouble;
use extents::HEADER_BYTES;
use std::alloc::{AllocError, Global};

/// The polynomial without its highest power.
const POLYNOMIAL: u8 = 0x1D;

/// The highest bit of a byte.
const HIGH: u8 = 0x80;

/// The order of 2: this many doublings leave a byte as it was.
const ORDER: usize = 255;

/// What represents a trim among contents.
const TRIM: &str = "999";

// Twice a byte in the field.
fn doubled(byte: u8) -> u8 {
    let shifted = byte << 1;
    if byte & HIGH == 0 {
        shifted
    } else {
        shifted ^ POLYNOMIAL
    }
}

// A byte of the tables, translated at this place of a payload.
fn scaled(byte: u8, at: usize) -> u8 {
    let mut product = byte;
    for _doubling in 0..at % ORDER {
        product = doubled(product);
    }
    product
}

// Translates the bytes of a table's payload.
fn translate(payload: &mut [u8]) {
    for (at, byte) in payload.iter_mut().enumerate() {
        *byte = scaled(*byte, at);
    }
}

/// The payload of `length` bytes that the byte names.
pub(crate) fn payload_of(alloc: Global, byte: u8, length: u32) -> Result<Vec<u8>, AllocError> {
    let mut payload = vec![in alloc; byte; length as usize]?;
    translate(&mut payload);
    Ok(payload)
}

/// Whether the byte names the payload.
pub(crate) fn is_named(payload: &[u8], byte: u8) -> bool {
    payload
        .iter()
        .enumerate()
        .all(|(at, found)| *found == scaled(byte, at))
}

/// The number that names a payload, or a trim where there is none.
pub(crate) fn content_of(alloc: Global, payload: Option<&[u8]>) -> Result<String, AllocError> {
    let Some(payload) = payload else {
        return String::from_str(alloc, TRIM);
    };
    match payload.first() {
        Some(first) if is_named(payload, *first) => format!(in alloc; "{first}"),
        _ => String::from_str(alloc, "garbled"),
    }
}

/// The unit that a cell spells in hex digits, with its payload translated.
pub(crate) fn unit_of(alloc: Global, cell: &str) -> Result<Vec<u8>, Trouble> {
    let mut unit = match hex::decode(alloc, cell) {
        Ok(unit) => unit,
        Err(hex::FromHexError::OutOfMemory) => return Err(Trouble::Memory),
        Err(_) => return Err(Trouble::Form),
    };
    if unit.len() > HEADER_BYTES {
        translate(&mut unit[HEADER_BYTES..]);
    }
    Ok(unit)
}
