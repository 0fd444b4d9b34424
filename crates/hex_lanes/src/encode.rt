//! Hex digits of bytes.
ghost use Rattle.std.specs.Prelude.{◌≡◌, ◌*◌, ◌<◌, length, map, slice_index, take, drop};
ghost use Rattle.std.specs.Simd.Lanes.{Each1};
ghost use Rattle.hex.specs.Hex.{encode_lower, lower_digits};
ghost use Rattle.hex_lanes.specs.Halves.{halves};

use crate::{STEP, WIDE};
use std::simd::prelude::*;

/// The digits of a half byte.
const DIGITS: [u8; 16] = *b"0123456789abcdef";

/// Puts the digits of the bytes, in lower case, into the buffer.
pub fn encode_hex(bytes: &[u8], out: &mut [u8])
    requires { length out.old ≡ 2 * length bytes.now }
    ensures { out.new ≡ encode_lower bytes.now }
{
    let turns = bytes.len() / WIDE;
    let steps = bytes.len() / STEP;
    for turn in 0..turns {
        let at = WIDE * turn;
        let (first, second) = halves_of_both(u8x16::from_slice(&bytes[at..]));
        digits_of(first).copy_to_slice(&mut out[2 * at..]);
        digits_of(second).copy_to_slice(&mut out[2 * at + WIDE..]);
    }
    // A turn is two steps. A buffer of less than a step goes digit by digit, since a vector would write past its end.
    for step in 2 * turns..steps {
        let at = STEP * step;
        let digits = digits_of(halves_of(u8x8::from_slice(&bytes[at..])));
        digits.copy_to_slice(&mut out[2 * at..]);
    }
    for at in STEP * steps..bytes.len() {
        out[2 * at] = DIGITS[usize::from(bytes[at] / 16)];
        out[2 * at + 1] = DIGITS[usize::from(bytes[at] % 16)];
    }
}

// The halves of each byte.
#[inline(always)]
fn halves_of(bytes: u8x8) -> u8x16
    ensures value { result ≡ halves bytes }
    ensures small { Each1 (λ half. half < 16) result }
{
    let highs = bytes >> u8x8::splat(4);
    let lows = bytes & u8x8::splat(15);
    highs.shuffle(lows, [0, 8, 1, 9, 2, 10, 3, 11, 4, 12, 5, 13, 6, 14, 7, 15])
}

// The halves of the first eight bytes, and those of the others.
#[inline(always)]
fn halves_of_both(bytes: u8x16) -> (u8x16, u8x16)
    ensures first { result.0 ≡ halves (take 8 bytes) }
    ensures second { result.1 ≡ halves (drop 8 bytes) }
    ensures small { Each1 (λ half. half < 16) result.0 × Each1 (λ half. half < 16) result.1 }
{
    let highs = bytes >> u8x16::splat(4);
    let lows = bytes & u8x16::splat(15);
    highs.interleave(lows)
}

// The digit of each half byte.
#[inline(always)]
fn digits_of(halves: u8x16) -> u8x16
    requires { Each1 (λ half. half < 16) halves }
    ensures { result ≡ map (λ half. slice_index lower_digits half) halves }
{
    u8x16::from_array(DIGITS).swizzle_dyn(halves)
}
