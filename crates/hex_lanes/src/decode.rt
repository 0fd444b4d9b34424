//! Bytes from hex digits.
ghost use Rattle.std.specs.Prelude.{◌≡◌, ◌<◌, ◌↔◌, ◌++◌, length, map, true, false, IsTrue, MatchResult};
ghost use Rattle.std.specs.Simd.Lanes.{Each1};
ghost use Rattle.hex.specs.Hex.{decode_sized};
ghost use Rattle.hex_lanes.specs.Halves.{joined_halves, value_or_more};

use crate::{STEP, WIDE};
use hex::decode_to_slice;
use std::simd::prelude::*;

/// Puts the bytes that the digits spell into the buffer, and returns true, if they fill it. Otherwise returns false, and the
/// buffer may hold any bytes.
pub fn decode_hex(digits: &[u8], out: &mut [u8]) -> bool
    ensures { MatchResult (decode_sized digits.now (length out.old))
        (λ bytes. (result ≡ true) × (out.new ≡ bytes))
        (λ e. result ≡ false) }
{
    if digits.len() % 2 != 0 || digits.len() / 2 != out.len() {
        return false;
    }
    let turns = out.len() / (2 * WIDE);
    let steps = out.len() / STEP;
    // The digits of all turns are tested once, after the loop, so that a turn has no branch: a byte that is no digit leaves its
    // lane at 16 or more, and nobody reads the bytes that were written.
    let mut greatest = u8x16::splat(0);
    for turn in 0..turns {
        let at = 2 * WIDE * turn;
        let first = values_of(u8x16::from_slice(&digits[2 * at..]));
        let second = values_of(u8x16::from_slice(&digits[2 * at + WIDE..]));
        let third = values_of(u8x16::from_slice(&digits[2 * at + 2 * WIDE..]));
        let fourth = values_of(u8x16::from_slice(&digits[2 * at + 3 * WIDE..]));
        let here = greatest_of(greatest_of(first, second), greatest_of(third, fourth));
        greatest = greatest_of(greatest, here);
        join_both(first, second).copy_to_slice(&mut out[at..]);
        join_both(third, fourth).copy_to_slice(&mut out[at + WIDE..]);
    }
    if !are_halves(greatest) {
        return false;
    }
    // A turn is four steps.
    for step in 4 * turns..steps {
        let at = STEP * step;
        let values = values_of(u8x16::from_slice(&digits[2 * at..]));
        if !are_halves(values) {
            return false;
        }
        join(values).copy_to_slice(&mut out[at..]);
    }
    let rest = STEP * steps;
    decode_to_slice(&digits[2 * rest..], &mut out[rest..]).is_ok()
}

// Whether each lane is a half byte.
#[inline(always)]
fn are_halves(values: u8x16) -> bool
    ensures { IsTrue result ↔ Each1 (λ value. value < 16) values }
{
    !values.simd_ge(u8x16::splat(16)).any()
}

// The greater value of each lane: all are half bytes where those of both are.
#[inline(always)]
fn greatest_of(first: u8x16, second: u8x16) -> u8x16
    ensures { Each1 (λ value. value < 16) result ↔ Each1 (λ value. value < 16) first × Each1 (λ value. value < 16) second }
{
    first.simd_max(second)
}

// The value of each digit, and 16 or more of what is none.
#[inline(always)]
fn values_of(digits: u8x16) -> u8x16
    ensures digits { Each1 (λ digit. value_or_more digit < 16) digits ↔ Each1 (λ value. value < 16) result }
    ensures values { Each1 (λ value. value < 16) result → result ≡ map value_or_more digits }
{
    // By the sum '0' to '9' are 246 to 255; what is less comes out as 16 or more.
    let decimal = (digits + u8x16::splat(198)).simd_max(u8x16::splat(6)) - u8x16::splat(246);
    // Without the bit of small letters 'A' to 'F' are 0 to 5, and all else is more: at most 249 with ten more.
    let capital = (digits & u8x16::splat(223)) - u8x16::splat(b'A');
    let letter = capital.simd_min(u8x16::splat(239)) + u8x16::splat(10);
    decimal.simd_min(letter)
}

// Each pair of half bytes as a byte.
#[inline(always)]
fn join(values: u8x16) -> u8x8
    requires { Each1 (λ value. value < 16) values }
    ensures { result ≡ joined_halves values }
{
    let highs: u8x8 = values.swizzle([0, 2, 4, 6, 8, 10, 12, 14]);
    let lows: u8x8 = values.swizzle([1, 3, 5, 7, 9, 11, 13, 15]);
    (highs << u8x8::splat(4)) + lows
}

// Each pair of half bytes of two vectors as a byte. Nothing is said of values that aren't half bytes.
#[inline(always)]
fn join_both(first: u8x16, second: u8x16) -> u8x16
    ensures { Each1 (λ value. value < 16) first → Each1 (λ value. value < 16) second → result ≡ joined_halves (first ++ second) }
{
    let (highs, lows) = first.deinterleave(second);
    (highs << u8x16::splat(4)) + lows
}
