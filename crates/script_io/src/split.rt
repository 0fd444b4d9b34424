//! Where the lines of a text end.
ghost use Rattle.std.specs.Prelude.{◌≡◌, ◌==◌, ◌∷◌, ◌++◌, IfSome, IfNone, not};
ghost use Rattle.std.specs.List.{prefix_len};
ghost use Rattle.memchr.specs.Find.{IsFirstByte, is_byte};
ghost use Rattle.script_io.specs.Opens.{HasNoNewline};

use memchr::memchr;
use std::simd::prelude::*;

/// What ends a line.
const LINE_END: u8 = b'\n';

/// How many leading bytes are compared in one step.
const LOOK: usize = 32;

/// The bytes before the first line's end, and those after it.
pub fn split_line(text: &[u8]) -> Option<(&[u8], &[u8])>
    ensures some { IfSome result (λ parts. HasNoNewline parts.0.now × (text.now ≡ parts.0.now ++ 10 ∷ parts.1.now)) }
    ensures none { IfNone result (HasNoNewline text.now) }
{
    match line_end(text) {
        Some(at) => Some((&text[..at], &text[at + 1..])),
        None => None,
    }
}

// The first line's end. Most lines are short, so the first bytes are compared in one step before `memchr` is called.
fn line_end(text: &[u8]) -> Option<usize>
    ensures { IsFirstByte (is_byte 10) text.now result }
{
    if text.len() >= LOOK {
        let front = open_bytes(u8x32::from_slice(text));
        if front < LOOK {
            return Some(front);
        }
    }
    memchr(LINE_END, text)
}

// How many bytes are before the first line's end.
#[inline(always)]
fn open_bytes(bytes: u8x32) -> usize
    ensures { result ≡ prefix_len (λ byte. not (byte == 10)) bytes }
{
    let ends = bytes.simd_eq(u8x32::splat(LINE_END)).to_bitmask();
    if ends == 0 {
        LOOK
    } else {
        ends.trailing_zeros() as usize
    }
}
