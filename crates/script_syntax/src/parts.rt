//! Parts of a line between separators.
ghost use Rattle.std.specs.Prelude.{◌≡◌, ◌==◌, ◌∷◌, not};
ghost use Rattle.std.specs.List.{prefix_len};
ghost use Rattle.script_syntax.specs.Parts.{parts, parts_left, text_of};

use std::simd::prelude::*;

/// The separator between the words of a line.
pub const SPACE: u8 = b' ';

/// The separator between a drive and an extent.
pub const DOT: u8 = b'.';

/// How many leading bytes are compared in one step.
const LOOK: usize = 8;

/// The text before the first separator, and the text after it where there is one.
pub fn cut(text: &[u8], separator: u8) -> (&[u8], Option<&[u8]>)
    ensures { parts separator text.now ≡ result.0.now ∷ parts_left separator (text_of result.1) }
{
    // Words are short: the separator is mostly among the first bytes, which are compared in one step.
    if text.len() >= LOOK {
        let front = bytes_before(u8x8::from_slice(text), separator);
        if front < LOOK {
            return (&text[..front], Some(&text[front + 1..]));
        }
    }
    cut_far(text, separator)
}

// The text before the first separator, wherever it is, and the text after it where there is one. Kept out of line, since most
// words are cut without it.
#[inline(never)]
fn cut_far(text: &[u8], separator: u8) -> (&[u8], Option<&[u8]>)
    ensures { parts separator text.now ≡ result.0.now ∷ parts_left separator (text_of result.1) }
{
    for at in 0..text.len() {
        if text[at] == separator {
            return (&text[..at], Some(&text[at + 1..]));
        }
    }
    (text, None)
}

// How many bytes are before the first separator.
#[inline(always)]
fn bytes_before(bytes: u8x8, separator: u8) -> usize
    ensures { result ≡ prefix_len (λ byte. not (byte == separator)) bytes }
{
    let ends = bytes.simd_eq(u8x8::splat(separator)).to_bitmask();
    if ends == 0 {
        LOOK
    } else {
        ends.trailing_zeros() as usize
    }
}
