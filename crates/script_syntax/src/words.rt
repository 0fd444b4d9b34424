//! The words that follow a command's first one, read from the left.
ghost use Rattle.std.specs.Prelude.{◌≡◌, ◌↔◌, ◌≤◌, ◌++◌, ℕ, ◌∷◌, List, [], IfSome, IfNone, IsTrue, decimal, length, map, take};
ghost use Rattle.std.specs.List.{AllByRecursion};
ghost use Rattle.script_syntax.specs.Number.{IsWritable};
ghost use Rattle.script_syntax.specs.Parts.{text_of};
ghost use Rattle.script_syntax.specs.Words.{words_left};

use crate::number::cut_number;
use crate::parts::{SPACE, cut};

/// Puts the numbers of the first `count` words into the buffer, and returns the text after them. None if one of these words
/// is missing or is no number.
pub fn next_numbers<'a>(
    numbers: &mut [u64],
    count: usize,
    text: Option<&'a [u8]>,
) -> Option<Option<&'a [u8]>>
    requires { count ≤ length numbers.old }
    ensures some { IfSome result (λ rest. AllByRecursion IsWritable (take count numbers.new)
        × (words_left (text_of text.entry) ≡ map decimal (take count numbers.new) ++ words_left (text_of rest))) }
    ensures none { IfNone result ((ns : List ℕ) (rest : List (List ℕ)) → length ns ≡ count →
        AllByRecursion IsWritable ns → words_left (text_of text.entry) ≡ map decimal ns ++ rest → ⊥) }
{
    let mut rest = text;
    for place in 0..count {
        let Some(text) = rest else { return None };
        let Some((number, following)) = cut_number(text) else {
            return None
        };
        numbers[place] = number;
        rest = following;
    }
    Some(rest)
}

/// The remaining text, if it is exactly one word.
pub fn last_word(text: Option<&[u8]>) -> Option<&[u8]>
    ensures some { IfSome result (λ word. words_left (text_of text.entry) ≡ word.now ∷ []) }
    ensures none { IfNone result ((word : List ℕ) → words_left (text_of text.entry) ≡ word ∷ [] → ⊥) }
{
    let Some(text) = text else { return None };
    let (word, rest) = cut(text, SPACE);
    if !is_end(rest) {
        return None;
    }
    Some(word)
}

/// Whether no words remain. A space at the end of a line is followed by an empty word, so it isn't the end.
pub fn is_end(text: Option<&[u8]>) -> bool
    ensures { IsTrue result ↔ (words_left (text_of text.entry) ≡ []) }
{
    text.is_none()
}
