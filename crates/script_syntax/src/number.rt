//! Numbers as a script writes them: `0`, or a digit 1 to 9 and at most nine digits more.
ghost use Rattle.std.specs.Prelude.{◌≡◌, ◌↔◌, ◌≤◌, ◌∷◌, [], ℕ, List, IfSome, IfNone, IsTrue, decimal, length, take};
ghost use Rattle.script_syntax.specs.Number.{IsNumeral, IsWritable};
ghost use Rattle.script_syntax.specs.Parts.{text_of};
ghost use Rattle.script_syntax.specs.Words.{words, words_left};

use crate::parts::SPACE;

/// The digit zero.
const ZERO: u64 = b'0' as u64;

/// The most digits of a number. One digit more fits into 64 bits, so reading a word never overflows.
const MOST_DIGITS: usize = 10;

/// The number that is the first word of the text, and the text after it where there is one.
#[inline(always)]
pub fn cut_number(text: &[u8]) -> Option<(u64, Option<&[u8]>)>
    ensures some { IfSome result (λ found. IsWritable found.0
        × (words text.now ≡ decimal found.0 ∷ words_left (text_of found.1))) }
    ensures none { IfNone result ((n : ℕ) (rest : List (List ℕ)) → IsWritable n →
        words text.now ≡ decimal n ∷ rest → ⊥) }
{
    // Most numbers are a worker's, of one digit, or a slot's or a block's, of three or four.
    if let Some((number, rest)) = first_of(text, 1) {
        return Some((number, Some(rest)));
    }
    if let Some(number) = only_of(text, 3) {
        return Some((number, None));
    }
    if let Some(number) = only_of(text, 4) {
        return Some((number, None));
    }
    if let Some((number, rest)) = first_of(text, 4) {
        return Some((number, Some(rest)));
    }
    cut_any(text)
}

// The number that is the first word, and the text after it, if the word is a number of `count` digits and not the last one.
#[inline(always)]
fn first_of(text: &[u8], count: usize) -> Option<(u64, &[u8])>
    requires { count ≤ 10 }
    ensures { IfSome result (λ found. IsWritable found.0 × (words text.now ≡ decimal found.0 ∷ words found.1.now)) }
{
    if text.len() <= count || text[count] != SPACE {
        return None;
    }
    let Some(number) = front_number(text, count) else {
        return None;
    };
    Some((number, &text[count + 1..]))
}

// The number that the text is, if it is one of `count` digits.
#[inline(always)]
fn only_of(text: &[u8], count: usize) -> Option<u64>
    requires { count ≤ 10 }
    ensures { IfSome result (λ n. IsWritable n × (words text.now ≡ decimal n ∷ [])) }
{
    if text.len() != count {
        return None;
    }
    front_number(text, count)
}

// The number that the first `count` bytes spell, if they spell one.
#[inline(always)]
fn front_number(text: &[u8], count: usize) -> Option<u64>
    requires inside { count ≤ length text.now }
    requires few { count ≤ 10 }
    ensures { IfSome result (λ n. IsWritable n × (take count text.now ≡ decimal n)) }
{
    let mut number: u64 = 0;
    for at in 0..count {
        // A byte below `0` wraps to a number above 9, so that one test finds all that is no digit.
        let digit = u64::from(text[at]).wrapping_sub(ZERO);
        if digit > 9 {
            return None;
        }
        number = 10 * number + digit;
    }
    if is_numeral(text, count) {
        Some(number)
    } else {
        None
    }
}

// The number that is the first word of the text, of any length, and the text after it where there is one. Kept out of line,
// since most numbers are read without it.
#[inline(never)]
fn cut_any(text: &[u8]) -> Option<(u64, Option<&[u8]>)>
    ensures some { IfSome result (λ found. IsWritable found.0
        × (words text.now ≡ decimal found.0 ∷ words_left (text_of found.1))) }
    ensures none { IfNone result ((n : ℕ) (rest : List (List ℕ)) → IsWritable n →
        words text.now ≡ decimal n ∷ rest → ⊥) }
{
    // One byte more than a number may have: it is the space after it, or shows that the word is too long.
    let most = text.len().min(MOST_DIGITS + 1);
    let mut number: u64 = 0;
    for at in 0..most {
        // A byte below `0` wraps to a number above 9, so that one test finds all that is no digit.
        let digit = u64::from(text[at]).wrapping_sub(ZERO);
        if digit > 9 {
            return if text[at] == SPACE && is_numeral(text, at) {
                Some((number, Some(&text[at + 1..])))
            } else {
                None
            };
        }
        number = 10 * number + digit;
    }
    if is_numeral(text, text.len()) {
        Some((number, None))
    } else {
        None
    }
}

// Whether `count` leading digits may be a number: 1 to 10 of them, and no zero leads two or more, so that each number has one
// spelling.
fn is_numeral(text: &[u8], count: usize) -> bool
    requires { count ≤ length text.now }
    ensures { IsTrue result ↔ IsNumeral text.now count }
{
    count == 1 || count > 1 && count <= MOST_DIGITS && text[0] != b'0'
}

/// The number that the word spells, if it spells one.
pub fn number_of(word: &[u8]) -> Option<u64>
    ensures some { IfSome result (λ n. IsWritable n × (word.now ≡ decimal n)) }
    ensures none { IfNone result ((n : ℕ) → IsWritable n → word.now ≡ decimal n → ⊥) }
{
    match cut_number(word) {
        Some((number, None)) => Some(number),
        Some((_, Some(_))) => None,
        None => None,
    }
}
