//! Sizes as words.
ghost use Rattle.std.specs.Prelude.{◌≡◌, ◌-◌, ◌^◌, ℕ, [], ◌∷◌, min, IfSome, IfNone};
ghost use Rattle.std.specs.Str.Parse.{IsNumeral, digits_value};
ghost use Rattle.disk_commands.specs.Sizes.{IsUnit, NamesSize};

// The bytes of the unit with this letter.
fn unit_of(letter: u8) -> Option<u64>
    ensures some { IfSome result (λ unit. IsUnit (letter ∷ []) unit) }
    ensures none { IfNone result ((unit : ℕ) → IsUnit (letter ∷ []) unit → ⊥) }
{
    match letter {
        b'K' => Some(1024),
        b'M' => Some(1024 * 1024),
        b'G' => Some(1024 * 1024 * 1024),
        _ => None,
    }
}

// The number that digits spell, and 2^64 - 1 for each one above; none where a byte is no digit, or there is none.
fn number_in(digits: &[u8]) -> Option<u64>
    ensures some { IfSome result (λ number. IsNumeral 10 digits.now × (number ≡ min (digits_value 10 digits.now) (2 ^ 64 - 1))) }
    ensures none { IfNone result (IsNumeral 10 digits.now → ⊥) }
{
    if digits.is_empty() {
        return None;
    }
    let mut number: u64 = 0;
    for at in 0..digits.len() {
        let byte = digits[at];
        if !byte.is_ascii_digit() {
            return None;
        }
        number = number
            .saturating_mul(10)
            .saturating_add(u64::from(byte - b'0'));
    }
    Some(number)
}

/// The bytes that a word names: digits, and K, M or G. 2^64 bytes or more count as one fewer: no disk is so large. None where it is no
/// such word.
pub fn size_in(word: &str) -> Option<u64>
    ensures some { IfSome result (NamesSize word.now) }
    ensures none { IfNone result ((size : ℕ) → NamesSize word.now size → ⊥) }
{
    let bytes = word.as_bytes();
    let Some(last) = bytes.len().checked_sub(1) else {
        return None;
    };
    match unit_of(bytes[last]) {
        Some(unit) => Some(number_in(&bytes[..last])?.saturating_mul(unit)),
        None => number_in(bytes),
    }
}
