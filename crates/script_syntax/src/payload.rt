//! A payload, as a script writes it.
ghost use Rattle.std.specs.Prelude.{◌≡◌, ℕ, List, length, true, false};
ghost use Rattle.script_syntax.specs.Parts.{text_of};
ghost use Rattle.script_syntax.specs.Words.{words_left};
ghost use Rattle.script_syntax.specs.Spelling.{PayloadAlone};

use hex_lanes::decode_hex;

/// Decodes the remaining text into the buffer. Returns whether it is a payload in hex that fills the buffer exactly.
pub fn put_payload(text: Option<&[u8]>, payload: &mut [u8]) -> bool
    ensures put { result ≡ true → PayloadAlone payload.new (words_left (text_of text.entry)) }
    ensures none { result ≡ false → (bytes : List ℕ) → length bytes ≡ length payload.old →
        PayloadAlone bytes (words_left (text_of text.entry)) → ⊥ }
{
    let Some(digits) = text else { return false };
    // A space is no digit, so what decodes is one word.
    decode_hex(digits, payload)
}
