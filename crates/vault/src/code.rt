// The numbers of a batch as bytes.
ghost use Rattle.std.specs.Prelude.{◌≡◌, ◌↔◌, ◌+◌, ◌*◌, ◌≤◌, ◌<◌, ◌^◌, ◌++◌, ℕ, length, drop, OnOk, IfSome, IfNone};
ghost use Rattle.vault.specs.Coding.{word, number as number_of};

use std::alloc::AllocError;

// Appends a number's eight bytes.
#[tactic(auto, unfolding(crate::specs::Coding::word))]
pub(crate) fn put_number(out: &mut Vec<u8>, number: usize) -> Result<(), AllocError>
    ensures { OnOk result (out.new.items ≡ out.old.items ++ word number) }
{
    out.extend_from_slice(&(number as u64).to_le_bytes())
}

// The number with which bytes begin.
#[tactic(auto, unfolding(crate::specs::Coding::number))]
pub(crate) fn number(bytes: &[u8]) -> usize
    requires { 8 ≤ length bytes.now }
    ensures { result ≡ number_of bytes.now }
{
    let mut word = [0; 8];
    word.copy_from_slice(&bytes[..8]);
    u64::from_le_bytes(word) as usize
}

// How many writes a batch has, by its bytes; none where the bytes are too few for them.
pub(crate) fn count_in(bytes: &[u8]) -> Option<usize>
    ensures some { IfSome result (λ count. (8 ≤ length bytes.now) × (count ≡ number_of bytes.now) × (8 + 32 * count ≤ length bytes.now)) }
    ensures none { IfNone result (8 ≤ length bytes.now → length bytes.now < 8 + 32 * number_of bytes.now) }
{
    if bytes.len() < 8 {
        return None;
    }
    let count = number(bytes);
    // By a division: 32 times a count that bytes spell may be past 64 bits.
    if count > (bytes.len() - 8) / 32 {
        return None;
    }
    Some(count)
}
