// The digest of a unit at a place.
ghost use Rattle.std.specs.Prelude.{◌≡◌, ◌≤◌, ◌+◌, ◌*◌, length, get_or};
ghost use Rattle.unit_digest.specs.Digests.{digest, word};

use crate::sums::Sums;

/// Bytes of a digest.
pub const DIGEST_BYTES: usize = 32;

// The word of an index.
#[inline(always)]
fn word_at(unit: &[u8], index: usize) -> u32
    requires { 4 * index + 4 ≤ length unit.now }
    ensures { result ≡ word unit.now index }
{
    let at = 4 * index;
    u32::from_le_bytes([unit[at], unit[at + 1], unit[at + 2], unit[at + 3]])
}

// The byte at an offset; 0 past the end.
fn byte_at(unit: &[u8], at: usize) -> u8
    ensures { result ≡ get_or unit.now at 0 }
{
    match unit.get(at) {
        Some(byte) => *byte,
        None => 0,
    }
}

// The word of an index, with zeros past the end.
fn last_word(unit: &[u8], index: usize) -> u32
    requires { 4 * index ≤ length unit.now }
    ensures { result ≡ word unit.now index }
{
    let at = 4 * index;
    u32::from_le_bytes([
        byte_at(unit, at),
        byte_at(unit, at.saturating_add(1)),
        byte_at(unit, at.saturating_add(2)),
        byte_at(unit, at.saturating_add(3)),
    ])
}

/// The digest of a unit at an address of a drive: that of the same unit at another place differs. Where its length is no multiple of
/// 4, zeros are added to the unit.
#[tactic(auto, unfolding(crate::specs::Digests::digest))]
pub fn digest_of(drive: u8, address: u32, unit: &[u8]) -> [u8; DIGEST_BYTES]
    ensures digest { result ≡ digest drive address unit.now }
    ensures long { length result ≡ DIGEST_BYTES }
{
    let whole = unit.len() / 4;
    let mut sums = Sums::start(drive, address);
    for index in 0..whole {
        sums = sums.with_word(word_at(unit, index));
    }
    if 4 * whole < unit.len() {
        sums = sums.with_word(last_word(unit, whole));
    }
    sums.bytes()
}
