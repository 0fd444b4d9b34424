// A hash of block numbers for an `IndexMap`: one multiplication.
ghost use Rattle.std.specs.Prelude.{◌+◌, ◌*◌, ◌/◌, ◌%◌, ◌^◌, fold};

use std::hash::{BuildHasher, Hasher};

/// Starts a hash of a block number.
#[derive(Drop)]
pub(crate) struct ByNumber;

impl BuildHasher for ByNumber {
    type Hasher = NumberHash;

    ghost build_hasher = { λ _. record { 0 = 0 } };

    #[inline(always)]
    fn build_hasher(&self) -> NumberHash {
        NumberHash(0)
    }
}

/// The hash of the last number that was written to it: its low 16 bits are the number's, so that blocks in a row go to groups
/// in a row, and its top bits distinguish the blocks of one group.
#[derive(Drop)]
pub(crate) struct NumberHash(u32);

// An odd number in the top 16 bits, so that these differ for any two of 65,536 blocks, and 1, which keeps the low bits.
const SPREAD: u64 = 0x9e37_0000_0000_0001;

impl Hasher for NumberHash {
    ghost write = { λ _ bytes. record { 0 = fold (λ number byte. number / 256 + byte * 2 ^ 24) 0 bytes } };

    ghost finish = { λ hash. (hash.0 * 11400580981711699969) % 2 ^ 64 };

    #[inline(always)]
    fn finish(&self) -> u64 {
        u64::from(self.0).wrapping_mul(SPREAD)
    }

    #[inline(always)]
    fn write(&mut self, bytes: &[u8]) {
        let mut number = 0;
        for byte in bytes {
            number = number / 256 + u32::from(*byte) * 0x100_0000;
        }
        self.0 = number;
    }

    #[inline(always)]
    fn write_u32(&mut self, i: u32) {
        self.0 = i;
    }
}
