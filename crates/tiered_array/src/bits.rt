// Bits of words of 64, and of tables of such words.
ghost use Rattle.std.specs.Prelude.{◌*◌, ◌/◌, ◌<◌, length, slice_index};
ghost use Rattle.tiered_array.specs.Bits.{HasBitAt, IsLowestBit, IsBitSet, IsBitCleared};

/// Bits of a word.
pub(crate) const BITS: usize = 64;

// The lowest bit that the word has.
#[inline(always)]
pub(crate) fn lowest_bit(word: u64) -> Option<u32>
    ensures { IsLowestBit word result }
{
    if word == 0 {
        return None;
    }
    Some(word.trailing_zeros())
}

// Sets a bit.
#[inline(always)]
pub(crate) fn set_bit(words: &mut [u64], at: usize)
    requires { at < 64 * length words.old }
    ensures { IsBitSet words.old words.new at }
{
    words[at / BITS] |= 1 << (at % BITS);
}

// Clears a bit that is set, which makes its word smaller: by this a search that clears bits ends.
#[inline(always)]
pub(crate) fn clear_bit(words: &mut [u64], at: usize)
    requires inside { at < 64 * length words.old }
    requires there { HasBitAt words.old at }
    ensures taken { IsBitCleared words.old words.new at }
    ensures less { slice_index words.new (at / 64) < slice_index words.old (at / 64) }
{
    words[at / BITS] &= !(1 << (at % BITS));
}
