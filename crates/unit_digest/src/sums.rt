// Fletcher-4: four sums of 64 bits, each of the one before it, over words of 32 bits.
ghost use Rattle.std.specs.Prelude.{◌≡◌};
ghost use Rattle.unit_digest.specs.Digests.{first_sums as the_start, with_word as the_with_word, digest_bytes};

/// The sums over the first words of a unit.
#[derive(Clone, Copy)]
pub(crate) struct Sums {
    /// The sum of the words.
    pub(crate) first: u64,
    /// The sum of the first sums so far, and so on.
    pub(crate) second: u64,
    pub(crate) third: u64,
    pub(crate) fourth: u64,
}

impl Sums {
    /// The sums before the first word of a unit at a place.
    pub(crate) fn start(drive: u8, address: u32) -> Sums
        ensures { result ≡ the_start drive address }
    {
        // Not 0 at any place: so zeros are no unit with its digest.
        let place = (1 << 32) * drive as u64 + address as u64 + 1;
        Sums {
            first: place,
            second: 0,
            third: 0,
            fourth: 0,
        }
    }

    /// The sums with one word more.
    #[inline(always)]
    pub(crate) fn with_word(self, word: u32) -> Sums
        ensures { result ≡ the_with_word self word }
    {
        let first = self.first.wrapping_add(word as u64);
        let second = self.second.wrapping_add(first);
        let third = self.third.wrapping_add(second);
        let fourth = self.fourth.wrapping_add(third);
        Sums {
            first,
            second,
            third,
            fourth,
        }
    }

    /// The sums as bytes, eight each, the lowest first.
    pub(crate) fn bytes(self) -> [u8; 32]
        ensures { result ≡ digest_bytes self }
    {
        let mut bytes = [0; 32];
        bytes[..8].copy_from_slice(&self.first.to_le_bytes());
        bytes[8..16].copy_from_slice(&self.second.to_le_bytes());
        bytes[16..24].copy_from_slice(&self.third.to_le_bytes());
        bytes[24..].copy_from_slice(&self.fourth.to_le_bytes());
        bytes
    }
}
