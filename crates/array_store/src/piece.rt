// Which bytes of which block come next.
ghost use Rattle.std.specs.Prelude.{◌≡◌, ◌+◌, ◌*◌, ◌<◌, ◌≤◌};

// The bytes of one block that a request covers.
#[derive(Clone, Copy)]
pub(crate) struct Piece {
    /// The block.
    pub(crate) block: u32,
    /// The piece's first byte in the block.
    pub(crate) from: usize,
    /// Bytes of the piece.
    pub(crate) count: usize,
}

/// The piece at an offset, of at most `most` bytes, of blocks of `size` bytes.
#[tactic(auto, using(crate::proofs::Pieces::block_inside))]
pub(crate) fn piece_at(size: usize, blocks: u32, offset: u64, most: usize) -> Piece
    requires size { (0 < size) × (size ≤ 65536) }
    requires most { 0 < most }
    requires blocks { blocks ≤ 65536 }
    requires offset { offset < blocks * size }
    ensures block { result.block < blocks }
    ensures count { (0 < result.count) × (result.count ≤ most) × (result.from + result.count ≤ size) }
    ensures place { result.block * size + result.from ≡ offset }
{
    let from = (offset % size as u64) as usize;
    Piece {
        block: (offset / size as u64) as u32,
        from,
        count: (size - from).min(most),
    }
}
