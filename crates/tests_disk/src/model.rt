// A store of bytes beside a plain model of them.
ghost use Rattle.std.specs.Prelude.{◌+◌, ◌≤◌, IsTrue};

use crate::asserts::check;
use byte_store::ByteStore;
use std::alloc::Global;
use std::process::Abort;

/// The longest piece that is written.
pub(crate) const PIECE: usize = 130;

/// Whether a range lies within the bytes.
pub(crate) fn is_within(offset: usize, length: usize, size: u64) -> bool
    ensures { IsTrue result → offset + length ≤ size }
{
    let (offset, length) = (offset as u64, length as u64);
    offset <= size && length <= size - offset
}

/// A piece of bytes that all differ, by its first one.
pub(crate) fn piece_of(first: u8) -> [u8; PIECE] {
    let mut piece = [first; PIECE];
    for (byte, place) in piece.iter_mut().zip(0u8..PIECE as u8) {
        *byte = first ^ place;
    }
    piece
}

/// Puts bytes over those of the model.
pub(crate) fn set(rt: &impl Abort, model: &mut [u8], offset: usize, bytes: &[u8]) {
    check!(rt; is_within(offset, bytes.len(), model.len() as u64));
    model[offset..offset + bytes.len()].copy_from_slice(bytes);
}

/// Writes a piece to the store and the model.
pub(crate) fn write<S: ByteStore>(
    rt: &impl Abort,
    alloc: Global,
    store: &mut S,
    model: &mut [u8],
    (offset, length, first): (usize, usize, u8),
) {
    let piece = piece_of(first);
    check!(rt; length <= PIECE);
    let size = store.size();
    check!(rt; is_within(offset, length, size));
    let written = store.write(alloc, offset as u64, &piece[..length]);
    check!(rt; written.is_ok());
    set(rt, model, offset, &piece[..length]);
}

/// Makes bytes of the store and the model zero.
pub(crate) fn zero<S: ByteStore>(
    rt: &impl Abort,
    alloc: Global,
    store: &mut S,
    model: &mut [u8],
    (offset, length): (usize, usize),
) {
    check!(rt; length <= 1000);
    let size = store.size();
    check!(rt; is_within(offset, length, size));
    let zeroed = store.zero(alloc, offset as u64, length as u32);
    check!(rt; zeroed.is_ok());
    set(rt, model, offset, &[0; 1000][..length]);
}

/// Whether the store has the model's bytes.
pub(crate) fn agree<S: ByteStore>(rt: &impl Abort, store: &mut S, model: &[u8]) -> bool {
    let mut out = [7; 1000];
    check!(rt; model.len() <= 1000);
    let size = store.size();
    check!(rt; is_within(0, model.len(), size));
    let read = store.read(0, &mut out[..model.len()]);
    read.is_ok() && &out[..model.len()] == model
}
