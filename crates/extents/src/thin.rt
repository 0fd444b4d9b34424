// The units of a drive in memory, of which only those that were written take memory.
ghost use Rattle.std.specs.Prelude.{◌≡◌, ◌+◌, ◌<◌, ◌≤◌, ◌++◌, ℕ, true, List, length, replicate, slice_get, slice_set, Some, take, drop, IfOk, vec_capacity};
ghost use Rattle.extents.specs.Units.{AreUnitsSized, HaveFront, fronts, zero_units};

use std::alloc::{AllocError, Global};
use std::marker::Model;

/// `count` units of `size` bytes. The memory for all of them is allocated at once, and a unit that was never written other than
/// as zeros touches none of it: the units that were lie next to each other, in the order of their first writes.
#[derive(Drop)]
pub struct ThinUnits {
    size: usize,
    count: u32,
    stored: u32,
    bytes: Vec<u8>,
    /// Which of the stored units each one is, counted from 1; 0 for a unit of zeros.
    places: Vec<u32>,
}

impl Model for ThinUnits {
    ghost use Rattle.std.specs.Prelude.{List, ℕ, vec_capacity};
    ghost use Rattle.extents.specs.Thin.{units_of, IsThin};

    ghost Value = { List (List ℕ) };

    ghost view = { λ u. units_of u.size u.stored u.bytes.items u.places.items };

    ghost invariant = { λ u. IsThin u.size u.count u.stored (vec_capacity u.bytes) u.bytes.items u.places.items };
}

impl ThinUnits {
    /// `count` units of zeros, `size` bytes each; refused if out of memory.
    pub fn new(alloc: Global, size: usize, count: u32) -> Result<ThinUnits, AllocError>
        requires { size ≤ 131072 }
        ensures { IfOk result (λ units. units ≡ zero_units size count) }
    {
        let places = vec![in alloc; 0; count as usize]?;
        // Room for all units at once, so that no write allocates.
        let bytes = Vec::with_capacity(alloc, count as usize * size)?;
        Ok(ThinUnits {
            size,
            count,
            stored: 0,
            bytes,
            places,
        })
    }

    /// Bytes of each unit.
    pub fn size(&self) -> usize
        ensures { AreUnitsSized result self.now }
    {
        self.size
    }

    /// How many units there are.
    pub fn count(&self) -> u32
        ensures { result ≡ length self.now }
    {
        self.count
    }

    /// Reads the first bytes of a unit, `front.len()` of them.
    pub fn read(&self, at: u32, front: &mut [u8])
        requires at { at < length self.now }
        requires size { HaveFront (length front.old) self.now }
        ensures { slice_get (fronts (length front.old) self.now) at ≡ Some front.new }
    {
        let place = self.places[at as usize];
        if place > 0 {
            load(&self.bytes, (place - 1) as usize * self.size, front);
        } else {
            front.fill(0);
        }
    }

    /// Writes a unit, given as `front` followed by `rest`. Inlined, so that a whole unit's write has no second copy.
    #[inline(always)]
    pub fn write(&mut self, at: u32, front: &[u8], rest: &[u8])
        requires at { at < length self.old }
        requires size { AreUnitsSized (length front.now + length rest.now) self.old }
        ensures { self.new ≡ slice_set self.old at (front.now ++ rest.now) }
    {
        let place = self.places[at as usize];
        if place > 0 {
            store(
                &mut self.bytes,
                (place - 1) as usize * self.size,
                front,
                rest,
            );
            return;
        }
        // An unwritten unit reads as zeros already, so it needs no place.
        if are_zeros(front) && are_zeros(rest) {
            return;
        }
        append(&mut self.bytes, front, rest);
        self.stored += 1;
        self.places[at as usize] = self.stored;
    }
}

/// Puts two pieces over the bytes from a place on.
fn store(bytes: &mut [u8], start: usize, front: &[u8], rest: &[u8])
    requires { start + (length front.now + length rest.now) ≤ length bytes.old }
    ensures { bytes.new ≡ take start bytes.old ++ ((front.now ++ rest.now) ++ drop (start + length (front.now ++ rest.now)) bytes.old) }
{
    put(bytes, start, front);
    put(bytes, start + front.len(), rest);
}

/// Puts a piece over the bytes from a place on.
fn put(bytes: &mut [u8], start: usize, piece: &[u8])
    requires { start + length piece.now ≤ length bytes.old }
    ensures { bytes.new ≡ take start bytes.old ++ (piece.now ++ drop (start + length piece.now) bytes.old) }
{
    bytes[start..start + piece.len()].copy_from_slice(piece);
}

/// Appends two pieces to the bytes, for which there is room.
fn append(bytes: &mut Vec<u8>, front: &[u8], rest: &[u8])
    requires { length bytes.old.items + (length front.now + length rest.now) ≤ vec_capacity bytes.old }
    ensures items { bytes.new.items ≡ bytes.old.items ++ (front.now ++ rest.now) }
    ensures capacity { vec_capacity bytes.old ≤ vec_capacity bytes.new }
{
    // With room for both no push allocates, so neither fails.
    if let Ok(()) = bytes.extend_from_slice(front) {
        let _ = bytes.extend_from_slice(rest);
    }
}

/// Reads the bytes from a place on, `front.len()` of them.
fn load(bytes: &[u8], start: usize, front: &mut [u8])
    requires { start + length front.old ≤ length bytes.now }
    ensures { front.new ≡ take (length front.old) (drop start bytes.now) }
{
    front.copy_from_slice(&bytes[start..start + front.len()]);
}

/// Whether all bytes are zero: the first is, and each equals the one before it. One comparison of two slices tests that.
fn are_zeros(bytes: &[u8]) -> bool
    ensures { result ≡ true → bytes.now ≡ replicate (length bytes.now) 0 }
{
    let count = bytes.len();
    if count == 0 {
        return true;
    }
    bytes[0] == 0 && bytes[..count - 1] == bytes[1..]
}
