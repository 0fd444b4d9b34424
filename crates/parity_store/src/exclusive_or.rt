// The exclusive or of two or three runs of bytes: by lanes of 32 and of 8 bytes as far as these go, then byte by byte.
ghost use Rattle.std.specs.Prelude.{◌≡◌, length};
ghost use Rattle.extent_groups.specs.Units.{plus};

use std::simd::{u8x8, u8x32};

/// Bytes of one vector.
const LANES: usize = 32;

/// Bytes of one step after the vectors. A unit has whole steps, so no byte of it is left over.
const STEP: usize = 8;

/// Puts the exclusive or of both into the first, byte by byte.
pub fn xor_into(into: &mut [u8], from: &[u8])
    requires { length into.old ≡ length from.now }
    ensures { into.new ≡ plus into.old from.now }
{
    let whole = into.len() / LANES;
    for block in 0..whole {
        let at = LANES * block;
        let lanes = u8x32::from_slice(&into[at..]) ^ u8x32::from_slice(&from[at..]);
        lanes.copy_to_slice(&mut into[at..]);
    }
    // Four steps are a vector.
    let steps = into.len() / STEP;
    for step in 4 * whole..steps {
        let at = STEP * step;
        let lanes = u8x8::from_slice(&into[at..]) ^ u8x8::from_slice(&from[at..]);
        lanes.copy_to_slice(&mut into[at..]);
    }
    for i in STEP * steps..into.len() {
        into[i] ^= from[i];
    }
}

/// Puts the exclusive or of all three into the first, byte by byte, in one pass. Inlined into its one caller.
#[inline(always)]
pub(crate) fn xor_both_into(into: &mut [u8], one: &[u8], other: &[u8])
    requires one { length into.old ≡ length one.now }
    requires other { length into.old ≡ length other.now }
    ensures { into.new ≡ plus (plus into.old one.now) other.now }
{
    let whole = into.len() / LANES;
    for block in 0..whole {
        let at = LANES * block;
        let both = u8x32::from_slice(&one[at..]) ^ u8x32::from_slice(&other[at..]);
        let lanes = u8x32::from_slice(&into[at..]) ^ both;
        lanes.copy_to_slice(&mut into[at..]);
    }
    let steps = into.len() / STEP;
    for step in 4 * whole..steps {
        let at = STEP * step;
        let both = u8x8::from_slice(&one[at..]) ^ u8x8::from_slice(&other[at..]);
        let lanes = u8x8::from_slice(&into[at..]) ^ both;
        lanes.copy_to_slice(&mut into[at..]);
    }
    for i in STEP * steps..into.len() {
        into[i] ^= one[i] ^ other[i];
    }
}
