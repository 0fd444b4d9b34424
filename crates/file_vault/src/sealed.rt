// A unit with its digest after it, as it lies in a drive's file.
ghost use Rattle.std.specs.Prelude.{◌≡◌, ◌↔◌, IsTrue, ◌+◌, ◌++◌, length, take, drop, OnOk, IfOk, IfErr};
ghost use Rattle.unit_digest.specs.Digests.{digest};
ghost use Rattle.vault.specs.declared.store.VaultError.TheVariants.{Memory};
ghost use Rattle.file_vault.specs.Layouts.{size_of, offset_of, IsWholeOrRotten};

use crate::layout::Layout;
use extent_groups::Place;
use unit_digest::{DIGEST_BYTES, digest_of};
use vault::{UnitRead, VaultError};

// The offset of a unit.
fn offset_at(layout: &Layout, place: Place) -> Result<u64, VaultError>
    ensures at { IfOk result (λ at. at ≡ offset_of (size_of layout.now.unit_bytes layout.now.table_bytes place.drive) place.address) }
    ensures why { IfErr result (λ e. e ≡ Memory) }
{
    match layout.offset(place) {
        Some(offset) => Ok(offset),
        // No file is as long.
        None => Err(VaultError::Memory),
    }
}

// Makes bytes a unit and its digest, and returns their offset.
pub(crate) fn seal(
    layout: &Layout,
    bytes: &mut Vec<u8>,
    place: Place,
    unit: &[u8],
) -> Result<u64, VaultError>
    ensures at { IfOk result (λ at. at ≡ offset_of (size_of layout.now.unit_bytes layout.now.table_bytes place.drive) place.address) }
    ensures sealed { OnOk result (bytes.new.items ≡ unit.now ++ digest place.drive place.address unit.now) }
    ensures why { IfErr result (λ e. e ≡ Memory) }
{
    bytes.clear();
    bytes.extend_from_slice(unit)?;
    bytes.extend_from_slice(&digest_of(place.drive, place.address, unit))?;
    offset_at(layout, place)
}

// Makes room for a unit and its digest, and returns their offset.
pub(crate) fn make_room(
    layout: &Layout,
    bytes: &mut Vec<u8>,
    place: Place,
) -> Result<u64, VaultError>
    ensures at { IfOk result (λ at. at ≡ offset_of (size_of layout.now.unit_bytes layout.now.table_bytes place.drive) place.address) }
    ensures long { OnOk result (length bytes.new.items ≡ size_of layout.now.unit_bytes layout.now.table_bytes place.drive + 32) }
    ensures why { IfErr result (λ e. e ≡ Memory) }
{
    let length = layout.size(place.drive) as usize + DIGEST_BYTES;
    // What is there is written over, so that no more is filled than it must grow.
    bytes.truncate(length);
    bytes.resize(length, 0)?;
    offset_at(layout, place)
}

// Whether bytes are the digest of a unit.
fn is_digest(bytes: &[u8], place: Place, unit: &[u8]) -> bool
    ensures { IsTrue result ↔ (bytes.now ≡ digest place.drive place.address unit.now) }
{
    let digest = digest_of(place.drive, place.address, unit);
    bytes[..] == digest[..]
}

// Takes the unit out of bytes that end with its digest, and compares.
pub(crate) fn unseal(bytes: &[u8], place: Place, out: &mut [u8]) -> UnitRead
    requires { length bytes.now ≡ length out.old + 32 }
    ensures unit { out.new ≡ take (length out.old) bytes.now }
    ensures read { IsWholeOrRotten place.drive place.address (take (length out.old) bytes.now) (drop (length out.old) bytes.now) result }
{
    let size = out.len();
    out.copy_from_slice(&bytes[..size]);
    if is_digest(&bytes[size..], place, &bytes[..size]) {
        UnitRead::Whole
    } else {
        UnitRead::Rotten
    }
}
