// One block of an array: what it holds, and what becomes of it.
ghost use Rattle.std.specs.Prelude.{◌≡◌, ◌+◌, ◌*◌, ◌<◌, ◌≤◌, ℕ, List, length, replicate, OnOk, OnErr};
ghost use Rattle.slot_tables.specs.Views.{SameSizes};
ghost use Rattle.flat_machine.specs.Flat.{bytes_of};
ghost use Rattle.tiered_array.specs.Placing.{IsGivenFor, content_of};
ghost use Rattle.array_store.specs.Blocks.{Holds, IsBlockOf, IsPiece, IsPut};
ghost use Rattle.array_store.specs.Faults.{fault_of};
ghost use Rattle.array_store.specs.Stores.{Follows};
ghost use Rattle.byte_store.specs.Flat.{written_over};

use byte_store::StoreFault;
use extents::Drive;
use std::alloc::Global;
use step_core::{Given, Refusal};
use tiered_array::{Outcome, Tiers};

// A log of so many records isn't worth shortening.
const LEAST_RECORDS: usize = 4096;

// Why a write that is refused stores nothing.
fn fault_of(refusal: Refusal) -> StoreFault
    ensures { result ≡ fault_of refusal }
{
    match refusal {
        Refusal::Gone(_) => StoreFault::Gone,
        _ => StoreFault::NoSpace,
    }
}

// Reads a block: zeros where it was never written, or was trimmed.
fn read_block<D: Drive>(tiers: &mut Tiers<D>, block: u32, out: &mut [u8]) -> Result<(), StoreFault>
    requires block { block < tiers.old.world.array.parts.groups.blocks }
    requires size { length out.old ≡ tiers.old.world.array.parts.groups.payload }
    ensures read { OnOk result ((bytes : List ℕ) → Holds tiers.old bytes → IsBlockOf (length out.old) bytes block out.new) }
    ensures kept { (bytes : List ℕ) → Holds tiers.old bytes → Holds tiers.new bytes }
    ensures room { SameSizes tiers.old.world.array tiers.new.world.array }
    ensures stays { (bytes : List ℕ) → Holds tiers.old bytes → Follows tiers.old tiers.new }
{
    match tiers.read_into(block, out) {
        Ok(Some(_version)) => Ok(()),
        Ok(None) => {
            out.fill(0);
            Ok(())
        }
        Err(_) => Err(StoreFault::Gone),
    }
}

// Writes a block, or trims it.
fn put<D: Drive>(
    alloc: Global,
    tiers: &mut Tiers<D>,
    block: u32,
    given: Given,
) -> Result<(), StoreFault>
    requires block { block < tiers.old.world.array.parts.groups.blocks }
    requires given { IsGivenFor tiers.old.world.array.parts.groups.payload given }
    ensures put { OnOk result ((bytes new : List ℕ) → Holds tiers.old bytes
        → IsPut tiers.old.world.array.parts.groups.payload bytes block
        (bytes_of tiers.old.world.array.parts.groups.payload (content_of given.entry)) new
        → Holds tiers.new new) }
    ensures kept { OnErr result ((bytes : List ℕ) → Holds tiers.old bytes → Holds tiers.new bytes) }
    ensures room { SameSizes tiers.old.world.array tiers.new.world.array }
    ensures stays { (bytes : List ℕ) → Holds tiers.old bytes → Follows tiers.old tiers.new }
{
    match tiers.write_always(alloc, block, given) {
        Ok(Outcome::Placed(_record)) => Ok(()),
        Ok(Outcome::Refused(refusal)) => Err(fault_of(refusal)),
        Ok(Outcome::NoRoom) => Err(StoreFault::NoSpace),
        Ok(Outcome::Nothing) => Err(StoreFault::NoSpace),
        Err(_) => Err(StoreFault::Memory),
    }
}

/// Keeps a mirrored slot free, so that the next write needs no demotion.
pub(crate) fn make_spare<D: Drive>(alloc: Global, tiers: &mut Tiers<D>)
    ensures kept { (bytes : List ℕ) → Holds tiers.old bytes → Holds tiers.new bytes }
    ensures room { SameSizes tiers.old.world.array tiers.new.world.array }
    ensures stays { (bytes : List ℕ) → Holds tiers.old bytes → Follows tiers.old tiers.new }
{
    // Where no slot can be made free, or memory is out, the next write makes room or is refused.
    let _ = tiers.make_spare(alloc);
}

/// Shortens a log of more than four records for each block, and of some thousands at least.
#[tactic(auto, using(crate::proofs::Holding::follows_same))]
pub(crate) fn shorten_log<D: Drive>(alloc: Global, tiers: &mut Tiers<D>)
    ensures kept { (bytes : List ℕ) → Holds tiers.old bytes → Holds tiers.new bytes }
    ensures room { SameSizes tiers.old.world.array tiers.new.world.array }
    ensures stays { (bytes : List ℕ) → Holds tiers.old bytes → Follows tiers.old tiers.new }
{
    let array = tiers.world().array();
    let most = array.shape().blocks as usize * 4 + LEAST_RECORDS;
    if array.record_count() > most {
        // If memory is out, the log goes on to grow until a later call.
        let _ = tiers.shorten_log(alloc);
    }
}

/// Reads a piece of a block, from a byte of it on. The buffer has a block's length, and is overwritten. Refused where the block is gone.
pub(crate) fn read_piece<D: Drive>(
    tiers: &mut Tiers<D>,
    buffer: &mut [u8],
    block: u32,
    from: usize,
    out: &mut [u8],
) -> Result<(), StoreFault>
    requires block { block < tiers.old.world.array.parts.groups.blocks }
    requires size { length buffer.old ≡ tiers.old.world.array.parts.groups.payload }
    requires some { 0 < length buffer.old }
    requires inside { from + length out.old ≤ length buffer.old }
    ensures read { OnOk result ((bytes : List ℕ) → Holds tiers.old bytes
        → block * length buffer.old + from + length out.old ≤ length bytes
        → IsPiece bytes (block * length buffer.old + from) out.new) }
    ensures kept { (bytes : List ℕ) → Holds tiers.old bytes → Holds tiers.new bytes }
    ensures room { SameSizes tiers.old.world.array tiers.new.world.array }
    ensures stays { (bytes : List ℕ) → Holds tiers.old bytes → Follows tiers.old tiers.new }
{
    let count = out.len();
    if count == buffer.len() {
        return read_block(tiers, block, out);
    }
    read_block(tiers, block, buffer)?;
    out.copy_from_slice(&buffer[from..from + count]);
    Ok(())
}

/// Writes a piece of a block, from a byte of it on. The buffer has a block's length, and is overwritten.
pub(crate) fn write_piece<D: Drive>(
    alloc: Global,
    tiers: &mut Tiers<D>,
    buffer: &mut [u8],
    block: u32,
    from: usize,
    part: &[u8],
) -> Result<(), StoreFault>
    requires block { block < tiers.old.world.array.parts.groups.blocks }
    requires size { length buffer.old ≡ tiers.old.world.array.parts.groups.payload }
    requires some { 0 < length buffer.old }
    requires inside { from + length part.now ≤ length buffer.old }
    ensures put { OnOk result ((bytes : List ℕ) → Holds tiers.old bytes
        → block * length buffer.old + from + length part.now ≤ length bytes
        → Holds tiers.new (written_over bytes (block * length buffer.old + from) part.now)) }
    ensures kept { OnErr result ((bytes : List ℕ) → Holds tiers.old bytes → Holds tiers.new bytes) }
    ensures room { SameSizes tiers.old.world.array tiers.new.world.array }
    ensures stays { (bytes : List ℕ) → Holds tiers.old bytes → Follows tiers.old tiers.new }
{
    if part.len() == buffer.len() {
        return put(alloc, tiers, block, Given::Payload(part));
    }
    read_block(tiers, block, buffer)?;
    overlay(buffer, from, part);
    put(alloc, tiers, block, Given::Payload(buffer))
}

/// Makes a piece of a block zero, from a byte of it on. The buffer has a block's length, and is overwritten.
pub(crate) fn zero_piece<D: Drive>(
    alloc: Global,
    tiers: &mut Tiers<D>,
    buffer: &mut [u8],
    block: u32,
    from: usize,
    count: usize,
) -> Result<(), StoreFault>
    requires block { block < tiers.old.world.array.parts.groups.blocks }
    requires size { length buffer.old ≡ tiers.old.world.array.parts.groups.payload }
    requires some { 0 < length buffer.old }
    requires inside { from + count ≤ length buffer.old }
    ensures put { OnOk result ((bytes : List ℕ) → Holds tiers.old bytes
        → block * length buffer.old + from + count ≤ length bytes
        → Holds tiers.new (written_over bytes (block * length buffer.old + from) (replicate count 0))) }
    ensures kept { OnErr result ((bytes : List ℕ) → Holds tiers.old bytes → Holds tiers.new bytes) }
    ensures room { SameSizes tiers.old.world.array tiers.new.world.array }
    ensures stays { (bytes : List ℕ) → Holds tiers.old bytes → Follows tiers.old tiers.new }
{
    if count == buffer.len() {
        return put(alloc, tiers, block, Given::Trim);
    }
    read_block(tiers, block, buffer)?;
    clear(buffer, from, count);
    put(alloc, tiers, block, Given::Payload(buffer))
}

// Writes bytes over others.
fn overlay(held: &mut [u8], from: usize, part: &[u8])
    requires { from + length part.now ≤ length held.old }
    ensures { held.new ≡ written_over held.old from part.now }
{
    held[from..from + part.len()].copy_from_slice(part);
}

// Writes zeros over bytes.
fn clear(held: &mut [u8], from: usize, count: usize)
    requires { from + count ≤ length held.old }
    ensures { held.new ≡ written_over held.old from (replicate count 0) }
{
    held[from..from + count].fill(0);
}
