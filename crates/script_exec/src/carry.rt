//! Carries out the commands after the first one, which makes the array.
ghost use Rattle.std.specs.Prelude.{◌≡◌, ◌↔◌, ◌<◌, ◌^◌, ℕ, List, IfOk, OnOk, IsTrue, length};
ghost use Rattle.slot_tables.specs.Views.{key_at};
ghost use Rattle.map_join.specs.Maps.{IsListOf};
ghost use Rattle.script_exec.specs.Carrying.{Carries};
ghost use Rattle.script_exec.specs.State.{IsMemberInRange, IsWithin};
ghost use Rattle.script_exec.specs.Prefix.{IsPrefix};
ghost use Rattle.script_syntax.specs.Order as o;
ghost use Rattle.script_syntax.specs.Order.{command_order};
ghost use Rattle.script_syntax.specs.Spelling.{IsVersioned};
ghost use Rattle.std.specs.List.{All};

use crate::bench::Bench;
use crate::limits::{
    LAST_DRIVE, LAST_GROUP, LAST_MAP, LAST_SLOT, LAST_WORKER, are_in_range, members_of,
};
use crate::maps::{merge, same, show, take};
use crate::scans::scan;
use crate::texts::{put_answer, put_found, put_listing, put_outcome, put_regrouped};
use map_join::Record;
use script_syntax::{Command, Named, Verb};
use std::alloc::{AllocError, Global};
use step_core::{Array, Class, Drive, Given, Hold};

/// Whether the numbers of a command and what follows them are within the limits, with `blocks` blocks.
pub fn is_in_range(command: &Command, blocks: u32) -> bool
    ensures { (bytes : List ℕ) → IsTrue result ↔ IsWithin blocks (command_order «command».now bytes) }
{
    let [first, second, third, ..] = command.numbers;
    match command.verb {
        Verb::Array
        | Verb::Map
        | Verb::Log
        | Verb::Scan
        | Verb::Restart
        | Verb::Add
        | Verb::Balance => true,
        Verb::Make => are_in_range(&command.members),
        Verb::Unmake => first <= LAST_WORKER && second <= LAST_GROUP,
        Verb::Claim | Verb::Release | Verb::Fill | Verb::Discard => {
            first <= LAST_WORKER && second <= LAST_SLOT
        }
        Verb::Copy | Verb::Commit => {
            first <= LAST_WORKER && second <= LAST_SLOT && third < u64::from(blocks)
        }
        Verb::Read => first < u64::from(blocks),
        Verb::At => command.record.block < blocks,
        Verb::Write | Verb::Trim => first <= LAST_WORKER && second < u64::from(blocks),
        Verb::Demote | Verb::Plug | Verb::Clean => first <= LAST_WORKER,
        Verb::Take => first <= LAST_MAP && command.record.block < blocks,
        Verb::Merge | Verb::Same => first <= LAST_MAP && second <= LAST_MAP,
        Verb::Show => first <= LAST_MAP,
        Verb::Rebuild | Verb::Lose => first <= LAST_DRIVE,
    }
}

/// Carries out a command that is within the limits, and appends its answer. `payload` holds the payload of a fill or a
/// write, and takes the payload of a block that is read. A restart is carried out by `restart`. Inlined, since one line calls it.
#[inline(always)]
pub fn carry_out(
    alloc: Global,
    bench: &mut Bench,
    payload: &mut [u8],
    command: &Command,
    out: &mut Vec<u8>,
) -> Result<(), AllocError>
    requires payload { length payload.old ≡ bench.old.tiers.world.array.parts.groups.payload }
    requires written { IsVersioned (command_order «command».now payload.old) }
    requires later { «command».now.verb ≡ Verb.Array → ⊥ }
    requires stays { «command».now.verb ≡ Verb.Restart → ⊥ }
    requires blocks { bench.old.tiers.world.array.parts.groups.blocks < 2 ^ 32 }
    requires range { IsWithin bench.old.tiers.world.array.parts.groups.blocks (command_order «command».now payload.old) }
    ensures carried { OnOk result (Carries bench.old bench.new (command_order «command».now payload.old) out.old.items out.new.items) }
    ensures kept { IsPrefix out.old.items out.new.items }
{
    let [first, second, third, ..] = command.numbers;
    match command.verb {
        // `reply` refuses the one, and carries out the other itself, since it needs the bench as a value.
        Verb::Array | Verb::Restart => unreachable!(),
        Verb::Make => make(alloc, bench, command.class, &command.members, out),
        Verb::Unmake => unmake(alloc, bench, first as u8, second as u16, out),
        Verb::Claim => claim(bench, first as u8, second as u16, out),
        Verb::Release => release(bench, first as u8, second as u16, out),
        Verb::Fill => fill(bench, first as u8, second as u16, payload, out),
        Verb::Copy => copy(bench, first as u8, second as u16, third as u32, out),
        Verb::Commit => commit(alloc, bench, first as u8, second as u16, third as u32, out),
        Verb::Discard => discard(bench, first as u8, second as u16, out),
        Verb::Add => add(alloc, bench, out),
        Verb::Balance => balance(bench, out),
        Verb::Rebuild => rebuild(bench, first as u8, out),
        Verb::Lose => lose(bench, first as u8, out),
        Verb::Read => read(bench, first as u32, payload, out),
        Verb::At => read_at(alloc, bench, command.record, out),
        Verb::Take => take(alloc, bench, first as usize, command.record, out),
        Verb::Merge => merge(alloc, bench, first as usize, second as usize, out),
        Verb::Same => same(bench, first as usize, second as usize, out),
        Verb::Show => show(alloc, bench, first as usize, out),
        Verb::Map => map(alloc, bench, out),
        Verb::Log => log(alloc, bench, out),
        Verb::Scan => scan(alloc, bench, out),
        Verb::Write => write(alloc, bench, second as u32, payload, out),
        Verb::Trim => trim(alloc, bench, second as u32, out),
        Verb::Demote => demote(alloc, bench, out),
        Verb::Plug => plug(alloc, bench, out),
        Verb::Clean => clean(alloc, bench, out),
    }
}

fn claim(bench: &mut Bench, worker: u8, slot: u16, out: &mut Vec<u8>) -> Result<(), AllocError>
    ensures carried { OnOk result (Carries bench.old bench.new (o.Claim worker slot) out.old.items out.new.items) }
    ensures kept { IsPrefix out.old.items out.new.items }
{
    let answer = bench.tiers.claim(worker, slot);
    put_answer(out, &answer, 0)
}

fn release(bench: &mut Bench, worker: u8, slot: u16, out: &mut Vec<u8>) -> Result<(), AllocError>
    ensures carried { OnOk result (Carries bench.old bench.new (o.Release worker slot) out.old.items out.new.items) }
    ensures kept { IsPrefix out.old.items out.new.items }
{
    let answer = bench.tiers.release(worker, slot);
    put_answer(out, &answer, 0)
}

fn fill(
    bench: &mut Bench,
    worker: u8,
    slot: u16,
    payload: &[u8],
    out: &mut Vec<u8>,
) -> Result<(), AllocError>
    requires payload { length payload.now ≡ bench.old.tiers.world.array.parts.groups.payload }
    ensures carried { OnOk result (Carries bench.old bench.new (o.Fill worker slot payload.now) out.old.items out.new.items) }
    ensures kept { IsPrefix out.old.items out.new.items }
{
    let answer = bench.tiers.fill(worker, slot, payload)?;
    put_answer(out, &answer, 0)
}

fn copy(
    bench: &mut Bench,
    worker: u8,
    slot: u16,
    block: u32,
    out: &mut Vec<u8>,
) -> Result<(), AllocError>
    requires block { block < bench.old.tiers.world.array.parts.groups.blocks }
    ensures carried { OnOk result (Carries bench.old bench.new (o.Copy worker slot block) out.old.items out.new.items) }
    ensures kept { IsPrefix out.old.items out.new.items }
{
    let answer = bench.tiers.copy(worker, slot, block)?;
    put_answer(out, &answer, 0)
}

fn commit(
    alloc: Global,
    bench: &mut Bench,
    worker: u8,
    slot: u16,
    block: u32,
    out: &mut Vec<u8>,
) -> Result<(), AllocError>
    requires block { block < bench.old.tiers.world.array.parts.groups.blocks }
    ensures carried { OnOk result (Carries bench.old bench.new (o.Commit worker slot block) out.old.items out.new.items) }
    ensures kept { IsPrefix out.old.items out.new.items }
{
    let answer = bench.tiers.commit(alloc, worker, slot, block)?;
    put_answer(out, &answer, 0)
}

fn discard(bench: &mut Bench, worker: u8, slot: u16, out: &mut Vec<u8>) -> Result<(), AllocError>
    ensures carried { OnOk result (Carries bench.old bench.new (o.Discard worker slot) out.old.items out.new.items) }
    ensures kept { IsPrefix out.old.items out.new.items }
{
    let answer = bench.tiers.discard(worker, slot);
    put_answer(out, &answer, 0)
}

fn lose(bench: &mut Bench, drive: u8, out: &mut Vec<u8>) -> Result<(), AllocError>
    ensures carried { OnOk result (Carries bench.old bench.new (o.Lose drive) out.old.items out.new.items) }
    ensures kept { IsPrefix out.old.items out.new.items }
{
    let answer = bench.tiers.lose(drive);
    put_answer(out, &answer, 0)
}

fn read_at(
    alloc: Global,
    bench: &mut Bench,
    record: Record,
    out: &mut Vec<u8>,
) -> Result<(), AllocError>
    requires { «record».block < bench.old.tiers.world.array.parts.groups.blocks }
    ensures carried { OnOk result (Carries bench.old bench.new (o.At «record») out.old.items out.new.items) }
    ensures kept { IsPrefix out.old.items out.new.items }
{
    let answer = bench.tiers.read_at(alloc, record)?;
    put_answer(out, &answer, record.version)
}

fn read(
    bench: &mut Bench,
    block: u32,
    payload: &mut [u8],
    out: &mut Vec<u8>,
) -> Result<(), AllocError>
    requires block { block < bench.old.tiers.world.array.parts.groups.blocks }
    requires payload { length payload.old ≡ bench.old.tiers.world.array.parts.groups.payload }
    ensures carried { OnOk result (Carries bench.old bench.new (o.Read block) out.old.items out.new.items) }
    ensures kept { IsPrefix out.old.items out.new.items }
{
    let found = bench.tiers.read_into(block, payload);
    put_found(out, found, payload)
}

fn make(
    alloc: Global,
    bench: &mut Bench,
    class: Class,
    named: &[Named],
    out: &mut Vec<u8>,
) -> Result<(), AllocError>
    requires { All IsMemberInRange named.now }
    ensures carried { OnOk result (Carries bench.old bench.new (o.Make class named.now) out.old.items out.new.items) }
    ensures kept { IsPrefix out.old.items out.new.items }
{
    let members = members_of(alloc, named)?;
    let answer = bench.tiers.make(alloc, class, &members)?;
    put_answer(out, &answer, 0)
}

fn unmake(
    alloc: Global,
    bench: &mut Bench,
    worker: u8,
    group: u16,
    out: &mut Vec<u8>,
) -> Result<(), AllocError>
    ensures carried { OnOk result (Carries bench.old bench.new (o.Unmake worker group) out.old.items out.new.items) }
    ensures kept { IsPrefix out.old.items out.new.items }
{
    let answer = bench.tiers.unmake(alloc, worker, group)?;
    put_answer(out, &answer, 0)
}

fn map(alloc: Global, bench: &mut Bench, out: &mut Vec<u8>) -> Result<(), AllocError>
    ensures carried { OnOk result (Carries bench.old bench.new o.Map out.old.items out.new.items) }
    ensures kept { IsPrefix out.old.items out.new.items }
{
    let records = newest_records(alloc, bench.tiers.world().array())?;
    put_listing(out, b"map ", &records)
}

// The newest record of each block that has one, in the blocks' order.
fn newest_records<D: Drive, C: Hold>(
    alloc: Global,
    array: &Array<D, C>,
) -> Result<Vec<Record>, AllocError>
    ensures { IfOk result (λ records. IsListOf (key_at array.now) records.items) }
{
    // For its clause, the array's invariant: it does nothing.
    array.whole();
    let mut records = Vec::new(alloc);
    // A block with a record has a live slot, so without live slots up to 65,536 lookups are spared.
    if are_zero(array.live_counts()) {
        return Ok(records);
    }
    for block in 0..array.shape().blocks {
        if let Some(record) = array.newest(block) {
            records.push(record)?;
        }
    }
    Ok(records)
}

// Whether all counts are 0.
fn are_zero(counts: &[u16]) -> bool
    ensures { IsTrue result ↔ All (λ count. count ≡ 0) counts.now }
{
    counts.iter().all(|count| *count == 0)
}

fn log(alloc: Global, bench: &mut Bench, out: &mut Vec<u8>) -> Result<(), AllocError>
    ensures carried { OnOk result (Carries bench.old bench.new o.Log out.old.items out.new.items) }
    ensures kept { IsPrefix out.old.items out.new.items }
{
    let Ok(records) = bench.tiers.world().array().records_from(alloc, 0) else {
        return Err(AllocError)
    };
    put_listing(out, b"log ", &records)
}

fn write(
    alloc: Global,
    bench: &mut Bench,
    block: u32,
    payload: &[u8],
    out: &mut Vec<u8>,
) -> Result<(), AllocError>
    requires block { block < bench.old.tiers.world.array.parts.groups.blocks }
    requires payload { length payload.now ≡ bench.old.tiers.world.array.parts.groups.payload }
    ensures carried { (w : ℕ) → OnOk result (Carries bench.old bench.new (o.Write w block payload.now) out.old.items out.new.items) }
    ensures kept { IsPrefix out.old.items out.new.items }
{
    let outcome = bench.tiers.write(alloc, block, Given::Payload(payload))?;
    put_outcome(out, outcome)
}

fn trim(alloc: Global, bench: &mut Bench, block: u32, out: &mut Vec<u8>) -> Result<(), AllocError>
    requires { block < bench.old.tiers.world.array.parts.groups.blocks }
    ensures carried { (w : ℕ) → OnOk result (Carries bench.old bench.new (o.Trim w block) out.old.items out.new.items) }
    ensures kept { IsPrefix out.old.items out.new.items }
{
    let outcome = bench.tiers.write(alloc, block, Given::Trim)?;
    put_outcome(out, outcome)
}

fn demote(alloc: Global, bench: &mut Bench, out: &mut Vec<u8>) -> Result<(), AllocError>
    ensures carried { (w : ℕ) → OnOk result (Carries bench.old bench.new (o.Demote w) out.old.items out.new.items) }
    ensures kept { IsPrefix out.old.items out.new.items }
{
    let outcome = bench.tiers.demote(alloc)?;
    put_outcome(out, outcome)
}

fn plug(alloc: Global, bench: &mut Bench, out: &mut Vec<u8>) -> Result<(), AllocError>
    ensures carried { (w : ℕ) → OnOk result (Carries bench.old bench.new (o.Plug w) out.old.items out.new.items) }
    ensures kept { IsPrefix out.old.items out.new.items }
{
    let outcome = bench.tiers.plug(alloc)?;
    put_outcome(out, outcome)
}

fn clean(alloc: Global, bench: &mut Bench, out: &mut Vec<u8>) -> Result<(), AllocError>
    ensures carried { (w : ℕ) → OnOk result (Carries bench.old bench.new (o.Clean w) out.old.items out.new.items) }
    ensures kept { IsPrefix out.old.items out.new.items }
{
    let outcome = bench.tiers.clean(alloc)?;
    put_outcome(out, outcome)
}

fn add(alloc: Global, bench: &mut Bench, out: &mut Vec<u8>) -> Result<(), AllocError>
    ensures carried { OnOk result (Carries bench.old bench.new o.Add out.old.items out.new.items) }
    ensures kept { IsPrefix out.old.items out.new.items }
{
    let answer = bench.tiers.add_drive(alloc)?;
    put_answer(out, &answer, 0)
}

fn balance(bench: &mut Bench, out: &mut Vec<u8>) -> Result<(), AllocError>
    ensures carried { OnOk result (Carries bench.old bench.new o.Balance out.old.items out.new.items) }
    ensures kept { IsPrefix out.old.items out.new.items }
{
    let outcome = bench.tiers.balance()?;
    put_regrouped(out, outcome)
}

fn rebuild(bench: &mut Bench, drive: u8, out: &mut Vec<u8>) -> Result<(), AllocError>
    ensures carried { OnOk result (Carries bench.old bench.new (o.Rebuild drive) out.old.items out.new.items) }
    ensures kept { IsPrefix out.old.items out.new.items }
{
    let outcome = bench.tiers.rebuild(drive)?;
    put_regrouped(out, outcome)
}
