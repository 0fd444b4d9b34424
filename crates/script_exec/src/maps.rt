//! Commands on the four block maps. They leave the world as it is. Out of memory, the answer may be appended in part.
ghost use Rattle.std.specs.Prelude.{◌≡◌, ℕ, ◌<◌, ◌++◌, ◌∷◌, [], List, length, codes, OnOk, IfOk, Some, slice_index_or};
ghost use Rattle.map_join.specs.declared.records.Record.{Record};
ghost use Rattle.map_join.specs.Record.{record_at};
ghost use Rattle.map_join.specs.Maps.{at, IsDifference};
ghost use Rattle.flat_machine.specs.Flat.{put};
ghost use Rattle.script_exec.specs.Carrying.{AreMapsOf, Carries, IsMap};
ghost use Rattle.script_syntax.specs.Order as o;
ghost use Rattle.script_exec.specs.Text.{record_text};
ghost use Rattle.script_exec.specs.Prefix.{IsPrefix};

use crate::bench::Bench;
use crate::texts::{put, put_difference, put_listing, put_record};
use map_join::{BlockMap, MapRefusal, Record};
use std::alloc::{AllocError, Global};
use std::mem;

/// Takes a record into a map, and appends the map's record of that block. Out of memory, the map stays, or has the record if
/// only the answer failed.
pub fn take(
    alloc: Global,
    bench: &mut Bench,
    map: usize,
    record: Record,
    out: &mut Vec<u8>,
) -> Result<(), AllocError>
    requires written { 0 < «record».version }
    requires map { IsMap map }
    ensures carried { OnOk result (Carries bench.old bench.new (o.Take map «record») out.old.items out.new.items) }
    ensures kept { IsPrefix out.old.items out.new.items }
{
    let Ok(newest) = take_into(alloc, &mut bench.maps, map, record) else {
        return Err(AllocError)
    };
    put_took(out, &newest)
}

// Takes the record into one of the maps, and returns that map's newest record of the block. If out of memory, the map stays.
fn take_into(
    alloc: Global,
    maps: &mut [BlockMap],
    map: usize,
    record: Record,
) -> Result<Record, MapRefusal>
    requires written { 0 < «record».version }
    requires four { length maps.old ≡ 4 }
    requires map { IsMap map }
    ensures taken { OnOk result ((taken : ℕ → List Record) → AreMapsOf maps.old taken →
        AreMapsOf maps.new (put taken map (taken map ++ «record» ∷ []))) }
    ensures newest { IfOk result (λ newest.
        record_at «record».block (at (slice_index_or maps.new map []) «record».block) ≡ Some newest) }
{
    maps[map].take(alloc, record)?;
    Ok(maps[map].get(record.block).unwrap_or(record))
}

/// Merges one map into another. A map merged into itself stays as it is. Out of memory, the map may be joined with a part of
/// the other.
pub fn merge(
    alloc: Global,
    bench: &mut Bench,
    into: usize,
    from: usize,
    out: &mut Vec<u8>,
) -> Result<(), AllocError>
    requires into { IsMap into }
    requires from { IsMap from }
    ensures carried { OnOk result (Carries bench.old bench.new (o.Merge into from) out.old.items out.new.items) }
    ensures kept { IsPrefix out.old.items out.new.items }
{
    match join(alloc, &mut bench.maps, into, from) {
        Ok(()) => {}
        Err(_) => return Err(AllocError),
    }
    put(out, b"merged")
}

// Merges map `from` into map `into`. If out of memory, map `into` may be joined with a part of `from`.
fn join(alloc: Global, maps: &mut [BlockMap], into: usize, from: usize) -> Result<(), MapRefusal>
    requires four { length maps.old ≡ 4 }
    requires into { IsMap into }
    requires from { IsMap from }
    ensures { OnOk result ((taken : ℕ → List Record) → AreMapsOf maps.old taken →
        AreMapsOf maps.new (put taken into (taken into ++ taken from))) }
{
    // Else the map would be merged with the empty one that is left in its place.
    if into == from {
        return Ok(());
    }
    let mut joined = mem::replace(&mut maps[into], BlockMap::new(alloc));
    let merged = joined.merge(alloc, &maps[from]);
    // Before the result is looked at, so that a failed merge doesn't empty the map.
    maps[into] = joined;
    merged
}

/// Appends that two maps are the same, or the lowest block of which they have different keys.
pub fn same(
    bench: &mut Bench,
    left: usize,
    right: usize,
    out: &mut Vec<u8>,
) -> Result<(), AllocError>
    requires left { IsMap left }
    requires right { IsMap right }
    ensures carried { OnOk result (Carries bench.old bench.new (o.Same left right) out.old.items out.new.items) }
    ensures kept { IsPrefix out.old.items out.new.items }
{
    put_difference(out, difference(&bench.maps, left, right))
}

// The lowest block of which two of the maps have different keys.
fn difference(maps: &[BlockMap], left: usize, right: usize) -> Option<u32>
    requires four { length maps.now ≡ 4 }
    requires left { IsMap left }
    requires right { IsMap right }
    ensures { IsDifference (at (slice_index_or maps.now left [])) (at (slice_index_or maps.now right [])) result }
{
    maps[left].lowest_difference(&maps[right])
}

/// Lists a map's records.
pub fn show(
    alloc: Global,
    bench: &mut Bench,
    map: usize,
    out: &mut Vec<u8>,
) -> Result<(), AllocError>
    requires { IsMap map }
    ensures carried { OnOk result (Carries bench.old bench.new (o.Show map) out.old.items out.new.items) }
    ensures kept { IsPrefix out.old.items out.new.items }
{
    let Ok(records) = bench.maps[map].to_list(alloc) else {
        return Err(AllocError)
    };
    put_listing(out, b"map ", &records)
}

// The answer to a record that was taken.
fn put_took(out: &mut Vec<u8>, newest: &Record) -> Result<(), AllocError>
    ensures reported { OnOk result (out.new.items ≡ out.old.items ++ (codes "took " ++ record_text newest.now)) }
    ensures kept { IsPrefix out.old.items out.new.items }
{
    put(out, b"took ")?;
    put_record(out, newest)
}
