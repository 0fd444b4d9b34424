// An array put together again from its parts, their map and its claims.
ghost use Rattle.std.specs.Prelude.{ℕ};
ghost use Rattle.map_join.specs.Maps.{at};
ghost use Rattle.flat_machine.specs.Restarted.{HasDistinctSlots};
ghost use Rattle.unit_store.specs.Fit.{IsFit};
ghost use Rattle.unit_store.specs.Memory.{held_units};
ghost use Rattle.slot_tables.specs.Adopted.{IsKeptByMap};
ghost use Rattle.slot_tables.specs.Views.{kept_at};

use crate::asserts::check;
use crate::restarts::{is_as_written, written};
use crate::rig::{Memory, Rig};
use header_scan::scan;
use map_join::BlockMap;
use std::alloc::Global;
use std::process::Abort;
use step_core::{Array, MemDrive, NotAdopted, Plain};
use unit_store::Parts;

// The array's parts, the map that their headers hold, and its claims.
fn taken_apart(
    rt: &impl Abort,
    alloc: Global,
    array: Memory,
) -> (Parts<MemDrive>, BlockMap, Vec<Plain>)
    ensures fit { IsFit held_units result.0 }
    ensures places { HasDistinctSlots result.0.groups (at result.1) }
{
    let Ok((mut parts, claims)) = array.into_parts(alloc) else {
        rt.panic("not taken apart")
    };
    let Ok(map) = scan(alloc, &mut parts) else {
        rt.panic("no map")
    };
    (parts, map, claims)
}

// The array of parts, their map and exactly its claims.
fn put_together(
    rt: &impl Abort,
    alloc: Global,
    parts: Parts<MemDrive>,
    map: BlockMap,
    claims: Vec<Plain>,
) -> Memory
    requires fit { IsFit held_units parts }
    requires places { HasDistinctSlots parts.groups (at map) }
    ensures places { HasDistinctSlots result.parts.groups (at map) }
    ensures kept { (s : ℕ) → IsKeptByMap (at map) s (kept_at result s) }
{
    check!(rt; parts.note.is_none());
    let Ok((array, others)) = Array::adopt_among(alloc, parts, map, claims) else {
        rt.panic("not put together")
    };
    check!(rt; others.is_empty());
    array
}

// Takes the array apart and puts it together: the array, in which nothing is pending, and a second map of it.
fn adopted(rt: &impl Abort, alloc: Global, array: Memory) -> (Memory, BlockMap)
    ensures places { HasDistinctSlots result.0.parts.groups (at result.1) }
    ensures kept { (s : ℕ) → IsKeptByMap (at result.1) s (kept_at result.0 s) }
{
    let (parts, map, claims) = taken_apart(rt, alloc, array);
    let Ok(copy) = map.copied(alloc) else {
        rt.panic("no second map")
    };
    (put_together(rt, alloc, parts, map, claims), copy)
}

// Takes an array apart in which nothing is pending, and puts it together from all of its claims.
fn adopted_again(rt: &impl Abort, alloc: Global, array: Memory, map: BlockMap) -> Memory
    requires places { HasDistinctSlots array.parts.groups (at map) }
    requires kept { (s : ℕ) → IsKeptByMap (at map) s (kept_at array s) }
{
    let Ok((parts, claims)) = array.into_parts(alloc) else {
        rt.panic("not taken apart")
    };
    let Ok(array) = Array::adopt(alloc, parts, map, claims) else {
        rt.panic("not put together")
    };
    array
}

#[test]
fn parts_with_their_map_are_adopted(rt: HostRuntime) {
    let alloc = rt.alloc();
    let (array, _map) = adopted(&rt, alloc, written(&rt, alloc).array);
    check!(rt; is_as_written(&rt, &mut Rig { array, alloc }));
}

#[test]
fn an_array_at_rest_that_is_taken_apart_is_adopted(rt: HostRuntime) {
    let alloc = rt.alloc();
    let (array, map) = adopted(&rt, alloc, written(&rt, alloc).array);
    let array = adopted_again(&rt, alloc, array, map);
    check!(rt; is_as_written(&rt, &mut Rig { array, alloc }));
}

// Parts aren't put together without their last claim, which is of their lowest slot, and come back with it.
fn refused_without_last(
    rt: &impl Abort,
    alloc: Global,
    whole: (Parts<MemDrive>, BlockMap, Vec<Plain>),
    lowest: u16,
) -> (Parts<MemDrive>, BlockMap, Vec<Plain>)
    requires fit { IsFit held_units whole.0 }
    requires places { HasDistinctSlots whole.0.groups (at whole.1) }
    ensures fit { IsFit held_units result.0 }
    ensures places { HasDistinctSlots result.0.groups (at result.1) }
{
    let (parts, map, mut claims) = whole;
    let Some(last) = claims.pop() else {
        rt.panic("no claim")
    };
    check!(rt; parts.note.is_none());
    let Err((why, parts, map, mut claims)) = Array::adopt_among(alloc, parts, map, claims) else {
        rt.panic("put together without a claim")
    };
    check!(rt; why == NotAdopted::NoClaim(lowest));
    check!(rt; claims.as_slice() == [Plain { slot: 130 }, Plain { slot: 4 }].as_slice());
    check!(rt; claims.push(last).is_ok());
    (parts, map, claims)
}

// Takes the array apart, and puts it together first without its last claim, which is of its lowest slot, and then with it.
fn adopted_at_last(rt: &impl Abort, alloc: Global, array: Memory, lowest: u16) -> Memory {
    let whole = taken_apart(rt, alloc, array);
    let (parts, map, claims) = refused_without_last(rt, alloc, whole, lowest);
    put_together(rt, alloc, parts, map, claims)
}

#[test]
fn one_claim_too_few_hands_parts_map_and_claims_back(rt: HostRuntime) {
    let alloc = rt.alloc();
    let array = adopted_at_last(&rt, alloc, written(&rt, alloc).array, 2);
    check!(rt; is_as_written(&rt, &mut Rig { array, alloc }));
}
