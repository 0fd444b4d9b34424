// A run of steps that goes on from where an allocation failed, and a restart from the parts that a failed call returns.
use crate::answers::are_answers;
use crate::case::{Case, Part};
use crate::runs::{answered, run, run_once};
use crate::slots::are_fit;
use crate::trouble::Trouble;
use header_scan::{ScanFault, restart, scan};
use map_join::BlockMap;
use std::alloc::Global;
use step_core::{Array, MemDrive, Plain, Stopped, World};
use unit_store::Parts;

/// An array of drives in memory, with plain claims.
pub(crate) type Memory = Array<MemDrive, Plain>;

/// How many answers a case had, and how many of its calls ran out of memory.
#[derive(Drop)]
pub(crate) struct Allocations {
    pub(crate) answers: usize,
    pub(crate) stops: u32,
}

/// Runs a case; at its line `--` the array is restarted from its drives, groups and claims.
pub(crate) fn run_case(alloc: Global, case: &Case<'_>) -> Result<Allocations, Trouble> {
    let mut stops = 0u32;
    let world = run_on(alloc, case.world(alloc)?, &case.before, &mut stops)?;
    let world = afresh(alloc, world, &mut stops)?;
    run_on(alloc, world, &case.following, &mut stops)?;
    Ok(Allocations {
        answers: case
            .before
            .steps
            .len()
            .saturating_add(case.following.steps.len()),
        stops,
    })
}

// Counts a call that ran out of memory.
fn count(stops: &mut u32) {
    *stops = stops.saturating_add(1);
}

// Runs a world over steps, and compares its answers with the file's: others are `Wrong`. If it stopped out of memory, that is counted, and
// it goes on from there. One allocation fails in a run, so the rest has to come to its end.
fn run_on(alloc: Global, world: World, part: &Part<'_>, stops: &mut u32) -> Result<World, Trouble> {
    match run_once(alloc, world, &part.steps)? {
        Ok(run) => answered(run, &part.expected),
        Err(stopped) => {
            count(stops);
            go_on(alloc, stopped, part)
        }
    }
}

// Compares the answers before the stop, and runs the rest of the steps.
fn go_on(alloc: Global, stopped: Stopped, part: &Part<'_>) -> Result<World, Trouble> {
    let steps = part.steps.get(stopped.at..).ok_or(Trouble::Wrong)?;
    let (done, left) = part
        .expected
        .split_at_checked(stopped.at)
        .ok_or(Trouble::Wrong)?;
    if !are_answers(done, &stopped.answers) {
        return Err(Trouble::Wrong);
    }
    run(alloc, stopped.world, steps, left)
}

// Takes a world apart and rebuilds it, with each call repeated once after it was out of memory. The map of the headers is the
// running map before and after. A call that failed returns what it took, else there would be nothing to repeat it with.
fn afresh(alloc: Global, world: World, stops: &mut u32) -> Result<World, Trouble> {
    let array = world.into_array();
    let before = map_of(alloc, &array)?;
    let array = remade(alloc, array, &before, stops)?;
    if !map_of(alloc, &array)?.agrees(&before) {
        return Err(Trouble::Wrong);
    }
    housed(alloc, array, stops)
}

fn remade(
    alloc: Global,
    array: Memory,
    before: &BlockMap,
    stops: &mut u32,
) -> Result<Memory, Trouble> {
    let (mut parts, claims) = apart(alloc, array, stops)?;
    if !is_map(scan_again(alloc, &mut parts, stops), before)? {
        return Err(Trouble::Wrong);
    }
    made(alloc, parts, claims, stops)
}

fn scan_again(
    alloc: Global,
    parts: &mut Parts<MemDrive>,
    stops: &mut u32,
) -> Result<BlockMap, ScanFault> {
    match scan_fit(alloc, parts) {
        Err(ScanFault::Memory) => {
            count(stops);
            scan_fit(alloc, parts)
        }
        scanned => scanned,
    }
}

// Scans parts that fit one another. For parts that don't it returns slot 0 as gone.
fn scan_fit(alloc: Global, parts: &mut Parts<MemDrive>) -> Result<BlockMap, ScanFault> {
    if !are_fit(parts) {
        return Err(ScanFault::Gone(0));
    }
    scan(alloc, parts)
}

/// The running map of an array.
pub(crate) fn map_of(alloc: Global, array: &Memory) -> Result<BlockMap, Trouble> {
    array.map(alloc).ok().ok_or(Trouble::Memory)
}

fn is_map(scanned: Result<BlockMap, ScanFault>, expected: &BlockMap) -> Result<bool, Trouble> {
    match scanned {
        Ok(map) => Ok(map.agrees(expected)),
        Err(ScanFault::Memory) => Err(Trouble::Memory),
        Err(_) => Ok(false),
    }
}

type Taken = (Parts<MemDrive>, Vec<Plain>);

fn apart(alloc: Global, array: Memory, stops: &mut u32) -> Result<Taken, Trouble> {
    let array = match array.into_parts(alloc) {
        Ok(taken) => return Ok(taken),
        Err(array) => array,
    };
    count(stops);
    match array.into_parts(alloc) {
        Ok(taken) => Ok(taken),
        Err(_) => Err(Trouble::Memory),
    }
}

fn made(
    alloc: Global,
    parts: Parts<MemDrive>,
    claims: Vec<Plain>,
    stops: &mut u32,
) -> Result<Memory, Trouble> {
    let (parts, claims) = match made_once(alloc, parts, claims)? {
        Ok(array) => return Ok(array),
        Err(back) => back,
    };
    count(stops);
    match made_once(alloc, parts, claims)? {
        Ok(array) => Ok(array),
        Err(_) => Err(Trouble::Memory),
    }
}

// Restarts an array from parts and claims. If out of memory, both are returned.
fn made_once(
    alloc: Global,
    parts: Parts<MemDrive>,
    claims: Vec<Plain>,
) -> Result<Result<Memory, Taken>, Trouble> {
    if !are_fit(&parts) {
        return Err(Trouble::Wrong);
    }
    match restart(alloc, parts, claims) {
        Ok((array, _others)) => Ok(Ok(array)),
        Err((ScanFault::Memory, parts, claims)) => Ok(Err((parts, claims))),
        Err(_) => Err(Trouble::Wrong),
    }
}

fn housed(alloc: Global, array: Memory, stops: &mut u32) -> Result<World, Trouble> {
    let array = match World::of(alloc, array) {
        Ok(world) => return Ok(world),
        Err(array) => array,
    };
    count(stops);
    match World::of(alloc, array) {
        Ok(world) => Ok(world),
        Err(_) => Err(Trouble::Memory),
    }
}
