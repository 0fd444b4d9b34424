// All that an array takes and tests before it is put together from parts, a map and claims.
ghost use Rattle.std.specs.Prelude.{ℕ, ◌*◌, ◌<◌, ◌≤◌, IfOk, IfErr};
ghost use Rattle.map_join.specs.Maps.{at};
ghost use Rattle.unit_store.specs.Fit.{IsFit};
ghost use Rattle.flat_machine.specs.Restarted.{HasDistinctSlots};
ghost use Rattle.slot_tables.specs.Kept.{HavePlaces};
ghost use Rattle.slot_tables.specs.Claims.{AreReady, AreKeys, HasRoom, IsNotAdopted};

use crate::hold::Hold;
use crate::seats::{blocks_by_slot, first_unclaimed};
use crate::slot_state::SlotState;
use crate::tables::free_places;
use extent_groups::{GROUPS, GroupTable, SLOTS};
use extents::Drive;
use map_join::{BlockMap, Record};
use std::alloc::{AllocError, Global};
use unit_store::Parts;

/// Why no array is put together.
#[derive(Clone, Copy, Debug, PartialEq, Eq)]
pub enum NotAdopted {
    Memory,
    /// The lowest slot that is a block's newest place and of which there is no claim.
    NoClaim(u16),
}

// Places of an array that is put together, and room for the claims that it doesn't take.
#[derive(Drop)]
pub struct Room<C: Hold> {
    pub others: Vec<C>,
    pub places: Vec<SlotState<C>>,
}

// All the memory that the array takes but its buffers, and for each slot that has a place the block that wants it.
#[derive(Drop)]
pub struct Ready<C: Hold> {
    pub log: Vec<Record>,
    pub expected: Vec<Option<u32>>,
    pub keys: Vec<u64>,
    pub room: Room<C>,
}

// The key of each of `blocks` blocks.
fn keys_of(alloc: Global, blocks: u32, map: &BlockMap) -> Result<Vec<u64>, AllocError>
    ensures { IfOk result (λ keys. AreKeys blocks (at map.now) keys.items) }
{
    let mut keys = vec![in alloc; 0u64; blocks as usize]?;
    for block in 0..blocks {
        if let Some(record) = map.get(block) {
            keys[block as usize] = record.key();
        }
    }
    Ok(keys)
}

// The fewest places that are enough for the slots of the groups that are made.
fn places_for(groups: &GroupTable) -> usize
    ensures enough { HavePlaces groups.now result }
    ensures fewest { (n : ℕ) → HavePlaces groups.now n → result ≤ n }
{
    // A lookup of any group's members shows that the table has 512 numbers.
    let _members = groups.members(0);
    let mut places = 0;
    for group in 0..GROUPS as u16 {
        if !groups.is_free(group) {
            places = usize::from(SLOTS) * (usize::from(group) + 1);
        }
    }
    places
}

fn new_room<C: Hold>(alloc: Global, slots: usize, count: usize) -> Result<Room<C>, AllocError>
    ensures { IfOk result (HasRoom slots count) }
{
    // Room for all claims, because any of them may be left over.
    let others = Vec::with_capacity(alloc, count)?;
    match free_places(alloc, slots) {
        Ok(places) => Ok(Room { others, places }),
        Err(refused) => {
            // Explicitly, because a list of claims has no `Drop`, even an empty one.
            others.destroy_empty();
            Err(refused)
        }
    }
}

// All that is taken and tested before a claim moves, so that a refusal returns all claims.
pub fn prepare<D: Drive, C: Hold>(
    alloc: Global,
    parts: &Parts<D>,
    map: &BlockMap,
    claims: &[C],
) -> Result<Ready<C>, NotAdopted>
    requires fit { IsFit D.units parts.now }
    requires places { HasDistinctSlots parts.now.groups (at map.now) }
    ensures ok { IfOk result (AreReady C.names parts.now.groups (at map.now) claims.now) }
    ensures err { IfErr result (IsNotAdopted C.names claims.now (at map.now)) }
{
    let Ok(log) = map.to_list(alloc) else {
        return Err(NotAdopted::Memory);
    };
    let Ok(keys) = keys_of(alloc, parts.shape.blocks, map) else {
        return Err(NotAdopted::Memory);
    };
    let slots = places_for(&parts.groups);
    let Ok(expected) = blocks_by_slot(alloc, &log, slots) else {
        return Err(NotAdopted::Memory);
    };
    match first_unclaimed(alloc, &expected, claims) {
        Ok(None) => {}
        Ok(Some(slot)) => return Err(NotAdopted::NoClaim(slot)),
        Err(_) => return Err(NotAdopted::Memory),
    }
    match new_room(alloc, slots, claims.len()) {
        Ok(room) => Ok(Ready {
            log,
            expected,
            keys,
            room,
        }),
        Err(_) => Err(NotAdopted::Memory),
    }
}
