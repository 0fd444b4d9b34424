// The tables and buffers of a new array, all the memory that making it takes.
ghost use Rattle.std.specs.Prelude.{◌≡◌, ℕ, ◌≤◌, length, slice_index, slice_index_or, IfOk};
ghost use Rattle.slot_tables.specs.New.{AreNew};

use crate::hold::Hold;
use crate::slot_state::SlotState;
use extent_groups::GroupTable;
use extents::{ExtentTable, Shape};
use std::alloc::{AllocError, Global};

/// Slot numbers of an array.
pub const SLOTS: usize = 65_536;

// The tables of an array without a group, and its buffers.
#[derive(Drop)]
pub struct Tables<C: Hold> {
    pub groups: GroupTable,
    pub extents: ExtentTable,
    pub keys: Vec<u64>,
    pub places: Vec<SlotState<C>>,
    pub unit: Vec<u8>,
    pub scratch: Vec<u8>,
}

pub fn new_tables<C: Hold>(alloc: Global, shape: Shape, drives: u8) -> Result<Tables<C>, AllocError>
    requires { drives ≤ 16 }
    ensures { IfOk result (AreNew shape drives) }
{
    let groups = GroupTable::new(alloc, &shape)?;
    let extents = ExtentTable::new(alloc, drives, &shape)?;
    let keys = zeros(alloc, shape.blocks)?;
    let size = shape.unit_bytes();
    let unit = vec![in alloc; 0; size]?;
    // Two units, because a parity write reads one and adds up another.
    let scratch = vec![in alloc; 0; 2 * size]?;
    // Empty, because places come with the groups that are made.
    let places = Vec::new(alloc);
    Ok(Tables {
        groups,
        extents,
        keys,
        places,
        unit,
        scratch,
    })
}

fn zeros(alloc: Global, count: u32) -> Result<Vec<u64>, AllocError>
    ensures len { IfOk result (λ keys. length keys.items ≡ count) }
    ensures zero { IfOk result (λ keys. (b : ℕ) → slice_index keys.items b ≡ 0) }
{
    vec![in alloc; 0u64; count as usize]
}

pub(crate) fn free_places<C: Hold>(
    alloc: Global,
    count: usize,
) -> Result<Vec<SlotState<C>>, AllocError>
    ensures len { IfOk result (λ places. length places.items ≡ count) }
    ensures free { IfOk result (λ places. (s : ℕ) → slice_index_or places.items s SlotState.Free ≡ SlotState.Free) }
{
    let mut places = Vec::with_capacity(alloc, count)?;
    for _made in 0..count {
        places.push_reserved(SlotState::Free);
    }
    Ok(places)
}
