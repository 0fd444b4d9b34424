// Calls of the two levels, and their answers.
ghost use Rattle.std.specs.Prelude.{◌↔◌, ◌≡◌, IsTrue};
ghost use Rattle.array_calls.specs.declared.call.Call.TheVariants.{Flush};
ghost use Rattle.array_calls.specs.Calls.{FitsCall};

use map_join::Record;
use step_core::{Answer, Drive, World};
use tiered_array::Outcome;

/// A call of the two levels by which no group and no drive comes or goes. The first seven are steps of a worker.
#[derive(Debug, Drop)]
pub enum Call {
    Claim {
        worker: u8,
        slot: u16,
    },
    Release {
        worker: u8,
        slot: u16,
    },
    /// The payload has as many bytes as the array's blocks.
    Fill {
        worker: u8,
        slot: u16,
        payload: Vec<u8>,
    },
    Copy {
        worker: u8,
        slot: u16,
        block: u32,
    },
    Commit {
        worker: u8,
        slot: u16,
        block: u32,
    },
    Discard {
        worker: u8,
        slot: u16,
    },
    ReadAt {
        record: Record,
    },
    /// The payload has as many bytes as the array's blocks.
    Write {
        block: u32,
        payload: Vec<u8>,
    },
    Trim {
        block: u32,
    },
    Demote,
    Plug,
    Clean,
    /// Makes all writes durable.
    Flush,
}

/// What a call answers: a worker's step, a plan, or a flush.
#[derive(Debug, Drop)]
pub enum CallAnswer {
    Step(Answer),
    Plan(Outcome),
    Flushed,
}

impl Call {
    /// Whether it is a flush.
    pub fn is_flush(&self) -> bool
        ensures { IsTrue result ↔ self.now ≡ Flush }
    {
        matches!(self, Call::Flush)
    }

    /// Whether its block and its payload are those of an array: a block that the array has, and a payload as long as its blocks.
    pub fn fits<D: Drive>(&self, world: &World<D>) -> bool
        ensures { IsTrue result ↔ FitsCall world.now.array.parts.groups self.now }
    {
        let shape = world.array().shape();
        match self {
            Call::Fill {
                worker: _,
                slot: _,
                payload,
            } => payload.len() == shape.payload as usize,
            Call::Copy {
                worker: _,
                slot: _,
                block,
            } => *block < shape.blocks,
            Call::Commit {
                worker: _,
                slot: _,
                block,
            } => *block < shape.blocks,
            Call::ReadAt { record } => record.block < shape.blocks,
            Call::Write { block, payload } => *block < shape.blocks
                && payload.len() == shape.payload as usize,
            Call::Trim { block } => *block < shape.blocks,
            _ => true,
        }
    }
}
