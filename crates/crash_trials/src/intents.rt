// Intents of the tables, and their plans.
ghost use Rattle.std.specs.Prelude.{IsTrue};
ghost use Rattle.crash_points.specs.Intents.{IsValidIntent};

use crate::payloads::payload_of;
use crate::setup::{Memory, Setup};
use crate::trouble::Trouble;
use crate::words::{byte, short, verb_of};
use crash_points::{Intent, plan_micro};
use flat_machine::Refusal;
use std::alloc::Global;
use unit_store::Micro;

/// The intent that a cell spells, for an array of the setup's sizes.
pub(crate) fn intent_of(alloc: Global, cell: &str, setup: &Setup) -> Result<Intent, Trouble> {
    let (verb, numbers) = verb_of(alloc, cell)?;
    match (verb, numbers.as_slice()) {
        ("fill", [slot, named]) => {
            let slot = short(*slot)?;
            let payload = payload_of(alloc, byte(*named)?, setup.shape.payload)?;
            Ok(Intent::Fill { slot, payload })
        }
        ("trim", [slot]) => Ok(Intent::Trim {
            slot: short(*slot)?,
        }),
        ("copy", [slot, block]) if *block < setup.shape.blocks => Ok(Intent::Copy {
            slot: short(*slot)?,
            block: *block,
        }),
        ("commit", [slot, block]) if *block < setup.shape.blocks => Ok(Intent::Commit {
            slot: short(*slot)?,
            block: *block,
        }),
        _ => Err(Trouble::Form),
    }
}

// Whether the array has such a payload, or such a block. Tested, because `plan_micro` requires it and a table may say
// anything.
fn is_asked(array: &Memory, intent: &Intent) -> bool
    ensures { IsTrue result → IsValidIntent array.now.parts.groups intent.now }
{
    let shape = array.shape();
    match intent {
        Intent::Fill { slot: _, payload } => payload.len() == shape.payload as usize,
        Intent::Trim { slot: _ } => true,
        Intent::Copy { slot: _, block } => *block < shape.blocks,
        Intent::Commit { slot: _, block } => *block < shape.blocks,
    }
}

/// The list of an intent, or its refusal.
pub(crate) fn planned(
    alloc: Global,
    array: &mut Memory,
    intent: &Intent,
) -> Result<Result<Vec<Micro>, Refusal>, Trouble> {
    if !is_asked(array, intent) {
        return Err(Trouble::Form);
    }
    match plan_micro(alloc, array, intent) {
        Ok(list) => Ok(Ok(list)),
        Err(Refusal::Memory) => Err(Trouble::Memory),
        Err(refusal) => Ok(Err(refusal)),
    }
}
