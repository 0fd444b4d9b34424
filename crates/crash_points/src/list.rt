// The list of a note and the writes of a plan.
ghost use Rattle.std.specs.Prelude.{◌≡◌, ◌⊎◌, length, IfOk, IfErr, OnOk};
ghost use Rattle.extent_groups.specs.Stores.{unit_bytes};
ghost use Rattle.flat_machine.specs.declared.refusal.Refusal.TheVariants as refusal;
ghost use Rattle.unit_store.specs.Slots.{IsSlot};
ghost use Rattle.unit_store.specs.Views.{FoundGone, IsLost};
ghost use Rattle.disk_array.specs.Refused.{OnlyLoses};
ghost use Rattle.crash_points.specs.Lists.{IsUnitList};

use extents::Drive;
use flat_machine::Refusal;
use std::alloc::Global;
use step_core::{Array, Hold};
use unit_store::{Micro, Note};

/// Entries of the longest list: a note, two writes, and the note cleared.
const LONGEST: usize = 4;

// The list that gives a slot the unit: a note of it, the writes of its plan in their order, the note cleared. So a stop among
// the writes finds the note. All memory is taken before the first drive call, so that a refusal for memory loses no drive.
pub(crate) fn list_unit<D: Drive, C: Hold>(
    alloc: Global,
    array: &mut Array<D, C>,
    slot: u16,
    unit: Vec<u8>,
) -> Result<Vec<Micro>, Refusal>
    requires slot { IsSlot array.old.parts.groups slot }
    requires unit { length unit.items ≡ unit_bytes array.old.parts.groups }
    ensures ok { IfOk result (λ list. IsUnitList array.new.parts slot unit.items list.items) }
    ensures there { OnOk result (IsLost array.new.parts slot → ⊥) }
    ensures err { IfErr result (λ e. ((e ≡ refusal.Memory) × (array.new ≡ array.old)) ⊎ FoundGone array.old.parts array.new.parts slot e) }
    ensures loses { OnlyLoses array.old array.new }
{
    let Ok(mut list) = Vec::with_capacity(alloc, LONGEST) else {
        return Err(Refusal::Memory);
    };
    let plan = array.plan(alloc, slot, &unit)?;
    list.push_reserved(Micro::NoteSet(Note {
        slot,
        unit,
        parity: plan.parity,
    }));
    for (drive, at, unit) in plan.writes {
        list.push_reserved(Micro::Write { drive, at, unit });
    }
    list.push_reserved(Micro::NoteClear);
    Ok(list)
}
