// The writes that give a slot a unit, planned over an array.
ghost use Rattle.std.specs.Prelude.{◌≡◌, ◌⊎◌, length, IfOk, IfErr, OnOk};
ghost use Rattle.extent_groups.specs.PlanLists.{listed, parity_listed};
ghost use Rattle.extent_groups.specs.Stores.{unit_bytes};
ghost use Rattle.flat_machine.specs.declared.refusal.Refusal.TheVariants as refusal;
ghost use Rattle.unit_store.specs.Notes.{IsSlotPlan};
ghost use Rattle.unit_store.specs.Slots.{IsSlot};
ghost use Rattle.unit_store.specs.Views.{drive_cells, FoundGone, IsLost};
ghost use Rattle.disk_array.specs.Refused.{OnlyLoses};

use crate::array::Array;
use extent_groups::Planned;
use extents::Drive;
use flat_machine::Refusal;
use slot_tables::Hold;
use std::alloc::Global;

impl<D: Drive, C: Hold> Array<D, C> {
    /// Plans the writes that give a slot a unit, header and payload, by reads alone, as `Parts::plan` does: nothing is written, and
    /// what the array keeps of the slot isn't looked at. Refused with Gone where the unit couldn't be had afterwards, and with
    /// Memory before the first drive call.
    pub fn plan(&mut self, alloc: Global, slot: u16, unit: &[u8]) -> Result<Planned, Refusal>
        requires slot { IsSlot self.old.parts.groups slot }
        requires unit { length unit.now ≡ unit_bytes self.old.parts.groups }
        ensures ok { IfOk result (λ plan. IsSlotPlan self.new.parts.groups (drive_cells self.new.parts) slot unit.now (listed plan.writes.items)
            (parity_listed plan.parity)) }
        ensures there { OnOk result (IsLost self.new.parts slot → ⊥) }
        ensures err { IfErr result (λ e. ((e ≡ refusal.Memory) × (self.new ≡ self.old)) ⊎ FoundGone self.old.parts self.new.parts slot e) }
        ensures loses { OnlyLoses self.old self.new }
    {
        self.parts.plan(alloc, slot, unit)
    }
}
