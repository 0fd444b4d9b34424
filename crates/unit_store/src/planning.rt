// The writes that give a slot its unit, planned by reads alone.
ghost use Rattle.std.specs.Prelude.{◌≡◌, ◌⊎◌, length, None, IfOk, IfErr, OnOk};
ghost use Rattle.extent_groups.specs.declared.class.Class.TheVariants.{Mirrored, Parity};
ghost use Rattle.extent_groups.specs.declared.plan.PlanRefusal.TheVariants as why;
ghost use Rattle.extent_groups.specs.Calls.{NoPlace, KeepsDrives};
ghost use Rattle.extent_groups.specs.Cells.{cells};
ghost use Rattle.extent_groups.specs.Missing.{missing_of, IsGone};
ghost use Rattle.extent_groups.specs.PlanLists.{listed, parity_listed};
ghost use Rattle.extent_groups.specs.Stores.{unit_bytes, unit_of, AreSound, AreDrives, IsSlotOf, KeepsUnits};
ghost use Rattle.flat_machine.specs.declared.refusal.Refusal.TheVariants as refusal;
ghost use Rattle.unit_store.specs.Fit.{IsFit};
ghost use Rattle.unit_store.specs.Losses.{LosesOnly, AllFare};
ghost use Rattle.unit_store.specs.Notes.{IsSlotPlan, refused_as};
ghost use Rattle.unit_store.specs.Slots.{IsSlot, ReportsGone, cells_in, missing_in};

use crate::Parts;
use extent_groups::{Class, GroupTable, PlanRefusal, Planned, SLOTS};
use extents::Drive;
use flat_machine::Refusal;
use std::alloc::Global;

// Plans the writes of both copies of a mirrored slot.
fn plan_pair<D: Drive>(
    alloc: Global,
    groups: &GroupTable,
    drives: &mut [D],
    slot: u16,
    unit: &[u8],
) -> Result<Planned, PlanRefusal>
    requires slot { IsSlotOf Mirrored groups.now slot }
    requires drives { AreDrives D.units groups.now drives.old }
    requires unit { length unit.now ≡ unit_bytes groups.now }
    ensures ok { IfOk result (λ plan. IsSlotPlan groups.now (cells D.units D.lost drives.new) slot unit.now (listed plan.writes.items)
        (parity_listed plan.parity)) }
    ensures there { OnOk result (IsGone groups.now (missing_of D.lost drives.new) slot → ⊥) }
    ensures err { IfErr result (λ e. (e ≡ why.Memory) ⊎ ((e ≡ why.Gone slot) × (unit_of groups.now (cells D.units D.lost drives.new) slot ≡ None))) }
    ensures same { drives.new ≡ drives.old }
{
    // Nothing is read: this call's clause says where the copies lie, since the store's plan says it of no slot.
    let _places = groups.pair_of(slot);
    mirrored_store::plan(alloc, groups, drives, slot, unit)
}

// Plans the write of a parity slot and of its parity.
fn plan_stripe<D: Drive>(
    alloc: Global,
    groups: &GroupTable,
    drives: &mut [D],
    slot: u16,
    unit: &[u8],
) -> Result<Planned, PlanRefusal>
    requires slot { IsSlotOf Parity groups.now slot }
    requires drives { AreDrives D.units groups.now drives.old }
    requires unit { length unit.now ≡ unit_bytes groups.now }
    ensures ok { IfOk result (λ plan. IsSlotPlan groups.now (cells D.units D.lost drives.new) slot unit.now (listed plan.writes.items)
        (parity_listed plan.parity)) }
    ensures there { OnOk result (IsGone groups.now (missing_of D.lost drives.new) slot → ⊥) }
    ensures err { IfErr result (λ e. ((e ≡ why.Memory) × (drives.new ≡ drives.old))
        ⊎ ((e ≡ why.Gone slot) × (unit_of groups.now (cells D.units D.lost drives.new) slot ≡ None))) }
    ensures units { AreSound groups.now (cells D.units D.lost drives.old)
        → KeepsUnits groups.now (cells D.units D.lost drives.old) (cells D.units D.lost drives.new) }
    ensures sound { AreSound groups.now (cells D.units D.lost drives.old) → AreSound groups.now (cells D.units D.lost drives.new) }
    ensures touched { KeepsDrives D.units D.lost D.failures NoPlace drives.old drives.new }
    ensures drives { AreDrives D.units groups.now drives.new }
{
    let _stripe = groups.row_of(slot);
    parity_store::plan(alloc, groups, drives, slot, unit)
}

// Plans the writes of a slot of either class.
fn plan_slot<D: Drive>(
    alloc: Global,
    groups: &GroupTable,
    drives: &mut [D],
    slot: u16,
    unit: &[u8],
) -> Result<Planned, PlanRefusal>
    requires slot { IsSlot groups.now slot }
    requires drives { AreDrives D.units groups.now drives.old }
    requires unit { length unit.now ≡ unit_bytes groups.now }
    ensures ok { IfOk result (λ plan. IsSlotPlan groups.now (cells D.units D.lost drives.new) slot unit.now (listed plan.writes.items)
        (parity_listed plan.parity)) }
    ensures there { OnOk result (IsGone groups.now (missing_of D.lost drives.new) slot → ⊥) }
    ensures err { IfErr result (λ e. ((e ≡ why.Memory) × (drives.new ≡ drives.old))
        ⊎ ((e ≡ why.Gone slot) × (unit_of groups.now (cells D.units D.lost drives.new) slot ≡ None))) }
    ensures units { AreSound groups.now (cells D.units D.lost drives.old)
        → KeepsUnits groups.now (cells D.units D.lost drives.old) (cells D.units D.lost drives.new) }
    ensures sound { AreSound groups.now (cells D.units D.lost drives.old) → AreSound groups.now (cells D.units D.lost drives.new) }
    ensures touched { KeepsDrives D.units D.lost D.failures NoPlace drives.old drives.new }
    ensures drives { AreDrives D.units groups.now drives.new }
{
    match groups.class_of(slot / SLOTS) {
        Some(Class::Mirrored) => plan_pair(alloc, groups, drives, slot, unit),
        _ => plan_stripe(alloc, groups, drives, slot, unit),
    }
}

// A store's refusal of a plan, as an array's.
fn refused(why: PlanRefusal) -> Refusal
    ensures { result ≡ refused_as why }
{
    match why {
        PlanRefusal::Memory => Refusal::Memory,
        PlanRefusal::Gone(slot) => Refusal::Gone(slot),
    }
}

impl<D: Drive> Parts<D> {
    /// Plans the writes that give a slot a unit, by reads alone. They are of exactly the places whose drives aren't lost, the
    /// first copy before the second, the data before the parity. Nothing is written. Refused with Gone where the slot would
    /// be gone afterwards, and with Memory before the first drive call.
    pub fn plan(&mut self, alloc: Global, slot: u16, unit: &[u8]) -> Result<Planned, Refusal>
        requires fit { IsFit D.units self.old }
        requires slot { IsSlot self.old.groups slot }
        requires unit { length unit.now ≡ unit_bytes self.old.groups }
        ensures ok { IfOk result (λ plan. IsSlotPlan self.new.groups (cells_in D.units D.lost self.new) slot unit.now (listed plan.writes.items)
            (parity_listed plan.parity)) }
        ensures there { OnOk result (IsGone self.new.groups (missing_in D.lost self.new) slot → ⊥) }
        ensures err { IfErr result (λ e. ((e ≡ refusal.Memory) × (self.new.drives.items ≡ self.old.drives.items)) ⊎ ReportsGone D.units D.lost self.new slot e) }
        ensures units { AreSound self.old.groups (cells_in D.units D.lost self.old)
            → KeepsUnits self.old.groups (cells_in D.units D.lost self.old) (cells_in D.units D.lost self.new) }
        ensures sound { AreSound self.old.groups (cells_in D.units D.lost self.old) → AreSound self.new.groups (cells_in D.units D.lost self.new) }
        ensures only { LosesOnly D.units D.lost D.failures self.old self.new }
        ensures fares { AllFare D.lost D.failures self.old.drives.items self.new.drives.items }
        ensures fit { IsFit D.units self.new }
    {
        let drives: &mut [D] = &mut self.drives;
        let planned = plan_slot(alloc, &self.groups, drives, slot, unit);
        match planned {
            Ok(plan) => Ok(plan),
            Err(why) => Err(refused(why)),
        }
    }
}
