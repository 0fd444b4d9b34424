// The writes of a parity slot, planned.
ghost use Rattle.std.specs.Prelude.{◌≡◌, ◌⊎◌, ◌≤◌, ◌/◌, ℕ, List, [], length, None, IfOk, IfErr, OnOk, vec_len, vec_capacity};
ghost use Rattle.extent_groups.specs.declared.class.Class.TheVariants.{Parity};
ghost use Rattle.extent_groups.specs.declared.place.Place.{Place};
ghost use Rattle.extent_groups.specs.declared.plan.PlanRefusal.TheVariants as refusal;
ghost use Rattle.extent_groups.specs.Calls.{NoPlace, SameBut, KeepsDrives};
ghost use Rattle.extent_groups.specs.Cells.{cells};
ghost use Rattle.extent_groups.specs.Missing.{missing_of, IsGone};
ghost use Rattle.extent_groups.specs.Planned.{IsPlan, expected_parity};
ghost use Rattle.extent_groups.specs.PlanLists.{listed, parity_listed};
ghost use Rattle.extent_groups.specs.Units.{site_of};
ghost use Rattle.extent_groups.specs.Stores.{unit_bytes, unit_of, AreSound, IsSlotOf, AreDrives, KeepsUnits, HasMemberOn};
ghost use Rattle.parity_store.specs.Drafts.{writes_by, parity_by};

use crate::target::Target;
use crate::way::{Way, find_way};
use extent_groups::{GroupTable, Place, PlanRefusal, Planned};
use extents::Drive;
use std::alloc::{AllocError, Global};

// The vectors of a plan.
#[derive(Drop)]
struct Room {
    writes: Vec<(u8, u32, Vec<u8>)>,
    unit: Vec<u8>,
    // The parity's unit, for the plan, and a copy of it, for its write.
    sum: Vec<u8>,
    copy: Vec<u8>,
    // What is read.
    part: Vec<u8>,
}

impl Room {
    // Vectors for a plan of this unit, and a copy of it.
    fn new(alloc: Global, unit: &[u8]) -> Result<Room, AllocError>
        ensures writes { IfOk result (λ r. r.writes.items ≡ []) }
        ensures len { IfOk result (λ r. vec_len r.writes ≡ 0) }
        ensures room { IfOk result (λ r. 2 ≤ vec_capacity r.writes) }
        ensures unit { IfOk result (λ r. r.unit.items ≡ unit.now) }
        ensures sum { IfOk result (λ r. length r.sum.items ≡ length unit.now) }
        ensures copy { IfOk result (λ r. length r.copy.items ≡ length unit.now) }
        ensures part { IfOk result (λ r. length r.part.items ≡ length unit.now) }
    {
        // The last three are copies of the unit only for their length: their bytes are overwritten.
        Ok(Room {
            writes: Vec::with_capacity(alloc, 2)?,
            unit: unit.to_vec(alloc)?,
            sum: unit.to_vec(alloc)?,
            copy: unit.to_vec(alloc)?,
            part: unit.to_vec(alloc)?,
        })
    }
}

// The writes of a way, in their order.
fn list(room: Room, way: Way, home: Place, parity: Place) -> Planned
    requires writes { room.writes.items ≡ [] }
    requires len { vec_len room.writes ≡ 0 }
    requires room { 2 ≤ vec_capacity room.writes }
    requires copy { length room.copy.items ≡ length room.sum.items }
    ensures writes { listed result.writes.items ≡ writes_by home parity room.unit.items room.sum.items way }
    ensures parity { parity_listed result.parity ≡ parity_by room.sum.items way }
{
    let Room {
        mut writes,
        unit,
        sum,
        mut copy,
        part: _part,
    } = room;
    copy.copy_from_slice(&sum);
    if way == Way::Both || way == Way::Alone {
        writes.push_reserved((home.drive, home.address, unit));
    }
    if way == Way::Both || way == Way::Parity {
        writes.push_reserved((parity.drive, parity.address, copy));
        return Planned {
            writes,
            parity: Some(sum),
        };
    }
    Planned {
        writes,
        parity: None,
    }
}

/// Plans the writes that give a slot the unit, by reads alone: the unit and its parity by difference, or, where one of these
/// drives is lost, the other alone. Refused where the unit's drive and another member's are lost; out of memory only before
/// the first drive call.
pub fn plan<D: Drive>(
    alloc: Global,
    groups: &GroupTable,
    drives: &mut [D],
    slot: u16,
    unit: &[u8],
) -> Result<Planned, PlanRefusal>
    requires slot { IsSlotOf Parity groups.now slot }
    requires drives { AreDrives D.units groups.now drives.old }
    requires unit { length unit.now ≡ unit_bytes groups.now }
    ensures ok { IfOk result (λ plan. (expected : Place → List ℕ)
        × IsPlan groups.now (cells D.units D.lost drives.new) slot unit.now expected (listed plan.writes.items)
        × (parity_listed plan.parity ≡ expected_parity (cells D.units D.lost drives.new) expected (site_of groups.now slot))) }
    ensures there { OnOk result (IsGone groups.now (missing_of D.lost drives.new) slot → ⊥) }
    ensures err { IfErr result (λ e. ((e ≡ refusal.Memory) × (drives.new ≡ drives.old))
        ⊎ ((e ≡ refusal.Gone slot) × (unit_of groups.now (cells D.units D.lost drives.new) slot ≡ None))) }
    ensures units { AreSound groups.now (cells D.units D.lost drives.old)
        → KeepsUnits groups.now (cells D.units D.lost drives.old) (cells D.units D.lost drives.new) }
    ensures sound { AreSound groups.now (cells D.units D.lost drives.old) → AreSound groups.now (cells D.units D.lost drives.new) }
    ensures touched { KeepsDrives D.units D.lost D.failures NoPlace drives.old drives.new }
    ensures elsewhere { SameBut (HasMemberOn groups.now (slot / 128)) drives.old drives.new }
    ensures drives { AreDrives D.units groups.now drives.new }
{
    // All memory before the first drive call, so that a refusal for memory loses no drive.
    let Ok(mut room) = Room::new(alloc, unit) else {
        return Err(PlanRefusal::Memory);
    };
    let target = Target::of_slot(groups, slot);
    let way = find_way(groups, drives, &target, unit, &mut room.part, &mut room.sum);
    if way == Way::Missed {
        return Err(PlanRefusal::Gone(slot));
    }
    Ok(list(room, way, target.home, target.parity))
}
