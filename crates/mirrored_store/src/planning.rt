// The writes of a mirrored slot, planned.
ghost use Rattle.std.specs.Prelude.{◌≡◌, ◌⊎◌, length, None, IfOk, IfErr, OnOk};
ghost use Rattle.extent_groups.specs.declared.class.Class.TheVariants.{Mirrored};
ghost use Rattle.extent_groups.specs.declared.plan.PlanRefusal.TheVariants as refusal;
ghost use Rattle.extent_groups.specs.Cells.{cells};
ghost use Rattle.extent_groups.specs.Missing.{missing_of, IsGone};
ghost use Rattle.extent_groups.specs.Planned.{IsWritePlan, IsPlan};
ghost use Rattle.extent_groups.specs.PlanLists.{listed};
ghost use Rattle.extent_groups.specs.Stores.{unit_bytes, unit_of, IsSlotOf, AreDrives};

use extent_groups::{GroupTable, PlanRefusal, Planned, is_there, write_of};
use extents::Drive;
use std::alloc::Global;

/// Plans the writes that give a slot the unit: of each copy whose drive isn't lost, the first before the second. Refused if
/// out of memory, and then where both drives are lost. No drive is called.
pub fn plan<D: Drive>(
    alloc: Global,
    groups: &GroupTable,
    drives: &mut [D],
    slot: u16,
    unit: &[u8],
) -> Result<Planned, PlanRefusal>
    requires slot { IsSlotOf Mirrored groups.now slot }
    requires drives { AreDrives D.units groups.now drives.old }
    requires unit { length unit.now ≡ unit_bytes groups.now }
    ensures ok { IfOk result (λ plan. IsWritePlan groups.now (cells D.units D.lost drives.new) slot unit.now (λ place. unit.now) (listed plan.writes.items)
        × (plan.parity ≡ None)) }
    ensures listed { IfOk result (λ plan. IsPlan groups.now (cells D.units D.lost drives.new) slot unit.now (λ place. unit.now) (listed plan.writes.items)) }
    ensures there { OnOk result (IsGone groups.now (missing_of D.lost drives.new) slot → ⊥) }
    ensures err { IfErr result (λ e. (e ≡ refusal.Memory) ⊎ ((e ≡ refusal.Gone slot) × (unit_of groups.now (cells D.units D.lost drives.new) slot ≡ None))) }
    ensures same { drives.new ≡ drives.old }
{
    let (first, second) = groups.pair_of(slot);
    let Ok(mut writes) = Vec::with_capacity(alloc, 2) else {
        return Err(PlanRefusal::Memory);
    };
    // Both are allocated before either drive is looked at, so that Memory comes before Gone.
    let Ok(one) = write_of(alloc, first, unit) else {
        return Err(PlanRefusal::Memory);
    };
    let Ok(two) = write_of(alloc, second, unit) else {
        return Err(PlanRefusal::Memory);
    };
    let here = is_there(drives, first);
    let there = is_there(drives, second);
    if here {
        writes.push_reserved(one);
        if there {
            writes.push_reserved(two);
            return Ok(Planned {
                writes,
                parity: None,
            });
        }
        return Ok(Planned {
            writes,
            parity: None,
        });
    }
    if there {
        writes.push_reserved(two);
        return Ok(Planned {
            writes,
            parity: None,
        });
    }
    Err(PlanRefusal::Gone(slot))
}
