// Planned writes: the unit writes that give a slot its unit, worked out by reads and not yet carried out.
ghost use Rattle.std.specs.Prelude.{◌≡◌, ◌<◌, length, None, IfOk};
ghost use Rattle.std.specs.Bool.{MatchBool};
ghost use Rattle.extent_groups.specs.Cells.{cells, held};
ghost use Rattle.extent_groups.specs.Calls.{IsPlace};
ghost use Rattle.extent_groups.specs.Numbers.{plan_number};
ghost use Rattle.extent_groups.specs.PlanLists.{as_expected};

use crate::place::Place;
use extents::Drive;
use std::alloc::{AllocError, Global};

/// The writes that give a slot a unit, in order and on present drives alone: drive, unit address, unit. In addition the
/// parity's unit, where one is written.
#[derive(Debug, Drop)]
pub struct Planned {
    pub writes: Vec<(u8, u32, Vec<u8>)>,
    pub parity: Option<Vec<u8>>,
}

/// Why no writes are planned.
#[derive(Clone, Copy, Debug, PartialEq, Eq)]
pub enum PlanRefusal {
    /// This slot would be gone even after the writes: too many drives of its group are lost.
    Gone(u16),
    /// Out of memory.
    Memory,
}

impl PlanRefusal {
    /// The refusal's number, 1 or 2 in the order above.
    pub fn number(self) -> u8
        ensures { result ≡ plan_number self }
    {
        match self {
            PlanRefusal::Gone(_) => 1,
            PlanRefusal::Memory => 2,
        }
    }
}

/// A write of a place with a copy of the unit; refused where that allocation fails.
pub fn write_of(alloc: Global, place: Place, unit: &[u8]) -> Result<(u8, u32, Vec<u8>), AllocError>
    ensures { IfOk result (λ w. as_expected w ≡ record { place = place; unit = unit.now }) }
{
    Ok((place.drive, place.address, unit.to_vec(alloc)?))
}

/// Whether the drive of a place is present.
pub fn is_there<D: Drive>(drives: &[D], place: Place) -> bool
    requires inside { place.drive < length drives.now }
    requires place { IsPlace D.units drives.now place }
    ensures { MatchBool result (held (cells D.units D.lost drives.now) place ≡ None → ⊥) (held (cells D.units D.lost drives.now) place ≡ None) }
{
    !drives[place.drive as usize].is_lost()
}
