//! Moving one extent by a plan: rebalancing, or rebuilding.
ghost use Rattle.std.specs.Prelude.{◌≡◌, ◌+◌, ◌<◌, ◌≤◌, Bool, IfOk, IfSome, List, OnErr, Some};
ghost use Rattle.slot_tables.specs.Represents.{Represents};
ghost use Rattle.slot_tables.specs.Views.{SameSizes, IsWhole};
ghost use Rattle.flat_machine.specs.Flat.{Flat};
ghost use Rattle.flat_machine.specs.Cases.{IsAllocating};
ghost use Rattle.flat_machine.specs.Steps.{MoveExtent};
ghost use Rattle.rebalancer.specs.Balancing.{IsBalance, Evens, sum_of_squares};
ghost use Rattle.rebalancer.specs.Rebuilding.{IsRebuild};
ghost use Rattle.tiered_array.specs.Regrouping.{AreLostOf, BalanceCase, IsBalanceOf, IsRebuildOf, RebuildCase, ShiftCase, IfMoved};

use crate::Regrouped;
use rebalancer::{Shift, balance_plan, rebuild_plan};
use std::alloc::AllocError;
use step_core::{Drive, Refusal, World, unless_memory};

/// Moves one extent from a drive of greatest load to one of least, of those pairs whose loads (extents in groups) are two
/// apart or more; `Nothing` where there is no such pair, or none that may be moved. Refused as the move is: with `DriveLost`
/// where the target fails, or with `Gone` where the giving drive does and a unit can't be rebuilt.
pub fn balance<D: Drive>(world: &mut World<D>) -> Result<Regrouped, AllocError>
    ensures ok { IfOk result (λ outcome. (F : Flat) → Represents world.old F → (G : Flat) × BalanceCase F outcome G × Represents world.new G) }
    ensures evens { IfOk result (λ outcome. IfMoved outcome (sum_of_squares world.new.array.parts.owners + 2 ≤ sum_of_squares world.old.array.parts.owners)) }
    ensures err { OnErr result (world.new ≡ world.old) }
    ensures needs { OnErr result ((F : Flat) → Represents world.old F → (s : Shift) × IsBalanceOf F (Some s) × IsAllocating F (MoveExtent s.group s.member s.to)) }
    ensures room { SameSizes world.old.array world.new.array }
{
    match plan_balance(world) {
        Some(shift) => carry_out(world, shift),
        None => Ok(Regrouped::Nothing),
    }
}

/// Rebuilds one extent of a lost drive on a present one: that of the lowest group that has one there, on the drive of least
/// load that has room and no member of the group. `Nothing` where the drive isn't lost, no group is on it, or that group has
/// no such drive. Refused with `BadMember` where there is no drive of that number. The move is refused with `Gone` and the
/// group's lowest such slot where a unit can't be rebuilt, or with `DriveLost` where the target fails.
pub fn rebuild<D: Drive>(world: &mut World<D>, drive: u8) -> Result<Regrouped, AllocError>
    ensures ok { IfOk result (λ outcome. (F : Flat) → Represents world.old F → (G : Flat) × RebuildCase F drive outcome G × Represents world.new G) }
    ensures err { OnErr result (world.new ≡ world.old) }
    ensures needs { OnErr result ((F : Flat) → Represents world.old F → (s : Shift) × IsRebuildOf F drive (Some s)
        × IsAllocating F (MoveExtent s.group s.member s.to)) }
    ensures room { SameSizes world.old.array world.new.array }
{
    // Before the plan, which is for numbers below 16, and says `Nothing` of a drive that isn't there.
    if drive >= world.array().drive_count() {
        return Ok(Regrouped::Refused(Refusal::BadMember));
    }
    match plan_rebuild(world, drive) {
        Some(shift) => carry_out(world, shift),
        None => Ok(Regrouped::Nothing),
    }
}

fn plan_balance<D: Drive>(world: &World<D>) -> Option<Shift>
    ensures plan { (lost : List Bool) × AreLostOf world.now.array.parts lost × IsBalance world.now.array.parts.owners world.now.array.parts.groups lost result }
    ensures evens { IfSome result (Evens world.now.array.parts.groups world.now.array.parts.owners) }
    ensures whole { IsWhole world.now.array }
{
    // For its clause, which the plans require: the tables agree.
    world.whole();
    let array = world.array();
    balance_plan(array.extents(), array.groups(), &array.lost())
}

fn plan_rebuild<D: Drive>(world: &World<D>, drive: u8) -> Option<Shift>
    requires { drive < 16 }
    ensures plan { (lost : List Bool) × AreLostOf world.now.array.parts lost
        × IsRebuild world.now.array.parts.owners world.now.array.parts.groups lost drive result }
    ensures whole { IsWhole world.now.array }
{
    // For its clause, which the plans require: the tables agree.
    world.whole();
    let array = world.array();
    rebuild_plan(array.extents(), array.groups(), &array.lost(), drive)
}

// Moves the member that a plan names.
fn carry_out<D: Drive>(world: &mut World<D>, shift: Shift) -> Result<Regrouped, AllocError>
    ensures ok { IfOk result (λ outcome. (F : Flat) → Represents world.old F → (G : Flat) × ShiftCase F shift outcome G × Represents world.new G) }
    ensures evens { Evens world.old.array.parts.groups world.old.array.parts.owners shift
        → IfOk result (λ outcome. IfMoved outcome (sum_of_squares world.new.array.parts.owners + 2 ≤ sum_of_squares world.old.array.parts.owners)) }
    ensures err { OnErr result (world.new ≡ world.old) }
    ensures needs { OnErr result ((F : Flat) → Represents world.old F → IsAllocating F (MoveExtent shift.group shift.member shift.to)) }
    ensures room { SameSizes world.old.array world.new.array }
{
    match world.move_extent(shift.group, shift.member, shift.to) {
        Ok(()) => Ok(Regrouped::Moved(shift)),
        Err(refusal) => Ok(Regrouped::Refused(unless_memory(refusal)?)),
    }
}
