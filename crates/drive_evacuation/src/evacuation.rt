// Extents that move off a lost drive.
ghost use Rattle.std.specs.Prelude.{◌≡◌, ◌≢◌, ◌<◌, ℕ, IfErr, OnOk, None, Some, slice_get, false};
ghost use Rattle.map_join.specs.Maps.{IsSame};
ghost use Rattle.extent_groups.specs.declared.class.Member.{Member};
ghost use Rattle.extent_groups.specs.Stores.{HasMemberOn};
ghost use Rattle.flat_machine.specs.Flat.{Flat};
ghost use Rattle.slot_tables.specs.Views.{SameSizes, key_at};
ghost use Rattle.unit_store.specs.Views.{lost_of};
ghost use Rattle.tiered_array.specs.Matches.{RepresentsTiers};
ghost use Rattle.tiered_array.specs.Regrouping.{IsRebuildOf};
ghost use Rattle.tiered_array.specs.Tiered.{Tiered};
ghost use Rattle.array_expansion.specs.Expansion.{IsSpread};
ghost use Rattle.drive_evacuation.specs.Evacuation.{AreClearOf, NotEvacuated};

use crate::EvacuationFault;
use extent_groups::{GROUPS, GroupTable, Member};
use step_core::Drive;
use tiered_array::{Regrouped, Tiers};

// One more than the moves that there can be: each takes a group off the drive, and there are 512.
const MOST_MOVES: u32 = 512 + 1;

/// Moves all extents of groups off a lost drive, one after another: each is rebuilt on the drive of least load (extents in groups)
/// that has room and no member of the group. Blocks, records and held slots stay. After a fault some extents may have moved.
pub fn evacuate<D: Drive>(tiers: &mut Tiers<D>, drive: u8) -> Result<(), EvacuationFault>
    ensures evacuated { OnOk result ((T : Tiered) → RepresentsTiers tiers.old T → (G : Flat) × RepresentsTiers tiers.new (record T { flat = G })
        × IsSpread T.flat G × AreClearOf G.groups drive) }
    ensures err { IfErr result (λ fault. (T : Tiered) → RepresentsTiers tiers.old T → (G : Flat) × RepresentsTiers tiers.new (record T { flat = G })
        × NotEvacuated T.flat drive fault G) }
    ensures map { (T : Tiered) → RepresentsTiers tiers.old T → IsSame (key_at tiers.new.world.array) (key_at tiers.old.world.array) }
    ensures room { SameSizes tiers.old.world.array tiers.new.world.array }
{
    test_lost(tiers, drive)?;
    move_all(tiers, drive)?;
    test_clear(tiers.world().array().groups(), drive)
}

// Tests that a drive is lost.
fn test_lost<D: Drive>(tiers: &Tiers<D>, drive: u8) -> Result<(), EvacuationFault>
    ensures err { IfErr result (λ fault. (fault ≡ EvacuationFault.Present) × (lost_of tiers.now.world.array.parts drive ≡ false)) }
{
    if tiers.world().array().is_lost(drive) {
        return Ok(());
    }
    Err(EvacuationFault::Present)
}

// Moves extents until none is to be moved.
fn move_all<D: Drive>(tiers: &mut Tiers<D>, drive: u8) -> Result<(), EvacuationFault>
    ensures ok { OnOk result ((T : Tiered) → RepresentsTiers tiers.old T → (G : Flat) × RepresentsTiers tiers.new (record T { flat = G })
        × IsSpread T.flat G × IsRebuildOf G drive None) }
    ensures err { IfErr result (λ fault. (T : Tiered) → RepresentsTiers tiers.old T → (G : Flat) × RepresentsTiers tiers.new (record T { flat = G })
        × NotEvacuated T.flat drive fault G) }
    ensures room { SameSizes tiers.old.world.array tiers.new.world.array }
{
    for _ in 0..MOST_MOVES {
        match tiers.rebuild(drive)? {
            Regrouped::Moved(_) => {}
            Regrouped::Refused(refusal) => return Err(EvacuationFault::Refused(refusal)),
            Regrouped::Nothing => return Ok(()),
        }
    }
    // Not reached.
    Ok(())
}

// Tests that no group has a member on a drive.
fn test_clear(groups: &GroupTable, drive: u8) -> Result<(), EvacuationFault>
    ensures ok { OnOk result ((g : ℕ) → g < 512 → HasMemberOn groups.now g drive → ⊥) }
    ensures err { IfErr result (λ fault. (fault ≡ EvacuationFault.Stuck) × ((g : ℕ) × HasMemberOn groups.now g drive)) }
{
    for group in 0..GROUPS as u16 {
        test_members(groups.members(group), drive)?;
    }
    Ok(())
}

// Tests that none of a group's members is on a drive.
fn test_members(members: &[Member], drive: u8) -> Result<(), EvacuationFault>
    ensures ok { OnOk result ((k : ℕ) (m : Member) → slice_get members.now k ≡ Some m → m.drive ≢ drive) }
    ensures err { IfErr result (λ fault. (fault ≡ EvacuationFault.Stuck)
        × ((k : ℕ) × (m : Member) × (slice_get members.now k ≡ Some m) × (m.drive ≡ drive))) }
{
    for index in 0..members.len() {
        if members[index].drive == drive {
            return Err(EvacuationFault::Stuck);
        }
    }
    Ok(())
}
