// One more drive, and extents that move onto it.
ghost use Rattle.std.specs.Prelude.{◌≡◌, ◌≢◌, ℕ, ◌<◌, IfErr, OnOk, None, false};
ghost use Rattle.extents.specs.Failures.{no_failures};
ghost use Rattle.map_join.specs.Maps.{IsSame};
ghost use Rattle.flat_machine.specs.Cases.{most_drives};
ghost use Rattle.flat_machine.specs.Flat.{Flat};
ghost use Rattle.flat_machine.specs.Moves.{with_new_drive};
ghost use Rattle.slot_tables.specs.Views.{SameSizes, key_at};
ghost use Rattle.tiered_array.specs.Matches.{RepresentsTiers};
ghost use Rattle.tiered_array.specs.Regrouping.{IsBalanceOf};
ghost use Rattle.tiered_array.specs.Tiered.{Tiered};
ghost use Rattle.array_expansion.specs.Expansion.{IsExpanded, IsSpread, NotExpanded, NotSpread};

use crate::ExpansionFault;
use std::alloc::Global;
use step_core::{Answer, Drive, HotSwap};
use tiered_array::{Regrouped, Tiers};

// One more than the moves that there can be: each lowers the sum of the squares of the loads by two at least, and that of 16 drives
// of 512 extents is 16 * 512 * 512 at most.
const MOST_MOVES: u32 = 16 * 512 * 512 / 2 + 1;

/// Adds a drive whose units are all zero, and moves extents, one after another, until no two drives' loads (extents in groups) are
/// two apart where one could be moved. Blocks, records and held slots stay. After a fault some extents may have moved.
pub fn expand<D: HotSwap + Drop>(alloc: Global, tiers: &mut Tiers<D>) -> Result<(), ExpansionFault>
    ensures grown { OnOk result ((T : Tiered) → RepresentsTiers tiers.old T → (U : Tiered) × RepresentsTiers tiers.new U
        × IsExpanded T.flat U.flat × IsBalanceOf U.flat None × (U ≡ record T { flat = U.flat })) }
    ensures err { IfErr result (λ fault. (T : Tiered) → RepresentsTiers tiers.old T → (U : Tiered) × RepresentsTiers tiers.new U
        × NotExpanded T.flat fault U.flat × (U ≡ record T { flat = U.flat })) }
    ensures map { (T : Tiered) → RepresentsTiers tiers.old T → IsSame (key_at tiers.new.world.array) (key_at tiers.old.world.array) }
    ensures room { SameSizes tiers.old.world.array tiers.new.world.array }
{
    attach(alloc, tiers)?;
    spread(tiers)
}

// Adds a drive.
fn attach<D: HotSwap + Drop>(alloc: Global, tiers: &mut Tiers<D>) -> Result<(), ExpansionFault>
    ensures ok { OnOk result ((T : Tiered) → RepresentsTiers tiers.old T → (T.flat.drives < most_drives)
        × RepresentsTiers tiers.new (record T { flat = with_new_drive T.flat false no_failures })) }
    ensures err { IfErr result (λ fault. (T : Tiered) → RepresentsTiers tiers.old T
        → RepresentsTiers tiers.new T × NotExpanded T.flat fault T.flat) }
    ensures room { SameSizes tiers.old.world.array tiers.new.world.array }
{
    let answer = tiers.add_drive(alloc)?;
    added(answer)
}

// What an answer to a drive that is added means. It is refused with `Full` alone.
fn added(answer: Answer) -> Result<(), ExpansionFault>
    ensures ok { OnOk result ((n : ℕ) × (answer ≡ Answer.Added n)) }
    ensures err { IfErr result (λ fault. (fault ≡ ExpansionFault.Full) × ((n : ℕ) → answer ≢ Answer.Added n)) }
{
    match answer {
        Answer::Added(_) => Ok(()),
        _ => Err(ExpansionFault::Full),
    }
}

// Moves extents until none is to be moved.
fn spread<D: Drive>(tiers: &mut Tiers<D>) -> Result<(), ExpansionFault>
    ensures ok { OnOk result ((T : Tiered) → RepresentsTiers tiers.old T → (G : Flat) × RepresentsTiers tiers.new (record T { flat = G })
        × IsSpread T.flat G × IsBalanceOf G None) }
    ensures err { IfErr result (λ fault. (T : Tiered) → RepresentsTiers tiers.old T → (G : Flat) × RepresentsTiers tiers.new (record T { flat = G })
        × NotSpread T.flat fault G) }
    ensures room { SameSizes tiers.old.world.array tiers.new.world.array }
{
    for _ in 0..MOST_MOVES {
        match tiers.balance()? {
            Regrouped::Moved(_) => {}
            Regrouped::Refused(refusal) => return Err(ExpansionFault::Refused(refusal)),
            Regrouped::Nothing => return Ok(()),
        }
    }
    // Not reached.
    Ok(())
}
