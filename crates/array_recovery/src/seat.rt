// Drives in memory, each with the hand of its number.
ghost use Rattle.std.specs.Prelude.{◌≡◌, ◌++◌, [], ◌∷◌, ℕ, Some, slice_get, IfOk, IfSome, IfNone};
ghost use Rattle.extents.specs.Condition.{Held};
ghost use Rattle.extents.specs.declared.mem_drive.Condition.TheVariants.{Present};
ghost use Rattle.history.specs.Entries.{entry};
ghost use Rattle.vault.specs.Images.{is_lost as is_lost_of};
ghost use Rattle.array_recovery.specs.Found.{AreSeated};

use crate::fault::RecoveryFault;
use cached_drive::{CachedDrive, Saved};
use extents::{DRIVES, MemDrive};
use history::{Chronicle, Hand, History, Keeper};
use rotten_units::is_lost;
use std::alloc::Global;

// A drive of these units with this hand, lost or not.
fn seat<N: Chronicle>(
    alloc: Global,
    cache: MemDrive,
    history: &History<N, Saved>,
    keeper: &mut Keeper<N, Saved>,
    hand: Hand<N, Saved>,
    is_lost: bool,
) -> CachedDrive<N>
    requires present { cache.condition ≡ Present }
    requires first { hand.mine ≡ [] }
    ensures units { result.cache.units ≡ cache.units }
    ensures lost { result.lost ≡ is_lost }
    ensures keeper { keeper.new ≡ record { hired = keeper.old.hired; log = keeper.old.log ++ entry hand.number cache.units ∷ [] } }
{
    let mut drive = CachedDrive::new(alloc, cache, history, keeper, hand);
    if is_lost {
        drive.lose();
    }
    drive
}

// Takes the first away.
fn take_first(caches: &mut Vec<MemDrive>) -> Option<MemDrive>
    ensures some { IfSome result (λ m. caches.old.items ≡ m ∷ caches.new.items) }
    ensures none { IfNone result (caches.old.items ≡ []) }
{
    if caches.is_empty() {
        return None;
    }
    Some(caches.remove(0))
}

/// A drive for each of those in memory, in their order, with the hands of the numbers from 0 on.
pub(crate) fn seat_all<N: Chronicle>(
    alloc: Global,
    history: &History<N, Saved>,
    keeper: &mut Keeper<N, Saved>,
    first: Hand<N, Saved>,
    caches: Vec<MemDrive>,
    lost: &[bool; DRIVES],
) -> Result<Vec<CachedDrive<N>>, RecoveryFault>
    requires keeper { keeper.old ≡ record { hired = 1; log = [] } }
    requires first { first ≡ record { number = 0; seen = []; mine = [] } }
    requires present { (d : ℕ) (m : Held) → slice_get caches.items d ≡ Some m → m.condition ≡ Present }
    ensures { IfOk result (λ drives. AreSeated (λ x. x.cache.units) (λ x. x.lost) lost.now caches.items drives.items keeper.new) }
{
    let mut caches = caches;
    let mut drives = Vec::new(alloc);
    let Some(cache) = take_first(&mut caches) else {
        return Err(RecoveryFault::Unsound);
    };
    let drive = seat(alloc, cache, history, keeper, first, is_lost(lost, 0));
    drives.push(drive)?;
    while !caches.is_empty() {
        let Some(cache) = take_first(&mut caches) else {
            return Err(RecoveryFault::Unsound);
        };
        let Some(hand) = keeper.hire(history) else {
            return Err(RecoveryFault::Memory);
        };
        let is_lost = is_lost(lost, drives.len());
        let drive = seat(alloc, cache, history, keeper, hand, is_lost);
        drives.push(drive)?;
    }
    Ok(drives)
}
