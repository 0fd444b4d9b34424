// The drives that stay, read into memory.
ghost use Rattle.std.specs.Prelude.{◌≡◌, ◌≢◌, ◌<◌, ◌≤◌, ℕ, true, Some, length, slice_get, IfOk};
ghost use Rattle.extents.specs.Condition.{Held};
ghost use Rattle.unit_store.specs.Memory.{held_lost};
ghost use Rattle.vault.specs.Images.{Image};
ghost use Rattle.array_recovery.specs.Found.{OnlyRead};
ghost use Rattle.drive_removal.specs.Shortened.{AreOthersOf};

use crate::fault::RemovalFault;
use array_recovery::load_drives;
use extents::{DRIVES, HotSwap, MemDrive, Shape};
use std::alloc::Global;
use vault::Vault;

// Loses a drive in memory.
fn lose_at(drives: &mut [MemDrive], number: usize)
    requires { number < length drives.old }
    ensures lost { (m : Held) → slice_get drives.new number ≡ Some m → held_lost m ≡ true }
    ensures others { (d : ℕ) → d ≢ number → slice_get drives.new d ≡ slice_get drives.old d }
    ensures many { length drives.new ≡ length drives.old }
{
    drives[number].lose();
}

/// The units of each drive but the last, as the vault has them without its journal. The last is lost, and isn't read.
pub(crate) fn load_others<V: Vault>(
    alloc: Global,
    vault: &mut V,
    shape: &Shape,
    drives: u8,
) -> Result<Vec<MemDrive>, RemovalFault>
    requires some { 0 < drives }
    requires few { drives ≤ 16 }
    ensures stays { V.known vault.old → V.known vault.new }
    ensures read { V.known vault.old → OnlyRead V.seen V.may_leave V.moment V.left_since vault.old vault.new }
    ensures others { V.known vault.old → IfOk result (λ caches. AreOthersOf (Image.cells (V.seen vault.old)) drives caches.items) }
    ensures many { IfOk result (λ caches. length caches.items ≡ drives) }
{
    let last = usize::from(drives - 1);
    let mut lost = [false; DRIVES];
    lost[last] = true;
    let mut caches = load_drives(alloc, vault, shape, drives, &lost)?;
    lose_at(&mut caches, last);
    Ok(caches)
}
