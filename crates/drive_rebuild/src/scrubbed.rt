// All slots of an array that a vault has are tested.
ghost use Rattle.std.specs.Prelude.{◌≡◌, ◌*◌, false, true, IfOk};
ghost use Rattle.extents.specs.Sizes.{extent_units};
ghost use Rattle.extent_groups.specs.Cells.{Cells};
ghost use Rattle.vault.specs.Images.{recovered};
ghost use Rattle.unit_store.specs.Memory.{held_lost};
ghost use Rattle.array_recovery.specs.Found.{AreLastIfAttested, OnlyRead, with_cells};
ghost use Rattle.drive_rebuild.specs.ScrubbedVault.{AreWithoutLost, ReportsVault};

use crate::fault::RebuildFault;
use crate::scrub::{Findings, scrub_parts};
use array_recovery::{Found, find};
use extent_groups::GroupTable;
use extents::{DRIVES, ExtentTable, HotSwap, MemDrive, Shape};
use rotten_units::is_lost;
use std::alloc::Global;
use unit_store::Parts;
use vault::Vault;

/// What a test of all slots of a vault found, and what was tested.
#[derive(Drop)]
pub struct Scrubbed {
    pub findings: Findings,
    /// Which drives are lost.
    pub lost: [bool; DRIVES],
    /// The units that were compared, with the journal's writes. The lost drives say that they are.
    pub parts: Parts<MemDrive>,
}

// Makes a drive in memory lost, if it is to be.
fn lose_if(cache: &mut MemDrive, is_lost: bool)
    ensures kept { is_lost ≡ false → cache.new ≡ cache.old }
    ensures lost { is_lost ≡ true → held_lost cache.new ≡ true }
{
    if is_lost {
        cache.lose();
    }
}

// Makes the lost ones of the drives in memory say so.
fn lose_all(caches: &mut [MemDrive], lost: &[bool; DRIVES])
    ensures { AreWithoutLost lost.now caches.old caches.new }
{
    for drive in 0..caches.len() {
        lose_if(&mut caches[drive], is_lost(lost, drive));
    }
}

/// Tests all slots of an array that a vault has, as `scrub_parts` does, with what its journal writes. It is only read. The drives that the
/// table marks are lost, and so are those that are absent; what they share with others isn't compared. Refused where a unit of a drive
/// that isn't lost is rotten, and the journal doesn't write it.
pub fn scrub_vault<V: Vault>(
    alloc: Global,
    vault: &mut V,
    shape: &Shape,
    groups: GroupTable,
    extents: ExtentTable,
    drives: u8,
    absent: &[bool; DRIVES],
) -> Result<Scrubbed, RebuildFault>
    ensures stays { V.known vault.old → V.known vault.new }
    ensures read { V.known vault.old → OnlyRead V.seen V.may_leave V.moment V.left_since vault.old vault.new }

    // The slots that aren't sound are reported, and no others, of what lies in the vault with the journal's writes.
    ensures reported { V.known vault.old → IfOk result (ReportsVault groups drives (shape.now.extents * extent_units shape.now.segments) absent.now
        (recovered (V.seen vault.old))) }

    // No unit is compared that isn't as its digest says: where each other one is the one that was written last, these are compared.
    ensures honest { V.known vault.old → (written : Cells) → AreLastIfAttested (V.attested vault.old) drives absent.now (V.seen vault.old) written
        → IfOk result (ReportsVault groups drives (shape.now.extents * extent_units shape.now.segments) absent.now
        (recovered (with_cells (V.seen vault.old) written))) }
{
    let found = find(alloc, vault, shape, drives, absent)?;
    let Found {
        mut caches,
        marks: _,
        lost,
    } = found;
    lose_all(&mut caches, &lost);
    let mut parts = Parts {
        shape: *shape,
        groups,
        extents,
        drives: caches,
        note: None,
    };
    let findings = scrub_parts(alloc, &mut parts)?;
    Ok(Scrubbed {
        findings,
        lost,
        parts,
    })
}
