// Rotten units are computed from the others and tested, written, and all is read back.
ghost use Rattle.std.specs.Prelude.{◌≡◌, ◌*◌, ◌<◌, OnOk};
ghost use Rattle.extents.specs.Sizes.{extent_units};
ghost use Rattle.extent_groups.specs.declared.place.Place.{Place};
ghost use Rattle.extent_groups.specs.Calls.{KeepsDrives};
ghost use Rattle.extent_groups.specs.Cells.{Cells};
ghost use Rattle.unit_store.specs.Losses.{KeepsTables};
ghost use Rattle.unit_store.specs.Memory.{held_failures, held_lost, held_units};
ghost use Rattle.unit_store.specs.Slots.{cells_in};
ghost use Rattle.vault.specs.Images.{Image};
ghost use Rattle.vault.specs.Marks.{Has};
ghost use Rattle.vault.specs.Moments.{LeavesOnly};
ghost use Rattle.vault.specs.declared.store.Stop.{Stop};
ghost use Rattle.rotten_units.specs.Faults.{UnlessVault};
ghost use Rattle.rotten_units.specs.Rows.{AreNotedOnce, AreRowsWhole};
ghost use Rattle.rotten_units.specs.Written.{DiffersAt, WroteAt};
ghost use Rattle.unit_repair.specs.Computed.{Answer, IsComputed, SameButNoted, WroteRight};
ghost use Rattle.unit_repair.specs.Mended.{AreVerified, AttestsUsed, AttestsWritten, IsAtRest, IsMended, LeavesUnits, MayBeMended};

use crate::verify::{confirm, test_touched};
use extent_groups::GroupTable;
use extents::{DRIVES, ExtentTable, MemDrive, Shape};
use rotten_units::{Loaded, MendFault, compute_rotten, find_gone, load_units, write_rotten};
use std::alloc::Global;
use unit_store::Parts;
use vault::{Places, Vault};

// Computes the rotten units of the drives in memory; false where the sizes don't fit. Takes two buffers of a unit's length.
fn compute_parts(
    parts: &mut Parts<MemDrive>,
    rotten: &Places,
    sum: &mut [u8],
    part: &mut [u8],
) -> bool
    ensures tables { KeepsTables parts.old parts.new }
    ensures kept { KeepsDrives held_units held_lost held_failures (Has rotten.now.marks.items) parts.old.drives.items parts.new.drives.items }
{
    let drives: &mut [MemDrive] = &mut parts.drives;
    compute_rotten(&parts.groups, drives, rotten, sum, part)
}

// Tests that of each pair of copies, and of each row, one unit at most is rotten.
fn test_once(groups: &GroupTable, rotten: &Places) -> Result<(), MendFault>
    ensures { OnOk result (AreNotedOnce (Has rotten.now.marks.items) groups.now) }
{
    match find_gone(groups, rotten) {
        Some(slot) => Err(MendFault::Gone(slot)),
        None => Ok(()),
    }
}

// Computes the rotten units of the drives in memory, and tests their slots.
fn compute(alloc: Global, parts: &mut Parts<MemDrive>, rotten: &Places) -> Result<(), MendFault>
    requires { Answer parts.old.drives.items }
    ensures tables { KeepsTables parts.old parts.new }
    ensures computed { OnOk result (IsComputed (Has rotten.now.marks.items) parts.old parts.new) }
{
    test_once(&parts.groups, rotten)?;
    let mut sum = vec![in alloc; 0u8; parts.shape.unit_bytes()]?;
    let mut part = vec![in alloc; 0u8; parts.shape.unit_bytes()]?;
    if !compute_parts(parts, rotten, &mut sum, &mut part) {
        return Err(MendFault::Misfit);
    }
    test_touched(alloc, parts, rotten)
}

// Computes the units of the first drives that are rotten from the others, tests them, writes them to their places and syncs them; returns
// how many.
fn write_again<V: Vault>(
    alloc: Global,
    vault: &mut V,
    parts: &mut Parts<MemDrive>,
    rotten: &Places,
    first: u8,
) -> Result<u32, MendFault>
    requires { Answer parts.old.drives.items }
    ensures stays { V.known vault.old → V.known vault.new }
    ensures groups { parts.new.groups ≡ parts.old.groups }
    ensures once { OnOk result (AreNotedOnce (Has rotten.now.marks.items) parts.old.groups) }
    ensures wrote { V.known vault.old → WroteAt V.seen V.may_leave V.moment V.left_since (Has rotten.now.marks.items) vault.old vault.new }
    ensures units { V.known vault.old → (written : Cells) → AreRowsWhole parts.old.groups written
        → SameButNoted (Has rotten.now.marks.items) parts.old.groups (cells_in held_units held_lost parts.old) written
        → UnlessVault result (WroteRight V.seen V.attested (Has rotten.now.marks.items) parts.old.groups written vault.old vault.new) }
    ensures durable { V.known vault.old → OnOk result (LeavesUnits V.seen V.may_leave vault.new) }
{
    compute(alloc, parts, rotten)?;
    let mut unit = vec![in alloc; 0u8; parts.shape.unit_bytes()]?;
    let units = parts.shape.drive_units();
    let caches: &mut [MemDrive] = &mut parts.drives;
    let count = write_rotten(vault, rotten, caches, first, units, &mut unit)?;
    vault.sync_units(&[false; DRIVES])?;
    Ok(count)
}

/// Mends the units of drives that aren't as their digests say: each is computed from its copy, or from the rest of its row, and written
/// again. A unit of no group gets zeros. Then all drives are read back, and all slots tested. No drive may be lost, and the journal is
/// settled first. Returns how many were mended; if there are none, all is read once, and nothing written. Refused before anything is
/// written where two units of one row are rotten, as Gone, or where what was computed isn't sound with the others, as Unsound. Stopped or
/// refused, open the vault again and try again.
pub fn mend<V: Vault>(
    alloc: Global,
    vault: &mut V,
    shape: &Shape,
    groups: GroupTable,
    extents: ExtentTable,
    drives: u8,
) -> Result<u32, MendFault>
    ensures stays { V.known vault.old → V.known vault.new }

    // Where each attested unit is the one that was written last, and those were sound, after Ok all units of the groups are those.
    ensures mended { V.known vault.old → (written : Cells) → IsAtRest V.seen V.may_leave vault.old
        → AreVerified groups drives (shape.now.extents * extent_units shape.now.segments) written
        → AttestsWritten (V.attested vault.old) drives written (Image.cells (V.seen vault.old))
        → OnOk result (IsMended V.seen V.may_leave V.attested groups drives (shape.now.extents * extent_units shape.now.segments) written vault.new) }

    // And each attested unit of the groups still is the one that was written last, also where it is refused, unless a call of the vault failed.
    ensures honest { V.known vault.old → (written : Cells) → AreVerified groups drives (shape.now.extents * extent_units shape.now.segments) written
        → AttestsWritten (V.attested vault.old) drives written (Image.cells (V.seen vault.old))
        → UnlessVault result (AttestsUsed groups (V.attested vault.new) written (Image.cells (V.seen vault.new))) }

    // Only units of these drives that aren't attested are written, also where it is refused; and a stop at any moment leaves the others.
    ensures others { V.known vault.old
        → DiffersAt (MayBeMended (V.attested vault.old) drives (shape.now.extents * extent_units shape.now.segments)) (V.seen vault.old) (V.seen vault.new) }
    ensures any_moment { V.known vault.old → IsAtRest V.seen V.may_leave vault.old → (stop : Stop)
        → LeavesOnly V.moment V.left_since stop vault.old vault.new
        (DiffersAt (MayBeMended (V.attested vault.old) drives (shape.now.extents * extent_units shape.now.segments)) (V.seen vault.old)) }
{
    let found = load_units(alloc, vault, shape, drives, &[false; DRIVES])?;
    if found.rotten.first().is_none() {
        confirm(alloc, shape, groups, extents, found)?;
        return Ok(0);
    }
    let Loaded { caches, rotten } = found;
    let mut parts = Parts {
        shape: *shape,
        groups,
        extents,
        drives: caches,
        note: None,
    };
    let count = write_again(alloc, vault, &mut parts, &rotten, drives)?;
    // All is read again, and memory needs to be enough for it only once.
    parts.drives.clear();
    let again = load_units(alloc, vault, shape, drives, &[false; DRIVES])?;
    confirm(alloc, shape, parts.groups, parts.extents, again)?;
    Ok(count)
}
