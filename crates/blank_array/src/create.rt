// The files of a new disk.
ghost use Rattle.std.specs.Prelude.{◌≡◌, ◌≤◌, ◌<◌, [], ℕ, IfOk};
ghost use Rattle.extents.specs.Shapes.{IsShapeOf};
ghost use Rattle.extent_groups.specs.Groups.{Groups};
ghost use Rattle.journaled_store.specs.Left.{HasBoth};
ghost use Rattle.array_recovery.specs.Reopened.{IsSoundFor};
ghost use Rattle.blank_array.specs.Blank.{IsBlankVault, unit_count, zeros_shown};
ghost use Rattle.blank_array.specs.Files.{IsLayoutOf};

use crate::fault::BlankFault;
use crate::make::make_array;
use extent_groups::GroupTable;
use extents::{DRIVES, ExtentTable, Shape};
use file_vault::{FileVault, Files, Layout};
use std::alloc::Global;
use vault::{Vault, VaultError};

// Units of a drive, none past the last.
fn count_at(units: u32, drive: usize, drives: u8) -> u32
    ensures { drive < drives → result ≡ units }
{
    if drive < usize::from(drives) {
        units
    } else {
        0
    }
}

/// Where the units of an array of `drives` drives lie in files.
pub fn layout_for(shape: &Shape, drives: u8) -> Layout
    ensures { (groups : Groups) → drives ≤ 16 → IsShapeOf shape.now groups.extents groups.segments groups.payload groups.blocks → IsLayoutOf result groups drives }
{
    let units = shape.drive_units();
    let mut counts = [0u32; DRIVES];
    for drive in 0..DRIVES {
        counts[drive] = count_at(units, drive, drives);
    }
    Layout {
        unit_bytes: shape.unit_bytes() as u32,
        table_bytes: DRIVES as u32,
        counts,
    }
}

/// Makes a vault over files, by `FileVault::create`: where the layout is that of an array, the vault is blank. An error hands the
/// files back.
pub fn create_vault<F: Files + Drop>(
    alloc: Global,
    files: F,
    layout: Layout,
) -> Result<FileVault<F>, (VaultError, F)>
    ensures known { F.known files → IfOk result (λ v. ⟦<FileVault<F> as Vault>⟧.known v) }
    ensures layout { IfOk result (λ v. v.layout ≡ layout) }
    ensures blank { F.known files → (groups : Groups) (drives : ℕ) → IsLayoutOf layout groups drives
        → IfOk result (λ v. IsBlankVault ⟦<FileVault<F> as Vault>⟧.seen ⟦<FileVault<F> as Vault>⟧.may_leave groups drives v) }
{
    FileVault::create(alloc, files, layout)
}

/// Makes a disk in files: a blank vault, and in it an array of `drives` drives with these groups, durably. After Ok a store that shows
/// zeros, of any size, is opened, and outlasts the next stop.
pub fn make_disk<F: Files + Drop>(
    alloc: Global,
    files: F,
    groups: &GroupTable,
    extents: &ExtentTable,
    drives: u8,
) -> Result<FileVault<F>, BlankFault>
    ensures known { F.known files → IfOk result (λ v. ⟦<FileVault<F> as Vault>⟧.known v) }
    ensures made { F.known files → (size : ℕ) → IfOk result (λ v. IsSoundFor HasBoth ⟦<FileVault<F> as Vault>⟧.seen ⟦<FileVault<F> as Vault>⟧.may_leave
        (zeros_shown size) groups.now drives (unit_count groups.now) [] v) }
{
    let shape = groups.shape();
    let mut vault = match create_vault(alloc, files, layout_for(&shape, drives)) {
        Ok(vault) => vault,
        Err((error, _files)) => return Err(BlankFault::Vault(error)),
    };
    make_array(alloc, &mut vault, groups, extents, drives)?;
    Ok(vault)
}
