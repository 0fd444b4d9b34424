// The units of new files: zeros, each with its digest.
ghost use Rattle.std.specs.Prelude.{◌≡◌, ◌≤◌, ◌⊎◌, replicate, OnOk};
ghost use Rattle.extent_groups.specs.declared.place.Place.{Place};
ghost use Rattle.file_vault.specs.Layouts.{size_of, IsBlank};
ghost use Rattle.file_vault.specs.Vaults.{plan_of};

use crate::files::Files;
use crate::layout::Layout;
use crate::over_files::fault_of;
use crate::sealed::seal;
use extent_groups::Place;
use std::alloc::Global;
use vault::{TABLE, VaultError};

// Writes the blank unit of a place.
fn write_blank<F: Files>(
    files: &mut F,
    layout: &Layout,
    bytes: &mut Vec<u8>,
    zeros: &[u8],
    place: Place,
) -> Result<(), VaultError>
    requires { zeros.now ≡ replicate (size_of layout.now.unit_bytes layout.now.table_bytes place.drive) 0 }
    ensures stays { F.known files.old → F.known files.new }
    ensures blank { F.known files.old → OnOk result ((x : Place) → (x ≡ place) ⊎ IsBlank (plan_of layout.now) (F.seen files.old) x
        → IsBlank (plan_of layout.now) (F.seen files.new) x) }
{
    let offset = seal(layout, bytes, place, zeros)?;
    match files.write_at(place.drive, offset, bytes) {
        Ok(()) => Ok(()),
        Err(_) => Err(fault_of(place.drive)),
    }
}

// Writes the blank units of a drive, or of the table.
fn blank_drive<F: Files>(
    alloc: Global,
    files: &mut F,
    layout: &Layout,
    bytes: &mut Vec<u8>,
    drive: u8,
) -> Result<(), VaultError>
    ensures stays { F.known files.old → F.known files.new }
    ensures blank { F.known files.old → OnOk result ((x : Place) → (x.drive ≡ drive) ⊎ IsBlank (plan_of layout.now) (F.seen files.old) x
        → IsBlank (plan_of layout.now) (F.seen files.new) x) }
{
    let zeros = vec![in alloc; 0u8; layout.size(drive) as usize]?;
    for address in 0..layout.count(drive) {
        write_blank(files, layout, bytes, &zeros, Place { drive, address })?;
    }
    Ok(())
}

/// Writes the blank units of all drives, and the table's.
pub(crate) fn write_blanks<F: Files>(
    alloc: Global,
    files: &mut F,
    layout: &Layout,
) -> Result<(), VaultError>
    ensures stays { F.known files.old → F.known files.new }
    ensures blank { F.known files.old → OnOk result ((x : Place) → IsBlank (plan_of layout.now) (F.seen files.new) x) }
{
    let mut bytes = Vec::new(alloc);
    for drive in 0..TABLE + 1 {
        blank_drive(alloc, files, layout, &mut bytes, drive)?;
    }
    Ok(())
}
