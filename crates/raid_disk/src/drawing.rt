//! A disk is drawn: what each unit of each drive is.
ghost use Rattle.std.specs.Prelude.{◌≡◌};

use crate::disk_vault::DiskVault;
use crate::folder::Folder;
use crate::opened::{Disk, OpenFiles, Use, open_array, open_disk_files};
use crate::trouble::Trouble;
use cached_drive::Saved;
use history::{Chronicle, Opened};
use picture::draw;
use std::io::Write;
use std::marker::Brand;
use vault::Vault;

// Draws a disk that is open.
fn draw_disk<N: Chronicle, V: Vault + Drop>(
    rt: &HostRuntime,
    disk: &Disk<N, V>,
) -> Result<u8, Trouble> {
    let array = disk.store.world().array();
    let Ok(map) = array.map(rt.alloc()) else {
        return Err(Trouble::Memory);
    };
    let lost = array.lost();
    let drawn = draw(
        rt.alloc(),
        array.groups(),
        array.extents(),
        &map,
        &lost,
        None,
    )?;
    match rt.stdout().write_all(drawn.as_bytes()) {
        Ok(()) => Ok(0),
        Err(error) => Err(Trouble::Output(error)),
    }
}

// Draws a disk whose files are open.
fn draw_files<N: Chronicle, V: Vault + Drop>(
    rt: &HostRuntime,
    folder: Folder<'_>,
    files: OpenFiles<V>,
    opened: Opened<Saved>,
) -> Result<u8, Trouble>
    requires { opened ≡ N.chronicle }
{
    let disk = open_array::<N, V>(rt, folder, files, 0, opened)?;
    draw_disk(rt, &disk)
}

// Draws a disk.
fn draw_opened<N: Chronicle>(
    rt: &HostRuntime,
    folder: Folder<'_>,
    opened: Opened<Saved>,
) -> Result<u8, Trouble>
    requires { opened ≡ N.chronicle }
{
    let (_lock, files) = open_disk_files(rt, folder, Use::Looks)?;
    draw_files::<N, DiskVault>(rt, folder, files, opened)
}

/// Prints a picture of a disk, in SVG.
pub(crate) fn print_picture(rt: &HostRuntime, folder: Folder<'_>) -> Result<u8, Trouble> {
    let opened = Opened::new(rt.alloc())?;
    draw_opened::<Brand>(rt, folder, opened)
}
