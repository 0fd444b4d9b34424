// An array over disks, which a crash leaves as they were at the last sync.
use crate::desk::Desk;
use crate::disk::Disk;
use crate::restarts::restarted;
use crate::volume::Volume;
use anyhow::{Result, bail};
use file_drive::FileDrive;
use std::alloc::Global;
use step_core::{Class, Shape};

/// A drive for each of three disks of zeros.
pub(crate) fn open_disks(alloc: Global, shape: &Shape) -> Result<Vec<FileDrive<Disk>>> {
    let bytes = shape.drive_units() as usize * shape.unit_bytes();
    let mut drives = Vec::new(alloc);
    for _made in 0..3 {
        drives.push(opened(alloc, shape, Disk::new(alloc, bytes)?)?)?;
    }
    Ok(drives)
}

// A disk as a drive.
fn opened(alloc: Global, shape: &Shape, disk: Disk) -> Result<FileDrive<Disk>> {
    match FileDrive::open(alloc, shape, disk) {
        Ok(drive) => Ok(drive),
        Err(refusal) => bail!("refused {}", refusal.number()),
    }
}

impl Volume<FileDrive<Disk>> {
    /// The array that is found after a crash, by the headers of its disks. A drive is closed for its disk, because what a
    /// drive keeps in memory is lost with the process.
    pub(crate) fn crash(self) -> Result<Volume<FileDrive<Disk>>> {
        let Volume { alloc, array, desk } = self;
        let Ok((mut parts, seats)) = array.into_parts(alloc) else {
            bail!("no memory");
        };
        let mut drives = Vec::new(alloc);
        for drive in parts.drives {
            match drive.close() {
                Ok(disk) => drives.push(opened(alloc, &parts.shape, disk.crash(alloc)?)?)?,
                Err(_) => bail!("a drive is lost"),
            }
        }
        parts.drives = drives;
        restarted(alloc, parts, seats, desk)
    }
}

/// Writes two blocks, and makes the first durable before the second. Returns what both are after a crash: the second is
/// absent, since nothing synced it.
pub(crate) fn keep(alloc: Global, shape: Shape) -> Result<(Option<[u8; 8]>, Option<[u8; 8]>)> {
    let drives = open_disks(alloc, &shape)?;
    let mut volume = Volume::new(alloc, shape, drives, Desk::new())?;
    write_both(&mut volume)?;
    let mut volume = volume.crash()?;
    Ok((volume.find(3)?, volume.find(5)?))
}

// Writes two blocks, with a sync between them.
fn write_both(volume: &mut Volume<FileDrive<Disk>>) -> Result<()> {
    volume.make(Class::Mirrored, [0, 1, 2], 0)?;
    volume.write(0, 3, &[7; 8])?;
    volume.array.sync();
    volume.write(1, 5, &[9; 8])?;
    Ok(())
}
