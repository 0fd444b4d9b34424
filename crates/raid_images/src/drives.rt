//! Drives from images.
ghost use Rattle.std.specs.Prelude.{◌≡◌, None, IfOk};

use crate::choice::{Choice, choose, owner_of};
use crate::digest::{Sum, sum_of};
use crate::store::{bytes_at, bytes_of};
use crate::table::Table;
use crate::trouble::{Name, Trouble};
use crate::words::{Files, LOST};
use extents::{Drive, HotSwap, MemDrive, Shape};
use images::{ImageRefusal, load};
use std::alloc::Global;
use unit_store::Parts;

/// An image that isn't the one that the table names.
#[derive(Clone, Copy, Debug, PartialEq, Eq)]
pub(crate) struct Wrong {
    /// The drive that it is given for.
    pub(crate) drive: usize,
    /// The drive of the same save whose image it is, if it is one's. Else it is another save's, or damaged.
    pub(crate) owner: Option<usize>,
}

/// What the files of an array hold.
#[derive(Drop)]
pub(crate) struct Loaded {
    pub(crate) parts: Parts<MemDrive>,
    /// The images that aren't those that the table names.
    pub(crate) wrong: Vec<Wrong>,
    /// Whether the table has digests.
    pub(crate) is_compared: bool,
}

// A drive that is lost.
fn lost(alloc: Global, shape: &Shape) -> Result<MemDrive, Trouble> {
    let mut drive = MemDrive::new(alloc, shape)?;
    drive.lose();
    Ok(drive)
}

// The drive of an image's bytes; a wrong length is refused with the file's number (0 is the table, 1 the first image).
fn drive_of(alloc: Global, shape: &Shape, image: &[u8], file: usize) -> Result<MemDrive, Trouble> {
    match load(alloc, shape, image) {
        Ok(drive) => Ok(drive),
        Err(ImageRefusal::Memory) => Err(Trouble::Memory),
        Err(ImageRefusal::Length) => {
            let needs = (shape.drive_units() as usize).saturating_mul(shape.unit_bytes());
            Err(Trouble::Length(file, image.len(), needs))
        }
    }
}

// The digest of bytes, if there are any.
fn sum_of_some(bytes: &Option<Vec<u8>>) -> Option<Sum> {
    match bytes {
        Some(bytes) => Some(sum_of(bytes)),
        None => None,
    }
}

// The image that the table names, from the file of its name or the one with `.new`; or what the first has, and what is wrong with it.
fn compared(
    rt: &HostRuntime,
    files: Files<'_, '_>,
    file: usize,
    sums: &[Option<Sum>],
    expected: &Sum,
) -> Result<(Vec<u8>, Option<Wrong>), Trouble> {
    let kept = bytes_at(rt, files, Name::Kept(file))?;
    let kept_sum = sum_of_some(&kept);
    let fresh = if kept_sum == Some(*expected) {
        None
    } else {
        bytes_at(rt, files, Name::Fresh(file))?
    };
    let choice = choose(expected, &kept_sum, &sum_of_some(&fresh));
    match (choice, kept, fresh) {
        (Choice::Kept, Some(bytes), _) => Ok((bytes, None)),
        (Choice::Fresh, _, Some(bytes)) => Ok((bytes, None)),
        // It is loaded all the same: `salvage` reads it, and `check` names it and goes on.
        (_, Some(bytes), _) => {
            let owner = kept_sum.and_then(|sum| owner_of(sums, &sum));
            let drive = file.saturating_sub(1);
            Ok((bytes, Some(Wrong { drive, owner })))
        }
        // Nothing is there: the error is that of a read.
        (_, None, _) => Ok((bytes_of(rt, files, Name::Kept(file))?, None)),
    }
}

// The drive of a file, and what is wrong with its image.
fn read_drive(
    rt: &HostRuntime,
    files: Files<'_, '_>,
    file: usize,
    shape: &Shape,
    sums: &[Option<Sum>],
) -> Result<(MemDrive, Option<Wrong>), Trouble> {
    if files.name(file) == LOST {
        return Ok((lost(rt.alloc(), shape)?, None));
    }
    let (image, wrong) = match sums.get(file.saturating_sub(1)) {
        Some(Some(expected)) => compared(rt, files, file, sums, expected)?,
        // `save` writes an empty file for it, so this isn't its image.
        Some(None) => return Err(Trouble::WasLost(file)),
        None => (bytes_of(rt, files, Name::Kept(file))?, None),
    };
    Ok((drive_of(rt.alloc(), shape, &image, file)?, wrong))
}

// The table, which has as many drives as images are named.
fn read_table(rt: &HostRuntime, files: Files<'_, '_>) -> Result<Table, Trouble> {
    let text = bytes_of(rt, files, Name::Kept(0))?;
    let table = Table::parse(rt.alloc(), &text)?;
    // Before any image is read: each is known by its place among the names.
    if files.images.len() != usize::from(table.drives) {
        return Err(Trouble::Count(usize::from(table.drives), files.images.len()));
    }
    Ok(table)
}

fn read_each(
    rt: &HostRuntime,
    files: Files<'_, '_>,
    shape: &Shape,
    sums: &[Option<Sum>],
    drives: &mut Vec<MemDrive>,
    wrong: &mut Vec<Wrong>,
) -> Result<(), Trouble> {
    for number in 0..files.images.len() {
        let (drive, bad) = read_drive(rt, files, number.saturating_add(1), shape, sums)?;
        drives.push(drive)?;
        if let Some(bad) = bad {
            wrong.push(bad)?;
        }
    }
    Ok(())
}

// The drives of the images, and what is wrong with some of them.
fn read_drives(
    rt: &HostRuntime,
    files: Files<'_, '_>,
    shape: &Shape,
    sums: &[Option<Sum>],
) -> Result<(Vec<MemDrive>, Vec<Wrong>), Trouble> {
    let mut drives = Vec::new(rt.alloc());
    let mut wrong = Vec::new(rt.alloc());
    read_each(rt, files, shape, sums, &mut drives, &mut wrong)?;
    Ok((drives, wrong))
}

/// The parts of the array of a table, its drives those of the images.
pub(crate) fn load_files(rt: &HostRuntime, files: Files<'_, '_>) -> Result<Loaded, Trouble>
    ensures { IfOk result (λ loaded. loaded.parts.note ≡ None) }
{
    let table = read_table(rt, files)?;
    let (drives, wrong) = read_drives(rt, files, &table.shape, &table.sums)?;
    let Table {
        shape,
        groups,
        extents,
        sums,
        ..
    } = table;
    Ok(Loaded {
        parts: Parts {
            shape,
            groups,
            extents,
            drives,
            note: None,
        },
        wrong,
        is_compared: !sums.is_empty(),
    })
}
