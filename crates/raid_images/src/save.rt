//! A script whose array is kept.
use crate::digest::{Sum, sum_of};
use crate::names::Spot;
use crate::plan::{Step, plan};
use crate::store::{
    finish, forget, look, rename_file, reserve, sync_folder, sync_folders, write_fresh,
};
use crate::table::table_text;
use crate::trouble::Trouble;
use crate::words::Files;
use extents::{Drive, MemDrive};
use images::image_of;
use script_io::{Bench, run_and_leave};
use std::alloc::Global;
use unit_store::Parts;

// What a script leaves: its status, and the array, if it made one that is to be kept.
#[derive(Drop)]
struct Left {
    status: u8,
    bench: Option<Bench>,
}

// The parts of the array that a script leaves.
fn parts_of(alloc: Global, bench: Bench) -> Result<Parts<MemDrive>, Trouble> {
    let Bench { tiers, .. } = bench;
    let world = tiers.into_world();
    match world.into_array().into_parts(alloc) {
        Ok((parts, _claims)) => Ok(parts),
        Err(_) => Err(Trouble::Memory),
    }
}

// Answers the script on standard input. Its array is kept unless it ended out of memory or by a failed read or write. A wrong
// line leaves the array of the lines before it, whose answers are whole; the other ends may leave one of a line without its
// answer.
fn answer(rt: &HostRuntime) -> Left {
    let (end, bench) = run_and_leave(rt.alloc(), &mut rt.stdin(), &mut rt.stdout());
    let status = end.status();
    Left {
        status,
        bench: if status > 2 { None } else { bench },
    }
}

// An array that is being saved: its parts, the digests of the images that are written, and whether its table is in place.
#[derive(Drop)]
struct Saving {
    parts: Parts<MemDrive>,
    sums: Vec<Option<Sum>>,
    is_placed: bool,
}

impl Saving {
    // Writes the image of a drive under a name with `.new`. A lost drive's file stays empty.
    fn write_image(
        &mut self,
        rt: &HostRuntime,
        files: Files<'_, '_>,
        number: usize,
    ) -> Result<(), Trouble> {
        // Doesn't come: `keep` has compared the numbers.
        if number >= self.parts.drives.len() {
            return Ok(());
        }
        let drive = &mut self.parts.drives[number];
        let size = drive.unit_bytes();
        let sum = match image_of(rt.alloc(), drive, size)? {
            Some(image) => {
                write_fresh(rt, files, number.saturating_add(1), &image)?;
                Some(sum_of(&image))
            }
            None => None,
        };
        self.sums.push(sum)?;
        Ok(())
    }

    // Writes the table, makes all files with `.new` durable, and puts the table in place of the older one, by one rename.
    fn commit(
        &mut self,
        rt: &HostRuntime,
        files: Files<'_, '_>,
        spots: &[Spot],
    ) -> Result<(), Trouble> {
        let text = table_text(rt.alloc(), &self.parts.groups, &self.sums)?;
        write_fresh(rt, files, 0, &text)?;
        sync_folders(rt, files, spots)?;
        // After the folders' sync: else a loss of power could leave the new table without an image that it names.
        rename_file(rt, files, 0)?;
        self.is_placed = true;
        // The table has to be durable before an image of the older save is replaced.
        sync_folder(rt, files, 0)
    }

    // Carries out the steps of a save, in the order of the plan. A failure before `is_placed` leaves the older save, and files
    // with `.new` that `keep` removes. One after it leaves the new save, with images under names with `.new`, which the next
    // save renames.
    fn run(
        &mut self,
        rt: &HostRuntime,
        files: Files<'_, '_>,
        spots: &[Spot],
    ) -> Result<(), Trouble> {
        let steps = plan(rt.alloc(), files.images.len())?;
        for step in &steps {
            match *step {
                Step::Write(drive) => self.write_image(rt, files, drive)?,
                Step::Commit => self.commit(rt, files, spots)?,
                Step::Rename(drive) => rename_file(rt, files, drive.saturating_add(1))?,
            }
        }
        sync_folders(rt, files, spots)
    }
}

// Keeps an array in the files, whose names are reserved.
fn keep(
    rt: &HostRuntime,
    files: Files<'_, '_>,
    spots: &[Spot],
    bench: Bench,
) -> Result<(), Trouble> {
    let parts = match parts_of(rt.alloc(), bench) {
        Ok(parts) => parts,
        Err(trouble) => {
            forget(rt, files);
            return Err(trouble);
        }
    };
    // Known only here: the script may have added drives.
    if parts.drives.len() != files.images.len() {
        forget(rt, files);
        return Err(Trouble::Count(parts.drives.len(), files.images.len()));
    }
    let mut saving = Saving {
        parts,
        sums: Vec::new(rt.alloc()),
        is_placed: false,
    };
    let done = saving.run(rt, files, spots);
    // Once the table is placed, the files with `.new` are images that it names.
    if done.is_err() && !saving.is_placed {
        forget(rt, files);
    }
    done
}

/// Answers the script on standard input, and keeps its array in the files; the status is the script's. The files stay as they
/// are where the script made no array, or one with another number of drives, or ended out of memory or by a failed read or
/// write. A failure while they are written leaves them too, or the new save once its table is in place.
pub(crate) fn save(rt: &HostRuntime, files: Files<'_, '_>) -> Result<u8, Trouble> {
    // All tests of names, and what a stop left, before the script: its answers can't be taken back.
    let spots = look(rt, files)?;
    // Before `reserve`, which removes files with `.new`: the table may name them.
    finish(rt, files, &spots)?;
    if let Err(trouble) = reserve(rt, files) {
        forget(rt, files);
        return Err(trouble);
    }
    let Left { status, bench } = answer(rt);
    match bench {
        Some(bench) => keep(rt, files, &spots, bench)?,
        None => forget(rt, files),
    }
    Ok(status)
}
