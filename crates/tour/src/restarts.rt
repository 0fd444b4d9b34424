// An array taken apart, and restarted from its drives.
ghost use Rattle.std.specs.Prelude.{◌≡◌, IsTrue};
ghost use Rattle.unit_store.specs.Fit.{IsFit};

use crate::counted::Counted;
use crate::desk::{Desk, Seat};
use crate::volume::Volume;
use crate::watched::Watched;
use anyhow::{Result, bail, ensure};
use header_scan::{restart, scan};
use map_join::BlockMap;
use std::alloc::Global;
use step_core::{Drive, MemDrive, TakeBack};
use unit_store::Parts;

// Whether the parts fit one another. `restart` requires it, and no clause says it of parts that were changed by one's own
// code.
fn are_fit<D: Drive>(parts: &Parts<D>) -> bool
    ensures { IsTrue result → IsFit D.units parts.now }
{
    parts.is_fit()
}

/// An array over the parts. The claims that it doesn't need go to the desk.
pub(crate) fn restarted<D: Drive + Drop>(
    alloc: Global,
    parts: Parts<D>,
    seats: Vec<Seat>,
    mut desk: Desk,
) -> Result<Volume<D>> {
    ensure!(are_fit(&parts), "the parts don't fit");
    match restart(alloc, parts, seats) {
        Ok((array, free)) => {
            for seat in free {
                desk.take_back(seat);
            }
            Ok(Volume { alloc, array, desk })
        }
        Err((fault, _parts, _seats)) => Err(fault.into()),
    }
}

impl Volume<Counted<MemDrive>> {
    /// Takes the array apart, loses a drive, and restarts an array over the others.
    pub(crate) fn restart_without(self, drive: usize) -> Result<Volume<Counted<MemDrive>>> {
        let Volume { alloc, array, desk } = self;
        let Ok((mut parts, seats)) = array.into_parts(alloc) else {
            bail!("no memory");
        };
        match parts.drives.get_mut(drive) {
            Some(drive) => drive.lose(),
            None => bail!("no such drive"),
        }
        restarted(alloc, parts, seats, desk)
    }

    /// The map of the headers, and how many headers were read for it.
    pub(crate) fn scan(self) -> Result<(Volume<Counted<MemDrive>>, BlockMap, u32)> {
        let Volume { alloc, array, desk } = self;
        let mut watched = Watched::new(array);
        let map = scan(alloc, &mut watched)?;
        let (array, headers) = watched.end();
        Ok((Volume { alloc, array, desk }, map, headers))
    }

    /// Ends the array: the desk, and how many calls each of four drives got.
    pub(crate) fn end(self) -> (Desk, [u64; 4]) {
        let Volume {
            alloc: _,
            array,
            mut desk,
        } = self;
        let parts = array.end(&mut desk);
        let mut calls = [0; 4];
        for (count, drive) in calls.iter_mut().zip(parts.drives.iter()) {
            *count = drive.calls();
        }
        (desk, calls)
    }
}
