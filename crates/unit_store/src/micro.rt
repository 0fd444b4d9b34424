// A step as a list of single writes with a note, and a stop after any number of them.
ghost use Rattle.std.specs.Prelude.{◌≡◌, ◌++◌, [], ◌∷◌, List, length, take};
ghost use Rattle.extent_groups.specs.declared.place.Place.{Place};
ghost use Rattle.extent_groups.specs.Cells.{Cells};
ghost use Rattle.extent_groups.specs.Calls.{DidWrite, FadesAt, IsPlace, KeepsDrives, Only};
ghost use Rattle.extent_groups.specs.Planned.{Intended, after};
ghost use Rattle.extent_groups.specs.Stores.{unit_bytes};
ghost use Rattle.unit_store.specs.Fit.{IsFit};
ghost use Rattle.unit_store.specs.Losses.{KeepsTables};
ghost use Rattle.unit_store.specs.Micros.{writes_in, note_after, AreWrites, IsWritten, KeepsGroups};
ghost use Rattle.unit_store.specs.Slots.{cells_in};

use crate::Parts;
use crate::note::Note;
use extent_groups::{Place, write_place};
use extents::Drive;

/// One write of a step: of its note, or of one unit of one drive.
#[derive(Debug, Drop)]
pub enum Micro {
    /// The note is set, in one piece.
    NoteSet(Note),
    /// A unit is written whole, to a drive by its number and a unit address.
    Write { drive: u8, at: u32, unit: Vec<u8> },
    /// The note is cleared.
    NoteClear,
}

impl<D: Drive> Parts<D> {
    // Writes a unit to a place; false where its drive is lost.
    fn write_at(&mut self, place: Place, unit: &[u8]) -> bool
        requires fit { IsFit D.units self.old }
        requires place { IsPlace D.units self.old.drives.items place }
        requires unit { length unit.now ≡ unit_bytes self.old.groups }
        ensures written { DidWrite (cells_in D.units D.lost self.old) (cells_in D.units D.lost self.new) place unit.now result }
        ensures touched { KeepsDrives D.units D.lost D.failures (Only place) self.old.drives.items self.new.drives.items }
        ensures tables { KeepsTables self.old self.new }
        ensures fit { IsFit D.units self.new }
    {
        let drives: &mut [D] = &mut self.drives;
        write_place(drives, place, unit)
    }

    // Carries out one write; one to a lost drive changes nothing.
    fn run_one(&mut self, micro: Micro)
        requires fit { IsFit D.units self.old }
        requires write { AreWrites D.units self.old (micro ∷ []) }
        ensures note { self.new.note ≡ note_after self.old.note (micro ∷ []) }
        ensures cells { (c : Cells) (ws : List Intended) → ((x : Place) → FadesAt (after c ws) (cells_in D.units D.lost self.old) x)
            → (x : Place) → FadesAt (after c (ws ++ writes_in (micro ∷ []))) (cells_in D.units D.lost self.new) x }
        ensures touched { KeepsDrives D.units D.lost D.failures (IsWritten (micro ∷ [])) self.old.drives.items self.new.drives.items }
        ensures groups { KeepsGroups self.old self.new }
        ensures fit { IsFit D.units self.new }
    {
        match micro {
            Micro::NoteSet(note) => self.note = Some(note),
            Micro::Write { drive, at, unit } => {
                // The result isn't needed, because a failed write shows as a lost drive.
                let _written = self.write_at(Place { drive, address: at }, &unit);
            }
            Micro::NoteClear => self.note = None,
        }
    }
}

/// Carries out the first `n` entries of a list, or all where there are fewer: what firmware has done when it stops there. A
/// write to a lost drive is skipped. Nothing is allocated.
pub fn run_micro<D: Drive>(parts: &mut Parts<D>, list: Vec<Micro>, n: usize)
    requires fit { IsFit D.units parts.old }
    requires writes { AreWrites D.units parts.old list.items }
    ensures note { parts.new.note ≡ note_after parts.old.note (take n list.items) }
    ensures cells { (x : Place) → FadesAt (after (cells_in D.units D.lost parts.old) (writes_in (take n list.items))) (cells_in D.units D.lost parts.new) x }
    ensures touched { KeepsDrives D.units D.lost D.failures (IsWritten (take n list.items)) parts.old.drives.items parts.new.drives.items }
    ensures groups { KeepsGroups parts.old parts.new }
    ensures fit { IsFit D.units parts.new }
{
    let mut done = 0;
    for micro in list {
        // Before the entry, so that none is carried out where `n` is 0.
        if done == n {
            return;
        }
        parts.run_one(micro);
        done += 1;
    }
}
