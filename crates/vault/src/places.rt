// A set of places: those whose last unit is written already, while a journal is settled, or those whose unit is rotten.
ghost use Rattle.std.specs.Prelude.{◌≡◌, ◌↔◌, ◌⊎◌, ◌≤◌, ◌+◌, ◌*◌, ℕ, [], length, slice_get, Some, true, IfSome, IsNone, IsSome, IsTrue, OnOk};
ghost use Rattle.extent_groups.specs.declared.place.Place.{Place};
ghost use Rattle.vault.specs.Marks.{spot as spot_of, Has};

use crate::store::TABLE;
use extent_groups::Place;
use std::alloc::{AllocError, Global};

/// A set of places of drives and of the table. Marks, so that neither a test nor a new place searches.
#[derive(Drop)]
pub struct Places {
    /// A mark for each drive and the table at address 0, then at address 1, and so on, so that there are marks only up to the
    /// greatest address that was put.
    marks: Vec<bool>,
}

// Where the mark of a place lies.
fn spot(place: Place) -> usize
    ensures { result ≡ spot_of place }
{
    place.address as usize * (TABLE as usize + 1) + place.drive as usize
}

// Whether there is a mark.
fn is_marked(marks: &[bool], spot: usize) -> bool
    ensures { IsTrue result ↔ (slice_get marks.now spot ≡ Some true) }
{
    match marks.get(spot) {
        Some(mark) => *mark,
        None => false,
    }
}

// Makes room for `count` marks.
fn make_marks(marks: &mut Vec<bool>, count: usize) -> Result<(), AllocError>
    ensures long { OnOk result (count ≤ length marks.new.items) }
    ensures same { (k : ℕ) → (slice_get marks.new.items k ≡ Some true) ↔ (slice_get marks.old.items k ≡ Some true) }
{
    if marks.len() < count {
        marks.resize(count, false)?;
    }
    Ok(())
}

// The first spot with a mark.
fn first_mark(marks: &[bool]) -> Option<usize>
    ensures some { IfSome result (λ spot. slice_get marks.now spot ≡ Some true) }
    ensures none { IsNone result → (k : ℕ) → slice_get marks.now k ≡ Some true → ⊥ }
{
    marks.iter().position(|mark| *mark)
}

impl Places {
    /// No places.
    pub fn new(alloc: Global) -> Places
        ensures { result.marks.items ≡ [] }
    {
        Places {
            marks: Vec::new(alloc),
        }
    }

    /// Whether a place is in the set.
    pub fn has(&self, place: Place) -> bool
        ensures { IsTrue result ↔ Has self.now.marks.items place }
    {
        if place.drive > TABLE {
            return false;
        }
        is_marked(&self.marks, spot(place))
    }

    /// Puts a place into the set. False if out of memory, and for a drive number past the table's.
    pub fn put(&mut self, place: Place) -> bool
        ensures { IsTrue result → (x : Place) → Has self.new.marks.items x ↔ (Has self.old.marks.items x ⊎ (place ≡ x)) }
    {
        // Else its mark would be that of another place.
        if place.drive > TABLE {
            return false;
        }
        let spot = spot(place);
        if make_marks(&mut self.marks, spot + 1).is_err() {
            return false;
        }
        self.marks[spot] = true;
        true
    }

    /// Takes a place out of the set.
    pub fn take(&mut self, place: Place)
        ensures { (x : Place) → Has self.new.marks.items x ↔ (Has self.old.marks.items x × (place ≡ x → ⊥)) }
    {
        let spot = spot(place);
        if place.drive > TABLE || spot >= self.marks.len() {
            return;
        }
        self.marks[spot] = false;
    }

    /// The place of the set with the lowest address, and of these that with the lowest drive number; none if there is no place. Goes
    /// over all marks.
    #[tactic(auto, using(crate::proofs::LastWrites::marked_place))]
    pub fn first(&self) -> Option<Place>
        ensures some { IsSome result → (x : Place) × Has self.now.marks.items x }
        ensures none { IsNone result → (x : Place) → Has self.now.marks.items x → ⊥ }
    {
        let spot = first_mark(&self.marks)?;
        let drives = TABLE as usize + 1;
        Some(Place {
            drive: (spot % drives) as u8,
            address: u32::try_from(spot / drives).unwrap_or(u32::MAX),
        })
    }
}
