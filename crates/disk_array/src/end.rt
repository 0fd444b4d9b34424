// An array ends, and its claims go back to where they came from.
ghost use Rattle.std.specs.Prelude.{◌≡◌, None};
ghost use Rattle.unit_store.specs.Fit.{IsFit};
ghost use Rattle.unit_store.specs.Views.{view_of};

use crate::array::Array;
use extents::Drive;
use slot_tables::{Hold, SlotState};
use unit_store::Parts;

/// Takes claims back.
pub trait TakeBack<C> {
    fn take_back(&mut self, claim: C);
}

impl<D: Drive, C: Hold> Array<D, C> {
    /// Gives each claim that the array kept to `to`, those of tickets too, and returns the parts. Nothing is allocated.
    pub fn end<T: TakeBack<C>>(self, to: &mut T) -> Parts<D>
        ensures parts { view_of D.units D.lost D.failures result ≡ self.parts }
        ensures fit { IsFit D.units result }
        ensures note { result.note ≡ None }
    {
        hand_over(self.places, to);
        let mut parts = self.parts;
        // No call of an array sets a note: none is lost here.
        parts.note = None;
        parts
    }
}

fn hand_over<C: Hold, T: TakeBack<C>>(mut places: Vec<SlotState<C>>, to: &mut T) {
    while let Some(place) = places.pop() {
        match place {
            SlotState::Free => {}
            SlotState::Pending(_, claim) => to.take_back(claim),
            SlotState::Moving(_, _, claim) => to.take_back(claim),
            SlotState::Newest(_, claim) => to.take_back(claim),
            SlotState::Unmade(claim) => to.take_back(claim),
        }
    }
    places.destroy_empty();
}
