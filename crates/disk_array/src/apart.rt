// An array has no claim of a slot that someone else has one of.
ghost use Rattle.std.specs.Prelude.{◌≡◌, ◌≢◌, ℕ, ◌<◌, slice_index_or, true};
ghost use Rattle.slot_tables.specs.Represents.{ShowsArray};
ghost use Rattle.slot_tables.specs.Views.{ArrayView, Nothing, kept_at};
ghost use Rattle.flat_machine.specs.Flat.{Flat, Worker, IsArrayHeld};
ghost use Rattle.disk_array.specs.Claimed.{with_claim};
ghost use Rattle.slot_tables.specs.Kept.{kepts_of, AreOf};

use crate::array::Array;
use extents::Drive;
use slot_tables::{Hold, SlotState};

/// Knows that two claims are never of one slot.
pub trait Apart<C: Hold> {
    /// Promises that the slots of the two claims differ.
    fn apart(&self, one: &mut C, other: &mut C)
        ensures differ { C.names one.old ≢ C.names other.old }
        ensures same { (one.new ≡ one.old) × (other.new ≡ other.old) };
}

impl<D: Drive, C: Hold> Array<D, C> {
    /// Promises that the array keeps nothing of the claim's slot, since it would have a claim of it too. It takes no more
    /// than one `apart`, and no loop.
    pub fn apart_from<W: Apart<C>>(&mut self, words: &W, claim: &mut C)
        ensures free { kept_at self.old (C.names claim.old) ≡ Nothing }
        ensures flat { (F : Flat) → ShowsArray self.old F → IsArrayHeld F (C.names claim.old) → ⊥ }
        ensures same { (self.new ≡ self.old) × (claim.new ≡ claim.old) }
    {
        let slot = claim.slot();
        apart_at(&mut self.places, words, slot, claim);
    }
}

// Shows that the place keeps no claim: `apart` says that a kept one would be of a different slot.
#[tactic(auto, using(slot_tables::proofs::Places::kept_past))]
fn apart_at<C: Hold, W: Apart<C>>(
    places: &mut Vec<SlotState<C>>,
    words: &W,
    slot: u16,
    claim: &mut C,
)
    requires of { C.names claim.old ≡ slot }
    requires claims { AreOf C.names places.old.items }
    ensures free { slice_index_or (kepts_of places.old.items) slot Nothing ≡ Nothing }
    ensures same { (places.new.items ≡ places.old.items) × (claim.new ≡ claim.old) }
{
    if usize::from(slot) >= places.len() {
        return;
    }
    match &mut places[usize::from(slot)] {
        SlotState::Free => {}
        SlotState::Pending(_, kept) => {
            words.apart(kept, claim);
            unreachable!()
        }
        SlotState::Moving(_, _, kept) => {
            words.apart(kept, claim);
            unreachable!()
        }
        SlotState::Newest(_, kept) => {
            words.apart(kept, claim);
            unreachable!()
        }
        SlotState::Unmade(kept) => {
            words.apart(kept, claim);
            unreachable!()
        }
    }
}

/// A law: an array that shows a flat state also shows the state in which a worker has one claim more.
pub fn claims_are_free()
    ensures shows { (array : ArrayView) (F : Flat) (slot worker : ℕ) → ShowsArray array F → ShowsArray array (with_claim F slot worker) }
    ensures holds { (F : Flat) (slot worker : ℕ) → (with_claim F slot worker).held slot (Worker worker) ≡ true }
{
    // The law is the contract: there is nothing to do.
}
