// A claim of slot words, as an array keeps it, and the numbers by which a Book's array is known.
ghost use Rattle.std.specs.Prelude.{◌≡◌, ℕ};

use history::Chronicle;
use slot_words::{Naming, SlotWords};
use std::marker::Brand;
use step_core::{Apart, Hold};

/// Names the history of one array, its sizes and the number of its hands, so that they are known under its lock.
pub trait Sizes: Chronicle {
    // How many blocks the array has, and how many bytes a payload.
    ghost blocks: { ℕ };

    ghost payload: { ℕ };

    // How many hands of the history there are. No more are hired while the array is in a Book.
    ghost hands: { ℕ };
}

impl Sizes for Brand {
    ghost blocks = { 0 };

    ghost payload = { 0 };

    ghost hands = { 0 };
}

/// A claim of the table N. It can't be dropped, only released. So no slot is lost by a mistake: that wouldn't compile.
pub struct Claim<N: Naming>(pub(crate) slot_words::Claim<N>);

impl<N: Naming> Claim<N> {
    /// What an array can keep of a claim.
    pub fn of(claim: slot_words::Claim<N>) -> Claim<N>
        ensures { result.0 ≡ claim }
    {
        Claim(claim)
    }

    /// The claim, to be released.
    pub fn into_inner(self) -> slot_words::Claim<N>
        ensures { result ≡ self.0 }
    {
        let Claim(claim) = self;
        claim
    }
}

impl<N: Naming> Hold for Claim<N> {
    ghost names = { λ claim. claim.0.slot };

    fn slot(&self) -> u16 {
        self.0.slot()
    }
}

impl<N: Naming> Apart<Claim<N>> for SlotWords<N> {
    fn apart(&self, one: &mut Claim<N>, other: &mut Claim<N>) {
        SlotWords::apart(self, &mut one.0, &mut other.0);
    }
}
