// Claims that a desk hands out, at most one of each slot.
ghost use Rattle.std.specs.Prelude.{◌≡◌, IfSome};

use step_core::{Hold, TakeBack};

/// How many slots the desk has claims of. Those of groups 0 and 1.
const SEATS: usize = 256;

/// A claim of a slot, which only a desk makes.
#[derive(Drop)]
pub(crate) struct Seat {
    slot: u16,
}

impl Hold for Seat {
    ghost names = { λ seat. seat.slot };

    fn slot(&self) -> u16 {
        self.slot
    }
}

/// Which slots' claims are at the desk.
#[derive(Drop)]
pub(crate) struct Desk {
    here: [bool; SEATS],
}

impl Desk {
    pub(crate) fn new() -> Desk {
        Desk {
            here: [true; SEATS],
        }
    }

    /// Whether the claim of a slot is here.
    pub(crate) fn has(&self, slot: u16) -> bool {
        matches!(self.here.get(usize::from(slot)), Some(true))
    }

    /// The claim of a slot, none where it is out.
    pub(crate) fn take(&mut self, slot: u16) -> Option<Seat>
        ensures { IfSome result (λ seat. seat.slot ≡ slot) }
    {
        let here = self.here.get_mut(usize::from(slot))?;
        if !*here {
            return None;
        }
        *here = false;
        Some(Seat { slot })
    }

    /// Whether all claims are here.
    pub(crate) fn is_full(&self) -> bool {
        self.here.iter().all(|here| *here)
    }
}

impl TakeBack<Seat> for Desk {
    fn take_back(&mut self, seat: Seat) {
        if let Some(here) = self.here.get_mut(usize::from(seat.slot)) {
            *here = true;
        }
    }
}
