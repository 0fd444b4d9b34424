// What a call returns for a claim that it took.
ghost use Rattle.std.specs.Prelude.{◌≡◌};

use std::marker::Model;

/// A slot that waits for its commit. A ticket can't be cloned, so that no slot is committed twice.
#[derive(Debug, Drop)]
pub struct Ticket {
    slot: u16,
}

impl Model for Ticket {
    ghost use Rattle.std.specs.Prelude.{ℕ};

    ghost Value = { ℕ };

    ghost view = { λ ticket. ticket.slot };
}

impl Ticket {
    pub(crate) fn of(slot: u16) -> Ticket
        ensures { result ≡ slot }
    {
        Ticket { slot }
    }

    /// The slot that waits.
    pub fn slot(&self) -> u16
        ensures { result ≡ self.now }
    {
        self.slot
    }
}
