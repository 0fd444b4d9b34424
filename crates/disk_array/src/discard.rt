// A ticket that is given up.
ghost use Rattle.std.specs.Prelude.{◌≡◌, ◌≢◌, ℕ, MatchResult, IfOk, IfErr, true, None};
ghost use Rattle.flat_machine.specs.Steps as say;
ghost use Rattle.flat_machine.specs.Flat.{Flat, Ticket as ticket_of};
ghost use Rattle.flat_machine.specs.Cases.{DiscardCase};
ghost use Rattle.slot_tables.specs.Changes.{discard_view};
ghost use Rattle.slot_tables.specs.Represents.{ShowsArray};

use crate::array::Array;
use crate::ticket::Ticket;
use extents::Drive;
use flat_machine::Refusal;
use slot_tables::{Hold, take_waiting};

impl<D: Drive, C: Hold> Array<D, C> {
    /// Gives up a ticket: the claim of its slot comes back. Refused only where nothing waits there.
    pub fn discard(&mut self, ticket: Ticket) -> Result<C, (Refusal, Ticket)>
        ensures claim { IfOk result (λ claim. (C.names claim ≡ ticket) × (self.new ≡ discard_view self.old ticket)) }
        ensures err { IfErr result (λ e. (e.0 ≡ Refusal.NoTicket) × (e.1 ≡ ticket) × (self.new ≡ self.old)) }
        ensures flat { (F : Flat) (w : ℕ) → ShowsArray self.old F → (F.tickets ticket ≢ None → F.held ticket (ticket_of w) ≡ true)
            → MatchResult result
            (λ claim. (G : Flat) × DiscardCase F w ticket (say.Discarded ticket) G × ShowsArray self.new G)
            (λ e. DiscardCase F w ticket (say.Refused e.0) F) }
    {
        let slot = ticket.slot();
        if !self.waits(slot) {
            return Err((Refusal::NoTicket, ticket));
        }
        Ok(take_waiting(&mut self.places, slot))
    }
}
