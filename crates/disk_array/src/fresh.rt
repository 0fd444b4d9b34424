// Whether what waits under a ticket is fresh or a copy.
ghost use Rattle.std.specs.Prelude.{◌≡◌};
ghost use Rattle.slot_tables.specs.Views.{kept_at};
ghost use Rattle.disk_array.specs.Waits as waits;

use crate::array::Array;
use crate::ticket::Ticket;
use extents::Drive;
use slot_tables::{Hold, SlotState, state_at};

impl<D: Drive, C: Hold> Array<D, C> {
    /// Whether a fresh payload or trim waits at the ticket's slot: its commit emits a record of hop 0.
    pub fn is_fresh(&self, ticket: &Ticket) -> bool
        ensures { result ≡ waits.is_fresh (kept_at self.now ticket.now) }
    {
        match state_at(&self.places, ticket.slot()) {
            Some(SlotState::Pending(_, _)) => true,
            Some(SlotState::Free) => false,
            Some(SlotState::Moving(_, _, _)) => false,
            Some(SlotState::Newest(_, _)) => false,
            Some(SlotState::Unmade(_)) => false,
            None => false,
        }
    }
}
