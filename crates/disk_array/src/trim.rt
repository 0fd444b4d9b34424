// A trim into a slot that a worker holds.
ghost use Rattle.std.specs.Prelude.{◌≡◌, ◌≢◌, ℕ, MatchResult, IfOk, IfErr, true};
ghost use Rattle.flat_machine.specs.Steps as say;
ghost use Rattle.flat_machine.specs.Flat.{Flat, Worker, Trim, waiting_unit};
ghost use Rattle.flat_machine.specs.Cases.{FillCase, FillPasses};
ghost use Rattle.extents.specs.declared.header.Kind.TheVariants as kind;
ghost use Rattle.unit_store.specs.Views.{WasPut};
ghost use Rattle.slot_tables.specs.Changes.{fill_view, MayRefuse};
ghost use Rattle.slot_tables.specs.Represents.{ShowsArray};
ghost use Rattle.slot_tables.specs.Views.{with_parts};
ghost use Rattle.disk_array.specs.Refused.{IsRefused};

use crate::array::Array;
use crate::ticket::Ticket;
use extents::{Drive, Kind};
use flat_machine::Refusal;
use slot_tables::{Hold, SlotState, put_in};

impl<D: Drive, C: Hold> Array<D, C> {
    /// Fills a mirrored slot with a trim, zeros under a blank header: it waits for its commit, and the block to which it is
    /// committed holds nothing then. Refused as `fill` is.
    pub fn trim(&mut self, claim: C) -> Result<Ticket, (Refusal, C)>
        ensures ticket { IfOk result (λ ticket. (ticket ≡ C.names claim) × (self.new ≡ fill_view (with_parts self.old self.new.parts) ticket kind.Trim)
            × WasPut self.old.parts self.new.parts ticket (waiting_unit self.old.parts.groups.payload Trim)) }
        ensures err { IfErr result (λ e. (e.1 ≡ claim) × IsRefused self.old self.new e.0) }
        ensures memory { IfErr result (λ e. e.0 ≢ Refusal.Memory) }
        ensures flat { (F : Flat) (w : ℕ) → ShowsArray self.old F → F.held (C.names claim) (Worker w) ≡ true
            → MatchResult result
            (λ ticket. (G : Flat) × FillCase F w ticket Trim (say.Filled ticket) G × ShowsArray self.new G)
            (λ e. MayRefuse e.0
            (FillPasses F w (C.names claim))
            ((G : Flat) × FillCase F w (C.names claim) Trim (say.Refused e.0) G × ShowsArray self.new G)) }
    {
        let slot = claim.slot();
        if let Some(refusal) = self.fill_fault(slot) {
            return Err((refusal, claim));
        }
        let unit: &mut [u8] = &mut self.unit;
        let scratch: &mut [u8] = &mut self.scratch;
        if let Err(refusal) = self.parts.put_trim(slot, unit, scratch) {
            return Err((refusal, claim));
        }
        // After the drives, so that a refusal leaves nothing kept of the slot.
        put_in(
            &mut self.places,
            slot,
            SlotState::Pending(Kind::Trim, claim),
        );
        Ok(Ticket::of(slot))
    }
}
