// A fresh payload into a slot that a worker holds.
ghost use Rattle.std.specs.Prelude.{◌≡◌, ◌≢◌, ℕ, length, MatchResult, IfOk, IfErr, true};
ghost use Rattle.flat_machine.specs.Steps as say;
ghost use Rattle.flat_machine.specs.Flat.{Flat, Worker, Payload, waiting_unit};
ghost use Rattle.flat_machine.specs.Cases.{FillCase, FillPasses};
ghost use Rattle.extents.specs.declared.header.Kind.TheVariants as kind;
ghost use Rattle.unit_store.specs.Views.{WasPut};
ghost use Rattle.slot_tables.specs.Changes.{fill_view, fill_reason, MayRefuse};
ghost use Rattle.slot_tables.specs.Represents.{ShowsArray};
ghost use Rattle.slot_tables.specs.Views.{with_parts};
ghost use Rattle.disk_array.specs.Refused.{IsRefused};

use crate::array::Array;
use crate::ticket::Ticket;
use extents::{Drive, Kind};
use flat_machine::{Class, Refusal};
use slot_tables::{Hold, SlotState, put_in};

impl<D: Drive, C: Hold> Array<D, C> {
    /// Fills a mirrored slot with a fresh payload, under a blank header: it waits for its commit. Refused as
    /// gone where neither copy can be written, and then other slots are as they were.
    pub fn fill(&mut self, claim: C, payload: &[u8]) -> Result<Ticket, (Refusal, C)>
        requires { length payload.now ≡ self.old.parts.groups.payload }
        ensures ticket { IfOk result (λ ticket. (ticket ≡ C.names claim) × (self.new ≡ fill_view (with_parts self.old self.new.parts) ticket kind.Data)
            × WasPut self.old.parts self.new.parts ticket (waiting_unit self.old.parts.groups.payload (Payload payload.now))) }
        ensures err { IfErr result (λ e. (e.1 ≡ claim) × IsRefused self.old self.new e.0) }
        ensures memory { IfErr result (λ e. e.0 ≢ Refusal.Memory) }
        ensures flat { (F : Flat) (w : ℕ) → ShowsArray self.old F → F.held (C.names claim) (Worker w) ≡ true
            → MatchResult result
            (λ ticket. (G : Flat) × FillCase F w ticket (Payload payload.now) (say.Filled ticket) G × ShowsArray self.new G)
            (λ e. MayRefuse e.0
            (FillPasses F w (C.names claim))
            ((G : Flat) × FillCase F w (C.names claim) (Payload payload.now) (say.Refused e.0) G × ShowsArray self.new G)) }
    {
        let slot = claim.slot();
        if let Some(refusal) = self.fill_fault(slot) {
            return Err((refusal, claim));
        }
        let unit: &mut [u8] = &mut self.unit;
        let scratch: &mut [u8] = &mut self.scratch;
        if let Err(refusal) = self.parts.put(slot, payload, unit, scratch) {
            return Err((refusal, claim));
        }
        // After the drives, so that a refusal leaves nothing kept of the slot.
        put_in(
            &mut self.places,
            slot,
            SlotState::Pending(Kind::Data, claim),
        );
        Ok(Ticket::of(slot))
    }

    /// Why a fresh content can't go into the slot: no made group has it, its group is of parity, or the array holds it. If
    /// None, `fill` and `trim` are refused only where the drives of both copies are lost.
    pub fn fill_fault(&self, slot: u16) -> Option<Refusal>
        ensures { result ≡ fill_reason self.now slot }
    {
        match self.class_of(slot) {
            None => Some(Refusal::NoGroup),
            Some(Class::Parity) => Some(Refusal::WrongClass),
            Some(Class::Mirrored) => {
                if self.is_held(slot) {
                    Some(Refusal::InUse)
                } else {
                    None
                }
            }
        }
    }
}
