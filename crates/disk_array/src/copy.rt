// A copy of a block's newest content into a slot that a worker holds.
ghost use Rattle.std.specs.Prelude.{◌≡◌, ◌≢◌, ℕ, ◌<◌, MatchResult, IfOk, IfErr, true, Some, None};
ghost use Rattle.map_join.specs.declared.records.Record.{Record};
ghost use Rattle.map_join.specs.Record.{record_at};
ghost use Rattle.extents.specs.declared.header.Kind.{Kind as KindOf};
ghost use Rattle.flat_machine.specs.Steps as say;
ghost use Rattle.flat_machine.specs.Flat.{Flat, Worker};
ghost use Rattle.flat_machine.specs.Cases.{CopyCase, CopyPasses};
ghost use Rattle.unit_store.specs.Views.{WasCopied};
ghost use Rattle.slot_tables.specs.Changes.{copy_view, copy_reason, MayRefuse};
ghost use Rattle.slot_tables.specs.Views.{with_parts, key_at};
ghost use Rattle.slot_tables.specs.Represents.{ShowsArray};
ghost use Rattle.disk_array.specs.Refused.{IsRefused};

use crate::array::Array;
use crate::ticket::Ticket;
use extents::Drive;
use flat_machine::Refusal;
use map_join::Record;
use slot_tables::{Hold, SlotState, put_in};

/// The greatest hop of a version.
const LAST_HOP: u16 = 65_535;

impl<D: Drive, C: Hold> Array<D, C> {
    /// Copies what a block holds, a payload or a trim, into a slot of either class, under a blank header: it waits for
    /// its commit, and until then the block stays where it is. Refused as gone with the slot that can't
    /// be read or written, the newest place first; then all slots are as they were.
    pub fn copy(&mut self, claim: C, block: u32) -> Result<Ticket, (Refusal, C)>
        requires { block < self.old.parts.groups.blocks }
        ensures ticket { IfOk result (λ ticket. (ticket ≡ C.names claim)
            × ((r : Record) × (k : KindOf) × (record_at block (key_at self.old block) ≡ Some r)
            × (self.new ≡ copy_view (with_parts self.old self.new.parts) ticket r k)
            × WasCopied self.old.parts self.new.parts r.place ticket k)) }
        ensures err { IfErr result (λ e. (e.1 ≡ claim) × IsRefused self.old self.new e.0) }
        ensures memory { IfErr result (λ e. e.0 ≢ Refusal.Memory) }
        ensures flat { (F : Flat) (w : ℕ) → ShowsArray self.old F → F.held (C.names claim) (Worker w) ≡ true
            → MatchResult result
            (λ ticket. (G : Flat) × CopyCase F w ticket block (say.Copied ticket) G × ShowsArray self.new G)
            (λ e. MayRefuse e.0
            ((r : Record) × CopyPasses F w (C.names claim) block r)
            ((G : Flat) × CopyCase F w (C.names claim) block (say.Refused e.0) G × ShowsArray self.new G)) }
    {
        let slot = claim.slot();
        let source = match self.source(slot, self.reported(block)) {
            Ok(source) => source,
            Err(refusal) => return Err((refusal, claim)),
        };
        let unit: &mut [u8] = &mut self.unit;
        let scratch: &mut [u8] = &mut self.scratch;
        let kind = match self.parts.copy(source.place, slot, unit, scratch) {
            Ok(kind) => kind,
            Err(refusal) => return Err((refusal, claim)),
        };
        // After the drives, so that a refusal leaves nothing kept of the slot.
        put_in(
            &mut self.places,
            slot,
            SlotState::Moving(source, kind, claim),
        );
        Ok(Ticket::of(slot))
    }

    /// The record whose content `copy` would copy into the slot, given the newest of the block. Refused where no made group has
    /// the slot, the array holds it, the block was never written, or its hops are spent.
    pub fn source(&self, slot: u16, found: Option<Record>) -> Result<Record, Refusal>
        ensures ok { IfOk result (λ source. (copy_reason self.now slot found ≡ None) × (found ≡ Some source)) }
        ensures err { IfErr result (λ refusal. copy_reason self.now slot found ≡ Some refusal) }
    {
        if self.class_of(slot).is_none() {
            return Err(Refusal::NoGroup);
        }
        if self.is_held(slot) {
            return Err(Refusal::InUse);
        }
        let Some(newest) = found else {
            return Err(Refusal::Unwritten);
        };
        // Tested at the copy, so that its commit always has a next hop.
        if newest.hop >= LAST_HOP {
            return Err(Refusal::HopsSpent);
        }
        Ok(newest)
    }
}
