// A content goes into a slot under the record of its commit, in one write: nobody calls the array between the fill or the copy and
// the commit.
ghost use Rattle.std.specs.Prelude.{◌≡◌, ◌≢◌, ℕ, ◌+◌, ◌<◌};
ghost use Rattle.std.specs.Prelude.{vec_len, slice_index_or, slice_set, MatchResult, IfOk, IfErr, IfSome, true, Some, None};
ghost use Rattle.std.specs.Option.{ForSome};
ghost use Rattle.map_join.specs.Record.{record_at};
ghost use Rattle.map_join.specs.declared.records.Record.{Record};
ghost use Rattle.extents.specs.declared.header.Kind.{Kind as KindOf};
ghost use Rattle.flat_machine.specs.Steps as say;
ghost use Rattle.flat_machine.specs.Flat.{Flat, Worker, IsSized, content_under};
ghost use Rattle.flat_machine.specs.Cases.{CopyCase, CopyPasses, FillCase, FillPasses, next_version};
ghost use Rattle.unit_store.specs.Views.{WasPut, WasMoved, placed_unit};
ghost use Rattle.slot_tables.specs.AtOnce.{ArePutAtOnce};
ghost use Rattle.slot_tables.specs.Changes.{fill_view, copy_view, commit_view, fill_reason, without_old, full_reason, version_reason, IsPlaceOf, MayRefuse};
ghost use Rattle.slot_tables.specs.Counted.{AreCounts};
ghost use Rattle.slot_tables.specs.Kept.{kepts_of, AreOf};
ghost use Rattle.slot_tables.specs.Represents.{ShowsArray};
ghost use Rattle.slot_tables.specs.Views.{Nothing, Newest, key_at, with_parts};
ghost use Rattle.disk_array.specs.Refused.{IsUnplaced};

use crate::array::Array;
use crate::commit::{Done, Emitted, LONGEST_LOG, let_go, written};
use crate::live::one_more;
use extent_groups::GROUPS;
use extents::{Drive, Kind};
use flat_machine::Refusal;
use map_join::Record;
use slot_tables::{Hold, SlotState, put_in};

impl<D: Drive, C: Hold> Array<D, C> {
    /// Fills a mirrored slot with a payload or a trim and commits it to the block, in one write: what `fill` or `trim`
    /// leaves, and then `commit`. A trim's payload isn't looked at. Refused as `fill` is. Where the commit would be refused,
    /// or an allocation fails, there is no refusal, and nothing was done: the caller fills and commits, and learns why.
    pub fn place(
        &mut self,
        claim: C,
        block: u32,
        kind: Kind,
        payload: &[u8],
    ) -> Result<Done<C>, (Option<Refusal>, C)>
        requires block { block < self.old.parts.groups.blocks }
        requires payload { IsSized self.old.parts.groups.payload (content_under kind payload.now) }
        ensures done { IfOk result (λ done.
            (self.new ≡ commit_view (fill_view (with_parts self.old self.new.parts) (C.names claim) kind) (C.names claim) block (record_at block (key_at self.old block)) done.emitted)
            × (done.emitted ≡ record { block = block; version = next_version (record_at block (key_at self.old block)); hop = 0; place = C.names claim })
            × IsPlaceOf C.names done.old (record_at block (key_at self.old block))
            × WasPut self.old.parts self.new.parts (C.names claim) (placed_unit done.emitted self.old.parts.groups.payload (content_under kind payload.now))) }
        ensures err { IfErr result (λ e. (e.1 ≡ claim) × IsUnplaced self.old self.new e.0) }
        ensures memory { IfErr result (λ e. e.0 ≢ Some Refusal.Memory) }
        ensures flat { (F : Flat) (w : ℕ) → ShowsArray self.old F → F.held (C.names claim) (Worker w) ≡ true
            → MatchResult result
            (λ done. ArePutAtOnce F (say.Fill w (C.names claim) (content_under kind payload.now)) (say.Filled (C.names claim)) w (C.names claim) block done.emitted self.new)
            (λ e. IfSome e.0 (λ refusal. MayRefuse refusal
            (FillPasses F w (C.names claim))
            ((G : Flat) × FillCase F w (C.names claim) (content_under kind payload.now) (say.Refused refusal) G × ShowsArray self.new G))) }
    {
        match self.fill_fault(claim.slot()) {
            Some(refusal) => Err((Some(refusal), claim)),
            None => self.place_open(claim, block, kind, payload),
        }
    }

    /// `place` for a slot that is open to a fresh content, as `fill_fault` says: nobody asks again. Refused with `Gone` alone.
    pub fn place_open(
        &mut self,
        claim: C,
        block: u32,
        kind: Kind,
        payload: &[u8],
    ) -> Result<Done<C>, (Option<Refusal>, C)>
        requires block { block < self.old.parts.groups.blocks }
        requires payload { IsSized self.old.parts.groups.payload (content_under kind payload.now) }
        requires open { fill_reason self.old (C.names claim) ≡ None }
        ensures done { IfOk result (λ done.
            (self.new ≡ commit_view (fill_view (with_parts self.old self.new.parts) (C.names claim) kind) (C.names claim) block (record_at block (key_at self.old block)) done.emitted)
            × (done.emitted ≡ record { block = block; version = next_version (record_at block (key_at self.old block)); hop = 0; place = C.names claim })
            × IsPlaceOf C.names done.old (record_at block (key_at self.old block))
            × WasPut self.old.parts self.new.parts (C.names claim) (placed_unit done.emitted self.old.parts.groups.payload (content_under kind payload.now))) }
        ensures err { IfErr result (λ e. (e.1 ≡ claim) × IsUnplaced self.old self.new e.0) }
        ensures gone { IfErr result (λ e. IfSome e.0 (λ refusal. refusal ≡ Refusal.Gone (C.names claim))) }
        ensures flat { (F : Flat) (w : ℕ) → ShowsArray self.old F → F.held (C.names claim) (Worker w) ≡ true
            → MatchResult result
            (λ done. ArePutAtOnce F (say.Fill w (C.names claim) (content_under kind payload.now)) (say.Filled (C.names claim)) w (C.names claim) block done.emitted self.new)
            (λ e. IfSome e.0 (λ refusal. MayRefuse refusal
            (FillPasses F w (C.names claim))
            ((G : Flat) × FillCase F w (C.names claim) (content_under kind payload.now) (say.Refused refusal) G × ShowsArray self.new G))) }
    {
        let slot = claim.slot();
        let found = self.reported(block);
        let Some(stamp) = self.fresh_record(slot, block, found) else {
            return Err((None, claim));
        };
        // Before the drives, so that nothing can fail after the write. No refusal, because `fill` needs no memory: the commit
        // after it says Memory.
        if self.log.reserve(1).is_err() {
            return Err((None, claim));
        }
        let unit: &mut [u8] = &mut self.unit;
        let scratch: &mut [u8] = &mut self.scratch;
        if let Err(refusal) = self
            .parts
            .put_placed(slot, stamp, kind, payload, unit, scratch)
        {
            return Err((Some(refusal), claim));
        }
        self.log.push_reserved(stamp);
        self.keys[block as usize] = stamp.key();
        let old = keep_placed(&mut self.places, &mut self.live, slot, claim, block, found);
        Ok(Done {
            emitted: Emitted::of(stamp),
            old,
        })
    }

    /// Copies what a block holds into a slot of either class and commits it, in one write: what `copy` leaves, and then `commit`.
    /// Refused as `copy` is. Where the log is full, or an allocation fails, there is no refusal, and nothing was done.
    pub fn place_copy(&mut self, claim: C, block: u32) -> Result<Done<C>, (Option<Refusal>, C)>
        requires { block < self.old.parts.groups.blocks }
        ensures done { IfOk result (λ done. (q : Record) × (k : KindOf) × (record_at block (key_at self.old block) ≡ Some q)
            × (self.new ≡ commit_view (copy_view (with_parts self.old self.new.parts) (C.names claim) q k) (C.names claim) block (Some q) done.emitted)
            × (done.emitted ≡ record { block = block; version = q.version; hop = q.hop + 1; place = C.names claim })
            × IsPlaceOf C.names done.old (Some q)
            × WasMoved done.emitted self.old.parts self.new.parts q.place (C.names claim) k) }
        ensures err { IfErr result (λ e. (e.1 ≡ claim) × IsUnplaced self.old self.new e.0) }
        ensures memory { IfErr result (λ e. e.0 ≢ Some Refusal.Memory) }
        ensures flat { (F : Flat) (w : ℕ) → ShowsArray self.old F → F.held (C.names claim) (Worker w) ≡ true
            → MatchResult result
            (λ done. ArePutAtOnce F (say.Copy w (C.names claim) block) (say.Copied (C.names claim)) w (C.names claim) block done.emitted self.new)
            (λ e. IfSome e.0 (λ refusal. MayRefuse refusal
            ((r : Record) × CopyPasses F w (C.names claim) block r)
            ((G : Flat) × CopyCase F w (C.names claim) block (say.Refused refusal) G × ShowsArray self.new G))) }
    {
        let slot = claim.slot();
        let source = match self.source(slot, self.reported(block)) {
            Ok(source) => source,
            Err(refusal) => return Err((Some(refusal), claim)),
        };
        // Before the drives, so that nothing can fail after the write. No refusal, because `copy` needs no memory: the commit
        // after it says Memory.
        if self.log.len() >= LONGEST_LOG || self.log.reserve(1).is_err() {
            return Err((None, claim));
        }
        let stamp = moved_record(source, block, slot);
        let unit: &mut [u8] = &mut self.unit;
        let scratch: &mut [u8] = &mut self.scratch;
        if let Err(refusal) = self
            .parts
            .copy_under(source.place, slot, stamp, unit, scratch)
        {
            return Err((Some(refusal), claim));
        }
        self.log.push_reserved(stamp);
        self.keys[block as usize] = stamp.key();
        let old = keep_placed(
            &mut self.places,
            &mut self.live,
            slot,
            claim,
            block,
            Some(source),
        );
        Ok(Done {
            emitted: Emitted::of(stamp),
            old,
        })
    }

    // The record that a commit of a fresh content would emit; none where it would be refused.
    fn fresh_record(&self, slot: u16, block: u32, found: Option<Record>) -> Option<Record>
        ensures { IfSome result (λ next. (version_reason found ≡ None) × (full_reason self.now ≡ None)
            × (next ≡ record { block = block; version = next_version found; hop = 0; place = slot })) }
    {
        if self.log.len() >= LONGEST_LOG {
            return None;
        }
        written(block, slot, found).ok()
    }
}

// The record that a commit of a copy emits: the version that was copied, one hop on.
fn moved_record(source: Record, block: u32, slot: u16) -> Record
    requires { source.hop < 65535 }
    ensures { result ≡ record { block = block; version = source.version; hop = source.hop + 1; place = slot } }
{
    Record {
        block,
        version: source.version,
        hop: source.hop + 1,
        place: slot,
    }
}

// Keeps the claim of a slot as that of the block's newest place, and takes out the claim of the last one, if it had one.
fn keep_placed<C: Hold>(
    places: &mut Vec<SlotState<C>>,
    live: &mut [u16; GROUPS],
    slot: u16,
    claim: C,
    block: u32,
    found: Option<Record>,
) -> Option<C>
    requires inside { slot < vec_len places.old }
    requires free { slice_index_or (kepts_of places.old.items) slot Nothing ≡ Nothing }
    requires claim { C.names claim ≡ slot }
    requires newest { ForSome found (λ r. slice_index_or (kepts_of places.old.items) r.place Nothing ≡ Newest block) }
    requires claims { AreOf C.names places.old.items }
    requires counts { AreCounts (kepts_of places.old.items) live.old }
    ensures kept { kepts_of places.new.items ≡ slice_set (without_old (kepts_of places.old.items) found) slot (Newest block) }
    ensures room { vec_len places.new ≡ vec_len places.old }
    ensures old { IsPlaceOf C.names result found }
    ensures claims { AreOf C.names places.new.items }
    ensures counts { AreCounts (kepts_of places.new.items) live.new }
{
    let old = let_go(places, live, block, found);
    one_more(live, slot);
    put_in(places, slot, SlotState::Newest(block, claim));
    old
}
