// What lies under a Book's lock, and the calls that borrow it.
ghost use Rattle.std.specs.Prelude.{◌≡◌, ◌≢◌, ◌⊎◌, ℕ, ◌<◌, ◌≤◌, length, IfOk, IfErr, IsErr, IsErrOf, MatchOption, MatchResult, true, None};
ghost use Rattle.map_join.specs.Record.{key_of, record_at};
ghost use Rattle.flat_machine.specs.Steps as say;
ghost use Rattle.flat_machine.specs.Flat.{Flat, Payload, Trim, Worker, Ticket as ticket_of};
ghost use Rattle.flat_machine.specs.Cases.{FillCase, FillPasses, CopyCase, CopyPasses, CommitCase, DiscardCase, IsAllocating, IsNotAhead};
ghost use Rattle.flat_machine.specs.Learning.{LearnedCase, UnlearnedCase};
ghost use Rattle.flat_machine.specs.declared.refusal.Refusal.TheVariants as refusal;
ghost use Rattle.map_join.specs.declared.records.Record.{Record};
ghost use Rattle.slot_tables.specs.Changes.{MayRefuse, commit_record};
ghost use Rattle.slot_tables.specs.Views.{key_at};
ghost use Rattle.slot_tables.specs.Represents.{ShowsArray};
ghost use Rattle.migrator.specs.Slots.{end_at};
ghost use Rattle.step_core.specs.Refused.{IsRefused};
ghost use Rattle.step_core.specs.Placing.{Fresh, Again, IsWhatFor, IsWhatOf, PutReports, block_for, put_for};
ghost use Rattle.array_book.specs.Acts.{put_act, unplaced_act, refused_commit, discard_act, read_act};
ghost use Rattle.array_book.specs.Kept.{IsKept, Agrees, HasNoted, OnlyArray};
ghost use Rattle.array_book.specs.Outcomes.{Noted, HasCommitted, HasHop, HasPlaced};

use crate::claim::{Claim, Sizes};
use crate::deed::{CommitFails, Commits, Deed, Discards, Places, PutFails, Puts, Reads};
use extents::Drive;
use flat_machine::Refusal;
use history::{Hand, History, Keeper};
use map_join::Record;
use slot_words::{Naming, SlotWords};
use std::alloc::{AllocError, Global};
use std::marker::Model;
use step_core::{Array, Done, Given, Hold, Reading, Ticket, What, place_at_once, put};
use tiered_array::Planner;

/// An array, what its plans go by, and the keeper of the history that led to it.
pub struct Kept<D: Drive, N: Naming + Sizes> {
    pub(crate) array: Array<D, Claim<N>>,
    pub(crate) planner: Planner,
    pub(crate) keeper: Keeper<N, Deed>,
}

impl<D: Drive, N: Naming + Sizes> Model for Kept<D, N> {
    ghost use Rattle.array_book.specs.Kept.{KeptView, IsKept};
    ghost use Rattle.array_book.specs.Acts.{IsLed};

    ghost Value = { KeptView };

    ghost view = { λ k. record { array = k.array; planner = k.planner } };

    ghost invariant = { λ k. (is : IsKept N.blocks N.payload (record { array = k.array; planner = k.planner })) × IsLed k.keeper N.hands is.flat };
}

impl<D: Drive, N: Naming + Sizes> Kept<D, N> {
    /// The array.
    pub fn array(&self) -> &Array<D, Claim<N>>
        ensures { result.now ≡ self.now.array }
    {
        &self.array
    }

    /// What is true whenever the lock is free, as a law: the call does nothing. The array shows some flat state; its map is that of
    /// its log; and where no newest place is gone it is the map of the headers.
    pub fn matches(&self)
        ensures kept { IsKept N.blocks N.payload self.now }
        ensures shows { (F : Flat) × ShowsArray self.now.array F }
        ensures sizes { (self.now.array.parts.groups.blocks ≡ N.blocks) × (self.now.array.parts.groups.payload ≡ N.payload) }
        ensures agrees { Agrees self.now.array }
    {
        self.array.whole();
    }
}

/// Puts a payload, a trim or a copy into a slot, as `step_core::put` does, but is never refused as `InUse`.
pub fn put_in<D: Drive, N: Naming + Sizes>(
    kept: &mut Kept<D, N>,
    history: &History<N, Deed>,
    me: &mut Hand<N, Deed>,
    words: &SlotWords<N>,
    claim: Claim<N>,
    what: What,
) -> Result<Ticket, (Refusal, Claim<N>)>
    requires { IsWhatFor N.blocks N.payload what }
    ensures ticket { IfOk result (λ ticket. ticket ≡ claim.0.slot) }
    ensures err { IfErr result (λ e. (e.1 ≡ claim) × (e.0 ≢ refusal.InUse) × IsRefused kept.old.array kept.new.array e.0) }
    ensures memory { IfErr result (λ e. e.0 ≢ refusal.Memory) }
    ensures rest { OnlyArray kept.old kept.new }
    ensures called { Noted me.old (put_act (put_for what.entry) claim.0.slot (block_for what.entry) result) me.new }
    ensures flat { (F : Flat) (w : ℕ) → ShowsArray kept.old.array F → F.held claim.0.slot (Worker w) ≡ true
        → PutReports result F w (put_for what.entry) claim.0.slot (block_for what.entry) kept.new.array }
{
    let mut claim = claim;
    // The array keeps no claim of this slot, since the caller has it: so `InUse` never comes.
    kept.array.apart_from(words, &mut claim);
    let slot = claim.slot();
    let placed = put(&mut kept.array, claim, what);
    kept.keeper
        .note::<(u16, What, &Result<Ticket, (Refusal, Claim<N>)>), Puts>(
            history,
            me,
            &(slot, what, &placed),
        );
    placed
}

/// Puts a payload, a trim or a copy into a claimed slot and commits it for the block, in one write, and notes the write where the
/// record has no hop. Where the commit would be refused, or an allocation fails, there is no refusal, and nothing was done.
pub(crate) fn place_in<D: Drive, N: Naming + Sizes>(
    kept: &mut Kept<D, N>,
    history: &History<N, Deed>,
    me: &mut Hand<N, Deed>,
    words: &SlotWords<N>,
    claim: Claim<N>,
    what: What,
    block: u32,
) -> Result<Done<Claim<N>>, (Option<Refusal>, Claim<N>)>
    requires what { IsWhatFor N.blocks N.payload what }
    requires of { IsWhatOf block what }
    requires block { block < N.blocks }
    ensures ok { IfOk result (λ done. (done.emitted.block ≡ block) × (0 < done.emitted.version) × HasHop (put_for what.entry) done.emitted) }
    ensures noted { IfOk result (λ done. HasNoted kept.old kept.new done.emitted) }
    ensures end { kept.new.planner.end ≡ kept.old.planner.end }
    ensures err { IfErr result (λ e. (e.1 ≡ claim) × (kept.new.planner.ages ≡ kept.old.planner.ages)) }
    ensures called { MatchResult result
        (λ done. HasPlaced me.old (put_for what.entry) claim.0.slot block done.emitted me.new)
        (λ e. MatchOption e.0 (me.new ≡ me.old) (λ refusal. Noted me.old (unplaced_act (put_for what.entry) claim.0.slot block refusal) me.new)) }
{
    let mut claim = claim;
    kept.array.apart_from(words, &mut claim);
    let slot = claim.slot();
    match place_at_once(&mut kept.array, claim, what, block) {
        Ok(done) => {
            // Two entries, as of a put and a commit apart: the history doesn't show how often the unit was written.
            let committed = done.emitted.record();
            kept.planner.note(&kept.array, committed);
            kept.keeper
                .note::<(u16, What, u32), Places>(history, me, &(slot, what, block));
            kept.keeper
                .note::<(u16, u32, &Done<Claim<N>>), Commits>(history, me, &(slot, block, &done));
            Ok(done)
        }
        Err((Some(refusal), claim)) => {
            kept.keeper
                .note::<(u16, What, u32, Refusal), PutFails>(
                    history,
                    me,
                    &(slot, what, block, refusal),
                );
            Err((Some(refusal), claim))
        }
        // No entry: nothing was done, and the caller tries the put and the commit apart, to learn why.
        Err((None, claim)) => Err((None, claim)),
    }
}

/// Fills a mirrored slot with a fresh payload, as the array does, but is never refused as `InUse`.
pub fn fill_in<D: Drive, N: Naming + Sizes>(
    kept: &mut Kept<D, N>,
    history: &History<N, Deed>,
    me: &mut Hand<N, Deed>,
    words: &SlotWords<N>,
    claim: Claim<N>,
    payload: &[u8],
) -> Result<Ticket, (Refusal, Claim<N>)>
    requires { length payload.now ≡ N.payload }
    ensures ticket { IfOk result (λ ticket. ticket ≡ claim.0.slot) }
    ensures err { IfErr result (λ e. (e.1 ≡ claim) × (e.0 ≢ refusal.InUse) × IsRefused kept.old.array kept.new.array e.0) }
    ensures memory { IfErr result (λ e. e.0 ≢ refusal.Memory) }
    ensures rest { OnlyArray kept.old kept.new }
    ensures called { Noted me.old (put_act (Fresh (Payload payload.now)) claim.0.slot 0 result) me.new }
    ensures flat { (F : Flat) (w : ℕ) → ShowsArray kept.old.array F → F.held claim.0.slot (Worker w) ≡ true
        → MatchResult result
        (λ ticket. (G : Flat) × FillCase F w ticket (Payload payload.now) (say.Filled ticket) G × ShowsArray kept.new.array G)
        (λ e. MayRefuse e.0
        (FillPasses F w claim.0.slot)
        ((G : Flat) × FillCase F w claim.0.slot (Payload payload.now) (say.Refused e.0) G × ShowsArray kept.new.array G)) }
{
    put_in(
        kept,
        history,
        me,
        words,
        claim,
        What::Fresh(Given::Payload(payload)),
    )
}

/// Fills a mirrored slot with a trim, as the array does, but is never refused as `InUse`.
pub fn trim_in<D: Drive, N: Naming + Sizes>(
    kept: &mut Kept<D, N>,
    history: &History<N, Deed>,
    me: &mut Hand<N, Deed>,
    words: &SlotWords<N>,
    claim: Claim<N>,
) -> Result<Ticket, (Refusal, Claim<N>)>
    ensures ticket { IfOk result (λ ticket. ticket ≡ claim.0.slot) }
    ensures err { IfErr result (λ e. (e.1 ≡ claim) × (e.0 ≢ refusal.InUse) × IsRefused kept.old.array kept.new.array e.0) }
    ensures memory { IfErr result (λ e. e.0 ≢ refusal.Memory) }
    ensures rest { OnlyArray kept.old kept.new }
    ensures called { Noted me.old (put_act (Fresh Trim) claim.0.slot 0 result) me.new }
    ensures flat { (F : Flat) (w : ℕ) → ShowsArray kept.old.array F → F.held claim.0.slot (Worker w) ≡ true
        → MatchResult result
        (λ ticket. (G : Flat) × FillCase F w ticket Trim (say.Filled ticket) G × ShowsArray kept.new.array G)
        (λ e. MayRefuse e.0
        (FillPasses F w claim.0.slot)
        ((G : Flat) × FillCase F w claim.0.slot Trim (say.Refused e.0) G × ShowsArray kept.new.array G)) }
{
    put_in(kept, history, me, words, claim, What::Fresh(Given::Trim))
}

/// Copies what a block holds into a slot, as the array does, but is never refused as `InUse`.
pub fn copy_in<D: Drive, N: Naming + Sizes>(
    kept: &mut Kept<D, N>,
    history: &History<N, Deed>,
    me: &mut Hand<N, Deed>,
    words: &SlotWords<N>,
    claim: Claim<N>,
    block: u32,
) -> Result<Ticket, (Refusal, Claim<N>)>
    requires { block < N.blocks }
    ensures ticket { IfOk result (λ ticket. ticket ≡ claim.0.slot) }
    ensures err { IfErr result (λ e. (e.1 ≡ claim) × (e.0 ≢ refusal.InUse) × IsRefused kept.old.array kept.new.array e.0) }
    ensures memory { IfErr result (λ e. e.0 ≢ refusal.Memory) }
    ensures rest { OnlyArray kept.old kept.new }
    ensures called { Noted me.old (put_act Again claim.0.slot block result) me.new }
    ensures flat { (F : Flat) (w : ℕ) → ShowsArray kept.old.array F → F.held claim.0.slot (Worker w) ≡ true
        → MatchResult result
        (λ ticket. (G : Flat) × CopyCase F w ticket block (say.Copied ticket) G × ShowsArray kept.new.array G)
        (λ e. MayRefuse e.0
        ((r : Record) × CopyPasses F w claim.0.slot block r)
        ((G : Flat) × CopyCase F w claim.0.slot block (say.Refused e.0) G × ShowsArray kept.new.array G)) }
{
    put_in(kept, history, me, words, claim, What::CopyOf(block))
}

/// Commits a ticket, as the array does, and notes the write where the record has no hop.
pub fn commit_in<D: Drive, N: Naming + Sizes>(
    kept: &mut Kept<D, N>,
    history: &History<N, Deed>,
    me: &mut Hand<N, Deed>,
    alloc: Global,
    ticket: Ticket,
    block: u32,
) -> Result<Done<Claim<N>>, (Refusal, Ticket)>
    requires { block < N.blocks }
    ensures record { IfOk result (λ done. done.emitted ≡ commit_record kept.old.array ticket block (record_at block (key_at kept.old.array block))) }
    ensures written { IfOk result (λ done. 0 < done.emitted.version) }
    ensures noted { IfOk result (λ done. HasNoted kept.old kept.new done.emitted) }
    ensures err { IfErr result (λ e. (e.1 ≡ ticket) × IsRefused kept.old.array kept.new.array e.0 × (kept.new.planner.ages ≡ kept.old.planner.ages)) }
    ensures end { kept.new.planner.end ≡ kept.old.planner.end }
    ensures called { MatchResult result (λ done. HasCommitted me.old ticket block done.emitted me.new)
        (λ e. Noted me.old (refused_commit ticket block e.0) me.new) }
    ensures flat { (F : Flat) (w : ℕ) → ShowsArray kept.old.array F → (F.tickets ticket ≢ None → F.held ticket (ticket_of w) ≡ true)
        → MatchResult result
        (λ done. (G : Flat) × CommitCase F w ticket block (say.Committed done.emitted) G × ShowsArray kept.new.array G)
        (λ e. MayRefuse e.0
        (IsAllocating F (say.Commit w ticket block))
        ((G : Flat) × CommitCase F w ticket block (say.Refused e.0) G × ShowsArray kept.new.array G)) }
{
    let slot = ticket.slot();
    match kept.array.commit(alloc, ticket, block) {
        Ok(done) => {
            // Under the same hold: whenever the lock is free, the marks are those of the array's map.
            kept.planner.note(&kept.array, done.emitted.record());
            kept.keeper
                .note::<(u16, u32, &Done<Claim<N>>), Commits>(history, me, &(slot, block, &done));
            Ok(done)
        }
        Err(refused) => {
            kept.keeper
                .note::<(u16, u32, &(Refusal, Ticket)), CommitFails>(
                    history,
                    me,
                    &(slot, block, &refused),
                );
            Err(refused)
        }
    }
}

/// Commits a ticket under which a fresh payload or trim waits; refused with `NoTicket` where neither does.
#[tactic(auto, using(crate::proofs::Fresh::no_hop))]
pub(crate) fn commit_fresh_in<D: Drive, N: Naming + Sizes>(
    kept: &mut Kept<D, N>,
    history: &History<N, Deed>,
    me: &mut Hand<N, Deed>,
    alloc: Global,
    ticket: Ticket,
    block: u32,
) -> Result<Done<Claim<N>>, (Refusal, Ticket)>
    requires { block < N.blocks }
    ensures ok { IfOk result (λ done. (done.emitted.block ≡ block) × (0 < done.emitted.version) × (done.emitted.hop ≡ 0)) }
    ensures called { MatchResult result (λ done. HasCommitted me.old ticket block done.emitted me.new)
        (λ e. Noted me.old (refused_commit ticket block e.0) me.new ⊎ ((me.new ≡ me.old) × (e.0 ≡ refusal.NoTicket))) }
    ensures noted { IfOk result (λ done. HasNoted kept.old kept.new done.emitted) }
    ensures err { IfErr result (λ e. (e.1 ≡ ticket) × (kept.new.planner.ages ≡ kept.old.planner.ages)) }
    ensures end { kept.new.planner.end ≡ kept.old.planner.end }
{
    if !kept.array.is_fresh(&ticket) {
        return Err((Refusal::NoTicket, ticket));
    }
    commit_in(kept, history, me, alloc, ticket, block)
}

/// Gives up a ticket, as the array does: the claim of its slot comes back.
pub fn discard_in<D: Drive, N: Naming + Sizes>(
    kept: &mut Kept<D, N>,
    history: &History<N, Deed>,
    me: &mut Hand<N, Deed>,
    ticket: Ticket,
) -> Result<Claim<N>, (Refusal, Ticket)>
    ensures claim { IfOk result (λ claim. claim.0.slot ≡ ticket) }
    ensures err { IfErr result (λ e. (e.1 ≡ ticket) × (kept.new ≡ kept.old)) }
    ensures rest { OnlyArray kept.old kept.new }
    ensures called { Noted me.old (discard_act ticket result) me.new }
    ensures flat { (F : Flat) (w : ℕ) → ShowsArray kept.old.array F → (F.tickets ticket ≢ None → F.held ticket (ticket_of w) ≡ true)
        → MatchResult result
        (λ claim. (G : Flat) × DiscardCase F w ticket (say.Discarded ticket) G × ShowsArray kept.new.array G)
        (λ e. DiscardCase F w ticket (say.Refused e.0) F) }
{
    let slot = ticket.slot();
    let discarded = kept.array.discard(ticket);
    kept.keeper
        .note::<(u16, &Result<Claim<N>, (Refusal, Ticket)>), Discards>(
            history,
            me,
            &(slot, &discarded),
        );
    discarded
}

/// Reads a record with its payload, or with none of a trim, or where it is stale the newest record of its block, as the array
/// does, into memory of a payload's length that was allocated before the lock was taken. So nothing is allocated while others
/// wait for the lock.
pub fn read_in<D: Drive, N: Naming + Sizes>(
    kept: &mut Kept<D, N>,
    history: &History<N, Deed>,
    me: &mut Hand<N, Deed>,
    asked: Record,
    room: Result<Vec<u8>, AllocError>,
) -> Result<Reading, Refusal>
    requires block { «asked».block < N.blocks }
    requires room { IfOk room (λ payload. length payload.items ≡ N.payload) }
    ensures reported { IfOk result (λ reading. (reading.reported.block ≡ «asked».block) × (key_of «asked» ≤ key_of reading.reported)) }
    ensures written { IfOk result (λ reading. 0 < «asked».version → 0 < reading.reported.version) }
    ensures err { IfErr result (IsRefused kept.old.array kept.new.array) }
    ensures memory { IsErrOf result refusal.Memory → IsErr room }
    ensures rest { OnlyArray kept.old kept.new }
    ensures called { Noted me.old (read_act «asked» result) me.new }
    ensures flat { (F : Flat) → ShowsArray kept.old.array F → MatchResult result
        (λ reading. (G : Flat) × LearnedCase F «asked» reading.reported reading.content G × ShowsArray kept.new.array G)
        (λ refusal. MayRefuse refusal
        (IsNotAhead F «asked»)
        ((G : Flat) × UnlearnedCase F «asked» refusal G × ShowsArray kept.new.array G)) }
{
    let read = kept.array.read_or_learn_into(asked, room);
    kept.keeper
        .note::<(Record, &Result<Reading, Refusal>), Reads>(history, me, &(asked, &read));
    read
}

/// Notes that a slot was appended: the write log goes on after it.
pub fn appended_in<D: Drive, N: Naming + Sizes>(kept: &mut Kept<D, N>, slot: u16)
    ensures end { kept.new.planner.end ≡ end_at slot }
    ensures rest { (kept.new.array ≡ kept.old.array) × (kept.new.planner.ages ≡ kept.old.planner.ages) }
{
    kept.planner.appended(slot);
}
