// What a worker's call does under a hold of the lock. What a refusal leaves is released once the lock is free, because claim words
// need no lock.
ghost use Rattle.std.specs.Prelude.{◌≡◌, ◌<◌, IfOk, IfErr, IfSome, OnErr, MatchResult, Some, true, false};
ghost use Rattle.migrator.specs.Slots.{end_at};
ghost use Rattle.step_core.specs.Placing.{IsWhatFor, IsWhatOf, block_for, put_for};
ghost use Rattle.array_book.specs.Acts.{placed_act, unplaced_act};
ghost use Rattle.array_book.specs.Kept.{HasNoted, OnlyArray};
ghost use Rattle.array_book.specs.Outcomes.{Noted, GaveUp, WasRefused, HasCommitted, HasEnded, HasHop, HasTriedPut};

use crate::claim::{Claim, Sizes};
use crate::deed::Deed;
use crate::kept::{Kept, appended_in, commit_fresh_in, commit_in, discard_in, place_in, put_in};
use extents::Drive;
use flat_machine::Refusal;
use history::{Hand, History};
use slot_words::{Naming, SlotWords};
use std::alloc::Global;
use step_core::{Denied, Done, Ticket, What};

/// Puts a payload, a trim or a copy into a claimed slot, where it waits for its commit.
pub(crate) fn wait_in<D: Drive, N: Naming + Sizes>(
    kept: &mut Kept<D, N>,
    history: &History<N, Deed>,
    me: &mut Hand<N, Deed>,
    words: &SlotWords<N>,
    claim: Claim<N>,
    what: What,
) -> Result<Ticket, Denied<Claim<N>>>
    requires { IsWhatFor N.blocks N.payload what }
    ensures ticket { IfOk result (λ ticket. ticket ≡ claim.0.slot) }
    ensures claim { IfErr result (λ e. e.claim ≡ Some claim) }
    ensures rest { OnlyArray kept.old kept.new }
    ensures called { MatchResult result (λ ticket. Noted me.old (placed_act (put_for what.entry) ticket (block_for what.entry)) me.new)
        (λ e. Noted me.old (unplaced_act (put_for what.entry) claim.0.slot (block_for what.entry) e.refusal) me.new) }
{
    match put_in(kept, history, me, words, claim, what) {
        Ok(ticket) => Ok(ticket),
        Err((refusal, claim)) => Err(Denied {
            refusal,
            claim: Some(claim),
        }),
    }
}

// Gives up the ticket of a refused commit. Else its slot would be held until a restart, since no Worker keeps tickets.
fn give_up_in<D: Drive, N: Naming + Sizes>(
    kept: &mut Kept<D, N>,
    history: &History<N, Deed>,
    me: &mut Hand<N, Deed>,
    refusal: Refusal,
    ticket: Ticket,
) -> Denied<Claim<N>>
    ensures refusal { result.refusal ≡ refusal }
    ensures claim { IfSome result.claim (λ claim. claim.0.slot ≡ ticket) }
    ensures called { GaveUp me.old ticket me.new }
    ensures planner { kept.new.planner ≡ kept.old.planner }
{
    let claim = match discard_in(kept, history, me, ticket) {
        Ok(claim) => Some(claim),
        Err(_) => None,
    };
    Denied { refusal, claim }
}

// Commits what waits in a slot: a fresh content, which has to be one still, or a copy.
fn commit_what_in<D: Drive, N: Naming + Sizes>(
    kept: &mut Kept<D, N>,
    history: &History<N, Deed>,
    me: &mut Hand<N, Deed>,
    alloc: Global,
    ticket: Ticket,
    what: What,
    block: u32,
) -> Result<Done<Claim<N>>, (Refusal, Ticket)>
    requires { block < N.blocks }
    ensures ok { IfOk result (λ done. (done.emitted.block ≡ block) × (0 < done.emitted.version) × HasHop (put_for what.entry) done.emitted) }
    ensures called { MatchResult result (λ done. HasCommitted me.old ticket block done.emitted me.new)
        (λ e. WasRefused me.old (put_for what.entry) ticket block e.0 me.new) }
    ensures noted { IfOk result (λ done. HasNoted kept.old kept.new done.emitted) }
    ensures err { IfErr result (λ e. (e.1 ≡ ticket) × (kept.new.planner.ages ≡ kept.old.planner.ages)) }
    ensures end { kept.new.planner.end ≡ kept.old.planner.end }
{
    match what {
        What::Fresh(_) => commit_fresh_in(kept, history, me, alloc, ticket, block),
        What::CopyOf(_) => commit_in(kept, history, me, alloc, ticket, block),
    }
}

/// Commits what was put into a slot, and where `appends` says so, notes that the write log goes on after it. If the commit is refused,
/// the ticket is given up.
pub(crate) fn end_in<D: Drive, N: Naming + Sizes>(
    kept: &mut Kept<D, N>,
    history: &History<N, Deed>,
    me: &mut Hand<N, Deed>,
    alloc: Global,
    ticket: Ticket,
    what: What,
    block: u32,
    appends: bool,
) -> Result<Done<Claim<N>>, Denied<Claim<N>>>
    requires { block < N.blocks }
    ensures ok { IfOk result (λ done. (done.emitted.block ≡ block) × (0 < done.emitted.version) × HasHop (put_for what.entry) done.emitted) }
    ensures called { HasEnded (λ done. done.emitted) (λ e. e.refusal) me.old (put_for what.entry) ticket block result me.new }
    ensures claim { IfErr result (λ e. IfSome e.claim (λ claim. claim.0.slot ≡ ticket)) }
    ensures err { OnErr result ((kept.new.planner.end ≡ kept.old.planner.end) × (kept.new.planner.ages ≡ kept.old.planner.ages)) }
    ensures appended { IfOk result (λ done. appends ≡ true → kept.new.planner.end ≡ end_at done.emitted.place) }
    ensures stays { appends ≡ false → kept.new.planner.end ≡ kept.old.planner.end }
    ensures noted { IfOk result (λ done. HasNoted kept.old kept.new done.emitted) }
{
    match commit_what_in(kept, history, me, alloc, ticket, what, block) {
        Ok(done) => {
            if appends {
                // After the commit: a plan that is refused leaves the log's end.
                appended_in(kept, done.emitted.record().place);
            }
            Ok(done)
        }
        Err((refusal, ticket)) => Err(give_up_in(kept, history, me, refusal, ticket)),
    }
}

/// Puts a payload, a trim or a copy into a claimed slot and commits it for the block: in one write, unless the commit is refused.
/// Where `appends` says so, the write log goes on after the slot.
pub(crate) fn put_and_end_in<D: Drive, N: Naming + Sizes>(
    kept: &mut Kept<D, N>,
    history: &History<N, Deed>,
    me: &mut Hand<N, Deed>,
    words: &SlotWords<N>,
    alloc: Global,
    claim: Claim<N>,
    what: What,
    block: u32,
    appends: bool,
) -> Result<Result<Done<Claim<N>>, Denied<Claim<N>>>, Denied<Claim<N>>>
    requires what { IsWhatFor N.blocks N.payload what }
    requires of { IsWhatOf block what }
    requires block { block < N.blocks }
    ensures ok { IfOk result (λ ended. IfOk ended (λ done.
        (done.emitted.block ≡ block) × (0 < done.emitted.version) × HasHop (put_for what.entry) done.emitted)) }
    ensures called { HasTriedPut (λ done. done.emitted) (λ e. e.refusal) me.old (put_for what.entry) claim.0.slot block result me.new }
    ensures claim { MatchResult result (λ ended. IfErr ended (λ e. IfSome e.claim (λ back. back.0.slot ≡ claim.0.slot))) (λ e. e.claim ≡ Some claim) }
    ensures err { MatchResult result
        (λ ended. OnErr ended ((kept.new.planner.end ≡ kept.old.planner.end) × (kept.new.planner.ages ≡ kept.old.planner.ages)))
        (λ e. OnlyArray kept.old kept.new) }
    ensures appended { IfOk result (λ ended. IfOk ended (λ done. appends ≡ true → kept.new.planner.end ≡ end_at done.emitted.place)) }
    ensures stays { appends ≡ false → kept.new.planner.end ≡ kept.old.planner.end }
    ensures noted { IfOk result (λ ended. IfOk ended (λ done. HasNoted kept.old kept.new done.emitted)) }
{
    let claim = match place_in(kept, history, me, words, claim, what, block) {
        Ok(done) => {
            if appends {
                appended_in(kept, done.emitted.record().place);
            }
            return Ok(Ok(done));
        }
        // The put and the commit apart say why: a refused commit, or out of memory.
        Err((None, claim)) => claim,
        Err((Some(refusal), claim)) => return Err(Denied {
            refusal,
            claim: Some(claim),
        }),
    };
    match wait_in(kept, history, me, words, claim, what) {
        Ok(ticket) => Ok(end_in(kept, history, me, alloc, ticket, what, block, appends)),
        Err(denied) => Err(denied),
    }
}
