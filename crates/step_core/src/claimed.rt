// A block goes into a claimed slot of any array: in two calls, between which others may call the array, `put` and `finish`; or in one,
// `put_and_finish`.
ghost use Rattle.std.specs.Prelude.{◌≡◌, ◌≢◌, ℕ, ◌<◌, IfOk, IfErr, IfNone, IfSome, MatchResult, true, Some};
ghost use Rattle.map_join.specs.Record.{record_at};
ghost use Rattle.flat_machine.specs.Flat.{Flat, Worker};
ghost use Rattle.slot_tables.specs.Changes.{IsPlaceOf};
ghost use Rattle.slot_tables.specs.Represents.{ShowsArray};
ghost use Rattle.slot_tables.specs.Views.{SameSizes, key_at};
ghost use Rattle.disk_array.specs.Refused.{IsRefused};
ghost use Rattle.flat_machine.specs.Cases.{Case};
ghost use Rattle.flat_machine.specs.Steps.{Refused};
ghost use Rattle.slot_tables.specs.AtOnce.{ArePutAtOnce};
ghost use Rattle.slot_tables.specs.Changes.{MayRefuse};
ghost use Rattle.disk_array.specs.Refused.{IsUnplaced};
ghost use Rattle.step_core.specs.Placing.{Commits, Discards, GivesUp, IsClosedFor, IsNotPlaced, IsOpenFor, IsStill, IsWhatFor, IsWhatOf, PutReports, PutsAtOnce, block_for, put_answer, put_for, put_step};

use crate::place::Given;
use disk_array::{Array, Done, Ticket};
use extents::{Drive, Kind};
use flat_machine::Refusal;
use slot_tables::Hold;
use std::alloc::Global;

/// What goes into a claimed slot.
#[derive(Clone, Copy)]
pub enum What<'a> {
    /// A payload or a trim, which will be a block's next version.
    Fresh(Given<'a>),
    /// A copy of this block's last write, under its version.
    CopyOf(u32),
}

/// Why a block wasn't put into a claimed slot, and the claim, if it came back.
#[derive(Drop)]
pub struct Denied<C: Hold> {
    pub refusal: Refusal,
    pub claim: Option<C>,
}

/// Puts a payload, a trim or a copy into a claimed slot, where it waits for its commit. It allocates nothing, and is refused as
/// `Array::{fill, trim, copy}` are.
pub fn put<D: Drive, C: Hold>(
    array: &mut Array<D, C>,
    claim: C,
    what: What,
) -> Result<Ticket, (Refusal, C)>
    requires { IsWhatFor array.old.parts.groups.blocks array.old.parts.groups.payload what }
    ensures ticket { IfOk result (λ ticket. ticket ≡ C.names claim) }
    ensures err { IfErr result (λ e. (e.1 ≡ claim) × IsRefused array.old array.new e.0) }
    ensures memory { IfErr result (λ e. e.0 ≢ Refusal.Memory) }
    ensures flat { (F : Flat) (w : ℕ) → ShowsArray array.old F → F.held (C.names claim) (Worker w) ≡ true
        → PutReports result F w (put_for what.entry) (C.names claim) (block_for what.entry) array.new }
    ensures still { IsStill array.old array.new }
    ensures room { SameSizes array.old array.new }
{
    match what {
        What::Fresh(given) => match given {
            Given::Payload(payload) => array.fill(claim, payload),
            Given::Trim => array.trim(claim),
        },
        What::CopyOf(block) => array.copy(claim, block),
    }
}

/// Puts a payload, a trim or a copy into a claimed slot and commits it for the block, in one write: nobody calls the array in
/// between. Refused as `put` is. Where the commit would be refused, or an allocation fails, there is no refusal, and nothing was done.
pub fn place_at_once<D: Drive, C: Hold>(
    array: &mut Array<D, C>,
    claim: C,
    what: What,
    block: u32,
) -> Result<Done<C>, (Option<Refusal>, C)>
    requires what { IsWhatFor array.old.parts.groups.blocks array.old.parts.groups.payload what }
    requires of { IsWhatOf block what }
    requires block { block < array.old.parts.groups.blocks }
    ensures place { IfOk result (λ done. IsPlaceOf C.names done.old (record_at block (key_at array.old block))) }
    ensures err { IfErr result (λ e. (e.1 ≡ claim) × IsUnplaced array.old array.new e.0) }
    ensures memory { IfErr result (λ e. e.0 ≢ Some Refusal.Memory) }
    ensures flat { (F : Flat) (w : ℕ) → ShowsArray array.old F → F.held (C.names claim) (Worker w) ≡ true
        → MatchResult result
        (λ done. ArePutAtOnce F (put_step (put_for what.entry) w (C.names claim) block) (put_answer (put_for what.entry) (C.names claim)) w (C.names claim) block done.emitted array.new)
        (λ e. IfSome e.0 (λ refusal. MayRefuse refusal (Unit {0})
        ((G : Flat) × Case F (put_step (put_for what.entry) w (C.names claim) block) (Refused refusal) G × ShowsArray array.new G))) }
    ensures room { SameSizes array.old array.new }
{
    match fresh_fault(array, claim.slot(), what) {
        Some(refusal) => Err((Some(refusal), claim)),
        None => place_open(array, claim, what, block),
    }
}

/// Why a payload or a trim can't go into the slot; of a copy nothing is said, because its block counts, too.
pub(crate) fn fresh_fault<D: Drive, C: Hold>(
    array: &Array<D, C>,
    slot: u16,
    what: What,
) -> Option<Refusal>
    ensures open { IfNone result (IsOpenFor array.now slot what.entry) }
    ensures closed { IfSome result (IsClosedFor array.now slot what.entry) }
{
    match what {
        What::Fresh(_) => array.fill_fault(slot),
        What::CopyOf(_) => None,
    }
}

// Puts it there at once where the slot is known to be open to it, so that nobody asks twice.
fn place_open<D: Drive, C: Hold>(
    array: &mut Array<D, C>,
    claim: C,
    what: What,
    block: u32,
) -> Result<Done<C>, (Option<Refusal>, C)>
    requires what { IsWhatFor array.old.parts.groups.blocks array.old.parts.groups.payload what }
    requires of { IsWhatOf block what }
    requires open { IsOpenFor array.old (C.names claim) what }
    requires block { block < array.old.parts.groups.blocks }
    ensures place { IfOk result (λ done. IsPlaceOf C.names done.old (record_at block (key_at array.old block))) }
    ensures err { IfErr result (λ e. (e.1 ≡ claim) × IsUnplaced array.old array.new e.0) }
    ensures memory { IfErr result (λ e. e.0 ≢ Some Refusal.Memory) }
    ensures flat { (F : Flat) (w : ℕ) → ShowsArray array.old F → F.held (C.names claim) (Worker w) ≡ true
        → MatchResult result
        (λ done. ArePutAtOnce F (put_step (put_for what.entry) w (C.names claim) block) (put_answer (put_for what.entry) (C.names claim)) w (C.names claim) block done.emitted array.new)
        (λ e. IfSome e.0 (λ refusal. MayRefuse refusal (Unit {0})
        ((G : Flat) × Case F (put_step (put_for what.entry) w (C.names claim) block) (Refused refusal) G × ShowsArray array.new G))) }
    ensures room { SameSizes array.old array.new }
{
    match what {
        What::Fresh(given) => match given {
            Given::Payload(payload) => array.place_open(claim, block, Kind::Data, payload),
            // No bytes, because a trim's payload isn't looked at.
            Given::Trim => array.place_open(claim, block, Kind::Trim, &[]),
        },
        What::CopyOf(source) => array.place_copy(claim, source),
    }
}

/// Puts a payload, a trim or a copy into a claimed slot that is open to it, and commits it for the block. If either is refused the
/// claim comes back.
pub(crate) fn put_and_finish<D: Drive, C: Hold>(
    array: &mut Array<D, C>,
    alloc: Global,
    claim: C,
    what: What,
    block: u32,
) -> Result<Done<C>, Denied<C>>
    requires what { IsWhatFor array.old.parts.groups.blocks array.old.parts.groups.payload what }
    requires of { IsWhatOf block what }
    requires open { IsOpenFor array.old (C.names claim) what }
    requires block { block < array.old.parts.groups.blocks }
    ensures place { IfOk result (λ done. IsPlaceOf C.names done.old (record_at block (key_at array.old block))) }
    ensures claim { IfErr result (λ e. IfSome e.claim (λ back. C.names back ≡ C.names claim)) }
    ensures flat { MatchResult result
        (λ done. PutsAtOnce array.old array.new (put_for what.entry) (C.names claim) block done.emitted)
        (λ e. IsNotPlaced array.old array.new (put_for what.entry) (C.names claim) block e.refusal) }
    ensures room { SameSizes array.old array.new }
{
    let claim = match place_open(array, claim, what, block) {
        Ok(done) => return Ok(done),
        // Nothing was done: the two calls below say why, or succeed.
        Err((None, claim)) => claim,
        Err((Some(refusal), claim)) => return Err(Denied {
            refusal,
            claim: Some(claim),
        }),
    };
    match put(array, claim, what) {
        Ok(ticket) => finish(array, alloc, ticket, block),
        Err((refusal, claim)) => Err(Denied {
            refusal,
            claim: Some(claim),
        }),
    }
}

/// Commits what waits in a slot. If that is refused, the ticket is given up, so that a refused move holds no slot.
pub fn finish<D: Drive, C: Hold>(
    array: &mut Array<D, C>,
    alloc: Global,
    ticket: Ticket,
    block: u32,
) -> Result<Done<C>, Denied<C>>
    requires { block < array.old.parts.groups.blocks }
    ensures place { IfOk result (λ done. IsPlaceOf C.names done.old (record_at block (key_at array.old block))) }
    ensures claim { IfErr result (λ e. IfSome e.claim (λ claim. C.names claim ≡ ticket)) }
    ensures flat { MatchResult result (λ done. Commits array.old array.new ticket block done.emitted)
        (λ e. GivesUp array.old array.new ticket block e.refusal) }
    ensures room { SameSizes array.old array.new }
{
    match array.commit(alloc, ticket, block) {
        Ok(done) => Ok(done),
        Err((refusal, ticket)) => {
            let claim = take_back(array, ticket);
            Err(Denied { refusal, claim })
        }
    }
}

// Ends a ticket: the claim of its slot comes back.
fn take_back<D: Drive, C: Hold>(array: &mut Array<D, C>, ticket: Ticket) -> Option<C>
    ensures claim { IfSome result (λ claim. C.names claim ≡ ticket) }
    ensures flat { Discards array.old array.new ticket }
    ensures room { SameSizes array.old array.new }
{
    match array.discard(ticket) {
        Ok(claim) => Some(claim),
        // Nothing waits at the slot, so the array has no claim to return.
        Err(_) => None,
    }
}
