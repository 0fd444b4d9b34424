// A slot that waits becomes the newest place of a block.
ghost use Rattle.std.specs.Prelude.{◌≡◌, ◌≢◌, ℕ, ◌+◌, ◌<◌};
ghost use Rattle.std.specs.Prelude.{vec_len, slice_index_or, slice_set, MatchResult, IfOk, IfErr, true, Some, None};
ghost use Rattle.std.specs.Option.{ForSome};
ghost use Rattle.map_join.specs.Record.{record_at};
ghost use Rattle.map_join.specs.declared.records.Record.{Record};
ghost use Rattle.extents.specs.declared.header.Header.TheVariants.{Is};
ghost use Rattle.flat_machine.specs.Steps as say;
ghost use Rattle.flat_machine.specs.Flat.{Flat, Ticket as ticket_of};
ghost use Rattle.flat_machine.specs.Cases.{CommitCase, IsAllocating, next_version};
ghost use Rattle.slot_tables.specs.Views.{Nothing, Newest, is_waiting, kept_at, key_at, with_parts};
ghost use Rattle.unit_store.specs.Views.{WasCarried};
ghost use Rattle.slot_tables.specs.Kept.{kepts_of, AreOf};
ghost use Rattle.slot_tables.specs.Counted.{AreCounts};
ghost use Rattle.disk_array.specs.Refused.{IsRefused};
ghost use Rattle.slot_tables.specs.Changes.{commit_view, commit_reason, commit_record, kind_given, version_reason, stamp_reason, without_old, IsPlaceOf, MayRefuse};
ghost use Rattle.slot_tables.specs.Represents.{ShowsArray};

use crate::array::Array;
use crate::live::{one_fewer, one_more};
use crate::ticket::Ticket;
use extent_groups::GROUPS;
use extents::{Drive, Header, Kind};
use flat_machine::Refusal;
use map_join::Record;
use slot_tables::{Hold, SlotState, put_in, state_at, take_out, take_waiting};
use std::alloc::Global;
use std::marker::Model;

/// The greatest version of a block.
const LAST_VERSION: u32 = 4_294_967_295;

/// The most records that a log may have.
pub(crate) const LONGEST_LOG: usize = 4_294_967_295;

/// The record of a commit that was acknowledged. It can't be cloned, and a commit alone makes one, so that its owner knows of
/// a commit.
#[derive(Debug, Drop)]
pub struct Emitted {
    record: Record,
}

impl Model for Emitted {
    ghost use Rattle.map_join.specs.declared.records.Record.{Record};

    ghost Value = { Record };

    ghost view = { λ emitted. emitted.record };
}

impl Emitted {
    pub(crate) fn of(reported: Record) -> Emitted
        ensures { result ≡ reported }
    {
        Emitted { record: reported }
    }

    /// The record that was emitted.
    pub fn record(&self) -> Record
        ensures { result ≡ self.now }
    {
        self.record
    }
}

/// A commit that was carried out: its record, and the claim of the block's last place, if it had one.
#[derive(Debug, Drop)]
pub struct Done<C: Hold> {
    pub emitted: Emitted,
    pub old: Option<C>,
}

impl<D: Drive, C: Hold> Array<D, C> {
    /// Commits a slot that waits: it becomes the newest place of the block, a fresh payload or trim under
    /// the next version, a copy under the same version one hop on. A copy that a newer record outran stays
    /// a ticket, to be discarded; so does one whose slot is gone.
    pub fn commit(
        &mut self,
        alloc: Global,
        ticket: Ticket,
        block: u32,
    ) -> Result<Done<C>, (Refusal, Ticket)>
        requires { block < self.old.parts.groups.blocks }
        ensures done { IfOk result (λ done.
            (self.new ≡ commit_view (with_parts self.old self.new.parts) ticket block (record_at block (key_at self.old block)) done.emitted)
            × (done.emitted ≡ commit_record self.old ticket block (record_at block (key_at self.old block)))
            × IsPlaceOf C.names done.old (record_at block (key_at self.old block))
            × WasCarried self.old.parts self.new.parts ticket ticket (Is done.emitted (kind_given (kept_at self.old ticket)))) }
        ensures err { IfErr result (λ e. (e.1 ≡ ticket) × IsRefused self.old self.new e.0) }
        ensures flat { (F : Flat) (w : ℕ) → ShowsArray self.old F → (F.tickets ticket ≢ None → F.held ticket (ticket_of w) ≡ true)
            → MatchResult result
            (λ done. (G : Flat) × CommitCase F w ticket block (say.Committed done.emitted) G × ShowsArray self.new G)
            (λ e. MayRefuse e.0
            (IsAllocating F (say.Commit w ticket block))
            ((G : Flat) × CommitCase F w ticket block (say.Refused e.0) G × ShowsArray self.new G)) }
    {
        let slot = ticket.slot();
        let found = self.newest(block);
        let record = match self.next_record(slot, block, found) {
            Ok(record) => record,
            Err(refusal) => return Err((refusal, ticket)),
        };
        // From the table, because the header of a slot that waits is blank and has no kind.
        let kind = self.waiting_kind(slot);
        // After the checks, so that Memory is only the answer to a commit that passes them. Before the drives, so that
        // nothing can fail after the write.
        if self.log.reserve(1).is_err() {
            return Err((Refusal::Memory, ticket));
        }
        let unit: &mut [u8] = &mut self.unit;
        let scratch: &mut [u8] = &mut self.scratch;
        let header = Header::Is(record, kind);
        // The record goes into the unit's header, because a scan makes the map from the headers alone.
        if let Err(refusal) = self.parts.carry(slot, slot, &header, unit, scratch) {
            return Err((refusal, ticket));
        }
        self.log.push_reserved(record);
        self.keys[block as usize] = record.key();
        let old = let_go(&mut self.places, &mut self.live, block, found);
        keep_newest(&mut self.places, &mut self.live, slot, block);
        Ok(Done {
            emitted: Emitted::of(record),
            old,
        })
    }

    /// The record that a commit of the slot's ticket to the block would emit, given the newest of the block. Refused where nothing
    /// waits at the slot that is for the block, where it was outrun, where the block's versions are spent, and where the log is full.
    pub fn next_record(
        &self,
        slot: u16,
        block: u32,
        found: Option<Record>,
    ) -> Result<Record, Refusal>
        ensures ok { IfOk result (λ next. (commit_reason self.now slot block found ≡ None) × (next ≡ commit_record self.now slot block found)) }
        ensures err { IfErr result (λ refusal. commit_reason self.now slot block found ≡ Some refusal) }
    {
        let next = match state_at(&self.places, slot) {
            Some(SlotState::Pending(_, _)) => written(block, slot, found),
            Some(SlotState::Moving(source, _, _)) => moved(*source, block, slot, found),
            Some(SlotState::Free) => Err(Refusal::NoTicket),
            Some(SlotState::Newest(_, _)) => Err(Refusal::NoTicket),
            Some(SlotState::Unmade(_)) => Err(Refusal::NoTicket),
            None => Err(Refusal::NoTicket),
        };
        // Last, so that a full log is only the answer to a commit that passes all other checks.
        if next.is_ok() && self.log.len() >= LONGEST_LOG {
            return Err(Refusal::LogFull);
        }
        next
    }

    /// The kind of what waits at the slot; data where nothing does.
    pub fn waiting_kind(&self, slot: u16) -> Kind
        ensures { result ≡ kind_given (kept_at self.now slot) }
    {
        match state_at(&self.places, slot) {
            Some(SlotState::Pending(kind, _)) => *kind,
            Some(SlotState::Moving(_, kind, _)) => *kind,
            Some(SlotState::Free) => Kind::Data,
            Some(SlotState::Newest(_, _)) => Kind::Data,
            Some(SlotState::Unmade(_)) => Kind::Data,
            None => Kind::Data,
        }
    }
}

// Takes out the claim of a block's last place, if it had one.
pub(crate) fn let_go<C: Hold>(
    places: &mut Vec<SlotState<C>>,
    live: &mut [u16; GROUPS],
    block: u32,
    found: Option<Record>,
) -> Option<C>
    requires newest { ForSome found (λ r. slice_index_or (kepts_of places.old.items) r.place Nothing ≡ Newest block) }
    requires claims { AreOf C.names places.old.items }
    requires counts { AreCounts (kepts_of places.old.items) live.old }
    ensures kept { kepts_of places.new.items ≡ without_old (kepts_of places.old.items) found }
    ensures room { vec_len places.new ≡ vec_len places.old }
    ensures old { IsPlaceOf C.names result found }
    ensures claims { AreOf C.names places.new.items }
    ensures counts { AreCounts (kepts_of places.new.items) live.new }
{
    let Some(record) = found else {
        return None;
    };
    one_fewer(live, record.place);
    match take_out(places, record.place) {
        SlotState::Newest(_, claim) => Some(claim),
        SlotState::Free => unreachable!(),
        SlotState::Pending(_, _claim) => unreachable!(),
        SlotState::Moving(_, _, _claim) => unreachable!(),
        SlotState::Unmade(_claim) => unreachable!(),
    }
}

// Keeps the claim of a slot that waits as that of the block's newest place.
#[tactic(auto, using(slot_tables::proofs::Places::set_twice))]
fn keep_newest<C: Hold>(
    places: &mut Vec<SlotState<C>>,
    live: &mut [u16; GROUPS],
    slot: u16,
    block: u32,
)
    requires waits { is_waiting (slice_index_or (kepts_of places.old.items) slot Nothing) ≡ true }
    requires claims { AreOf C.names places.old.items }
    requires counts { AreCounts (kepts_of places.old.items) live.old }
    ensures kept { kepts_of places.new.items ≡ slice_set (kepts_of places.old.items) slot (Newest block) }
    ensures room { vec_len places.new ≡ vec_len places.old }
    ensures claims { AreOf C.names places.new.items }
    ensures counts { AreCounts (kepts_of places.new.items) live.new }
{
    one_more(live, slot);
    let claim = take_waiting(places, slot);
    put_in(places, slot, SlotState::Newest(block, claim));
}

// The record of a fresh write: the next version of the block.
pub(crate) fn written(block: u32, slot: u16, found: Option<Record>) -> Result<Record, Refusal>
    ensures ok { IfOk result (λ next. (version_reason found ≡ None)
        × (next ≡ record { block = block; version = next_version found; hop = 0; place = slot })) }
    ensures err { IfErr result (λ refusal. version_reason found ≡ Some refusal) }
{
    let version = match found {
        None => 1,
        Some(newest) => {
            if newest.version == LAST_VERSION {
                return Err(Refusal::VersionSpent);
            }
            newest.version + 1
        }
    };
    Ok(Record {
        block,
        version,
        hop: 0,
        place: slot,
    })
}

// The record of a copy: the version that was copied, one hop on, where that is the newest.
fn moved(source: Record, block: u32, slot: u16, found: Option<Record>) -> Result<Record, Refusal>
    requires { source.hop < 65535 }
    ensures ok { IfOk result (λ next. (stamp_reason source block found ≡ None)
        × (next ≡ record { block = block; version = source.version; hop = source.hop + 1; place = slot })) }
    ensures err { IfErr result (λ refusal. stamp_reason source block found ≡ Some refusal) }
{
    let Some(newest) = found else {
        return Err(Refusal::NoTicket);
    };
    if source.block != block {
        return Err(Refusal::NoTicket);
    }
    // The place isn't compared, because no two records of a block have the same version and hop.
    if newest.version != source.version || newest.hop != source.hop {
        return Err(Refusal::Outrun(newest));
    }
    Ok(Record {
        block,
        version: source.version,
        hop: source.hop + 1,
        place: slot,
    })
}
