// One thread's hands on a Book.
ghost use Rattle.std.specs.Prelude.{◌≡◌, ◌≢◌, ℕ, ◌<◌, length, IfOk, IfErr, IfSome, IfNone, OnOk, OnErr, MatchOption, MatchResult, Ok, Err, Some, None};
ghost use Rattle.map_join.specs.declared.records.Record.{Record};
ghost use Rattle.step_core.specs.Reported.{Lesson};
ghost use Rattle.map_words.specs.Answers.{HasFound, IsUpperBound, key_or_zero};
ghost use Rattle.map_join.specs.Record.{key_of};
ghost use Rattle.flat_machine.specs.Flat.{Payload, Trim};
ghost use Rattle.flat_machine.specs.declared.refusal.Refusal.{Refusal};
ghost use Rattle.flat_machine.specs.declared.refusal.Refusal.TheVariants as refusal;
ghost use Rattle.slot_words.specs.Places.{table_slots};
ghost use Rattle.step_core.specs.Placing.{Fresh, content_of, put_for, IsGivenFor, IsWhatFor, IsWhatOf};
ghost use Rattle.array_book.specs.Acts.{unplaced_act};
ghost use Rattle.array_book.specs.Takes.{controller_of, taker_of, other_of, AreSame, HasAsked, HasMigrated, Took, Learnt, IsReadRecord};
ghost use Rattle.array_book.specs.Outcomes.{HasFailed, HasHop, HasPut, HasWritten, fault_of};
ghost use Rattle.array_book.specs.Outcomes.{WasPlanned, IsTried, HadNoRoom, HasMoved, HasReadBlock};
ghost use Rattle.array_book.specs.declared.fault.WorkFault.TheVariants.{Core};

use crate::book::Book;
use crate::claim::{Claim, Sizes};
use crate::controller::Controller;
use crate::deed::Deed;
use crate::ended::Ended;
use crate::fault::WorkFault;
use crate::gate::{Gate, Point};
use crate::held::{end_in, put_and_end_in, wait_in};
use crate::kept::{Kept, read_in};
use crate::plan::{Plan, plan_in, slot_after};
use extents::Drive;
use flat_machine::Refusal;
use history::Hand;
use map_join::Record;
use map_words::Taker;
use slot_words::{Pass, SlotWords};
use std::alloc::Global;
use std::sync::{Mutex, Wait};
use step_core::{Denied, Done, Emitted, Given, Reading, What};

/// One thread's hands on a Book: a Pass, a Taker of each controller, and a hand of the history.
#[derive(Drop)]
pub struct Worker<
    'a,
    D: Drive,
    N: slot_words::Naming + Sizes,
    A: map_words::Naming,
    B: map_words::Naming,
> {
    pub(crate) book: &'a Book<D, N, A, B>,
    pub(crate) number: u8,
    pub(crate) pass: Pass<N>,
    pub(crate) even: Taker<A>,
    pub(crate) odd: Taker<B>,
    pub(crate) hand: Hand<N, Deed>,
    // How its last job ended. Kept here, because a run of threads returns nothing of its parts.
    pub(crate) outcome: Result<(), WorkFault>,
}

/// The outcome of a migration.
#[derive(Debug, Drop)]
pub enum Migration {
    Moved(Emitted),
    /// A newer record was emitted since the copy.
    Outrun(Record),
    /// There is nothing to move.
    Idle,
    /// None of the slots of the plan could be claimed.
    NoRoom,
}

impl<
    'a,
    D: Drive,
    N: slot_words::Naming + Sizes,
    A: map_words::Naming,
    B: map_words::Naming,
> Worker<'a, D, N, A, B> {
    /// A worker of the Book.
    pub fn new(
        book: &'a Book<D, N, A, B>,
        number: u8,
        pass: Pass<N>,
        takers: (Taker<A>, Taker<B>),
        hand: Hand<N, Deed>,
    ) -> Worker<'a, D, N, A, B>
        ensures book { (result.book.now.blocks ≡ book.now.blocks) × (result.book.now.payload ≡ book.now.payload) }
        ensures number { result.number ≡ number }
        ensures hands { (result.pass ≡ pass) × (result.even ≡ takers.0) × (result.odd ≡ takers.1) × (result.hand ≡ hand) }
    {
        let (even, odd) = takers;
        Worker {
            book,
            number,
            pass,
            even,
            odd,
            hand,
            outcome: Ok(()),
        }
    }

    /// The worker's number.
    pub fn number(&self) -> u8
        ensures { result ≡ self.now.number }
    {
        self.number
    }

    /// How many blocks there are.
    pub fn blocks(&self) -> u32
        ensures { result ≡ self.now.book.now.blocks }
    {
        self.book.blocks
    }

    /// How many bytes a payload has.
    pub fn payload(&self) -> u32
        ensures { result ≡ self.now.book.now.payload }
    {
        self.book.payload
    }

    /// Claims a mirrored slot, fills and commits it, releases the block's old place, and takes the record into the words of
    /// the controller of the worker's number. `NoRoom` where no mirrored slot can be claimed; else refused as a fill or a
    /// commit is, and the slot is released again.
    pub fn write<R: Wait, G: Gate>(
        &mut self,
        rt: &R,
        alloc: Global,
        block: u32,
        payload: &[u8],
        gate: &G,
    ) -> Result<Emitted, WorkFault>
        requires block { block < self.old.book.now.blocks }
        requires payload { length payload.now ≡ self.old.book.now.payload }
        ensures record { IfOk result (λ emitted. (emitted.block ≡ block) × (emitted.hop ≡ 0)) }
        ensures called { HasWritten self.old.hand (Fresh (Payload payload.now)) block result self.new.hand }
        ensures taken { IfOk result (λ emitted. Took emitted (taker_of (controller_of self.old.number) self.old.even self.old.odd)
            (taker_of (controller_of self.old.number) self.new.even self.new.odd)) }
        ensures other { other_of (controller_of self.old.number) self.new.even self.new.odd
            ≡ other_of (controller_of self.old.number) self.old.even self.old.odd }
        ensures err { OnErr result (AreSame self.old.even self.old.odd self.new.even self.new.odd) }
        ensures fault { result ≢ Err (Core refusal.Memory) }
        ensures rest { (self.new.number ≡ self.old.number) × (self.new.book ≡ self.old.book) }
    {
        self.put(rt, alloc, block, Given::Payload(payload), gate)
    }

    /// Trims a block: a write without a payload, after which the block holds nothing. Refused as `write` is.
    pub fn trim<R: Wait, G: Gate>(
        &mut self,
        rt: &R,
        alloc: Global,
        block: u32,
        gate: &G,
    ) -> Result<Emitted, WorkFault>
        requires { block < self.old.book.now.blocks }
        ensures record { IfOk result (λ emitted. (emitted.block ≡ block) × (emitted.hop ≡ 0)) }
        ensures called { HasWritten self.old.hand (Fresh Trim) block result self.new.hand }
        ensures taken { IfOk result (λ emitted. Took emitted (taker_of (controller_of self.old.number) self.old.even self.old.odd)
            (taker_of (controller_of self.old.number) self.new.even self.new.odd)) }
        ensures other { other_of (controller_of self.old.number) self.new.even self.new.odd
            ≡ other_of (controller_of self.old.number) self.old.even self.old.odd }
        ensures err { OnErr result (AreSame self.old.even self.old.odd self.new.even self.new.odd) }
        ensures fault { result ≢ Err (Core refusal.Memory) }
        ensures rest { (self.new.number ≡ self.old.number) × (self.new.book ≡ self.old.book) }
    {
        self.put(rt, alloc, block, Given::Trim, gate)
    }

    // Writes what is given.
    fn put<R: Wait, G: Gate>(
        &mut self,
        rt: &R,
        alloc: Global,
        block: u32,
        given: Given,
        gate: &G,
    ) -> Result<Emitted, WorkFault>
        requires block { block < self.old.book.now.blocks }
        requires given { IsGivenFor self.old.book.now.payload given }
        ensures record { IfOk result (λ emitted. (emitted.block ≡ block) × (emitted.hop ≡ 0)) }
        ensures called { HasWritten self.old.hand (Fresh (content_of given.entry)) block result self.new.hand }
        ensures taken { IfOk result (λ emitted. Took emitted (taker_of (controller_of self.old.number) self.old.even self.old.odd)
            (taker_of (controller_of self.old.number) self.new.even self.new.odd)) }
        ensures other { other_of (controller_of self.old.number) self.new.even self.new.odd
            ≡ other_of (controller_of self.old.number) self.old.even self.old.odd }
        ensures err { OnErr result (AreSame self.old.even self.old.odd self.new.even self.new.odd) }
        ensures fault { result ≢ Err (Core refusal.Memory) }
        ensures rest { (self.new.number ≡ self.old.number) × (self.new.book ≡ self.old.book) }
    {
        let book = self.book;
        // Before the lock is taken: workers compete for slots by the words alone.
        let Some(claim) = self.claim(&book.mirrors) else {
            return Err(WorkFault::NoRoom);
        };
        gate.reach(Point::Claimed, rt);
        let ended = self.put_claimed(rt, alloc, claim, What::Fresh(given), block, false, gate)?;
        let done = self.or_released(ended)?;
        gate.reach(Point::Committed, rt);
        let emitted = self.acknowledge(done);
        gate.reach(Point::Taken, rt);
        Ok(emitted)
    }

    // A claim of the first of these slots that can be claimed.
    fn claim(&mut self, slots: &[u16]) -> Option<slot_words::Claim<N>>
        ensures rest { (self.new.hand ≡ self.old.hand) × (self.new.number ≡ self.old.number) × (self.new.book ≡ self.old.book)
            × (self.new.even ≡ self.old.even) × (self.new.odd ≡ self.old.odd) }
    {
        match self.book.words.claim_first(&mut self.pass, slots) {
            Ok(claim) => Some(claim),
            Err(_) => None,
        }
    }

    // Puts a payload, a trim or a copy into the claimed slot and commits it: under one hold of the lock and in one write where the
    // gate doesn't wait, since nobody is to see the slot between them. The slot of a refused put is released here, that of a
    // refused commit is left to the caller. Where `appends` says so, the write log goes on after the slot.
    fn put_claimed<R: Wait, G: Gate>(
        &mut self,
        rt: &R,
        alloc: Global,
        claim: slot_words::Claim<N>,
        what: What,
        block: u32,
        appends: bool,
        gate: &G,
    ) -> Result<Result<Done<Claim<N>>, Denied<Claim<N>>>, WorkFault>
        requires what { IsWhatFor self.old.book.now.blocks self.old.book.now.payload what }
        requires of { IsWhatOf block what }
        requires block { block < self.old.book.now.blocks }
        ensures ok { IfOk result (λ ended. IfOk ended (λ done.
            (done.emitted.block ≡ block) × (0 < done.emitted.version) × HasHop (put_for what.entry) done.emitted)) }
        ensures called { MatchResult result
            (λ ended. HasPut (λ done. done.emitted) (λ e. e.refusal) self.old.hand (put_for what.entry) claim.slot block ended self.new.hand)
            (λ e. HasFailed self.old.hand (put_for what.entry) claim.slot block e self.new.hand) }
        ensures claim { IfOk result (λ ended. IfErr ended (λ e. IfSome e.claim (λ back. back.0.slot ≡ claim.slot))) }
        ensures fault { result ≢ Err (Core refusal.Memory) }
        ensures rest { (self.new.number ≡ self.old.number) × (self.new.book ≡ self.old.book) × (self.new.even ≡ self.old.even) × (self.new.odd ≡ self.old.odd) }
    {
        let book = self.book;
        let claim = Claim(claim);
        if !gate.waits() {
            let put = put_and_end_in(
                &mut *book.kept.lock(rt),
                &book.history,
                &mut self.hand,
                &book.words,
                alloc,
                claim,
                what,
                block,
                appends,
            );
            let ended = self.or_released(put)?;
            gate.reach(Point::Put, rt);
            return Ok(ended);
        }
        let waiting = wait_in(
            &mut *book.kept.lock(rt),
            &book.history,
            &mut self.hand,
            &book.words,
            claim,
            what,
        );
        let ticket = self.or_released(waiting)?;
        gate.reach(Point::Put, rt);
        let ended = end_in(
            &mut *book.kept.lock(rt),
            &book.history,
            &mut self.hand,
            alloc,
            ticket,
            what,
            block,
            appends,
        );
        Ok(ended)
    }

    // The outcome of a step. If the step was refused, the claim that it left is released: a claim can't be dropped.
    fn or_released<T>(&mut self, tried: Result<T, Denied<Claim<N>>>) -> Result<T, WorkFault>
        ensures ok { IfOk result (λ done. tried ≡ Ok done) }
        ensures err { IfErr result (λ fault. MatchResult tried (λ done. ⊥) (λ e. fault ≡ fault_of e.refusal)) }
        ensures fault { result ≢ Err (Core refusal.Memory) }
        ensures rest { (self.new.hand ≡ self.old.hand) × (self.new.number ≡ self.old.number) × (self.new.book ≡ self.old.book)
            × (self.new.even ≡ self.old.even) × (self.new.odd ≡ self.old.odd) }
    {
        match tried {
            Ok(done) => Ok(done),
            Err(Denied { refusal, claim }) => {
                if let Some(Claim(claim)) = claim {
                    self.book.words.release(&mut self.pass, claim);
                }
                Err(WorkFault::of(refusal))
            }
        }
    }

    // Releases the old place of what was committed, and takes its record. After the commit, and with the lock free: until the
    // commit the block is read at its old place.
    fn acknowledge(&mut self, done: Done<Claim<N>>) -> Emitted
        requires block { done.emitted.block < self.old.book.now.blocks }
        requires written { 0 < done.emitted.version }
        ensures same { result ≡ done.emitted }
        ensures taken { Took result (taker_of (controller_of self.old.number) self.old.even self.old.odd)
            (taker_of (controller_of self.old.number) self.new.even self.new.odd) }
        ensures other { other_of (controller_of self.old.number) self.new.even self.new.odd
            ≡ other_of (controller_of self.old.number) self.old.even self.old.odd }
        ensures rest { (self.new.hand ≡ self.old.hand) × (self.new.number ≡ self.old.number) × (self.new.book ≡ self.old.book) }
    {
        let Done { emitted, old } = done;
        if let Some(Claim(claim)) = old {
            self.book.words.release(&mut self.pass, claim);
        }
        self.take(Controller::of(self.number), emitted.record());
        emitted
    }

    // Takes a record into a controller's words.
    fn take(&mut self, controller: Controller, reported: Record)
        requires block { «reported».block < self.old.book.now.blocks }
        requires written { 0 < «reported».version }
        ensures taken { Took «reported» (taker_of controller self.old.even self.old.odd) (taker_of controller self.new.even self.new.odd) }
        ensures other { other_of controller self.new.even self.new.odd ≡ other_of controller self.old.even self.old.odd }
        ensures rest { (self.new.hand ≡ self.old.hand) × (self.new.number ≡ self.old.number) × (self.new.book ≡ self.old.book) }
    {
        match controller {
            Controller::Even => {
                self.book.even.take(&mut self.even, reported);
            }
            Controller::Odd => {
                self.book.odd.take(&mut self.odd, reported);
            }
        }
    }
}

impl<
    'a,
    D: Drive,
    N: slot_words::Naming + Sizes,
    A: map_words::Naming,
    B: map_words::Naming,
> Worker<'a, D, N, A, B> {
    /// Moves one block: where fewer mirrored slots than `low` are free, the one of those in mirrored groups that was written
    /// longest ago to where the write log goes on; else one by a plug, or where there is none by a clean. Its record is taken as
    /// a write's. A plan is carried out even if other workers have changed the array since it was made.
    pub fn migrate<R: Wait, G: Gate>(
        &mut self,
        rt: &R,
        alloc: Global,
        low: u32,
        gate: &G,
    ) -> Result<Migration, WorkFault>
        ensures called { HasMoved N.blocks N.payload self.old.book.now.mirrors.items low self.old.hand result self.new.hand }
        ensures taken { IfOk result (HasMigrated self.old.number self.old.even self.old.odd self.new.even self.new.odd) }
        ensures err { OnErr result (AreSame self.old.even self.old.odd self.new.even self.new.odd) }
        ensures other { other_of (controller_of self.old.number) self.new.even self.new.odd
            ≡ other_of (controller_of self.old.number) self.old.even self.old.odd }
        ensures fault { result ≢ Err (Core refusal.Memory) }
        ensures rest { (self.new.number ≡ self.old.number) × (self.new.book ≡ self.old.book) }
    {
        let Some(plan) = self.plan(rt, low) else {
            return Ok(Migration::Idle);
        };
        let book = self.book;
        // The plan's hold has ended: the array may change before the next one, and the commit tests what it needs.
        let Some(claim) = claim_planned(rt, &book.words, &book.kept, &mut self.pass, &plan) else {
            return Ok(Migration::NoRoom);
        };
        gate.reach(Point::Claimed, rt);
        let copy = What::CopyOf(plan.block);
        let ended = self.put_claimed(rt, alloc, claim, copy, plan.block, plan.appends, gate)?;
        match self.or_released(ended) {
            Ok(done) => {
                gate.reach(Point::Committed, rt);
                let emitted = self.acknowledge(done);
                gate.reach(Point::Taken, rt);
                Ok(Migration::Moved(emitted))
            }
            // No fault: another worker wrote the block after it was copied, which migrations have to expect.
            Err(WorkFault::Core(Refusal::Outrun(newer))) => Ok(Migration::Outrun(newer)),
            Err(fault) => Err(fault),
        }
    }

    // What is moved next.
    fn plan<R: Wait>(&self, rt: &R, low: u32) -> Option<Plan>
        ensures block { MatchOption result (Unit {0}) (λ plan. plan.block < self.now.book.now.blocks) }
        ensures planned { WasPlanned N.blocks N.payload self.now.book.now.mirrors.items low result }
    {
        let book = self.book;
        plan_in(&mut *book.kept.lock(rt), &book.mirrors, low)
    }

    /// Reads a block by the newest record of it in the controller's words, or where that is stale by the array's newest, which
    /// is taken into those words. None where they have no record of it. Refused with `Ahead`, then out of memory, both before
    /// a drive is called, then `Gone`.
    pub fn read<R: Wait>(
        &mut self,
        rt: &R,
        alloc: Global,
        controller: Controller,
        block: u32,
    ) -> Result<Option<Reading>, WorkFault>
        requires { block < self.old.book.now.blocks }
        ensures some { (reading : Lesson) → result ≡ Ok (Some reading)
            → IsReadRecord (taker_of controller self.old.even self.old.odd) block (taker_of controller self.new.even self.new.odd) reading.reported }
        ensures called { HasReadBlock self.old.hand (taker_of controller self.old.even self.old.odd) block result
            (taker_of controller self.new.even self.new.odd) self.new.hand }
        ensures other { other_of controller self.new.even self.new.odd ≡ other_of controller self.old.even self.old.odd }
        ensures fault { result ≢ Err (Core refusal.Memory) }
        ensures rest { (self.new.number ≡ self.old.number) × (self.new.book ≡ self.old.book) }
    {
        let Some(found) = self.find(controller, block) else {
            return Ok(None);
        };
        // Taken before the lock is held: nothing is allocated under it.
        let room = vec![in alloc; 0; self.book.payload as usize];
        let read = read_in(
            &mut *self.book.kept.lock(rt),
            &self.book.history,
            &mut self.hand,
            found,
            room,
        );
        match read {
            Ok(reading) => {
                self.learn(controller, found, reading.record());
                Ok(Some(reading))
            }
            Err(refusal) => Err(WorkFault::of(refusal)),
        }
    }

    // The newest record of the block in the controller's words.
    fn find(&mut self, controller: Controller, block: u32) -> Option<Record>
        requires { block < self.old.book.now.blocks }
        ensures newest { IsUpperBound (taker_of controller self.old.even self.old.odd) block (key_or_zero result) }
        ensures block { MatchOption result (Unit {0}) (λ r. (r.block ≡ block) × (0 < r.version)) }
        ensures found { HasFound (taker_of controller self.old.even self.old.odd) block (key_or_zero result) (taker_of controller self.new.even self.new.odd) }
        ensures other { other_of controller self.new.even self.new.odd ≡ other_of controller self.old.even self.old.odd }
        ensures rest { (self.new.hand ≡ self.old.hand) × (self.new.number ≡ self.old.number) × (self.new.book ≡ self.old.book) }
    {
        match controller {
            Controller::Even => self.book.even.find(&mut self.even, block),
            Controller::Odd => self.book.odd.find(&mut self.odd, block),
        }
    }

    // Takes what was learned, where it isn't what was found: that is in the words already.
    fn learn(&mut self, controller: Controller, found: Record, reported: Record)
        requires block { «reported».block < self.old.book.now.blocks }
        requires written { 0 < «reported».version }
        ensures learnt { Learnt «reported» «found» (taker_of controller self.old.even self.old.odd) (taker_of controller self.new.even self.new.odd) }
        ensures other { other_of controller self.new.even self.new.odd ≡ other_of controller self.old.even self.old.odd }
        ensures rest { (self.new.hand ≡ self.old.hand) × (self.new.number ≡ self.old.number) × (self.new.book ≡ self.old.book) }
    {
        if reported != found {
            self.take(controller, reported);
        }
    }

    /// Ends the worker, and returns its Pass, both Takers and its hand of the history.
    pub fn end(self) -> Ended<N, A, B>
        ensures { (result.pass ≡ self.entry.pass) × (result.even ≡ self.entry.even) × (result.odd ≡ self.entry.odd) × (result.hand ≡ self.entry.hand) }
    {
        let Worker {
            book: _,
            number: _,
            pass,
            even,
            odd,
            hand,
            outcome: _,
        } = self;
        Ended {
            pass,
            even,
            odd,
            hand,
        }
    }
}

// A claim of a plan's slot, or where that is another's of the next that the plan tries. The lock is taken for each next one.
fn claim_planned<R: Wait, D: Drive, N: slot_words::Naming + Sizes>(
    rt: &R,
    words: &SlotWords<N>,
    kept: &Mutex<Kept<D, N>>,
    pass: &mut Pass<N>,
    plan: &Plan,
) -> Option<slot_words::Claim<N>>
    requires { table_slots N.table ≡ 65536 }
    ensures some { IfSome result (λ claim. IsTried N.blocks N.payload plan.now claim.slot) }
    ensures none { IfNone result (HadNoRoom N.blocks N.payload plan.now) }
{
    let mut slot = plan.slot?;
    loop {
        match words.claim(pass, slot) {
            Ok(claim) => return Some(claim),
            // Only here, because most claims get the plan's own slot.
            Err(_) => slot = slot_after(&*kept.lock(rt), plan, slot)?,
        }
    }
}
