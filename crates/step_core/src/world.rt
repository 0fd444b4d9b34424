// An array with eight workers, who hold plain claims.
ghost use Rattle.std.specs.Prelude.{◌≡◌, ◌≢◌, ◌<◌, ◌≤◌, ◌++◌, length, nat_le, IsOk, IfOk, IfErr, OnOk, OnErr, Some, true};
ghost use Rattle.map_join.specs.declared.records.Record.{Record};
ghost use Rattle.extents.specs.Failures.{no_failures};
ghost use Rattle.extents.specs.Shapes.{IsShapeOf};
ghost use Rattle.flat_machine.specs.Groups.{IsEmpty};
ghost use Rattle.flat_machine.specs.Steps as say;
ghost use Rattle.flat_machine.specs.Flat.{Flat, Payload, Trim, new_flat};
ghost use Rattle.flat_machine.specs.Cases.{Case, IsAllocating, Leaves};
ghost use Rattle.flat_machine.specs.Moves.{with_fuse};
ghost use Rattle.flat_machine.specs.Shortened.{IsShortened};
ghost use Rattle.slot_tables.specs.Views.{kept_at, hand_at, has_no_holder, IsWhole, SameSizes, with_parts};
ghost use Rattle.disk_array.specs.Losing.{WasFused};
ghost use Rattle.slot_tables.specs.Represents.{Represents, is_claim};
ghost use Rattle.step_core.specs.Passed.{given_old};
ghost use Rattle.step_core.specs.Reported.{flat_answer, read_answer};

use crate::refusal::unless_memory;
use crate::step::Answer;
use disk_array::{Array, Hands, Visit};
use extents::{Drive, HotSwap, MemDrive, Shape};
use flat_machine::{Class, Member, Refusal};
use map_join::Record;
use slot_tables::{Hand, Plain};
use std::alloc::{AllocError, Global};
use std::marker::Model;

/// An array of drives, and of each slot what a worker has in hand.
#[derive(Drop)]
pub struct World<D: Drive = MemDrive> {
    pub(crate) array: Array<D, Plain>,
    pub(crate) hands: Hands,
}

impl<D: Drive> Model for World<D> {
    ghost use Rattle.std.specs.Prelude.{◌≡◌, length};
    ghost use Rattle.slot_tables.specs.Views.{WorldView};

    ghost Value = { WorldView };

    ghost view = { λ w. record { array = w.array; hands = w.hands } };

    ghost invariant = { λ w. length w.hands ≡ 65536 };
}

impl World {
    /// A new world: a new array of drives whose units are all zero, and empty hands. There are 3 to 16 drives.
    pub fn new(alloc: Global, shape: Shape, drives: u8) -> Result<World, Refusal>
        requires { (3 ≤ drives) × (drives ≤ 16) }
        ensures ok { IfOk result (λ world. Represents world (new_flat world.array.parts.groups drives (nat_le drives) (λ _. no_failures))) }
        ensures empty { IfOk result (λ world. IsEmpty world.array.parts.groups) }
        ensures sizes { IfOk result (λ world. IsShapeOf shape world.array.parts.groups.extents world.array.parts.groups.segments
            world.array.parts.groups.payload world.array.parts.groups.blocks) }
        ensures err { IfErr result (λ refusal. refusal ≡ Refusal.Memory) }
    {
        let array = Array::in_memory(alloc, shape, drives)?;
        match Hands::new(alloc) {
            Ok(hands) => Ok(World { array, hands }),
            Err(_) => Err(Refusal::Memory),
        }
    }
}

impl<D: Drive> World<D> {
    /// The array, for the calls that only read it.
    pub fn array(&self) -> &Array<D, Plain>
        ensures { result.now ≡ self.now.array }
    {
        &self.array
    }

    /// A law, the invariant of the world's array: the call does nothing.
    pub fn whole(&self)
        ensures { IsWhole self.now.array }
    {
        self.array.whole();
    }

    /// Whether nobody holds the slot, neither a worker nor the array.
    pub fn is_free(&self, slot: u16) -> bool
        ensures { result ≡ has_no_holder (kept_at self.now.array slot) (hand_at self.now.hands slot) }
    {
        match self.hands.of(slot) {
            Hand::Empty => !self.array.is_held(slot),
            Hand::Holds(_) => false,
            Hand::Waits(_) => false,
        }
    }

    // The worker has a claim of the slot.
    pub(crate) fn holds(&self, worker: u8, slot: u16) -> bool
        ensures { result ≡ is_claim (hand_at self.now.hands slot) worker }
    {
        match self.hands.of(slot) {
            Hand::Holds(other) => other == worker,
            Hand::Empty => false,
            Hand::Waits(_) => false,
        }
    }

    /// Claims a slot that nobody holds.
    pub fn claim(&mut self, worker: u8, slot: u16) -> Answer
        ensures flat { (F : Flat) → Represents self.old F
            → (G : Flat) × Case F (say.Claim worker slot) (flat_answer result) G × Represents self.new G }
        ensures room { SameSizes self.old.array self.new.array }
    {
        if self.is_free(slot) {
            self.hands.hold(slot, worker);
            Answer::Claimed(slot)
        } else {
            Answer::Taken(slot)
        }
    }

    /// Releases a slot that the worker holds.
    pub fn release(&mut self, worker: u8, slot: u16) -> Answer
        ensures flat { (F : Flat) → Represents self.old F
            → (G : Flat) × Case F (say.Release worker slot) (flat_answer result) G × Represents self.new G }
        ensures room { SameSizes self.old.array self.new.array }
    {
        if self.holds(worker, slot) {
            self.hands.clear(slot);
            Answer::Released(slot)
        } else {
            Answer::NotHeld(slot)
        }
    }

    /// Fills a slot that the worker holds. It allocates nothing, and never runs out of memory.
    pub fn fill(&mut self, worker: u8, slot: u16, payload: &[u8]) -> Result<Answer, AllocError>
        requires { length payload.now ≡ self.old.array.parts.groups.payload }
        ensures ok { IfOk result (λ answer. (F : Flat) → Represents self.old F
            → (G : Flat) × Case F (say.Fill worker slot (Payload payload.now)) (flat_answer answer) G × Represents self.new G) }
        ensures succeeds { IsOk result }
        ensures err { OnErr result (self.new ≡ self.old) }
        ensures needs { OnErr result ((F : Flat) → Represents self.old F → IsAllocating F (say.Fill worker slot (Payload payload.now))) }
        ensures room { SameSizes self.old.array self.new.array }
    {
        // Tested first, because anyone can make a plain claim: the array doesn't know who holds the slot.
        if !self.holds(worker, slot) {
            return Ok(Answer::NotHeld(slot));
        }
        match self.array.fill(Plain { slot }, payload) {
            Ok(ticket) => {
                self.hands.keep(worker, ticket);
                Ok(Answer::Filled(slot))
            }
            Err((refusal, _claim)) => refused(refusal),
        }
    }

    /// Fills a slot that the worker holds with a trim. It allocates nothing, and never runs out of memory.
    pub fn trim(&mut self, worker: u8, slot: u16) -> Result<Answer, AllocError>
        ensures ok { IfOk result (λ answer. (F : Flat) → Represents self.old F
            → (G : Flat) × Case F (say.Fill worker slot Trim) (flat_answer answer) G × Represents self.new G) }
        ensures succeeds { IsOk result }
        ensures err { OnErr result (self.new ≡ self.old) }
        ensures needs { OnErr result ((F : Flat) → Represents self.old F → IsAllocating F (say.Fill worker slot Trim)) }
        ensures room { SameSizes self.old.array self.new.array }
    {
        if !self.holds(worker, slot) {
            return Ok(Answer::NotHeld(slot));
        }
        match self.array.trim(Plain { slot }) {
            Ok(ticket) => {
                self.hands.keep(worker, ticket);
                Ok(Answer::Filled(slot))
            }
            Err((refusal, _claim)) => refused(refusal),
        }
    }

    /// Copies what a block holds into a slot that the worker holds. It allocates nothing, and never runs out of memory.
    pub fn copy(&mut self, worker: u8, slot: u16, block: u32) -> Result<Answer, AllocError>
        requires { block < self.old.array.parts.groups.blocks }
        ensures ok { IfOk result (λ answer. (F : Flat) → Represents self.old F
            → (G : Flat) × Case F (say.Copy worker slot block) (flat_answer answer) G × Represents self.new G) }
        ensures succeeds { IsOk result }
        ensures err { OnErr result (self.new ≡ self.old) }
        ensures needs { OnErr result ((F : Flat) → Represents self.old F → IsAllocating F (say.Copy worker slot block)) }
        ensures room { SameSizes self.old.array self.new.array }
    {
        if !self.holds(worker, slot) {
            return Ok(Answer::NotHeld(slot));
        }
        match self.array.copy(Plain { slot }, block) {
            Ok(ticket) => {
                self.hands.keep(worker, ticket);
                Ok(Answer::Copied(slot))
            }
            Err((refusal, _claim)) => refused(refusal),
        }
    }

    /// Commits a slot that waits for the worker.
    pub fn commit(
        &mut self,
        alloc: Global,
        worker: u8,
        slot: u16,
        block: u32,
    ) -> Result<Answer, AllocError>
        requires { block < self.old.array.parts.groups.blocks }
        ensures ok { IfOk result (λ answer. (F : Flat) → Represents self.old F
            → (G : Flat) × Case F (say.Commit worker slot block) (flat_answer answer) G × Represents self.new G) }
        ensures err { OnErr result (self.new ≡ self.old) }
        ensures needs { OnErr result ((F : Flat) → Represents self.old F → IsAllocating F (say.Commit worker slot block)) }
        ensures room { SameSizes self.old.array self.new.array }
    {
        let Some(ticket) = self.hands.take(worker, slot) else {
            return Ok(Answer::Refused(Refusal::NoTicket));
        };
        match self.array.commit(alloc, ticket, block) {
            Ok(done) => {
                give_old(&mut self.hands, worker, done.old);
                Ok(Answer::Committed(done.emitted.record()))
            }
            Err((refusal, ticket)) => {
                // Back in hand, so that the worker can discard it.
                self.hands.keep(worker, ticket);
                refused(refusal)
            }
        }
    }

    /// Gives up the worker's ticket of a slot.
    pub fn discard(&mut self, worker: u8, slot: u16) -> Answer
        ensures flat { (F : Flat) → Represents self.old F
            → (G : Flat) × Case F (say.Discard worker slot) (flat_answer result) G × Represents self.new G }
        ensures room { SameSizes self.old.array self.new.array }
    {
        let Some(ticket) = self.hands.take(worker, slot) else {
            return Answer::Refused(Refusal::NoTicket);
        };
        match self.array.discard(ticket) {
            Ok(_claim) => {
                self.hands.hold(slot, worker);
                Answer::Discarded(slot)
            }
            Err((refusal, ticket)) => {
                // Back in hand, so that a refusal changes nothing.
                self.hands.keep(worker, ticket);
                Answer::Refused(refusal)
            }
        }
    }

    /// Reads at a record's place.
    pub fn read_at(&mut self, alloc: Global, asked: Record) -> Result<Answer, AllocError>
        requires { asked.block < self.old.array.parts.groups.blocks }
        ensures ok { IfOk result (λ answer. (F : Flat) → Represents self.old F
            → (G : Flat) × Case F (say.ReadAt asked) (flat_answer answer) G × Represents self.new G) }
        ensures err { OnErr result (self.new ≡ self.old) }
        ensures needs { OnErr result ((F : Flat) → Represents self.old F → IsAllocating F (say.ReadAt asked)) }
        ensures room { SameSizes self.old.array self.new.array }
    {
        match self.array.read_at(alloc, asked) {
            Ok(at) => Ok(Answer::Found(at)),
            Err(refusal) => refused(refusal),
        }
    }

    /// Reads a block.
    pub fn read(&mut self, alloc: Global, block: u32) -> Result<Answer, AllocError>
        requires { block < self.old.array.parts.groups.blocks }
        ensures ok { IfOk result (λ answer. (F : Flat) → Represents self.old F
            → (G : Flat) × Case F (say.Read block) (flat_answer answer) G × Represents self.new G) }
        ensures err { OnErr result (self.new ≡ self.old) }
        ensures needs { OnErr result ((F : Flat) → Represents self.old F → IsAllocating F (say.Read block)) }
        ensures room { SameSizes self.old.array self.new.array }
    {
        match self.array.read(alloc, block) {
            Ok(found) => Ok(Answer::Read(found)),
            Err(refusal) => refused(refusal),
        }
    }

    /// Reads a block, and puts its payload into the buffer, which allocates nothing. If the result has no version, the contents
    /// of the buffer are unspecified.
    pub fn read_into(&mut self, block: u32, payload: &mut [u8]) -> Result<Option<u32>, Refusal>
        requires block { block < self.old.array.parts.groups.blocks }
        requires payload { length payload.old ≡ self.old.array.parts.groups.payload }
        ensures flat { (F : Flat) → Represents self.old F
            → (G : Flat) × Case F (say.Read block) (read_answer result payload.new) G × Represents self.new G }
        ensures room { SameSizes self.old.array self.new.array }
    {
        self.array.read_into(block, payload)
    }

    /// Makes all writes durable: syncs each drive that isn't lost, in ascending order. One whose sync fails is lost.
    pub fn sync(&mut self)
        ensures flat { (F : Flat) → Represents self.old F → (G : Flat) × Leaves F G × Represents self.new G }
        ensures room { SameSizes self.old.array self.new.array }
    {
        self.array.sync();
    }

    /// Shows each drive to a visitor, lost ones too, in ascending order. False where the visitor ended the walk.
    pub fn visit_drives<V: Visit<D>>(&mut self, visitor: &mut V) -> bool
        ensures same { self.new ≡ self.old }
        ensures shown { result ≡ true → V.shown visitor.new ≡ V.shown visitor.old ++ self.old.array.parts.drives }
        ensures leads { V.leads_to visitor.old visitor.new }
    {
        self.array.visit_drives(visitor)
    }

    /// Shortens the log to the newest record of each block, as `Array::shorten_log` does: maps joined from it are the same.
    pub fn shorten_log(&mut self, alloc: Global) -> Result<(), AllocError>
        ensures flat { OnOk result ((F : Flat) → Represents self.old F → (G : Flat) × IsShortened F G × Represents self.new G) }
        ensures rest { OnOk result (self.new ≡ record self.old { array = record self.old.array { log = self.new.array.log } }) }
        ensures err { OnErr result (self.new ≡ self.old) }
        ensures room { SameSizes self.old.array self.new.array }
    {
        self.array.shorten_log(alloc)
    }

    /// Makes a group.
    pub fn make(
        &mut self,
        alloc: Global,
        class: Class,
        members: &[Member],
    ) -> Result<Answer, AllocError>
        ensures ok { IfOk result (λ answer. (F : Flat) → Represents self.old F
            → (G : Flat) × Case F (say.Make class members.now) (flat_answer answer) G × Represents self.new G) }
        ensures err { OnErr result (self.new ≡ self.old) }
        ensures needs { OnErr result ((F : Flat) → Represents self.old F → IsAllocating F (say.Make class members.now)) }
        ensures room { SameSizes self.old.array self.new.array }
    {
        match self.array.make_group(alloc, class, members) {
            // The claims that were kept end here, so that the slots of the new group are free.
            Ok((group, _claims)) => Ok(Answer::Made(group)),
            Err(refusal) => refused(refusal),
        }
    }
}

impl<D: HotSwap> World<D> {
    /// Loses a drive from outside; refused where there is none of that number.
    pub fn lose(&mut self, drive: u8) -> Answer
        ensures flat { (F : Flat) → Represents self.old F
            → (G : Flat) × Case F (say.Lose drive) (flat_answer result) G × Represents self.new G }
        ensures room { SameSizes self.old.array self.new.array }
    {
        if drive >= self.array.drive_count() {
            return Answer::Refused(Refusal::BadMember);
        }
        self.array.lose(drive);
        Answer::Lost(drive)
    }
}

impl World {
    /// Makes a drive fail at its `calls`-th read or write from now (1 = the next) and at all later ones. Until then it
    /// answers as it did, and isn't steady. A lost drive stays as it is.
    pub fn fuse(&mut self, drive: u8, calls: u64)
        requires drive { drive < length self.old.array.parts.drives }
        requires calls { 1 ≤ calls }
        ensures fused { WasFused self.old.array.parts self.new.array.parts drive }
        ensures rest { self.new ≡ record self.old { array = with_parts self.old.array self.new.array.parts } }
        ensures flat { (F : Flat) → Represents self.old F → Represents self.new (with_fuse F drive) }
    {
        self.array.fuse(drive, calls);
    }
}

// What a step that is refused answers; out of memory is no answer.
pub(crate) fn refused(refusal: Refusal) -> Result<Answer, AllocError>
    ensures ok { IfOk result (λ answer. (answer ≡ Answer.Refused refusal) × (refusal ≢ Refusal.Memory)) }
    ensures err { OnErr result (refusal ≡ Refusal.Memory) }
{
    Ok(Answer::Refused(unless_memory(refusal)?))
}

// After a commit the worker holds the old place.
fn give_old(hands: &mut Hands, worker: u8, old: Option<Plain>)
    ensures { hands.new ≡ given_old hands.old worker old }
{
    if let Some(claim) = old {
        hands.hold(claim.slot, worker);
    }
}
