// The steps of a world after which its planner and its free slots are as they were.
ghost use Rattle.std.specs.Prelude.{◌≡◌, ◌+◌, ◌<◌, ◌≤◌, ◌++◌, ℕ, length, IfOk, OnOk, OnErr, IsOk, Some, true};
ghost use Rattle.flat_machine.specs.Cases.{IsAllocating, Leaves};
ghost use Rattle.flat_machine.specs.Flat.{Flat, Payload};
ghost use Rattle.flat_machine.specs.Shortened.{IsShortened};
ghost use Rattle.flat_machine.specs.Steps as f;
ghost use Rattle.slot_tables.specs.Views.{SameSizes};
ghost use Rattle.step_core.specs.Reported.{flat_answer, read_answer};
ghost use Rattle.tiered_array.specs.Matches.{RepresentsTiers};
ghost use Rattle.rebalancer.specs.Balancing.{sum_of_squares};
ghost use Rattle.rebalancer.specs.declared.shift.Shift.{Shift};
ghost use Rattle.tiered_array.specs.Regrouping.{BalanceCase, IfMoved, IsBalanceOf, IsRebuildOf, RebuildCase};
ghost use Rattle.tiered_array.specs.Steps.{StepAlone};
ghost use Rattle.tiered_array.specs.Tiered.{Tiered};

use crate::{Regrouped, Tiers, balance, rebuild};
use map_join::Record;
use std::alloc::{AllocError, Global};
use step_core::{Answer, Drive, HotSwap, Refusal, Visit};

impl<D: Drive> Tiers<D> {
    /// Claims a slot that nobody holds, also one of no group; answers `Taken` where somebody holds it.
    pub fn claim(&mut self, worker: u8, slot: u16) -> Answer
        ensures flat { (T : Tiered) → RepresentsTiers self.old T
            → (U : Tiered) × StepAlone T (f.Claim worker slot) (flat_answer result) U × RepresentsTiers self.new U }
        ensures room { SameSizes self.old.world.array self.new.world.array }
    {
        self.world.claim(worker, slot)
    }

    /// Fills a slot that the worker holds with a payload. Answers `NotHeld` where it doesn't, also of its ticket's slot;
    /// refused with `NoGroup`, `WrongClass` of a parity slot, then `Gone`. It allocates nothing, and never runs out of memory.
    pub fn fill(&mut self, worker: u8, slot: u16, payload: &[u8]) -> Result<Answer, AllocError>
        requires { length payload.now ≡ self.old.world.array.parts.groups.payload }
        ensures ok { IfOk result (λ answer. (T : Tiered) → RepresentsTiers self.old T
            → (U : Tiered) × StepAlone T (f.Fill worker slot (Payload payload.now)) (flat_answer answer) U × RepresentsTiers self.new U) }
        ensures succeeds { IsOk result }
        ensures room { SameSizes self.old.world.array self.new.world.array }
    {
        self.world.fill(worker, slot, payload)
    }

    /// Copies what a block holds into a slot that the worker holds. Answers `NotHeld` where it doesn't, also of its ticket's
    /// slot; refused with `NoGroup`, `Unwritten`, `HopsSpent`, then `Gone` with the block's slot or this one. It allocates
    /// nothing, and never runs out of memory.
    pub fn copy(&mut self, worker: u8, slot: u16, block: u32) -> Result<Answer, AllocError>
        requires { block < self.old.world.array.parts.groups.blocks }
        ensures ok { IfOk result (λ answer. (T : Tiered) → RepresentsTiers self.old T
            → (U : Tiered) × StepAlone T (f.Copy worker slot block) (flat_answer answer) U × RepresentsTiers self.new U) }
        ensures succeeds { IsOk result }
        ensures room { SameSizes self.old.world.array self.new.world.array }
    {
        self.world.copy(worker, slot, block)
    }

    /// Discards what waits in a slot for the worker, who has its claim again; refused with `NoTicket` where nothing waits
    /// there. The unit stays.
    pub fn discard(&mut self, worker: u8, slot: u16) -> Answer
        ensures flat { (T : Tiered) → RepresentsTiers self.old T
            → (U : Tiered) × StepAlone T (f.Discard worker slot) (flat_answer result) U × RepresentsTiers self.new U }
        ensures room { SameSizes self.old.world.array self.new.world.array }
    {
        self.world.discard(worker, slot)
    }

    /// Reads a block's last write into a buffer of a payload's length: its version, or none where there is none or a trim.
    /// Refused with `Gone`. Without a version the buffer may hold any bytes.
    pub fn read_into(&mut self, block: u32, payload: &mut [u8]) -> Result<Option<u32>, Refusal>
        requires block { block < self.old.world.array.parts.groups.blocks }
        requires payload { length payload.old ≡ self.old.world.array.parts.groups.payload }
        ensures flat { (T : Tiered) → RepresentsTiers self.old T
            → (U : Tiered) × StepAlone T (f.Read block) (read_answer result payload.new) U × RepresentsTiers self.new U }
        ensures room { SameSizes self.old.world.array self.new.world.array }
    {
        self.world.read_into(block, payload)
    }

    /// Makes all writes durable: syncs each drive that isn't lost, in ascending order. One whose sync fails is lost.
    pub fn sync(&mut self)
        ensures flat { (T : Tiered) → RepresentsTiers self.old T
            → (G : Flat) × Leaves T.flat G × RepresentsTiers self.new (record T { flat = G }) }
        ensures room { SameSizes self.old.world.array self.new.world.array }
    {
        self.world.sync();
    }

    /// Shows each drive to a visitor, lost ones too, in ascending order. False where the visitor ended the walk.
    pub fn visit_drives<V: Visit<D>>(&mut self, visitor: &mut V) -> bool
        ensures same { self.new ≡ self.old }
        ensures shown { result ≡ true → V.shown visitor.new ≡ V.shown visitor.old ++ self.old.world.array.parts.drives }
        ensures leads { V.leads_to visitor.old visitor.new }
    {
        self.world.visit_drives(visitor)
    }

    /// Shortens the log to the newest record of each block, in the order of blocks. What is kept next to it stays: the order of
    /// last writes and the end of the appended slots. If an allocation fails, nothing changes.
    pub fn shorten_log(&mut self, alloc: Global) -> Result<(), AllocError>
        ensures flat { OnOk result ((T : Tiered) → RepresentsTiers self.old T
            → (G : Flat) × IsShortened T.flat G × RepresentsTiers self.new (record T { flat = G })) }
        ensures err { OnErr result (self.new ≡ self.old) }
        ensures room { SameSizes self.old.world.array self.new.world.array }
    {
        self.world.shorten_log(alloc)
    }

    /// Reads what lies at a record's place. Refused with `Ahead` where the record is greater than the block's newest, then
    /// with `Gone`.
    pub fn read_at(&mut self, alloc: Global, asked: Record) -> Result<Answer, AllocError>
        requires { asked.block < self.old.world.array.parts.groups.blocks }
        ensures ok { IfOk result (λ answer. (T : Tiered) → RepresentsTiers self.old T
            → (U : Tiered) × StepAlone T (f.ReadAt asked) (flat_answer answer) U × RepresentsTiers self.new U) }
        ensures err { OnErr result (self.new ≡ self.old) }
        ensures needs { OnErr result ((T : Tiered) → RepresentsTiers self.old T → IsAllocating T.flat (f.ReadAt asked)) }
        ensures room { SameSizes self.old.world.array self.new.world.array }
    {
        self.world.read_at(alloc, asked)
    }

    /// Moves one extent by `balance`'s plan.
    pub fn balance(&mut self) -> Result<Regrouped, AllocError>
        ensures ok { IfOk result (λ outcome. (T : Tiered) → RepresentsTiers self.old T
            → (G : Flat) × BalanceCase T.flat outcome G × RepresentsTiers self.new (record T { flat = G })) }
        ensures err { OnErr result (self.new ≡ self.old) }
        ensures evens { IfOk result (λ outcome. IfMoved outcome
            (sum_of_squares self.new.world.array.parts.owners + 2 ≤ sum_of_squares self.old.world.array.parts.owners)) }
        ensures needs { OnErr result ((T : Tiered) → RepresentsTiers self.old T
            → (s : Shift) × IsBalanceOf T.flat (Some s) × IsAllocating T.flat (f.MoveExtent s.group s.member s.to)) }
        ensures room { SameSizes self.old.world.array self.new.world.array }
    {
        balance(&mut self.world)
    }

    /// Rebuilds one extent of a lost drive by `rebuild`'s plan.
    pub fn rebuild(&mut self, drive: u8) -> Result<Regrouped, AllocError>
        ensures ok { IfOk result (λ outcome. (T : Tiered) → RepresentsTiers self.old T
            → (G : Flat) × RebuildCase T.flat drive outcome G × RepresentsTiers self.new (record T { flat = G })) }
        ensures err { OnErr result (self.new ≡ self.old) }
        ensures needs { OnErr result ((T : Tiered) → RepresentsTiers self.old T
            → (s : Shift) × IsRebuildOf T.flat drive (Some s) × IsAllocating T.flat (f.MoveExtent s.group s.member s.to)) }
        ensures room { SameSizes self.old.world.array self.new.world.array }
    {
        rebuild(&mut self.world, drive)
    }
}

impl<D: HotSwap> Tiers<D> {
    /// Loses a drive from outside, also one that is lost; refused with `BadMember` where there is none of that number.
    pub fn lose(&mut self, drive: u8) -> Answer
        ensures flat { (T : Tiered) → RepresentsTiers self.old T
            → (U : Tiered) × StepAlone T (f.Lose drive) (flat_answer result) U × RepresentsTiers self.new U }
        ensures room { SameSizes self.old.world.array self.new.world.array }
    {
        self.world.lose(drive)
    }
}

impl<D: HotSwap + Drop> Tiers<D> {
    /// Adds a new drive, all of whose units are zero; refused with `Full` where there are 16.
    pub fn add_drive(&mut self, alloc: Global) -> Result<Answer, AllocError>
        ensures ok { IfOk result (λ answer. (T : Tiered) → RepresentsTiers self.old T
            → (U : Tiered) × StepAlone T f.AddDrive (flat_answer answer) U × RepresentsTiers self.new U) }
        ensures err { OnErr result (self.new ≡ self.old) }
        ensures needs { OnErr result ((T : Tiered) → RepresentsTiers self.old T → IsAllocating T.flat f.AddDrive) }
        ensures room { SameSizes self.old.world.array self.new.world.array }
    {
        self.world.add_drive(alloc)
    }
}
