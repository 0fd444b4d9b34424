//! A world, and what is kept next to it for the plans.
ghost use Rattle.std.specs.Prelude.{◌≡◌, ◌<◌, IfOk, OnErr};
ghost use Rattle.slot_tables.specs.Represents.{Represents};
ghost use Rattle.slot_tables.specs.Views.{SameSizes};
ghost use Rattle.flat_machine.specs.Cases.{IsAllocating};
ghost use Rattle.flat_machine.specs.Flat.{Flat};
ghost use Rattle.step_core.specs.Reported.{flat_answer};
ghost use Rattle.tiered_array.specs.Matches.{RepresentsTiers};
ghost use Rattle.flat_machine.specs.Steps as f;
ghost use Rattle.tiered_array.specs.Steps.{CommitNoted, StepAlone};
ghost use Rattle.tiered_array.specs.Tiered.{Tiered, begun};

use crate::hints::hint_made;
use crate::{FreeHints, Planner};
use std::alloc::{AllocError, Global};
use std::marker::Model;
use step_core::{Answer, Class, Drive, MemDrive, Member, World};

/// A world, what its plans depend on, and which slots may be free. All steps of the world are calls here, so that the planner
/// and the free slots are never out of date.
#[derive(Drop)]
pub struct Tiers<D: Drive = MemDrive> {
    pub(crate) world: World<D>,
    pub(crate) planner: Planner,
    // The slots of mirrored groups that may be free, and those of parity groups. Two tables, because a search for one class
    // clears the other class's slots.
    pub(crate) hints: FreeHints,
    pub(crate) holes: FreeHints,
}

impl<D: Drive> Model for Tiers<D> {
    ghost use Rattle.tiered_array.specs.Views.{TiersView};

    ghost Value = { TiersView };

    ghost view = { λ t. record { world = t.world; planner = t.planner; hints = t.hints; holes = t.holes } };
}

impl<D: Drive + Drop> Tiers<D> {
    /// The world with no write noted and nothing appended. It allocates memory by the number of blocks; later steps allocate
    /// only what the world's steps do.
    pub fn new(alloc: Global, world: World<D>) -> Result<Tiers<D>, AllocError>
        ensures same { IfOk result (λ tiers. tiers.world ≡ world) }
        ensures ok { IfOk result (λ tiers. (F : Flat) → Represents world F → RepresentsTiers tiers (begun F)) }
    {
        let planner = Planner::new(alloc, world.array())?;
        let hints = FreeHints::new(alloc)?;
        let holes = FreeHints::new(alloc)?;
        Ok(Tiers {
            world,
            planner,
            hints,
            holes,
        })
    }
}

impl<D: Drive> Tiers<D> {
    /// The world, for the calls that only read it. Changes go through `Tiers` alone, else planner and hints would miss them.
    pub fn world(&self) -> &World<D>
        ensures { result.now ≡ self.now.world }
    {
        &self.world
    }

    /// The world, without what is kept next to it.
    pub fn into_world(self) -> World<D>
        ensures { result ≡ self.world }
    {
        self.world
    }

    /// Commits a slot that waits for the worker, and notes the write where what waited was a fresh payload or trim. Refused
    /// with `NoTicket`, then `VersionSpent` of a fresh content or `Outrun` of a copy, `LogFull`, `Gone`: the ticket stays.
    pub fn commit(
        &mut self,
        alloc: Global,
        worker: u8,
        slot: u16,
        block: u32,
    ) -> Result<Answer, AllocError>
        requires { block < self.old.world.array.parts.groups.blocks }
        ensures ok { IfOk result (λ answer. (T : Tiered) → RepresentsTiers self.old T
            → (U : Tiered) × CommitNoted T worker slot block (flat_answer answer) U × RepresentsTiers self.new U) }
        ensures err { OnErr result (self.new ≡ self.old) }
        ensures needs { OnErr result ((T : Tiered) → RepresentsTiers self.old T → IsAllocating T.flat (f.Commit worker slot block)) }
        ensures room { SameSizes self.old.world.array self.new.world.array }
    {
        let answer = self.world.commit(alloc, worker, slot, block)?;
        let Answer::Committed(record) = answer else {
            return Ok(answer);
        };
        // The old place isn't hinted: the worker holds it until it is released.
        self.planner.note(self.world.array(), record);
        Ok(Answer::Committed(record))
    }

    /// Releases a slot that the worker holds; answers `NotHeld` where it doesn't, also of its ticket's slot.
    pub fn release(&mut self, worker: u8, slot: u16) -> Answer
        ensures flat { (T : Tiered) → RepresentsTiers self.old T
            → (U : Tiered) × StepAlone T (f.Release worker slot) (flat_answer result) U × RepresentsTiers self.new U }
        ensures room { SameSizes self.old.world.array self.new.world.array }
    {
        let answer = self.world.release(worker, slot);
        // Whatever the answer: a hint too many costs one test, a hint too few hides a free slot. In both tables, because
        // nobody asks for the slot's class.
        self.hints.add(slot);
        self.holes.add(slot);
        answer
    }

    /// Makes a group under the lowest free number. Refused with `BadMember`, `SameDrive`, `ExtentTaken`, `DriveLost`, then
    /// `Full`; or with `DriveLost` where a drive fails while its extent is wiped.
    pub fn make(
        &mut self,
        alloc: Global,
        class: Class,
        members: &[Member],
    ) -> Result<Answer, AllocError>
        ensures ok { IfOk result (λ answer. (T : Tiered) → RepresentsTiers self.old T
            → (U : Tiered) × StepAlone T (f.Make class members.now) (flat_answer answer) U × RepresentsTiers self.new U) }
        ensures err { OnErr result (self.new ≡ self.old) }
        ensures needs { OnErr result ((T : Tiered) → RepresentsTiers self.old T → IsAllocating T.flat (f.Make class members.now)) }
        ensures room { SameSizes self.old.world.array self.new.world.array }
    {
        let answer = self.world.make(alloc, class, members)?;
        hint_made(&mut self.hints, &answer);
        hint_made(&mut self.holes, &answer);
        Ok(answer)
    }

    /// Dissolves a group of which the worker holds all slots; refused with `NoGroup`, or `SlotsHeld` and the lowest slot that
    /// it doesn't hold. Hints no slot: its group's number holds them from then on.
    pub fn unmake(&mut self, alloc: Global, worker: u8, group: u16) -> Result<Answer, AllocError>
        ensures ok { IfOk result (λ answer. (T : Tiered) → RepresentsTiers self.old T
            → (U : Tiered) × StepAlone T (f.Unmake worker group) (flat_answer answer) U × RepresentsTiers self.new U) }
        ensures err { OnErr result (self.new ≡ self.old) }
        ensures needs { OnErr result ((T : Tiered) → RepresentsTiers self.old T → IsAllocating T.flat (f.Unmake worker group)) }
        ensures room { SameSizes self.old.world.array self.new.world.array }
    {
        self.world.unmake(alloc, worker, group)
    }
}
