// Runs of a world over a list of steps.
ghost use Rattle.std.specs.Prelude.{◌≡◌, ◌⊎◌, ◌<◌, length, take, map, slice_get, All, MatchResult, IsTrue, ◌↔◌, IfOk, IfErr, OnErr, Some};
ghost use Rattle.flat_machine.specs.Flat.{Flat, HeldOnce};
ghost use Rattle.flat_machine.specs.Cases.{Case, IsAllocating};
ghost use Rattle.step_core.specs.Reported.{flat_answer, flat_step, FitsStep, SwapsNoDrive};
ghost use Rattle.step_core.specs.Running.{IsRunOf};
ghost use Rattle.step_core.specs.declared.step.Step.{Step};
ghost use Rattle.slot_tables.specs.Views.{WorldView, SameSizes, IsWhole};
ghost use Rattle.slot_tables.specs.Represents.{Represents};
ghost use Rattle.step_core.specs.Headline.{Guarantees, TellingRun, StepsTo, OfEach, HasMaps, IsOneMissed, HasHeaders, ReadsLast, IsMemoryStop};

use crate::step::{Answer, Step};
use crate::world::{World, refused};
use extents::{Drive, HotSwap, MemDrive};
use std::alloc::{AllocError, Global};

/// How many workers a world has.
const WORKERS: u8 = 8;

/// A run to its end: the world then, and one answer for each step.
#[derive(Drop)]
pub struct Run<D: Drive = MemDrive> {
    pub world: World<D>,
    pub answers: Vec<Answer>,
}

/// A run that stopped because it was out of memory: the step `at` changed nothing, and the answers are those of the steps before it.
#[derive(Drop)]
pub struct Stopped<D: Drive = MemDrive> {
    pub world: World<D>,
    pub answers: Vec<Answer>,
    pub at: usize,
}

/// What is true of every state that a world represents: no slot has two holders; every map of exactly the emitted records is
/// the running map, and where each group misses at most one member so is the map of the headers; and a read through it finds
/// each block's last write on the drives.
pub fn represented_matches()
    ensures { (world : WorldView) (F : Flat) → IsWhole world.array → Represents world F → Guarantees world F }
{
    // The law is the contract: there is nothing to do.
}

impl<D: Drive> World<D> {
    /// Whether the step's worker, block and payload are of this world: a worker below 8, a block that
    /// the array has, and a payload of its length.
    pub fn fits(&self, step: &Step) -> bool
        ensures { IsTrue result ↔ FitsStep self.now.array.parts.groups step.now }
    {
        let shape = self.array().shape();
        match step {
            Step::Claim { worker, slot: _ } => *worker < WORKERS,
            Step::Release { worker, slot: _ } => *worker < WORKERS,
            Step::Fill {
                worker,
                slot: _,
                payload,
            } => *worker < WORKERS && payload.len() == shape.payload as usize,
            Step::Trim { worker, slot: _ } => *worker < WORKERS,
            Step::Copy {
                worker,
                slot: _,
                block,
            } => *worker < WORKERS && *block < shape.blocks,
            Step::Commit {
                worker,
                slot: _,
                block,
            } => *worker < WORKERS && *block < shape.blocks,
            Step::Discard { worker, slot: _ } => *worker < WORKERS,
            Step::Read { block } => *block < shape.blocks,
            Step::ReadAt { record } => record.block < shape.blocks,
            Step::Make {
                class: _,
                members: _,
            } => true,
            Step::Unmake { worker, group: _ } => *worker < WORKERS,
            Step::MoveExtent {
                group: _,
                member: _,
                to: _,
            } => true,
            Step::AddDrive => true,
            Step::Lose { drive: _ } => true,
        }
    }
}

impl<D: Drive> World<D> {
    /// Carries out a step that fits and neither adds nor loses a drive. It fails only if out of memory, and then nothing has
    /// changed.
    pub fn step_fixed(&mut self, alloc: Global, step: &Step) -> Result<Answer, AllocError>
        requires fits { FitsStep self.old.array.parts.groups step.now }
        requires fixed { SwapsNoDrive step.now }
        ensures ok { IfOk result (λ answer. (F : Flat) → Represents self.old F
            → (G : Flat) × Case F (flat_step step.now) (flat_answer answer) G × Represents self.new G) }
        ensures err { OnErr result (self.new ≡ self.old) }
        ensures needs { OnErr result ((F : Flat) → Represents self.old F → IsAllocating F (flat_step step.now)) }
        ensures room { SameSizes self.old.array self.new.array }
    {
        match step {
            Step::Claim { worker, slot } => Ok(self.claim(*worker, *slot)),
            Step::Release { worker, slot } => Ok(self.release(*worker, *slot)),
            Step::Fill {
                worker,
                slot,
                payload,
            } => self.fill(*worker, *slot, payload),
            Step::Trim { worker, slot } => self.trim(*worker, *slot),
            Step::Copy {
                worker,
                slot,
                block,
            } => self.copy(*worker, *slot, *block),
            Step::Commit {
                worker,
                slot,
                block,
            } => self.commit(alloc, *worker, *slot, *block),
            Step::Discard { worker, slot } => Ok(self.discard(*worker, *slot)),
            Step::Read { block } => self.read(alloc, *block),
            Step::ReadAt { record } => self.read_at(alloc, *record),
            Step::Make { class, members } => self.make(alloc, *class, members),
            Step::Unmake { worker, group } => self.unmake(alloc, *worker, *group),
            Step::MoveExtent { group, member, to } => match self.move_extent(*group, *member, *to) {
                Ok(()) => Ok(Answer::Shifted),
                Err(refusal) => refused(refusal),
            },
            // The caller excludes these two, because not every kind of drive can be added or lost.
            Step::AddDrive => unreachable!(),
            Step::Lose { drive: _ } => unreachable!(),
        }
    }
}

impl<D: HotSwap + Drop> World<D> {
    /// Carries out a step that fits. It fails only if out of memory, and then nothing has changed.
    pub fn step(&mut self, alloc: Global, step: &Step) -> Result<Answer, AllocError>
        requires { FitsStep self.old.array.parts.groups step.now }
        ensures ok { IfOk result (λ answer. (F : Flat) → Represents self.old F
            → (G : Flat) × Case F (flat_step step.now) (flat_answer answer) G × Represents self.new G) }
        ensures err { OnErr result (self.new ≡ self.old) }
        ensures needs { OnErr result ((F : Flat) → Represents self.old F → IsAllocating F (flat_step step.now)) }
        ensures room { SameSizes self.old.array self.new.array }
    {
        match step {
            Step::AddDrive => self.add_drive(alloc),
            Step::Lose { drive } => Ok(self.lose(*drive)),
            _ => self.step_fixed(alloc, step),
        }
    }
}

/// Runs a world over steps that fit it.
pub fn run_steps<D: HotSwap + Drop>(
    alloc: Global,
    world: World<D>,
    steps: &[Step],
) -> Result<Run<D>, Stopped<D>>
    requires { All (FitsStep world.array.parts.groups) steps.now }
    ensures run { (F : Flat) → Represents world F → MatchResult result
        (λ run. (G : Flat) × TellingRun F (map flat_step steps.now) (map flat_answer run.answers.items) G × Represents run.world G × Guarantees run.world G)
        (λ stop. (G : Flat) × TellingRun F (map flat_step (take stop.at steps.now)) (map flat_answer stop.answers.items) G × Represents stop.world G
        × Guarantees stop.world G
        × (stop.at < length steps.now)
        × ((stop.at ≡ 0) ⊎ ((step : Step) × (slice_get steps.now stop.at ≡ Some step) × IsAllocating G (flat_step step)))) }

    // Step by step: each begins with the world that the one before it left, and one answer is given for each.
    ensures worlds { MatchResult result (λ run. StepsTo world steps.now run.answers.items run.world)
        (λ stop. StepsTo world (take stop.at steps.now) stop.answers.items stop.world) }
    ensures answers { MatchResult result (λ run. length run.answers.items ≡ length steps.now)
        (λ stop. (length stop.answers.items ≡ stop.at) × (stop.at < length steps.now)) }

    // Of the world at the end, or where the run stopped.
    ensures once { MatchResult result (λ run. OfEach run.world HeldOnce) (λ stop. OfEach stop.world HeldOnce) }
    ensures maps { MatchResult result (λ run. OfEach run.world (HasMaps run.world)) (λ stop. OfEach stop.world (HasMaps stop.world)) }
    ensures headers { (F : Flat) → Represents world F → MatchResult result
        (λ run. IsOneMissed run.world.array.parts → HasHeaders run.world)
        (λ stop. IsOneMissed stop.world.array.parts → HasHeaders stop.world) }
    ensures reads { MatchResult result (λ run. OfEach run.world (ReadsLast run.world)) (λ stop. OfEach stop.world (ReadsLast stop.world)) }

    // Why it stopped.
    ensures stopped { IfErr result (λ stop. (stop.at ≡ 0 → stop.world ≡ world) × OfEach stop.world (IsMemoryStop steps.now stop.at)) }
{
    run_by::<D, AllSteps>(alloc, world, steps)
}

/// Runs a world over steps that fit it and neither add nor lose a drive. Its drives may be of any kind, also of one that fails
/// spontaneously: a drive is then lost without a step that says so, and a unit that no drive can show any more is an answer Gone.
pub fn run_fixed<D: Drive + Drop>(
    alloc: Global,
    world: World<D>,
    steps: &[Step],
) -> Result<Run<D>, Stopped<D>>
    requires fits { All (FitsStep world.array.parts.groups) steps.now }
    requires fixed { All SwapsNoDrive steps.now }
    ensures { IsRunOf world steps.now result }
{
    run_by::<D, FixedDrives>(alloc, world, steps)
}

// How a run carries out a step, and which steps it takes: so one loop serves drives of any kind.
trait Carry<D: Drive> {
    ghost takes: { Step → Type 0 };

    fn carry(world: &mut World<D>, alloc: Global, step: &Step) -> Result<Answer, AllocError>
        requires fits { FitsStep world.old.array.parts.groups step.now }
        requires takes { Self.takes step.now }
        ensures ok { IfOk result (λ answer. (F : Flat) → Represents world.old F
            → (G : Flat) × Case F (flat_step step.now) (flat_answer answer) G × Represents world.new G) }
        ensures err { OnErr result (world.new ≡ world.old) }
        ensures needs { OnErr result ((F : Flat) → Represents world.old F → IsAllocating F (flat_step step.now)) }
        ensures room { SameSizes world.old.array world.new.array };
}

// A run of all steps.
struct AllSteps;

impl<D: HotSwap + Drop> Carry<D> for AllSteps {
    ghost takes = { λ _. Unit {0} };

    fn carry(world: &mut World<D>, alloc: Global, step: &Step) -> Result<Answer, AllocError> {
        world.step(alloc, step)
    }
}

// A run that neither adds nor loses a drive.
struct FixedDrives;

impl<D: Drive> Carry<D> for FixedDrives {
    ghost takes = { SwapsNoDrive };

    fn carry(world: &mut World<D>, alloc: Global, step: &Step) -> Result<Answer, AllocError> {
        world.step_fixed(alloc, step)
    }
}

// Runs a world over steps, one after the other.
fn run_by<D: Drive + Drop, S: Carry<D>>(
    alloc: Global,
    mut world: World<D>,
    steps: &[Step],
) -> Result<Run<D>, Stopped<D>>
    requires fits { All (FitsStep world.array.parts.groups) steps.now }
    requires takes { All S.takes steps.now }
    ensures { IsRunOf world steps.now result }
{
    // For the proof alone: `represented_matches` is of whole arrays, so each state needs this call.
    world.whole();
    // Room for all answers first, so that each step that is carried out has one.
    let mut answers = match Vec::with_capacity(alloc, steps.len()) {
        Ok(answers) => answers,
        Err(_) => {
            return Err(Stopped {
                world,
                answers: Vec::new(alloc),
                at: 0,
            });
        }
    };
    for (at, step) in steps.iter().enumerate() {
        world.whole();
        match S::carry(&mut world, alloc, step) {
            Ok(answer) => answers.push_reserved(answer),
            Err(_) => return Err(Stopped { world, answers, at }),
        }
    }
    world.whole();
    Ok(Run { world, answers })
}
