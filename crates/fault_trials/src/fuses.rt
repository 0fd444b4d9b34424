// Each drive fused at each call of a case, until the fuse isn't reached.
use crate::allocations::{Memory, map_of};
use crate::answers::is_answer;
use crate::case::{Case, Part};
use crate::runs::run;
use crate::trouble::Trouble;
use crate::words::Words;
use map_join::{BlockMap, Record};
use std::alloc::Global;
use step_core::{Answer, Member, Refusal, Step, World};

/// More calls of one drive than any case makes.
const MOST_CALLS: u64 = 10_000;

/// Runs of a case, how many of them lost a drive, and how many moves were refused for it.
#[derive(Drop)]
pub(crate) struct Fuses {
    pub(crate) runs: u64,
    pub(crate) losses: u64,
    pub(crate) refused: u64,
}

/// Runs a case with each drive fused at each call from its line `--` on.
pub(crate) fn fuse_all(alloc: Global, case: &Case<'_>) -> Result<Fuses, Trouble> {
    let mut counts = Fuses {
        runs: 0,
        losses: 0,
        refused: 0,
    };
    let drives = begun(alloc, case)?.array().drive_count();
    for drive in 0..drives {
        fuse_each(alloc, case, drive, &mut counts)?;
    }
    Ok(counts)
}

// Fuses a drive at its first call, then at its second, and so on, until the drive isn't lost. Then it has fewer calls.
fn fuse_each(alloc: Global, case: &Case<'_>, drive: u8, counts: &mut Fuses) -> Result<(), Trouble> {
    for call in 1..MOST_CALLS {
        let (is_lost, refused) = fuse_once(alloc, case, drive, call)?;
        counts.runs = counts.runs.saturating_add(1);
        counts.refused = counts.refused.saturating_add(refused);
        if !is_lost {
            return Ok(());
        }
        counts.losses = counts.losses.saturating_add(1);
    }
    Err(Trouble::Wrong)
}

// Runs a case with a drive fused at a call: whether it was lost, and how many moves were refused for it. A new world for each
// call, since a lost drive stays lost.
fn fuse_once(alloc: Global, case: &Case<'_>, drive: u8, call: u64) -> Result<(bool, u64), Trouble> {
    let mut world = begun(alloc, case)?;
    if call == 0 || drive >= world.array().drive_count() {
        return Err(Trouble::Input);
    }
    world.fuse(drive, call);
    let refused = run_fused(alloc, &mut world, &case.following, drive)?;
    Ok((world.array().is_lost(drive), refused))
}

// The case's world at its line `--`.
fn begun(alloc: Global, case: &Case<'_>) -> Result<World, Trouble> {
    let part = &case.before;
    run(alloc, case.world(alloc)?, &part.steps, &part.expected)
}

// Runs the rest of the case: how many moves were refused since their target, the fused drive, was lost.
fn run_fused(alloc: Global, world: &mut World, part: &Part<'_>, drive: u8) -> Result<u64, Trouble> {
    let mut refused = 0u64;
    for (step, expected) in part.steps.iter().zip(part.expected.iter()) {
        if !is_as_expected(alloc, world, step, expected, drive)? {
            refused = refused.saturating_add(1);
        }
    }
    Ok(refused)
}

// Whether a step is answered as without the loss. A move onto the fused drive may be refused as lost instead, and then
// group, map and log are as they were.
fn is_as_expected(
    alloc: Global,
    world: &mut World,
    step: &Step,
    expected: &Words<'_>,
    drive: u8,
) -> Result<bool, Trouble> {
    // Before the step: a refused move has to leave it.
    let kept = Kept::of(alloc, world, step)?;
    let is_expected = is_expected_or_lost(alloc, world, step, expected, drive)?;
    if !is_expected && !kept.is_same(&Kept::of(alloc, world, step)?) {
        return Err(Trouble::Wrong);
    }
    Ok(is_expected)
}

// Whether a step is answered as without the loss. If not, it is a move that is refused because of the loss.
fn is_expected_or_lost(
    alloc: Global,
    world: &mut World,
    step: &Step,
    expected: &Words<'_>,
    drive: u8,
) -> Result<bool, Trouble> {
    if !world.fits(step) {
        return Err(Trouble::Input);
    }
    let answer = world.step(alloc, step)?;
    if is_answer(expected, &answer) {
        Ok(true)
    } else if is_onto(step, drive) && is_lost(&answer, drive) {
        Ok(false)
    } else {
        Err(Trouble::Wrong)
    }
}

fn is_onto(step: &Step, drive: u8) -> bool {
    match step {
        Step::MoveExtent { to, .. } => to.drive == drive,
        _ => false,
    }
}

fn is_lost(answer: &Answer, drive: u8) -> bool {
    match answer {
        Answer::Refused(Refusal::DriveLost(lost)) => *lost == drive,
        _ => false,
    }
}

// All records that were emitted, in their order.
fn log_of(alloc: Global, array: &Memory) -> Result<Vec<Record>, Trouble> {
    array.records_from(alloc, 0).ok().ok_or(Trouble::Memory)
}

// What a refused move leaves: its group's members, the map, and the log.
#[derive(Drop)]
struct Kept {
    members: Vec<Member>,
    map: BlockMap,
    log: Vec<Record>,
}

impl Kept {
    fn of(alloc: Global, world: &World, step: &Step) -> Result<Kept, Trouble> {
        let group = match step {
            Step::MoveExtent { group, .. } => *group,
            _ => 0,
        };
        let array = world.array();
        Ok(Kept {
            members: array.groups().members(group).to_vec(alloc)?,
            map: map_of(alloc, array)?,
            log: log_of(alloc, array)?,
        })
    }

    fn is_same(&self, other: &Kept) -> bool {
        self.members.as_slice() == other.members.as_slice()
            && self.map.agrees(&other.map)
            && self.log.as_slice() == other.log.as_slice()
    }
}
