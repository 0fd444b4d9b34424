// A change of the groups of an array in memory.
ghost use Rattle.std.specs.Prelude.{◌≡◌, ◌<◌, ◌≤◌, OnOk};
ghost use Rattle.flat_machine.specs.Flat.{Flat};
ghost use Rattle.slot_tables.specs.Represents.{Represents};
ghost use Rattle.group_changes.specs.Applied.{Applies, IsClaimedOf, IsDissolved, IsMade, IsMoved};

use crate::change::GroupChange;
use crate::fault::GroupChangeFault;
use extent_groups::SLOTS;
use std::alloc::Global;
use step_core::{Answer, Class, Member, Refusal, World};

// The worker that claims the slots of a group that is dissolved.
const WORKER: u8 = 0;

/// Makes the change. Refused as the world's step is, and where a group would get another number.
pub(crate) fn apply(
    alloc: Global,
    world: &mut World,
    change: &GroupChange,
) -> Result<(), GroupChangeFault>
    ensures { OnOk result (Applies change.now world.old world.new) }
{
    match change {
        GroupChange::Make {
            group,
            class,
            members,
        } => make(alloc, world, *group, *class, members),
        GroupChange::Dissolve { group } => dissolve(alloc, world, *group),
        GroupChange::Move { group, member, to } => shift(world, *group, *member, *to),
    }
}

// Makes a group under this number.
fn make(
    alloc: Global,
    world: &mut World,
    group: u16,
    class: Class,
    members: &[Member],
) -> Result<(), GroupChangeFault>
    ensures { OnOk result ((F : Flat) → Represents world.old F → (G : Flat) × IsMade group class members.now F G × Represents world.new G) }
{
    match world.make(alloc, class, members)? {
        Answer::Made(number) => test_number(number, group),
        answer => Err(fault_of(answer)),
    }
}

// Tests that a group got the number that was asked for.
fn test_number(number: u16, group: u16) -> Result<(), GroupChangeFault>
    ensures { OnOk result (number ≡ group) }
{
    if number != group {
        return Err(GroupChangeFault::Number(number));
    }
    Ok(())
}

// Dissolves a group.
fn dissolve(alloc: Global, world: &mut World, group: u16) -> Result<(), GroupChangeFault>
    ensures { OnOk result ((F : Flat) → Represents world.old F → (G : Flat) × IsDissolved group F G × Represents world.new G) }
{
    let Some(count) = world.array().slots_in(group) else {
        return Err(GroupChangeFault::Refused(Refusal::NoGroup));
    };
    claim_first(world, group, count);
    match world.unmake(alloc, WORKER, group)? {
        Answer::Unmade(_) => Ok(()),
        answer => Err(fault_of(answer)),
    }
}

// Claims those of the first `count` slots of a group that nobody holds. Of the others the step that dissolves it names the lowest.
fn claim_first(world: &mut World, group: u16, count: u16)
    requires group { group < 512 }
    requires count { count ≤ 128 }
    ensures { (F : Flat) → Represents world.old F → (G : Flat) × IsClaimedOf F G × Represents world.new G }
{
    for index in 0..count {
        let _answer = world.claim(WORKER, SLOTS * group + index);
    }
}

// Moves a group's member of this number onto another extent.
fn shift(world: &mut World, group: u16, member: u8, to: Member) -> Result<(), GroupChangeFault>
    ensures { OnOk result ((F : Flat) → Represents world.old F → (G : Flat) × IsMoved group member to F G × Represents world.new G) }
{
    world.move_extent(group, member, to)?;
    Ok(())
}

// The fault of a step that wasn't carried out: it answers with a refusal.
fn fault_of(answer: Answer) -> GroupChangeFault {
    match answer {
        Answer::Refused(refusal) => GroupChangeFault::Refused(refusal),
        // Not reached.
        _ => GroupChangeFault::Misfit,
    }
}
