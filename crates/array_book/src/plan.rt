// What a worker moves next, and into which slot.
ghost use Rattle.std.specs.Prelude.{◌≡◌, ◌↔◌, ◌<◌, MatchOption, IsTrue, true, false, Some, None};
ghost use Rattle.tiered_array.specs.Planning.{IsOldestMirrored, IsNextAppend, IsPlugOf, IsCleanOf};
ghost use Rattle.array_book.specs.Planned.{IsPlanned, IsDone, IsMoveBy, IsNext, IsRegrouped, NeedsDemotion, NoDemotion, turn_of};
ghost use Rattle.array_book.specs.Outcomes.{LockState, WasPlanned};

use crate::claim::Sizes;
use crate::kept::Kept;
use cleaner::Move;
use extent_groups::SLOTS;
use extents::Drive;
use migrator::Free;
use slot_words::Naming;
use tiered_array::Any;

// A block that is to be moved.
#[derive(Drop)]
pub(crate) struct Plan {
    pub(crate) block: u32,
    // The slot that it goes into, if there is one.
    pub(crate) slot: Option<u16>,
    // Whether it tries the next slot where the write log goes on, where that one can't be claimed.
    pub(crate) demotes: bool,
    // The write group, whose slots come first.
    pub(crate) group: Option<u16>,
    // Whether the write log goes on after the slot.
    pub(crate) appends: bool,
}

// The slot that a plan tries if it can't claim this one: for a demotion the next where the write log goes on, else none. It
// goes by turns, not by free slots, so that it ends: each next slot has a later turn.
pub(crate) fn slot_after<D: Drive, N: Naming + Sizes>(
    kept: &Kept<D, N>,
    plan: &Plan,
    slot: u16,
) -> Option<u16>
    ensures next { IsNext kept.now plan.now slot result }
    ensures seen { (state : LockState N.blocks N.payload) × IsNext state.view plan.now slot result }
    ensures later { MatchOption result (Unit {0}) (λ next. turn_of plan.now.group slot < turn_of plan.now.group next) }
{
    // For its clauses: it does nothing.
    kept.matches();
    if !plan.demotes {
        return None;
    }
    let after = After {
        group: plan.group,
        turn: turn_of(plan.group, slot),
    };
    kept.planner.next_append(&kept.array, &after)
}

// The slots whose turn comes after this one.
#[derive(Drop)]
struct After {
    group: Option<u16>,
    turn: u32,
}

impl Free for After {
    ghost free = { λ after slot. after.turn < turn_of after.group slot };

    fn is_free(&self, slot: u16) -> bool {
        self.turn < turn_of(self.group, slot)
    }
}

// A slot's turn where the write log goes on: those of the write group come first, then all others by number.
fn turn_of(group: Option<u16>, slot: u16) -> u32
    ensures { result ≡ turn_of group slot }
{
    match group {
        Some(group) if group == slot / SLOTS => u32::from(slot % SLOTS),
        _ => u32::from(SLOTS) + u32::from(slot),
    }
}

// What is moved next: where fewer than `low` of the mirrored slots are free a demotion, if a block is in a mirrored group, even if
// there is no slot for it; else a plug, else a clean.
pub(crate) fn plan_in<D: Drive, N: Naming + Sizes>(
    kept: &mut Kept<D, N>,
    mirrors: &[u16],
    low: u32,
) -> Option<Plan>
    ensures block { MatchOption result (Unit {0}) (λ plan. plan.block < N.blocks) }
    ensures planned { MatchOption result (IsDone mirrors.now low kept.old) (IsPlanned mirrors.now low kept.old) }
    ensures seen { WasPlanned N.blocks N.payload mirrors.now low result }
    ensures same { kept.new ≡ kept.old }
{
    kept.matches();
    match due_demotion(kept, mirrors, low) {
        Some(block) => Some(demotion(kept, block)),
        None => regrouped(kept),
    }
}

// The block that is to be demoted, if a demotion is due.
fn due_demotion<D: Drive, N: Naming + Sizes>(
    kept: &mut Kept<D, N>,
    mirrors: &[u16],
    low: u32,
) -> Option<u32>
    ensures block { MatchOption result (Unit {0}) (λ block. block < N.blocks) }
    ensures due { MatchOption result (NoDemotion kept.old mirrors.now low)
        (λ block. NeedsDemotion kept.old mirrors.now low × IsOldestMirrored kept.old.array kept.old.planner (Some block)) }
    ensures same { kept.new ≡ kept.old }
{
    if needs_demotion(kept, mirrors, low) {
        kept.planner.oldest_mirrored(&kept.array)
    } else {
        None
    }
}

// A plug, or where there is none a clean.
fn regrouped<D: Drive, N: Naming + Sizes>(kept: &Kept<D, N>) -> Option<Plan>
    ensures block { MatchOption result (Unit {0}) (λ plan. plan.block < N.blocks) }
    ensures moves { MatchOption result (IsPlugOf kept.now.array kept.now.planner None × IsCleanOf kept.now.array kept.now.planner None) (IsRegrouped kept.now) }
{
    let array = &kept.array;
    if let Some(plan) = kept.planner.plug(array) {
        return Some(moved(plan, false));
    }
    // Not `clean`, which would look for a plug again.
    match kept.planner.clean_unplugged(array) {
        Some(plan) => Some(moved(plan, true)),
        None => None,
    }
}

// The plan of a demotion.
fn demotion<D: Drive, N: Naming + Sizes>(kept: &Kept<D, N>, block: u32) -> Plan
    ensures block { result.block ≡ block }
    ensures slot { IsNextAppend kept.now.array kept.now.planner (λ slot. Unit {0}) result.slot }
    ensures goes { (result.demotes ≡ true) × (result.group ≡ kept.now.planner.end.group) × (result.appends ≡ true) }
{
    Plan {
        block,
        // Held or not: other workers' claims are in the words, not in the array. The claim decides.
        slot: kept.planner.next_append(&kept.array, &Any),
        demotes: true,
        group: kept.planner.write_group(),
        appends: true,
    }
}

// The plan of a move.
fn moved(plan: Move, appends: bool) -> Plan
    ensures { IsMoveBy plan appends result }
{
    Plan {
        block: plan.block,
        slot: Some(plan.to),
        demotes: false,
        group: None,
        appends,
    }
}

// Whether fewer than `low` of these slots are free. The rest aren't looked at once the array holds too many. Slots that
// workers have claimed count as free here, since the array doesn't know of them.
fn needs_demotion<D: Drive, N: Naming + Sizes>(kept: &Kept<D, N>, mirrors: &[u16], low: u32) -> bool
    ensures { IsTrue result ↔ NeedsDemotion kept.now mirrors.now low }
{
    // None where there are fewer than `low` mirrored slots at all: then fewer than `low` are free.
    let Some(mut spare) = mirrors.len().checked_sub(low as usize) else {
        return true;
    };
    for slot in mirrors {
        if kept.array.is_held(*slot) {
            if spare == 0 {
                return true;
            }
            spare -= 1;
        }
    }
    false
}
