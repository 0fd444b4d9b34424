// Moving extents off a lost drive.
ghost use Rattle.std.specs.Prelude.{◌↔◌, ℕ, ◌<◌, length, IsTrue, IfSome, IfNone};
ghost use Rattle.rebalancer.specs.Rebuilding.{IsTarget, IsBestTarget, IsRebuild};
ghost use Rattle.rebalancer.specs.Choosing.{IsLighter};

use crate::Shift;
use crate::drives::has_room;
use crate::groups::{first_on, member_on};
use extent_groups::{GroupTable, Member};
use extents::{DRIVES, ExtentTable};

/// The next extent to move off a lost drive: that of the lowest group with a member on it. It goes onto the present drive of
/// least load that has a free extent and no member of that group. None where the drive isn't lost or no group has a member on
/// it, or that member has nowhere to go.
pub fn rebuild_plan(
    extents: &ExtentTable,
    groups: &GroupTable,
    lost: &[bool; DRIVES],
    drive: u8,
) -> Option<Shift>
    requires { drive < 16 }
    ensures { IsRebuild extents.now groups.now lost.now drive result }
{
    if !lost[drive as usize] {
        return None;
    }
    // The lowest, even if there is no target for it, because a drive that is added will be one.
    let carrier = first_on(groups, drive)?;
    let to = best_target(extents, groups, lost, carrier.group)?;
    let extent = extents.lowest_free(to)?;
    Some(Shift {
        group: carrier.group,
        member: carrier.member,
        to: Member { drive: to, extent },
    })
}

// The drive of least load that a group's member can move to, the lower of two alike.
fn best_target(
    extents: &ExtentTable,
    groups: &GroupTable,
    lost: &[bool; DRIVES],
    group: u16,
) -> Option<u8>
    ensures some { IfSome result (IsBestTarget extents.now groups.now lost.now group) }
    ensures none { IfNone result ((t : ℕ) → IsTarget extents.now groups.now lost.now group t → ⊥) }
{
    let mut best: Option<u8> = None;
    for drive in 0..DRIVES as u8 {
        if is_target(extents, groups, lost, group, drive) && is_lighter(extents, drive, best) {
            best = Some(drive);
        }
    }
    best
}

// Whether a group's member can move to the drive.
fn is_target(
    extents: &ExtentTable,
    groups: &GroupTable,
    lost: &[bool; DRIVES],
    group: u16,
    drive: u8,
) -> bool
    requires { drive < 16 }
    ensures { IsTrue result ↔ IsTarget extents.now groups.now lost.now group drive }
{
    has_room(extents, lost, drive) && member_on(groups, group, drive).is_none()
}

// Whether the drive has less load than the best so far, if there is one.
fn is_lighter(extents: &ExtentTable, drive: u8, best: Option<u8>) -> bool
    requires there { drive < length extents.now.rows }
    requires best { IfSome best (λ b. b < length extents.now.rows) }
    ensures { IsTrue result ↔ IsLighter extents.now drive best }
{
    match best {
        // Less, not equal, so that of two alike the lower drive stays.
        Some(best) => extents.load(drive) < extents.load(best),
        None => true,
    }
}
