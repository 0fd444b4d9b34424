//! Numbers as they are written, and within their limits.
ghost use Rattle.std.specs.Prelude.{◌≡◌, ◌↔◌, IfSome, IfNone, IfOk, IsTrue};
ghost use Rattle.std.specs.List.{All};
ghost use Rattle.script_exec.specs.State.{IsArrayInRange, IsMemberInRange};
ghost use Rattle.script_exec.specs.Answers.{members_named};
ghost use Rattle.extents.specs.Shapes.{IsShapeOf};
ghost use Rattle.extents.specs.Sizes.{AreInRange};

use script_syntax::Named;
use std::alloc::{AllocError, Global};
use step_core::{Member, Shape};

/// The greatest number of a worker.
pub const LAST_WORKER: u64 = 7;

/// The greatest number of a slot.
pub const LAST_SLOT: u64 = 65_535;

/// The greatest number of a map.
pub const LAST_MAP: u64 = 3;

/// The greatest number of a drive.
pub const LAST_DRIVE: u64 = 15;

/// The greatest number of an extent.
const LAST_EXTENT: u64 = 511;

/// The greatest number of a group.
pub const LAST_GROUP: u64 = 511;

/// The fewest drives of an array.
const FEWEST_DRIVES: u64 = 3;

/// The most drives of an array.
const MOST_DRIVES: u64 = 16;

/// The greatest size that is passed to the array. Some sizes end below it: `Shape::new` tests each one's range.
const LAST_SIZE: u64 = 65_536;

/// Whether each member's numbers are within the limits. They may be past this array's drives and extents: that is no fault,
/// and the array refuses it.
pub fn are_in_range(members: &[Named]) -> bool
    ensures { IsTrue result ↔ All IsMemberInRange members.now }
{
    members.iter().all(|member| member.drive <= LAST_DRIVE && member.extent <= LAST_EXTENT)
}

/// The members that are named, which are within the limits.
pub fn members_of(alloc: Global, named: &[Named]) -> Result<Vec<Member>, AllocError>
    requires { All IsMemberInRange named.now }
    ensures { IfOk result (λ members. members.items ≡ members_named named.now) }
{
    let mut members = Vec::new(alloc);
    for name in named {
        members.push(Member {
            drive: name.drive as u8,
            extent: name.extent as u16,
        })?;
    }
    Ok(members)
}

/// The number of drives and the shape of an array. None if one is out of its range.
pub fn array_in_range(
    drives: u64,
    extents: u64,
    segments: u64,
    payload: u64,
    blocks: u64,
) -> Option<(u8, Shape)>
    ensures some { IfSome result (λ found. (found.0 ≡ drives) × IsShapeOf found.1 extents segments payload blocks
        × IsArrayInRange drives extents segments payload blocks) }
    ensures none { IfNone result (IsArrayInRange drives extents segments payload blocks → ⊥) }
{
    if drives < FEWEST_DRIVES || drives > MOST_DRIVES {
        return None;
    }
    let Some(shape) = shape_of(extents, segments, payload, blocks) else {
        return None
    };
    Some((drives as u8, shape))
}

// The shape with these sizes.
fn shape_of(extents: u64, segments: u64, payload: u64, blocks: u64) -> Option<Shape>
    ensures some { IfSome result (λ shape. IsShapeOf shape extents segments payload blocks
        × AreInRange extents segments payload blocks) }
    ensures none { IfNone result (AreInRange extents segments payload blocks → ⊥) }
{
    // Before the casts below, which would cut a greater number to 32 bits.
    if extents > LAST_SIZE || segments > LAST_SIZE || payload > LAST_SIZE || blocks > LAST_SIZE {
        return None;
    }
    match Shape::new(
        extents as u32,
        segments as u32,
        payload as u32,
        blocks as u32,
    ) {
        Ok(shape) => Some(shape),
        Err(_) => None,
    }
}
