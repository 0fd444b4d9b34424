// The sizes of a disk's array, from the disk's.
ghost use Rattle.std.specs.Prelude.{◌≡◌, ◌+◌, ◌*◌, ◌<◌, ◌≤◌, IsOk, IfOk, IfErr};
ghost use Rattle.disk_shape.specs.Planned.{IsPlanOf};
ghost use Rattle.disk_shape.specs.Plans.{AreDiskSizes, IsFaultOf, largest_size, member_count, slots_of};

use crate::search::{
    MOST_GROUPS, MOST_SEGMENTS, first_groups, first_segments, mirrored_among, slot_total,
};
use crate::{Plan, ShapeFault};
use extents::Shape;

// The most blocks of a disk of `drives` drives. One slot stays free, because a write needs one before the block's old slot is
// free.
fn most_blocks(drives: u8) -> u32
    requires { (3 ≤ drives) × (drives ≤ 16) }
    ensures most { result + 1 ≡ slots_of (member_count drives) 8 512 }
    ensures few { result ≤ 65535 }
{
    slot_total(u16::from(drives.min(8)), MOST_SEGMENTS, MOST_GROUPS) - 1
}

// The bytes of the largest disk of `drives` drives, in blocks of `block_bytes` bytes.
fn largest(drives: u8, block_bytes: u32) -> u64
    requires drives { (3 ≤ drives) × (drives ≤ 16) }
    requires block { block_bytes ≤ 65536 }
    ensures { result ≡ largest_size drives block_bytes }
{
    u64::from(most_blocks(drives)) * u64::from(block_bytes)
}

/// The array of a disk of `size` bytes in blocks of `block_bytes` bytes: it has the fewest groups of the fewest segments with
/// more slots than the disk has blocks. The refusals in order: Drives, Block, Empty, TooLarge.
pub fn plan_disk(size: u64, block_bytes: u32, drives: u8) -> Result<Plan, ShapeFault>
    ensures ok { IfOk result (IsPlanOf size block_bytes drives) }
    ensures err { IfErr result (IsFaultOf size block_bytes drives) }
    ensures succeeds { AreDiskSizes size block_bytes drives → IsOk result }
{
    if drives < 3 || drives > 16 {
        return Err(ShapeFault::Drives);
    }
    if block_bytes < 8 || block_bytes > 65_536 || block_bytes % 8 != 0 {
        return Err(ShapeFault::Block);
    }
    if size == 0 {
        return Err(ShapeFault::Empty);
    }
    // After the tests of drives and block, which give its factors their range.
    let most = largest(drives, block_bytes);
    if size > most {
        return Err(ShapeFault::TooLarge(most));
    }
    Ok(planned(size, block_bytes, drives))
}

// How many extents each drive needs.
fn extents_for(groups: u16, members: u16, drives: u16) -> u32
    requires groups { (2 ≤ groups) × (groups ≤ 512) }
    requires members { (3 ≤ members) × (members ≤ 8) × (members ≤ drives) }
    requires drives { drives ≤ 16 }
    ensures range { (1 ≤ result) × (result ≤ 512) }
    ensures enough { groups * members ≤ result * drives }
{
    let units = u32::from(groups) * u32::from(members);
    (units - 1) / u32::from(drives) + 1
}

// How many blocks hold a disk's bytes.
#[tactic(auto, using(crate::proofs::Blocks::fewer))]
fn blocks_for(size: u64, block_bytes: u32, most: u32) -> u32
    requires size { 0 < size }
    requires block { 8 ≤ block_bytes }
    requires most { size ≤ most * block_bytes }
    ensures hold { size ≤ result * block_bytes }
    ensures tight { result * block_bytes < size + block_bytes }
    ensures range { (1 ≤ result) × (result ≤ most) }
{
    let last = (size - 1) / u64::from(block_bytes);
    prove!(last < u64::from(most));
    last as u32 + 1
}

// The plan of sizes that are a disk's.
fn planned(size: u64, block_bytes: u32, drives: u8) -> Plan
    requires { AreDiskSizes size block_bytes drives }
    ensures { IsPlanOf size block_bytes drives result }
{
    let members = drives.min(8);
    let blocks = blocks_for(size, block_bytes, most_blocks(drives));
    let segments = first_segments(u16::from(members), blocks);
    let groups = first_groups(u16::from(members), segments, blocks);
    let extents = extents_for(groups, u16::from(members), u16::from(drives));
    let shape = match Shape::new(extents, u32::from(segments), block_bytes, blocks) {
        Ok(shape) => shape,
        // The sizes were tested by `plan_disk`.
        Err(_) => unreachable!(),
    };
    Plan {
        size,
        drives,
        members,
        groups,
        mirrored: mirrored_among(groups),
        shape,
    }
}
