// A row of a parity group: the units at one offset of all members.
ghost use Rattle.std.specs.Prelude.{◌≡◌, ◌↔◌, IsTrue, length, replicate};
ghost use Rattle.extent_groups.specs.Cells.{cells};
ghost use Rattle.extent_groups.specs.Calls.{if_ok, NoPlace, KeepsDrives};
ghost use Rattle.extent_groups.specs.Units.{InStripe, IsSoundAt, row_of, xor_total};
ghost use Rattle.parity_store.specs.Ways.{row_at, IsLaid};

use extent_groups::{GroupTable, Stripe, read_place};
use extents::Drive;
use parity_store::xor_into;

// Adds up the units at an offset of all members, with a buffer for each of them; false where a member's drive is lost.
fn add_row<D: Drive>(
    groups: &GroupTable,
    drives: &mut [D],
    group: u16,
    offset: u16,
    sum: &mut [u8],
    part: &mut [u8],
) -> bool
    requires laid { IsLaid D.units groups.now group offset (length sum.old) drives.old }
    requires part { length part.old ≡ length sum.old }
    ensures sum { xor_total (length sum.old) (length (row_at groups.now group offset))
        (row_of (cells D.units D.lost drives.new) (row_at groups.now group offset)) ≡ if_ok result sum.new }
    ensures touched { KeepsDrives D.units D.lost D.failures NoPlace drives.old drives.new }
{
    // The buffer has what the caller left in it, and the sum starts from zeros.
    sum.fill(0);
    for number in 0..groups.members(group).len() as u8 {
        let place = groups.place(group, number, offset);
        if !read_place(drives, place, part) {
            return false;
        }
        xor_into(sum, part);
    }
    true
}

// Whether all bytes are zero.
fn is_zero(bytes: &[u8]) -> bool
    ensures { IsTrue result ↔ (bytes.now ≡ replicate (length bytes.now) 0) }
{
    bytes.iter().all(|byte| *byte == 0)
}

// Whether the row of a stripe adds up to zero, or the drive of one of its members is lost. Takes a buffer for the sum, and one
// for each member's unit.
pub(crate) fn is_row_sound<D: Drive>(
    groups: &GroupTable,
    drives: &mut [D],
    group: u16,
    at: &Stripe,
    sum: &mut [u8],
    part: &mut [u8],
) -> bool
    requires laid { IsLaid D.units groups.now group at.now.offset (length sum.old) drives.old }
    requires part { length part.old ≡ length sum.old }
    ensures sound { IsTrue result
        ↔ IsSoundAt (length sum.old) (cells D.units D.lost drives.new) (InStripe (row_at groups.now group at.now.offset) at.now.parity at.now.member) }
    ensures touched { KeepsDrives D.units D.lost D.failures NoPlace drives.old drives.new }
{
    // The lost unit may be the one that makes the sum zero, so the row is sound.
    if !add_row(groups, drives, group, at.offset, sum, part) {
        return true;
    }
    is_zero(sum)
}
