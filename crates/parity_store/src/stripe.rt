// A unit of a stripe: read, or rebuilt from the others.
ghost use Rattle.std.specs.Prelude.{◌≡◌, ◌<◌, length, replicate};
ghost use Rattle.extent_groups.specs.Cells.{cells, front_units};
ghost use Rattle.extent_groups.specs.Calls.{if_ok, HaveRoom, NoPlace, SameBut, KeepsDrives};
ghost use Rattle.extent_groups.specs.Units.{InStripe, unit_at};
ghost use Rattle.extent_groups.specs.Stores.{HasMemberOn, IsGroupOf};
ghost use Rattle.parity_store.specs.Ways.{row_at, IsReadableRow};

use crate::others::{Others, add_others};
use extent_groups::{GroupTable, Member, Stripe, read_front};
use extents::Drive;

/// Makes all bytes zero.
fn clear(unit: &mut [u8])
    ensures { unit.new ≡ replicate (length unit.old) 0 }
{
    for byte in unit.iter_mut() {
        *byte = 0;
    }
}

/// Reads the first bytes of a unit of a stripe, `front.len()` of them, or adds up those of all others where its drive is lost.
/// Takes a buffer for each, and one of a unit's length or, for whole units, an empty one. False where one of these is lost too.
/// Inlined, as the read of the unit itself is short.
#[inline(always)]
pub(crate) fn read_stripe<D: Drive>(
    groups: &GroupTable,
    members: &[Member],
    drives: &mut [D],
    group: u16,
    at: &Stripe,
    front: &mut [u8],
    part: &mut [u8],
    scratch: &mut [u8],
) -> bool
    requires members { IsGroupOf groups.now group members.now }
    requires member { at.now.member < length (row_at groups.now group at.now.offset) }
    requires readable { IsReadableRow D.units groups.now group at.now.offset (length front.old) drives.old }
    requires part { length part.old ≡ length front.old }
    requires scratch { HaveRoom D.units (length front.old) (length scratch.old) drives.old }
    ensures unit { unit_at (length front.old) (cells (front_units (length front.old) D.units) D.lost drives.new)
        (InStripe (row_at groups.now group at.now.offset) at.now.parity at.now.member) ≡ if_ok result front.new }
    ensures touched { KeepsDrives D.units D.lost D.failures NoPlace drives.old drives.new }
    ensures elsewhere { SameBut (HasMemberOn groups.now group) drives.old drives.new }
{
    let home = groups.place_among(members, at.member, at.offset);
    if read_front(drives, home, front, scratch) {
        return true;
    }
    // All but the unit itself: the parity counts, since only with it they add up to the unit.
    let others = Others {
        group,
        offset: at.offset,
        first: at.member,
        second: at.member,
    };
    // A failed read may leave any bytes, so the sum starts from zeros.
    clear(front);
    add_others(groups, drives, others, front, part, scratch)
}
