// Where the slots of a group lie. Members are numbered from 0 in the group's order, and an offset counts the units of an extent.
ghost use Rattle.std.specs.Prelude.{◌≡◌, ◌≤◌, ◌↔◌, IsTrue};
ghost use Rattle.extent_groups.specs.Geometry.{slot_count};
ghost use Rattle.raid_c.specs.Status.{Returns};
ghost use Rattle.raid_c.specs.Geometry.{CountsSlots, FindsCopies, FindsStripe, IsGroup, IsSlotIndex, class_by_number, as_copies, as_stripe};

use crate::status::Status;
use extent_groups::{Class, Copies, Spot, Stripe, count_slots, one_stripe, two_copies};

/// The numbers of the classes: a mirrored group, and then a parity group.
const MIRRORED: u32 = 0;

const PARITY: u32 = 1;

/// A unit of a group.
#[repr(C)]
#[derive(Clone, Copy)]
pub struct UnitPlace {
    pub member: u16,
    pub offset: u16,
}

/// The two copies of a mirrored slot.
#[repr(C)]
#[derive(Clone, Copy)]
pub struct SlotCopies {
    pub first: UnitPlace,
    pub second: UnitPlace,
}

/// Where a parity slot lies: its stripe, its member and offset, and the member that holds the parity of that offset.
#[repr(C)]
#[derive(Clone, Copy)]
pub struct SlotStripe {
    pub stripe: u16,
    pub member: u16,
    pub offset: u16,
    pub parity: u16,
}

// The place of a unit.
fn place_of(spot: Spot) -> UnitPlace
    ensures member { result.member ≡ spot.member }
    ensures offset { result.offset ≡ spot.offset }
{
    UnitPlace {
        member: u16::from(spot.member),
        offset: spot.offset,
    }
}

// The places of both copies.
fn places_of(copies: Copies) -> SlotCopies
    ensures { as_copies result ≡ copies }
{
    SlotCopies {
        first: place_of(copies.first),
        second: place_of(copies.second),
    }
}

// The stripe with the same numbers.
fn stripe_of(stripe: Stripe) -> SlotStripe
    ensures { as_stripe result ≡ stripe }
{
    SlotStripe {
        stripe: u16::from(stripe.stripe),
        member: u16::from(stripe.member),
        offset: stripe.offset,
        parity: u16::from(stripe.parity),
    }
}

// Whether a group may have this class and these numbers of members and segments. Tested before the casts of these numbers to
// fewer bits.
fn is_group(class: u32, members: u32, segments: u32) -> bool
    ensures { IsTrue result ↔ IsGroup class members segments }
{
    class <= PARITY && 3 <= members && members <= 8 && 1 <= segments && segments <= 8
}

// How many slots a group has.
fn slots_of(class: u32, members: u32, segments: u32) -> u16
    requires { IsGroup class members segments }
    ensures { result ≡ slot_count (class_by_number class) members segments }
{
    let class = if class == MIRRORED {
        Class::Mirrored
    } else {
        Class::Parity
    };
    count_slots(class, members as u16, segments as u16)
}

// Whether such a group has a slot of this index.
fn is_slot(class: u32, members: u32, segments: u32, index: u32) -> bool
    ensures { IsTrue result ↔ IsSlotIndex class members segments index }
{
    is_group(class, members, segments) && index < u32::from(slots_of(class, members, segments))
}

/// How many slots a group has, by its class (0 mirrored, 1 parity), 3 to 8 members and 1 to 8 segments of an extent. Range if
/// one of them is out of its range: then `slots` is unchanged.
#[unsafe(no_mangle)]
pub extern "C" fn behkuna_slot_count(
    class: u32,
    members: u32,
    segments: u32,
    slots: &mut u16,
) -> u32
    ensures { Returns result (λ status. CountsSlots status class members segments slots.old slots.new) }
{
    if !is_group(class, members, segments) {
        return Status::Range.number();
    }
    *slots = slots_of(class, members, segments);
    Status::Done.number()
}

/// Where the two copies of a mirrored slot lie, by its group's members and segments and its index in the group. Range if no
/// mirrored group has such a slot: then `copies` is unchanged.
#[unsafe(no_mangle)]
pub extern "C" fn behkuna_two_copies(
    members: u32,
    segments: u32,
    index: u32,
    copies: &mut SlotCopies,
) -> u32
    ensures { Returns result (λ status. FindsCopies status members segments index copies.old copies.new) }
{
    if !is_slot(MIRRORED, members, segments, index) {
        return Status::Range.number();
    }
    *copies = places_of(two_copies(members as u8, index as u16));
    Status::Done.number()
}

/// Where a parity slot lies, by its group's members and segments and its index in the group. Range if no parity group has such
/// a slot: then `stripe` is unchanged.
#[unsafe(no_mangle)]
pub extern "C" fn behkuna_one_stripe(
    members: u32,
    segments: u32,
    index: u32,
    stripe: &mut SlotStripe,
) -> u32
    ensures { Returns result (λ status. FindsStripe status members segments index stripe.old stripe.new) }
{
    if !is_slot(PARITY, members, segments, index) {
        return Status::Range.number();
    }
    *stripe = stripe_of(one_stripe(members as u8, index as u16));
    Status::Done.number()
}
