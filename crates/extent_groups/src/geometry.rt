// Where the slots of a group lie. Segments of a mirrored group have positions 0, 1, ..: position k is on member k mod n in
// row k / n. Two positions in turn are a pair, so that its copies are on two drives. A stripe of a parity group is one row of
// all members. Its parity moves from the last member down, a member a stripe, so that parity writes spread over all drives.
ghost use Rattle.std.specs.Prelude.{◌≡◌, ◌≢◌, ℕ, ◌+◌, ◌*◌, ◌<◌, ◌≤◌, ◌==◌, if◌then◌else◌};

/// A unit of a group: which member, and the offset in its extent.
#[derive(Clone, Copy, Debug, PartialEq, Eq)]
pub struct Spot {
    pub member: u8,
    pub offset: u16,
}

/// The two copies of a mirrored slot.
#[derive(Clone, Copy, Debug, PartialEq, Eq)]
pub struct Copies {
    pub first: Spot,
    pub second: Spot,
}

/// Where a parity slot lies: its stripe, its member and offset, and the member that holds the parity of that offset.
#[derive(Clone, Copy, Debug, PartialEq, Eq)]
pub struct Stripe {
    pub stripe: u8,
    pub member: u8,
    pub offset: u16,
    pub parity: u8,
}

ghost use Rattle.extent_groups.specs.Geometry.{spot_at, copies_of, parity_of, stripe_of, data_member};

/// The unit of a segment's position.
fn spot_of(members: u8, position: u16, unit: u16) -> Spot
    requires some { 1 ≤ members }
    requires low { position < 256 }
    requires two { unit < 2 }
    ensures { result ≡ spot_at members position unit }
{
    let members = members as u16;
    Spot {
        member: (position % members) as u8,
        offset: 2 * (position / members) + unit,
    }
}

/// Where the two copies of a mirrored slot lie, by the members of its group and the slot's index in it, below 128.
pub fn two_copies(members: u8, index: u16) -> Copies
    requires some { 1 ≤ members }
    requires low { index < 128 }
    ensures { result ≡ copies_of members index }
{
    let pair = index / 2;
    let unit = index % 2;
    Copies {
        first: spot_of(members, 2 * pair, unit),
        second: spot_of(members, 2 * pair + 1, unit),
    }
}

/// The even unit of the segment two positions after that of an odd unit.
fn two_further(members: u8, at: Spot) -> Spot
    requires many { (2 ≤ members) × (members ≤ 8) }
    requires member { at.member < members }
    requires offset { (1 ≤ at.offset) × (at.offset < 256) }
    ensures { (position : ℕ) → at ≡ spot_at members position 1 → result ≡ spot_at members (position + 2) 0 }
{
    let member = at.member + 2;
    if member < members {
        return Spot {
            member,
            offset: at.offset - 1,
        };
    }
    Spot {
        member: member - members,
        offset: at.offset + 1,
    }
}

/// The odd unit of a segment, by its even one.
fn unit_after(at: Spot) -> Spot
    requires { at.offset < 256 }
    ensures { result ≡ record { member = at.member; offset = at.offset + 1 } }
{
    Spot {
        member: at.member,
        offset: at.offset + 1,
    }
}

/// Where the two copies of the slot after that of an index lie, by where its own lie. A step takes no division, since a scan
/// takes it for each slot.
#[inline(always)]
pub fn next_copies(members: u8, index: u16, at: &Copies) -> Copies
    requires many { (2 ≤ members) × (members ≤ 8) }
    requires low { index < 128 }
    requires here { at.now ≡ copies_of members index }
    ensures { result ≡ copies_of members (index + 1) }
{
    if index % 2 == 0 {
        return Copies {
            first: unit_after(at.first),
            second: unit_after(at.second),
        };
    }
    Copies {
        first: two_further(members, at.first),
        second: two_further(members, at.second),
    }
}

/// The member that holds the parity of a row.
pub(crate) fn parity_at(members: u8, row: u8) -> u8
    requires { 1 ≤ members }
    ensures { result ≡ parity_of members row }
{
    members - 1 - row % members
}

/// The member with `others` members before it that aren't the parity's.
fn passed_over(parity: u8, others: u8) -> u8
    requires { others < 255 }
    ensures { result ≡ data_member parity others }
{
    if others < parity { others } else { others + 1 }
}

/// Where a parity slot lies, by the members of its group and the slot's index in it, below 128.
pub fn one_stripe(members: u8, index: u16) -> Stripe
    requires some { 2 ≤ members }
    requires low { index < 128 }
    ensures { result ≡ stripe_of members index }
{
    let segment = (index / 2) as u8;
    let row = segment / (members - 1);
    let parity = parity_at(members, row);
    Stripe {
        stripe: row,
        member: passed_over(parity, segment % (members - 1)),
        offset: 2 * row as u16 + index % 2,
        parity,
    }
}

/// A member, or the one after it if it holds the parity.
fn but_parity(parity: u8, member: u8) -> u8
    requires { member < 255 }
    ensures { result ≡ if member == parity then member + 1 else member }
{
    if member == parity { member + 1 } else { member }
}

/// Where the parity slot after that of an index lies, by where its own lies. A step takes no division, since a scan takes it
/// for each slot.
#[inline(always)]
pub fn next_stripe(members: u8, index: u16, at: &Stripe) -> Stripe
    requires many { (2 ≤ members) × (members ≤ 8) }
    requires low { index < 128 }
    requires here { at.now ≡ stripe_of members index }
    ensures { result ≡ stripe_of members (index + 1) }
{
    if index % 2 == 0 {
        return Stripe {
            stripe: at.stripe,
            member: at.member,
            offset: at.offset + 1,
            parity: at.parity,
        };
    }
    let member = but_parity(at.parity, at.member + 1);
    if member < members {
        return Stripe {
            stripe: at.stripe,
            member,
            offset: at.offset - 1,
            parity: at.parity,
        };
    }
    let parity = if at.parity == 0 {
        members - 1
    } else {
        at.parity - 1
    };
    Stripe {
        stripe: at.stripe + 1,
        member: but_parity(parity, 0),
        offset: at.offset + 1,
        parity,
    }
}
