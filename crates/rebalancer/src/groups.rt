// Which group has an extent on a drive.
ghost use Rattle.std.specs.Prelude.{◌≡◌, ℕ, ◌<◌, ◌==◌, length, position, IfSome, IfNone};
ghost use Rattle.extent_groups.specs.Groups.{AreGroups};
ghost use Rattle.rebalancer.specs.Carrying.{member_on, IsLowest, CarriesGroup, CanGive};

use extent_groups::{GROUPS, GroupTable, Member};

/// A group, and the number of its member on the drive in question.
#[derive(Clone, Copy)]
pub(crate) struct Carrier {
    pub(crate) group: u16,
    pub(crate) member: u8,
}

/// The number of the first of these members on the drive.
fn place_on(members: &[Member], drive: u8) -> Option<usize>
    ensures at { result ≡ position (λ m. m.drive == drive) members.now }
    ensures within { IfSome result (λ at. at < length members.now) }
{
    members.iter().position(|member| member.drive == drive)
}

/// The number of a group's member on the drive.
pub(crate) fn member_on(groups: &GroupTable, group: u16, drive: u8) -> Option<u8>
    ensures at { result ≡ member_on groups.now group drive }
    ensures groups { AreGroups groups.now }
{
    place_on(groups.members(group), drive).map(|at| at as u8)
}

/// The lowest group with a member on the drive.
pub(crate) fn first_on(groups: &GroupTable, drive: u8) -> Option<Carrier>
    ensures some { IfSome result (λ c. IsLowest (λ g. CarriesGroup groups.now drive g) c.group) }
    ensures member { IfSome result (λ c. member_on groups.now c.group drive ≡ Some c.member) }
    ensures none { IfNone result ((g : ℕ) → CarriesGroup groups.now drive g → ⊥) }
{
    for group in 0..GROUPS as u16 {
        if let Some(member) = member_on(groups, group, drive) {
            return Some(Carrier { group, member });
        }
    }
    None
}

/// The lowest group with a member on the one drive and none on the other.
pub(crate) fn first_to_give(groups: &GroupTable, from: u8, to: u8) -> Option<Carrier>
    ensures some { IfSome result (λ c. IsLowest (λ g. CanGive groups.now from to g) c.group) }
    ensures member { IfSome result (λ c. member_on groups.now c.group from ≡ Some c.member) }
    ensures none { IfNone result ((g : ℕ) → CanGive groups.now from to g → ⊥) }
{
    for group in 0..GROUPS as u16 {
        if let Some(member) = member_on(groups, group, from) {
            if member_on(groups, group, to).is_none() {
                return Some(Carrier { group, member });
            }
        }
    }
    None
}
