// What lies at an offset of a member: the way back from a unit to its slot.

/// What lies at an offset of a member of a group.
#[derive(Clone, Copy, Debug, PartialEq, Eq)]
pub enum Role {
    /// A unit of the slot of this index.
    Slot(u16),
    /// The parity of the other members' units at this offset.
    ParityUnit,
    /// No slot's unit: the last segment of a mirrored group where that has no partner.
    Unused,
}
