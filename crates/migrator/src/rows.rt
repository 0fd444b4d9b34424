// Rows of group numbers, of which a walk skips those without a group that it looks for.
ghost use Rattle.std.specs.Prelude.{◌≡◌, ◌↔◌, ℕ, ◌*◌, ◌/◌, ◌<◌, false, Some, length, slice_index};
ghost use Rattle.std.specs.Simd.Lanes.{chunk};
ghost use Rattle.extent_groups.specs.declared.class.Class.TheVariants.{Parity};
ghost use Rattle.extent_groups.specs.Groups.{class_in, group_at};
ghost use Rattle.migrator.specs.Counts.{if_zero};

use extent_groups::{Class, GROUPS, GroupTable};
use std::simd::prelude::*;

/// How many group numbers a row has: 16, so that one vector has a row of a table.
pub(crate) const ROW: u16 = 16;

/// How many rows there are.
pub(crate) const ROWS: u16 = 32;

// Whether the row may have a group of the class. False means that it has none. For parity groups true means that it has one;
// for mirrored groups it is always true, because there is no table of their slots.
pub(crate) fn may_have(groups: &GroupTable, class: Class, row: u16) -> bool
    requires { row < 32 }
    ensures none { result ≡ false → (group : ℕ) → group / 16 ≡ row → class_in (group_at groups.now group) ≡ Some class → ⊥ }
    ensures exact { class ≡ Parity → ((group : ℕ) → group / 16 ≡ row → class_in (group_at groups.now group) ≡ Some class → ⊥) → result ≡ false }
{
    match class {
        Class::Mirrored => true,
        Class::Parity => has_any(row_of(groups.parity_slots(), row)),
    }
}

// Whether a parity group of the row has a count of 0. `slots` has the slots of each parity group.
pub(crate) fn has_zero(slots: &[u16], counts: &[u16; GROUPS], row: u16) -> bool
    requires whole { length slots.now ≡ 512 }
    requires low { row < 32 }
    ensures { (result ≡ false) ↔ ((group : ℕ) → group / 16 ≡ row → 0 < slice_index slots.now group → slice_index counts.now group ≡ 0 → ⊥) }
{
    has_any(keep_if_zero(row_of(counts, row), row_of(slots, row)))
}

// A row of a table of the groups.
#[inline(always)]
fn row_of(table: &[u16], row: u16) -> u16x16
    requires whole { length table.now ≡ 512 }
    requires low { row < 32 }
    ensures { result ≡ chunk (16 * row) 16 table.now }
{
    u16x16::from_slice(&table[usize::from(ROW * row)..])
}

// The slots of the groups whose count is 0, and else 0.
#[inline(always)]
fn keep_if_zero(counts: u16x16, slots: u16x16) -> u16x16
    ensures { (lane : ℕ) → lane < 16 → slice_index result lane ≡ if_zero (slice_index counts lane) (slice_index slots lane) }
{
    let none = u16x16::splat(0);
    counts.simd_eq(none).select(slots, none)
}

// Whether one of the lanes isn't 0.
#[inline(always)]
fn has_any(lanes: u16x16) -> bool
    ensures { (result ≡ false) ↔ ((lane : ℕ) → lane < 16 → slice_index lanes lane ≡ 0) }
{
    lanes.simd_ne(u16x16::splat(0)).any()
}
