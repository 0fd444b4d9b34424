// All slots of an array are tested.
ghost use Rattle.std.specs.Prelude.{◌≡◌, ◌≢◌, ◌+◌, ◌*◌, ◌≤◌, ℕ, List, [], length, true, IfOk, IsErrOf, IsOkUnless, OnOk};
ghost use Rattle.extent_groups.specs.declared.place.Place.{Place};
ghost use Rattle.extent_groups.specs.Calls.{FadesAt};
ghost use Rattle.extent_groups.specs.Cells.{Cells};
ghost use Rattle.extent_groups.specs.Groups.{AreGroups};
ghost use Rattle.extent_groups.specs.Stores.{AreSound, unit_bytes};
ghost use Rattle.unit_store.specs.Fit.{IsFit};
ghost use Rattle.unit_store.specs.Losses.{LosesOnly};
ghost use Rattle.unit_store.specs.Slots.{cells_in};
ghost use Rattle.drive_rebuild.specs.declared.fault.RebuildFault.TheVariants.{Memory, Misfit};
ghost use Rattle.drive_rebuild.specs.Scrubbed.{ReportsSlots, ReportsBelow, ReportsUnsound, slot_total, with_tested};

use crate::fault::RebuildFault;
use consistency_check::{find_unsound, is_sound};
use extent_groups::{GROUPS, GroupTable, SLOTS};
use extents::Drive;
use std::alloc::Global;
use unit_store::Parts;

/// How many slots that aren't sound are named.
pub const NAMED: usize = 100;

/// What a test of all slots found.
#[derive(Drop)]
pub struct Findings {
    /// The slots that were tested, whoever holds them.
    pub slots: u32,
    /// Those that aren't sound.
    pub unsound: u32,
    /// The lowest of them, `NAMED` at most.
    pub named: Vec<u16>,
}

// How many slots the groups have.
fn slots_in(groups: &GroupTable) -> u32
    ensures { AreGroups groups.now → result ≡ slot_total groups.now }
{
    let mut slots = 0u32;
    for group in 0..GROUPS as u16 {
        slots = slots.saturating_add(u32::from(groups.slots_of(group)));
    }
    slots
}

// Notes a slot that was tested, if it isn't sound.
fn note(findings: &mut Findings, slot: u16, is_sound: bool) -> Result<(), RebuildFault>
    ensures none { OnOk result (findings.new.unsound ≡ 0 → is_sound ≡ true) }
    ensures reported { (total : ℕ) (slots : List ℕ) → length slots ≤ slot → ReportsSlots total slots findings.old
        → OnOk result (ReportsSlots total (with_tested slots slot is_sound) findings.new) }
    ensures memory { IsOkUnless result Memory }
{
    if is_sound {
        return Ok(());
    }
    findings.unsound = findings.unsound.saturating_add(1);
    if findings.named.len() < NAMED {
        findings.named.push(slot)?;
    }
    Ok(())
}

// Tests each slot of a group, with two buffers of a unit's length.
fn scrub_group<D: Drive>(
    parts: &mut Parts<D>,
    group: u16,
    unit: &mut [u8],
    other: &mut [u8],
    findings: &mut Findings,
) -> Result<(), RebuildFault>
    requires fit { IsFit D.units parts.old }
    requires unit { length unit.old ≡ unit_bytes parts.old.groups }
    requires other { length other.old ≡ unit_bytes parts.old.groups }
    ensures fit { IsFit D.units parts.new }
    ensures only { LosesOnly D.units D.lost D.failures parts.old parts.new }
    ensures reported { (before : Cells) (total : ℕ) → ((x : Place) → FadesAt before (cells_in D.units D.lost parts.old) x)
        → ReportsBelow parts.old.groups before (cells_in D.units D.lost parts.old) total (128 * group) findings.old
        → OnOk result (ReportsBelow parts.old.groups before (cells_in D.units D.lost parts.new) total (128 * group + 128) findings.new) }
    ensures memory { IsOkUnless result Memory }
{
    for index in 0..parts.groups.slots_of(group) {
        let slot = SLOTS * group + index;
        let is_sound = is_sound(parts, slot, unit, other);
        note(findings, slot, is_sound)?;
    }
    Ok(())
}

// Tests the slots of all groups, with two buffers of a unit's length.
fn scrub_groups<D: Drive>(
    parts: &mut Parts<D>,
    unit: &mut [u8],
    other: &mut [u8],
    findings: &mut Findings,
) -> Result<(), RebuildFault>
    requires fit { IsFit D.units parts.old }
    requires unit { length unit.old ≡ unit_bytes parts.old.groups }
    requires other { length other.old ≡ unit_bytes parts.old.groups }
    ensures fit { IsFit D.units parts.new }
    ensures only { LosesOnly D.units D.lost D.failures parts.old parts.new }
    ensures reported { ReportsSlots (slot_total parts.old.groups) [] findings.old
        → OnOk result (ReportsUnsound parts.old.groups (cells_in D.units D.lost parts.old) (cells_in D.units D.lost parts.new) findings.new) }
    ensures memory { IsOkUnless result Memory }
{
    for group in 0..GROUPS as u16 {
        scrub_group(parts, group, unit, other, findings)?;
    }
    Ok(())
}

// Tests all slots. Names those that aren't sound, if there are any, with two buffers of a unit's length.
fn name_unsound<D: Drive>(
    parts: &mut Parts<D>,
    unit: &mut [u8],
    other: &mut [u8],
    findings: &mut Findings,
) -> Result<(), RebuildFault>
    requires fit { IsFit D.units parts.old }
    requires unit { length unit.old ≡ unit_bytes parts.old.groups }
    requires other { length other.old ≡ unit_bytes parts.old.groups }
    ensures sound { OnOk result (findings.new.unsound ≡ 0 → AreSound parts.new.groups (cells_in D.units D.lost parts.new)) }
    ensures reported { ReportsSlots (slot_total parts.old.groups) [] findings.old
        → OnOk result (ReportsUnsound parts.old.groups (cells_in D.units D.lost parts.old) (cells_in D.units D.lost parts.new) findings.new) }
    ensures memory { IsOkUnless result Memory }
    ensures only { LosesOnly D.units D.lost D.failures parts.old parts.new }
{
    // Mostly there is none: this reads each row once, while a test of each slot reads a row for each of its slots.
    let Some(slot) = find_unsound(parts, unit, other) else {
        return Ok(());
    };
    scrub_groups(parts, unit, other, findings)?;
    // Its drive may be lost since.
    if findings.unsound == 0 {
        note(findings, slot, false)?;
    }
    Ok(())
}

/// Tests all slots of the parts, also those that nobody holds: equal copies, and rows that add up to zero. A slot with a lost drive has
/// nothing to compare, and is sound.
pub fn scrub_parts<D: Drive>(alloc: Global, parts: &mut Parts<D>) -> Result<Findings, RebuildFault>
    // None was found only if all slots are sound.
    ensures sound { IfOk result (λ f. f.unsound ≡ 0 → AreSound parts.new.groups (cells_in D.units D.lost parts.new)) }

    // Each slot that isn't sound is counted, no other is, and the lowest of them are named.
    ensures reported { IfOk result (ReportsUnsound parts.old.groups (cells_in D.units D.lost parts.old) (cells_in D.units D.lost parts.new)) }

    // Parts that fit one another are tested unless memory runs out, and others are not.
    ensures memory { IsFit D.units parts.old → IsOkUnless result Memory }
    ensures misfit { (IsFit D.units parts.old → ⊥) → IsErrOf result Misfit }

    // It reads, and nothing else: a drive is lost by its own failure alone.
    ensures only { LosesOnly D.units D.lost D.failures parts.old parts.new }
{
    if !parts.is_fit() {
        return Err(RebuildFault::Misfit);
    }
    let size = parts.shape.unit_bytes();
    let mut unit = vec![in alloc; 0u8; size]?;
    let mut other = vec![in alloc; 0u8; size]?;
    let mut findings = Findings {
        slots: slots_in(&parts.groups),
        unsound: 0,
        named: Vec::new(alloc),
    };
    name_unsound(parts, &mut unit, &mut other, &mut findings)?;
    Ok(findings)
}
