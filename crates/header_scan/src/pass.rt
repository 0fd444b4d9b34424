// The map of an array from the headers of its units.
ghost use Rattle.std.specs.Prelude.{◌≡◌, ℕ, ◌+◌, ◌*◌, ◌^◌, ◌<◌, ◌≤◌, length, OnOk, IfOk, IfErr};
ghost use Rattle.map_join.specs.Maps.{at};
ghost use Rattle.extent_groups.specs.Cells.{Cells};
ghost use Rattle.extent_groups.specs.Groups.{group_at, slots_in};
ghost use Rattle.extent_groups.specs.Stores.{unit_of, AreSound};
ghost use Rattle.flat_machine.specs.Scanned.{IsScanned};
ghost use Rattle.flat_machine.specs.Restarted.{HasDistinctSlots};
ghost use Rattle.header_scan.specs.Faults.{AreFine, IsFirstFault, IsTwice, between};
ghost use Rattle.header_scan.specs.Found.{key_in, IsUnderway, ArePlaced, Keeps, WasOnlyRead};

use crate::ScanFault;
use crate::found::Found;
use crate::keys::Keys;
use crate::look::look;
use extent_groups::{GROUPS, GroupTable, SLOTS};
use extents::HEADER_BYTES;
use map_join::BlockMap;
use std::alloc::Global;
use unit_store::Units;

/// How many slots a group has. The contract of `members` implies that there are fewer than 128.
fn count_slots(groups: &GroupTable, group: u16) -> u16
    ensures count { result ≡ slots_in groups.now.segments (group_at groups.now group) }
    ensures few { result < 128 }
{
    let _members = groups.members(group);
    groups.slots_of(group)
}

/// Notes the headers of the slots of one group, read in one call, with buffers for 128 headers and for the reads.
pub(crate) fn scan_group<U: Units>(
    alloc: Global,
    units: &mut U,
    group: u16,
    blocks: u32,
    found: &mut Found,
    headers: &mut [[u8; HEADER_BYTES]],
    scratch: &mut [u8],
) -> Result<(), ScanFault>
    requires fits { U.fits units.old }
    requires group { group < 512 }
    requires blocks { blocks ≡ (U.groups units.old).blocks }
    requires many { length found.old.newest ≡ blocks }
    requires headers { length headers.old ≡ 128 }
    requires scratch { U.scratch_length (U.groups units.old) ≤ length scratch.old }
    ensures many { OnOk result (length found.new.newest ≡ blocks) }
    ensures ok { (low : ℕ) (start : Cells) → low ≤ 128 * group
        → IsUnderway (U.groups units.old) start (U.cells units.old) low (128 * group) (key_in found.old.newest) (at found.old.twins)
        → OnOk result (IsUnderway (U.groups units.old) start (U.cells units.new) low (128 * group + 128) (key_in found.new.newest) (at found.new.twins)) }
    ensures err { (low high : ℕ) (start : Cells) → low ≤ 128 * group → 128 * group + 128 ≤ high
        → IsUnderway (U.groups units.old) start (U.cells units.old) low (128 * group) (key_in found.old.newest) (at found.old.twins)
        → IfErr result (IsFirstFault (U.groups units.old) low high (unit_of (U.groups units.old) start) (unit_of (U.groups units.old) (U.cells units.new))) }
    ensures inside { ArePlaced (U.groups units.old) (128 * group) (key_in found.old.newest)
        → OnOk result (ArePlaced (U.groups units.old) (128 * group + 128) (key_in found.new.newest)) }
    ensures left { WasOnlyRead U.groups U.cells U.fits U.leaves units.old units.new }
{
    let count = count_slots(units.groups(), group);
    // A number without a group takes no call of the units, so that a scan of few groups is short.
    if count == 0 {
        return Ok(());
    }
    let headers = &mut headers[..count as usize];
    let read = units.headers(group, headers, scratch);
    for index in 0..read {
        let reported = match look(&headers[index as usize], SLOTS * group + index, blocks) {
            Ok(reported) => reported,
            Err(fault) => return Err(fault),
        };
        if let Some(reported) = reported {
            found.note(alloc, reported)?;
        }
    }
    // After the headers below it, so that the fault is that of the lowest slot. A slot that is gone is a fault, because its
    // header may have a block's newest record.
    if read < count {
        return Err(ScanFault::Gone(SLOTS * group + read));
    }
    Ok(())
}

/// Notes the headers of the slots of a range of groups.
fn note_groups<U: Units>(
    alloc: Global,
    units: &mut U,
    first: u16,
    end: u16,
) -> Result<Found, ScanFault>
    requires fits { U.fits units.old }
    requires order { first ≤ end }
    requires end { end ≤ 512 }
    ensures ok { AreSound (U.groups units.old) (U.cells units.old)
        → IfOk result (λ f. IsUnderway (U.groups units.old) (U.cells units.old) (U.cells units.new) (128 * first) (128 * end) (key_in f.newest) (at f.twins)) }
    ensures err { AreSound (U.groups units.old) (U.cells units.old)
        → IfErr result (IsFirstFault (U.groups units.old) (128 * first) (128 * end) (unit_of (U.groups units.old) (U.cells units.old))
        (unit_of (U.groups units.old) (U.cells units.new))) }
    ensures many { IfOk result (λ f. length f.newest ≡ (U.groups units.old).blocks) }
    ensures inside { IfOk result (λ f. ArePlaced (U.groups units.old) (128 * end) (key_in f.newest)) }
    ensures left { WasOnlyRead U.groups U.cells U.fits U.leaves units.old units.new }
{
    let blocks = units.groups().shape().blocks;
    let newest = Keys::new(alloc, blocks)?;
    let mut headers = [[0; HEADER_BYTES]; SLOTS as usize];
    let mut scratch = vec![in alloc; 0; units.scratch_length()]?;
    let mut found = Found {
        newest,
        twins: BlockMap::new(alloc),
    };
    for group in first..end {
        match scan_group(
            alloc,
            units,
            group,
            blocks,
            &mut found,
            &mut headers,
            &mut scratch,
        ) {
            Ok(()) => {}
            Err(fault) => return Err(fault),
        }
    }
    Ok(found)
}

/// The map of the headers of a range of groups, read in one pass. Where there are several faults, returns the one that comes
/// first: that of the lowest slot, else the lowest block that occurs twice. Out of memory may come before.
pub fn scan_groups<U: Units>(
    alloc: Global,
    units: &mut U,
    first: u16,
    end: u16,
) -> Result<BlockMap, ScanFault>
    requires fits { U.fits units.old }
    requires order { first ≤ end }
    requires end { end ≤ 512 }
    ensures map { AreSound (U.groups units.old) (U.cells units.old)
        → IfOk result (λ m. IsScanned (between (128 * first) (128 * end) (unit_of (U.groups units.old) (U.cells units.old))) (at m)) }
    ensures fine { AreSound (U.groups units.old) (U.cells units.old)
        → OnOk result (AreFine (U.groups units.old) (128 * first) (128 * end) (unit_of (U.groups units.old) (U.cells units.old))) }
    ensures once { AreSound (U.groups units.old) (U.cells units.old)
        → OnOk result ((b p q : ℕ) → IsTwice (between (128 * first) (128 * end) (unit_of (U.groups units.old) (U.cells units.old))) b p q → ⊥) }
    ensures fault { AreSound (U.groups units.old) (U.cells units.old)
        → IfErr result (IsFirstFault (U.groups units.old) (128 * first) (128 * end) (unit_of (U.groups units.old) (U.cells units.old))
        (unit_of (U.groups units.old) (U.cells units.new))) }
    ensures inside { IfOk result (λ m. HasDistinctSlots (U.groups units.old) (at m)) }
    ensures keeps { Keeps (U.groups units.old) (U.cells units.old) (U.cells units.new) }
    ensures groups { U.groups units.new ≡ U.groups units.old }
    ensures fits { U.fits units.new }
    ensures leaves { U.leaves units.old units.new }
{
    let blocks = units.groups().shape().blocks;
    let found = note_groups(alloc, units, first, end)?;
    // After all slots, because a fault of a slot comes before a block that is there twice.
    if let Some((block, one, other)) = found.twice(alloc, blocks) {
        return Err(ScanFault::Twice(block, one, other));
    }
    Ok(found.newest.to_map(alloc)?)
}

/// The map of the headers of all groups, read in one pass. Where there are several faults, returns that of the lowest slot,
/// else the lowest block that occurs twice. Out of memory may come before.
pub fn scan<U: Units>(alloc: Global, units: &mut U) -> Result<BlockMap, ScanFault>
    requires fits { U.fits units.old }
    ensures map { AreSound (U.groups units.old) (U.cells units.old)
        → IfOk result (λ m. IsScanned (between 0 (2 ^ 16) (unit_of (U.groups units.old) (U.cells units.old))) (at m)) }
    ensures fine { AreSound (U.groups units.old) (U.cells units.old)
        → OnOk result (AreFine (U.groups units.old) 0 (2 ^ 16) (unit_of (U.groups units.old) (U.cells units.old))) }
    ensures once { AreSound (U.groups units.old) (U.cells units.old)
        → OnOk result ((b p q : ℕ) → IsTwice (between 0 (2 ^ 16) (unit_of (U.groups units.old) (U.cells units.old))) b p q → ⊥) }
    ensures fault { AreSound (U.groups units.old) (U.cells units.old)
        → IfErr result (IsFirstFault (U.groups units.old) 0 (2 ^ 16) (unit_of (U.groups units.old) (U.cells units.old))
        (unit_of (U.groups units.old) (U.cells units.new))) }
    ensures inside { IfOk result (λ m. HasDistinctSlots (U.groups units.old) (at m)) }
    ensures keeps { Keeps (U.groups units.old) (U.cells units.old) (U.cells units.new) }
    ensures groups { U.groups units.new ≡ U.groups units.old }
    ensures fits { U.fits units.new }
    ensures leaves { U.leaves units.old units.new }
{
    scan_groups(alloc, units, 0, GROUPS as u16)
}
