// The map of an array from the headers of two ranges of its groups.
ghost use Rattle.std.specs.Prelude.{◌≡◌, ◌*◌, ◌^◌, ◌≤◌, OnOk, IfOk, IfErr};
ghost use Rattle.map_join.specs.Maps.{at};
ghost use Rattle.extent_groups.specs.Stores.{unit_of, AreSound};
ghost use Rattle.flat_machine.specs.Scanned.{IsScanned};
ghost use Rattle.header_scan.specs.Faults.{AreFine, between};
ghost use Rattle.header_scan.specs.Found.{Keeps};
ghost use Rattle.header_scan.specs.Ranges.{IsFaultOfRanges};

use crate::{ScanFault, parts_laws, scan_groups};
use extent_groups::GROUPS;
use map_join::BlockMap;
use std::alloc::Global;
use unit_store::Units;

/// The map of the headers of all groups, merged from a pass over the groups below `middle`, 0 to 512, and one over the others.
/// It is the map that `scan` returns. A stamp of a block in both ranges is no fault.
pub fn scan_in_parts<U: Units>(
    alloc: Global,
    units: &mut U,
    middle: u16,
) -> Result<BlockMap, ScanFault>
    requires fits { U.fits units.old }
    requires middle { middle ≤ 512 }
    ensures map { AreSound (U.groups units.old) (U.cells units.old)
        → IfOk result (λ m. IsScanned (between 0 (2 ^ 16) (unit_of (U.groups units.old) (U.cells units.old))) (at m)) }
    ensures fine { AreSound (U.groups units.old) (U.cells units.old)
        → OnOk result (AreFine (U.groups units.old) 0 (2 ^ 16) (unit_of (U.groups units.old) (U.cells units.old))) }
    ensures fault { AreSound (U.groups units.old) (U.cells units.old)
        → IfErr result (IsFaultOfRanges (U.groups units.old) 0 (128 * middle) (2 ^ 16) (U.cells units.old) (U.cells units.new)) }
    ensures keeps { Keeps (U.groups units.old) (U.cells units.old) (U.cells units.new) }
    ensures groups { U.groups units.new ≡ U.groups units.old }
    ensures fits { U.fits units.new }
    ensures leaves { U.leaves units.old units.new }
{
    // For the proof alone: by this law the join of the two maps is the map of all groups.
    parts_laws();
    let mut map = match scan_groups(alloc, units, 0, middle) {
        Ok(map) => map,
        Err(fault) => return Err(fault),
    };
    let rest = match scan_groups(alloc, units, middle, GROUPS as u16) {
        Ok(rest) => rest,
        Err(fault) => return Err(fault),
    };
    map.merge(alloc, &rest)?;
    Ok(map)
}
